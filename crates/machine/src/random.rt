//! Reads random bytes.

use faults::Fault;
use std::fs::File;
use std::io::Read;
use std::rt::HostRuntime;

/// Reads the first 32 bytes of the file.
///
/// # Errors
///
/// `Random` if it could not be opened or read, or is shorter.
pub fn read_random(rt: &HostRuntime, path: &str) -> Result<[u8; 32], Fault> {
    let mut bytes = [0; 32];
    let Ok(mut file) = File::open(rt, path) else {
        return Err(Fault::Random);
    };
    match file.read_exact(&mut bytes) {
        Ok(()) => Ok(bytes),
        Err(_) => Err(Fault::Random),
    }
}
