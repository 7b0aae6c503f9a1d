//! Reads the input of a command.

ghost use Rattle.std.specs.Prelude.{◌≡◌, length, IfErr, IfOk, IfSome};
ghost use Rattle.std.specs.Io.KnownBytes.{Consumes};
ghost use Rattle.cli.specs.Asked.{IsUnasked, IsUnread};
ghost use Rattle.cli.specs.Reading.{IsReadTo};

use faults::Fault;
use names::{DeviceFault, Source};
use std::alloc::{AllocError, Global};

/// Reads a source until it ends, or this many bytes or more were read. `None` if a read failed.
///
/// # Errors
///
/// Memory ran out.
pub(crate) fn read_to<R: Source>(
    alloc: Global,
    source: &mut R,
    most: usize,
) -> Result<Option<Vec<u8>>, AllocError>
    ensures { IfOk result (λ read. IfSome read (λ bytes.
        IsReadTo most (R.left source.old) (R.left source.new) bytes.items)) }
{
    let mut bytes = Vec::new(alloc);
    let mut piece = [0; 4_096];
    'pieces: for _ in 0..u64::MAX {
        if bytes.len() >= most {
            return Ok(Some(bytes));
        }
        match source.read(&mut piece) {
            Ok(0) => return Ok(Some(bytes)),
            Ok(count) => bytes.extend_from_slice(&piece[..count])?,
            Err(_) => return Ok(None),
        }
    }
    Ok(None)
}

/// Reads exactly this many bytes of a reply.
///
/// # Errors
///
/// `Control` if the source ends before, or a read failed, and `Memory`.
pub(crate) fn read_exactly<R: Source>(
    alloc: Global,
    source: &mut R,
    size: usize,
) -> Result<Vec<u8>, Fault>
    ensures bytes { IfOk result (λ bytes.
        Consumes (R.left source.old) (R.left source.new) bytes.items) }
    ensures size { IfOk result (λ bytes. length bytes.items ≡ size) }
    ensures err { IfErr result IsUnread }
{
    let mut bytes = Vec::new(alloc);
    let mut piece = [0; 4_096];
    'pieces: for _ in 0..u64::MAX {
        let left = size.saturating_sub(bytes.len());
        if left == 0 {
            return Ok(bytes);
        }
        match source.read(&mut piece[..left.min(4_096)]) {
            Ok(0) | Err(_) => return Err(Fault::Control),
            Ok(count) => bytes.extend_from_slice(&piece[..count])?,
        }
    }
    Err(Fault::Control)
}

/// Reads a source until it ends, and drops what is read.
///
/// # Errors
///
/// That of the source.
pub(crate) fn skip<R: Source>(source: &mut R) -> Result<(), DeviceFault> {
    let mut piece = [0; 4_096];
    'pieces: for _ in 0..u64::MAX {
        if source.read(&mut piece)? == 0 {
            break;
        }
    }
    Ok(())
}

/// Reads the input until it ends, or this many bytes or more were read.
///
/// # Errors
///
/// `Output` if the input could not be read, and `Memory`.
pub(crate) fn read_input<R: Source>(
    alloc: Global,
    input: &mut R,
    most: usize,
) -> Result<Vec<u8>, Fault>
    ensures ok { IfOk result (λ bytes.
        IsReadTo most (R.left input.old) (R.left input.new) bytes.items) }
    ensures err { IfErr result IsUnasked }
{
    match read_to(alloc, input, most)? {
        Some(bytes) => Ok(bytes),
        None => Err(Fault::Output),
    }
}
