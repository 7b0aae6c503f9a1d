//! Reads the policy file.

ghost use Rattle.std.specs.Prelude.{◌≡◌, IfOk, string_bytes};
ghost use Rattle.policy.specs.Values.{policy_view};
ghost use Rattle.machine.specs.Policies.{counts_line, policy_line};

use faults::Fault;
use policy::{LONGEST_FILE, Policy, PolicyFault};
use policy_review::problem_in;
use std::alloc::{AllocError, Global};
use std::fs::File;
use std::io::{self, ErrorKind, Read};
use std::rt::HostRuntime;

/// The bytes of a file, at most one more than the longest policy file has: a longer one is noticed.
fn read_file(rt: &HostRuntime, path: &str) -> io::Result<Vec<u8>> {
    let mut bytes = Vec::new(rt.alloc());
    File::open(rt, path)?
        .take(LONGEST_FILE as u64 + 1)
        .read_to_end(&mut bytes)?;
    Ok(bytes)
}

/// The bytes of the policy file.
///
/// # Errors
///
/// `PolicyFile` if the file could not be read, and `Memory`.
fn policy_bytes(rt: &HostRuntime, path: &str) -> Result<Vec<u8>, Fault> {
    match read_file(rt, path) {
        Ok(bytes) => Ok(bytes),
        Err(error) if error.kind() == ErrorKind::OutOfMemory => Err(Fault::Memory),
        Err(_) => Err(Fault::PolicyFile),
    }
}

/// Reads the policy in the file.
///
/// # Errors
///
/// `PolicyFile` if the file could not be read, `Policy` with the first fault of its text, and
/// `Memory`.
pub fn read_policy(rt: &HostRuntime, path: &str) -> Result<Policy, Fault> {
    let bytes = policy_bytes(rt, path)?;
    Ok(Policy::read_bytes(rt.alloc(), bytes.as_slice())?)
}

/// Reads the policy in the file, as [`read_policy`] does. A fault of its text is described.
///
/// # Errors
///
/// Those of [`read_policy`], with `PolicyDescribed` in place of `Policy`.
pub fn read_described(rt: &HostRuntime, path: &str) -> Result<Policy, Fault> {
    let bytes = policy_bytes(rt, path)?;
    match Policy::read_bytes(rt.alloc(), bytes.as_slice()) {
        Ok(policy) => Ok(policy),
        Err(PolicyFault::Refused(fault)) => {
            let problem = problem_in(rt.alloc(), bytes.as_slice(), fault)?;
            Err(Fault::PolicyDescribed(fault, problem))
        }
        Err(PolicyFault::Memory) => Err(Fault::Memory),
    }
}

/// The line with the numbers of repositories and rows.
fn counts_line(alloc: Global, repos: usize, rows: usize) -> Result<String, AllocError>
    ensures { IfOk result (λ text. string_bytes text ≡ counts_line repos rows) }
{
    format!(in alloc; "policy ok: {repos} repositories, {rows} rows")
}

/// Returns the line that is printed for a policy without a fault.
///
/// # Errors
///
/// Memory ran out.
pub fn policy_line(alloc: Global, policy: &Policy) -> Result<String, AllocError>
    ensures { IfOk result (λ text. string_bytes text ≡ policy_line (policy_view policy.now)) }
{
    counts_line(alloc, policy.repos().len(), policy.rows().len())
}
