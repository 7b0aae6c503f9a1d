//! What `serve` says before it opens its database, which takes seconds if it is large.

ghost use Rattle.std.specs.Prelude.{◌≡◌, IfOk, string_bytes};
ghost use Rattle.cli.specs.Sizes.{size_text};

use machine::policy_line;
use names::Counted;
use operator::Lines;
use policy::Policy;
use std::alloc::{AllocError, Global};
use std::fs;
use std::io::Write;
use std::rt::HostRuntime;

/// A number of bytes in decimal units, rounded down: KB below 1 MB, and tenths of a MB below 10 MB.
///
/// # Errors
///
/// Fails if there is no memory.
pub fn size_text(alloc: Global, bytes: u64) -> Result<String, AllocError>
    ensures { IfOk result (λ text. string_bytes text ≡ size_text bytes) }
{
    let whole = bytes / 1_000_000;
    if bytes < 1_000_000 {
        let thousands = bytes / 1_000;
        format!(in alloc; "{thousands} KB")
    } else if bytes < 10_000_000 {
        let tenths = bytes / 100_000 % 10;
        format!(in alloc; "{whole}.{tenths} MB")
    } else {
        format!(in alloc; "{whole} MB")
    }
}

/// The size of a file; 0 if there is none.
fn size_of(rt: &HostRuntime, path: &str) -> u64 {
    match fs::metadata(rt, path) {
        Ok(found) => found.len(),
        Err(_) => 0,
    }
}

/// The line about a database of this size.
fn reading_line(alloc: Global, db: &str, bytes: u64) -> Result<String, AllocError> {
    let size = size_text(alloc, bytes)?;
    format!(in alloc; "reading {db} ({size})")
}

/// The number of bytes of a database and its log; 0 if there is none.
fn database_size(rt: &HostRuntime, db: &str) -> Result<u64, AllocError> {
    let size = size_of(rt, db);
    if size == 0 {
        return Ok(0);
    }
    let log = format!(in rt.alloc(); "{db}-wal")?;
    Ok(size.saturating_add(size_of(rt, log.as_str())))
}

/// The lines about a policy and a database that are read.
///
/// # Errors
///
/// Memory ran out.
fn start_lines(rt: &HostRuntime, policy: &Policy, db: &str) -> Result<Lines, AllocError> {
    let mut lines = Lines::new(rt.alloc());
    lines.push(policy_line(rt.alloc(), policy)?.as_bytes())?;
    let size = database_size(rt, db)?;
    if size > 0 {
        lines.push(reading_line(rt.alloc(), db, size)?.as_bytes())?;
    }
    Ok(lines)
}

/// Writes on the error stream how many repositories and rows the policy has, and that the database is read, with its size, if
/// it exists.
pub(crate) fn show_start<E: Write>(rt: &HostRuntime, policy: &Policy, db: &str, errors: &mut E) {
    if let Ok(lines) = start_lines(rt, policy, db) {
        // Nothing depends on what is shown.
        let _ = lines.write(&mut Counted::new(errors));
    }
}
