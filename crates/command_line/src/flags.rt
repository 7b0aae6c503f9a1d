//! Flags that do not depend on the command, and the server that is asked if no argument names one.

ghost use Rattle.std.specs.Prelude.{◌≡◌, ◌++◌, map, IfOk, IfSome, string_bytes};
ghost use Rattle.command_line.specs.Flags.{is_given, with_server};

use crate::args::read_args;
use crate::faults::ArgsFault;
use clap::error::ErrorKind;
use std::alloc::{AllocError, Global};

/// Whether a flag, as `--explain`, is among the arguments before the first `--`.
pub fn is_given(args: &[String], flag: &str) -> bool
    ensures { result ≡ is_given flag.now (map string_bytes args.now) }
{
    for word in args {
        if word.as_str() == "--" {
            return false;
        }
        if word.as_str() == flag {
            return true;
        }
    }
    false
}

/// Adds copies of the words.
fn copy_to(alloc: Global, words: &mut Vec<String>, more: &[String]) -> Result<(), AllocError>
    ensures { IfOk result (λ _. map string_bytes words.new.items
        ≡ map string_bytes words.old.items ++ map string_bytes more.now) }
{
    for word in more {
        words.push(String::from_str(alloc, word.as_str())?)?;
    }
    Ok(())
}

/// The arguments with this server, which is named after the command.
fn inserted(alloc: Global, args: &[String], socket: &str) -> Result<Vec<String>, AllocError>
    ensures { IfOk result (λ words. map string_bytes words.items
        ≡ with_server socket.now (map string_bytes args.now)) }
{
    let (command, rest) = args.split_at(args.len().min(2));
    let mut words = Vec::new(alloc);
    copy_to(alloc, &mut words, command)?;
    words.push(String::from_str(alloc, "--via")?)?;
    words.push(String::from_str(alloc, socket)?)?;
    copy_to(alloc, &mut words, rest)?;
    Ok(words)
}

/// How `clap` takes arguments.
#[derive(Clone, Copy, PartialEq, Eq)]
enum Reading {
    /// They are a command, or a value is not in its range.
    Accepted,
    /// A required one is missing.
    Lacking,
    /// They are rejected for another cause.
    Rejected,
}

/// How `clap` takes the arguments.
fn reading_of(alloc: Global, args: &[String]) -> Reading {
    match read_args(alloc, args) {
        Err(ArgsFault::Rejected(error)) => match error.kind() {
            ErrorKind::MissingRequiredArgument => Reading::Lacking,
            _ => Reading::Rejected,
        },
        _ => Reading::Accepted,
    }
}

/// Adds the server at this socket to the arguments of a command that needs files or a server, and names neither. `None` for
/// any other arguments.
///
/// # Errors
///
/// Memory ran out.
pub fn with_server(
    alloc: Global,
    args: &[String],
    socket: &str,
) -> Result<Option<Vec<String>>, AllocError>
    ensures { IfOk result (λ found. IfSome found (λ words. map string_bytes words.items
        ≡ with_server socket.now (map string_bytes args.now))) }
{
    if reading_of(alloc, args) != Reading::Lacking {
        return Ok(None);
    }
    let words = inserted(alloc, args, socket)?;
    match reading_of(alloc, words.as_slice()) {
        Reading::Rejected => Ok(None),
        Reading::Accepted | Reading::Lacking => Ok(Some(words)),
    }
}
