//! The line that explains a fault.

use crate::addresses::address_cause;
use crate::contents_text::contents_text;
use crate::control_sockets::{asking_cause, making_cause};
use crate::databases::database_cause;
use crate::files::file_cause;
use crate::hints::hint;
use crate::named::Named;
use crate::values::expected;
use faults::{ContentsCause, Fault};
use std::alloc::{AllocError, Global};
use std::rt::HostRuntime;
use tables::StoreFault;

/// What the value of an option has to be.
fn value_line(alloc: Global, option: &str) -> Result<Option<String>, AllocError> {
    let expected = expected(option);
    if expected.is_empty() {
        return Ok(None);
    }
    format!(in alloc; "{option} takes {expected}").map(Some)
}

/// What is wrong with the database of the command.
fn database_line(rt: &HostRuntime, db: &str) -> Result<Option<String>, AllocError> {
    let cause = database_cause(rt, db);
    format!(in rt.alloc(); "{db}: {cause}").map(Some)
}

/// What is wrong with the tables of the database.
fn schema_line(rt: &HostRuntime, db: &str) -> Result<Option<String>, AllocError> {
    format!(in rt.alloc();
        "{db}: this is a database of another program, or of version 1: custody migrate gives one of version 1 the tables that are needed"
    ).map(Some)
}

/// What is wrong with the file of contents beside the database, or with an object that is in the database itself.
fn contents_line(
    alloc: Global,
    db: &str,
    cause: ContentsCause,
) -> Result<Option<String>, AllocError> {
    let suffix = if cause == ContentsCause::Damaged {
        ""
    } else {
        "-contents"
    };
    let text = contents_text(cause);
    format!(in alloc; "{db}{suffix}: {text}").map(Some)
}

/// What is wrong with a file that could not be read.
fn file_line(rt: &HostRuntime, path: &str) -> Result<Option<String>, AllocError> {
    let cause = file_cause(rt, path);
    format!(in rt.alloc(); "{path}: {cause}").map(Some)
}

/// What is wrong with the address of a server.
fn address_line(rt: &HostRuntime, address: &str) -> Result<Option<String>, AllocError> {
    let cause = address_cause(rt, address);
    format!(in rt.alloc(); "{address}: {cause}").map(Some)
}

/// What is wrong with a control socket that a server makes.
fn making_line(rt: &HostRuntime, path: &str) -> Result<Option<String>, AllocError> {
    let cause = making_cause(rt, path);
    format!(in rt.alloc(); "{path}: {cause}").map(Some)
}

/// What is wrong with the control socket of a server that is asked.
fn asking_line(rt: &HostRuntime, path: &str) -> Result<Option<String>, AllocError> {
    let cause = asking_cause(rt, path);
    format!(in rt.alloc(); "{path}: {cause}").map(Some)
}

/// That no repository of the policy has the name.
fn repository_line(rt: &HostRuntime, named: &Named<'_>) -> Result<Option<String>, AllocError> {
    let Some(repo) = named.repo else {
        return Ok(None);
    };
    let file = named.policy.unwrap_or("the server's policy");
    format!(in rt.alloc();
        "{file} has no [[repo]] with the name {repo}: correct the name, or add it"
    ).map(Some)
}

/// The line about a control socket.
fn control_line(rt: &HostRuntime, named: &Named<'_>) -> Result<Option<String>, AllocError> {
    match (named.via, named.control) {
        (Some(path), _) => asking_line(rt, path),
        (None, Some(path)) => making_line(rt, path),
        (None, None) => Ok(None),
    }
}

/// The fixed line about a fault.
fn hint_line(alloc: Global, fault: &Fault) -> Result<Option<String>, AllocError> {
    match hint(fault) {
        Some(text) => String::from_str(alloc, text).map(Some),
        None => Ok(None),
    }
}

/// Returns a line, without its end, that says what caused a fault of a command and what to do. It looks at what the command
/// named. `None` if there is nothing to say that the line of the fault does not.
///
/// # Errors
///
/// Memory ran out.
pub fn explanation(
    rt: &HostRuntime,
    fault: &Fault,
    named: &Named<'_>,
) -> Result<Option<String>, AllocError> {
    match (fault, named) {
        (Fault::Value(option), _) => value_line(rt.alloc(), option),
        (Fault::Store(StoreFault::Refused), Named { db: Some(db), .. }) => database_line(rt, db),
        (Fault::Contents(cause), Named { db: Some(db), .. }) => {
            contents_line(rt.alloc(), db, *cause)
        }
        (Fault::UnknownSchema, Named { db: Some(db), .. }) => schema_line(rt, db),
        (
            Fault::PolicyFile,
            Named {
                policy: Some(path),
                ..
            },
        ) => file_line(rt, path),
        (
            Fault::Random,
            Named {
                random: Some(path),
                ..
            },
        ) => file_line(rt, path),
        (
            Fault::Network,
            Named {
                listen: Some(address),
                ..
            },
        ) => address_line(rt, address),
        (Fault::Control, _) => control_line(rt, named),
        (Fault::Repository, _) => repository_line(rt, named),
        _ => hint_line(rt.alloc(), fault),
    }
}
