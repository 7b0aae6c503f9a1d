//! Notes about a command that may not be what was meant: it made its database, or found nothing.

use crate::explaining::write_line;
use command_line::{Command, OperatorCommand};
use std::alloc::{AllocError, Global};
use std::fs;
use std::io::Write;
use std::rt::HostRuntime;

/// What a command lists of a repository.
#[derive(Clone, Copy)]
struct Listing<'a> {
    /// What it lists.
    items: &'static str,
    repo: &'a str,
}

/// What is known of a command before it runs.
#[derive(Clone, Copy)]
pub(crate) struct Notes<'a> {
    /// The database, if it does not exist and the command only reads it.
    created: Option<&'a str>,
    listing: Option<Listing<'a>>,
}

/// What the command lists; `None` if it lists nothing of one repository.
fn listing_of<'a>(command: &'a OperatorCommand<'_>) -> Option<Listing<'a>> {
    let (items, repo) = match command {
        OperatorCommand::Locks(repo) => ("locks", repo.as_str()),
        OperatorCommand::Objects(repo) => ("objects", repo.as_str()),
        OperatorCommand::Tokens(args) => ("valid tokens", args.repo.as_str()),
        _ => return None,
    };
    Some(Listing { items, repo })
}

/// The database that the command makes, although it only reads one.
fn created_by<'a>(rt: &HostRuntime, command: &'a Command<'_>) -> Option<&'a str> {
    match command {
        Command::Local(_, OperatorCommand::Authenticate(_)) => None,
        Command::Local(files, _) if fs::metadata(rt, files.db).is_err() => Some(files.db),
        _ => None,
    }
}

/// The line about a database that was made.
fn created_line(alloc: Global, db: &str) -> Result<String, AllocError> {
    format!(in alloc;
        "{db}: there was no such file, and an empty database was created: is the path right?"
    )
}

/// The line about a listing that has no line.
fn empty_line(alloc: Global, listing: Listing<'_>) -> Result<String, AllocError> {
    let Listing { items, repo } = listing;
    format!(in alloc; "there are no {items} in {repo}: is the name right?")
}

impl<'a> Notes<'a> {
    /// What is known of the command.
    pub(crate) fn of(rt: &HostRuntime, command: &'a Command<'_>) -> Notes<'a> {
        let listing = match command {
            Command::Local(_, command) | Command::Remote(_, command) => listing_of(command),
            _ => None,
        };
        Notes {
            created: created_by(rt, command),
            listing,
        }
    }

    /// Whether they depend on whether the command prints anything.
    pub(crate) fn are_about_output(&self) -> bool {
        self.listing.is_some()
    }

    /// The line about the command, after it ended.
    fn line(&self, rt: &HostRuntime, has_answered: bool) -> Option<String> {
        match (self.created, self.listing) {
            (Some(db), _) if fs::metadata(rt, db).is_ok() => created_line(rt.alloc(), db).ok(),
            (_, Some(listing)) if !has_answered => empty_line(rt.alloc(), listing).ok(),
            _ => None,
        }
    }

    /// Writes the line about the command, if there is one, after it ended: `has_answered` is whether it printed anything, or
    /// failed.
    pub(crate) fn write<E: Write>(&self, rt: &HostRuntime, has_answered: bool, errors: &mut E) {
        if let Some(line) = self.line(rt, has_answered) {
            // Nothing depends on what is said here.
            let _ = write_line(errors, line.as_str());
        }
    }
}
