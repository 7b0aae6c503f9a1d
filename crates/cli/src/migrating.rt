//! The command `migrate`: gives a database of version 1 the tables of version 2, and a database another layout.

ghost use Rattle.std.specs.Prelude.{◌≡◌, OnOk};
ghost use Rattle.cli.specs.Answers.{migrated_line};

use crate::copying::Paths;
use crate::opening::{FileTables, Found, open_to_migrate};
use crate::starts::Starts;
use command_line::{MigrateArgs, Target};
use faults::Fault;
use names::Sink;
use operator::print;
use std::alloc::{AllocError, Global};
use std::io::{IsTerminal, Stderr, Write};
use std::rt::HostRuntime;
use tables::{Migrated, Start};

/// Removes what is shown on a terminal in the line of the cursor.
const CLEAR: &str = "\r\x1b[K";

/// Writes the text on the terminal at once, if there is one.
fn show(terminal: Option<&Stderr>, text: &str) {
    if let Some(mut terminal) = terminal {
        // Nothing depends on what is shown.
        let _ = write!(terminal, "{text}");
        let _ = terminal.flush();
    }
}

/// The line of a database that has version 2 or 3 now.
fn migrated_line(found: Found) -> &'static str
    ensures { result.now ≡ migrated_line found }
{
    match found {
        Found::Rows(Migrated::From1) => "migrated from version 1\n",
        Found::New | Found::Rows(Migrated::Already) => "already version 2\n",
        Found::Places => "already version 3\n",
    }
}

/// The line of a database that had this version, and was copied into one of the other layout.
fn moved_line(alloc: Global, version: u32, objects: u64) -> Result<String, AllocError> {
    format!(in alloc; "migrated from version {version}, {objects} objects\n")
}

/// Copies a database whose contents are rows into one with a file of contents. Returns the line that says what was done.
fn move_to_file<S: Start>(
    rt: &HostRuntime,
    db: &str,
    found: Found,
    store: FileTables<S>,
    terminal: Option<&Stderr>,
) -> Result<String, Fault> {
    let version = match found {
        Found::Rows(Migrated::From1) => 1,
        Found::New | Found::Rows(Migrated::Already) => 2,
        Found::Places => return Ok(migrated_line(found).to_owned(rt.alloc())?),
    };
    let objects = Paths::new(rt, db)?.to_places(rt, store, terminal)?;
    Ok(moved_line(rt.alloc(), version, objects)?)
}

/// The same back. One whose contents are rows already is alone afterwards, unless it is new: the files beside that may be
/// those of a database that was lost.
fn move_to_rows<S: Starts>(
    rt: &HostRuntime,
    db: &str,
    found: Found,
    store: FileTables<S>,
    terminal: Option<&Stderr>,
) -> Result<String, Fault> {
    match found {
        Found::New => {}
        Found::Rows(_) => Paths::new(rt, db)?.remove_left(rt)?,
        Found::Places => {
            let objects = Paths::new(rt, db)?.to_rows(rt, store, S::contents(), terminal)?;
            return Ok(moved_line(rt.alloc(), 3, objects)?);
        }
    }
    Ok(migrated_line(found).to_owned(rt.alloc())?)
}

/// Migrates the database, and returns the line that says what was done.
fn migrated<S: Starts>(
    rt: &HostRuntime,
    args: &MigrateArgs<'_>,
    terminal: Option<&Stderr>,
    start: S,
) -> Result<String, Fault> {
    let (found, store) = open_to_migrate(rt, args.db, start)?;
    match args.target {
        Target::AsItIs => Ok(migrated_line(found).to_owned(rt.alloc())?),
        Target::File => move_to_file(rt, args.db, found, store, terminal),
        Target::Rows => move_to_rows(rt, args.db, found, store, terminal),
    }
}

/// Gives a database of version 1 the tables of version 2, and any database the layout that is asked for, if it has another
/// one; and prints what was done. Shows that it works on the error stream, if that is a terminal: opening and copying a
/// large database take time.
///
/// # Errors
///
/// `UnknownSchema` if the database has other tables, which leaves it as it was; `Store`, `Contents` and `Memory`, after
/// which it has its contents and all else; and `Output` if the line could not be written: it is migrated all the same.
pub(crate) fn migrate<S: Starts, K: Sink>(
    rt: &HostRuntime,
    args: &MigrateArgs<'_>,
    output: &mut K,
    start: S,
) -> Result<(), Fault>
    ensures { OnOk result (K.failed output.new ≡ K.failed output.old) }
{
    let errors = rt.stderr();
    let terminal = errors.is_terminal().then_some(&errors);
    show(terminal, "migrating ...");
    let line = migrated(rt, args, terminal, start);
    show(terminal, CLEAR);
    print(output, line?.as_bytes())?;
    Ok(())
}
