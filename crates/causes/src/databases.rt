//! Why a database cannot be used.

use crate::paths::{folder_of, is_file_name};
use crate::room::{Room, room_beside};
use sqlite::{Connection, Error, ErrorCode, FileStore};
use std::fmt;
use std::fs::{self, File, OpenOptions};
use std::io::{self, ErrorKind, Read};
use std::rt::HostRuntime;

/// The bytes with which each database file of SQLite begins.
const MAGIC: &[u8] = b"SQLite format 3\0";

/// Why a database cannot be used.
#[derive(Clone, Copy, Debug, PartialEq, Eq)]
pub(crate) enum DatabaseCause {
    /// The name is that of no file.
    Name,
    /// Its folder does not exist.
    NoFolder,
    /// It is a folder.
    IsFolder,
    /// The user may not read and write it.
    NoPermission,
    /// The user may not create files in its folder.
    FolderPermission,
    /// The file system is read-only.
    ReadOnly,
    /// The file is not a database of SQLite.
    NotDatabase,
    /// The disk is full.
    Full,
    /// Another program has it open.
    InUse,
    /// It cannot be opened.
    Damaged,
    /// It can be opened now.
    Unknown,
}

/// The first bytes of a file: at most 16.
fn first_bytes(rt: &HostRuntime, path: &str) -> io::Result<Vec<u8>> {
    let mut bytes = Vec::new(rt.alloc());
    File::open(rt, path)?.take(16).read_to_end(&mut bytes)?;
    Ok(bytes)
}

/// Whether there is a folder at the path.
fn is_folder(rt: &HostRuntime, path: &str) -> bool {
    match fs::metadata(rt, path) {
        Ok(found) => found.is_dir(),
        Err(_) => false,
    }
}

/// What is wrong with the file at the path; `None` if it can be read and written, and may be a database.
fn file_cause(rt: &HostRuntime, db: &str) -> Option<DatabaseCause> {
    let opened = OpenOptions::new().read(true).write(true).open(rt, db);
    match opened.map_err(|error| error.kind()) {
        Ok(_) | Err(ErrorKind::NotFound) => {}
        Err(ErrorKind::PermissionDenied) => return Some(DatabaseCause::NoPermission),
        Err(ErrorKind::ReadOnlyFilesystem) => return Some(DatabaseCause::ReadOnly),
        Err(_) => return Some(DatabaseCause::Unknown),
    }
    let bytes = first_bytes(rt, db).ok()?;
    if bytes.is_empty() || bytes.as_slice() == MAGIC {
        None
    } else {
        Some(DatabaseCause::NotDatabase)
    }
}

/// What is wrong with the folder of the database; `None` if files can be written there.
fn room_cause(rt: &HostRuntime, db: &str) -> Option<DatabaseCause> {
    match room_beside(rt, db) {
        Room::Enough | Room::Unknown => None,
        Room::Full => Some(DatabaseCause::Full),
        Room::ReadOnly => Some(DatabaseCause::ReadOnly),
        Room::NoPermission => Some(DatabaseCause::FolderPermission),
    }
}

/// Why the database cannot be opened.
fn opening_cause(rt: &HostRuntime, db: &str) -> DatabaseCause {
    let opened: Result<Connection<FileStore<sqlite::File>>, Error> = Connection::open(rt, db);
    match opened {
        Ok(_) => DatabaseCause::Unknown,
        Err(Error::SqliteFailure(ErrorCode::DatabaseBusy)) => DatabaseCause::InUse,
        Err(_) => DatabaseCause::Damaged,
    }
}

/// Looks for what is wrong with the database at the path.
pub(crate) fn database_cause(rt: &HostRuntime, db: &str) -> DatabaseCause {
    if !is_file_name(db) {
        return DatabaseCause::Name;
    }
    if !is_folder(rt, folder_of(db)) {
        return DatabaseCause::NoFolder;
    }
    if is_folder(rt, db) {
        return DatabaseCause::IsFolder;
    }
    if let Some(cause) = file_cause(rt, db) {
        return cause;
    }
    match room_cause(rt, db) {
        Some(cause) => cause,
        None => opening_cause(rt, db),
    }
}

/// Writes what is wrong, and what to do, after the path of the database and a colon.
impl fmt::Display for DatabaseCause {
    fn fmt<W: fmt::Write>(&self, f: &mut fmt::Formatter<W>) -> fmt::Result {
        f.write_str(match self {
            DatabaseCause::Name => "this is no file: give the path of one, and no URI",
            DatabaseCause::NoFolder => "its folder does not exist: create it, or correct the path",
            DatabaseCause::IsFolder => "this is a folder: give the path of a file",
            DatabaseCause::NoPermission => {
                "this user may not read and write the file: run the command as its owner"
            }
            DatabaseCause::FolderPermission => {
                "this user may not create files in its folder, where the log is: run the command as its owner"
            }
            DatabaseCause::ReadOnly => {
                "the file system is read-only: use another one, or see dmesg for the cause"
            }
            DatabaseCause::NotDatabase => "this is not a database: correct the path",
            DatabaseCause::Full => "the disk is full: make room, and run the command again",
            DatabaseCause::InUse => {
                "another program has it open: if that is the server, ask it with --via SOCKET, else end that program"
            }
            DatabaseCause::Damaged => {
                "it cannot be opened: the file or its log is damaged, and a copy has to be used"
            }
            DatabaseCause::Unknown => {
                "it can be opened now: the disk failed (see dmesg), or the cause is gone; run the command again"
            }
        })
    }
}
