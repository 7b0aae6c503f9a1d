//! Why a file cannot be read.

use std::fmt;
use std::fs::{self, File};
use std::io::ErrorKind;
use std::rt::HostRuntime;

/// Why a file cannot be read.
#[derive(Clone, Copy, Debug, PartialEq, Eq)]
pub(crate) enum FileCause {
    /// It does not exist.
    Missing,
    /// The user may not read it.
    NoPermission,
    /// It is a folder.
    IsFolder,
    /// It could not be opened for another cause.
    Unreadable,
    /// It can be opened.
    Unknown,
}

/// Looks for what is wrong with the file at the path.
pub(crate) fn file_cause(rt: &HostRuntime, path: &str) -> FileCause {
    if let Ok(found) = fs::metadata(rt, path)
        && found.is_dir()
    {
        return FileCause::IsFolder;
    }
    match File::open(rt, path) {
        Ok(_) => FileCause::Unknown,
        Err(error) => match error.kind() {
            ErrorKind::NotFound | ErrorKind::NotADirectory => FileCause::Missing,
            ErrorKind::PermissionDenied => FileCause::NoPermission,
            _ => FileCause::Unreadable,
        },
    }
}

/// Writes what is wrong, and what to do, after the path of the file and a colon.
impl fmt::Display for FileCause {
    fn fmt<W: fmt::Write>(&self, f: &mut fmt::Formatter<W>) -> fmt::Result {
        f.write_str(match self {
            FileCause::Missing => "there is no such file: correct the path, or create it",
            FileCause::NoPermission => {
                "this user may not read it: give it a mode or an owner that lets the user read"
            }
            FileCause::IsFolder => "this is a folder: give the path of a file",
            FileCause::Unreadable => "it cannot be opened: see dmesg for the cause",
            FileCause::Unknown =>
                "it can be opened, but is too short, or could not be read to its end",
        })
    }
}
