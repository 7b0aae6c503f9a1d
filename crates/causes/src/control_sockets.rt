//! Why a control socket cannot be made, or a server not be asked at one.

use crate::paths::folder_of;
use std::io::ErrorKind;
use std::os::unix::fs::FileTypeExt;
use std::os::unix::net::UnixStream;
use std::rt::HostRuntime;
use std::{fmt, fs};

/// The longest path of a control socket, in bytes.
const LONGEST_PATH: usize = 101;

/// Why a control socket cannot be made.
#[derive(Clone, Copy, Debug, PartialEq, Eq)]
pub(crate) enum MakingCause {
    /// The path is too long.
    TooLong,
    /// Its folder does not exist.
    NoFolder,
    /// There is a file of another kind.
    OtherFile,
    /// The user may not create it, or there is a folder with its name and `.new`.
    NotCreated,
}

/// Looks for why a server could not make its control socket at the path.
pub(crate) fn making_cause(rt: &HostRuntime, path: &str) -> MakingCause {
    if path.len() > LONGEST_PATH {
        return MakingCause::TooLong;
    }
    if fs::metadata(rt, folder_of(path)).is_err() {
        return MakingCause::NoFolder;
    }
    match fs::symlink_metadata(rt, path) {
        Ok(found) if !found.file_type().is_socket() => MakingCause::OtherFile,
        _ => MakingCause::NotCreated,
    }
}

/// Writes what is wrong, and what to do, after the path of the socket and a colon.
impl fmt::Display for MakingCause {
    fn fmt<W: fmt::Write>(&self, f: &mut fmt::Formatter<W>) -> fmt::Result {
        f.write_str(match self {
            MakingCause::TooLong => "the path has more than 101 bytes: use a shorter one",
            MakingCause::NoFolder => "its folder does not exist: create it, or correct the path",
            MakingCause::OtherFile =>
                "there is a file that is no socket: remove it, or use another path",
            MakingCause::NotCreated => {
                "this user may not create files in its folder, or the path with .new added exists: remove that"
            }
        })
    }
}

/// Why a server cannot be asked at a socket.
#[derive(Clone, Copy, Debug, PartialEq, Eq)]
pub(crate) enum AskingCause {
    /// There is nothing at the path.
    Missing,
    /// Nobody listens there.
    NoServer,
    /// The user may not use it.
    NoPermission,
    /// It is no socket, or its path is too long.
    NoSocket,
    /// The server can be reached.
    Unanswered,
}

/// Looks for why the server at the socket could not be asked.
pub(crate) fn asking_cause(rt: &HostRuntime, path: &str) -> AskingCause {
    if path.len() > LONGEST_PATH {
        return AskingCause::NoSocket;
    }
    match UnixStream::connect(rt, path) {
        Ok(_) => AskingCause::Unanswered,
        Err(error) => match error.kind() {
            ErrorKind::NotFound | ErrorKind::NotADirectory => AskingCause::Missing,
            ErrorKind::PermissionDenied => AskingCause::NoPermission,
            ErrorKind::ConnectionRefused if is_socket(rt, path) => AskingCause::NoServer,
            _ => AskingCause::NoSocket,
        },
    }
}

/// Whether there is a socket at the path.
fn is_socket(rt: &HostRuntime, path: &str) -> bool {
    match fs::metadata(rt, path) {
        Ok(found) => found.file_type().is_socket(),
        Err(_) => false,
    }
}

/// Writes what is wrong, and what to do, after the path of the socket and a colon.
impl fmt::Display for AskingCause {
    fn fmt<W: fmt::Write>(&self, f: &mut fmt::Formatter<W>) -> fmt::Result {
        f.write_str(match self {
            AskingCause::Missing => {
                "there is no such socket: the server does not run, or has another path after --control"
            }
            AskingCause::NoServer => "the server does not run: start it",
            AskingCause::NoPermission => {
                "this user may not use it: run the command as the user of the server, or as root"
            }
            AskingCause::NoSocket =>
                "this is no socket: give the path after the server's --control",
            AskingCause::Unanswered => {
                "the server closed the connection or did not answer in time: see what it printed"
            }
        })
    }
}
