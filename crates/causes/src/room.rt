//! Whether a database could be written to.

use std::io::{self, ErrorKind, Write};
use std::rt::HostRuntime;
use std::{fmt, fs};

/// How many bytes are written to find out whether the disk has room: more than the transaction of a chunk writes.
const PROBE: usize = 262_144;

/// Whether there is room beside a database for what a transaction writes.
#[derive(Clone, Copy, Debug, PartialEq, Eq)]
pub enum Room {
    /// There is.
    Enough,
    /// The disk is full, or the user's quota is used up.
    Full,
    /// The file system is mounted so that nothing can be written.
    ReadOnly,
    /// The user may not create files in the folder.
    NoPermission,
    /// A file could not be written for another cause.
    Unknown,
}

/// Writes a file of some size, and makes sure that it is on the disk.
fn write_probe(rt: &HostRuntime, path: &str) -> io::Result<()> {
    let piece = vec![in rt.alloc(); 0; PROBE]?;
    let mut file = fs::create(rt, path)?;
    file.write_all(piece.as_slice())?;
    file.sync_all()
}

/// What an attempt to write says of the room.
fn room_after(written: io::Result<()>) -> Room {
    let Err(error) = written else {
        return Room::Enough;
    };
    match error.kind() {
        ErrorKind::StorageFull | ErrorKind::QuotaExceeded | ErrorKind::WriteZero => Room::Full,
        ErrorKind::ReadOnlyFilesystem => Room::ReadOnly,
        ErrorKind::PermissionDenied => Room::NoPermission,
        _ => Room::Unknown,
    }
}

/// Writes a file beside the database, with `-probe` added to its name, and removes it again.
pub fn room_beside(rt: &HostRuntime, db: &str) -> Room {
    let Ok(path) = format!(in rt.alloc(); "{db}-probe") else {
        return Room::Unknown;
    };
    let room = room_after(write_probe(rt, path.as_str()));
    // What is left if it cannot be removed is overwritten the next time.
    let _ = fs::remove_file(rt, path.as_str());
    room
}

/// Writes what that means for a request which was refused, after the path of the database and a colon.
impl fmt::Display for Room {
    fn fmt<W: fmt::Write>(&self, f: &mut fmt::Formatter<W>) -> fmt::Result {
        f.write_str(match self {
            Room::Enough =>
                "the disk has room now: it was full, memory ran out, or the disk failed (see dmesg)",
            Room::Full => "the disk is full: make room, then push again",
            Room::ReadOnly => "the file system is read-only: see dmesg for the cause",
            Room::NoPermission => "its folder may not be written to by this user",
            Room::Unknown => "a file beside it cannot be written: see dmesg for the cause",
        })
    }
}
