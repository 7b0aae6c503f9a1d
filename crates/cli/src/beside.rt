//! The file of contents beside a database.

use faults::{ContentsCause, Fault};
use placed::PlaceFault;
use reopened::BesideFault;
use sqlite_std_file::{FileFrom, OpenError};
use std::fs::{self, OpenOptions};
use std::io::{self, ErrorKind};
use std::os::unix::fs::{MetadataExt, OpenOptionsExt, chown};
use std::rt::HostRuntime;
use tables::Start;

/// What is added to the path of a database, after links, for its file of contents.
const SUFFIX: &str = "-contents";

/// A file of contents with this fault.
fn refused(cause: ContentsCause) -> Fault {
    Fault::Contents(cause)
}

/// The path of the file of contents of a database.
pub(crate) fn contents_path(rt: &HostRuntime, db: &str) -> Result<String, Fault> {
    let Ok(real) = fs::canonicalize(rt, db) else {
        return Err(refused(ContentsCause::Failed));
    };
    let real = real.as_str();
    Ok(format!(in rt.alloc(); "{real}{SUFFIX}")?)
}

/// Creates the file with the mode of the database, and with its group and owner where this process may set them.
pub(crate) fn create_like(rt: &HostRuntime, path: &str, db: &str) -> io::Result<()> {
    let found = fs::metadata(rt, db)?;
    OpenOptions::new()
        .write(true)
        .create_new(true)
        .mode(found.mode() & 0o777)
        .open(rt, path)?;
    // Only root sets the owner, and a member of the group may still set that.
    let _ = chown(rt, path, None, Some(found.gid()));
    let _ = chown(rt, path, Some(found.uid()), None);
    Ok(())
}

/// Returns whether there is a file of contents beside a database that has none of its contents in one.
///
/// # Errors
///
/// `Contents` if there is one that has bytes; and `Memory`.
pub(crate) fn has_empty_contents(rt: &HostRuntime, db: &str) -> Result<bool, Fault> {
    let path = contents_path(rt, db)?;
    match fs::metadata(rt, path.as_str()) {
        Ok(found) if found.len() == 0 => Ok(true),
        Ok(_) => Err(refused(ContentsCause::NotEmpty)),
        Err(error) if error.kind() == ErrorKind::NotFound => Ok(false),
        Err(_) => Err(refused(ContentsCause::Failed)),
    }
}

/// Makes an empty file of contents beside a database that has no tables yet, unless there is one.
///
/// # Errors
///
/// `Contents` if there is a file of the name that has bytes, or none can be made; and `Memory`.
pub(crate) fn make_contents(rt: &HostRuntime, db: &str) -> Result<(), Fault> {
    if has_empty_contents(rt, db)? {
        return Ok(());
    }
    let path = contents_path(rt, db)?;
    create_like(rt, path.as_str(), db).map_err(|_| refused(ContentsCause::Failed))
}

/// Opens the file of contents beside a database.
///
/// # Errors
///
/// `Contents` if it does not exist, if it has a second name, if another program has it open, or if it cannot be opened;
/// and `Memory`.
pub(crate) fn open_contents<C: Start>(
    rt: &HostRuntime,
    db: &str,
    start: C,
) -> Result<FileFrom<C>, Fault> {
    let path = contents_path(rt, db)?;
    // The call that opens a file makes one that is missing.
    match fs::metadata(rt, path.as_str()) {
        Ok(found) if found.nlink() > 1 => return Err(refused(ContentsCause::Linked)),
        Ok(_) => {}
        Err(error) if error.kind() == ErrorKind::NotFound => {
            return Err(refused(ContentsCause::Missing));
        }
        Err(_) => return Err(refused(ContentsCause::Failed)),
    }
    let files = match sqlite_std_file::open(rt, path.as_str(), start) {
        Ok(files) => files,
        Err(OpenError::OutOfMemory) => return Err(Fault::Memory),
        Err(OpenError::Busy) => return Err(refused(ContentsCause::InUse)),
        Err(_) => return Err(refused(ContentsCause::Failed)),
    };
    // It makes a log too, which stays empty.
    let log = format!(in rt.alloc(); "{}-wal", path.as_str())?;
    let _ = fs::remove_file(rt, log.as_str());
    Ok(files.db)
}

/// Why a database and its file of contents are not served.
pub(crate) fn fault_beside(fault: BesideFault) -> Fault {
    match fault {
        BesideFault::Database(fault) => Fault::from(fault),
        BesideFault::Contents(fault) => place_fault(fault),
    }
}

/// Why a database is not served with this file.
pub(crate) fn place_fault(fault: PlaceFault) -> Fault {
    match fault {
        PlaceFault::Unreadable => refused(ContentsCause::NoPlace),
        PlaceFault::Overlapping => refused(ContentsCause::Overlapping),
        PlaceFault::Short => refused(ContentsCause::Short),
        PlaceFault::Store(fault) => Fault::from(fault),
        PlaceFault::Contents(_) => refused(ContentsCause::Failed),
    }
}
