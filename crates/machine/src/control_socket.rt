//! The socket on which a server is called by operators.

use std::alloc::AllocError;
use std::fs::{self, DirBuilder, Permissions};
use std::io::{self, ErrorKind};
use std::os::unix::fs::{DirBuilderExt, FileTypeExt, PermissionsExt};
use std::os::unix::net::UnixListener;
use std::rt::HostRuntime;

/// The mode of the socket: only the server's user may connect.
const MODE: u32 = 0o600;

/// The mode of the folder in which it is made.
const FOLDER_MODE: u32 = 0o700;

/// A socket that operators connect to, at a path.
#[derive(Drop)]
pub struct ControlSocket<'a> {
    path: &'a str,
    listener: UnixListener,
}

/// Removes a socket that an earlier server has left at the path. Leaves anything else.
fn remove_stale(rt: &HostRuntime, path: &str) -> io::Result<()> {
    match fs::symlink_metadata(rt, path) {
        Ok(found) if found.file_type().is_socket() => fs::remove_file(rt, path),
        _ => Ok(()),
    }
}

/// The folder in which a socket is made, and the socket's name there.
#[derive(Drop)]
struct Workshop {
    folder: String,
    socket: String,
}

impl Workshop {
    /// Beside the path.
    fn beside(rt: &HostRuntime, path: &str) -> Result<Workshop, AllocError> {
        let folder = format!(in rt.alloc(); "{path}.new")?;
        let socket = format!(in rt.alloc(); "{path}.new/s")?;
        Ok(Workshop { folder, socket })
    }

    /// Removes what a server that was killed may have left.
    fn clear(&self, rt: &HostRuntime) -> io::Result<()> {
        remove_stale(rt, self.socket.as_str())?;
        match fs::remove_dir(rt, self.folder.as_str()) {
            Err(error) if error.kind() != ErrorKind::NotFound => Err(error),
            _ => Ok(()),
        }
    }

    /// Makes the socket, and gives it its mode and then its name. A file that has the name is left.
    fn make(&self, rt: &HostRuntime, path: &str) -> io::Result<UnixListener> {
        DirBuilder::new()
            .mode(FOLDER_MODE)
            .create(rt, self.folder.as_str())?;
        let socket = self.socket.as_str();
        let listener = UnixListener::bind(rt, socket)?;
        fs::set_permissions(rt, socket, Permissions::from_mode(MODE))?;
        remove_stale(rt, path)?;
        fs::hard_link(rt, socket, path)?;
        Ok(listener)
    }
}

/// Binds the socket. It is made in a folder that only the server's user may enter, so nobody else can connect before it
/// has its mode.
fn bind(rt: &HostRuntime, path: &str) -> io::Result<UnixListener> {
    let workshop = Workshop::beside(rt, path)?;
    workshop.clear(rt)?;
    let made = workshop.make(rt, path);
    workshop.clear(rt)?;
    made
}

impl<'a> ControlSocket<'a> {
    /// Makes the socket. The caller has the database open, so no other server of this database uses a socket that is there.
    /// At no moment may another user connect, whatever the process's umask: the socket gets its name after its mode.
    ///
    /// # Errors
    ///
    /// Fails if it could not be made, for example since there is a file of another kind at the path, which is left; since
    /// the path has over 101 bytes; or since there is a folder at the path with `.new` added that is not empty.
    pub fn bind(rt: &HostRuntime, path: &'a str) -> io::Result<ControlSocket<'a>> {
        let listener = bind(rt, path)?;
        Ok(ControlSocket { path, listener })
    }

    /// The listener.
    pub fn listener(&self) -> &UnixListener {
        &self.listener
    }

    /// Removes the socket.
    pub fn remove(&self, rt: &HostRuntime) {
        // The next server removes what is left.
        let _ = fs::remove_file(rt, self.path);
    }
}
