//! The socket of operators: who may connect, and what is removed and left.

use crate::harness::{Tester, unwrap};
use crate::program::{path_of, read, remove, write};
use machine::ControlSocket;
use std::fs;
use std::os::unix::fs::PermissionsExt;
use std::os::unix::net::{UnixListener, UnixStream};
use std::rt::HostRuntime;

/// Makes an empty folder.
fn make(rt: &impl Tester, host: &HostRuntime, folder: &str) {
    remove(host, folder);
    unwrap(rt, fs::create_dir(host, folder));
}

/// Whether there is a file, a folder or a socket at the path.
fn exists(host: &HostRuntime, path: &str) -> bool {
    fs::symlink_metadata(host, path).is_ok()
}

#[test]
fn only_the_user_may_connect(rt: HostRuntime) {
    make(&rt, &rt, "control_mode");
    let path = path_of(&rt, "control_mode", "socket");
    let socket = unwrap(&rt, ControlSocket::bind(&rt, path.as_str()));
    let found = unwrap(&rt, fs::symlink_metadata(&rt, path.as_str()));
    assert!(rt; found.permissions().mode() & 0o777 == 0o600);
    assert!(rt; !exists(&rt, "control_mode/socket.new"));
    let _operator = unwrap(&rt, UnixStream::connect(&rt, path.as_str()));
    unwrap(&rt, socket.listener().accept());
    socket.remove(&rt);
    assert!(rt; !exists(&rt, path.as_str()));
    remove(&rt, "control_mode");
}

#[test]
fn another_file_is_left(rt: HostRuntime) {
    make(&rt, &rt, "control_file");
    write(&rt, &rt, "control_file", "socket", b"notes");
    assert!(rt; ControlSocket::bind(&rt, "control_file/socket").is_err());
    assert!(rt; read(&rt, &rt, "control_file", "socket").as_slice() == b"notes".as_slice());
    assert!(rt; !exists(&rt, "control_file/socket.new"));
    remove(&rt, "control_file");
}

#[test]
fn what_a_killed_server_left_is_removed(rt: HostRuntime) {
    make(&rt, &rt, "control_stale");
    unwrap(&rt, fs::create_dir(&rt, "control_stale/socket.new"));
    let _made = unwrap(&rt, UnixListener::bind(&rt, "control_stale/socket.new/s"));
    let _old = unwrap(&rt, UnixListener::bind(&rt, "control_stale/socket"));
    let socket = unwrap(&rt, ControlSocket::bind(&rt, "control_stale/socket"));
    let _operator = unwrap(&rt, UnixStream::connect(&rt, "control_stale/socket"));
    unwrap(&rt, socket.listener().accept());
    assert!(rt; !exists(&rt, "control_stale/socket.new"));
    remove(&rt, "control_stale");
}

#[test]
fn a_folder_of_somebody_else_is_left(rt: HostRuntime) {
    make(&rt, &rt, "control_folder");
    unwrap(&rt, fs::create_dir(&rt, "control_folder/socket.new"));
    write(&rt, &rt, "control_folder", "socket.new/notes", b"notes");
    assert!(rt; ControlSocket::bind(&rt, "control_folder/socket").is_err());
    assert!(rt; exists(&rt, "control_folder/socket.new/notes"));
    assert!(rt; !exists(&rt, "control_folder/socket"));
    remove(&rt, "control_folder");
}

#[test]
fn a_path_has_at_most_101_bytes(rt: HostRuntime) {
    make(&rt, &rt, "control_long");
    for (size, is_short) in [(101, true), (102, false)] {
        let name = unwrap(
            &rt,
            "s".repeat(
                rt.alloc(),
                usize::saturating_sub(size, "control_long/".len()),
            ),
        );
        let path = path_of(&rt, "control_long", name.as_str());
        assert!(rt; path.len() == size);
        let made = ControlSocket::bind(&rt, path.as_str());
        assert!(rt; made.is_ok() == is_short && exists(&rt, path.as_str()) == is_short);
    }
    remove(&rt, "control_long");
}
