//! The address at which a server listens.

use std::io::{self, ErrorKind};
use std::net::{TcpListener, ToSocketAddrs};
use std::os::fd::OwnedFd;
use std::rt::HostRuntime;

/// Binds the address, and listens with the longest queue that the system allows, so that a burst of clients waits while
/// another one is served. If a name has several addresses, the first that can be bound is used.
///
/// # Errors
///
/// Fails if no address of the name can be bound.
pub fn listen(rt: &HostRuntime, address: &str) -> io::Result<TcpListener> {
    let mut failure = io::Error::from(ErrorKind::AddrNotAvailable);
    for found in address.to_socket_addrs(rt)? {
        match mio::net::TcpListener::bind(rt, found) {
            Ok(listener) => return Ok(TcpListener::from(OwnedFd::from(listener))),
            Err(error) => failure = error,
        }
    }
    Err(failure)
}
