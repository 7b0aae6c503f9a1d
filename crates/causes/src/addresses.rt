//! Why a server cannot listen at an address.

use sockets::listen;
use std::fmt;
use std::io::ErrorKind;
use std::rt::HostRuntime;

/// Why a server cannot listen at an address.
#[derive(Clone, Copy, Debug, PartialEq, Eq)]
pub(crate) enum AddressCause {
    /// Another program listens there.
    InUse,
    /// The user may not use the port.
    NoPermission,
    /// The machine does not have the address.
    NotOurs,
    /// It is no address, or a name that is not found.
    Unknown,
    /// It can be bound now.
    Free,
}

/// Looks for what is wrong with the address.
pub(crate) fn address_cause(rt: &HostRuntime, address: &str) -> AddressCause {
    match listen(rt, address) {
        Ok(_) => AddressCause::Free,
        Err(error) => match error.kind() {
            ErrorKind::AddrInUse => AddressCause::InUse,
            ErrorKind::PermissionDenied => AddressCause::NoPermission,
            ErrorKind::AddrNotAvailable => AddressCause::NotOurs,
            _ => AddressCause::Unknown,
        },
    }
}

/// Writes what is wrong, and what to do, after the address and a colon.
impl fmt::Display for AddressCause {
    fn fmt<W: fmt::Write>(&self, f: &mut fmt::Formatter<W>) -> fmt::Result {
        f.write_str(match self {
            AddressCause::InUse => {
                "another program listens there: end it, or use another port (ss -ltnp names it)"
            }
            AddressCause::NoPermission => "this user may not use the port: use one from 1024 on",
            AddressCause::NotOurs => {
                "this machine does not have the address: 127.0.0.1 is for a proxy on the same machine"
            }
            AddressCause::Unknown => {
                "this is no address: give an IP address or a name that is known, a colon and a port, as 127.0.0.1:8080"
            }
            AddressCause::Free => "it can be used now: no connection could be accepted; see dmesg",
        })
    }
}
