//! What to do about a fault whose cause is not in a file, an address or a socket.

use faults::Fault;
use tokens::TokenFault;

/// What to do about a token that was not issued.
fn token_hint(fault: &TokenFault) -> Option<&'static str> {
    match fault {
        TokenFault::AlreadyIssued => {
            Some(
                "the random bytes made a token before: give other ones with --random, or leave it out",
            )
        }
        TokenFault::ExpiresTooLate => {
            Some("the moment and the policy's token_seconds together are past the last moment")
        }
        TokenFault::Store(_) => None,
    }
}

/// What to do about a fault; `None` if its line says it, or if its cause is looked for elsewhere.
pub(crate) fn hint(fault: &Fault) -> Option<&'static str> {
    match fault {
        Fault::BadPath(_) => Some(
            "a path is 1 to 1024 bytes of UTF-8, without a leading slash, an empty part, . or .. as a part, a control character or a backslash",
        ),
        Fault::TooManyPaths => Some("at most 10000 paths are checked at a time: split the list"),
        Fault::NoMessage => Some(
            "the input has to begin with a whole HTTP request to the repository, which no rule from H1 to J4 refuses",
        ),
        Fault::NoCaller => {
            Some(
                "the request has to have a valid token of the user for the repository: custody tokens lists them",
            )
        }
        Fault::NoObject => Some("custody objects lists the names of the repository's objects"),
        Fault::Clock => Some("the machine's clock is before 1970 or after 9999: set it"),
        Fault::Memory => Some("the machine needs more memory or swap for this command"),
        Fault::Output => {
            Some(
                "the input could not be read, or whoever reads the output has ended, or its disk is full",
            )
        }
        Fault::Session(_) => {
            Some("what was answered before remains valid; the client can connect again")
        }
        Fault::Version => {
            Some("the server is of another version than this program: restart it after an upgrade")
        }
        Fault::HoldOver => {
            Some(
                "what was copied meanwhile may not be a whole database: copy again, with more --seconds",
            )
        }
        Fault::Busy => Some("wait until it has ended, and run the command again"),
        Fault::Token(fault) => token_hint(fault),
        _ => None,
    }
}
