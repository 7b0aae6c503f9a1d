//! The commands of an operator that only a running server carries out, as `clap` parses them.

use crate::parameters::{CommandText, Kind, Parameter, Usage, commands_of};
use clap::Command;
use std::alloc::{AllocError, Global};

const STATUS_ABOUT: &str = "Prints counts and sizes of a running server, as Prometheus reads them";

const STATUS_LONG_ABOUT: &str = "\
Prints counts and sizes of a running server, as Prometheus reads them.

They are printed in the text format of Prometheus. Nothing is changed.

The status is 0 if they were printed, 1 if the server could not be reached or did not answer, and 2 if the arguments \
are wrong.";

const HOLD_ABOUT: &str = "Holds a running server, so that the database's files can be copied";

const HOLD_LONG_ABOUT: &str = "\
Holds a running server, so that the database's files can be copied.

The server finishes the request in hand, and serves nobody until the standard input of this command ends, or until \
the time is over. It is held as soon as \"held\" is printed: copy the database and its log then.

The status is 0 if the server was held until the input ended, 1 if the time was over before, or if the server could \
not be reached or did not answer, and 2 if the arguments are wrong.";

const RELOAD_ABOUT: &str = "Makes a running server read its policy file again";

const RELOAD_LONG_ABOUT: &str = "\
Makes a running server read its policy file again.

The requests that follow are decided by the new policy. If the file has a fault, the policy stays as it was.

The status is 0 if the policy was read, 1 if it has a fault, or if the server could not be reached or did not answer, \
and 2 if the arguments are wrong.";

const STOP_ABOUT: &str = "Ends a running server";

const STOP_LONG_ABOUT: &str = "\
Ends a running server.

The server finishes the request in hand, and ends.

The status is 0 if it ended, 1 if the server could not be reached or did not answer, and 2 if the arguments are \
wrong.";

const VIA: Parameter = Parameter {
    name: "via",
    value_name: "SOCKET",
    help: "The control socket of the running server",
    kind: Kind::Required,
};

const SECONDS: Parameter = Parameter {
    name: "seconds",
    value_name: "N",
    help: "How long the server is held at most, in seconds: 1 to 600 [default: 60]",
    kind: Kind::Optional,
};

const STATUS: CommandText = CommandText {
    name: "status",
    usage: "custody status --via SOCKET [--explain]",
    about: STATUS_ABOUT,
    long_about: STATUS_LONG_ABOUT,
    parameters: &[VIA],
    example: "Example:\n  custody status --via /run/custody/control",
};

const HOLD: CommandText = CommandText {
    name: "hold",
    usage: "custody hold --via SOCKET [--seconds N] [--explain]",
    about: HOLD_ABOUT,
    long_about: HOLD_LONG_ABOUT,
    parameters: &[VIA, SECONDS],
    example: "Example:\n  sleep 5 | custody hold --via /run/custody/control",
};

const RELOAD: CommandText = CommandText {
    name: "reload",
    usage: "custody reload --via SOCKET [--explain]",
    about: RELOAD_ABOUT,
    long_about: RELOAD_LONG_ABOUT,
    parameters: &[VIA],
    example: "Example:\n  custody reload --via /run/custody/control",
};

const STOP: CommandText = CommandText {
    name: "stop",
    usage: "custody stop --via SOCKET [--explain]",
    about: STOP_ABOUT,
    long_about: STOP_LONG_ABOUT,
    parameters: &[VIA],
    example: "Example:\n  custody stop --via /run/custody/control",
};

/// The commands that only a server carries out.
const SERVER_COMMANDS: [CommandText; 4] = [STATUS, HOLD, RELOAD, STOP];

/// These commands, as `clap` takes them.
pub(crate) fn server_commands<'a>(
    alloc: Global,
    usage: Usage,
) -> Result<Vec<Command<'a>>, AllocError> {
    commands_of(alloc, SERVER_COMMANDS.as_slice(), usage)
}
