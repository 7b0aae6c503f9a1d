//! The commands, as `clap` parses and documents them.

use crate::operator_commands::{REPO_HELP, access_commands, storage_commands};
use crate::parameters::{CommandText, Kind, Parameter, Usage, commands_of};
use crate::server_commands::server_commands;
use clap::Command;
use std::alloc::{AllocError, Global};

const ABOUT: &str =
    "A Git LFS server: stores files and locks paths, with access rules for each path";

/// What `-V` prints after the program's name.
const VERSION: &str = "0.1.0";

/// What `--version` prints after the program's name: the version, and the line of `rt version` for the toolchain that
/// the program is proved with. `tools/check` compares its logic with that of `rt version`.
const LONG_VERSION: &str = "\
0.1.0
rattle-kit-13f logic dac8208d650f15bf";

const SESSION_ABOUT: &str =
    "Answers the requests on standard input, and writes the replies to standard output";

const SESSION_LONG_ABOUT: &str = "\
Answers the requests on standard input, and writes the replies to standard output.

Standard input holds what one connection of a client would send: HTTP requests, one after the \
other. Each is answered as soon as it has arrived.

The status is 0 if the input ended or the server closed the connection, 1 if the policy or the \
database was refused or reading or writing failed, and 2 if the arguments are wrong.";

const SERVE_ABOUT: &str = "Serves connections to a TCP address, one message after the other";

const SERVE_LONG_ABOUT: &str = "\
Serves connections to a TCP address, one message after the other.

A message has its turn when it has arrived, with the moment of the clock at which the turn begins. \
Until then its client costs the others nothing. The command prints \"listening on ADDR\" as soon as \
clients can connect, and runs until it is ended, or until as many connections were served as \
--requests says. It may be ended at any time: each change that a reply reports is on the disk.

A client may idle between two requests for --idle seconds. A connection that fails is reported on \
the error stream, and the next message is served.

With --contents, a database that does not exist yet is made with a file beside it, FILE-contents, for the contents \
of objects. Such a database starts in the time that its rows take, however much is stored, and every command finds \
the file by its name. A database that exists keeps its form.

The status is 0 after the last connection, 1 if the policy, the address or the database was \
refused, and 2 if the arguments are wrong.";

const POLICY_COMMAND_ABOUT: &str = "Checks a policy file, and says which row decides a question";

const POLICY_COMMAND_LONG_ABOUT: &str = "\
Checks a policy file, and says which row decides a question.

With --policy alone it prints how many repositories and rows the file has. If the file has a fault, the \
error stream says where, and what to mend.

With --user, --repo and --right, which go together, it prints which row decides the question, and the text of \
that row. Row 0 means that no row matches, which is a denial. The question concerns no ref without --ref, and \
no path without --path: then only * among the refs or the paths of a row matches it.

With --rows it prints each row after a line with its number, which names the first earlier row that covers \
it: a row that one earlier row covers is never reached.

No database is opened. The status is 0 if the file has no fault and the question is allowed, 1 if the file was \
refused or the question is denied, and 2 if the arguments are wrong.";

const MIGRATE_ABOUT: &str =
    "Gives a database of version 1 the tables of version 2, or moves the contents of objects";

const MIGRATE_LONG_ABOUT: &str = "\
Gives a database of version 1 the tables of version 2, once; with --contents or --chunks, moves the contents of objects \
into a file beside the database, or back.

Every other command refuses a database of version 1 with \"store G1\". This one adds the table of removed \
objects, and keeps each token, object and lock as it is. It is done at once: if it is interrupted, the \
database has version 1 or version 2, and the command can be run again. Copy the database and its log first: \
there is no way back.

With --contents the database gets version 3, and contents are in FILE-contents; with --chunks it gets version 2 again, \
and they are in the database. Only one of the two may be given. The database is copied into new files beside it, \
FILE-moving and FILE-moving-contents, which need as much room again. They take its names once all of both was compared: \
nothing of it is changed before that. If the command is interrupted, the same command continues it.

It prints \"migrated from version 1\", \"already version 2\" or \"already version 3\"; or, after a move, a line as \
\"migrated from version 2, 12 objects\". If the error stream is a terminal, it shows how far it is. No server may have \
the database open.

The status is 0 if the database then has version 2 or 3, 1 if something was refused, and 2 if the arguments are wrong.";

pub(crate) const DB_HELP: &str =
    "The database file; it is created if it does not exist, in a folder that exists";

pub(crate) const POLICY_HELP: &str =
    "The policy file: which repositories there are, and who may do what";

/// The database file of a command that no server runs.
const DB: Parameter = Parameter {
    name: "db",
    value_name: "FILE",
    help: DB_HELP,
    kind: Kind::Required,
};

/// The policy file of such a command.
const POLICY: Parameter = Parameter {
    name: "policy",
    value_name: "FILE",
    help: POLICY_HELP,
    kind: Kind::Required,
};

pub(crate) const NOW: Parameter = Parameter {
    name: "now",
    value_name: "N",
    help: "The moment, in seconds since 1970-01-01T00:00:00Z: 0 to 253402300799 [default: the clock's]",
    kind: Kind::Optional,
};

const LISTEN: Parameter = Parameter {
    name: "listen",
    value_name: "ADDR",
    help: "The address: an IP address or a name, and a port, as 127.0.0.1:8080",
    kind: Kind::Required,
};

const REQUESTS: Parameter = Parameter {
    name: "requests",
    value_name: "N",
    help: "Ends after this many connections, 1 to 1000000 [default: runs until it is ended]",
    kind: Kind::Optional,
};

const IDLE: Parameter = Parameter {
    name: "idle",
    value_name: "SECONDS",
    help: "How many seconds a client may idle between two requests: 1 to 86400 [default: 10]",
    kind: Kind::Optional,
};

const CONTROL: Parameter = Parameter {
    name: "control",
    value_name: "SOCKET",
    help: "The path of a socket on which operators' commands are taken, with --via; only this user may use it",
    kind: Kind::Optional,
};

const CONTENTS: Parameter = Parameter {
    name: "contents",
    value_name: "",
    help: "Makes a new database with a file beside it, FILE-contents, for the contents of objects",
    kind: Kind::Switch,
};

const MOVED: Parameter = Parameter {
    name: "contents",
    value_name: "",
    help: "Copies the contents of objects into a file beside the database",
    kind: Kind::Switch,
};

const CHUNKS: Parameter = Parameter {
    name: "chunks",
    value_name: "",
    help: "Copies the contents of objects back into the database",
    kind: Kind::Switch,
};

const ASKER: Parameter = Parameter {
    name: "user",
    value_name: "U",
    help: "Who asks: 1 to 40 of a-z, 0-9, _ and -",
    kind: Kind::Question,
};

const ASKED_REPO: Parameter = Parameter {
    name: "repo",
    value_name: "R",
    help: REPO_HELP,
    kind: Kind::Question,
};

const RIGHT: Parameter = Parameter {
    name: "right",
    value_name: "RIGHT",
    help: "What the user asks to do: pull, push, list, lock or force",
    kind: Kind::Question,
};

const ASKED_REF: Parameter = Parameter {
    name: "ref",
    value_name: "REF",
    help: "The ref that the question concerns, as refs/heads/main",
    kind: Kind::Question,
};

const ASKED_PATH: Parameter = Parameter {
    name: "path",
    value_name: "PATH",
    help: "The path that the question concerns, as art/hero.psd",
    kind: Kind::Question,
};

const ROWS: Parameter = Parameter {
    name: "rows",
    value_name: "",
    help: "Prints each row, and which ones are never reached",
    kind: Kind::Flag,
};

const SESSION: CommandText = CommandText {
    name: "session",
    usage: "custody session --db FILE --policy FILE [--now N] [--explain]",
    about: SESSION_ABOUT,
    long_about: SESSION_LONG_ABOUT,
    parameters: &[DB, POLICY, NOW],
    example: "Example:\n  custody session --db film.db --policy policy.toml < requests",
};

const SERVE: CommandText = CommandText {
    name: "serve",
    usage: "custody serve --db FILE --policy FILE --listen ADDR [--requests N] [--idle SECONDS] [--control SOCKET] [--contents] [--explain]",
    about: SERVE_ABOUT,
    long_about: SERVE_LONG_ABOUT,
    parameters: &[DB, POLICY, LISTEN, REQUESTS, IDLE, CONTROL, CONTENTS],
    example: "Example:\n  custody serve --db film.db --policy policy.toml --listen 127.0.0.1:8080",
};

const POLICY_COMMAND: CommandText = CommandText {
    name: "policy",
    usage: "custody policy --policy FILE [--rows | --user U --repo R --right RIGHT [--ref REF] [--path PATH]] [--explain]",
    about: POLICY_COMMAND_ABOUT,
    long_about: POLICY_COMMAND_LONG_ABOUT,
    parameters: &[
        POLICY, ASKER, ASKED_REPO, RIGHT, ASKED_REF, ASKED_PATH, ROWS,
    ],
    example: "Example:\n  custody policy --policy policy.toml --user ann --repo studio/film --right lock --ref refs/heads/main --path art/hero.psd",
};

const MIGRATE: CommandText = CommandText {
    name: "migrate",
    usage: "custody migrate --db FILE [--contents] [--chunks] [--explain]",
    about: MIGRATE_ABOUT,
    long_about: MIGRATE_LONG_ABOUT,
    parameters: &[DB, MOVED, CHUNKS],
    example: "Example:\n  custody migrate --db film.db",
};

/// The commands that only the program itself runs.
const OWN_COMMANDS: [CommandText; 4] = [SESSION, SERVE, POLICY_COMMAND, MIGRATE];

/// The program, with its commands.
pub(crate) fn program<'a>(alloc: Global, usage: Usage) -> Result<Command<'a>, AllocError> {
    let own = commands_of(alloc, OWN_COMMANDS.as_slice(), usage)?;
    let access = access_commands(alloc, usage)?;
    let storage = storage_commands(alloc, usage)?;
    let servers = server_commands(alloc, usage)?;
    Command::new(alloc, "custody")
        .about(ABOUT)
        .version(VERSION)
        .long_version(LONG_VERSION)
        .subcommand_required(true)
        .arg_required_else_help(true)
        .subcommands(own)?
        .subcommands(access)?
        .subcommands(storage)?
        .subcommands(servers)
}
