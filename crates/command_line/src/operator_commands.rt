//! The commands of an operator that need no server, as `clap` parses them.

use crate::commands::{DB_HELP, NOW, POLICY_HELP};
use crate::parameters::{CommandText, Kind, Parameter, QUIET, Usage, commands_of};
use clap::Command;
use std::alloc::{AllocError, Global};

const AUTHENTICATE_ABOUT: &str =
    "Issues a token to a user, and prints what a Git LFS client needs to use it";

const AUTHENTICATE_LONG_ABOUT: &str = "\
Issues a token to a user, and prints what a Git LFS client needs to use it.

This is what a client runs over SSH as git-lfs-authenticate: a forced command of sshd names the \
user, and passes the path and the operation that the client gave.

A token to download lets its user pull and list; one to upload covers all that the policy allows \
the user. It is valid for the policy's token_seconds. The database keeps only its SHA-256, so the \
printed line is the only copy of the token.

The status is 0 if the token was issued, 1 if something was refused, and 2 if the arguments are \
wrong. No token is stored unless the status is 0, except perhaps after a failure of the database (G2).";

const TOKENS_ABOUT: &str = "Lists the valid tokens of a repository";

const TOKENS_LONG_ABOUT: &str = "\
Lists the valid tokens of a repository.

For each one it prints who has it, for which operation, and until when. A token that has expired is not listed, \
whether it is removed or not. The tokens themselves are not printed: the database keeps only their SHA-256.

The status is 0 if they were printed, also if there is none, 1 if something was refused, and 2 if the arguments are \
wrong.";

const PRUNE_ABOUT: &str = "Removes the tokens that have expired, and prints their number";

const PRUNE_LONG_ABOUT: &str = "\
Removes the tokens that have expired, and prints their number.

An expired token is refused whether it is removed or not: this keeps the database small. With \
--via it runs beside a server; with --db no other program may have the database open.

The status is 0 if they were removed, also if there was none, 1 if something was refused, and 2 if the arguments are \
wrong.";

const PUSHCHECK_ABOUT: &str =
    "Checks for each path on standard input whether a user may push it to a branch";

const PUSHCHECK_LONG_ABOUT: &str = "\
Checks for each path on standard input whether a user may push it to a branch.

Standard input has a path in each line, at most 10000. For each one a line is printed: \"ok\", or the \
row of the policy that denies it, or the user who has locked it, with the id of the lock. A user's own \
lock is not in the way. This is what a hook of a Git server asks before it accepts a push.

The status is 0 if every path is ok, 1 if one is not or something was refused, and 2 if the arguments \
or the paths are wrong.";

const MAY_ABOUT: &str = "Says whether Git may pull from a repository, or push to it, for a user";

const MAY_LONG_ABOUT: &str = "\
Says whether Git may pull from a repository, or push to it, for a user.

It prints \"yes\" or \"no\". A push may begin if, of the rows of the policy that hold the user, the repository and the \
right to push, one allows it for some ref, and no row before that one denies every push. So after \"no\" nothing could be \
pushed; after \"yes\" a hook asks \"pushcheck\" about each path. This is what a forced command of sshd asks before it \
runs Git.

The status is 0 after \"yes\", 1 after \"no\" or if something was refused, and 2 if the arguments are wrong.";

const FORESEE_ABOUT: &str =
    "Prints the reply that a user would get to the message on standard input";

const FORESEE_LONG_ABOUT: &str = "\
Prints the reply that a user would get to the message on standard input.

The message is an HTTP request, with its body and with a valid token of the user for the repository. The first \
line has the status, and the code of the rule that refuses it, or \"ok\". Then comes the body of the reply; of a \
download, \"content\" and the object's name and size. Nothing is changed: no lock is made, no object is stored.

The reply depends on nothing but the policy, the moment, and what the user may see of the repository.

The status is 0 if a reply is printed, whatever it is, 1 if there is no message or no valid token, or if something \
was refused, and 2 if the arguments are wrong. With --via the input is at most 16 MiB.";

const LOCKS_ABOUT: &str = "Lists the locks of a repository";

const LOCKS_LONG_ABOUT: &str = "\
Lists the locks of a repository, in rising ids.

A line has the id, the branch, the owner, the moment at which the lock was made, and the path.

The status is 0 if they were printed, also if there is none, 1 if something was refused, and 2 if the arguments are \
wrong.";

const OBJECTS_ABOUT: &str = "Lists the objects of a repository";

const OBJECTS_LONG_ABOUT: &str = "\
Lists the objects of a repository, in rising names.

A line has the object's name, which is its SHA-256, and its size in bytes.

The status is 0 if they were printed, also if there is none, 1 if something was refused, and 2 if the arguments are \
wrong.";

const USAGE_ABOUT: &str = "Prints what each repository stores, and how much it may store";

const USAGE_LONG_ABOUT: &str = "\
Prints what each repository stores, and how much it may store.

A line has the repository, the number of its objects, their bytes, its quota, the share of it that is used, the bytes \
of the uploads that were not completed, the number of locks, and the number of valid tokens.

It reads the list of all objects, which takes about a second for 100000 objects. With --via nothing else is served \
meanwhile.

The status is 0 if the lines were printed, 1 if something was refused, and 2 if the arguments are wrong.";

const CHECK_ABOUT: &str = "Hashes every stored object again, and names the damaged ones";

const CHECK_LONG_ABOUT: &str = "\
Hashes every stored object again, and names the damaged ones.

An object is damaged if its stored bytes are not as many as its size says, or do not have its name. \
The objects of all repositories are read, one after the other. If the error stream is a terminal, it \
shows how many objects were read so far.

The status is 0 if no object is damaged, 1 if one is or something was refused, and 2 if the arguments \
are wrong.";

const REPAIR_ABOUT: &str = "Removes the damaged objects, so that they can be pushed again";

const REPAIR_LONG_ABOUT: &str = "\
Removes the damaged objects, so that they can be pushed again.

Every stored object is hashed again, as \"check\" does it. Each one that is damaged is removed with its bytes, which no \
longer count against the quota, and a line with its repository and its name is printed. The last line has their \
number. The next push of such a file stores it anew; without this command the server takes the file for stored, and \
the object stays damaged. If no object is damaged, nothing is changed.

With --via it runs beside a server; with --db no other program may have the database open.

The status is 0 if all objects were read, also if some were removed, 1 if something was refused, and 2 if the \
arguments are wrong.";

const SWEEP_ABOUT: &str = "Removes the uploads that were not completed, and prints their number";

const SWEEP_LONG_ABOUT: &str = "\
Removes the uploads that were not completed, and prints their number.

Such an upload is never served, and the next upload to its repository removes it too. No object is \
removed. With --via it runs beside a server; with --db no other program may have the database open.

The status is 0 if they were removed, also if there was none, 1 if something was refused, and 2 if the arguments are \
wrong.";

const RETIRE_ABOUT: &str = "Removes an object of a repository for good";

const RETIRE_LONG_ABOUT: &str = "\
Removes an object of a repository for good.

Its bytes no longer count against the quota, and the server never takes an object of that name in the \
repository again: whoever downloads or uploads it gets the status 410. This cannot be undone. Other \
repositories keep their objects of that name. Uploads to the repository that were not completed are removed too.

It prints \"retired OID\", or \"already retired OID\" if the object was removed before. With --via it runs beside \
a server; with --db no other program may have the database open.

The status is 0 in both cases, 1 if the repository has no such object or something was refused, and 2 if the \
arguments are wrong.";

pub(crate) const REPO_HELP: &str =
    "The repository: an owner, a slash and a name, each 1 to 40 of a-z, 0-9, _ and -";

const DB: Parameter = Parameter {
    name: "db",
    value_name: "FILE",
    help: DB_HELP,
    kind: Kind::File,
};

const POLICY: Parameter = Parameter {
    name: "policy",
    value_name: "FILE",
    help: POLICY_HELP,
    kind: Kind::File,
};

const RANDOM_FILE: Parameter = Parameter {
    name: "random",
    value_name: "FILE",
    help: "The file whose first 32 bytes the token is made of",
    kind: Kind::Random,
};

const VIA: Parameter = Parameter {
    name: "via",
    value_name: "SOCKET",
    help: "The control socket of a running server, which runs the command over its own files",
    kind: Kind::Socket,
};

const USER: Parameter = Parameter {
    name: "user",
    value_name: "U",
    help: "Who gets the token: 1 to 40 of a-z, 0-9, _ and -",
    kind: Kind::Required,
};

const PUSHER: Parameter = Parameter {
    name: "user",
    value_name: "U",
    help: "Who pushes: 1 to 40 of a-z, 0-9, _ and -",
    kind: Kind::Required,
};

const SENDER: Parameter = Parameter {
    name: "user",
    value_name: "U",
    help: "Who sends the message: 1 to 40 of a-z, 0-9, _ and -",
    kind: Kind::Required,
};

const REPO: Parameter = Parameter {
    name: "repo",
    value_name: "R",
    help: REPO_HELP,
    kind: Kind::Required,
};

const REF: Parameter = Parameter {
    name: "ref",
    value_name: "REF",
    help: "The ref that is pushed to, as refs/heads/main",
    kind: Kind::Required,
};

const PATH: Parameter = Parameter {
    name: "path",
    value_name: "PATH",
    help: "The repository, as in the address of the Git remote: studio/film or /studio/film.git",
    kind: Kind::Argument,
};

const OPERATION: Parameter = Parameter {
    name: "operation",
    value_name: "OPERATION",
    help: "What the token is for",
    kind: Kind::Operation,
};

const ACCESS: Parameter = Parameter {
    name: "access",
    value_name: "ACCESS",
    help: "What Git asks for: to pull is git-upload-pack, to push is git-receive-pack",
    kind: Kind::Access,
};

const ASKER: Parameter = Parameter {
    name: "user",
    value_name: "U",
    help: "Who runs Git: 1 to 40 of a-z, 0-9, _ and -",
    kind: Kind::Required,
};

const OID: Parameter = Parameter {
    name: "oid",
    value_name: "OID",
    help: "The name of the object, which is its SHA-256: 64 of 0-9 and a-f",
    kind: Kind::Argument,
};

const AUTHENTICATE: CommandText = CommandText {
    name: "authenticate",
    usage: "custody authenticate (--db FILE --policy FILE [--random FILE] | --via SOCKET) --user U [--now N] PATH OPERATION [--explain]",
    about: AUTHENTICATE_ABOUT,
    long_about: AUTHENTICATE_LONG_ABOUT,
    parameters: &[DB, VIA, POLICY, USER, NOW, RANDOM_FILE, PATH, OPERATION],
    example: "Example:\n  custody authenticate --via /run/custody/control --user ann studio/film upload",
};

const TOKENS: CommandText = CommandText {
    name: "tokens",
    usage: "custody tokens (--db FILE | --via SOCKET) --repo R [--now N] [--explain]",
    about: TOKENS_ABOUT,
    long_about: TOKENS_LONG_ABOUT,
    parameters: &[DB, VIA, REPO, NOW],
    example: "Example:\n  custody tokens --via /run/custody/control --repo studio/film",
};

const PRUNE: CommandText = CommandText {
    name: "prune",
    usage: "custody prune (--db FILE | --via SOCKET) [--now N] [--quiet] [--explain]",
    about: PRUNE_ABOUT,
    long_about: PRUNE_LONG_ABOUT,
    parameters: &[DB, VIA, NOW, QUIET],
    example: "Example:\n  custody prune --via /run/custody/control --quiet",
};

const PUSHCHECK: CommandText = CommandText {
    name: "pushcheck",
    usage: "custody pushcheck (--db FILE --policy FILE | --via SOCKET) --user U --repo R --ref REF [--explain]",
    about: PUSHCHECK_ABOUT,
    long_about: PUSHCHECK_LONG_ABOUT,
    parameters: &[DB, VIA, POLICY, PUSHER, REPO, REF],
    example: "Example:\n  git diff --name-only main | custody pushcheck --via /run/custody/control --user ann --repo studio/film --ref refs/heads/main",
};

const FORESEE: CommandText = CommandText {
    name: "foresee",
    usage: "custody foresee (--db FILE --policy FILE | --via SOCKET) --user U --repo R [--now N] [--explain]",
    about: FORESEE_ABOUT,
    long_about: FORESEE_LONG_ABOUT,
    parameters: &[DB, VIA, POLICY, SENDER, REPO, NOW],
    example: "Example:\n  custody foresee --via /run/custody/control --user ann --repo studio/film < request",
};

const MAY: CommandText = CommandText {
    name: "may",
    usage: "custody may (--db FILE --policy FILE | --via SOCKET) --user U --repo R ACCESS [--explain]",
    about: MAY_ABOUT,
    long_about: MAY_LONG_ABOUT,
    parameters: &[DB, VIA, POLICY, ASKER, REPO, ACCESS],
    example: "Example:\n  custody may --via /run/custody/control --user ann --repo studio/film push",
};

const LOCKS: CommandText = CommandText {
    name: "locks",
    usage: "custody locks (--db FILE | --via SOCKET) --repo R [--explain]",
    about: LOCKS_ABOUT,
    long_about: LOCKS_LONG_ABOUT,
    parameters: &[DB, VIA, REPO],
    example: "Example:\n  custody locks --via /run/custody/control --repo studio/film",
};

const OBJECTS: CommandText = CommandText {
    name: "objects",
    usage: "custody objects (--db FILE | --via SOCKET) --repo R [--explain]",
    about: OBJECTS_ABOUT,
    long_about: OBJECTS_LONG_ABOUT,
    parameters: &[DB, VIA, REPO],
    example: "Example:\n  custody objects --via /run/custody/control --repo studio/film",
};

const USAGE: CommandText = CommandText {
    name: "usage",
    usage: "custody usage (--db FILE --policy FILE | --via SOCKET) [--now N] [--explain]",
    about: USAGE_ABOUT,
    long_about: USAGE_LONG_ABOUT,
    parameters: &[DB, VIA, POLICY, NOW],
    example: "Example:\n  custody usage --via /run/custody/control",
};

const CHECK: CommandText = CommandText {
    name: "check",
    usage: "custody check (--db FILE | --via SOCKET) [--quiet] [--explain]",
    about: CHECK_ABOUT,
    long_about: CHECK_LONG_ABOUT,
    parameters: &[DB, VIA, QUIET],
    example: "Example:\n  custody check --via /run/custody/control",
};

const REPAIR: CommandText = CommandText {
    name: "repair",
    usage: "custody repair (--db FILE | --via SOCKET) [--quiet] [--explain]",
    about: REPAIR_ABOUT,
    long_about: REPAIR_LONG_ABOUT,
    parameters: &[DB, VIA, QUIET],
    example: "Example:\n  custody repair --via /run/custody/control",
};

const SWEEP: CommandText = CommandText {
    name: "sweep",
    usage: "custody sweep (--db FILE | --via SOCKET) [--quiet] [--explain]",
    about: SWEEP_ABOUT,
    long_about: SWEEP_LONG_ABOUT,
    parameters: &[DB, VIA, QUIET],
    example: "Example:\n  custody sweep --via /run/custody/control",
};

const RETIRE: CommandText = CommandText {
    name: "retire",
    usage: "custody retire (--db FILE | --via SOCKET) --repo R OID [--explain]",
    about: RETIRE_ABOUT,
    long_about: RETIRE_LONG_ABOUT,
    parameters: &[DB, VIA, REPO, OID],
    example: "Example:\n  custody retire --via /run/custody/control --repo studio/film e3b0c44298fc1c149afbf4c8996fb92427ae41e4649b934ca495991b7852b855",
};

/// The commands about tokens, and about what a user may do.
const ACCESS_COMMANDS: [CommandText; 6] = [AUTHENTICATE, TOKENS, PRUNE, MAY, PUSHCHECK, FORESEE];

/// The commands about what is stored.
const STORAGE_COMMANDS: [CommandText; 7] = [LOCKS, OBJECTS, USAGE, CHECK, REPAIR, SWEEP, RETIRE];

/// The commands about tokens, and about what a user may do, as `clap` takes them.
pub(crate) fn access_commands<'a>(
    alloc: Global,
    usage: Usage,
) -> Result<Vec<Command<'a>>, AllocError> {
    commands_of(alloc, ACCESS_COMMANDS.as_slice(), usage)
}

/// The commands about what is stored, as `clap` takes them.
pub(crate) fn storage_commands<'a>(
    alloc: Global,
    usage: Usage,
) -> Result<Vec<Command<'a>>, AllocError> {
    commands_of(alloc, STORAGE_COMMANDS.as_slice(), usage)
}
