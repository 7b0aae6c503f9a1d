//! The line that `--explain` adds to that of a fault, for each cause that a test can bring about; the flag `--quiet`; and the
//! server that the environment names.

use crate::harness::{Tester, unwrap};
use crate::program::{path_of, prepare, remove, run, run_in};
use crate::transcript::{POLICY, perform, play};
use cli::{Destination, Environment};
use sqlite::{Connection, Error, File as Handle, FileStore};
use std::fs::{self, File, Permissions};
use std::net::TcpListener;
use std::os::unix::fs::PermissionsExt;
use std::os::unix::net::UnixListener;
use std::rt::HostRuntime;
use tables::Alter;

/// Causes in the database's file.
const DATABASES: &str = r#"
# nothing is added without the flag
$ locks --db @/nowhere/db --repo studio/film
error custody: store G2
status 1
# its folder does not exist
$ locks --db @/nowhere/db --repo studio/film --explain
error custody: store G2
error databases/nowhere/db: its folder does not exist: create it, or correct the path
status 1
# a folder
$ locks --db @ --repo studio/film --explain
error custody: store G2
error databases: this is a folder: give the path of a file
status 1
# a name that is refused
$ locks --db :memory: --repo studio/film --explain
error custody: store G2
error :memory:: this is no file: give the path of one, and no URI
status 1
$ locks --db file:db --repo studio/film --explain
error custody: store G2
error file:db: this is no file: give the path of one, and no URI
status 1
# a file of another kind
file other 4096 65
$ locks --db @/other --repo studio/film --explain
error custody: store G2
error databases/other: this is not a database: correct the path
status 1
# a database of another program
sql CREATE TABLE locks (one INTEGER)
$ locks --db @/db --repo studio/film --explain
error custody: store G1
error databases/db: this is a database of another program, or of version 1: custody migrate gives one of version 1 the tables that are needed
status 1
"#;

/// Causes in other files.
const FILES: &str = r#"
$ session --db @/db --policy @/nowhere --explain
error custody: policy not read
error files/nowhere: there is no such file: correct the path, or create it
status 1
missing db
$ session --db @/db --policy @ --explain
error custody: policy not read
error files: this is a folder: give the path of a file
status 1
missing db
$ authenticate --db @/db --policy @/policy --user ann --random @/nowhere studio/film upload --explain
error custody: random bytes not read
error files/nowhere: there is no such file: correct the path, or create it
status 1
missing db
file short 31 65
$ authenticate --db @/db --policy @/policy --user ann --random @/short studio/film upload --explain
error custody: random bytes not read
error files/short: it can be opened, but is too short, or could not be read to its end
status 1
missing db
# a repository that the policy does not have
$ authenticate --db @/db --policy @/policy --user ann studio/flim upload --explain
error custody: R1: no such repository
error files/policy has no [[repo]] with the name studio/flim: correct the name, or add it
status 1
missing db
$ pushcheck --db @/db --policy @/policy --user ann --repo studio/flim --ref refs/heads/main --explain
line art/hero.psd
| denied by row 0: art/hero.psd
error files/policy has no repository studio/flim
error files/db: there was no such file, and an empty database was created: is the path right?
status 1
"#;

/// Causes in addresses and sockets.
const SOCKETS: &str = r#"
$ serve --db @/db --policy @/policy --listen 127.0.0.1 --explain
error custody: network
error 127.0.0.1: this is no address: give an IP address or a name that is known, a colon and a port, as 127.0.0.1:8080
status 1
missing db
$ serve --db @/db --policy @/policy --listen 192.0.2.1:8080 --explain
error custody: network
error 192.0.2.1:8080: this machine does not have the address: 127.0.0.1 is for a proxy on the same machine
status 1
missing db
# what it reads at the start is said too
$ serve --db @/one --policy @/policy --listen 127.0.0.1:0 --control @/nowhere/socket --explain
error policy ok: 1 repositories, 1 rows
error custody: control socket
error addresses/nowhere/socket: its folder does not exist: create it, or correct the path
status 1
file plain 1 65
$ serve --db @/two --policy @/policy --listen 127.0.0.1:0 --control @/plain --explain
error policy ok: 1 repositories, 1 rows
error custody: control socket
error addresses/plain: there is a file that is no socket: remove it, or use another path
status 1
$ locks --via @/nowhere --repo studio/film --explain
error custody: control socket
error addresses/nowhere: there is no such socket: the server does not run, or has another path after --control
status 1
$ locks --via @/plain --repo studio/film --explain
error custody: control socket
error addresses/plain: this is no socket: give the path after the server's --control
status 1
"#;

/// Values that are refused, and what they have to be.
const VALUES: &str = r#"
$ locks --db @/db --repo film --explain
error custody: bad value for --repo
error --repo takes an owner, a slash and a name, each 1 to 40 of a-z, 0-9, _ and -, as studio/film
status 2
missing db
$ authenticate --explain --db @/db --policy @/policy --user Ann studio/film upload
error custody: bad value for --user
error --user takes 1 to 40 of a-z, 0-9, _ and -, as ann
status 2
missing db
$ prune --db @/db --now x --explain
error custody: bad value for --now
error --now takes a whole number of seconds since 1970-01-01T00:00:00Z, 0 to 253402300799
status 2
missing db
$ hold --via @/socket --seconds 601 --explain
error custody: bad value for --seconds
error --seconds takes a whole number of seconds, 1 to 600
status 2
$ retire --db @/db --repo studio/film abc --explain
error custody: bad value for OID
error OID takes the SHA-256 of the object: 64 of 0-9 and a-f
status 2
missing db
# a word after -- is no flag
$ authenticate --db @/db --policy @/policy --user Ann -- --explain upload
error custody: bad value for --user
status 2
missing db
"#;

/// Commands that succeed, and may not be what was meant; and output without its count.
const NOTES: &str = r#"
$ locks --db @/db --repo studio/film --explain
error notes/db: there was no such file, and an empty database was created: is the path right?
$ locks --db @/db --repo studio/flim --explain
error there are no locks in studio/flim: is the name right?
$ objects --db @/db --repo studio/flim --explain
error there are no objects in studio/flim: is the name right?
$ tokens --db @/db --repo studio/flim --explain
error there are no valid tokens in studio/flim: is the name right?
$ locks --db @/db --repo studio/flim
$ check --db @/db
| checked 0 objects
$ check --db @/db --quiet
$ prune --db @/db --now 1463500000 --quiet
$ sweep --db @/db --quiet
$ sweep --db @/nowhere/db --quiet
error custody: store G2
status 1
"#;

/// A file that another program has open.
const IN_USE: &str = r#"
$ locks --db @/db --repo studio/film --explain
error custody: store G2
error used/db: another program has it open: if that is the server, ask it with --via SOCKET, else end that program
status 1
"#;

/// A file that the user may not read.
const NO_PERMISSION: &str = r#"
chmod policy 000
$ session --db @/other --policy @/policy --explain
error custody: policy not read
error forbidden/policy: this user may not read it: give it a mode or an owner that lets the user read
status 1
missing other
chmod policy 600
file db 16 65
chmod db 000
$ locks --db @/db --repo studio/film --explain
error custody: store G2
error forbidden/db: this user may not read and write the file: run the command as its owner
status 1
"#;

#[test]
fn causes_in_a_database_are_named(rt: HostRuntime) {
    perform(&rt, &rt, "databases", POLICY, DATABASES);
}

#[test]
fn causes_in_files_are_named(rt: HostRuntime) {
    perform(&rt, &rt, "files", POLICY, FILES);
}

#[test]
fn causes_in_addresses_are_named(rt: HostRuntime) {
    perform(&rt, &rt, "addresses", POLICY, SOCKETS);
}

#[test]
fn what_a_value_has_to_be_is_said(rt: HostRuntime) {
    perform(&rt, &rt, "values", POLICY, VALUES);
}

#[test]
fn doubtful_success_is_noted_and_counts_are_left_out(rt: HostRuntime) {
    perform(&rt, &rt, "notes", POLICY, NOTES);
}

/// Plays the transcript while the connection is open.
fn play_beside<S: Alter + Drop>(
    rt: &impl Tester,
    host: &HostRuntime,
    opened: Result<Connection<S>, Error>,
) {
    let _held = unwrap(rt, opened);
    play(rt, host, "used", IN_USE);
}

#[test]
fn a_database_in_use_is_named(rt: HostRuntime) {
    prepare(&rt, &rt, "used", POLICY);
    let path = path_of(&rt, "used", "db");
    let opened: Result<Connection<FileStore<Handle>>, Error> = Connection::open(&rt, path.as_str());
    play_beside(&rt, &rt, opened);
    remove(&rt, "used");
}

/// Whether a file with no mode at all can be read, as root can.
fn reads_everything(rt: &impl Tester, host: &HostRuntime, path: &str) -> bool {
    unwrap(
        rt,
        fs::set_permissions(host, path, Permissions::from_mode(0)),
    );
    File::open(host, path).is_ok()
}

/// Root may read and write every file, so for root there is no such cause.
#[test]
fn files_that_may_not_be_read_are_named(rt: HostRuntime) {
    prepare(&rt, &rt, "forbidden", POLICY);
    let path = path_of(&rt, "forbidden", "a");
    if !reads_everything(&rt, &rt, path.as_str()) {
        play(&rt, &rt, "forbidden", NO_PERMISSION);
    }
    remove(&rt, "forbidden");
}

#[test]
fn an_address_in_use_is_named(rt: HostRuntime) {
    prepare(&rt, &rt, "occupied", POLICY);
    let listener = unwrap(&rt, TcpListener::bind(&rt, "127.0.0.1:0"));
    let port = unwrap(&rt, listener.local_addr()).port();
    let line = unwrap(
        &rt,
        format!(in rt.alloc();
            "serve --db @/db --policy @/policy --listen 127.0.0.1:{port} --explain"
        ),
    );
    let errors = unwrap(
        &rt,
        format!(in rt.alloc();
            "custody: network\n127.0.0.1:{port}: another program listens there: end it, or use another port (ss -ltnp names it)\n"
        ),
    );
    let ran = run(&rt, &rt, "occupied", line.as_str(), "");
    assert!(rt; ran.is(1, "", errors.as_str()));
    remove(&rt, "occupied");
}

/// A user at a terminal gets the explanation without the flag.
#[test]
fn a_terminal_gets_the_cause(rt: HostRuntime) {
    let environment = Environment {
        destination: Destination::Other,
        explains: true,
        server: None,
    };
    let line = "locks --db @/db --repo studio/film";
    let ran = run_in(&rt, &rt, "nowhere", line, "", environment);
    let errors =
        "custody: store G2\nnowhere/db: its folder does not exist: create it, or correct the path\n";
    assert!(rt; ran.is(1, "", errors));
}

/// Commands with the server `asked/socket` in the environment, on which nobody listens, and their error streams.
const ASKED: &[(&str, u8, &str)] = &[
    (
        "locks --repo studio/film --explain",
        1,
        "custody: control socket\nasked/socket: the server does not run: start it\n",
    ),
    ("stop", 1, "custody: control socket\n"),
    (
        "authenticate --user ann -- studio/film upload",
        1,
        "custody: control socket\n",
    ),
    ("locks --repo film", 2, "custody: bad value for --repo\n"),
    ("locks --db @/db --repo studio/film", 0, ""),
    ("migrate --db @/db", 0, ""),
    (
        "locks",
        2,
        "error: the following required arguments were not provided:\n  --repo <R>\n\nUsage: custody locks --repo <R> --via <SOCKET>\n\nFor more information, try '--help'.\n",
    ),
    (
        "migrate",
        2,
        "error: the following required arguments were not provided:\n  --db <FILE>\n\nUsage: custody migrate --db <FILE>\n\nFor more information, try '--help'.\n",
    ),
];

#[test]
fn the_environment_names_a_server(rt: HostRuntime) {
    prepare(&rt, &rt, "asked", POLICY);
    let path = path_of(&rt, "asked", "socket");
    // The socket stays, as that of a server that was killed.
    drop(unwrap(&rt, UnixListener::bind(&rt, path.as_str())));
    let environment = Environment {
        destination: Destination::Other,
        explains: false,
        server: Some(path.as_str()),
    };
    for &(line, status, errors) in ASKED {
        let ran = run_in(&rt, &rt, "asked", line, "", environment);
        let is_wanted = ran.status == status && ran.errors.as_slice() == errors.as_bytes();
        assert!(rt; is_wanted, "{line}: {}", ran.text(&rt));
    }
    remove(&rt, "asked");
}
