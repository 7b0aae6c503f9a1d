//! Arguments, values and databases that the program refuses, in their order, and its help.

use crate::harness::{Tester, unwrap};
use crate::program::{prepare, read, remove, run, write};
use crate::transcript::{POLICY, perform, play};
use cli::size_text;

/// The version; arguments that are not a command, and values out of range. They create no database.
const WORDS: &str = r#"
# the second line is that of `rt version`
$ --version
| custody 0.1.0
| rattle-kit-13f logic dac8208d650f15bf
$ -V
| custody 0.1.0
$ xyzzy
error error: unrecognized subcommand 'xyzzy'
error
error Usage: custody <COMMAND>
error
error For more information, try '--help'.
status 2
$ session --db @/db
error error: the following required arguments were not provided:
error   --policy <FILE>
error
error Usage: custody session --db <FILE> --policy <FILE>
error
error For more information, try '--help'.
status 2
missing db
$ session --db @/db --policy @/policy --colour red
error error: unexpected argument '--colour' found
error
error Usage: custody session --db <FILE> --policy <FILE>
error
error For more information, try '--help'.
status 2
missing db
# a moment is 1 to 18 digits in range
$ session --db @/db --policy @/policy --now ''
error custody: bad value for --now
status 2
missing db
$ session --db @/db --policy @/policy --now x
error custody: bad value for --now
status 2
missing db
$ session --db @/db --policy @/policy --now +5
error custody: bad value for --now
status 2
missing db
$ session --db @/db --policy @/policy --now ~5
error custody: bad value for --now
status 2
missing db
$ session --db @/db --policy @/policy --now 5s
error custody: bad value for --now
status 2
missing db
$ session --db @/db --policy @/policy --now 253402300800
error custody: bad value for --now
status 2
missing db
$ session --db @/db --policy @/policy --now 999999999999999999
error custody: bad value for --now
status 2
missing db
$ session --db @/db --policy @/policy --now 0000000000000000005
error custody: bad value for --now
status 2
missing db
$ prune --db @/db --now x
error custody: bad value for --now
status 2
missing db
$ session --db @/db --policy @/policy --now 0
$ session --db @/db --policy @/policy --now 253402300799
$ session --db @/db --policy @/policy --now 000000000000000005
"#;

#[test]
fn words_and_values_are_refused(rt: HostRuntime) {
    perform(&rt, &rt, "words", POLICY, WORDS);
}

/// Commands that have two faults, next to each other in the order of docs/COMMANDS.md: the first
/// one is reported.
const FAULTS: &str = r#"
# the words before the user
$ authenticate --db @/db --policy @/policy --user Ann --now 5 --random @/a studio/film push
error error: invalid value 'push' for '<OPERATION>'
error   [possible values: download, upload]
error
error For more information, try '--help'.
status 2
# the user before the moment
$ authenticate --db @/db --policy @/policy --user Ann --now x --random @/a studio/film upload
error custody: bad value for --user
status 2
# the moment before the policy
$ authenticate --db @/db --policy @/nowhere --user ann --now x --random @/a studio/film upload
error custody: bad value for --now
status 2
$ session --db @/db --policy @/nowhere --now x
error custody: bad value for --now
status 2
# the policy before R1
$ authenticate --db @/db --policy @/nowhere --user ann --now 5 --random @/a studio/other upload
error custody: policy not read
status 1
# R1 before the random bytes
$ authenticate --db @/db --policy @/policy --user ann --now 5 --random @/nowhere studio/other upload
error custody: R1: no such repository
status 1
# the random bytes before the database
$ authenticate --db @ --policy @/policy --user ann --now 5 --random @/nowhere studio/film upload
error custody: random bytes not read
status 1
# the policy before the database
$ session --db @ --policy @/nowhere --now 5
error custody: policy not read
status 1
# the moment before the database
$ prune --db @ --now x
error custody: bad value for --now
status 2
# the database before K2
$ authenticate --db @ --policy @/policy --user ann --now 253402300799 --random @/a studio/film upload
error custody: store G2
status 1
missing db
# K1 before K2
token a ann studio/film
$ authenticate --db @/db --policy @/policy --user bob --now 253402300799 --random @/a studio/film upload
error custody: K1: token already issued
status 1
"#;

#[test]
fn the_first_fault_is_reported(rt: HostRuntime) {
    perform(&rt, &rt, "faults", POLICY, FAULTS);
}

/// Databases that cannot be opened.
const CLOSED: &str = r#"
$ session --db @/nowhere/db --policy @/policy --now 5
error custody: store G2
status 1
missing nowhere
$ session --db '' --policy @/policy --now 5
error custody: store G2
status 1
$ session --db :memory: --policy @/policy --now 5
error custody: store G2
status 1
missing ../:memory:
$ session --db file:db --policy @/policy --now 5
error custody: store G2
status 1
missing ../file:db
$ session --db @ --policy @/policy --now 5
error custody: store G2
status 1
$ prune --db @ --now 5
error custody: store G2
status 1
# a file that is no database
file db 40 65
$ session --db @/db --policy @/policy --now 5
error custody: store G2
status 1
$ prune --db @/db --now 5
error custody: store G2
status 1
"#;

/// The modes of databases and their logs.
const MODES: &str = r#"
# a new one is for its owner alone
$ prune --db @/db --now 5
| pruned 0 tokens
mode db 600
mode db-wal 600
# so is one that a server has made
via prune --now 5
| pruned 0 tokens
mode db 600
# one that exists keeps its mode, and its log is given the same
file other 0 0
chmod other 640
$ prune --db @/other --now 5
| pruned 0 tokens
mode other 640
mode other-wal 640
# a log that exists keeps its own
chmod other 660
$ prune --db @/other --now 5
| pruned 0 tokens
mode other 660
mode other-wal 640
"#;

#[test]
fn a_new_database_is_for_its_owner_alone(rt: HostRuntime) {
    perform(&rt, &rt, "modes", POLICY, MODES);
}

/// A database of another version.
const OTHER: &str = r#"
$ session --db @/db --policy @/policy --now 5
error custody: store G1
status 1
$ authenticate --db @/db --policy @/policy --user ann --now 5 --random @/a studio/film upload
error custody: store G1
status 1
$ prune --db @/db --now 5
error custody: store G1
status 1
$ migrate --db @/db
error custody: store G1
status 1
"#;

/// The file that `sqlite3` writes, with pages of 512 bytes, if `meta` is created with version 3:
/// its pieces, each with the number of zeros after it.
const VERSION_3: &[(&[u8], usize)] = &[
    (
        b"SQLite format 3\x00\x02\x00\x01\x01\x00@  \x00\x00\x00\x02\x00\x00\x00\x02",
        11,
    ),
    (b"\x01\x00\x00\x00\x04", 11),
    (b"\x01", 35),
    (b"\x02\x00.c\x01\x0d\x00\x00\x00\x01\x01x\x00\x01x", 266),
    (
        b"\x81\x05\x01\x07\x17\x15\x15\x01\x81mtablemetameta\x02CREATE TABLE meta (one INTEGER PRIMARY KEY CHECK (one = 1), version INTEGER NOT NULL CHECK (version = 3)) STRICT\x0d\x00\x00\x00\x01\x01\xfa\x00\x01\xfa",
        496,
    ),
    (b"\x04\x01\x03\x00\x01\x03", 0),
];

/// The bytes of that file.
fn version_3(rt: &impl Tester) -> Vec<u8> {
    let mut file = Vec::new(rt.alloc());
    for (piece, count) in VERSION_3 {
        let zeros = unwrap(rt, vec![in rt.alloc(); 0; *count]);
        unwrap(rt, file.extend_from_slice(piece));
        unwrap(rt, file.extend_from_slice(zeros.as_slice()));
    }
    file
}

#[test]
fn another_database_is_left(rt: HostRuntime) {
    prepare(&rt, &rt, "closed", POLICY);
    play(&rt, &rt, "closed", CLOSED);
    assert!(rt; read(&rt, &rt, "closed", "db").as_slice() == [65; 40].as_slice());
    let file = version_3(&rt);
    prepare(&rt, &rt, "closed", POLICY);
    write(&rt, &rt, "closed", "db", file.as_slice());
    play(&rt, &rt, "closed", OTHER);
    assert!(rt; read(&rt, &rt, "closed", "db").as_slice() == file.as_slice());
    remove(&rt, "closed");
}

/// Arguments that ask for help, and what the help names: each command, or each argument and value that
/// the command takes, as docs/COMMANDS.md has them.
const HELPS: &[(&str, &[&str])] = &[
    (
        "--help",
        &[
            "session",
            "serve",
            "authenticate",
            "prune",
            "may",
            "pushcheck",
            "policy",
            "locks",
            "objects",
            "check",
            "sweep",
            "retire",
            "migrate",
            "tokens",
            "usage",
            "status",
            "hold",
            "reload",
            "stop",
        ],
    ),
    (
        "session --help",
        &["--db <FILE>", "--policy <FILE>", "--now <N>"],
    ),
    (
        "serve --help",
        &[
            "--db <FILE>",
            "--policy <FILE>",
            "--listen <ADDR>",
            "--requests <N>",
            "--idle <SECONDS>",
        ],
    ),
    (
        "authenticate --help",
        &[
            "--db <FILE>",
            "--policy <FILE>",
            "--user <U>",
            "--now <N>",
            "--random <FILE>",
            "<PATH>",
            "<OPERATION>",
            "download",
            "upload",
        ],
    ),
    ("prune --help", &["--db <FILE>", "--now <N>"]),
    (
        "tokens --help",
        &["--db <FILE>", "--via <SOCKET>", "--repo <R>", "--now <N>"],
    ),
    (
        "usage --help",
        &[
            "--db <FILE>",
            "--policy <FILE>",
            "--via <SOCKET>",
            "--now <N>",
        ],
    ),
    (
        "prune -h",
        &[
            "Usage: custody prune (--db FILE | --via SOCKET) [--now N] [--quiet] [--explain]",
            "Example:\n  custody prune --via /run/custody/control --quiet",
        ],
    ),
    (
        "serve --help",
        &[
            "Usage: custody serve --db FILE --policy FILE --listen ADDR [--requests N] [--idle SECONDS] [--control SOCKET] [--contents] [--explain]",
            "The status is 0 after the last connection",
        ],
    ),
    ("status --help", &["--via <SOCKET>", "The status is 0 if"]),
    ("hold --help", &["--via <SOCKET>", "--seconds <N>"]),
    ("reload --help", &["--via <SOCKET>"]),
    ("stop --help", &["--via <SOCKET>"]),
    (
        "may --help",
        &[
            "--db <FILE>",
            "--policy <FILE>",
            "--user <U>",
            "--repo <R>",
            "<ACCESS>",
        ],
    ),
    (
        "pushcheck --help",
        &[
            "--db <FILE>",
            "--policy <FILE>",
            "--user <U>",
            "--repo <R>",
            "--ref <REF>",
        ],
    ),
    (
        "policy --help",
        &[
            "--policy <FILE>",
            "--user <U>",
            "--repo <R>",
            "--right <RIGHT>",
            "--ref <REF>",
            "--path <PATH>",
            "--rows",
        ],
    ),
    ("locks --help", &["--db <FILE>", "--repo <R>"]),
    ("objects --help", &["--db <FILE>", "--repo <R>"]),
    ("check --help", &["--db <FILE>"]),
    ("sweep --help", &["--db <FILE>"]),
    ("retire --help", &["--db <FILE>", "--repo <R>", "<OID>"]),
    ("migrate --help", &["--db <FILE>"]),
];

/// Asserts that the text has each of the parts.
fn expect_parts(rt: &impl Tester, text: &[u8], parts: &[&str]) {
    let text = unwrap(rt, str::from_utf8(text));
    for part in parts {
        assert!(rt; text.contains(*part), "{part}");
    }
}

#[test]
fn help_is_printed(rt: HostRuntime) {
    for (line, parts) in HELPS {
        let ran = run(&rt, &rt, "help", line, "");
        assert!(rt; ran.status == 0 && ran.errors.is_empty(), "{line}");
        expect_parts(&rt, ran.output.as_slice(), parts);
    }
}

#[test]
fn no_words_are_answered_by_help(rt: HostRuntime) {
    let ran = run(&rt, &rt, "help", "", "");
    assert!(rt; ran.status == 2 && ran.output.is_empty());
    expect_parts(
        &rt,
        ran.errors.as_slice(),
        &["session", "serve", "authenticate", "prune"],
    );
}

/// Sizes of files, and how each is printed.
const SIZES: &[(u64, &str)] = &[
    (4_096, "4 KB"),
    (840_999, "840 KB"),
    (999_999, "999 KB"),
    (1_000_000, "1.0 MB"),
    (4_254_720, "4.2 MB"),
    (9_999_999, "9.9 MB"),
    (10_000_000, "10 MB"),
    (336_785_408, "336 MB"),
    (4_831_838_208, "4831 MB"),
];

#[test]
fn sizes_are_printed_in_decimal_units(rt: HostRuntime) {
    for &(bytes, want) in SIZES {
        let text = unwrap(&rt, size_text(rt.alloc(), bytes));
        assert!(rt; text.as_str() == want, "{bytes}");
    }
}
