//! Which files a store accepts as its own, what it finds in them, and what its faults print.
//!
//! The helpers have no clause, so a test's proof does not include those of each call.

use super::files::{Step, take_steps};
use crate::harness::{Tester, lock_path, moment, ref_name, repo, unwrap, user};
use names::Operation;
use tables::{Alter, Creation, Migrated, NewLock, NewToken, OpenFault, Store, StoreFault};

const FILM: &str = "studio/film";

const MAIN: &str = "refs/heads/main";

/// The id of the lock that is made; 0 if the path is locked, and 1,000 if no id is left.
fn lock<S: Alter>(rt: &impl Tester, store: &mut Store<S>, path: &str) -> u32 {
    let film = repo(rt, FILM);
    let main = ref_name(rt, MAIN);
    let path = lock_path(rt, path);
    let ann = user(rt, "ann");
    let lock = NewLock {
        repo: &film,
        ref_name: &main,
        path: &path,
        owner: &ann,
        moment: moment(rt, 253402300799),
    };
    match unwrap(rt, store.create_lock(&lock)) {
        Creation::Created(id) => id.get(),
        Creation::Held(_) => 0,
        Creation::UsedUp => 1000,
    }
}

fn made<S: Alter>(rt: &impl Tester, store: &mut Store<S>, name: &str) -> u32 {
    unwrap(rt, store.made(&repo(rt, name)))
}

fn id_at<S: Alter>(rt: &impl Tester, store: &mut Store<S>, name: &str, path: &str) -> u32 {
    let film = repo(rt, FILM);
    let name = ref_name(rt, name);
    let path = lock_path(rt, path);
    unwrap(rt, store.lock_at(&film, &name, &path)).map_or(0, |row| row.id.get())
}

fn add<S: Alter>(rt: &impl Tester, store: &mut Store<S>, byte: u8, expires: u64) -> bool {
    let ann = user(rt, "ann");
    let film = repo(rt, FILM);
    let token = NewToken {
        digest: &[byte; 32],
        user: &ann,
        repo: &film,
        operation: Operation::Upload,
        expires: moment(rt, expires),
    };
    unwrap(rt, store.add_token(&token))
}

/// When the token of this byte expires; 0 if none is stored, and -1 if it is another user's.
fn expiry<S: Alter>(rt: &impl Tester, store: &mut Store<S>, byte: u8) -> i64 {
    let Some(row) = unwrap(rt, store.token(&[byte; 32])) else {
        return 0;
    };
    if row.digest.as_slice() == [byte; 32].as_slice()
        && row.user.as_str() == "ann"
        && row.repo.as_str() == FILM
        && row.operation == Operation::Upload
    {
        return row.expires.get() as i64;
    }
    -1
}

/// Adds a lock and a token.
pub(crate) fn fill<S: Alter>(rt: &impl Tester, store: &mut Store<S>) {
    lock(rt, store, "a");
    add(rt, store, 0xAA, 100);
}

/// The lock's id, the number of locks made, and the token's expiry.
pub(crate) fn found<S: Alter>(rt: &impl Tester, store: &mut Store<S>) -> (u32, u32, i64) {
    (
        id_at(rt, store, MAIN, "a"),
        made(rt, store, FILM),
        expiry(rt, store, 0xAA),
    )
}

/// The ids of the locks on two paths and on the first again, as [`lock`] returns them.
pub(crate) fn last_locks<S: Alter>(rt: &impl Tester, store: &mut Store<S>) -> (u32, u32, u32) {
    (
        lock(rt, store, "a"),
        lock(rt, store, "b"),
        lock(rt, store, "a"),
    )
}

/// A table of another program, with an index and a row.
const SHOTS: &str =
    "CREATE TABLE shots (name TEXT PRIMARY KEY, frames INTEGER); CREATE INDEX by_frames ON shots (frames); INSERT INTO shots VALUES ('sh010', 240)";

/// A database of version 1, in which studio/film has the object `abc`, a lock and a token of ann.
const VERSION_1: &str = r"
CREATE TABLE meta (one INTEGER PRIMARY KEY CHECK (one = 1), version INTEGER NOT NULL CHECK (version = 1)) STRICT;
CREATE TABLE repos (name TEXT NOT NULL PRIMARY KEY, made INTEGER NOT NULL CHECK (made >= 0 AND made <= 4294967295), used INTEGER NOT NULL CHECK (used >= 0)) STRICT;
CREATE TABLE tokens (digest BLOB NOT NULL PRIMARY KEY, user TEXT NOT NULL, repo TEXT NOT NULL, op INTEGER NOT NULL CHECK (op >= 1 AND op <= 2), expires INTEGER NOT NULL) STRICT;
CREATE TABLE uploads (id INTEGER PRIMARY KEY AUTOINCREMENT, repo TEXT NOT NULL, oid TEXT NOT NULL, size INTEGER NOT NULL, done INTEGER NOT NULL CHECK (done >= 0 AND done <= 1), UNIQUE (repo, oid, done)) STRICT;
CREATE TABLE chunks (upload INTEGER NOT NULL, n INTEGER NOT NULL, bytes BLOB NOT NULL, PRIMARY KEY (upload, n)) STRICT;
CREATE TABLE locks (repo TEXT NOT NULL, id INTEGER NOT NULL, ref TEXT NOT NULL, path TEXT NOT NULL, owner TEXT NOT NULL, moment INTEGER NOT NULL, PRIMARY KEY (repo, id), UNIQUE (repo, ref, path)) STRICT;
INSERT INTO meta VALUES (1, 1);
INSERT INTO repos VALUES ('studio/film', 1, 3);
INSERT INTO uploads VALUES (1, 'studio/film', 'ba7816bf8f01cfea414140de5dae2223b00361a396177a9cb410ff61f20015ad', 3, 1);
INSERT INTO chunks VALUES (1, 0, x'616263');
INSERT INTO locks VALUES ('studio/film', 1, 'refs/heads/main', 'a', 'ann', 253402300799);
INSERT INTO tokens VALUES (x'aaaaaaaaaaaaaaaaaaaaaaaaaaaaaaaaaaaaaaaaaaaaaaaaaaaaaaaaaaaaaaaa', 'ann', 'studio/film', 2, 100);
";

/// Files, and the steps for each.
const FILES: &[(&str, &[Step])] = &[
    // A file is read again.
    ("again.db", &[Step::Fill, Step::Find(1, 1, 100)]),
    // A file with another schema is left unchanged.
    (
        "third.db",
        &[
            Step::Run(
                "CREATE TABLE meta (one INTEGER PRIMARY KEY CHECK (one = 1), version INTEGER NOT NULL CHECK (version = 3)) STRICT; INSERT INTO meta VALUES (1, 3)",
            ),
            Step::Leave,
        ],
    ),
    // One of version 1 is left unchanged too, and migrated once. Tables of another program are kept.
    (
        "first.db",
        &[
            Step::Run(SHOTS),
            Step::Run(VERSION_1),
            Step::Leave,
            Step::Migrate(Ok(Migrated::From1)),
            Step::Migrate(Ok(Migrated::Already)),
            Step::Find(1, 1, 100),
            Step::Rows("SELECT name FROM shots WHERE frames = 240", 1),
            Step::Rows(
                "SELECT n FROM chunks WHERE upload = 1 AND bytes = x'616263'",
                1,
            ),
        ],
    ),
    // A new file is given the current version, and one that is neither is refused.
    (
        "new.db",
        &[
            Step::Migrate(Ok(Migrated::Already)),
            Step::Check(Ok(())),
            Step::Run("DROP TABLE retired"),
            Step::Migrate(Err(OpenFault::UnknownSchema)),
        ],
    ),
    (
        "without_meta.db",
        &[
            Step::Run(
                "CREATE TABLE repos (name TEXT NOT NULL PRIMARY KEY, made INTEGER NOT NULL CHECK (made >= 0 AND made <= 4294967295), used INTEGER NOT NULL CHECK (used >= 0)) STRICT",
            ),
            Step::Leave,
        ],
    ),
    // Tables of another program may be there before ours, come later, and go again. Their rows are kept.
    (
        "beside.db",
        &[
            Step::Run(SHOTS),
            Step::Fill,
            Step::Find(1, 1, 100),
            Step::Rows("SELECT name FROM shots WHERE frames = 240", 1),
        ],
    ),
    (
        "added.db",
        &[
            Step::Fill,
            Step::Run(SHOTS),
            Step::Find(1, 1, 100),
            Step::Rows("SELECT name FROM shots WHERE frames = 240", 1),
        ],
    ),
    (
        "dropped.db",
        &[
            Step::Run(SHOTS),
            Step::Fill,
            Step::Run("DROP TABLE shots"),
            Step::Find(1, 1, 100),
        ],
    ),
    // A table of another program whose name differs from one of ours only in case is in the way.
    (
        "capital.db",
        &[Step::Run("CREATE TABLE Locks (a INTEGER)"), Step::Leave],
    ),
    // Tables without their version are refused.
    (
        "no_version.db",
        &[
            Step::Fill,
            Step::Run("DELETE FROM meta"),
            Step::Check(Err(OpenFault::UnknownSchema)),
        ],
    ),
    // The last id is given once. A lock without an id holds no path: the second path is free at the
    // second turn.
    (
        "last.db",
        &[
            Step::Check(Ok(())),
            Step::Run("INSERT INTO repos VALUES ('studio/film', 4294967294, 0)"),
            Step::Lock(4294967295, 1000, 0),
            Step::Lock(0, 1000, 0),
        ],
    ),
    // A file that is not a database is refused.
    (
        "no.db",
        &[
            Step::Write("no database, but a text of some length"),
            Step::Check(Err(OpenFault::Store(StoreFault::Refused))),
        ],
    ),
    (
        "nowhere/at.db",
        &[Step::Check(Err(OpenFault::Store(StoreFault::Refused)))],
    ),
    (
        ":memory:",
        &[Step::Check(Err(OpenFault::Store(StoreFault::Refused)))],
    ),
];

#[test]
fn files_are_read_again_or_refused(rt: HostRuntime) {
    for (path, steps) in FILES {
        take_steps(&rt, &rt, path, steps);
    }
}

const FAULTS: &[(OpenFault, &str)] = &[
    (OpenFault::UnknownSchema, "store G1"),
    (OpenFault::Store(StoreFault::Refused), "store G2"),
    (OpenFault::Store(StoreFault::Memory), "no memory"),
];

#[test]
fn faults_are_printed(rt: HostRuntime) {
    for (fault, want) in FAULTS {
        let outcome = unwrap(&rt, fault.to_string(rt.alloc()));
        assert!(rt; outcome.as_str() == *want);
    }
}
