//! A copy of a database that is made row by row.

use crate::beside_rows::{HERO, begun, has, stored};
use crate::harness::{Tester, in_memory, lock_path, moment, oid, ref_name, repo, unwrap, user};
use compared::is_same;
use names::Operation;
use sqlite::MemStore;
use store::{Listed, Restored, Store};
use tables::{
    ChunkKey, Layout, MarkedUpload, NewChunk, NewLock, NewToken, NewUpload, RepoLock, UploadId,
};

const FILM: &str = "studio/film";

const GAME: &str = "studio/game";

/// Adds a lock, a token and a retired name.
pub(crate) fn fill_rows(rt: &impl Tester, store: &mut impl Store) {
    let (film, ann) = (repo(rt, FILM), user(rt, "ann"));
    let lock = NewLock {
        repo: &film,
        ref_name: &ref_name(rt, "refs/heads/main"),
        path: &lock_path(rt, "art/hero.psd"),
        owner: &ann,
        moment: moment(rt, 5),
    };
    unwrap(rt, store.create_lock(&lock));
    let token = NewToken {
        digest: &[7; 32],
        user: &ann,
        repo: &film,
        operation: Operation::Download,
        expires: moment(rt, 9),
    };
    assert!(rt; unwrap(rt, store.add_token(&token)));
    stored(rt, store, FILM, b'a');
    assert!(rt; unwrap(rt, store.retire_object(&film, &oid(rt, HERO))));
}

/// The same, with an object and a staged upload. Returns the object's id.
pub(crate) fn fill(rt: &impl Tester, store: &mut impl Store) -> UploadId {
    fill_rows(rt, store);
    let id = stored(rt, store, GAME, b'k');
    begun(rt, store, FILM, 65_536);
    id
}

fn copy_lock(rt: &impl Tester, to: &mut impl Restored, row: RepoLock) {
    let lock = NewLock {
        repo: &row.repo,
        ref_name: &row.lock.ref_name,
        path: &row.lock.path,
        owner: &row.lock.owner,
        moment: row.lock.moment,
    };
    unwrap(rt, to.restore_lock(&lock, row.lock.id));
    assert!(rt; to.restore_lock(&lock, row.lock.id).is_err());
}

/// Copies an object with its first chunk.
pub(crate) fn copy_object(
    rt: &impl Tester,
    from: &mut impl Listed,
    to: &mut impl Restored,
    row: &MarkedUpload,
) {
    let object = NewUpload {
        repo: &row.upload.repo,
        oid: &row.upload.oid,
        size: row.upload.size,
    };
    let id = row.upload.id;
    let found = unwrap(rt, from.chunk(id, 0));
    let chunk = found.as_ref().map(|content| NewChunk {
        n: 0,
        bytes: content.bytes(),
    });
    unwrap(rt, to.restore_object(&object, id, chunk));
    let other = repo(rt, "studio/other");
    let taken = NewUpload {
        repo: &other,
        ..object
    };
    assert!(rt; to.restore_object(&taken, id, None).is_err());
}

/// Copies a chunk that came with no object.
fn copy_chunk(rt: &impl Tester, from: &mut impl Listed, to: &mut impl Restored, key: ChunkKey) {
    if key.n == 0 {
        return;
    }
    if let Some(content) = unwrap(rt, from.chunk(key.upload, key.n)) {
        unwrap(rt, to.add_chunk(key.upload, key.n, content.bytes()));
    }
}

/// Copies all rows of repositories, locks, tokens and retired names.
fn copy_small(rt: &impl Tester, from: &mut impl Listed, to: &mut impl Restored) {
    for row in &unwrap(rt, from.all_repos(rt.alloc())) {
        unwrap(rt, to.restore_repo(&row.name, row.made, row.used));
        assert!(rt; to.restore_repo(&row.name, 0, 0).is_err());
    }
    for row in unwrap(rt, from.all_locks(rt.alloc())) {
        copy_lock(rt, to, row);
    }
    for row in &unwrap(rt, from.all_tokens(rt.alloc())) {
        let token = NewToken {
            digest: &row.digest,
            user: &row.user,
            repo: &row.repo,
            operation: row.operation,
            expires: row.expires,
        };
        assert!(rt; unwrap(rt, to.add_token(&token)));
    }
    for row in &unwrap(rt, from.all_retired(rt.alloc())) {
        unwrap(rt, to.restore_retired(&row.repo, &row.oid));
        assert!(rt; to.restore_retired(&row.repo, &row.oid).is_err());
    }
}

/// Copies all objects with their chunks.
fn copy_objects(rt: &impl Tester, from: &mut impl Listed, to: &mut impl Restored) {
    for row in &unwrap(rt, from.all_uploads(rt.alloc())) {
        if row.is_complete {
            copy_object(rt, from, to, row);
        }
    }
    for key in &unwrap(rt, from.chunk_keys(rt.alloc())) {
        copy_chunk(rt, from, to, *key);
    }
}

/// Asserts whether the two are the same.
pub(crate) fn expect_same(
    rt: &impl Tester,
    from: &mut impl Listed,
    to: &mut impl Listed,
    same: bool,
) {
    assert!(rt; unwrap(rt, is_same(rt.alloc(), from, to)) == same);
}

/// Asserts that the store has what was copied.
fn expect_copied(rt: &impl Tester, store: &mut impl Listed, id: UploadId) {
    let (film, game) = (repo(rt, FILM), repo(rt, GAME));
    assert_eq!(rt; unwrap(rt, store.made(&film)), 1);
    assert_eq!(rt; unwrap(rt, store.used(&film)), 0);
    assert_eq!(rt; unwrap(rt, store.used(&game)), 131_075);
    let (main, path) = (
        ref_name(rt, "refs/heads/main"),
        lock_path(rt, "art/hero.psd"),
    );
    let lock = unwrap(rt, store.lock_at(&film, &main, &path));
    assert!(rt;
        lock.is_some_and(|row| row.id.get() == 1
            && row.owner.as_str() == "ann"
            && row.moment.get() == 5)
    );
    let token = unwrap(rt, store.token(&[7; 32]));
    assert!(rt;
        token.is_some_and(|row| row.operation == Operation::Download && row.expires.get() == 9)
    );
    assert!(rt; unwrap(rt, store.is_retired(&film, &oid(rt, HERO))));
    let object = unwrap(rt, store.object(&game, &oid(rt, HERO)));
    assert!(rt; object.is_some_and(|row| row.id == id && row.size.get() == 131_075));
    assert!(rt; has(rt, store, id, 0, (b'k', 65_536)));
    assert!(rt; has(rt, store, id, 1, (b'l', 65_536)));
    assert!(rt; has(rt, store, id, 2, (b'm', 3)));
}

#[test]
fn a_copy_has_all_but_what_is_staged(rt: HostRuntime) {
    let mut from: tables::Store<MemStore> = unwrap(&rt, tables::Store::open_memory(rt.alloc()));
    unwrap(&rt, from.create_or_check(rt.alloc(), Layout::Rows));
    let id = fill(&rt, &mut from);
    let mut to = in_memory(&rt);
    copy_small(&rt, &mut from, &mut to);
    expect_same(&rt, &mut from, &mut to, false);
    copy_objects(&rt, &mut from, &mut to);
    expect_same(&rt, &mut from, &mut to, true);
    expect_copied(&rt, &mut to, id);
    assert_eq!(rt;
        unwrap(&rt, Listed::all_uploads(&mut from, rt.alloc())).len(),
        2
    );
    assert_eq!(rt;
        unwrap(&rt, Listed::all_uploads(&mut to, rt.alloc())).len(),
        1
    );
    assert_eq!(rt;
        unwrap(&rt, Listed::chunk_keys(&mut to, rt.alloc())).len(),
        3
    );
}
