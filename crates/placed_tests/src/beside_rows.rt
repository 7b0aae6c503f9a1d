//! Contents in a file beside a database.

use crate::harness::{Tester, in_memory, lock_path, moment, oid, ref_name, repo, unwrap, user};
use names::{Operation, Size};
use placed::Placed;
use sqlite::MemStore;
use sqlite_disk::{Fuse, Memory};
use store::Store;
use tables::{Completion, Creation, LastChunk, NewLock, NewToken, NewUpload, StoreFault, UploadId};

pub(crate) const HERO: &str = "2cf24dba5fb0a30e26e83b2ac5b9e29e1b161e5c1fa7425e73043362938b9824";

/// A database without objects, and an empty file.
fn new_store(rt: &impl Tester) -> Placed<tables::Store<MemStore>, Memory> {
    Placed::new(rt.alloc(), in_memory(rt), Memory::new(rt.alloc()))
}

/// A number of bytes.
fn size(rt: &impl Tester, n: u64) -> Size {
    unwrap(rt, Size::read(n).ok_or(()))
}

/// Returns `len` bytes of this value.
pub(crate) fn bytes_of(rt: &impl Tester, byte: u8, len: usize) -> Vec<u8> {
    let mut bytes = Vec::new(rt.alloc());
    unwrap(rt, bytes.resize(len, byte));
    bytes
}

/// Begins an upload of `len` bytes, and returns its id.
pub(crate) fn begun(rt: &impl Tester, store: &mut impl Store, name: &str, len: u64) -> UploadId {
    let (repo, oid) = (repo(rt, name), oid(rt, HERO));
    let upload = NewUpload {
        repo: &repo,
        oid: &oid,
        size: size(rt, len),
    };
    unwrap(rt, store.begin_upload(rt.alloc(), &upload))
}

/// Completes an upload of `len` bytes whose last chunk is `last`.
pub(crate) fn completed(
    rt: &impl Tester,
    store: &mut impl Store,
    id: UploadId,
    last: LastChunk,
    len: u64,
) -> Result<Completion, StoreFault> {
    store.complete_upload(id, &last, &oid(rt, HERO), size(rt, len))
}

/// Stores an object of two full pieces and three bytes.
pub(crate) fn stored(rt: &impl Tester, store: &mut impl Store, name: &str, byte: u8) -> UploadId {
    let id = begun(rt, store, name, 131_075);
    unwrap(rt, store.add_chunk(id, 0, &bytes_of(rt, byte, 65_536)));
    unwrap(
        rt,
        store.add_chunk(id, 1, &bytes_of(rt, byte.wrapping_add(1), 65_536)),
    );
    let last = LastChunk {
        n: 2,
        bytes: bytes_of(rt, byte.wrapping_add(2), 3),
    };
    assert_eq!(rt;
        unwrap(rt, completed(rt, store, id, last, 131_075)),
        Completion::New
    );
    id
}

/// Whether piece `n` exists and has `piece.1` bytes, each of the value `piece.0`.
pub(crate) fn has(
    rt: &impl Tester,
    store: &mut impl Store,
    id: UploadId,
    n: u32,
    piece: (u8, usize),
) -> bool {
    match unwrap(rt, store.chunk(id, n)) {
        Some(found) => found.bytes() == bytes_of(rt, piece.0, piece.1).as_slice(),
        None => false,
    }
}

fn a_content_as_large_as_a_piece_has_no_last_bytes<S: Store>(
    rt: &impl Tester,
    store: &mut S,
    film: &str,
) {
    let id = begun(rt, store, film, 65_536);
    unwrap(rt, store.add_chunk(id, 0, &bytes_of(rt, b'x', 65_536)));
    assert!(rt; has(rt, store, id, 0, (b'x', 65_536)));
    let last = LastChunk {
        n: 1,
        bytes: bytes_of(rt, 0, 0),
    };
    assert_eq!(rt;
        unwrap(rt, completed(rt, store, id, last, 65_536)),
        Completion::New
    );
    assert!(rt; has(rt, store, id, 0, (b'x', 65_536)));
    assert!(rt; unwrap(rt, store.chunk(id, 1)).is_none());
}

fn only_the_next_full_piece_is_taken<S: Store>(rt: &impl Tester, store: &mut S, film: &str) {
    let id = begun(rt, store, film, 131_075);
    let refused = Err(StoreFault::Refused);
    assert_eq!(rt;
        store.add_chunk(id, 1, &bytes_of(rt, b'a', 65_536)),
        refused
    );
    assert_eq!(rt; store.add_chunk(id, 0, &bytes_of(rt, b'a', 3)), refused);
    unwrap(rt, store.add_chunk(id, 0, &bytes_of(rt, b'a', 65_536)));
    assert_eq!(rt;
        store.add_chunk(id, 0, &bytes_of(rt, b'b', 65_536)),
        refused
    );
    let last = LastChunk {
        n: 1,
        bytes: bytes_of(rt, b'c', 3),
    };
    assert!(rt; completed(rt, store, id, last, 131_075).is_err());
    assert!(rt; has(rt, store, id, 0, (b'a', 65_536)));
    unwrap(rt, store.add_chunk(id, 1, &bytes_of(rt, b'b', 65_536)));
    let last = LastChunk {
        n: 2,
        bytes: bytes_of(rt, b'c', 3),
    };
    assert_eq!(rt;
        unwrap(rt, completed(rt, store, id, last, 131_075)),
        Completion::New
    );
    assert!(rt; has(rt, store, id, 1, (b'b', 65_536)));
    assert!(rt; has(rt, store, id, 2, (b'c', 3)));
}

fn a_shortened_upload_goes_on_where_it_ends<S: Store>(rt: &impl Tester, store: &mut S, film: &str) {
    let id = begun(rt, store, film, 131_075);
    unwrap(rt, store.add_chunk(id, 0, &bytes_of(rt, b'a', 65_536)));
    unwrap(rt, store.add_chunk(id, 1, &bytes_of(rt, b'b', 65_536)));
    assert!(rt; unwrap(rt, store.shorten_upload(id, 1)));
    assert!(rt; unwrap(rt, store.chunk(id, 1)).is_none());
    assert!(rt; has(rt, store, id, 0, (b'a', 65_536)));
    unwrap(rt, store.add_chunk(id, 1, &bytes_of(rt, b'z', 65_536)));
    assert!(rt; has(rt, store, id, 1, (b'z', 65_536)));
}

fn contents_of_two_repositories_are_apart<S: Store>(
    rt: &impl Tester,
    store: &mut S,
    film: &str,
    game: &str,
) {
    let film = begun(rt, store, film, 131_072);
    let game = begun(rt, store, game, 131_072);
    for (id, byte) in [(film, b'f'), (game, b'g')] {
        unwrap(rt, store.add_chunk(id, 0, &bytes_of(rt, byte, 65_536)));
    }
    for (id, byte) in [(film, b'F'), (game, b'G')] {
        unwrap(rt, store.add_chunk(id, 1, &bytes_of(rt, byte, 65_536)));
        let last = LastChunk {
            n: 2,
            bytes: bytes_of(rt, 0, 0),
        };
        assert_eq!(rt;
            unwrap(rt, completed(rt, store, id, last, 131_072)),
            Completion::New
        );
    }
    assert!(rt; has(rt, store, film, 0, (b'f', 65_536)) && has(rt, store, film, 1, (b'F', 65_536)));
    assert!(rt; has(rt, store, game, 0, (b'g', 65_536)) && has(rt, store, game, 1, (b'G', 65_536)));
}

fn an_object_or_an_upload_that_is_removed_is_gone_alone<S: Store>(
    rt: &impl Tester,
    store: &mut S,
    film: &str,
    game: &str,
) {
    let (film_repo, game_repo) = (repo(rt, film), repo(rt, game));
    let first = stored(rt, store, film, b'a');
    let second = stored(rt, store, game, b'k');
    assert!(rt; unwrap(rt, store.retire_object(&film_repo, &oid(rt, HERO))));
    assert!(rt; unwrap(rt, store.chunk(first, 0)).is_none());
    assert!(rt; unwrap(rt, store.is_retired(&film_repo, &oid(rt, HERO))));
    assert!(rt; has(rt, store, second, 1, (b'l', 65_536)));
    assert!(rt; unwrap(rt, store.discard_object(&game_repo, &oid(rt, HERO))));
    assert!(rt; unwrap(rt, store.chunk(second, 0)).is_none());
    let third = begun(rt, store, game, 65_536);
    unwrap(rt, store.add_chunk(third, 0, &bytes_of(rt, b'm', 65_536)));
    assert!(rt; unwrap(rt, store.remove_upload(third)));
    assert!(rt; unwrap(rt, store.chunk(third, 0)).is_none());
    assert_eq!(rt;
        store.add_chunk(third, 1, &bytes_of(rt, b'm', 65_536)),
        Err(StoreFault::Refused)
    );
}

fn an_upload_that_is_begun_again_has_nothing<S: Store>(
    rt: &impl Tester,
    store: &mut S,
    film: &str,
) {
    let first = begun(rt, store, film, 65_536);
    unwrap(rt, store.add_chunk(first, 0, &bytes_of(rt, b'a', 65_536)));
    let second = begun(rt, store, film, 65_536);
    assert!(rt; unwrap(rt, store.chunk(first, 0)).is_none());
    assert!(rt; unwrap(rt, store.chunk(second, 0)).is_none());
    unwrap(rt, store.add_chunk(second, 0, &bytes_of(rt, b'b', 65_536)));
    assert!(rt; has(rt, store, second, 0, (b'b', 65_536)));
}

fn locks_are_those_of_the_database<S: Store>(rt: &impl Tester, store: &mut S, film: &str) {
    let (film, ann) = (repo(rt, film), user(rt, "ann"));
    let (main, path) = (
        ref_name(rt, "refs/heads/main"),
        lock_path(rt, "art/hero.psd"),
    );
    let lock = NewLock {
        repo: &film,
        ref_name: &main,
        path: &path,
        owner: &ann,
        moment: moment(rt, 5),
    };
    let Creation::Created(id) = unwrap(rt, store.create_lock(&lock)) else {
        panic!(rt; "the lock is not made");
    };
    assert_eq!(rt; unwrap(rt, store.made(&film)), 1);
    assert!(rt; unwrap(rt, store.lock_at(&film, &main, &path)).is_some());
    assert!(rt; unwrap(rt, store.lock_with_id(&film, id)).is_some());
    assert_eq!(rt; unwrap(rt, store.locks_in(rt.alloc(), &film)).len(), 1);
    assert_eq!(rt;
        unwrap(rt, store.locks_from(rt.alloc(), &film, id)).len(),
        1
    );
    assert_eq!(rt; unwrap(rt, store.remove_lock(&film, id)), 1);
}

fn tokens_are_those_of_the_database<S: Store>(rt: &impl Tester, store: &mut S, film: &str) {
    let (film, ann) = (repo(rt, film), user(rt, "ann"));
    let token = NewToken {
        digest: &[7; 32],
        user: &ann,
        repo: &film,
        operation: Operation::Upload,
        expires: moment(rt, 9),
    };
    assert!(rt; unwrap(rt, store.add_token(&token)));
    assert!(rt; unwrap(rt, store.token(&[7; 32])).is_some());
    assert_eq!(rt;
        unwrap(rt, store.tokens_of(rt.alloc(), &ann, &film)).len(),
        1
    );
    assert_eq!(rt; unwrap(rt, store.tokens_in(rt.alloc(), &film)).len(), 1);
    assert_eq!(rt; unwrap(rt, store.remove_expired(moment(rt, 9))), 1);
}

fn objects_and_uploads_are_listed<S: Store>(
    rt: &impl Tester,
    store: &mut S,
    film: &str,
    game: &str,
) {
    let film_repo = repo(rt, film);
    let _ = stored(rt, store, film, b'a');
    assert_eq!(rt;
        unwrap(rt, store.objects(rt.alloc(), Some(&film_repo))).len(),
        1
    );
    assert_eq!(rt; unwrap(rt, store.used(&film_repo)), 131_075);
    assert!(rt; unwrap(rt, store.retire_object(&film_repo, &oid(rt, HERO))));
    assert_eq!(rt; unwrap(rt, store.retired(rt.alloc(), &film_repo)).len(), 1);
    let game_repo = repo(rt, game);
    let staged = begun(rt, store, game, 65_536);
    let found = unwrap(rt, store.staged_upload(rt.alloc(), &game_repo));
    assert!(rt; found.is_some_and(|upload| upload.id == staged));
    assert!(rt; !unwrap(rt, store.staged_uploads(rt.alloc())).is_empty());
}

#[test]
fn each_call_does_what_it_does_over_a_database_alone(rt: HostRuntime) {
    let mut store = new_store(&rt);
    a_content_as_large_as_a_piece_has_no_last_bytes(&rt, &mut store, "studio/film1");
    only_the_next_full_piece_is_taken(&rt, &mut store, "studio/film2");
    a_shortened_upload_goes_on_where_it_ends(&rt, &mut store, "studio/film3");
    contents_of_two_repositories_are_apart(&rt, &mut store, "studio/film4", "studio/game4");
    an_object_or_an_upload_that_is_removed_is_gone_alone(
        &rt,
        &mut store,
        "studio/film5",
        "studio/game5",
    );
    an_upload_that_is_begun_again_has_nothing(&rt, &mut store, "studio/film6");
    locks_are_those_of_the_database(&rt, &mut store, "studio/film7");
    tokens_are_those_of_the_database(&rt, &mut store, "studio/film8");
    objects_and_uploads_are_listed(&rt, &mut store, "studio/film9", "studio/game9");
}

#[test]
fn a_content_of_less_than_a_piece_is_a_row(rt: HostRuntime) {
    let mut store = new_store(&rt);
    let id = begun(&rt, &mut store, "studio/film", 5);
    let last = LastChunk {
        n: 0,
        bytes: bytes_of(&rt, b'h', 5),
    };
    assert_eq!(rt;
        unwrap(&rt, completed(&rt, &mut store, id, last, 5)),
        Completion::New
    );
    assert!(rt; has(&rt, &mut store, id, 0, (b'h', 5)));
    let (mut rows, file) = store.into_parts();
    assert!(rt; has(&rt, &mut rows, id, 0, (b'h', 5)));
    assert_eq!(rt; file.bytes(), b"".as_slice());
}

#[test]
fn a_larger_content_is_in_the_file(rt: HostRuntime) {
    let mut store = new_store(&rt);
    let id = stored(&rt, &mut store, "studio/film", b'a');
    assert!(rt; has(&rt, &mut store, id, 0, (b'a', 65_536)));
    assert!(rt; has(&rt, &mut store, id, 1, (b'b', 65_536)));
    assert!(rt; has(&rt, &mut store, id, 2, (b'c', 3)));
    assert!(rt; unwrap(&rt, store.chunk(id, 3)).is_none());
    let found = unwrap(
        &rt,
        store.object(&repo(&rt, "studio/film"), &oid(&rt, HERO)),
    );
    assert_eq!(rt; found.map(|object| object.size.get()), Some(131_075));
    let (mut rows, file) = store.into_parts();
    assert!(rt; unwrap(&rt, Store::chunk(&mut rows, id, 0)).is_none());
    let place = unwrap(&rt, Store::chunk(&mut rows, id, 4_294_967_295));
    let place = unwrap(&rt, place.ok_or(()));
    assert_eq!(rt;
        place.bytes(),
        [0, 0, 0, 0, 0, 0, 0, 0, 0, 0, 0, 0, 0, 2, 0, 3].as_slice()
    );
    assert_eq!(rt; file.bytes().len(), 131_075);
    assert_eq!(rt; file.bytes()[131_071], b'b');
    assert_eq!(rt; file.bytes()[131_072], b'c');
}

#[test]
fn no_object_has_a_content_that_is_not_synced(rt: HostRuntime) {
    for calls in 0..4 {
        let file = Fuse::new(Memory::new(rt.alloc()), calls);
        let mut store = Placed::new(rt.alloc(), in_memory(&rt), file);
        let id = begun(&rt, &mut store, "studio/film", 131_075);
        for n in 0..2u32 {
            let added = store.add_chunk(id, n, &bytes_of(&rt, b'a', 65_536));
            assert_eq!(rt; added.is_ok(), u64::from(n) < calls);
        }
        let last = LastChunk {
            n: 2,
            bytes: bytes_of(&rt, b'b', 3),
        };
        assert!(rt; completed(&rt, &mut store, id, last, 131_075).is_err());
        let found = unwrap(
            &rt,
            store.object(&repo(&rt, "studio/film"), &oid(&rt, HERO)),
        );
        assert!(rt; found.is_none());
    }
}
