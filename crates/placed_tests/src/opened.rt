//! Stores that are opened over a database that names places, and room that is used again.

use crate::beside_rows::{HERO, begun, bytes_of, has, stored};
use crate::harness::{Tester, in_memory, oid, repo, unwrap};
use crate::moved::stored_small;
use placed::{PlaceFault, Placed};
use sqlite::MemStore;
use sqlite_disk::{Crash, Disk, Fuse, Memory};
use store::{Listed, Store};
use tables::UploadId;

/// The number of a row that says where a content is.
const PLACE: u32 = 4_294_967_295;

/// What is opened.
type Opened = Result<Placed<tables::Store<MemStore>, Memory>, PlaceFault>;

fn remove(rt: &impl Tester, store: &mut impl Store, name: &str) {
    assert!(rt; unwrap(rt, store.discard_object(&repo(rt, name), &oid(rt, HERO))));
}

/// Three objects, of which the first is removed before the third is stored, and an upload of which a piece has arrived.
/// Returns the uploads of the others, and that one.
fn two_of_three(rt: &impl Tester, store: &mut impl Store) -> (UploadId, UploadId, UploadId) {
    let _ = stored(rt, store, "studio/film", b'a');
    let second = stored(rt, store, "studio/game", b'k');
    remove(rt, store, "studio/film");
    let third = stored(rt, store, "studio/third", b'p');
    let staged = begun(rt, store, "studio/film", 65_536);
    unwrap(rt, store.add_chunk(staged, 0, &bytes_of(rt, b'x', 65_536)));
    (second, third, staged)
}

fn both_are_whole(rt: &impl Tester, store: &mut impl Store, second: UploadId, third: UploadId) {
    assert!(rt; has(rt, store, second, 0, (b'k', 65_536)) && has(rt, store, second, 2, (b'm', 3)));
    assert!(rt; has(rt, store, third, 0, (b'p', 65_536)) && has(rt, store, third, 2, (b'r', 3)));
}

/// Whether this upload alone is staged, and shows no chunk.
pub(crate) fn is_staged_alone(rt: &impl Tester, store: &mut impl Listed, id: UploadId) -> bool {
    let staged = unwrap(rt, store.staged_uploads(rt.alloc()));
    let keys = unwrap(rt, store.chunk_keys(rt.alloc()));
    staged.len() == 1
        && staged.iter().all(|upload| upload.id == id)
        && keys.iter().all(|key| key.upload != id)
}

/// What is staged takes no piece any more, and is removed.
fn is_removed(rt: &impl Tester, store: &mut impl Store, id: UploadId) {
    assert!(rt; unwrap(rt, store.chunk(id, 0)).is_none());
    let piece = bytes_of(rt, b'x', 65_536);
    assert!(rt; store.add_chunk(id, 0, &piece).is_err() && store.add_chunk(id, 1, &piece).is_err());
    assert!(rt; unwrap(rt, store.remove_upload(id)) && !unwrap(rt, store.remove_upload(id)));
}

#[test]
fn room_is_used_again_and_a_store_is_opened_anew(rt: HostRuntime) {
    let mut store = Placed::new(rt.alloc(), in_memory(&rt), Memory::new(rt.alloc()));
    let (second, third, staged) = two_of_three(&rt, &mut store);
    let (rows, file) = store.into_parts();
    assert_eq!(rt; file.bytes().len(), 131_075 + 131_075 + 65_536);
    // The third object has the region of the first one.
    assert_eq!(rt; file.bytes()[0], b'p');
    let store = unwrap(&rt, Placed::open(rt.alloc(), rows, file));
    let (rows, file) = store.into_parts();
    assert_eq!(rt; file.bytes().len(), 131_075 + 131_075);
    let mut store = unwrap(&rt, Placed::open(rt.alloc(), rows, file));
    both_are_whole(&rt, &mut store, second, third);
    assert!(rt; is_staged_alone(&rt, &mut store, staged));
    is_removed(&rt, &mut store, staged);
    remove(&rt, &mut store, "studio/game");
    remove(&rt, &mut store, "studio/third");
    let (_, file) = store.into_parts();
    assert!(rt; file.bytes().is_empty());
}

/// An object of five bytes, and staged uploads as another program leaves them: with a chunk of number 0, with one of
/// another number, with a place, and without chunks. Returns the object and the last of these.
fn of_another_program(rt: &impl Tester, rows: &mut impl Store) -> (UploadId, UploadId) {
    let small = stored_small(rt, rows);
    let staged: &[(&str, u32)] = &[
        ("studio/film", 0),
        ("studio/game", 7),
        ("studio/third", PLACE),
    ];
    for &(name, n) in staged {
        let id = begun(rt, rows, name, 65_536);
        unwrap(rt, rows.add_chunk(id, n, &place(3, 5)));
    }
    (small, begun(rt, rows, "studio/fourth", 65_536))
}

#[test]
fn a_staged_upload_whose_chunks_are_in_rows_is_removed(rt: HostRuntime) {
    let mut rows = in_memory(&rt);
    let (small, left) = of_another_program(&rt, &mut rows);
    let mut file = Memory::new(rt.alloc());
    unwrap(&rt, file.write_at(0, &[b'x'; 10]));
    // A stop may bring the row of a place back, so its region is in use until the next opening.
    let mut store = unwrap(&rt, Placed::open(rt.alloc(), rows, file));
    assert!(rt; is_staged_alone(&rt, &mut store, left));
    assert!(rt; has(&rt, &mut store, small, 0, (b's', 5)));
    let (mut rows, file) = store.into_parts();
    assert_eq!(rt;
        unwrap(&rt, Listed::chunk_keys(&mut rows, rt.alloc())).len(),
        1
    );
    assert_eq!(rt; file.bytes().len(), 8);
    let mut store = unwrap(&rt, Placed::open(rt.alloc(), rows, file));
    assert!(rt; is_staged_alone(&rt, &mut store, left));
    let (_, file) = store.into_parts();
    assert!(rt; file.bytes().is_empty());
}

#[test]
fn a_file_that_is_not_cut_is_only_longer(rt: HostRuntime) {
    // An opening syncs the file, asks its length, and cuts it.
    for (calls, len) in [(2, 131_075 + 65_536), (3, 131_075)] {
        let mut store = Placed::new(rt.alloc(), in_memory(&rt), Memory::new(rt.alloc()));
        let small = stored_small(&rt, &mut store);
        let large = stored(&rt, &mut store, "studio/film", b'a');
        let staged = begun(&rt, &mut store, "studio/game", 65_536);
        unwrap(
            &rt,
            store.add_chunk(staged, 0, &bytes_of(&rt, b'x', 65_536)),
        );
        let (rows, file) = store.into_parts();
        let mut store = unwrap(&rt, Placed::open(rt.alloc(), rows, Fuse::new(file, calls)));
        assert!(rt; store.may_be_used());
        assert!(rt; has(&rt, &mut store, small, 0, (b's', 5)));
        let (rows, mut file) = store.into_parts();
        assert_eq!(rt; file.inner().bytes().len(), len);
        file.crash();
        let mut store = unwrap(&rt, Placed::open(rt.alloc(), rows, file));
        assert!(rt; has(&rt, &mut store, large, 1, (b'b', 65_536)));
        assert!(rt; has(&rt, &mut store, large, 2, (b'c', 3)));
        let (_, file) = store.into_parts();
        assert_eq!(rt; file.inner().bytes().len(), 131_075);
    }
}

/// Opens a database of which each of two staged uploads has a place of these bytes, with an empty file.
fn opened_with(rt: &impl Tester, first: &[u8], second: &[u8]) -> Opened {
    let mut rows = in_memory(rt);
    for (name, bytes) in [("studio/film", first), ("studio/game", second)] {
        let id = begun(rt, &mut rows, name, 65_536);
        unwrap(rt, Store::add_chunk(&mut rows, id, PLACE, bytes));
    }
    Placed::open(rt.alloc(), rows, Memory::new(rt.alloc()))
}

/// The bytes of a place.
fn place(start: u8, size: u8) -> [u8; 16] {
    [0, 0, 0, 0, 0, 0, 0, start, 0, 0, 0, 0, 0, 0, 0, size]
}

#[test]
fn places_that_are_none_are_refused(rt: HostRuntime) {
    let first = place(0, 5);
    let short = opened_with(&rt, &first, &first[..2]);
    assert!(rt; matches!(short, Err(PlaceFault::Unreadable)));
    let empty = opened_with(&rt, &first, &place(5, 0));
    assert!(rt; matches!(empty, Err(PlaceFault::Unreadable)));
    let common = opened_with(&rt, &first, &place(4, 5));
    assert!(rt; matches!(common, Err(PlaceFault::Overlapping)));
    let beyond = opened_with(&rt, &first, &place(5, 5));
    assert!(rt; matches!(beyond, Err(PlaceFault::Short)));
}

/// How many of 129 pieces are taken.
fn pieces_taken(rt: &impl Tester, store: &mut impl Store) -> u32 {
    let id = begun(rt, store, "studio/film", 16_777_216);
    let piece = bytes_of(rt, b'a', 65_536);
    let mut taken = 0u32;
    for n in 0..129u32 {
        if store.add_chunk(id, n, &piece).is_ok() {
            taken = n + 1;
        }
    }
    taken
}

#[test]
fn the_file_is_synced_after_each_8_mib(rt: HostRuntime) {
    for (calls, taken) in [(129, 128), (130, 129)] {
        let file = Fuse::new(Memory::new(rt.alloc()), calls);
        let mut store = Placed::new(rt.alloc(), in_memory(&rt), file);
        assert_eq!(rt; pieces_taken(&rt, &mut store), taken);
    }
}
