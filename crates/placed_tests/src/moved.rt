//! Databases that are copied into one of the other layout, and back.

use crate::beside_rows::{HERO, begun, completed, has};
use crate::copies::{copy_object, expect_same, fill};
use crate::harness::{Tester, in_memory, oid, repo, unwrap};
use moving::{MoveFault, Progress, continues, copy_rows, copy_to_places, copy_to_rows};
use names::Size;
use placed::Placed;
use sqlite::MemStore;
use sqlite_disk::{Fuse, Memory};
use store::{Listed, Restored, Store};
use tables::{Completion, LastChunk, Layout, NewUpload, UploadId};

/// A database in memory.
type Rows = tables::Store<MemStore>;

/// What a copy has reported last.
#[derive(Drop)]
pub(crate) struct Reported {
    done: u64,
    all: u64,
}

impl Progress for Reported {
    fn show(&mut self, done: u64, all: u64) {
        self.done = done;
        self.all = all;
    }
}

/// Nothing was reported.
pub(crate) fn nothing() -> Reported {
    Reported { done: 0, all: 0 }
}

/// A new database whose contents are rows.
pub(crate) fn of_rows(rt: &impl Tester) -> Rows {
    let mut store = unwrap(rt, tables::Store::open_memory(rt.alloc()));
    unwrap(rt, store.create_or_check(rt.alloc(), Layout::Rows));
    store
}

/// Stores an object of five bytes.
pub(crate) fn stored_small(rt: &impl Tester, store: &mut impl Store) -> UploadId {
    let id = begun(rt, store, "studio/small", 5);
    let mut bytes = Vec::new(rt.alloc());
    unwrap(rt, bytes.resize(5, b's'));
    let done = completed(rt, store, id, LastChunk { n: 0, bytes }, 5);
    assert_eq!(rt; unwrap(rt, done), Completion::New);
    id
}

/// Copies to places, at first with a file that fails: the smaller object is copied then.
fn copied_to_places(rt: &impl Tester, old: &mut impl Listed, rows: &mut Rows, file: &mut Memory) {
    let (alloc, mut shown) = (rt.alloc(), nothing());
    assert!(rt; unwrap(rt, continues(alloc, old, rows)));
    unwrap(rt, copy_rows(alloc, old, rows));
    let mut failing = Fuse::new(Memory::new(alloc), 0);
    let failed = copy_to_places(alloc, old, rows, &mut failing, &mut shown);
    assert!(rt; matches!(failed, Err(MoveFault::Contents(_))));
    assert!(rt; unwrap(rt, continues(alloc, old, rows)));
    unwrap(rt, copy_rows(alloc, old, rows));
    for _ in 0..2 {
        let count = unwrap(rt, copy_to_places(alloc, old, rows, file, &mut shown));
        assert_eq!(rt; count, 2);
    }
    assert_eq!(rt; (shown.done, shown.all), (1, 2));
    assert!(rt; unwrap(rt, continues(alloc, old, rows)));
}

/// Copies to rows, after both objects were copied with their first chunk alone.
fn copied_to_rows(rt: &impl Tester, old: &mut impl Listed, new: &mut Rows) {
    let (alloc, mut shown) = (rt.alloc(), nothing());
    unwrap(rt, copy_rows(alloc, old, new));
    for row in &unwrap(rt, old.all_uploads(alloc)) {
        copy_object(rt, old, new, row);
    }
    assert!(rt; unwrap(rt, continues(alloc, old, new)));
    expect_same(rt, old, new, false);
    for _ in 0..2 {
        assert_eq!(rt; unwrap(rt, copy_to_rows(alloc, old, new, &mut shown)), 2);
    }
    expect_same(rt, old, new, true);
}

#[test]
fn a_database_is_copied_to_places_and_back(rt: HostRuntime) {
    let mut from = of_rows(&rt);
    let small = stored_small(&rt, &mut from);
    let large = fill(&rt, &mut from);
    let (mut rows, mut file) = (in_memory(&rt), Memory::new(rt.alloc()));
    copied_to_places(&rt, &mut from, &mut rows, &mut file);
    assert_eq!(rt; file.bytes().len(), 131_075);
    let mut placed = unwrap(&rt, Placed::open(rt.alloc(), rows, file));
    expect_same(&rt, &mut from, &mut placed, true);
    assert!(rt; has(&rt, &mut placed, small, 0, (b's', 5)));
    assert!(rt; has(&rt, &mut placed, large, 2, (b'm', 3)));
    let mut back = of_rows(&rt);
    copied_to_rows(&rt, &mut placed, &mut back);
    expect_same(&rt, &mut from, &mut back, true);
}

/// Adds an object of 65,536 bytes that has none.
fn add_damaged(rt: &impl Tester, store: &mut impl Restored) {
    let id = begun(rt, store, "studio/damaged", 65_536);
    assert!(rt; unwrap(rt, store.remove_upload(id)));
    let object = NewUpload {
        repo: &repo(rt, "studio/damaged"),
        oid: &oid(rt, HERO),
        size: unwrap(rt, Size::read(65_536).ok_or(())),
    };
    unwrap(rt, store.restore_object(&object, id, None));
}

/// An object that lacks bytes is not copied to places, and a copy of another state is not continued.
fn refuses_what_does_not_match<S: Listed + Restored>(
    rt: &impl Tester,
    old: &mut S,
    rows: &mut Rows,
) {
    let (alloc, mut shown) = (rt.alloc(), nothing());
    add_damaged(rt, old);
    let mut file = Memory::new(alloc);
    let failed = copy_to_places(alloc, old, rows, &mut file, &mut shown);
    assert!(rt; matches!(failed, Err(MoveFault::Contents(_))));
    assert!(rt; unwrap(rt, continues(alloc, old, rows)));
    let staged = begun(rt, rows, "studio/film", 5);
    assert!(rt; !unwrap(rt, continues(alloc, old, rows)));
    assert!(rt; unwrap(rt, Store::remove_upload(rows, staged)));
    assert!(rt; unwrap(rt, continues(alloc, old, rows)));
    let small = repo(rt, "studio/small");
    assert!(rt; unwrap(rt, old.retire_object(&small, &oid(rt, HERO))));
    assert!(rt; !unwrap(rt, continues(alloc, old, rows)));
}

#[test]
fn what_does_not_match_is_refused(rt: HostRuntime) {
    let mut from = of_rows(&rt);
    stored_small(&rt, &mut from);
    let mut rows = in_memory(&rt);
    refuses_what_does_not_match(&rt, &mut from, &mut rows);
}
