//! How a file of contents is filled, and whether it may be used.

use crate::beside_rows::{HERO, begun, bytes_of, completed, stored};
use crate::harness::{Tester, in_memory, oid, repo, unwrap};
use placed::Placed;
use sqlite_disk::{Fuse, Memory};
use store::{Room, Store};
use tables::LastChunk;

/// Two objects of 131,075 bytes are stored, of which the first is removed: nine calls of the file.
fn one_of_two(rt: &impl Tester, store: &mut impl Store) {
    let _ = stored(rt, store, "studio/film", b'a');
    let _ = stored(rt, store, "studio/game", b'k');
    assert!(rt;
        unwrap(
            rt,
            store.discard_object(&repo(rt, "studio/film"), &oid(rt, HERO))
        )
    );
}

/// An upload is not completed, since the sync of its content fails: three calls of the file before that.
fn sync_fails(rt: &impl Tester, store: &mut impl Store) {
    let id = begun(rt, store, "studio/third", 131_075);
    for n in 0..2u32 {
        unwrap(rt, store.add_chunk(id, n, &bytes_of(rt, b'p', 65_536)));
    }
    let last = LastChunk {
        n: 2,
        bytes: bytes_of(rt, b'q', 3),
    };
    assert!(rt; completed(rt, store, id, last, 131_075).is_err());
}

#[test]
fn room_is_that_of_the_file_while_it_may_be_used(rt: HostRuntime) {
    let file = Fuse::new(Memory::new(rt.alloc()), 13);
    let mut store = Placed::new(rt.alloc(), in_memory(&rt), file);
    one_of_two(&rt, &mut store);
    let room = Room {
        kept: 131_075,
        free: 131_075,
        size: 262_150,
    };
    assert_eq!(rt; unwrap(&rt, store.room()), Some(room));
    assert!(rt; store.may_be_used());
    sync_fails(&rt, &mut store);
    assert!(rt; !store.may_be_used());
    assert!(rt; store.room().is_err());
    let (mut rows, _) = store.into_parts();
    assert_eq!(rt; unwrap(&rt, Store::room(&mut rows)), None);
    assert!(rt; Store::may_be_used(&rows));
}
