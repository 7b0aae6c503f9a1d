//! The two layouts of a database.

use crate::beside_rows::HERO;
use crate::harness::{Tester, in_memory, oid, repo, unwrap};
use names::Size;
use sqlite::{Connection, MemStore};
use std::process::Abort;
use store::Numbered;
use tables::{Layout, NewUpload, OpenFault, Store};

/// The number in `meta`.
fn number_in(rt: &impl Abort, conn: &mut Connection<MemStore>) -> u32 {
    let row = unwrap(rt, conn.query_row("SELECT version FROM meta", &[]));
    unwrap(rt, row.get(0))
}

fn chunks_are_found_by_their_number(rt: &impl Tester, store: &mut impl Numbered) {
    let (film, oid) = (repo(rt, "studio/film"), oid(rt, HERO));
    let upload = NewUpload {
        repo: &film,
        oid: &oid,
        size: unwrap(rt, Size::read(65_541).ok_or(())),
    };
    let id = unwrap(rt, store.begin_upload(rt.alloc(), &upload));
    unwrap(rt, store.add_chunk(id, 7, b"seven"));
    unwrap(rt, store.add_chunk(id, 9, b"nine"));
    let found = unwrap(rt, store.chunks_numbered(rt.alloc(), 9));
    assert_eq!(rt; found.len(), 1);
    assert!(rt;
        found.first().is_some_and(|chunk| chunk.upload == id
            && chunk.bytes.as_slice() == b"nine".as_slice())
    );
    assert!(rt; unwrap(rt, store.chunks_numbered(rt.alloc(), 8)).is_empty());
}

#[test]
fn a_database_is_of_the_layout_with_which_it_was_made(rt: HostRuntime) {
    let mut store = in_memory(&rt);
    unwrap(&rt, store.create_or_check(rt.alloc(), Layout::Places));
    assert!(rt;
        matches!(
            store.create_or_check(rt.alloc(), Layout::Rows),
            Err(OpenFault::UnknownSchema)
        )
    );
    assert!(rt; store.migrate(rt.alloc()).is_err());
    unwrap(&rt, store.create_or_check(rt.alloc(), Layout::Places));
    chunks_are_found_by_their_number(&rt, &mut store);
    assert_eq!(rt; number_in(&rt, &mut store.into_connection()), 3);
    let mut store = unwrap(&rt, Store::open_memory(rt.alloc()));
    unwrap(&rt, store.create_or_check(rt.alloc(), Layout::Rows));
    assert!(rt;
        matches!(
            store.create_or_check(rt.alloc(), Layout::Places),
            Err(OpenFault::UnknownSchema)
        )
    );
    assert_eq!(rt; number_in(&rt, &mut store.into_connection()), 2);
}
