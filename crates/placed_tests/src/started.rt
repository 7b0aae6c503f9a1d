//! Databases that are accepted with a file of contents, and those that are refused.

use crate::beside_rows::{begun, has, stored};
use crate::harness::{Tester, in_memory, unwrap};
use crate::opened::is_staged_alone;
use placed::{PlaceFault, Placed};
use reopened::{BesideFault, start_beside};
use sqlite::MemStore;
use sqlite_disk::Memory;
use store::Store;
use tables::{Layout, OpenFault};

/// What is opened.
type Started = Result<Placed<tables::Store<MemStore>, Memory>, BesideFault>;

/// Accepts this database with an empty file.
fn started(rt: &impl Tester, rows: tables::Store<MemStore>) -> Started {
    start_beside(rt.alloc(), rows, Memory::new(rt.alloc()))
}

#[test]
fn a_new_database_is_made_and_accepted_again(rt: HostRuntime) {
    let rows = unwrap(&rt, tables::Store::open_memory(rt.alloc()));
    let mut store = unwrap(&rt, started(&rt, rows));
    let film = stored(&rt, &mut store, "studio/film", b'a');
    let staged = begun(&rt, &mut store, "studio/game", 65_536);
    let (rows, file) = store.into_parts();
    let mut store = unwrap(&rt, start_beside(rt.alloc(), rows, file));
    assert!(rt; has(&rt, &mut store, film, 1, (b'b', 65_536)));
    assert!(rt; is_staged_alone(&rt, &mut store, staged));
    // Without its file the object is not served.
    let (rows, _) = store.into_parts();
    let short = started(&rt, rows);
    assert!(rt; matches!(short, Err(BesideFault::Contents(PlaceFault::Short))));
}

#[test]
fn a_database_of_rows_is_refused(rt: HostRuntime) {
    let mut rows = unwrap(&rt, tables::Store::open_memory(rt.alloc()));
    unwrap(&rt, rows.create_or_check(rt.alloc(), Layout::Rows));
    let refused = started(&rt, rows);
    assert!(rt;
        matches!(
            refused,
            Err(BesideFault::Database(OpenFault::UnknownSchema))
        )
    );
    assert!(rt; started(&rt, in_memory(&rt)).is_ok());
}
