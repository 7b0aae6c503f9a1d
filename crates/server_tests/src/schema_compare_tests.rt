//! `schema_compare`: tables of the same definition, and of another.

use schema_compare::{is_referred, same_definition};
use sqlite::{Connection, Error};
use std::alloc::Global;
use std::test::Fail;

const LOCKS: &str =
    "CREATE TABLE locks (repo TEXT NOT NULL, id INTEGER NOT NULL CHECK (id >= 1), owner TEXT NOT NULL, PRIMARY KEY (repo, id)) STRICT";

/// The same table in another place.
const AFTER_ANOTHER: &str =
    "CREATE TABLE shots (name TEXT PRIMARY KEY); CREATE TABLE locks (repo TEXT NOT NULL, id INTEGER NOT NULL CHECK (id >= 1), owner TEXT NOT NULL, PRIMARY KEY (repo, id)) STRICT";

/// Whether both databases have a table `locks`, with the same definition.
fn is_same(alloc: Global, first: &str, second: &str) -> Result<bool, Error> {
    let mut one = Connection::open_in_memory(alloc)?;
    one.execute_batch(first)?;
    let mut other = Connection::open_in_memory(alloc)?;
    other.execute_batch(second)?;
    let (one, other) = (one.schema(), other.schema());
    let (Some(a), Some(b)) = (one.table_named(b"locks"), other.table_named(b"locks")) else {
        return Ok(false);
    };
    match (one.tables.get(a), other.tables.get(b)) {
        (Some(a), Some(b)) => Ok(same_definition(a, b)),
        _ => Ok(false),
    }
}

#[test]
fn the_same_text_makes_the_same_definition(rt: HostRuntime) -> Result<(), Fail> {
    assert!(rt; is_same(rt.alloc(), LOCKS, LOCKS)?);
    assert!(rt; is_same(rt.alloc(), LOCKS, AFTER_ANOTHER)?);
    Ok(())
}

#[test]
fn a_foreign_key_refers_to_a_table(rt: HostRuntime) -> Result<(), Fail> {
    let mut conn = Connection::open_in_memory(rt.alloc())?;
    conn.execute_batch("CREATE TABLE a (b INTEGER); CREATE TABLE c (d INTEGER REFERENCES a (b))")?;
    let tables = conn.schema().tables.as_slice();
    assert!(rt; is_referred(tables, b"a") && is_referred(tables, b"A"));
    assert!(rt; !is_referred(tables, b"c"));
    Ok(())
}

#[test]
fn a_change_makes_another_definition(rt: HostRuntime) -> Result<(), Fail> {
    for other in [
        "",
        "CREATE TABLE locks (repo TEXT NOT NULL, id INTEGER NOT NULL CHECK (id >= 2), owner TEXT NOT NULL, PRIMARY KEY (repo, id)) STRICT",
        "CREATE TABLE locks (repo TEXT NOT NULL, id INTEGER NOT NULL CHECK (id >= 1), owner TEXT NOT NULL, PRIMARY KEY (id, repo)) STRICT",
        "CREATE TABLE locks (repo TEXT NOT NULL, id INTEGER NOT NULL CHECK (id >= 1), owner TEXT, PRIMARY KEY (repo, id)) STRICT",
        "CREATE TABLE locks (repo TEXT NOT NULL, id INTEGER NOT NULL CHECK (id >= 1), owner TEXT NOT NULL, PRIMARY KEY (repo, id))",
        "CREATE TABLE locks (repo TEXT NOT NULL, id INTEGER NOT NULL CHECK (id >= 1), owner TEXT NOT NULL, PRIMARY KEY (repo, id), UNIQUE (owner)) STRICT",
        "CREATE TABLE locks (repo TEXT NOT NULL, id INTEGER NOT NULL CHECK (id >= 1), holder TEXT NOT NULL, PRIMARY KEY (repo, id)) STRICT",
    ] {
        assert!(rt; !is_same(rt.alloc(), LOCKS, other)?, "{other}");
    }
    Ok(())
}
