//! Makes the tables: those of version 1, and then the step from there to a later version. A new database takes both, so
//! that each statement of a version is written once.

ghost use Rattle.std.specs.Prelude.{◌≡◌, [], OnOk, IsTrue};
ghost use Rattle.sqlite.specs.State.{HasCleanDisk, ExecutesInside};
ghost use Rattle.sqlite.specs.Held.{state};
ghost use Rattle.tables.specs.Rows as part;
ghost use Rattle.tables.specs.Rows.{Part, parts_of};
ghost use Rattle.tables.specs.Layout.{version_one, version_of};
ghost use Rattle.tables.specs.Making.{text_for, before, after, IsBlank};
ghost use Rattle.tables.specs.Runs.{IsReadyOld, with_fresh, migrated};
ghost use Rattle.typed_rows.specs.Transactions.{Inside};
ghost use Rattle.tables.specs.Calls.{MakesBlank, MakesFirst, MakesFresh, Upgrades, Commits};

use crate::fault::StoreFault;
use crate::layout::Layout;
use crate::write::finish;
use sqlite::{Alter, Connection, Error, Transaction};

/// Runs a statement that changes the schema.
fn define<S: Alter>(tx: &mut Transaction<'_, S>, sql: &str) -> Result<usize, Error>
    ensures same_reference { tx.new.conn.ghost_name ≡ tx.old.conn.ghost_name }
    ensures runs { HasCleanDisk (state S.Store tx.new.conn.now) → IsTrue tx.old.conn.now.in_transaction
        → ExecutesInside 0 sql.now [] (state S.Store tx.old.conn.now) (state S.Store tx.new.conn.now) result }
    ensures within { Inside S.Store tx.old.conn.now tx.new.conn.now result }
{
    tx.execute(sql, &[])
}

/// Creates one table of version 1 in a database that has the tables before it.
fn table_into<S: Alter>(tx: &mut Transaction<'_, S>, sql: &str) -> Result<usize, Error>
    ensures same_reference { tx.new.conn.ghost_name ≡ tx.old.conn.ghost_name }
    ensures ok { (part : Part) → sql.now ≡ text_for version_one part
        → MakesBlank S.Store tx.old.conn.now tx.new.conn.now result (before part) (after part) }
    ensures within { Inside S.Store tx.old.conn.now tx.new.conn.now result }
{
    define(tx, sql)
}

fn first_tables_into<S: Alter>(tx: &mut Transaction<'_, S>) -> Result<(), Error>
    ensures same_reference { tx.new.conn.ghost_name ≡ tx.old.conn.ghost_name }
    ensures ok { MakesBlank S.Store tx.old.conn.now tx.new.conn.now result (before part.meta) (after part.tokens) }
    ensures within { Inside S.Store tx.old.conn.now tx.new.conn.now result }
{
    table_into(
        tx,
        "CREATE TABLE meta (one INTEGER PRIMARY KEY CHECK (one = 1), version INTEGER NOT NULL CHECK (version = 1)) STRICT",
    )?;
    table_into(
        tx,
        "CREATE TABLE repos (name TEXT NOT NULL PRIMARY KEY, made INTEGER NOT NULL CHECK (made >= 0 AND made <= 4294967295), used INTEGER NOT NULL CHECK (used >= 0)) STRICT",
    )?;
    table_into(
        tx,
        "CREATE TABLE tokens (digest BLOB NOT NULL PRIMARY KEY, user TEXT NOT NULL, repo TEXT NOT NULL, op INTEGER NOT NULL CHECK (op >= 1 AND op <= 2), expires INTEGER NOT NULL) STRICT",
    )?;
    Ok(())
}

fn last_tables_into<S: Alter>(tx: &mut Transaction<'_, S>) -> Result<(), Error>
    ensures same_reference { tx.new.conn.ghost_name ≡ tx.old.conn.ghost_name }
    ensures ok { MakesBlank S.Store tx.old.conn.now tx.new.conn.now result (before part.uploads) (after part.locks) }
    ensures within { Inside S.Store tx.old.conn.now tx.new.conn.now result }
{
    table_into(
        tx,
        "CREATE TABLE uploads (id INTEGER PRIMARY KEY AUTOINCREMENT, repo TEXT NOT NULL, oid TEXT NOT NULL, size INTEGER NOT NULL, done INTEGER NOT NULL CHECK (done >= 0 AND done <= 1), UNIQUE (repo, oid, done)) STRICT",
    )?;
    table_into(
        tx,
        "CREATE TABLE chunks (upload INTEGER NOT NULL, n INTEGER NOT NULL, bytes BLOB NOT NULL, PRIMARY KEY (upload, n)) STRICT",
    )?;
    table_into(
        tx,
        "CREATE TABLE locks (repo TEXT NOT NULL, id INTEGER NOT NULL, ref TEXT NOT NULL, path TEXT NOT NULL, owner TEXT NOT NULL, moment INTEGER NOT NULL, PRIMARY KEY (repo, id), UNIQUE (repo, ref, path)) STRICT",
    )?;
    Ok(())
}

/// Creates the tables of version 1, without a row.
fn first_into<S: Alter>(tx: &mut Transaction<'_, S>) -> Result<(), Error>
    ensures same_reference { tx.new.conn.ghost_name ≡ tx.old.conn.ghost_name }
    ensures ok { MakesFirst S.Store tx.old.conn.now tx.new.conn.now result }
    ensures within { Inside S.Store tx.old.conn.now tx.new.conn.now result }
{
    first_tables_into(tx)?;
    last_tables_into(tx)
}

/// Makes a later version of version 1: `meta` is made anew for the new number, and `retired` is added.
fn later_into<S: Alter>(tx: &mut Transaction<'_, S>, layout: Layout) -> Result<(), Error>
    ensures same_reference { tx.new.conn.ghost_name ≡ tx.old.conn.ghost_name }
    ensures ok { Upgrades S.Store (version_of layout) tx.old.conn.now tx.new.conn.now result }
    ensures within { Inside S.Store tx.old.conn.now tx.new.conn.now result }
{
    define(tx, "DROP TABLE meta")?;
    define(tx, layout.meta_text())?;
    define(
        tx,
        "CREATE TABLE retired (repo TEXT NOT NULL, oid TEXT NOT NULL, PRIMARY KEY (repo, oid)) STRICT",
    )?;
    define(tx, layout.insert_meta_text())?;
    Ok(())
}

fn fresh_into<S: Alter>(tx: &mut Transaction<'_, S>, layout: Layout) -> Result<(), Error>
    ensures same_reference { tx.new.conn.ghost_name ≡ tx.old.conn.ghost_name }
    ensures ok { MakesFresh S.Store (version_of layout) tx.old.conn.now tx.new.conn.now result }
    ensures within { Inside S.Store tx.old.conn.now tx.new.conn.now result }
{
    first_into(tx)?;
    later_into(tx, layout)
}

/// Gives a database that has none of our tables those of this layout and its number, all or none.
#[tactic(auto, using(crate::proofs::Calls::led))]
pub(crate) fn create<S: Alter>(conn: &mut Connection<S>, layout: Layout) -> Result<(), StoreFault>
    ensures { Commits S.Store (IsTrue (state S.Store conn.old).is_open
        → IsBlank [] (state S.Store conn.old).now) conn.old conn.new result
        (with_fresh (version_of layout) (state S.Store conn.old).now.schema) }
{
    if !conn.is_autocommit() {
        return Err(StoreFault::Refused);
    }
    let mut tx = conn.transaction();
    fresh_into(&mut tx, layout)?;
    finish(tx)
}

/// Gives a database of version 1 the tables of version 2, all or none. Its other rows stay.
#[tactic(auto, using(crate::proofs::Calls::led))]
pub(crate) fn upgrade<S: Alter>(conn: &mut Connection<S>) -> Result<(), StoreFault>
    ensures { Commits S.Store (IsReadyOld (state S.Store conn.old)) conn.old conn.new result migrated }
{
    if !conn.is_autocommit() {
        return Err(StoreFault::Refused);
    }
    let mut tx = conn.transaction();
    later_into(&mut tx, Layout::Rows)?;
    finish(tx)
}

/// Gives a database that has none of our tables those of version 1, without a row.
pub(crate) fn create_first<S: Alter>(conn: &mut Connection<S>) -> Result<(), StoreFault>
    ensures { HasCleanDisk (state S.Store conn.new) → IsBlank [] (state S.Store conn.old).now
        → OnOk result (IsBlank (parts_of version_one) (state S.Store conn.new).now) }
{
    if !conn.is_autocommit() {
        return Err(StoreFault::Refused);
    }
    let mut tx = conn.transaction();
    first_into(&mut tx)?;
    finish(tx)
}
