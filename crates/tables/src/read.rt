//! Runs reading statements, which leave the tables unchanged.

ghost use Rattle.std.specs.Prelude.{◌≡◌, map, IfOk, IsTrue};
ghost use Rattle.sqlite.specs.State.{HasCleanDisk};
ghost use Rattle.sqlite.specs.Held.{state};
ghost use Rattle.sqlite.specs.Values.{bound};
ghost use Rattle.tables.specs.Layout.{Version};
ghost use Rattle.tables.specs.Runs.{HasMeta, tables_in};
ghost use Rattle.tables.specs.Statements.{Read, read_text, show_meta, Answered};
ghost use Rattle.typed_rows.specs.Transactions.{Inside};
ghost use Rattle.tables.specs.Calls.{MakesStep, Says, Looks, LooksAtMeta};

use crate::fault::StoreFault;
use sqlite::{Alter, Connection, Error, Row, Transaction};
use sqlite_value::value::ValueRef;

/// All rows that the statement returns, inside a transaction.
pub(crate) fn select<S: Alter>(
    tx: &mut Transaction<'_, S>,
    sql: &str,
    params: &[ValueRef<'_>],
) -> Result<Vec<Row>, Error>
    ensures same_reference { tx.new.conn.ghost_name ≡ tx.old.conn.ghost_name }
    ensures rows { Says S.Store tx.old.conn.now tx.new.conn.now result
        (λ t rows. Answered sql.now (bound params.now) t rows.items) }
    ensures same { (r : Read) → sql.now ≡ read_text r
        → MakesStep S.Store tx.old.conn.now tx.new.conn.now result (λ t. t) }
    ensures within { Inside S.Store tx.old.conn.now tx.new.conn.now result }
{
    tx.query_all(sql, params)
}

/// All rows that the statement returns, in a transaction of its own, which is rolled back.
pub(crate) fn read<S: Alter>(
    conn: &mut Connection<S>,
    sql: &str,
    params: &[ValueRef<'_>],
) -> Result<Vec<Row>, StoreFault>
    ensures { Looks S.Store conn.old conn.new result
        (λ t rows. Answered sql.now (bound params.now) t rows.items) }
{
    if !conn.is_autocommit() {
        return Err(StoreFault::Refused);
    }
    let mut tx = conn.transaction();
    let rows = select(&mut tx, sql, params)?;
    tx.rollback();
    Ok(rows)
}

/// The rows of `meta`, inside a transaction on a database of any version.
fn select_meta<S: Alter>(tx: &mut Transaction<'_, S>) -> Result<Vec<Row>, Error>
    ensures same_reference { tx.new.conn.ghost_name ≡ tx.old.conn.ghost_name }
    ensures rows { (v : Version) → HasCleanDisk (state S.Store tx.new.conn.now) → IsTrue tx.old.conn.now.in_transaction
        → (IsTrue (state S.Store tx.old.conn.now).is_open → HasMeta v (state S.Store tx.old.conn.now).now)
        → IfOk result (λ rows. IsTrue (state S.Store tx.old.conn.now).is_open
        × (rows.items ≡ map show_meta (tables_in (state S.Store tx.old.conn.now)).meta)) }
    ensures within { Inside S.Store tx.old.conn.now tx.new.conn.now result }
{
    tx.query_all("SELECT one, version FROM meta ORDER BY rowid", &[])
}

/// The rows of `meta`, read as [`read`] reads.
pub(crate) fn read_meta<S: Alter>(conn: &mut Connection<S>) -> Result<Vec<Row>, StoreFault>
    ensures { LooksAtMeta S.Store conn.old conn.new result (λ metas rows. rows.items ≡ map show_meta metas) }
{
    if !conn.is_autocommit() {
        return Err(StoreFault::Refused);
    }
    let mut tx = conn.transaction();
    let rows = select_meta(&mut tx)?;
    tx.rollback();
    Ok(rows)
}
