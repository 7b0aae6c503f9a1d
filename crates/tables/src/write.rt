//! Runs writing statements inside a transaction, and commits it.

ghost use Rattle.std.specs.Prelude.{◌≡◌, IfOk};
ghost use Rattle.sqlite.specs.Values.{bound};
ghost use Rattle.tables.specs.Statements.{Write, HasRemoved, write_text, write_params, after};
ghost use Rattle.typed_rows.specs.Transactions.{Inside};
ghost use Rattle.tables.specs.Calls.{MakesStep, Says, Finishes};

use crate::fault::StoreFault;
use sqlite::{Alter, Error, Transaction};
use sqlite_value::value::ValueRef;

/// Runs one writing statement, and returns the number of rows written or removed.
pub(crate) fn change<S: Alter>(
    tx: &mut Transaction<'_, S>,
    sql: &str,
    params: &[ValueRef<'_>],
) -> Result<usize, Error>
    ensures same_reference { tx.new.conn.ghost_name ≡ tx.old.conn.ghost_name }
    ensures ok { (w : Write) → sql.now ≡ write_text w → bound params.now ≡ write_params w
        → MakesStep S.Store tx.old.conn.now tx.new.conn.now result (after w) }
    ensures count { (w : Write) → sql.now ≡ write_text w → bound params.now ≡ write_params w
        → Says S.Store tx.old.conn.now tx.new.conn.now result (HasRemoved w) }
    ensures within { Inside S.Store tx.old.conn.now tx.new.conn.now result }
{
    tx.execute(sql, params)
}

/// Commits, and reports a failure as a fault of this crate.
pub(crate) fn finish<S: Alter>(tx: Transaction<'_, S>) -> Result<(), StoreFault>
    ensures { Finishes S.Store tx.entry.conn.now tx.exit.0.now result }
{
    tx.commit()?;
    Ok(())
}

/// The same, and returns the value.
pub(crate) fn finish_with<S: Alter, T: Drop>(
    tx: Transaction<'_, S>,
    answer: T,
) -> Result<T, StoreFault>
    ensures answer { IfOk result (λ x. x ≡ answer) }
    ensures finishes { Finishes S.Store tx.entry.conn.now tx.exit.0.now result }
{
    finish(tx)?;
    Ok(answer)
}
