//! The call that removes an object whose bytes are damaged.

ghost use Rattle.std.specs.Prelude.{◌≡◌, Some, find, map, is_some, IfOk};
ghost use Rattle.names.specs.Names.{repo_text};
ghost use Rattle.tables.specs.Statements.{is_object, show_upload};
ghost use Rattle.tables.specs.Calls.{Says, Does, Transacts};
ghost use Rattle.tables.specs.Staging.{objects_of};
ghost use Rattle.tables.specs.Discarding.{sizes_sum, recounted, after_discard};
ghost use Rattle.tables.specs.Shown.{Changes};

use crate::Store;
use crate::fault::StoreFault;
use crate::read::select;
use crate::retiring::object_in;
use crate::uploads::{set_used, total_in, upload_out};
use crate::write::finish_with;
use names::{Oid, RepoName};
use sqlite::{Alter, Connection, Row, Transaction, params};

/// The sizes in the rows of uploads, added up. A sum that no column holds is refused.
fn sum_of(rows: &[Row]) -> Result<i64, StoreFault>
    ensures { (uploads : _) → rows.now ≡ map show_upload uploads → IfOk result
        (λ sum. sum ≡ sizes_sum uploads) }
{
    let mut sum = 0i64;
    for row in rows {
        let size: i64 = row.get(3)?;
        sum = sum.checked_add(size).ok_or(StoreFault::Refused)?;
    }
    Ok(sum)
}

/// The sizes of the repository's objects, added up.
fn sum_in<S: Alter>(tx: &mut Transaction<'_, S>, repo: &RepoName) -> Result<i64, StoreFault>
    ensures same_reference { tx.new.conn.ghost_name ≡ tx.old.conn.ghost_name }
    ensures value { Says S.Store tx.old.conn.now tx.new.conn.now result
        (λ t sum. sum ≡ sizes_sum (objects_of (Some (repo_text repo.now)) t)) }
    ensures does { Does S.Store tx.old.conn.now tx.new.conn.now result (λ t. t) }
{
    let rows = select(
        tx,
        "SELECT id, repo, oid, size, done FROM uploads WHERE repo = ?1 AND done = 1 ORDER BY repo, oid, rowid",
        params![repo.as_str()],
    )?;
    sum_of(rows.as_slice())
}

/// Counts again how many bytes the repository stores.
fn recount_into<S: Alter>(tx: &mut Transaction<'_, S>, repo: &RepoName) -> Result<(), StoreFault>
    ensures same_reference { tx.new.conn.ghost_name ≡ tx.old.conn.ghost_name }
    ensures does { Does S.Store tx.old.conn.now tx.new.conn.now result (recounted (repo_text repo.now)) }
{
    let sum = sum_in(tx, repo)?;
    let total = total_in(tx, repo)?;
    set_used(tx, repo, total, sum)?;
    Ok(())
}

/// Removes the object that the repository has under this name, if there is one, and counts the bytes of the others again.
fn discard_into<S: Alter>(
    tx: &mut Transaction<'_, S>,
    repo: &RepoName,
    oid: &Oid,
) -> Result<bool, StoreFault>
    ensures same_reference { tx.new.conn.ghost_name ≡ tx.old.conn.ghost_name }
    ensures value { Says S.Store tx.old.conn.now tx.new.conn.now result
        (λ t removed. removed ≡ is_some (find (is_object (repo_text repo.now) oid.now) t.uploads)) }
    ensures does { Does S.Store tx.old.conn.now tx.new.conn.now result
        (after_discard (repo_text repo.now) oid.now) }
{
    let Some(object) = object_in(tx, repo, oid)? else {
        return Ok(false);
    };
    upload_out(tx, object.id)?;
    recount_into(tx, repo)?;
    Ok(true)
}

#[tactic(auto, using(crate::proofs::Calls::led))]
fn discard<S: Alter>(
    conn: &mut Connection<S>,
    repo: &RepoName,
    oid: &Oid,
) -> Result<bool, StoreFault>
    ensures { Transacts S.Store conn.old conn.new result (after_discard (repo_text repo.now) oid.now)
        (λ t removed. removed ≡ is_some (find (is_object (repo_text repo.now) oid.now) t.uploads)) }
{
    if !conn.is_autocommit() {
        return Err(StoreFault::Refused);
    }
    let mut tx = conn.transaction();
    let removed = discard_into(&mut tx, repo, oid)?;
    finish_with(tx, removed)
}

impl<S: Alter> Store<S> {
    /// Removes the object that the repository has under this name with its chunks, and sets the number of bytes that the
    /// repository stores to the sizes of its other objects, added up, all or nothing. Returns whether there was one. For
    /// an object whose bytes are damaged: unlike a retired name, its name may be stored again.
    ///
    /// # Errors
    ///
    /// `Refused` or `Memory`. The tables are unchanged, but a stop may still leave the change.
    pub fn discard_object(&mut self, repo: &RepoName, oid: &Oid) -> Result<bool, StoreFault>
        ensures { Changes S.Store self.old self.new result
            (after_discard (repo_text repo.now) oid.now)
            (λ t removed. removed ≡ is_some (find (is_object (repo_text repo.now) oid.now) t.uploads)) }
    {
        discard(&mut self.conn, repo, oid)
    }
}
