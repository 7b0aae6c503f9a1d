//! The calls on objects that are removed for good, and on the names that may not be stored again.

ghost use Rattle.std.specs.Prelude.{◌≡◌, ◌-ℤ◌, pos, find, filter, is_some, map, IfOk, IfSome};
ghost use Rattle.names.specs.Names.{repo_text};
ghost use Rattle.tables.specs.Rows.{Retired};
ghost use Rattle.tables.specs.Statements.{is_object, is_retired_as, is_retired_in, by_oid, show_retired, with_retired};
ghost use Rattle.tables.specs.Calls.{Says, Does, Transacts};
ghost use Rattle.tables.specs.Steps.{used_in, used_of};
ghost use Rattle.tables.specs.Staging.{upload_number, IsObjectOf, IsTotalOf, with_used, without_upload};
ghost use Rattle.tables.specs.Retiring.{after_retire, AreNamesOf};
ghost use Rattle.tables.specs.Shown.{Reads, Changes};

use crate::Store;
use crate::fault::StoreFault;
use crate::read::{read, select};
use crate::rows::ObjectRow;
use crate::uploads::{Total, bytes_of, first_object, set_used, total_in, upload_out, used_so_far};
use crate::write::{change, finish_with};
use names::{Oid, RepoName, Size};
use sqlite::{Alter, Connection, Error, Row, Transaction, params};
use std::alloc::{AllocError, Global};

/// The number of bytes stored without one object; `None` if no column holds it.
fn used_without(total: Option<Total>, size: Size) -> Option<i64>
    ensures { (repo : _) → IsTotalOf total repo → IfSome result
        (λ used. used ≡ used_in repo -ℤ pos size) }
{
    used_so_far(total).checked_sub(bytes_of(size))
}

/// The retired name in a row. A row that is out of range is refused.
fn name_from(row: &Row) -> Result<Oid, StoreFault>
    ensures { (r : Retired) → row.now ≡ show_retired r → IfOk result (λ name. name ≡ r.oid) }
{
    let name: String = row.get(0)?;
    Oid::read(name.as_bytes()).ok_or(StoreFault::Refused)
}

fn all_names(alloc: Global, rows: &[Row]) -> Result<Vec<Oid>, StoreFault>
    ensures { (retired : _) → rows.now ≡ map show_retired retired → IfOk result
        (λ names. AreNamesOf names.items retired) }
{
    let mut names = Vec::with_capacity(alloc, rows.len())?;
    for row in rows {
        let name = name_from(row)?;
        names.push(name).map_err(AllocError::from)?;
    }
    Ok(names)
}

/// The object that the repository has under this name.
pub(crate) fn object_in<S: Alter>(
    tx: &mut Transaction<'_, S>,
    repo: &RepoName,
    oid: &Oid,
) -> Result<Option<ObjectRow>, StoreFault>
    ensures same_reference { tx.new.conn.ghost_name ≡ tx.old.conn.ghost_name }
    ensures value { Says S.Store tx.old.conn.now tx.new.conn.now result
        (λ t found. IsObjectOf found (find (is_object (repo_text repo.now) oid.now) t.uploads)) }
    ensures does { Does S.Store tx.old.conn.now tx.new.conn.now result (λ t. t) }
{
    let rows = select(
        tx,
        "SELECT id, repo, oid, size, done FROM uploads WHERE repo = ?1 AND oid = ?2 AND done = 1 ORDER BY rowid",
        params![repo.as_str(), oid.text()],
    )?;
    first_object(rows.as_slice())
}

pub(crate) fn name_into<S: Alter>(
    tx: &mut Transaction<'_, S>,
    repo: &RepoName,
    oid: &Oid,
) -> Result<usize, Error>
    ensures same_reference { tx.new.conn.ghost_name ≡ tx.old.conn.ghost_name }
    ensures does { Does S.Store tx.old.conn.now tx.new.conn.now result
        (with_retired (repo_text repo.now) oid.now) }
{
    change(
        tx,
        "INSERT INTO retired (repo, oid) VALUES (?1, ?2)",
        params![repo.as_str(), oid.text()],
    )
}

/// Removes the object of the repository with its chunks, and subtracts its size from the number of bytes that the
/// repository stores.
fn object_out<S: Alter>(
    tx: &mut Transaction<'_, S>,
    repo: &RepoName,
    object: ObjectRow,
) -> Result<(), StoreFault>
    ensures same_reference { tx.new.conn.ghost_name ≡ tx.old.conn.ghost_name }
    ensures does { Does S.Store tx.old.conn.now tx.new.conn.now result
        (λ t. with_used (repo_text repo.now) (used_of (repo_text repo.now) t -ℤ pos object.size)
        (without_upload (upload_number object.id) t)) }
{
    let total = total_in(tx, repo)?;
    let Some(used) = used_without(total, object.size) else {
        return Err(StoreFault::Refused);
    };
    upload_out(tx, object.id)?;
    set_used(tx, repo, total, used)?;
    Ok(())
}

/// Removes the object that the repository has under this name, if there is one, and retires the name.
fn retire_into<S: Alter>(
    tx: &mut Transaction<'_, S>,
    repo: &RepoName,
    oid: &Oid,
) -> Result<bool, StoreFault>
    ensures same_reference { tx.new.conn.ghost_name ≡ tx.old.conn.ghost_name }
    ensures value { Says S.Store tx.old.conn.now tx.new.conn.now result
        (λ t removed. removed ≡ is_some (find (is_object (repo_text repo.now) oid.now) t.uploads)) }
    ensures does { Does S.Store tx.old.conn.now tx.new.conn.now result
        (after_retire (repo_text repo.now) oid.now) }
{
    let Some(object) = object_in(tx, repo, oid)? else {
        return Ok(false);
    };
    object_out(tx, repo, object)?;
    name_into(tx, repo, oid)?;
    Ok(true)
}

#[tactic(auto, using(crate::proofs::Calls::led))]
fn retire<S: Alter>(
    conn: &mut Connection<S>,
    repo: &RepoName,
    oid: &Oid,
) -> Result<bool, StoreFault>
    ensures { Transacts S.Store conn.old conn.new result (after_retire (repo_text repo.now) oid.now)
        (λ t removed. removed ≡ is_some (find (is_object (repo_text repo.now) oid.now) t.uploads)) }
{
    if !conn.is_autocommit() {
        return Err(StoreFault::Refused);
    }
    let mut tx = conn.transaction();
    let removed = retire_into(&mut tx, repo, oid)?;
    finish_with(tx, removed)
}

impl<S: Alter> Store<S> {
    /// Removes the object that the repository has under this name with its chunks, subtracts its size from the number
    /// of bytes that the repository stores, and retires the name, all or nothing. Returns whether there was one.
    ///
    /// # Errors
    ///
    /// `Refused` or `Memory`. The tables are unchanged, but a stop may still leave the change.
    pub fn retire_object(&mut self, repo: &RepoName, oid: &Oid) -> Result<bool, StoreFault>
        ensures { Changes S.Store self.old self.new result
            (after_retire (repo_text repo.now) oid.now)
            (λ t removed. removed ≡ is_some (find (is_object (repo_text repo.now) oid.now) t.uploads)) }
    {
        retire(&mut self.conn, repo, oid)
    }

    /// Returns whether the repository has retired this name.
    ///
    /// # Errors
    ///
    /// `Refused` or `Memory`. The tables are unchanged in any case.
    pub fn is_retired(&mut self, repo: &RepoName, oid: &Oid) -> Result<bool, StoreFault>
        ensures { Reads S.Store self.old self.new result
            (λ t retired. is_some (find (is_retired_as (repo_text repo.now) oid.now) t.retired) ≡ retired) }
    {
        let rows = read(
            &mut self.conn,
            "SELECT oid FROM retired WHERE repo = ?1 AND oid = ?2 ORDER BY rowid",
            params![repo.as_str(), oid.text()],
        )?;
        Ok(!rows.is_empty())
    }

    /// Returns the names that the repository has retired, in rising order.
    ///
    /// # Errors
    ///
    /// `Refused` or `Memory`. The tables are unchanged in any case.
    pub fn retired(&mut self, alloc: Global, repo: &RepoName) -> Result<Vec<Oid>, StoreFault>
        ensures { Reads S.Store self.old self.new result
            (λ t names. AreNamesOf names.items (by_oid (filter (is_retired_in (repo_text repo.now)) t.retired))) }
    {
        let rows = read(
            &mut self.conn,
            "SELECT oid FROM retired WHERE repo = ?1 ORDER BY oid, rowid",
            params![repo.as_str()],
        )?;
        all_names(alloc, rows.as_slice())
    }
}
