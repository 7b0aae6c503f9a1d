//! The calls on locks, and on the number of locks that a repository ever made.

ghost use Rattle.std.specs.Prelude.{◌≡◌, length, pos, find, filter, map, take, slice_get, IfOk, MatchOption};
ghost use Rattle.names.specs.Names.{repo_text, ref_text, path_text};
ghost use Rattle.sqlite.specs.Held.{state};
ghost use Rattle.tables.specs.Statements.{is_named, is_at, has_id, is_in, is_from, by_id, show_made, with_lock, without_lock};
ghost use Rattle.tables.specs.Runs.{tables_in};
ghost use Rattle.typed_rows.specs.Transactions.{Inside};
ghost use Rattle.tables.specs.Calls.{MakesStep, Says, Does, Transacts};
ghost use Rattle.tables.specs.Steps.{IsLockOf, AreLocksOf, repo_count, read_count, IsCountOf, made_in, made_of, with_made, asked_lock, held_at, used_up, created, next_outcome, outcome_of, read_creation, IsOutcomeOf, with_new_lock, after_create};
ghost use Rattle.tables.specs.Shown.{Reads, Changes};

use crate::Store;
use crate::fault::StoreFault;
use crate::new_rows::NewLock;
use crate::read::{read, select};
use crate::rows::{Creation, LockRow, all_locks, first_lock, second_of};
use crate::write::{change, finish_with};
use names::{LockId, LockPath, RefName, RepoName};
use sqlite::{Alter, Connection, Error, Row, Transaction, params};
use std::alloc::Global;

/// A repository's row: its rowid, and the number of locks that the repository ever made.
#[derive(Clone, Copy, Debug)]
pub(crate) struct Count {
    rowid: i64,
    made: u32,
}

fn count_from(row: &Row) -> Result<Count, StoreFault>
    ensures { (r : _) → row.now ≡ show_made r → IfOk result
        (λ found. read_count found ≡ repo_count r) }
{
    Ok(Count {
        rowid: row.get(0)?,
        made: row.get(1)?,
    })
}

/// The count in the first of the rows.
fn first_count(rows: &[Row]) -> Result<Option<Count>, StoreFault>
    ensures { (repos : _) → rows.now ≡ map show_made repos → IfOk result
        (λ found. IsCountOf found (slice_get repos 0)) }
{
    match rows.first() {
        None => Ok(None),
        Some(row) => Ok(Some(count_from(row)?)),
    }
}

/// The number of locks made; 0 if the repository has no row yet.
fn made_so_far(count: Option<Count>) -> u32
    ensures { (repo : _) → IsCountOf count repo → pos result ≡ made_in repo }
{
    match count {
        None => 0,
        Some(count) => count.made,
    }
}

/// The id of the repository's next lock; `None` if no id is left.
fn next_id(count: Option<Count>) -> Option<LockId>
    ensures { (repo : _) → IsCountOf count repo → MatchOption result
        (next_outcome (made_in repo) ≡ used_up)
        (λ id. next_outcome (made_in repo) ≡ created (pos id)) }
{
    LockId::from_number(made_so_far(count).checked_add(1)?)
}

/// The lock on this path of this ref.
fn held_in<S: Alter>(
    tx: &mut Transaction<'_, S>,
    lock: &NewLock<'_>,
) -> Result<Option<LockRow>, StoreFault>
    ensures same_reference { tx.new.conn.ghost_name ≡ tx.old.conn.ghost_name }
    ensures value { Says S.Store tx.old.conn.now tx.new.conn.now result
        (λ t found. IsLockOf found (held_at (asked_lock lock.now) t)) }
    ensures does { Does S.Store tx.old.conn.now tx.new.conn.now result (λ t. t) }
{
    let rows = select(
        tx,
        "SELECT id, ref, path, owner, moment FROM locks WHERE repo = ?1 AND ref = ?2 AND path = ?3 ORDER BY rowid",
        params![
            lock.repo.as_str(),
            lock.ref_name.as_str(),
            lock.path.as_str()
        ],
    )?;
    first_lock(rows.as_slice())
}

fn count_in<S: Alter>(
    tx: &mut Transaction<'_, S>,
    repo: &RepoName,
) -> Result<Option<Count>, StoreFault>
    ensures same_reference { tx.new.conn.ghost_name ≡ tx.old.conn.ghost_name }
    ensures value { Says S.Store tx.old.conn.now tx.new.conn.now result
        (λ t found. IsCountOf found (find (is_named (repo_text repo.now)) t.repos)) }
    ensures does { Does S.Store tx.old.conn.now tx.new.conn.now result (λ t. t) }
{
    let rows = select(
        tx,
        "SELECT rowid, made FROM repos WHERE name = ?1 ORDER BY rowid",
        params![repo.as_str()],
    )?;
    first_count(rows.as_slice())
}

pub(crate) fn lock_into<S: Alter>(
    tx: &mut Transaction<'_, S>,
    lock: &NewLock<'_>,
    id: LockId,
) -> Result<usize, Error>
    ensures same_reference { tx.new.conn.ghost_name ≡ tx.old.conn.ghost_name }
    ensures does { Does S.Store tx.old.conn.now tx.new.conn.now result
        (with_lock (record (asked_lock lock.now) { id = pos id })) }
{
    change(
        tx,
        "INSERT INTO locks (repo, id, ref, path, owner, moment) VALUES (?1, ?2, ?3, ?4, ?5, ?6)",
        params![
            lock.repo.as_str(),
            id.get(),
            lock.ref_name.as_str(),
            lock.path.as_str(),
            lock.owner.as_str(),
            second_of(lock.moment)
        ],
    )
}

/// Sets the number of locks that the repository ever made, in the row that was found or in a new one.
fn set_count<S: Alter>(
    tx: &mut Transaction<'_, S>,
    repo: &RepoName,
    count: Option<Count>,
    made: u32,
) -> Result<usize, Error>
    ensures same_reference { tx.new.conn.ghost_name ≡ tx.old.conn.ghost_name }
    ensures ok { IsCountOf count
        (find (is_named (repo_text repo.now)) (tables_in (state S.Store tx.old.conn.now)).repos)
        → MakesStep S.Store tx.old.conn.now tx.new.conn.now result
        (with_made (repo_text repo.now) (pos made)) }
    ensures within { Inside S.Store tx.old.conn.now tx.new.conn.now result }
{
    match count {
        None => change(
            tx,
            "INSERT INTO repos (name, made, used) VALUES (?1, ?2, 0)",
            params![repo.as_str(), made],
        ),
        Some(count) => change(
            tx,
            "UPDATE repos SET made = ?2 WHERE rowid = ?1",
            params![count.rowid, made],
        ),
    }
}

/// Stores the lock under this id, and counts it.
#[tactic(auto, unfolding(crate::specs::Steps::with_new_lock))]
fn keep_into<S: Alter>(
    tx: &mut Transaction<'_, S>,
    lock: &NewLock<'_>,
    id: LockId,
    count: Option<Count>,
) -> Result<(), Error>
    ensures same_reference { tx.new.conn.ghost_name ≡ tx.old.conn.ghost_name }
    ensures ok { IsCountOf count (find (is_named (repo_text lock.now.repo.now))
        (tables_in (state S.Store tx.old.conn.now)).repos)
        → MakesStep S.Store tx.old.conn.now tx.new.conn.now result
        (with_new_lock (asked_lock lock.now) (pos id)) }
    ensures within { Inside S.Store tx.old.conn.now tx.new.conn.now result }
{
    lock_into(tx, lock, id)?;
    set_count(tx, lock.repo, count, id.get())?;
    Ok(())
}

/// Makes the lock, unless its path is locked or no id is left.
fn create_into<S: Alter>(
    tx: &mut Transaction<'_, S>,
    lock: &NewLock<'_>,
) -> Result<Creation, StoreFault>
    ensures same_reference { tx.new.conn.ghost_name ≡ tx.old.conn.ghost_name }
    ensures value { Says S.Store tx.old.conn.now tx.new.conn.now result
        (IsOutcomeOf (asked_lock lock.now)) }
    ensures does { Does S.Store tx.old.conn.now tx.new.conn.now result
        (after_create (asked_lock lock.now)) }
{
    if let Some(row) = held_in(tx, lock)? {
        return Ok(Creation::Held(row));
    }
    let count = count_in(tx, lock.repo)?;
    let Some(id) = next_id(count) else {
        return Ok(Creation::UsedUp);
    };
    keep_into(tx, lock, id, count)?;
    Ok(Creation::Created(id))
}

#[tactic(auto, using(crate::proofs::Calls::led))]
fn create<S: Alter>(conn: &mut Connection<S>, lock: &NewLock<'_>) -> Result<Creation, StoreFault>
    ensures { Transacts S.Store conn.old conn.new result (after_create (asked_lock lock.now))
        (IsOutcomeOf (asked_lock lock.now)) }
{
    if !conn.is_autocommit() {
        return Err(StoreFault::Refused);
    }
    let mut tx = conn.transaction();
    let creation = create_into(&mut tx, lock)?;
    finish_with(tx, creation)
}

fn remove_into<S: Alter>(
    tx: &mut Transaction<'_, S>,
    repo: &RepoName,
    id: LockId,
) -> Result<usize, Error>
    ensures same_reference { tx.new.conn.ghost_name ≡ tx.old.conn.ghost_name }
    ensures count { Says S.Store tx.old.conn.now tx.new.conn.now result
        (λ t n. n ≡ length (filter (has_id (repo_text repo.now) (pos id)) t.locks)) }
    ensures does { Does S.Store tx.old.conn.now tx.new.conn.now result
        (without_lock (repo_text repo.now) (pos id)) }
{
    change(
        tx,
        "DELETE FROM locks WHERE repo = ?1 AND id = ?2",
        params![repo.as_str(), id.get()],
    )
}

#[tactic(auto, using(crate::proofs::Calls::led))]
fn remove<S: Alter>(
    conn: &mut Connection<S>,
    repo: &RepoName,
    id: LockId,
) -> Result<usize, StoreFault>
    ensures { Transacts S.Store conn.old conn.new result
        (without_lock (repo_text repo.now) (pos id))
        (λ t n. n ≡ length (filter (has_id (repo_text repo.now) (pos id)) t.locks)) }
{
    if !conn.is_autocommit() {
        return Err(StoreFault::Refused);
    }
    let mut tx = conn.transaction();
    let removed = remove_into(&mut tx, repo, id)?;
    finish_with(tx, removed)
}

impl<S: Alter> Store<S> {
    /// Returns the number of locks that the repository ever made.
    ///
    /// # Errors
    ///
    /// `Refused` or `Memory`. The tables are unchanged in any case.
    pub fn made(&mut self, repo: &RepoName) -> Result<u32, StoreFault>
        ensures { Reads S.Store self.old self.new result
            (λ t n. pos n ≡ made_of (repo_text repo.now) t) }
    {
        let rows = read(
            &mut self.conn,
            "SELECT rowid, made FROM repos WHERE name = ?1 ORDER BY rowid",
            params![repo.as_str()],
        )?;
        Ok(made_so_far(first_count(rows.as_slice())?))
    }

    /// Returns the lock on this path of this ref, if the path is locked.
    ///
    /// # Errors
    ///
    /// `Refused` or `Memory`. The tables are unchanged in any case.
    pub fn lock_at(
        &mut self,
        repo: &RepoName,
        ref_name: &RefName,
        path: &LockPath,
    ) -> Result<Option<LockRow>, StoreFault>
        ensures { Reads S.Store self.old self.new result
            (λ t found. IsLockOf found (find
            (is_at (repo_text repo.now) (ref_text ref_name.now) (path_text path.now)) t.locks)) }
    {
        let rows = read(
            &mut self.conn,
            "SELECT id, ref, path, owner, moment FROM locks WHERE repo = ?1 AND ref = ?2 AND path = ?3 ORDER BY rowid",
            params![repo.as_str(), ref_name.as_str(), path.as_str()],
        )?;
        first_lock(rows.as_slice())
    }

    /// Returns the lock with this id, if there is one.
    ///
    /// # Errors
    ///
    /// `Refused` or `Memory`. The tables are unchanged in any case.
    pub fn lock_with_id(
        &mut self,
        repo: &RepoName,
        id: LockId,
    ) -> Result<Option<LockRow>, StoreFault>
        ensures { Reads S.Store self.old self.new result
            (λ t found. IsLockOf found (find (has_id (repo_text repo.now) (pos id)) t.locks)) }
    {
        let rows = read(
            &mut self.conn,
            "SELECT id, ref, path, owner, moment FROM locks WHERE repo = ?1 AND id = ?2 ORDER BY rowid",
            params![repo.as_str(), id.get()],
        )?;
        first_lock(rows.as_slice())
    }

    /// Returns all locks of the repository, in rising ids.
    ///
    /// # Errors
    ///
    /// `Refused` or `Memory`. The tables are unchanged in any case.
    pub fn locks_in(&mut self, alloc: Global, repo: &RepoName) -> Result<Vec<LockRow>, StoreFault>
        ensures { Reads S.Store self.old self.new result
            (λ t found. AreLocksOf found.items
            (by_id (filter (is_in (repo_text repo.now)) t.locks))) }
    {
        let rows = read(
            &mut self.conn,
            "SELECT id, ref, path, owner, moment FROM locks WHERE repo = ?1 ORDER BY id, rowid",
            params![repo.as_str()],
        )?;
        all_locks(alloc, rows.as_slice())
    }

    /// Returns the first 64 locks of the repository whose ids are this one or later, in rising ids.
    ///
    /// # Errors
    ///
    /// `Refused` or `Memory`. The tables are unchanged in any case.
    pub fn locks_from(
        &mut self,
        alloc: Global,
        repo: &RepoName,
        id: LockId,
    ) -> Result<Vec<LockRow>, StoreFault>
        ensures { Reads S.Store self.old self.new result
            (λ t found. AreLocksOf found.items
            (take 64 (by_id (filter (is_from (repo_text repo.now) (pos id)) t.locks)))) }
    {
        let rows = read(
            &mut self.conn,
            "SELECT id, ref, path, owner, moment FROM locks WHERE repo = ?1 AND id >= ?2 ORDER BY id, rowid LIMIT 64",
            params![repo.as_str(), id.get()],
        )?;
        all_locks(alloc, rows.as_slice())
    }

    /// Makes a lock under the repository's next id and counts it, both or neither. Nothing changes if the path is
    /// already locked, or no id is left.
    ///
    /// # Errors
    ///
    /// `Refused` or `Memory`. The tables are unchanged, but a stop may still leave the change.
    pub fn create_lock(&mut self, lock: &NewLock<'_>) -> Result<Creation, StoreFault>
        ensures { Changes S.Store self.old self.new result (after_create (asked_lock lock.now))
            (λ t creation. read_creation creation ≡ outcome_of (asked_lock lock.now) t) }
    {
        create(&mut self.conn, lock)
    }

    /// Removes the lock with this id, and returns the number of locks removed: 0 or 1.
    ///
    /// # Errors
    ///
    /// `Refused` or `Memory`. The tables are unchanged, but a stop may still leave the change.
    pub fn remove_lock(&mut self, repo: &RepoName, id: LockId) -> Result<usize, StoreFault>
        ensures { Changes S.Store self.old self.new result
            (without_lock (repo_text repo.now) (pos id))
            (λ t n. n ≡ length (filter (has_id (repo_text repo.now) (pos id)) t.locks)) }
    {
        remove(&mut self.conn, repo, id)
    }
}
