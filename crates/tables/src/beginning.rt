//! The call that begins an upload.

ghost use Rattle.std.specs.Prelude.{◌≡◌, ◌↔◌, ◌<ℤ◌, Some, option_map, IsTrue};
ghost use Rattle.names.specs.Names.{repo_text};
ghost use Rattle.sqlite.specs.Held.{state};
ghost use Rattle.typed_rows.specs.Transactions.{Inside};
ghost use Rattle.tables.specs.Statements.{with_upload};
ghost use Rattle.tables.specs.Calls.{MakesStep, Says};
ghost use Rattle.tables.specs.Choosing.{MakesItsStep, Chooses};
ghost use Rattle.tables.specs.Staging.{upload_number, asked_upload, IsAbove, without_staged_in, after_begin};
ghost use Rattle.tables.specs.Remembered.{IsLastIn, HasLast};
ghost use Rattle.tables.specs.Shown.{Begins};

use crate::Store;
use crate::fault::StoreFault;
use crate::new_rows::NewUpload;
use crate::rows::UploadId;
use crate::staged::{is_same, remember, remembered_in};
use crate::uploads::{bytes_of, staged_in, upload_out};
use crate::write::finish_with;
use names::RepoName;
use sqlite::{Alter, Connection, Error, Transaction, params};
use std::alloc::Global;

/// Adds a staged upload. The database chooses its id.
fn upload_into<S: Alter>(
    tx: &mut Transaction<'_, S>,
    upload: &NewUpload<'_>,
) -> Result<UploadId, Error>
    ensures same_reference { tx.new.conn.ghost_name ≡ tx.old.conn.ghost_name }
    ensures value { Says S.Store tx.old.conn.now tx.new.conn.now result
        (λ t id. IsAbove t (upload_number id)) }
    ensures ok { MakesItsStep S.Store tx.old.conn.now tx.new.conn.now result
        (λ id. with_upload (asked_upload upload.now (upload_number id))) }
    ensures within { Inside S.Store tx.old.conn.now tx.new.conn.now result }
{
    tx.execute(
        "INSERT INTO uploads (repo, oid, size, done) VALUES (?1, ?2, ?3, 0)",
        params![
            upload.repo.as_str(),
            upload.oid.text(),
            bytes_of(upload.size)
        ],
    )?;
    Ok(UploadId {
        number: tx.last_insert_rowid(),
    })
}

/// Removes the last upload of the repository with its chunks, if it is staged.
fn last_out<S: Alter>(
    tx: &mut Transaction<'_, S>,
    last: UploadId,
    repo: &RepoName,
) -> Result<(), StoreFault>
    ensures same_reference { tx.new.conn.ghost_name ≡ tx.old.conn.ghost_name }
    ensures ok { IsLastIn (Some (upload_number last)) (repo_text repo.now)
        (state S.Store tx.old.conn.now)
        → MakesStep S.Store tx.old.conn.now tx.new.conn.now result
        (without_staged_in (repo_text repo.now)) }
    ensures within { Inside S.Store tx.old.conn.now tx.new.conn.now result }
{
    let Some(upload) = staged_in(tx, last)? else {
        return Ok(());
    };
    if !is_same(&upload.repo, repo) {
        return Err(StoreFault::Refused);
    }
    upload_out(tx, last)
}

fn comes_after(id: UploadId, last: UploadId) -> bool
    ensures { IsTrue result ↔ (upload_number last <ℤ upload_number id) }
{
    last.number < id.number
}

/// Begins the upload in place of the last one of its repository, whose id has to be less.
fn replace_into<S: Alter>(
    tx: &mut Transaction<'_, S>,
    last: UploadId,
    upload: &NewUpload<'_>,
) -> Result<UploadId, StoreFault>
    ensures same_reference { tx.new.conn.ghost_name ≡ tx.old.conn.ghost_name }
    ensures value { IsLastIn (Some (upload_number last)) (repo_text upload.now.repo.now)
        (state S.Store tx.old.conn.now)
        → Says S.Store tx.old.conn.now tx.new.conn.now result
        (λ t id. IsAbove t (upload_number id)) }
    ensures ok { IsLastIn (Some (upload_number last)) (repo_text upload.now.repo.now)
        (state S.Store tx.old.conn.now)
        → MakesItsStep S.Store tx.old.conn.now tx.new.conn.now result
        (λ id. after_begin (asked_upload upload.now (upload_number id))) }
    ensures within { Inside S.Store tx.old.conn.now tx.new.conn.now result }
{
    last_out(tx, last, upload.repo)?;
    let id = upload_into(tx, upload)?;
    if !comes_after(id, last) {
        return Err(StoreFault::Refused);
    }
    Ok(id)
}

fn begin_into<S: Alter>(
    tx: &mut Transaction<'_, S>,
    last: Option<UploadId>,
    upload: &NewUpload<'_>,
) -> Result<UploadId, StoreFault>
    ensures same_reference { tx.new.conn.ghost_name ≡ tx.old.conn.ghost_name }
    ensures value { IsLastIn (option_map upload_number last) (repo_text upload.now.repo.now)
        (state S.Store tx.old.conn.now)
        → Says S.Store tx.old.conn.now tx.new.conn.now result
        (λ t id. IsAbove t (upload_number id)) }
    ensures ok { IsLastIn (option_map upload_number last) (repo_text upload.now.repo.now)
        (state S.Store tx.old.conn.now)
        → MakesItsStep S.Store tx.old.conn.now tx.new.conn.now result
        (λ id. after_begin (asked_upload upload.now (upload_number id))) }
    ensures within { Inside S.Store tx.old.conn.now tx.new.conn.now result }
{
    match last {
        None => Ok(upload_into(tx, upload)?),
        Some(last) => replace_into(tx, last, upload),
    }
}

#[tactic(auto, using(crate::proofs::Calls::led))]
fn begin<S: Alter>(
    conn: &mut Connection<S>,
    last: Option<UploadId>,
    upload: &NewUpload<'_>,
) -> Result<UploadId, StoreFault>
    ensures { Chooses S.Store (HasLast (option_map upload_number last)
        (repo_text upload.now.repo.now) (state S.Store conn.old)) conn.old conn.new result
        (λ id. after_begin (asked_upload upload.now (upload_number id)))
        (λ t id. IsAbove t (upload_number id)) }
{
    if !conn.is_autocommit() {
        return Err(StoreFault::Refused);
    }
    let mut tx = conn.transaction();
    let id = begin_into(&mut tx, last, upload)?;
    finish_with(tx, id)
}

impl<S: Alter> Store<S> {
    /// Begins an upload, and removes the one that its repository has staged, with its chunks. The id is greater than
    /// that of each upload.
    ///
    /// # Errors
    ///
    /// `Refused`, also if a repository has two staged uploads, or `Memory`. The tables are unchanged, but a stop may
    /// still leave the change.
    pub fn begin_upload(
        &mut self,
        alloc: Global,
        upload: &NewUpload<'_>,
    ) -> Result<UploadId, StoreFault>
        ensures { Begins S.Store self.old self.new result upload.now }
    {
        let known = self.take_staged(alloc)?;
        let last = remembered_in(known.as_slice(), upload.repo);
        match begin(&mut self.conn, last, upload) {
            Ok(id) => {
                self.staged = remember(alloc, known, upload.repo, id);
                Ok(id)
            }
            Err(fault) => {
                self.staged = Some(known);
                Err(fault)
            }
        }
    }
}
