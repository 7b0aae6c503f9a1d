//! An upload whose content is received in slices, between which other requests may be answered.
//!
//! [`begin_upload`] judges the request before its content is read, and stages the upload. [`Receiving::take`] takes the content
//! in pieces of any length: each full chunk is written at once, the rest is kept in memory. [`finish`] answers the request,
//! and is its only exchange: it judges the request again in the world of then, since tokens may have been removed, names
//! retired and objects stored in between, and makes the object. Whoever calls these sees to it that nothing else touches what
//! is staged of the repository meanwhile: each contract asks for it ([`IsReceiving`](Receiving)) where it needs it.

ghost use Rattle.std.specs.Prelude.{◌≡◌, ◌<◌, ◌+◌, ◌++◌, ℕ, List, true, [], length, Ok, Err, IfSome, IsTrue, OnOk};
ghost use Rattle.names.specs.Names.{repo_text};
ghost use Rattle.names.specs.Texts.{is_repo};
ghost use Rattle.model.specs.Answers.{receives};
ghost use Rattle.model.specs.Policy as model;
ghost use Rattle.policy.specs.Values.{policy_view};
ghost use Rattle.refinement.specs.Left.{From, Keeps};
ghost use Rattle.chunks.specs.Intakes.{HasTaken};
ghost use Rattle.desk.specs.Asking.{plan_seen};
ghost use Rattle.desk.specs.Done.{IsAnsweredAs, LeavesWorld, StaysWithin};
ghost use Rattle.desk.specs.Receiving.{IsReceiving, HasReceived, Receives};

use crate::admission::RepoRequest;
use crate::outcomes::refused_upload;
use crate::receiving::{Receipt, ReceiveFault, clear, settle};
use crate::replies::Reply;
use crate::uploading::{judge_upload, receipt_reply};
use chunks::Intake;
use names::{Moment, Oid, RepoName, Size};
use policy::Policy;
use std::alloc::Global;
use store::Store;
use tables::{StoreFault, UploadId};

/// By what a request is judged.
#[derive(Clone, Copy)]
pub struct Terms<'a> {
    /// The policy.
    pub policy: &'a Policy,
    /// The moment at which it is judged.
    pub moment: Moment,
}

/// An upload whose content has not all arrived.
#[derive(Drop)]
pub struct Receiving {
    upload: UploadId,
    intake: Intake,
    repo: RepoName,
    name: Oid,
    size: Size,
    /// The number of bytes that have not arrived.
    left: u64,
}

impl Receiving {
    /// The number of bytes that have not arrived.
    pub fn left(&self) -> u64
        ensures { result ≡ self.now.left }
    {
        self.left
    }

    /// Takes the next bytes of the content.
    ///
    /// # Errors
    ///
    /// A [`StoreFault`]; `Refused` also for more bytes than are left. After a fault of the store the upload takes no more
    /// bytes, and those that arrived are removed, as far as the store allows it. Its objects are unchanged.
    pub fn take<S: Store>(&mut self, store: &mut S, piece: &[u8]) -> Result<(), StoreFault>
        ensures taken { From S.State store.old store.new (λ world. (bytes : List ℕ)
            → IsReceiving S.State store.old self.old bytes
            → Keeps S.State store.old store.new world
            × OnOk result (IsReceiving S.State store.new self.new (bytes ++ piece.now))) }
        ensures bounded { From S.State store.old store.new (λ world. (bytes : List ℕ)
            → IsReceiving S.State store.old self.old bytes → (policy : model.Policy)
            → StaysWithin S.State store.old store.new policy world) }
        ensures left { OnOk result (self.new.left + length piece.now ≡ self.old.left) }
        ensures size { self.new.size ≡ self.old.size }
        ensures refused { self.old.left < length piece.now
            → result ≡ Err StoreFault.Refused }
    {
        let Some(left) = self.left.checked_sub(piece.len() as u64) else {
            return Err(StoreFault::Refused);
        };
        if let Err(fault) = self.intake.push(store, piece) {
            let _ = uploads::abandon(store, self.upload);
            return Err(fault);
        }
        self.left = left;
        Ok(())
    }

    /// Whether the upload was begun for this repository and with this name.
    fn is_for(&self, repo: &RepoName, name: &Oid) -> bool
        ensures { result ≡ true
            → (repo_text repo.now ≡ repo_text self.now.repo) × (name.now ≡ self.now.name) }
    {
        repo.as_str() == self.repo.as_str() && *name == self.name
    }
}

/// Judges a request to upload an object of this size, and begins the upload if no rule refuses it: the content is then
/// received by [`Receiving::take`], and answered by [`finish`]. Judging is no answer: a request that is refused here is
/// to be answered by [`answer`](crate::answer).
///
/// `None` if a rule refuses the request, if it uploads no object, or if the store refused or memory ran out. The objects of
/// the store are unchanged in any case. The upload takes the place of any that the repository had staged.
pub fn begin_upload<S: Store>(
    alloc: Global,
    store: &mut S,
    terms: Terms<'_>,
    asked: &RepoRequest<'_>,
    size: u64,
) -> Option<Receiving>
    ensures kept { From S.State store.old store.new (Keeps S.State store.old store.new) }
    ensures bounded { From S.State store.old store.new
        (StaysWithin S.State store.old store.new (policy_view terms.entry.policy.now)) }
    ensures begun { IfSome result (λ receiving. From S.State store.old store.new (λ world.
        IsReceiving S.State store.new receiving [])) }
    ensures size { IfSome result (λ receiving. receiving.size ≡ size) }
    ensures granted { IfSome result (λ receiving. From S.State store.old store.new (λ world.
        plan_seen world terms.entry.policy.now terms.entry.moment asked.entry.now size
        ≡ Ok (receives receiving.name))) }
{
    let (repo, name) = judge_upload(store, terms.policy, terms.moment, asked, size).ok()?;
    let size = Size::read(size)?;
    let repo = repo.to_owned(alloc).ok()?;
    let upload = uploads::begin(alloc, store, &repo, name, size).ok()?;
    let intake = Intake::begin(alloc, upload, size).ok()?;
    Some(Receiving {
        upload,
        intake,
        repo,
        name: *name,
        size,
        left: size.get(),
    })
}

/// Makes an upload an object of its repository if the bytes that the intake took have its name.
///
/// # Errors
///
/// `Store` if the store refused, or memory ran out. The objects of the store are unchanged.
fn end<S: Store>(store: &mut S, upload: UploadId, intake: Intake) -> Result<Receipt, ReceiveFault>
    ensures { From S.State store.old store.new (λ world. (repo name bytes : List ℕ)
        → IsTrue (is_repo repo) → intake.upload ≡ upload
        → HasTaken S.State store.old intake repo name (length bytes) bytes
        → Receives S.State store.old store.new world repo name bytes 0 result) }
{
    let arrival = intake.end()?;
    Ok(settle(store, upload, &arrival)?)
}

/// Makes an upload whose bytes all arrived an object of its repository if they have its name. If they do not, or if the
/// store refuses, the bytes are removed, as far as the store allows it.
///
/// # Errors
///
/// `Store` if the store refused, or memory ran out. The objects of the store are unchanged.
fn complete<S: Store>(
    alloc: Global,
    store: &mut S,
    receiving: Receiving,
) -> Result<Receipt, ReceiveFault>
    ensures { From S.State store.old store.new (λ world. (bytes : List ℕ)
        → IsReceiving S.State store.old receiving bytes → receiving.left ≡ 0
        → Receives S.State store.old store.new world (repo_text receiving.repo) receiving.name
        bytes 0 result) }
{
    let upload = receiving.upload;
    let received = end(store, upload, receiving.intake);
    clear(alloc, store, upload, &received);
    received
}

/// Answers the request by which an upload was begun, once all bytes of its content have arrived. The request is judged
/// again, at the same moment and by the same policy: the reply reports the first rule that refuses it now, or 200, or X2 if
/// the bytes do not have the name. It is the store refusal if the store refused or memory ran out, and if the request is
/// for another repository or another name than the upload was begun with.
///
/// A denied request leaves the tables as they were, with the upload staged, unless X2 denies it.
pub fn finish<S: Store>(
    alloc: Global,
    store: &mut S,
    terms: Terms<'_>,
    asked: &RepoRequest<'_>,
    receiving: Receiving,
) -> Reply
    ensures answered { From S.State store.old store.new (λ world. (bytes : List ℕ)
        → HasReceived S.State store.old receiving asked.entry.now bytes
        → IsAnsweredAs S.State true store.old store.new world asked.entry.now.repo.now
        (plan_seen world terms.entry.policy.now terms.entry.moment asked.entry.now (length bytes))
        bytes 0 (Ok result)) }
    ensures world { From S.State store.old store.new (λ world. (bytes : List ℕ)
        → HasReceived S.State store.old receiving asked.entry.now bytes
        → LeavesWorld S.State store.new
        (policy_view terms.entry.policy.now) asked.entry.now.repo.now world) }
    ensures bounded { From S.State store.old store.new (λ world. (bytes : List ℕ)
        → HasReceived S.State store.old receiving asked.entry.now bytes
        → StaysWithin S.State store.old store.new (policy_view terms.entry.policy.now) world) }
{
    let (repo, name) = match judge_upload(
        store,
        terms.policy,
        terms.moment,
        asked,
        receiving.size.get(),
    ) {
        Ok(granted) => granted,
        Err(refused) => return refused_upload(alloc, refused),
    };
    if !receiving.is_for(repo, name) {
        return Reply::store_refused();
    }
    match complete(alloc, store, receiving) {
        Ok(receipt) => receipt_reply(alloc, receipt),
        Err(_) => Reply::store_refused(),
    }
}
