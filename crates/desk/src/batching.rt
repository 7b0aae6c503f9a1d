//! A batch: what a client can do with each of its objects (Git LFS API, Batch).

ghost use Rattle.std.specs.Prelude.{◌≡◌, ◌++◌, ◌∷◌, [], IfOk, OnOk, Err, Ok, map, option_map, string_bytes};
ghost use Rattle.names.specs.Names.{ref_text};
ghost use Rattle.model.specs.RepoState.{has_room, repo_state};
ghost use Rattle.model.specs.Answers.{offers};
ghost use Rattle.model.specs.Batch.{batch_verdict};
ghost use Rattle.policy.specs.Values.{repo_view};
ghost use Rattle.forms.specs.Offers.{offer_at};
ghost use Rattle.forms.specs.Requests.{batch_asked, object_asked};
ghost use Rattle.refinement.specs.Left.{Reads};
ghost use Rattle.desk.specs.Replies.{IsReplyOf};
ghost use Rattle.desk.specs.Reading.{ReadsRepo, ShowsCaller};
ghost use Rattle.desk.specs.Batching.{AreLinksOf, IsSound, actions_for, actions_on, judged_as, judged_by, judged_on, may_transfer};
ghost use Rattle.desk.specs.Rights.{Judges};

use crate::cases::{Case, Denial};
use crate::outcomes::NotGranted;
use crate::readers::RepoReader;
use crate::replies::Reply;
use crate::rights::{may_push, permit, pull_question, ref_or_default};
use crate::uploading::fits;
use forms::{Actions, Answer, BatchObject, BatchRequest, DenialStatus, Links, Offer, ShownBatch};
use names::{Oid, Operation, RefName, Rule, Size};
use policy::Repo;
use std::alloc::{AllocError, Global};
use store::Store;
use tables::StoreFault;

/// An object of a batch whose name and size are valid.
#[derive(Clone, Copy, Debug)]
pub(crate) struct NamedObject {
    /// Its name.
    pub name: Oid,
    /// Its size.
    pub size: Size,
}

/// The name and the size of an object, if both are valid (B2), and objects are named by SHA-256 (B3).
fn named_object(object: &BatchObject, hash_algo: Option<&String>) -> Result<NamedObject, Rule>
    ensures { IsSound (option_map (λ text. string_bytes text.now) hash_algo.entry)
        (object_asked object.now) result }
{
    let Some(size) = object.size.and_then(Size::read) else {
        return Err(Rule::B2);
    };
    let Some(name) = Oid::read(object.oid.as_bytes()) else {
        return Err(Rule::B2);
    };
    match hash_algo {
        Some(hash) if hash.as_str() != "sha256" => Err(Rule::B3),
        _ => Ok(NamedObject { name, size }),
    }
}

/// What can be done with an object of this size, by what is stored under its name, and whether the quota has room
/// for it.
fn actions_for(
    operation: Operation,
    stored: Option<Size>,
    size: Size,
    fits: bool,
) -> Result<Actions, Rule>
    ensures { (state : _) → fits ≡ has_room size state
        → result ≡ actions_for state operation stored size }
{
    match (operation, stored) {
        (Operation::Download, None) => Err(Rule::B1),
        (_, Some(there)) if there != size => Err(Rule::B4),
        (Operation::Download, Some(_)) => Ok(Actions::Download),
        (Operation::Upload, Some(_)) => Ok(Actions::Stored),
        (Operation::Upload, None) if !fits => Err(Rule::B5),
        (Operation::Upload, None) => Ok(Actions::Upload),
    }
}

/// What can be done with the object, or the rule that refuses it. `room` is the quota less the bytes that the repository
/// stores.
///
/// # Errors
///
/// The fault of the reader.
fn judge<R: RepoReader>(
    reader: &mut R,
    repo: &Repo,
    room: i128,
    asked: &BatchRequest,
    object: &BatchObject,
) -> Result<Result<Actions, Rule>, StoreFault>
    ensures { ReadsRepo R.RepoReader reader.old reader.new (repo_view repo.now) (λ state.
        room ≡ state.room → IfOk result (λ actions. actions
        ≡ actions_on state (batch_asked asked.now) (object_asked object.now))) }
{
    match named_object(object, asked.hash_algo.as_ref()) {
        Ok(named) => {
            if reader.is_gone(repo, &named.name)? {
                return Ok(Err(Rule::B6));
            }
            let stored = reader.size_of(repo, &named.name)?;
            let fits = fits(named.size.get(), room);
            Ok(actions_for(asked.operation, stored, named.size, fits))
        }
        Err(rule) => Ok(Err(rule)),
    }
}

/// Adds the object as it was given, with what can be done with it.
fn add_offer<'a>(
    offers: &mut Vec<Offer<'a>>,
    object: &'a BatchObject,
    actions: Result<Actions, Rule>,
) -> Result<(), AllocError>
    ensures { OnOk result (map judged_by offers.new.items
        ≡ map judged_by offers.old.items ++ judged_as (object_asked object.now) actions ∷ []) }
{
    let offer = Offer {
        oid: object.oid.as_str(),
        size: object.size.unwrap_or(0),
        actions,
    };
    offers.push(offer)?;
    Ok(())
}

/// What a client can do with each object of the batch, in the order of the request.
fn judge_all<'a, R: RepoReader>(
    alloc: Global,
    reader: &mut R,
    repo: &Repo,
    asked: &'a BatchRequest,
) -> Result<Vec<Offer<'a>>, StoreFault>
    ensures { ReadsRepo R.RepoReader reader.old reader.new (repo_view repo.now) (λ state.
        IfOk result (λ offers. map judged_by offers.items
        ≡ map (judged_on state (batch_asked asked.now)) (batch_asked asked.now).objects)) }
{
    let room = reader.room(repo)?;
    let mut offers = Vec::with_capacity(alloc, asked.objects.len())?;
    for object in asked.objects.as_slice() {
        let actions = judge(reader, repo, room, asked, object)?;
        add_offer(&mut offers, object, actions)?;
    }
    Ok(offers)
}

/// Returns what a client can do with each object of the batch, in the order of the request: each object is judged by
/// itself, by what the repository stores.
///
/// # Errors
///
/// A [`StoreFault`], which leaves the tables unchanged.
pub fn batch_objects<'a, S: Store>(
    alloc: Global,
    store: &mut S,
    repo: &Repo,
    asked: &'a BatchRequest,
) -> Result<Vec<Offer<'a>>, StoreFault>
    ensures { Reads S.State store.old store.new (λ world. IfOk result (λ offers.
        map judged_by offers.items ≡ map (judged_on (repo_state (repo_view repo.now) world)
        (batch_asked asked.now)) (batch_asked asked.now).objects)) }
{
    judge_all(alloc, store, repo, asked)
}

/// The caller may do this with objects of the ref, or is denied.
fn may_batch(case: &Case<'_>, operation: Operation, ref_name: &RefName) -> Result<(), Denial>
    ensures { Judges (λ _. tt) result
        (may_transfer case.entry.now operation (ref_text ref_name.now)) }
{
    match operation {
        Operation::Download => permit(case.policy, &pull_question(case), DenialStatus::NotFound),
        Operation::Upload => may_push(case, ref_name),
    }
}

/// Where the actions on objects of the ref lead.
fn links_of<'a>(case: &Case<'a>, ref_name: &'a RefName) -> Links<'a>
    ensures { AreLinksOf case.entry.now (ref_text ref_name.entry.now) result }
{
    Links {
        base: case.policy.base(),
        repo: case.repo.name(),
        ref_name,
        token: case.token,
        expires_in: case.expires.get().saturating_sub(case.now.get()),
    }
}

/// The reply with the objects of a batch.
fn batch_reply(alloc: Global, links: &Links<'_>, objects: &[Offer<'_>]) -> Result<Reply, AllocError>
    ensures { IfOk result (λ reply.
        IsReplyOf reply (Ok (offers (map (offer_at links.now) objects.now)))) }
{
    let batch = ShownBatch {
        links: *links,
        offers: objects,
    };
    Reply::telling(alloc, &Answer::Offered(&batch))
}

/// Answers a batch with what the caller can do with each object.
///
/// # Errors
///
/// `Denied` by the policy, and `Store`.
pub(crate) fn batch<R: RepoReader>(
    reader: &mut R,
    alloc: Global,
    case: &Case<'_>,
    asked: &BatchRequest,
) -> Result<Reply, NotGranted>
    ensures { ShowsCaller R.RepoReader case.entry.now reader.old reader.new
        (λ seen. batch_verdict seen (batch_asked asked.entry.now)) result }
{
    let ref_name = ref_or_default(case, asked.ref_name.as_ref());
    may_batch(case, asked.operation, ref_name)?;
    let objects = judge_all(alloc, reader, case.repo, asked)?;
    let links = links_of(case, ref_name);
    Ok(batch_reply(alloc, &links, objects.as_slice())?)
}
