//! The objects of a batch with what a client can do with each, and the body that shows them (Git LFS
//! API, Batch).

ghost use Rattle.std.specs.Prelude.{◌≡◌, IfOk, map, string_bytes};
ghost use Rattle.serde_json.specs.Data.{array, object};
ghost use Rattle.serde_json.specs.View.{view};
ghost use Rattle.serde_json.specs.Written.{compact_text};
ghost use Rattle.model.specs.Replies.{batch_json, items_of, members, offer_data, offer_members};
ghost use Rattle.forms.specs.Offers.{bare, download_json, link_json, offer_json, offers_json, offers_shown, upload_json, with_actions};

use crate::action::action_value;
use crate::answer::{rule_message, status_of_rule};
use crate::links::{LinkTexts, texts_of};
use names::{RefName, RepoName, Rule};
use serde_json::{Value, json};
use std::alloc::{AllocError, Global};

/// What a client can do with an object of a batch.
#[derive(Clone, Copy, Debug, PartialEq, Eq)]
pub enum Actions {
    /// Download it.
    Download,
    /// Upload it, and then verify it.
    Upload,
    /// Nothing: in an upload, the object is already stored.
    Stored,
}

/// An object of a batch, and what a client can do with it.
#[derive(Clone, Copy, Debug)]
pub struct Offer<'a> {
    /// The text that was given as the object's name.
    pub oid: &'a str,
    /// The size that was given; 0 if it was not a whole number of 64 bits.
    pub size: u64,
    /// What the client can do with the object, or the rule that refuses it.
    pub actions: Result<Actions, Rule>,
}

/// Where the actions of a batch lead, and the token for them.
#[derive(Clone, Copy, Debug)]
pub struct Links<'a> {
    /// The address of the server, from the policy.
    pub base: &'a str,
    /// The repository.
    pub repo: &'a RepoName,
    /// The ref that objects are uploaded for.
    pub ref_name: &'a RefName,
    /// The text of the token that the client presented.
    pub token: &'a str,
    /// How many seconds the token is valid.
    pub expires_in: u64,
}

/// The objects of a batch, and where their actions lead.
#[derive(Clone, Copy, Debug)]
pub struct ShownBatch<'a> {
    /// Where the actions lead.
    pub links: Links<'a>,
    /// The objects, in the order of the request.
    pub offers: &'a [Offer<'a>],
}

/// The JSON value of an action at the address.
fn action_at(alloc: Global, texts: &LinkTexts, href: &str) -> Result<Value, AllocError>
    ensures { IfOk result (λ value. view value ≡ link_json texts.now href.now) }
{
    action_value(alloc, texts.expires_in, texts.authorization.as_str(), href)
}

/// The JSON value of the action by which an object is downloaded.
fn download_value(alloc: Global, texts: &LinkTexts, oid: &str) -> Result<Value, AllocError>
    ensures { IfOk result (λ value. view value ≡ download_json texts.now oid.now) }
{
    let mut href = texts.content.clone()?;
    href.push_str(oid)?;
    let download = action_at(alloc, texts, href.as_str())?;
    json!(in alloc; {"download": download})
}

/// The JSON value of the actions by which an object is uploaded.
fn upload_value(alloc: Global, texts: &LinkTexts, oid: &str) -> Result<Value, AllocError>
    ensures { IfOk result (λ value. view value ≡ upload_json texts.now oid.now) }
{
    let mut href = texts.content.clone()?;
    href.push_str(oid)?;
    href.push_str(texts.query.as_str())?;
    let upload = action_at(alloc, texts, href.as_str())?;
    let verify = action_at(alloc, texts, texts.verify.as_str())?;
    json!(in alloc; {"upload": upload, "verify": verify})
}

/// The JSON value of an object with these actions.
fn with_actions(alloc: Global, offer: &Offer<'_>, actions: Value) -> Result<Value, AllocError>
    ensures { IfOk result (λ value. view value ≡ with_actions offer.now (view actions)) }
{
    json!(in alloc; {"actions": actions, "authenticated": true, "oid": offer.oid, "size": offer.size})
}

/// The JSON value of an object that is already stored.
fn stored_value(alloc: Global, offer: &Offer<'_>) -> Result<Value, AllocError>
    ensures { IfOk result (λ value. view value ≡ offer_data (bare offer.now)) }
{
    json!(in alloc; {"authenticated": true, "oid": offer.oid, "size": offer.size})
}

/// The JSON value of an object that the rule refuses.
fn refused_value(alloc: Global, offer: &Offer<'_>, rule: Rule) -> Result<Value, AllocError>
    ensures { IfOk result
        (λ value. view value ≡ object (members (offer_members (bare offer.now) (Err rule)))) }
{
    let code = status_of_rule(rule).as_u16();
    let message = rule_message(alloc, rule)?;
    json!(in alloc; {"error": {"code": code, "message": message}, "oid": offer.oid, "size": offer.size})
}

/// The JSON value of an object of a batch.
fn offer_value(alloc: Global, texts: &LinkTexts, offer: &Offer<'_>) -> Result<Value, AllocError>
    ensures { IfOk result
        (λ value. view value ≡ offer_json texts.now offer.now offer.now.actions) }
{
    let actions = match offer.actions {
        Ok(actions) => actions,
        Err(rule) => return refused_value(alloc, offer, rule),
    };
    let value = match actions {
        Actions::Download => download_value(alloc, texts, offer.oid)?,
        Actions::Upload => upload_value(alloc, texts, offer.oid)?,
        Actions::Stored => return stored_value(alloc, offer),
    };
    with_actions(alloc, offer, value)
}

/// The JSON array of these objects.
fn offers_value(alloc: Global, texts: &LinkTexts, offers: &[Offer<'_>]) -> Result<Value, AllocError>
    ensures { IfOk result (λ value. view value ≡ offers_json texts.now offers.now) }
{
    let mut values = Vec::with_capacity(alloc, offers.len())?;
    for offer in offers {
        values.push(offer_value(alloc, texts, offer)?)?;
    }
    Ok(Value::Array(values))
}

/// The JSON array of the objects of a batch.
fn objects_value(alloc: Global, batch: &ShownBatch<'_>) -> Result<Value, AllocError>
    ensures { IfOk result
        (λ value. view value ≡ array (items_of (map offer_data (offers_shown batch.now)))) }
{
    let texts = texts_of(alloc, &batch.links)?;
    offers_value(alloc, &texts, batch.offers)
}

/// The JSON value for a batch.
fn batch_value(alloc: Global, batch: &ShownBatch<'_>) -> Result<Value, AllocError>
    ensures { IfOk result (λ value. view value ≡ batch_json (offers_shown batch.now)) }
{
    let objects = objects_value(alloc, batch)?;
    json!(in alloc; {"hash_algo": "sha256", "objects": objects, "transfer": "basic"})
}

/// The body for a batch.
pub(crate) fn batch_body(alloc: Global, batch: &ShownBatch<'_>) -> Result<String, AllocError>
    ensures { IfOk result
        (λ text. string_bytes text ≡ compact_text (batch_json (offers_shown batch.now))) }
{
    batch_value(alloc, batch)?.to_string(alloc)
}
