//! Replies to clients, as a status and a JSON body (Git LFS API).

ghost use Rattle.std.specs.Prelude.{◌≡◌, IfOk, string_bytes};
ghost use Rattle.serde_json.specs.View.{view};
ghost use Rattle.serde_json.specs.Written.{compact_text};
ghost use Rattle.model.specs.Replies.{rule_status, rule_message, row_message, right_text, row_reason, with_code, message_json};

use crate::offers::{ShownBatch, batch_body};
use crate::page::{ShownPage, SplitPage, list_body, split_body};
use crate::shown_lock::{ShownLock, held_body, lock_body};
use http::StatusCode;
use model::Right;
use names::Rule;
use serde_json::{Value, json};
use std::alloc::{AllocError, Global};

/// The status of a denial by the policy; the request decides which (Git LFS API, Batch).
#[derive(Clone, Copy, Debug, PartialEq, Eq)]
pub enum DenialStatus {
    /// 403: the right is denied.
    Forbidden,
    /// 404: the reply says no more than if nothing were there.
    NotFound,
}

impl DenialStatus {
    ghost use Rattle.std.specs.Prelude.{◌≡◌};
    ghost use Rattle.forms.specs.Replies.{denial_status};

    /// The status as a status code.
    pub fn status_code(self) -> StatusCode
        ensures { result ≡ denial_status self }
    {
        match self {
            DenialStatus::Forbidden => StatusCode::FORBIDDEN,
            DenialStatus::NotFound => StatusCode::NOT_FOUND,
        }
    }
}

/// An answer to a client.
#[derive(Clone, Copy, Debug)]
pub enum Answer<'a> {
    /// The objects of a batch: 200.
    Offered(&'a ShownBatch<'a>),
    /// The lock was made: 201, with the lock.
    Locked(&'a ShownLock<'a>),
    /// The path is already locked: L1, 409, with the lock that holds it.
    Held(&'a ShownLock<'a>),
    /// A page of locks: 200.
    Listed(&'a ShownPage<'a>),
    /// A page of locks, the caller's own apart: 200.
    Split(&'a SplitPage<'a>),
    /// The lock was released: 200, with the lock.
    Released(&'a ShownLock<'a>),
    /// The rule refuses: with its own status, or 403 if the rule has none.
    Denied(Rule),
    /// The policy denies.
    DeniedByRow {
        /// The row that decides, counted from 1; 0 if no row matches.
        row: u32,
        /// The right that was asked.
        right: Right,
        /// The status of the reply, which the request decides.
        status: DenialStatus,
    },
}

impl Answer<'_> {
    ghost use Rattle.std.specs.Prelude.{◌≡◌, IfOk, string_bytes};
    ghost use Rattle.model.specs.Replies.{reply_of, json};
    ghost use Rattle.forms.specs.Replies.{IsAnswer};

    /// The status of the reply.
    pub fn status(&self) -> StatusCode
        ensures { (given : _) → IsAnswer self.now given → result ≡ (reply_of given).status }
    {
        match self {
            Answer::Locked(_) => StatusCode::CREATED,
            Answer::Held(_) => StatusCode::CONFLICT,
            Answer::Offered(_) => StatusCode::OK,
            Answer::Listed(_) | Answer::Split(_) | Answer::Released(_) => StatusCode::OK,
            Answer::Denied(rule) => status_of_rule(*rule),
            Answer::DeniedByRow { status, .. } => status.status_code(),
        }
    }

    /// Renders the JSON body of the reply: no white space, keys in the order of their bytes.
    ///
    /// # Errors
    ///
    /// Fails only if memory runs out.
    pub fn body(&self, alloc: Global) -> Result<String, AllocError>
        ensures { IfOk result
            (λ text. (given : _) → IsAnswer self.now given → (reply_of given).body
            ≡ json (string_bytes text)) }
    {
        match self {
            Answer::Offered(batch) => batch_body(alloc, batch),
            Answer::Locked(lock) => lock_body(alloc, lock),
            Answer::Held(lock) => held_body(alloc, lock),
            Answer::Listed(page) => list_body(alloc, page),
            Answer::Split(page) => split_body(alloc, page),
            Answer::Released(lock) => lock_body(alloc, lock),
            Answer::Denied(rule) => {
                let message = rule_message(alloc, *rule)?;
                message_body(alloc, message.as_str())
            }
            Answer::DeniedByRow { row, right, .. } => {
                let message = row_message(alloc, *row, *right)?;
                message_body(alloc, message.as_str())
            }
        }
    }
}

/// The status of a rule that refuses; 403 if the rule has none.
pub(crate) fn status_of_rule(rule: Rule) -> StatusCode
    ensures { result ≡ rule_status rule }
{
    let number = rule.status().unwrap_or(403);
    StatusCode::from_u16(number).unwrap()
}

/// The word for the right.
fn right_text(right: Right) -> &'static str
    ensures { result.now ≡ right_text right }
{
    match right {
        Right::Pull => "pull",
        Right::Push => "push",
        Right::List => "list",
        Right::Lock => "lock",
        Right::Force => "force",
    }
}

/// A rule's code, a colon, a space and the reason.
fn refusal_text(alloc: Global, rule: Rule, reason: &str) -> Result<String, AllocError>
    ensures { IfOk result (λ text. string_bytes text ≡ with_code rule reason.now) }
{
    let mut text = rule.to_string(alloc)?;
    text.push_str(": ")?;
    text.push_str(reason)?;
    Ok(text)
}

/// The message for a rule.
pub(crate) fn rule_message(alloc: Global, rule: Rule) -> Result<String, AllocError>
    ensures { IfOk result (λ text. string_bytes text ≡ rule_message rule) }
{
    refusal_text(alloc, rule, rule.reason().unwrap_or(""))
}

/// The reason for a denial by the row, or by no row.
fn row_reason(alloc: Global, row: u32, right: Right) -> Result<String, AllocError>
    ensures { IfOk result (λ text. string_bytes text ≡ row_reason row right) }
{
    if row == 0 {
        let mut text = String::from_str(alloc, "no policy row allows ")?;
        text.push_str(right_text(right))?;
        return Ok(text);
    }
    let mut text = format!(in alloc; "policy row {row}")?;
    text.push_str(" denies ")?;
    text.push_str(right_text(right))?;
    Ok(text)
}

/// The message for a denial by a policy row.
fn row_message(alloc: Global, row: u32, right: Right) -> Result<String, AllocError>
    ensures { IfOk result (λ text. string_bytes text ≡ row_message row right) }
{
    let reason = row_reason(alloc, row, right)?;
    refusal_text(alloc, Rule::P(row), reason.as_str())
}

/// A JSON object with the one text `message`.
fn message_value(alloc: Global, message: &str) -> Result<Value, AllocError>
    ensures { IfOk result (λ value. view value ≡ message_json message.now) }
{
    json!(in alloc; {"message": message})
}

/// The JSON of a message.
fn message_body(alloc: Global, message: &str) -> Result<String, AllocError>
    ensures { IfOk result (λ text. string_bytes text ≡ compact_text (message_json message.now)) }
{
    message_value(alloc, message)?.to_string(alloc)
}
