//! The desk's replies, without the lines that the connection adds.

ghost use Rattle.std.specs.Prelude.{◌≡◌};
ghost use Rattle.names.specs.declared.rules.Rule.TheVariants.{S1};
ghost use Rattle.serde_json.specs.Written.{compact_text};
ghost use Rattle.model.specs.Replies.{message_json, reply_of, rule_message};
ghost use Rattle.forms.specs.Replies.{IsAnswer};

use forms::Answer;
use http::StatusCode;
use names::{Oid, Rule, Size};
use std::alloc::{AllocError, Global};

/// The body of a reply.
#[derive(Debug, Drop)]
pub enum ReplyBody {
    /// No bytes.
    Empty,
    /// A JSON text.
    Json(String),
    /// A constant JSON text, which takes no memory: the message of the reply's rule.
    Refused(&'static str),
    /// The content of the repository's object of this name, which has this size.
    Content(Oid, Size),
}

/// The reply to a request.
#[derive(Debug, Drop)]
pub struct Reply {
    /// The status.
    pub status: StatusCode,
    /// The rule that refuses the request; `None` if it is granted. S1 is the store refusal: the store refused or memory
    /// ran out, and the connection closes after the reply.
    pub rule: Option<Rule>,
    /// The body.
    pub body: ReplyBody,
    /// `false` if an upload is refused before its content is read: the connection closes after the reply. Nothing is
    /// said of it after the store refusal.
    pub body_read: bool,
}

/// The body of the store refusal.
fn refusal_body() -> &'static str
    ensures { result.now ≡ compact_text (message_json (rule_message S1)) }
{
    "{\"message\":\"S1: the store refused\"}"
}

/// The rule that refuses, if one does.
fn rule_of(answer: &Answer<'_>) -> Option<Rule>
    ensures { (given : _) → IsAnswer answer.now given → result ≡ (reply_of given).rule }
{
    match answer {
        Answer::Denied(rule) => Some(*rule),
        Answer::DeniedByRow { row, .. } => Some(Rule::P(*row)),
        Answer::Held(_) => Some(Rule::L1),
        _ => None,
    }
}

impl Reply {
    ghost use Rattle.std.specs.Prelude.{◌≡◌, IfOk, true, Ok};
    ghost use Rattle.model.specs.World.{Object};
    ghost use Rattle.model.specs.Answers.{store_refusal, stores, confirms};
    ghost use Rattle.model.specs.Replies.{content, reply};
    ghost use Rattle.forms.specs.Replies.{IsAnswer};
    ghost use Rattle.desk.specs.Replies.{IsReply, IsReplyOf, is_refused};

    /// The store refusal (S1): the store refused or memory ran out. It takes no memory.
    pub fn store_refused() -> Reply
        ensures shows { IsReplyOf result store_refusal }
        ensures read { result.body_read ≡ true }
    {
        Reply {
            status: StatusCode::INTERNAL_SERVER_ERROR,
            rule: Some(Rule::S1),
            body: ReplyBody::Refused(refusal_body()),
            body_read: true,
        }
    }

    /// Whether this is the store refusal.
    pub fn is_store_refusal(&self) -> bool
        ensures { result ≡ is_refused self.now }
    {
        matches!(self.rule, Some(Rule::S1))
    }

    /// Builds the reply for the answer.
    ///
    /// # Errors
    ///
    /// Fails only if memory runs out.
    pub(crate) fn telling(alloc: Global, answer: &Answer<'_>) -> Result<Reply, AllocError>
        ensures { IfOk result
            (λ reply. (given : _) → IsAnswer answer.now given → IsReplyOf reply given) }
    {
        let text = answer.body(alloc)?;
        Ok(Reply {
            status: answer.status(),
            rule: rule_of(answer),
            body: ReplyBody::Json(text),
            body_read: true,
        })
    }

    /// The reply to an upload that was stored, or to an object that was verified: 200, with no body.
    pub(crate) fn confirmation() -> Reply
        ensures stored { (o : Object) → IsReplyOf result (Ok (stores o)) }
        ensures confirmed { IsReplyOf result (Ok confirms) }
        ensures read { result.body_read ≡ true }
    {
        Reply {
            status: StatusCode::OK,
            rule: None,
            body: ReplyBody::Empty,
            body_read: true,
        }
    }

    /// The reply with the content of the object of this name, which has this size: 200.
    pub(crate) fn content(name: Oid, size: Size) -> Reply
        ensures { IsReply result (reply 200 (content name size)) }
    {
        Reply {
            status: StatusCode::OK,
            rule: None,
            body: ReplyBody::Content(name, size),
            body_read: true,
        }
    }

    /// The same reply, which says whether the body of the request was read.
    pub(crate) fn with_body_read(self, body_read: bool) -> Reply
        ensures { result ≡ record self { body_read = body_read } }
    {
        Reply { body_read, ..self }
    }
}
