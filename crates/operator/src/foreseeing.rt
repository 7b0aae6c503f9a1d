//! Foresees the reply to a request of a user.

ghost use Rattle.std.specs.Prelude.{◌≡◌, ℕ, List, IfErr, IfOk, OnOk, MatchResult};
ghost use Rattle.std.specs.Io.KnownBytes.{Appends};
ghost use Rattle.refinement.specs.Left.{Reads};
ghost use Rattle.operator.specs.Foresights.{Foretells, HasForetold, IsReplyFault};
ghost use Rattle.operator.specs.Printed.{PrintsForeseen, reply_lines};
ghost use Rattle.operator.specs.Tasks.{IsForesightFault};
ghost use Rattle.operator.specs.Texts.{text_of};

use crate::escapes::{Destination, shown};
use crate::faults::TaskFault;
use crate::lines::{content_line, reply_line};
use crate::output::Lines;
use desk::{Reply, ReplyBody, RepoRequest, foresee, view};
use names::{Moment, RepoName, Sink, UserName};
use policy::Policy;
use std::alloc::{AllocError, Global};
use store::Store;

/// A request whose reply is foreseen.
#[derive(Clone, Copy, Debug)]
pub struct Foresight<'a> {
    /// The policy by which it is answered.
    pub policy: &'a Policy,
    /// Whose request it is.
    pub user: &'a UserName,
    /// The repository that it asks about.
    pub repo: &'a RepoName,
    /// When it is answered.
    pub now: Moment,
    /// What is asked.
    pub request: RepoRequest<'a>,
    /// The body: of an upload, its content.
    pub body: &'a [u8],
}

/// The reply that the user would get.
fn reply_to<S: Store>(
    alloc: Global,
    store: &mut S,
    asked: &Foresight<'_>,
) -> Result<Reply, TaskFault>
    ensures reads { Reads S.State store.old store.new (λ world.
        Foretells world asked.entry.now result) }
    ensures err { IfErr result IsReplyFault }
{
    let view = view(alloc, store, asked.policy, asked.user, asked.repo)?;
    let reply = foresee(alloc, &view, asked.now, &asked.request, asked.body)?;
    Ok(reply)
}

/// The lines of the reply.
fn lines_of(alloc: Global, reply: &Reply, destination: Destination) -> Result<Lines, AllocError>
    ensures { IfOk result (λ lines. text_of lines ≡ reply_lines destination reply.now) }
{
    let mut lines = Lines::new(alloc);
    lines.push(reply_line(alloc, reply)?.as_bytes())?;
    match &reply.body {
        ReplyBody::Empty => {}
        ReplyBody::Json(text) => {
            lines.push(shown(alloc, text.as_bytes(), destination)?.as_slice())?
        }
        ReplyBody::Refused(text) => lines.push(text.as_bytes())?,
        ReplyBody::Content(name, size) => {
            lines.push(content_line(alloc, *name, *size)?.as_bytes())?
        }
    }
    Ok(lines)
}

/// Prints the reply that the user would get to the request: its status and the rule that refuses it, and then its body, or
/// the name and the size of the object that it sends. Nothing is changed. If it succeeds, a reply is foreseen.
///
/// # Errors
///
/// `NoCaller` if the request presents no valid token of the user for the repository; `Store` and `Memory`; and `Output` if a
/// line could not be written.
pub(crate) fn print_foreseen<S: Store, K: Sink>(
    alloc: Global,
    store: &mut S,
    asked: &Foresight<'_>,
    destination: Destination,
    output: &mut K,
) -> Result<(), TaskFault>
    ensures reads { Reads S.State store.old store.new (λ world. MatchResult result
        (λ _. HasForetold world asked.entry.now) (IsForesightFault world asked.entry.now)) }
    ensures printed { Reads S.State store.old store.new (λ world. OnOk result ((text : List ℕ)
        × PrintsForeseen destination world asked.entry.now text
        × Appends (K.taken output.old) (K.taken output.new) text)) }
    ensures good { OnOk result (K.failed output.new ≡ K.failed output.old) }
{
    let reply = reply_to(alloc, store, asked)?;
    lines_of(alloc, &reply, destination)?.write(output)
}
