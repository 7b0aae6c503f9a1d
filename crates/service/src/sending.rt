//! Writes a reply to a connection (RFC 9112, Message Format).

ghost use Rattle.std.specs.Prelude.{◌≡◌, ◌≢◌, ◌≤◌, ℕ, List, [], length, Err, OnOk, IfErr, IfSome};
ghost use Rattle.std.specs.Io.KnownBytes.{Appends};
ghost use Rattle.names.specs.Streams.{HasGrown, IsBeginning};
ghost use Rattle.model.specs.Answers.{Answer};
ghost use Rattle.model.specs.Replies as model;
ghost use Rattle.model.specs.Replies.{reply_of, content_of, type_line, body_size, body_text, head_text};
ghost use Rattle.wire.specs.Replies.{type_of, head_of};
ghost use Rattle.tables.specs.Staging.{upload_number};
ghost use Rattle.refinement.specs.Left.{Reads};
ghost use Rattle.refinement.specs.Staging.{Stores};
ghost use Rattle.desk.specs.Replies.{IsReply, IsReplyOf, body_seen};
ghost use Rattle.service.specs.Later.{IsDeferred};
ghost use Rattle.service.specs.Sending.{front_text, IsThere, Writes, EndsContent, Sends};

use crate::responding::Response;
use chunks::{PourCause, pour};
use desk::{Reply, ReplyBody};
use downloads::Download;
use names::{ALLOW_LIMIT, RepoName, Sink, WriteFault};
use std::alloc::Global;
use store::Store;
use tables::ObjectRow;
use uploads::find;
use wire::{Content, ReplyHead, write_reply};

/// Why a reply was not written to its end.
#[derive(Clone, Copy, Debug, PartialEq, Eq)]
pub(crate) enum SendFault {
    /// A write failed.
    Sink,
    /// The store failed within the content of an object.
    Store,
}

/// The kind of a body.
fn kind_of(body: &ReplyBody) -> Content
    ensures { type_of result ≡ type_line (body_seen body.now) }
{
    match body {
        ReplyBody::Empty => Content::Empty,
        ReplyBody::Json(_) | ReplyBody::Refused(_) => Content::Json,
        ReplyBody::Content(..) => Content::Octets,
    }
}

/// The number of bytes of a body.
fn length_of(body: &ReplyBody) -> u64
    ensures { result ≡ body_size (body_seen body.now) }
{
    match body {
        ReplyBody::Empty => 0,
        ReplyBody::Json(text) => text.len() as u64,
        ReplyBody::Refused(text) => text.len() as u64,
        ReplyBody::Content(_, size) => size.get(),
    }
}

/// The bytes of a body that are in memory: all of a JSON text, and none of an object's content.
fn bytes_of(body: &ReplyBody) -> &[u8]
    ensures { result.now ≡ body_text (body_seen body.now) [] }
{
    match body {
        ReplyBody::Json(text) => text.as_str().as_bytes(),
        ReplyBody::Refused(text) => text.as_bytes(),
        ReplyBody::Empty | ReplyBody::Content(..) => &[],
    }
}

/// The head of a reply.
fn head_for<'a>(reply: &Reply, allow: &'a str, close: bool) -> ReplyHead<'a>
    ensures allow { result.allow.now ≡ allow.now }
    ensures text { (r : model.Reply) → IsReply reply.now r → head_of result ≡ head_text r allow.now close }
{
    ReplyHead {
        status: reply.status,
        content: kind_of(&reply.body),
        size: length_of(&reply.body),
        allow,
        close,
    }
}

/// Writes a reply: its head, and its body unless that is the content of an object, which is left to the caller. `allow`
/// is the list of methods to name, empty unless the rule is H7; `close` says whether the server closes the connection
/// after the reply.
///
/// # Errors
///
/// A [`WriteFault`] at the first failed write: the sink took a prefix of the text.
pub fn send_reply<K: Sink>(
    sink: &mut K,
    reply: &Reply,
    allow: &str,
    close: bool,
) -> Result<(), WriteFault>
    requires { length allow.now ≤ ALLOW_LIMIT }
    ensures ok { OnOk result ((r : model.Reply) → IsReply reply.now r
        → Appends (K.taken sink.old) (K.taken sink.new) (front_text r allow.now close)) }
    ensures good { OnOk result (K.failed sink.new ≡ K.failed sink.old) }
    ensures part { IfErr result (λ e. (r : model.Reply) → IsReply reply.now r
        → IsBeginning (K.taken sink.old) (K.taken sink.new) (front_text r allow.now close) e.written) }
    ensures fault { IfErr result (λ _. HasGrown (K.failed sink.old) (K.failed sink.new)) }
{
    let head = head_for(reply, allow, close);
    write_reply(sink, &head, bytes_of(&reply.body))
}

/// The result after the store gave all that it has of a content of this size, or failed: it is no error if all of
/// the bytes were written.
fn expect_whole(written: u64, size: u64) -> Result<(), SendFault>
    ensures { EndsContent written size result }
{
    if written == size {
        Ok(())
    } else {
        Err(SendFault::Store)
    }
}

/// Writes the content of an object that was found.
fn send_object<S: Store, K: Sink>(
    store: &mut S,
    sink: &mut K,
    row: &ObjectRow,
) -> Result<(), SendFault>
    ensures content { Reads S.State store.old store.new (λ _. (bytes : List ℕ)
        → Stores S.State store.old (upload_number row.now.id) bytes → row.now.size ≡ length bytes
        → Writes bytes (K.taken sink.old) (K.taken sink.new) result) }
    ensures good { result ≢ Err SendFault.Sink → K.failed sink.new ≡ K.failed sink.old }
    ensures fault { result ≡ Err SendFault.Sink → HasGrown (K.failed sink.old) (K.failed sink.new) }
{
    match pour(store, row.id, sink) {
        Ok(written) => expect_whole(written, row.size.get()),
        Err(fault) => match fault.cause {
            PourCause::Device => Err(SendFault::Sink),
            PourCause::Store(_) => expect_whole(fault.written, row.size.get()),
        },
    }
}

/// The object of which the response has the content, for a caller that sends it later; `None` if the body is no content or an
/// empty one, if the caller sends none later, or if memory runs out.
pub(crate) fn deferred(alloc: Global, defers: bool, response: &Response<'_>) -> Option<Download>
    ensures { IfSome result (λ d. IsDeferred d response.now.repo response.now.reply.body response.now.close) }
{
    let ReplyBody::Content(name, size) = &response.reply.body else {
        return None;
    };
    if !defers || size.get() == 0 {
        return None;
    }
    let repo = response.repo?.to_owned(alloc).ok()?;
    Some(Download::new(repo, *name, *size, response.close))
}

/// Writes the content of an object of the repository, if the body is one.
fn send_content<S: Store, K: Sink>(
    store: &mut S,
    repo: Option<&RepoName>,
    sink: &mut K,
    body: &ReplyBody,
) -> Result<(), SendFault>
    ensures content { Reads S.State store.old store.new (λ world. (given : Answer)
        → body_seen body.now ≡ (reply_of given).body → IsThere world repo.entry given
        → Writes (content_of given) (K.taken sink.old) (K.taken sink.new) result) }
    ensures good { result ≢ Err SendFault.Sink → K.failed sink.new ≡ K.failed sink.old }
    ensures fault { result ≡ Err SendFault.Sink → HasGrown (K.failed sink.old) (K.failed sink.new) }
{
    let ReplyBody::Content(name, size) = body else {
        return Ok(());
    };
    let Some(repo) = repo else {
        return expect_whole(0, size.get());
    };
    match find(store, repo, name) {
        Ok(Some(row)) => send_object(store, sink, &row),
        Ok(None) | Err(_) => expect_whole(0, size.get()),
    }
}

/// Writes a reply, and the content of an object of the repository if the reply sends one. `allow` and `close` as for
/// [`send_reply`].
///
/// # Errors
///
/// `Sink` at the first failed write: the sink took a prefix of the text. `Store` if the store failed within
/// the content of an object: the sink took the head and a prefix of the content, not all of it.
pub(crate) fn send<S: Store, K: Sink>(
    store: &mut S,
    sink: &mut K,
    response: &Response<'_>,
) -> Result<(), SendFault>
    requires { length response.now.allow.now ≤ ALLOW_LIMIT }
    ensures sends { Reads S.State store.old store.new (λ world. (given : Answer)
        → IsReplyOf response.now.reply given → IsThere world response.now.repo given
        → Sends given response.now.allow.now response.now.close (K.taken sink.old) (K.taken sink.new) result) }
    ensures good { result ≢ Err SendFault.Sink → K.failed sink.new ≡ K.failed sink.old }
    ensures fault { result ≡ Err SendFault.Sink → HasGrown (K.failed sink.old) (K.failed sink.new) }
{
    let reply = &response.reply;
    match send_reply(sink, reply, response.allow, response.close) {
        Ok(()) => send_content(store, response.repo, sink, &reply.body),
        Err(_) => Err(SendFault::Sink),
    }
}
