//! One message: reads it from the connection, answers it, and writes the reply.

ghost use Rattle.std.specs.Prelude.{◌≡◌, ◌≢◌, ◌≤◌, ◌<◌, ◌++◌, ℕ, List, length, Some, None};
ghost use Rattle.std.specs.Io.KnownBytes.{Consumes, IsAtEnd};
ghost use Rattle.names.specs.Streams.{HasGrown};
ghost use Rattle.names.specs.Texts.{last_moment};
ghost use Rattle.model.specs.Answers.{Answer};
ghost use Rattle.refinement.specs.Left.{From, Reads};
ghost use Rattle.desk.specs.Asking.{setting_of};
ghost use Rattle.desk.specs.Replies.{IsReplyOf, is_refused};
ghost use Rattle.service.specs.Sending.{IsThere};
ghost use Rattle.wire.specs.Connections.{waiting, weight};
ghost use Rattle.wire.specs.States.{source_of, IsOpen};
ghost use Rattle.service.specs.Later.{EndsTurnBut, IsSentBut};
ghost use Rattle.service.specs.Turns.{IsSent, EndsReply, IsCounted};

use crate::ends::End;
use crate::responding::{Response, next_response};
use crate::sending::{SendFault, deferred, send, send_reply};
use downloads::Download;
use names::{ALLOW_LIMIT, Moment, Sink, Source};
use policy::Policy;
use routes::Routes;
use std::alloc::Global;
use store::Store;
use wire::Conn;

/// What serves a connection: the policy, the routes, and the moment at which it came.
#[derive(Clone, Copy)]
pub(crate) struct Setting<'a> {
    pub alloc: Global,
    pub policy: &'a Policy,
    pub routes: &'a Routes,
    pub now: Moment,
    /// Whether the content of an object is left to the caller, who sends it later.
    pub defers: bool,
    pub ghost in_range: { now ≤ last_moment },
}

/// Writes the response. Returns why the connection ends after it; `None` if it goes on.
pub(crate) fn deliver<S: Store, K: Sink>(
    store: &mut S,
    sink: &mut K,
    response: &Response<'_>,
) -> Option<End>
    requires { length response.now.allow.now ≤ ALLOW_LIMIT }
    ensures sent { Reads S.State store.old store.new (λ world. (given : Answer)
        → IsReplyOf response.now.reply given → IsThere world response.now.repo given
        → IsSent (K.taken sink.old) (K.taken sink.new) given response.now.allow.now
        response.now.close result) }
    ensures ends { EndsReply response.now.close (is_refused response.now.reply) result }
    ensures counted { IsCounted (K.failed sink.old) (K.failed sink.new) result }
{
    match send(store, sink, response) {
        Ok(()) if !response.close => None,
        Ok(()) if response.reply.is_store_refusal() => Some(End::StoreRefused),
        Ok(()) => Some(End::Closed),
        Err(SendFault::Sink) => Some(End::WriteFailed),
        Err(SendFault::Store) => Some(End::StoreFailed),
    }
}

/// Writes the response, but for the content of an object if the caller sends that later.
fn deliver_or_defer<S: Store, K: Sink>(
    store: &mut S,
    sink: &mut K,
    response: &Response<'_>,
    setting: &Setting<'_>,
    later: &mut Option<Download>,
) -> Option<End>
    requires short { length response.now.allow.now ≤ ALLOW_LIMIT }
    requires none { later.old ≡ None }
    ensures sent { Reads S.State store.old store.new (λ world. (given : Answer)
        → IsReplyOf response.now.reply given → IsThere world response.now.repo given
        → IsSentBut (K.taken sink.old) (K.taken sink.new) world given response.now.allow.now
        response.now.close later.new result) }
    ensures ends { EndsReply response.now.close (is_refused response.now.reply) result }
    ensures counted { IsCounted (K.failed sink.old) (K.failed sink.new) result }
    ensures last { result ≡ None → later.new ≡ None }
{
    let Some(download) = deferred(setting.alloc, setting.defers, response) else {
        return deliver(store, sink, response);
    };
    // A content in rows is sent in the turn.
    if download.next(setting.alloc, store, 1).is_none() {
        return deliver(store, sink, response);
    }
    match send_reply(sink, &response.reply, response.allow, response.close) {
        Ok(()) => {
            *later = Some(download);
            Some(End::StoreFailed)
        }
        Err(_) => Some(End::WriteFailed),
    }
}

/// Answers the next message of the connection and writes the reply. Returns why the connection ends
/// after it; `None` if it goes on. If the content of an object is sent later, `later` has the object, and the connection
/// ends so far as if the store had failed at the first byte of the content.
pub(crate) fn take_turn<S: Store, R: Source + Drop, K: Sink>(
    store: &mut S,
    setting: &Setting<'_>,
    conn: &mut Conn<R>,
    sink: &mut K,
    later: &mut Option<Download>,
) -> Option<End>
    requires open { IsOpen conn.old }
    requires none { later.old ≡ None }
    ensures open { result ≡ None → IsOpen conn.new }
    ensures lighter { result ≡ None → weight conn.new < weight conn.old }
    ensures same_reference { R.reference (source_of conn.new) ≡ R.reference (source_of conn.old) }
    ensures input_ended { result ≡ Some End.InputEnded → IsAtEnd (R.left (source_of conn.new)) }
    ensures read_failed { result ≡ Some End.ReadFailed
        → HasGrown (R.failed (source_of conn.old)) (R.failed (source_of conn.new)) }
    ensures no_fault { result ≢ Some End.ReadFailed
        → R.failed (source_of conn.new) ≡ R.failed (source_of conn.old) }
    ensures counted { IsCounted (K.failed sink.old) (K.failed sink.new) result }
    ensures last { result ≡ None → later.new ≡ None }
    ensures turn { From S.State store.old store.new (λ world. (read : List ℕ)
        × Consumes (R.left (source_of conn.old)) (R.left (source_of conn.new)) read
        × EndsTurnBut S.State (setting_of setting.entry.now.policy.now setting.entry.now.now)
        (waiting conn.old ++ read) (waiting conn.new) world
        store.old store.new (K.taken sink.old) (K.taken sink.new) later.new result) }
{
    match next_response(setting.alloc, store, setting, conn) {
        Ok(response) => deliver_or_defer(store, sink, &response, setting, later),
        Err(end) => Some(end),
    }
}
