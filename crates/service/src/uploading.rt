//! An upload whose content arrives between the turns of others.
//!
//! A server that reads a long content in one call keeps everybody else waiting meanwhile. Here the content is taken in pieces,
//! and between two of them the store may be used for others, as long as what is staged of this upload is left as it is:
//!
//! ```text
//! begin_upload   the head is judged; the first bytes of the content are staged
//! Upload::take   the next bytes are staged, as often as some arrive
//! Upload::end    all have arrived: the request is judged again, the object is stored, the reply is written
//! ```
//!
//! The exchange of the definitions is the last of these: it answers the whole message, in the world of that call, at the
//! moment of the head. So the judgement at the head takes no step, and nothing has to hold still in between: if the token
//! is removed meanwhile, or the name is retired, the reply says so. An upload that is dropped leaves no trace in any world;
//! what is staged of it is removed by the next upload of its repository, or by [`uploads::sweep`].

ghost use Rattle.std.specs.Prelude.{◌≡◌, ◌+◌, ◌++◌, ℕ, List, IfSome, OnOk, [], length};
ghost use Rattle.httparse.specs.Grammar.{RequestHead};
ghost use Rattle.model.specs.Policy as model;
ghost use Rattle.model.specs.Stream.{BeginsWithHead};
ghost use Rattle.refinement.specs.Left.{From, Keeps};
ghost use Rattle.policy.specs.Values.{policy_view};
ghost use Rattle.desk.specs.Asking.{setting_of};
ghost use Rattle.desk.specs.Done.{StaysWithin};
ghost use Rattle.wire.specs.Fields.{Shows};
ghost use Rattle.service.specs.Turns.{IsCounted};
ghost use Rattle.service.specs.Uploads.{IsPutAnswered, IsPutHead, IsUnderWay, content_left, moment_of};

use crate::ends::End;
use crate::message::{read_head, read_request};
use crate::responding::{named, response_with};
use crate::turn::deliver;
use crate::underway::{PutHead, Upload};
use desk::{Terms, finish};
use httparse::spans::EMPTY_HEADER_SPAN;
use model::Form;
use names::Sink;
use policy::Policy;
use routes::Routes;
use std::alloc::Global;
use store::Store;
use tables::StoreFault;
use wire::{Cut, FIELD_LIMIT, Head, first_head, front_of};

/// The head of an upload, which these bytes follow; `None` if it is none, or if a rule refuses it.
fn put_of<'a>(
    alloc: Global,
    routes: &Routes,
    head: &Head<'_>,
    part: &'a [u8],
) -> Option<PutHead<'a>>
    ensures { (bytes : List ℕ) (h : RequestHead) → Shows head.now h
        → BeginsWithHead bytes h part.now → IfSome result (IsPutHead bytes) }
{
    let asked = read_head(alloc, routes, head).ok()?;
    if !matches!(asked.form, Form::Put) {
        return None;
    }
    let request = read_request(alloc, &asked, &[]).ok()?;
    if request.is_err() {
        return None;
    }
    Some(PutHead {
        asked,
        request,
        part,
    })
}

/// The head of an upload at the front of the bytes; `None` if there is none, or if a rule refuses it.
fn put_in<'a>(alloc: Global, routes: &Routes, bytes: &'a [u8]) -> Option<PutHead<'a>>
    ensures { IfSome result (IsPutHead bytes.now) }
{
    let mut fields = [EMPTY_HEADER_SPAN; FIELD_LIMIT];
    match first_head(bytes, &mut fields) {
        Cut::Head(spans) => {
            let head = Head::new(front_of(bytes), &fields, spans);
            put_of(alloc, routes, &head, &bytes[spans.len..])
        }
        Cut::Bad | Cut::Unfinished => None,
    }
}

/// Begins an upload, of whose message these bytes have arrived: its head, and a part of its content or all of it. The rest
/// is received by [`Upload::take`], and the message is answered by [`Upload::end`].
///
/// `None` if the bytes are no such message, or if a rule refuses it at its head: then [`begin`](crate::begin) answers it. Also
/// if the store refused, or memory ran out; a part of the content may be staged then.
pub fn begin_upload<S: Store>(
    alloc: Global,
    store: &mut S,
    terms: Terms<'_>,
    routes: &Routes,
    bytes: &[u8],
) -> Option<Upload>
    ensures kept { From S.State store.old store.new (Keeps S.State store.old store.new) }
    ensures bounded { From S.State store.old store.new
        (StaysWithin S.State store.old store.new (policy_view terms.entry.policy.now)) }
    ensures moment { IfSome result (λ u. moment_of u ≡ terms.entry.moment) }
    ensures begun { IfSome result (λ u. From S.State store.old store.new (λ world.
        IsUnderWay S.State store.new u bytes.now)) }
{
    let Terms { policy, moment } = terms;
    let PutHead {
        asked,
        request,
        part,
    } = put_in(alloc, routes, bytes)?;
    let wanted = asked.to_desk(&request);
    let terms = Terms { policy, moment };
    let mut receiving = desk::begin_upload(alloc, store, terms, &wanted, asked.size)?;
    receiving.take(store, part).ok()?;
    Some(Upload {
        asked,
        request,
        receiving,
        moment,
    })
}

impl Upload {
    /// How many bytes of its content have not arrived.
    pub fn left(&self) -> u64
        ensures { result ≡ content_left self.now }
    {
        self.receiving.left()
    }

    /// Takes the next bytes of its message.
    ///
    /// # Errors
    ///
    /// A [`StoreFault`]; `Refused` also for more bytes than are left. The upload cannot go on then, and a part of it may be
    /// staged.
    pub fn take<S: Store>(&mut self, store: &mut S, piece: &[u8]) -> Result<(), StoreFault>
        ensures taken { From S.State store.old store.new (λ world. (bytes : List ℕ)
            → IsUnderWay S.State store.old self.old bytes → Keeps S.State store.old store.new world
            × OnOk result (IsUnderWay S.State store.new self.new (bytes ++ piece.now))) }
        ensures bounded { From S.State store.old store.new (λ world. (bytes : List ℕ)
            → IsUnderWay S.State store.old self.old bytes → (policy : model.Policy)
            → StaysWithin S.State store.old store.new policy world) }
        ensures moment { moment_of self.new ≡ moment_of self.old }
    {
        self.receiving.take(store, piece)
    }

    /// Answers the message, all of which has arrived, and writes the reply. The request is judged again, by the policy under
    /// which it was begun, at the moment of its head, and in the world of now. Returns why the connection ends after it;
    /// `None` if it goes on.
    pub fn end<S: Store, K: Sink>(
        self,
        alloc: Global,
        store: &mut S,
        policy: &Policy,
        sink: &mut K,
    ) -> Option<End>
        ensures ended { From S.State store.old store.new (λ world. (bytes : List ℕ)
            → IsUnderWay S.State store.old self bytes → content_left self ≡ 0
            → IsPutAnswered S.State (setting_of policy.entry.now (moment_of self)) bytes world
            store.old store.new (K.taken sink.old) (K.taken sink.new) result) }
        ensures bounded { From S.State store.old store.new (λ world. (bytes : List ℕ)
            → IsUnderWay S.State store.old self bytes → content_left self ≡ 0
            → StaysWithin S.State store.old store.new (policy_view policy.entry.now) world) }
        ensures counted { IsCounted (K.failed sink.old) (K.failed sink.new) result }
    {
        let Upload {
            asked,
            request,
            receiving,
            moment,
        } = self;
        let wanted = asked.to_desk(&request);
        let reply = finish(alloc, store, Terms { policy, moment }, &wanted, receiving);
        let repo = named(policy, asked.repo.as_str());
        let response = response_with(&asked, &request, repo, reply);
        deliver(store, sink, &response)
    }
}
