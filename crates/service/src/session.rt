//! A connection, message by message.

ghost use Rattle.std.specs.Prelude.{◌≡◌, ◌≢◌, ◌≤◌, ◌+◌, ℕ, List, [], length};
ghost use Rattle.std.specs.Io.KnownBytes.{Consumes, IsAtEnd};
ghost use Rattle.names.specs.Streams.{HasGrown, most_counted};
ghost use Rattle.refinement.specs.Left.{From};
ghost use Rattle.policy.specs.Values.{policy_view};
ghost use Rattle.desk.specs.Asking.{setting_of};
ghost use Rattle.desk.specs.Done.{StaysWithin};
ghost use Rattle.wire.specs.Connections.{waiting, weight};
ghost use Rattle.wire.specs.States.{source_of, IsOpen};
ghost use Rattle.service.specs.Later.{IsServedBut, ServesBut};
ghost use Rattle.service.specs.Served.{IsRefusal, IsCountedAs, Serves, closing};

use crate::ends::{Begun, End, Served};
use crate::sending::send_reply;
use crate::turn::{Setting, take_turn};
use desk::Reply;
use downloads::Download;
use names::{Moment, Sink, Source};
use policy::Policy;
use routes::Routes;
use std::alloc::Global;
use store::Store;
use wire::Conn;

/// Answers the messages of the connection in order, up to its end or to a reply that closes it.
fn answer_all<S: Store, R: Source + Drop, K: Sink>(
    store: &mut S,
    setting: &Setting<'_>,
    conn: &mut Conn<R>,
    sink: &mut K,
    later: &mut Option<Download>,
) -> Served
    requires open { IsOpen conn.old }
    requires fresh { waiting conn.old ≡ [] }
    requires none { later.old ≡ None }
    ensures same_reference { R.reference (source_of conn.new) ≡ R.reference (source_of conn.old) }
    ensures input_ended { result.end ≡ End.InputEnded → IsAtEnd (R.left (source_of conn.new)) }
    ensures read_failed { result.end ≡ End.ReadFailed
        → HasGrown (R.failed (source_of conn.old)) (R.failed (source_of conn.new)) }
    ensures no_fault { result.end ≢ End.ReadFailed
        → R.failed (source_of conn.new) ≡ R.failed (source_of conn.old) }
    ensures counted { IsCountedAs (K.failed sink.old) (K.failed sink.new) result.end }
    ensures served { From S.State store.old store.new (λ world. (bytes : List ℕ)
        × Consumes (R.left (source_of conn.old)) (R.left (source_of conn.new)) bytes
        × IsServedBut S.State (setting_of setting.entry.now.policy.now setting.entry.now.now) bytes world
        store.old store.new (K.taken sink.old) (K.taken sink.new) later.new result) }
{
    let mut answered = 0;
    'messages: loop {
        match take_turn(store, setting, conn, sink, later) {
            None => answered += 1,
            Some(end) => {
                return Served {
                    answered: answered + closing(end),
                    end,
                };
            }
        }
    }
}

/// The number of replies in the turn that ends a connection.
fn closing(end: End) -> usize
    ensures { result ≡ closing end }
{
    match end {
        End::Closed | End::StoreRefused => 1,
        End::InputEnded | End::ReadFailed | End::WriteFailed | End::StoreFailed => 0,
    }
}

/// Writes the store refusal; used if there is no memory for the connection.
fn refuse_all<K: Sink>(sink: &mut K) -> Served
    ensures counted { IsCountedAs (K.failed sink.old) (K.failed sink.new) result.end }
    ensures known { result.end ≢ End.ReadFailed }
    ensures refusal { IsRefusal (K.taken sink.old) (K.taken sink.new) result }
{
    match send_reply(sink, &Reply::store_refused(), "", true) {
        Ok(()) => Served {
            answered: 1,
            end: End::StoreRefused,
        },
        Err(_) => Served {
            answered: 0,
            end: End::WriteFailed,
        },
    }
}

/// Serves a connection under a setting.
fn serve_by<S: Store, R: Source, K: Sink>(
    store: &mut S,
    setting: &Setting<'_>,
    source: &mut R,
    sink: &mut K,
    later: &mut Option<Download>,
) -> Served
    requires { later.old ≡ None }
    ensures session { From S.State store.old store.new (λ world. ServesBut S.State
        (record {
          setting = setting_of setting.entry.now.policy.now setting.entry.now.now;
          left = R.left source.old;
          rest = R.left source.new;
          failed_before = R.failed source.old;
          failed_after = R.failed source.new;
          was = K.taken sink.old;
          is = K.taken sink.new;
        }) world store.old store.new later.new result) }
    ensures input_ended { result.end ≡ End.InputEnded → IsAtEnd (R.left source.new) }
    ensures no_fault { result.end ≢ End.ReadFailed → R.failed source.new ≡ R.failed source.old }
    ensures read_failed { result.end ≡ End.ReadFailed
        → HasGrown (R.failed source.old) (R.failed source.new) }
    ensures counted { IsCountedAs (K.failed sink.old) (K.failed sink.new) result.end }
{
    let mut conn = match Conn::new(setting.alloc, source) {
        Ok(conn) => conn,
        Err((_, _source)) => return refuse_all(sink),
    };
    let served = answer_all(store, setting, &mut conn, sink, later);
    let _source = conn.into_source();
    served
}

/// Serves a connection: answers the messages of the source in order, all at the moment `now`, and
/// writes each reply before it reads further.
///
/// The connection takes its memory once, for the longest head, and for each message the size of its
/// body. It closes after a refused head, after a store refusal, and after a message that asks for it.
/// A message that the end of the input or a failed read cuts off gets no reply. If the store fails within the
/// content of an object, the connection ends there. If there is no memory for the connection, only the store
/// refusal is written, nothing is read, and nothing changes.
///
/// The new contents of the store and the text written follow from the messages, step by step, whatever
/// came before. What a stop leaves follows from the same steps: after a reply to a change, only the
/// world with that change is left. A user's view of a repository changes only if a message asks about
/// that repository. A repository within its quota then has at most its quota and one largest object in the database,
/// also in what a stop leaves.
pub fn serve<S: Store, R: Source, K: Sink>(
    alloc: Global,
    store: &mut S,
    policy: &Policy,
    routes: &Routes,
    now: Moment,
    source: &mut R,
    sink: &mut K,
) -> Served
    ensures session { From S.State store.old store.new (λ world. Serves S.State
        (record {
          setting = setting_of policy.entry.now now;
          left = R.left source.old;
          rest = R.left source.new;
          failed_before = R.failed source.old;
          failed_after = R.failed source.new;
          was = K.taken sink.old;
          is = K.taken sink.new;
        }) world store.old store.new result) }
    ensures bounded { From S.State store.old store.new
        (StaysWithin S.State store.old store.new (policy_view policy.entry.now)) }
    ensures input_ended { result.end ≡ End.InputEnded → IsAtEnd (R.left source.new) }
    ensures no_fault { result.end ≢ End.ReadFailed → R.failed source.new ≡ R.failed source.old }
    ensures read_failed { result.end ≡ End.ReadFailed
        → HasGrown (R.failed source.old) (R.failed source.new) }
    ensures counted { IsCountedAs (K.failed sink.old) (K.failed sink.new) result.end }
{
    let setting = Setting {
        alloc,
        policy,
        routes,
        now,
        defers: false,
    };
    let mut later = None;
    serve_by(store, &setting, source, sink, &mut later)
}

/// Serves a connection as [`serve`] does, but for the content of an object, which the caller sends: then the connection ends
/// so far with `StoreFailed`, and its last reply is whole with that content.
pub fn begin<S: Store, R: Source, K: Sink>(
    alloc: Global,
    store: &mut S,
    policy: &Policy,
    routes: &Routes,
    now: Moment,
    source: &mut R,
    sink: &mut K,
) -> Begun
    ensures session { From S.State store.old store.new (λ world. ServesBut S.State
        (record {
          setting = setting_of policy.entry.now now;
          left = R.left source.old;
          rest = R.left source.new;
          failed_before = R.failed source.old;
          failed_after = R.failed source.new;
          was = K.taken sink.old;
          is = K.taken sink.new;
        }) world store.old store.new result.later result.served) }
    ensures bounded { From S.State store.old store.new
        (StaysWithin S.State store.old store.new (policy_view policy.entry.now)) }
    ensures input_ended { result.served.end ≡ End.InputEnded → IsAtEnd (R.left source.new) }
{
    let setting = Setting {
        alloc,
        policy,
        routes,
        now,
        defers: true,
    };
    let mut later = None;
    let served = serve_by(store, &setting, source, sink, &mut later);
    Begun { served, later }
}
