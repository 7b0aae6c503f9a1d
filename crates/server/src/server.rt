//! A server over an open store: it does what those who call it ask for, one after the other.

ghost use Rattle.std.specs.Prelude.{◌≡◌, ◌≤◌, ◌+◌, [], if◌then◌else◌, List, Some, Ok, Err, false, IfNone, IfOk, IfSome, OnErr};
ghost use Rattle.std.specs.Bool.{OnTrue};
ghost use Rattle.refinement.specs.Left.{From};
ghost use Rattle.server.specs.Commands.{IsAnswered};
ghost use Rattle.server.specs.Jobs.{Call, Calls, HasFinished, Helps, IsClientServed, IsTurn, Job, Serves, ServesClean, Tidies, first_state, first_turn, has_stopped, seen_in, server_state};
ghost use Rattle.transfers.specs.Transfers.{IsNumberOf, owed_in};
ghost use Rattle.faults.specs.Statuses.{is_reported};
ghost use Rattle.faults.specs.declared.faults.Fault.TheVariants.{Contents};
ghost use Rattle.faults.specs.declared.contents_cause.ContentsCause.TheVariants.{Failed};
ghost use Rattle.machine.specs.Observations.{called};

use crate::operators::OperatorContext;
use crate::outcomes::Outcome;
use crate::turns::TurnContext;
use crate::waiting::Waiting;
use faults::{ContentsCause, Fault, is_good, print_fault};
use machine::{Machine, Talked};
use metrics::Counts;
use outbox::OperatorStream;
use policy::Policy;
use service::{End, Routes};
use sockets::{Caller, Cause, Client, Ended};
use std::alloc::Global;
use std::io::{self, Write};
use std::time::{Clock, Duration, Instant};
use store::Store;
use transfers::{Due, Transfer, Transfers};

/// What a server serves with.
#[derive(Drop)]
pub struct Server<'a, C> {
    /// The memory for messages and replies.
    pub alloc: Global,
    /// The routes of requests.
    pub routes: &'a Routes,
    /// The clock that says how long a client within a message is waited for.
    pub clock: &'a C,
}

/// How a server ended.
#[derive(Drop)]
pub struct Finish {
    /// How many connections were served.
    pub connections: u64,
    /// The operator who stopped the server; `None` if it has served as many connections as it was to serve. He waits until
    /// this is dropped.
    pub stopped_by: Option<OperatorStream>,
}

/// What a server notes of its turns.
#[derive(Drop)]
struct Tally {
    /// What is left to be sent to clients.
    transfers: Transfers,
    /// Whether failed uploads may have left something in the store.
    unswept: bool,
    counts: Counts,
}

/// What a server goes by, and what it counts.
#[derive(Drop)]
struct Serving<'a, E> {
    /// The policy by which all are served.
    policy: Policy,
    /// After how many connections it ends.
    most: u64,
    /// How many connections had a turn.
    begun: u64,
    /// How many of these ended.
    ended: u64,
    tally: Tally,
    errors: &'a mut E,
}

impl<E: Write> Serving<'_, E> {
    /// Counts a client who called, if he had no turn yet.
    fn count(&mut self, client: &Client)
        ensures begun { self.new.begun ≤ self.old.begun + first_turn (Caller.Client client.now) }
        ensures most { self.new.most ≡ self.old.most }
        ensures policy { self.new.policy ≡ self.old.policy }
        ensures transfers { self.new.tally.transfers ≡ self.old.tally.transfers }
    {
        if client.number.is_none() {
            self.begun = self.begun.saturating_add(1);
        }
    }

    /// The number of the connection of a client who was counted.
    fn number_of(&self, client: &Client) -> u64
        ensures { IsNumberOf client.now result }
    {
        client.number.unwrap_or(self.begun)
    }

    /// Whether as many connections had a turn as are to be served.
    fn is_full(&self) -> bool
        ensures { OnTrue result (self.now.most ≤ self.now.begun) }
    {
        self.begun >= self.most
    }

    /// Counts a connection that ended, and reports it if it failed; `None` for one that goes on.
    fn note(&mut self, number: u64, end: Option<End>)
        ensures transfers { self.new.tally.transfers ≡ self.old.tally.transfers }
        ensures begun { self.new.begun ≡ self.old.begun }
        ensures most { self.new.most ≡ self.old.most }
        ensures policy { self.new.policy ≡ self.old.policy }
    {
        let Some(end) = end else {
            return;
        };
        self.ended = self.ended.saturating_add(1);
        self.tally.counts.count_end(end);
        if is_reported(end) {
            let _ = write_end(self.errors, number, end);
        }
    }
}

/// How a connection ended that waited for its next message.
fn end_of(ended: Ended) -> End {
    match ended.cause {
        Cause::InputEnded => End::InputEnded,
        Cause::ReadFailed => End::ReadFailed,
        Cause::WriteFailed => End::WriteFailed,
    }
}

/// Whether the end of a connection is reported: a read, a write or the store failed.
fn is_reported(end: End) -> bool
    ensures { result ≡ is_reported end }
{
    end == End::StoreRefused || !is_good(end)
}

/// Reports a connection that failed.
fn write_end<E: Write>(errors: &mut E, number: u64, end: End) -> io::Result<()> {
    writeln!(errors, "custody: connection {number} {end:?}")?;
    errors.flush()
}

/// Accepts no further clients, if as many as are to be served had a turn.
fn shut_if<M: Machine>(machine: &mut M, is_full: bool)
    ensures { (calls : List Call) × Calls M.Machine machine.old calls machine.new
        × (seen_in calls ≡ []) }
{
    if is_full {
        machine.shut();
    }
}

/// Counts a connection that ended between two turns.
fn note_ended<M: Machine, E: Write>(machine: &mut M, state: &mut Serving<'_, E>)
    ensures machine { M.Machine.idled machine.old machine.new }
    ensures transfers { state.new.tally.transfers ≡ state.old.tally.transfers }
    ensures begun { state.new.begun ≡ state.old.begun }
    ensures most { state.new.most ≡ state.old.most }
    ensures policy { state.new.policy ≡ state.old.policy }
{
    if let Some(ended) = machine.ended() {
        state.note(ended.number, Some(end_of(ended)));
    }
}

/// Who is served next. While somebody waits for the rest of an inspection, only who is ready: nobody is waited for.
///
/// # Errors
///
/// `Network` if no connection could be accepted.
fn next_of<M: Machine>(machine: &mut M, is_busy: bool) -> Result<Option<Caller>, Fault>
    ensures some { IfOk result (λ found. IfSome found
        (λ caller. M.Machine.observed machine.old machine.new (called caller))) }
    ensures none { IfOk result (λ found. IfNone found (M.Machine.idled machine.old machine.new)) }
    ensures err { OnErr result (M.Machine.idled machine.old machine.new) }
{
    if is_busy {
        machine.next_ready()
    } else {
        machine.next()
    }
}

/// Fails if the files of the store may not be used any more: the next start finds what is on the disk.
///
/// # Errors
///
/// `Contents`.
fn check_files<S: Store>(store: &S) -> Result<(), Fault>
    ensures { result ≡ if S.State.is_usable store.now then Ok tt else Err (Contents Failed) }
{
    if store.may_be_used() {
        return Ok(());
    }
    Err(Fault::Contents(ContentsCause::Failed))
}

impl<C: Clock> Server<'_, C> {
    /// The time; `None` if the clock failed.
    fn instant(&self) -> Option<Instant> {
        Instant::now(self.clock).ok()
    }

    /// How long ago this was; none if the clock failed.
    fn since(&self, start: Option<Instant>) -> Duration {
        match (start, self.instant()) {
            (Some(start), Some(now)) => now.duration_since(start),
            _ => Duration::ZERO,
        }
    }

    /// Removes what failed uploads left in the store, if there may be any. Returns whether there still may be: the store
    /// refused.
    fn sweep_if<S: Store>(&self, store: &mut S, unswept: bool) -> bool
        ensures { From S.State store.old store.new (λ world.
            Tidies S.State store.old store.new world) }
    {
        unswept && uploads::sweep(self.alloc, store).is_err()
    }

    /// Serves a turn of a connection at the machine's moment. What failed uploads may have left in the store is removed
    /// before. Returns how the connection ended; `None` if it goes on.
    ///
    /// # Errors
    ///
    /// `Clock`.
    fn serve_turn<S: Store, M: Machine, E: Write>(
        &self,
        store: &mut S,
        machine: &mut M,
        mut client: Client,
        state: &mut Serving<'_, E>,
    ) -> Result<Option<End>, Fault>
        ensures world { From S.State store.old store.new (λ world. Helps M.Machine S.State
            (IsTurn state.old.policy client
            (owed_in state.old.tally.transfers) (owed_in state.new.tally.transfers))
            store.old store.new machine.old machine.new world) }
        ensures begun { state.new.begun ≡ state.old.begun }
        ensures most { state.new.most ≡ state.old.most }
        ensures policy { state.new.policy ≡ state.old.policy }
    {
        let number = state.number_of(&client);
        state.tally.unswept = self.sweep_if(store, state.tally.unswept);
        let now = machine.moment()?;
        let start = self.instant();
        let context = TurnContext {
            alloc: self.alloc,
            routes: self.routes,
            policy: &state.policy,
            now,
        };
        let Some(Talked { turn, front, later }) = machine.converse(&mut client, store, &context)
        else {
            machine.close(client);
            return Ok(Some(End::ReadFailed));
        };
        let end = turn.served.end;
        state.tally.counts.count_turn(turn, self.since(start));
        if let Some(download) = later {
            let transfer = Transfer {
                number,
                download,
                front,
            };
            let due = Due { client, transfer };
            return Ok(state.tally.transfers.put_aside(machine, due, true));
        }
        // An upload that was cut off, or that the store refused, is still staged.
        let is_left = end == End::StoreRefused || !front.is_over();
        state.tally.unswept = state.tally.unswept || is_left;
        machine.end_turn(client, number, &front, end)
    }

    /// Serves a client who called: sends him the next part if something is left to be sent to him, and else serves a turn.
    /// Reports if his connection failed. After the first turn of as many connections as are to be served, no others are
    /// accepted.
    ///
    /// # Errors
    ///
    /// `Clock`.
    fn serve_client<S: Store, M: Machine, E: Write>(
        &self,
        store: &mut S,
        machine: &mut M,
        client: Client,
        state: &mut Serving<'_, E>,
    ) -> Result<(), Fault>
        ensures world { From S.State store.old store.new (λ world. Helps M.Machine S.State
            (IsClientServed state.old.policy client
            (owed_in state.old.tally.transfers) (owed_in state.new.tally.transfers))
            store.old store.new machine.old machine.new world) }
        ensures begun { state.new.begun ≤ state.old.begun + first_turn (Caller.Client client) }
        ensures most { state.new.most ≡ state.old.most }
        ensures policy { state.new.policy ≡ state.old.policy }
    {
        state.count(&client);
        shut_if(machine, state.is_full());
        let number = state.number_of(&client);
        match state.tally.transfers.take(client) {
            Ok(due) => {
                let start = self.instant();
                let part = state.tally.transfers.send(self.alloc, store, machine, due)?;
                state.tally.counts.count_turn(part.turn, self.since(start));
                state.note(number, part.end);
                Ok(())
            }
            Err(client) => {
                let end = self.serve_turn(store, machine, client, state)?;
                state.note(number, end);
                Ok(())
            }
        }
    }

    /// Answers an operator, and reports if that failed. Returns what becomes of the server.
    fn serve_operator<S: Store, M: Machine, E: Write>(
        &self,
        store: &mut S,
        machine: &mut M,
        stream: &OperatorStream,
        state: &mut Serving<'_, E>,
        is_busy: bool,
    ) -> Outcome
        ensures world { From S.State store.old store.new (λ world.
            Helps M.Machine S.State (IsAnswered state.old.policy is_busy stream.now result)
            store.old store.new machine.old machine.new world) }
        ensures transfers { state.new.tally.transfers ≡ state.old.tally.transfers }
        ensures begun { state.new.begun ≡ state.old.begun }
        ensures most { state.new.most ≡ state.old.most }
        ensures policy { state.new.policy ≡ state.old.policy }
    {
        let context = OperatorContext {
            alloc: self.alloc,
            policy: &state.policy,
            counts: &state.tally.counts,
            is_busy,
            stream,
        };
        let answered = context.serve(store, machine, self.clock, state.errors);
        state.tally.counts.count_operator(answered.is_ok());
        match answered {
            Ok(outcome) => outcome,
            Err(fault) => {
                let _ = print_fault(&fault, state.errors);
                Outcome::Unchanged
            }
        }
    }

    /// Waits for the next caller and does what he asks for: a turn of a client, or a command of an operator; or takes note
    /// of a connection that ended between two turns. While an operator waits for the rest of an inspection, only those are
    /// served who are ready. Returns the operator who has stopped the server.
    ///
    /// # Errors
    ///
    /// `Network` if no connection could be accepted, and `Clock`.
    fn serve_next<S: Store, M: Machine, E: Write>(
        &self,
        store: &mut S,
        machine: &mut M,
        state: &mut Serving<'_, E>,
        waiting: &mut Option<Waiting>,
    ) -> Result<Option<OperatorStream>, Fault>
        ensures world { From S.State store.old store.new (λ world.
            ServesClean M.Machine S.State waiting.old waiting.new
            (server_state state.old.policy waiting.old (owed_in state.old.tally.transfers))
            store.old store.new machine.old machine.new world state.old.begun state.new.begun
            (server_state state.new.policy waiting.new (owed_in state.new.tally.transfers))
            (has_stopped result)) }
        ensures most { state.new.most ≡ state.old.most }
    {
        match next_of(machine, waiting.is_some())? {
            Some(Caller::Client(client)) => {
                self.serve_client(store, machine, client, state)?;
                Ok(None)
            }
            Some(Caller::Operator(stream)) => {
                match self.serve_operator(store, machine, &stream, state, waiting.is_some()) {
                    Outcome::Unchanged => Ok(None),
                    Outcome::Stopped => Ok(Some(stream)),
                    Outcome::Reloaded(policy) => {
                        state.policy = policy;
                        state.tally.counts.read_policy = self.instant();
                        Ok(None)
                    }
                    Outcome::Began(inspection) => {
                        *waiting = Some(Waiting { stream, inspection });
                        Ok(None)
                    }
                }
            }
            None => {
                note_ended(machine, state);
                Ok(None)
            }
        }
    }

    /// Goes on with the inspection that an operator waits for, if there is one.
    fn go_on<S: Store, M: Machine, E: Write>(
        &self,
        store: &mut S,
        machine: &mut M,
        state: &mut Serving<'_, E>,
        waiting: &mut Option<Waiting>,
    )
        ensures world { From S.State store.old store.new (λ world.
            ServesClean M.Machine S.State waiting.old waiting.new
            (server_state state.old.policy waiting.old (owed_in state.old.tally.transfers))
            store.old store.new machine.old machine.new world state.old.begun state.new.begun
            (server_state state.new.policy waiting.new (owed_in state.new.tally.transfers)) false) }
        ensures most { state.new.most ≡ state.old.most }
    {
        if let Some(begun) = waiting.take() {
            *waiting = begun.go_on(self.alloc, store, machine, state.errors);
        }
    }

    /// Serves whoever calls, until as many connections were served as are to be, or an operator stops the server. Between
    /// two callers it goes on with an inspection that was begun.
    ///
    /// # Errors
    ///
    /// Those of [`run`](Server::run).
    fn serve_all<S: Store, M: Machine, E: Write>(
        &self,
        store: &mut S,
        machine: &mut M,
        state: &mut Serving<'_, E>,
    ) -> Result<Finish, Fault>
        requires begun { state.now.begun ≡ 0 }
        requires owed { owed_in state.now.tally.transfers ≡ [] }
        ensures { From S.State store.old store.new (λ world. (jobs : List Job)
            × Serves M.Machine S.State (first_state state.old.policy)
            store.old store.new machine.old machine.new world jobs
            × HasFinished state.old.most jobs result) }
    {
        let mut waiting = None;
        'callers: for _ in 0..u64::MAX {
            if waiting.is_none() && state.ended >= state.most && state.is_full() {
                machine.settle();
                return Ok(Finish {
                    connections: state.most,
                    stopped_by: None,
                });
            }
            check_files(store)?;
            if let Some(operator) = self.serve_next(store, machine, state, &mut waiting)? {
                machine.shut_at_once();
                machine.settle();
                return Ok(Finish {
                    connections: state.begun,
                    stopped_by: Some(operator),
                });
            }
            self.go_on(store, machine, state, &mut waiting);
        }
        Err(Fault::Network)
    }

    /// Serves this many connections, first under this policy, and reports those that failed on the error stream. Operators
    /// are answered between their turns. What failed uploads left, also those of a server that was killed, is removed
    /// before the next turn, as soon as the store allows it. Ends when as many connections were served, or when an operator
    /// stops it.
    ///
    /// # Errors
    ///
    /// `Network` if no connection could be accepted, `Clock`, and `Contents` after a sync of the file of contents has
    /// failed: what was answered before remains valid.
    pub fn run<S: Store, M: Machine, E: Write>(
        &self,
        store: &mut S,
        machine: &mut M,
        policy: Policy,
        most: u64,
        errors: &mut E,
    ) -> Result<Finish, Fault>
        ensures { From S.State store.old store.new (λ world. (jobs : List Job)
            × Serves M.Machine S.State (first_state policy) store.old store.new machine.old machine.new world jobs
            × HasFinished most jobs result) }
    {
        let mut state = Serving {
            policy,
            most,
            begun: 0,
            ended: 0,
            tally: Tally {
                transfers: Transfers::new(self.alloc),
                unswept: true,
                counts: Counts::new(self.instant()),
            },
            errors,
        };
        self.serve_all(store, machine, &mut state)
    }
}
