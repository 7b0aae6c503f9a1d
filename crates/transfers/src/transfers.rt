//! What is left to be sent to clients, and the next part of it.

ghost use Rattle.std.specs.Prelude.{◌≡◌, ◌≢◌, ◌<◌, ◌++◌, [], ◌∷◌, All, List, HoldsAt, IfErr, IfNone, IfOk, IfSome, MatchBool, Some, length};
ghost use Rattle.refinement.specs.Left.{Reads};
ghost use Rattle.machine.specs.Calls.{Call, Calls, seen_in};
ghost use Rattle.machine.specs.Observations.{closed};
ghost use Rattle.transfers.specs.Transfers.{HasNoneOwed, IsOwedNothing, IsPartSent, LeavesRest, TakesOut, owed_by, owed_in};

use faults::Fault;
use machine::Machine;
use metrics::Turn;
use service::{Download, End, Served};
use sockets::{Client, Front};
use std::alloc::Global;
use store::Store;

/// The most bytes of an object that are sent in one part.
const PART: usize = 262_144;

/// An object of which something is left to be sent over a connection.
#[derive(Drop)]
pub struct Transfer {
    /// The number of the connection.
    pub number: u64,
    /// What is sent.
    pub download: Download,
    /// What had arrived on the connection, and was not read.
    pub front: Front,
}

/// A client, and what is left to be sent to him.
#[derive(Drop)]
pub struct Due {
    /// The client.
    pub client: Client,
    /// What is left to be sent.
    pub transfer: Transfer,
}

/// What came of a part.
#[derive(Drop)]
pub struct SentPart {
    /// How many bytes were sent, and how many replies are whole with them.
    pub turn: Turn,
    /// How the connection ended; `None` if it goes on.
    pub end: Option<End>,
}

impl SentPart {
    /// A part of which this many bytes were sent, and after which the connection ended or goes on.
    fn new(sent: usize, answered: usize, end: Option<End>) -> SentPart {
        let served = Served {
            answered,
            end: end.unwrap_or(End::InputEnded),
        };
        SentPart {
            turn: Turn {
                served,
                received: 0,
                sent: sent as u64,
            },
            end,
        }
    }
}

/// What is left to be sent to clients: at most one object over a connection.
#[derive(Drop)]
pub struct Transfers {
    list: Vec<Transfer>,
}

/// The index of what is sent over the connection with this number.
fn index_of(list: &[Transfer], number: u64) -> Option<usize>
    ensures some { IfSome result (λ index. (index < length list.now)
        × HoldsAt (λ t. t.number ≡ number) list.now index) }
    ensures none { IfNone result (All (λ t. t.number ≢ number) list.now) }
{
    list.iter().position(|transfer| transfer.number == number)
}

/// Closes the connection of a client.
fn cut_off<M: Machine>(machine: &mut M, client: Client, end: End) -> SentPart
    ensures { M.Machine.observed machine.old machine.new (closed client) }
{
    machine.close(client);
    SentPart::new(0, 0, Some(end))
}

/// Takes back a client to whom the whole of an object was sent, of whose last part this many bytes.
///
/// # Errors
///
/// `Clock`.
fn finish<M: Machine>(machine: &mut M, due: Due, sent: usize) -> Result<SentPart, Fault>
    ensures { M.Machine.idled machine.old machine.new }
{
    let Due { client, transfer } = due;
    let end = if transfer.download.closes() {
        End::Closed
    } else {
        End::InputEnded
    };
    let ended = machine.end_turn(client, transfer.number, &transfer.front, end)?;
    Ok(SentPart::new(sent, 1, ended))
}

impl Transfers {
    /// Nothing is left.
    pub fn new(alloc: Global) -> Transfers
        ensures { owed_in result ≡ [] }
    {
        Transfers {
            list: Vec::new(alloc),
        }
    }

    /// Takes out what is left to be sent to a client.
    ///
    /// # Errors
    ///
    /// Nothing is left to be sent to him.
    pub fn take(&mut self, client: Client) -> Result<Due, Client>
        ensures ok { IfOk result (λ due. (due.client ≡ client) × (client.number ≡ Some due.transfer.number)
            × TakesOut (owed_by due.transfer) (owed_in self.old) (owed_in self.new)) }
        ensures err { IfErr result (λ same. (same ≡ client) × IsOwedNothing client (owed_in self.old)
            × (owed_in self.new ≡ owed_in self.old)) }
    {
        let Some(number) = client.number else {
            return Err(client);
        };
        let Some(index) = index_of(self.list.as_slice(), number) else {
            return Err(client);
        };
        let transfer = self.list.remove(index);
        Ok(Due { client, transfer })
    }

    /// Keeps an object of which something is left to be sent. Returns whether it was kept: not without memory, nor if
    /// another object is sent over its connection.
    fn keep(&mut self, transfer: Transfer) -> bool
        ensures { MatchBool result
            (HasNoneOwed transfer.number (owed_in self.old)
            × (owed_in self.new ≡ owed_in self.old ++ owed_by transfer ∷ []))
            (owed_in self.new ≡ owed_in self.old) }
    {
        match index_of(self.list.as_slice(), transfer.number) {
            Some(_) => false,
            None => self.list.push(transfer).is_ok(),
        }
    }

    /// Puts a client aside until the next part is sent to him: in his turn if he is due, and else when he takes bytes again.
    /// His connection is closed if his object cannot be kept. Returns how it ended; `None` if it goes on.
    pub fn put_aside<M: Machine>(&mut self, machine: &mut M, due: Due, is_due: bool) -> Option<End>
        ensures { (calls : List Call) × Calls M.Machine machine.old calls machine.new
            × LeavesRest due.client due.transfer.number (Some due.transfer.download)
            (owed_in self.old) (owed_in self.new) (seen_in calls) }
    {
        let Due { client, transfer } = due;
        let number = transfer.number;
        if self.keep(transfer) {
            machine.put_aside(client, number, is_due);
            None
        } else {
            machine.close(client);
            Some(End::StoreFailed)
        }
    }

    /// Sends a client the next part of his object, as much as he takes at once. His connection is closed if its bytes are
    /// not to be had, or if he has gone.
    ///
    /// # Errors
    ///
    /// `Clock`.
    pub fn send<S: Store, M: Machine>(
        &mut self,
        alloc: Global,
        store: &mut S,
        machine: &mut M,
        due: Due,
    ) -> Result<SentPart, Fault>
        requires { due.client.number ≡ Some due.transfer.number }
        ensures { Reads S.State store.old store.new (λ world. (calls : List Call)
            × Calls M.Machine machine.old calls machine.new
            × IsPartSent due.client (owed_by due.transfer) (owed_in self.old) (owed_in self.new)
            world (seen_in calls)) }
    {
        let Due {
            mut client,
            mut transfer,
        } = due;
        let bytes = match transfer.download.next(alloc, store, PART) {
            Some(bytes) if !bytes.is_empty() => bytes,
            _ => return Ok(cut_off(machine, client, End::StoreFailed)),
        };
        let Some(count) = machine.tell(&mut client, bytes.as_slice()) else {
            return Ok(cut_off(machine, client, End::WriteFailed));
        };
        transfer.download.advance(count);
        let is_over = transfer.download.is_over();
        let due = Due { client, transfer };
        if is_over {
            return finish(machine, due, count);
        }
        let end = self.put_aside(machine, due, count == bytes.len());
        Ok(SentPart::new(count, 0, end))
    }
}
