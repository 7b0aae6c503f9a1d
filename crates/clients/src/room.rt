//! The connections of clients: those whose next message has not arrived yet, those that are ready for a turn, those whose
//! replies are sent, and those that were closed and may still send.

use crate::client::{Client, Progress};
use crate::place::{Cause, Ended, Load, Next, Pause, Place};
use connections::{Course, Framing, Front, PatientReader, PatientWriter, prepare};
use mio::unix::SourceFd;
use mio::{Interest, Poll, Token};
use slab::Slab;
use std::alloc::{AllocError, Global};
use std::cell::Cell;
use std::collections::VecDeque;
use std::mem;
use std::net::TcpStream;
use std::os::fd::AsRawFd;
use std::time::{Clock, Duration, Instant};

/// How long a client whose connection was closed may take to close its side, in seconds.
pub const LONGEST_LEAVING: u64 = 2;

/// How often clients that have waited for too long are looked for, in milliseconds.
pub const ROUND: u64 = 250;

/// The length of a turn after which the waiting times of all clients start again, in seconds.
const LONG_TURN: u64 = 1;

/// After how long a client that takes nothing of a reply, or a long reply, may have to give way to others, in seconds.
const LONGEST_STALL: u64 = 5;

/// The most bytes of messages that wait, in all connections together.
const MOST_ARRIVED: usize = 67_108_864;

/// The most bytes of replies that are not wholly sent, in all connections together, with which a new message gets its turn.
const MOST_UNSENT: usize = 67_108_864;

/// The token of the connection with key 0. Those below it are of the listeners, and of operators.
const FIRST: usize = 3;

/// How many parts of objects, of at most 256 KiB, are sent between two transfers, which may be uploads of any size.
const PARTS: u32 = 256;

/// What clients may do that send nothing.
#[derive(Clone, Copy)]
pub struct Limits {
    /// How long a client may idle between two messages.
    pub idle: Duration,
    /// The most connections at a time.
    pub connections: usize,
}

/// Whether a client that has taken nothing of a reply since a moment, or whose reply is sent since then, may have to give way.
fn has_stalled(since: Instant, now: Instant) -> bool {
    now.duration_since(since) >= Duration::from_secs(LONGEST_STALL)
}

/// The connections of clients.
#[derive(Drop)]
pub struct Room {
    alloc: Global,
    places: Slab<Place>,
    /// The bytes that the connections in these places hold.
    load: Load,
    /// The keys of those that are ready, in the order in which they were: those whose messages are short, and transfers.
    ready: VecDeque<usize>,
    transfers: VecDeque<usize>,
    /// The keys of those to whom an object is sent in parts, and whose socket may take some.
    parts: VecDeque<usize>,
    /// How many parts still go before the transfer that is next.
    parts_left: u32,
    /// How many short messages still go before the transfer that is next; `None` if none was looked for since the last one.
    before_transfer: Option<usize>,
    /// Those that had a turn, and ended in the room.
    ended: VecDeque<Ended>,
    limits: Limits,
    /// When clients that have waited for too long were last looked for.
    round: Option<Instant>,
}

impl Room {
    /// An empty room.
    ///
    /// # Errors
    ///
    /// Fails if there is no memory.
    pub fn new(alloc: Global, limits: Limits) -> Result<Room, AllocError> {
        let most = limits.connections;
        Ok(Room {
            alloc,
            places: Slab::with_capacity(alloc, most)?,
            load: Load::default(),
            ready: VecDeque::with_capacity(alloc, most)?,
            transfers: VecDeque::with_capacity(alloc, most)?,
            parts: VecDeque::with_capacity(alloc, most)?,
            parts_left: PARTS,
            before_transfer: None,
            ended: VecDeque::with_capacity(alloc, most)?,
            limits,
            round: None,
        })
    }

    pub fn is_empty(&self) -> bool {
        self.places.is_empty()
    }

    pub fn is_full(&self) -> bool {
        self.places.len() >= self.limits.connections
    }

    /// Whether replies that are not sent yet take so much memory that no new message gets its turn.
    fn is_loaded(&self) -> bool {
        self.load.unsent > MOST_UNSENT
    }

    /// Whether a client may have its turn.
    pub fn has_ready(&self) -> bool {
        if self.is_loaded() {
            !self.parts.is_empty()
        } else {
            !self.ready.is_empty() || !self.transfers.is_empty() || !self.parts.is_empty()
        }
    }

    /// How many clients are ready whose message has no reply yet.
    pub fn waiting(&self) -> usize {
        self.ready.len().saturating_add(self.transfers.len())
    }

    /// To how many clients a reply is sent.
    pub fn under_way(&self) -> usize {
        let places = self.places.iter();
        places.filter(|(_, place)| place.is_under_way()).count()
    }

    /// Takes in a connection that was accepted now. It is closed if the system refuses to watch it, or if there is no memory.
    pub fn enter(&mut self, poll: &Poll, stream: TcpStream, now: Instant, framing: &impl Framing) {
        let key = self.places.vacant_key();
        let handle = stream.as_raw_fd();
        let token = Token(key.saturating_add(FIRST));
        let registered = poll.registry().register(
            &mut SourceFd(&handle),
            token,
            Interest::READABLE | Interest::WRITABLE,
        );
        if registered.is_err() || prepare(&stream).is_err() {
            return;
        }
        let client = Client::new(self.alloc, stream, key, now);
        if self.places.insert(Place::Waiting(client)).is_ok() {
            self.receive(key, now, framing);
        }
    }

    /// Takes a connection out of its place.
    fn lift(&mut self, key: usize) -> Option<Place> {
        let place = mem::replace(self.places.get_mut(key)?, Place::Served);
        self.load = self.load.without(place.load());
        Some(place)
    }

    /// Puts a connection that was taken out into its place.
    fn put(&mut self, key: usize, place: Place) {
        if let Some(old) = self.places.get_mut(key) {
            self.load = self.load.with(place.load());
            *old = place;
        }
    }

    /// Takes a connection out, and frees its place.
    fn vacate(&mut self, key: usize) -> Option<Place> {
        let place = self.lift(key);
        self.places.try_remove(key);
        place
    }

    /// Closes a connection, and keeps its number if it had a turn and its end was not returned.
    pub fn remove(&mut self, key: usize, cause: Cause) {
        let number = self.vacate(key).and_then(Place::number);
        if let Some(number) = number {
            let _ = self.ended.push_back(Ended { number, cause });
        }
    }

    /// Looks at the connection that the system named by this token, and whose socket may take some or not.
    pub fn look(&mut self, token: Token, is_writable: bool, now: Instant, framing: &impl Framing) {
        let Some(key) = token.0.checked_sub(FIRST) else {
            return;
        };
        match self.places.get(key) {
            Some(Place::Waiting(client)) if !client.is_ready() => self.receive(key, now, framing),
            Some(Place::Sending(_)) if is_writable => self.resume(key, false),
            Some(Place::Replying(..)) if is_writable => {
                self.reply_on(key, now, framing);
            }
            Some(Place::Leaving(_)) => self.drain(key),
            _ => {}
        }
    }

    /// Reads what arrived on a connection that waits, until it holds more than it may beside the others.
    fn receive_some(&mut self, key: usize, now: Instant, framing: &impl Framing) -> Progress {
        let Some(Place::Waiting(client)) = self.places.get_mut(key) else {
            return Progress::Waiting;
        };
        let others = self.load.arrived.saturating_sub(client.held());
        let progress = client.receive(now, framing, MOST_ARRIVED.saturating_sub(others));
        self.load.arrived = others.saturating_add(client.held());
        progress
    }

    /// Reads what arrived on a connection that waits. If all hold more than they may, those are closed that have sent nothing
    /// for the longest time.
    fn progress_of(&mut self, key: usize, now: Instant, framing: &impl Framing) -> Progress {
        for _ in 0..self.limits.connections {
            let progress = self.receive_some(key, now, framing);
            if progress != Progress::Crowded {
                return progress;
            }
            match self.longest(Pause::Halfway, Some(key)) {
                Some((other, _)) => self.remove(other, Cause::ReadFailed),
                None => break,
            }
        }
        Progress::Failed
    }

    /// Reads what arrived on a connection that waits. If its turn may begin, it is the last of those that are ready.
    fn receive(&mut self, key: usize, now: Instant, framing: &impl Framing) {
        match self.progress_of(key, now, framing) {
            Progress::Waiting => {}
            Progress::Ready(is_transfer) => self.line_up(key, is_transfer),
            Progress::Ended => self.remove(key, Cause::InputEnded),
            Progress::Failed | Progress::Crowded => self.remove(key, Cause::ReadFailed),
        }
    }

    fn line_up(&mut self, key: usize, is_transfer: bool) {
        let line = if is_transfer {
            &mut self.transfers
        } else {
            &mut self.ready
        };
        if line.push_back(key).is_err() {
            self.remove(key, Cause::ReadFailed);
        }
    }

    /// Lines up a client to whom an object is sent in parts: its socket may take some, or it is given up.
    fn resume(&mut self, key: usize, gives_up: bool) {
        match self.lift(key) {
            Some(Place::Sending(mut client)) => {
                client.is_given_up = client.is_given_up || gives_up;
                self.put_aside(client, true);
            }
            Some(place) => self.put(key, place),
            None => {}
        }
    }

    /// Drops what a client still sends whose connection was closed.
    fn drain(&mut self, key: usize) {
        if let Some(Place::Leaving(client)) = self.places.get(key)
            && !client.drain()
        {
            self.vacate(key);
        }
    }

    /// Whose turn it is: short messages are first, but a transfer waits for no more of them than were ready when it could
    /// have been next. If too much of replies is not sent yet, only what is sent in parts goes on.
    fn next_key(&mut self) -> Option<usize> {
        if self.is_loaded() {
            return self.parts.pop_front();
        }
        if self.transfers.is_empty() && self.parts.is_empty() {
            return self.ready.pop_front();
        }
        let most = self.ready.len();
        match self.before_transfer.unwrap_or(most).min(most) {
            0 => {
                self.before_transfer = None;
                self.next_long()
            }
            count => {
                self.before_transfer = Some(count - 1);
                self.ready.pop_front()
            }
        }
    }

    /// The next transfer, or the next part of an object: a transfer waits for no more than `PARTS` of them.
    fn next_long(&mut self) -> Option<usize> {
        let is_part = !self.parts.is_empty() && self.parts_left > 0;
        if is_part || self.transfers.is_empty() {
            self.parts_left = self.parts_left.saturating_sub(1);
            return self.parts.pop_front();
        }
        self.parts_left = PARTS;
        self.transfers.pop_front()
    }

    /// The client whose turn it is.
    pub fn take(&mut self) -> Option<Client> {
        let key = self.next_key()?;
        match self.lift(key)? {
            Place::Waiting(client) | Place::Due(client) => Some(client),
            place => {
                self.put(key, place);
                None
            }
        }
    }

    /// Whether one that had a turn ended in the room.
    pub fn has_ended(&self) -> bool {
        !self.ended.is_empty()
    }

    /// The next of those that had a turn, and ended in the room.
    pub fn ended(&mut self) -> Option<Ended> {
        self.ended.pop_front()
    }

    /// Goes on after a reply that is sent: the next message is awaited, or what the client still sends is read and dropped, for
    /// at most two seconds. A close with unread bytes would reset the connection, and the client could lose the reply.
    fn go_on(&mut self, mut client: Client, next: Next, now: Instant, framing: &impl Framing) {
        let key = client.key;
        match next {
            Next::Message => {
                client.begin_next(now, framing);
                self.put(key, Place::Waiting(client));
                self.receive(key, now, framing);
            }
            Next::End => {
                if client.finish(now).is_err() {
                    self.places.try_remove(key);
                    return;
                }
                self.put(key, Place::Leaving(client));
                self.drain(key);
            }
        }
    }

    /// Sends what is left of a reply, as far as the socket takes it, and goes on if all of it is sent. Returns whether the
    /// client has not closed the connection.
    fn reply_on(&mut self, key: usize, now: Instant, framing: &impl Framing) -> bool {
        let (mut client, next) = match self.lift(key) {
            Some(Place::Replying(client, next)) => (client, next),
            Some(place) => {
                self.put(key, place);
                return true;
            }
            None => return true,
        };
        let flushed = client.flush(now);
        let is_open = flushed.is_ok();
        match flushed {
            Ok(true) => self.go_on(client, next, now, framing),
            Ok(false) => self.put(key, Place::Replying(client, next)),
            Err(_) => {
                self.put(key, Place::Replying(client, next));
                self.remove(key, Cause::WriteFailed);
            }
        }
        is_open
    }

    /// Takes a client back after a turn whose message was handed out. The next one is awaited once the reply is sent.
    pub fn put_back(
        &mut self,
        mut client: Client,
        front: &Front,
        now: Instant,
        framing: &impl Framing,
    ) {
        let key = client.key;
        let is_kept = client.end(front).is_ok();
        self.put(key, Place::Replying(client, Next::Message));
        if is_kept {
            self.reply_on(key, now, framing);
        } else {
            self.remove(key, Cause::ReadFailed);
        }
    }

    /// Closes a connection once its last reply is sent. Returns whether the client has not closed it.
    pub fn dismiss(&mut self, client: Client, now: Instant, framing: &impl Framing) -> bool {
        let key = client.key;
        self.put(key, Place::Replying(client, Next::End));
        self.reply_on(key, now, framing)
    }

    /// Keeps a client to whom an object is sent in parts: until its socket takes some, or in the line of the parts if it
    /// may.
    pub fn put_aside(&mut self, mut client: Client, is_due: bool) {
        let key = client.key;
        client.is_in_parts = true;
        if is_due && self.parts.push_back(key).is_ok() {
            self.put(key, Place::Due(client));
        } else {
            self.put(key, Place::Sending(client));
        }
    }

    /// Reads the message of a client's turn, what had arrived first, and keeps what is written of the reply.
    pub fn stream_pair<'c, C: Clock>(
        &self,
        client: &'c mut Client,
        clock: &'c C,
        course: &'c Cell<Course>,
        front: &'c mut Front,
    ) -> (PatientReader<'c, C>, PatientWriter<'c, C>) {
        let (stream, unsent) = client.parts();
        let reader = PatientReader {
            clock,
            stream,
            course,
            front,
        };
        let writer = PatientWriter {
            clock,
            stream,
            course,
            unsent,
            writes_through: false,
        };
        (reader, writer)
    }

    /// Closes a connection at once. What is left of its replies is sent as far as the socket takes it.
    pub fn close(&mut self, mut client: Client) {
        client.send_last();
        self.places.try_remove(client.key);
    }

    /// The connection, but for this one, that has made such a pause for the longest time, and since when.
    fn longest(&self, pause: Pause, but: Option<usize>) -> Option<(usize, Instant)> {
        let mut found: Option<(usize, Instant)> = None;
        for (key, place) in self.places.iter() {
            let Some(since) = place.pauses_since(pause) else {
                continue;
            };
            match found {
                _ if but == Some(key) => {}
                Some((_, least)) if least <= since => {}
                _ => found = Some((key, since)),
            }
        }
        found
    }

    /// Whether a connection will be closed in its turn, since it is given up.
    fn has_given_up(&self) -> bool {
        self.places.iter().any(|(_, place)| place.is_given_up())
    }

    /// The connection that gives way to another one: that whose client has sent nothing for the longest time, of those that
    /// are not ready; or else that whose client has taken nothing of a reply for the longest time, after five seconds.
    pub fn gives_way(&self, now: Instant) -> Option<usize> {
        if let Some((key, _)) = self.longest(Pause::Silent, None) {
            return Some(key);
        }
        let (key, since) = self.longest(Pause::Stalled, None)?;
        (has_stalled(since, now) && !self.has_given_up()).then_some(key)
    }

    /// Closes a connection that has waited for too long, or gives way. One to which an object is sent in parts is given up: it
    /// is closed in its turn.
    pub fn give_up(&mut self, key: usize) {
        match self.places.get(key) {
            Some(Place::Sending(_)) => self.resume(key, true),
            Some(Place::Replying(..)) => self.remove(key, Cause::WriteFailed),
            _ => self.remove(key, Cause::InputEnded),
        }
    }

    /// Has a connection give way. Returns whether one was closed.
    pub fn evict(&mut self, now: Instant) -> bool {
        let Some(key) = self.gives_way(now) else {
            return false;
        };
        self.give_up(key);
        !self.places.contains(key)
    }

    /// Whether a connection has waited for too long.
    fn is_late(&self, key: usize, now: Instant) -> bool {
        match self.places.get(key) {
            Some(Place::Waiting(client)) => !client.is_ready()
                && !client.may_wait(now, self.limits.idle),
            Some(Place::Leaving(client)) => {
                now.duration_since(client.since()) >= Duration::from_secs(LONGEST_LEAVING)
            }
            Some(Place::Replying(client, _)) => {
                let takes_long = has_stalled(client.replies_since(), now);
                !client.may_stall(now) || self.is_loaded() && takes_long
            }
            Some(Place::Sending(client)) => !client.may_stall(now),
            Some(Place::Served | Place::Due(_)) | None => false,
        }
    }

    /// Starts the waiting time of a client again, since the server was busy for long.
    fn forgive(&mut self, key: usize, now: Instant) {
        match self.places.get_mut(key) {
            Some(Place::Waiting(client)) => client.forgive(now),
            Some(Place::Sending(client)) => client.forgive(now),
            Some(Place::Due(client)) => client.forgive(now),
            Some(Place::Replying(client, _)) => client.forgive(now),
            Some(Place::Leaving(client)) => client.forgive(now),
            Some(Place::Served) | None => {}
        }
    }

    /// Closes the connections that have waited for too long. It looks for them four times a second, so most calls return
    /// at once.
    pub fn expire(&mut self, now: Instant) {
        let busy = match self.round {
            Some(last) => now.duration_since(last),
            None => Duration::ZERO,
        };
        if self.round.is_some() && busy < Duration::from_millis(ROUND) {
            return;
        }
        self.round = Some(now);
        for key in 0..self.limits.connections {
            if busy >= Duration::from_secs(LONG_TURN) {
                self.forgive(key, now);
            } else if self.is_late(key, now) {
                self.give_up(key);
            }
        }
    }

    /// Closes the connections that wait for a turn, and the others once their last reply is sent.
    pub fn send_all_away(&mut self) {
        for key in 0..self.limits.connections {
            match self.lift(key) {
                None => {}
                Some(Place::Waiting(_) | Place::Sending(_) | Place::Due(_)) => {
                    self.places.try_remove(key);
                }
                Some(Place::Replying(client, _)) => {
                    self.put(key, Place::Replying(client, Next::End))
                }
                Some(place) => self.put(key, place),
            }
        }
        self.ready.clear();
        self.transfers.clear();
        self.parts.clear();
    }

    /// Closes the connections that had no turn.
    pub fn send_away(&mut self) {
        for key in 0..self.limits.connections {
            if let Some(Place::Waiting(client)) = self.places.get(key)
                && client.number.is_none()
            {
                self.vacate(key);
            }
        }
    }

    /// Closes all connections.
    pub fn clear(&mut self) {
        self.places.clear();
        self.ready.clear();
        self.transfers.clear();
        self.parts.clear();
        self.load = Load::default();
    }
}
