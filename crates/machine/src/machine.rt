//! The machine that a server runs on.

ghost use Rattle.std.specs.Prelude.{◌≡◌, ◌≤◌, ⊤, length, take, IfNone, IfOk, IfSome, OnErr, OnOk};
ghost use Rattle.refinement.specs.Left.{From};
ghost use Rattle.machine.specs.Observations.{Observation, Talk, aside, called, closed, drawn, finished, loaded, received, sent, talked, timed, told, waited};

use crate::conversation::{Conversation, Talked};
use crate::framing::Messages;
use crate::moments::moment;
use crate::policies::read_described;
use crate::random::read_random;
use crate::traffic::Metered;
use causes::Refusals;
use command_line::RANDOM;
use faults::Fault;
use metrics::{Gauges, Turn};
use names::{Counted, Moment};
use outbox::OperatorStream;
use policy::Policy;
use service::{Begun, Download, End};
use sockets::{Caller, Client, Course, Ended, Front, Queue};
use std::cell::Cell;
use std::fs;
use std::io::{self, ErrorKind, Read};
use std::os::unix::net::UnixStream;
use std::rt::HostRuntime;
use std::time::{Clock, Duration, Instant};
use store::Store;

/// How long an operator may take to send a command, in seconds.
const PATIENCE: u64 = 2;

/// How long an operator pauses whose request has arrived, in milliseconds.
const PAUSE: u64 = 50;

/// The most pieces of 16 KiB that are read and dropped of a request: more than the longest one has.
const DROPPED: u32 = 2_048;

/// The bytes of a page of memory.
const PAGE: u64 = 4_096;

/// A machine that a server runs on: it returns who calls, the time, random bytes, and what clients and operators send, and
/// it sends the replies to them.
///
/// What it returns is recorded: it is a relation between the machine before and after. So no step of a server depends on
/// what the machine has not returned, and none on what it returned for another caller.
pub trait Machine {
    /// The first machine became the second by a call, of which this was observed.
    ghost observed: { Self → Self → Observation → Type 0 };

    /// The first machine became the second by a call on which no step depends.
    ghost idled: { Self → Self → Type 0 };

    /// Returns who is served next. Waits if nobody is ready; `None` if a connection ended that had a turn.
    ///
    /// # Errors
    ///
    /// `Network` if no connection could be accepted.
    fn next(&mut self) -> Result<Option<Caller>, Fault>
        ensures some { IfOk result (λ found. IfSome found
            (λ caller. observed self.old self.new (called caller))) }
        ensures none { IfOk result (λ found. IfNone found (idled self.old self.new)) }
        ensures err { OnErr result (idled self.old self.new) };

    /// Returns who is served next, and does not wait; `None` if nobody is ready, or a connection ended that had a turn.
    ///
    /// # Errors
    ///
    /// `Network` if no connection could be accepted.
    fn next_ready(&mut self) -> Result<Option<Caller>, Fault>
        ensures some { IfOk result (λ found. IfSome found
            (λ caller. observed self.old self.new (called caller))) }
        ensures none { IfOk result (λ found. IfNone found (idled self.old self.new)) }
        ensures err { OnErr result (idled self.old self.new) };

    /// Returns the time.
    ///
    /// # Errors
    ///
    /// `Clock` if it is out of range.
    fn moment(&mut self) -> Result<Moment, Fault>
        ensures ok { IfOk result (λ now. observed self.old self.new (timed now)) }
        ensures err { OnErr result (idled self.old self.new) };

    /// Returns random bytes.
    ///
    /// # Errors
    ///
    /// `Random` if the machine has none.
    fn random(&mut self) -> Result<[u8; 32], Fault>
        ensures ok { IfOk result (λ bytes. observed self.old self.new (drawn bytes)) }
        ensures err { OnErr result (idled self.old self.new) };

    /// Fills the piece with the next bytes that an operator sends, who is served since `start`.
    ///
    /// # Errors
    ///
    /// `Operator` if they did not arrive in time. The piece is unspecified then.
    fn receive(
        &mut self,
        operator: &OperatorStream,
        start: Instant,
        piece: &mut [u8],
    ) -> Result<(), Fault>
        ensures ok { OnOk result (observed self.old self.new (received operator.now piece.new)) }
        ensures err { OnErr result (idled self.old self.new) };

    /// Sends bytes of a reply to its operator, after what his socket has not taken yet of it. Does not wait for him: what the
    /// socket does not take at once is kept with him.
    ///
    /// # Errors
    ///
    /// `Operator` if he has gone, and `Memory`.
    fn send(&mut self, operator: &OperatorStream, bytes: &[u8]) -> Result<(), Fault>
        ensures ok { OnOk result (observed self.old self.new (sent operator.now bytes.now)) }
        ensures err { OnErr result (idled self.old self.new) };

    /// Sends the last bytes of a reply to its operator, after what his socket has not taken yet of it. Does not wait for him:
    /// what the socket does not take at once is sent later, while others are served.
    ///
    /// # Errors
    ///
    /// `Operator` if he has gone, or if the system has no room for what is left. The reply has no end then.
    fn end_reply(&mut self, operator: &OperatorStream, end: &[u8]) -> Result<(), Fault>
        ensures ok { OnOk result (observed self.old self.new (finished operator.now end.now)) }
        ensures err { OnErr result (idled self.old self.new) };

    /// Drops what an operator still sends, for a moment: a close with unread bytes would reset the connection, and the
    /// operator could lose what was sent to him.
    fn drop_rest(&mut self, operator: &OperatorStream)
        ensures { idled self.old self.new };

    /// Reads the policy file again.
    ///
    /// # Errors
    ///
    /// `PolicyFile`, `PolicyDescribed` and `Memory`.
    fn policy(&mut self) -> Result<Policy, Fault>
        ensures ok { IfOk result (λ policy. observed self.old self.new (loaded policy)) }
        ensures err { OnErr result (idled self.old self.new) };

    /// Waits until an operator closes his side of the connection, for at most this many seconds. Returns whether he did.
    fn wait_for(&mut self, operator: &OperatorStream, seconds: u64) -> bool
        ensures { observed self.old self.new (waited operator.now seconds result) };

    /// Returns what the machine knows of the server.
    fn gauges(&mut self) -> Gauges
        ensures { idled self.old self.new };

    /// Returns a connection that had a turn, and ended while it waited for the next.
    fn ended(&mut self) -> Option<Ended>
        ensures { idled self.old self.new };

    /// Holds the conversation of a client's turn over his connection. Returns what came of it; `None` if the system refuses
    /// to set the option of the socket, and nothing was read or sent.
    fn converse<S: Store, T: Conversation>(
        &mut self,
        client: &mut Client,
        store: &mut S,
        conversation: &T,
    ) -> Option<Talked>
        ensures some { IfSome result (λ held. (talk : Talk)
            × observed self.old self.new (talked client.old talk held.turn.served)
            × From S.State store.old store.new (λ world. T.leads conversation.now S.State
            talk held.turn.served held.later store.old store.new world)) }
        ensures none { IfNone result ((store.new ≡ store.old) × idled self.old self.new) }
        ensures number { client.new.number ≡ client.old.number };

    /// Sends bytes of an object to a client, and does not wait for him. Returns how many of them he took: none if he takes
    /// none now. `None` if he has gone.
    fn tell(&mut self, client: &mut Client, bytes: &[u8]) -> Option<usize>
        ensures some { IfSome result (λ count. (count ≤ length bytes.now)
            × observed self.old self.new (told client.old (take count bytes.now))) }
        ensures none { IfNone result (idled self.old self.new) }
        ensures number { client.new.number ≡ client.old.number };

    /// Keeps a client to whom an object is sent in parts. He is served next when he takes bytes, or in his turn if he is due.
    /// This is the number of the connection from now on.
    fn put_aside(&mut self, client: Client, number: u64, is_due: bool)
        ensures { observed self.old self.new (aside client number) };

    /// Takes back a client after a turn that ended so, and returns how its connection ended; `None` if it goes on, since
    /// the whole message of the turn was read. This is the number of the connection from now on.
    ///
    /// # Errors
    ///
    /// `Clock`.
    fn end_turn(
        &mut self,
        client: Client,
        number: u64,
        front: &Front,
        end: End,
    ) -> Result<Option<End>, Fault>
        ensures { idled self.old self.new };

    /// Closes the connection of a client at once.
    fn close(&mut self, client: Client)
        ensures { observed self.old self.new (closed client) };

    /// Accepts no further client, and closes the connections that had no turn.
    fn shut(&mut self)
        ensures { idled self.old self.new };

    /// Accepts no further client, and closes the connections that wait for a turn.
    fn shut_at_once(&mut self)
        ensures { idled self.old self.new };

    /// Waits until each client whose connection was closed has closed its side, and until operators have taken what is left
    /// of their replies, for at most two seconds.
    fn settle(&mut self)
        ensures { idled self.old self.new };
}

/// Reads from an operator for a time.
#[derive(Drop)]
struct TimedReader<'a, C: Clock> {
    clock: &'a C,
    stream: &'a UnixStream,
    start: Instant,
    /// How long, in seconds.
    time: u64,
}

impl<C: Clock> Read for TimedReader<'_, C> {
    fn read(&mut self, piece: &mut [u8]) -> io::Result<usize> {
        let whole = Duration::from_secs(self.time);
        let left = whole.saturating_sub(self.start.elapsed(self.clock)?);
        if left.is_zero() {
            return Err(ErrorKind::TimedOut.into());
        }
        self.stream.set_nonblocking(false)?;
        self.stream.set_read_timeout(Some(left))?;
        let mut stream = self.stream;
        stream.read(piece)
    }
}

impl<C: Clock> TimedReader<'_, C> {
    /// Reads on and drops what is read. Returns whether the operator's side was closed in time.
    fn has_ended(&mut self) -> bool {
        let mut piece = [0; 512];
        'pieces: for _ in 0..u64::MAX {
            match self.read(&mut piece) {
                Ok(0) => return true,
                Ok(_) => {}
                Err(error) if error.kind() == ErrorKind::Interrupted => {}
                Err(_) => return false,
            }
        }
        false
    }
}

/// Reads and drops what an operator has sent, until he pauses.
fn drop_rest(stream: &UnixStream) -> io::Result<()> {
    stream.set_nonblocking(false)?;
    stream.set_read_timeout(Some(Duration::from_millis(PAUSE)))?;
    let mut stream = stream;
    let mut piece = [0; 16_384];
    'pieces: for _ in 0..DROPPED {
        if stream.read(&mut piece)? == 0 {
            break;
        }
    }
    Ok(())
}

/// The fault of a reply whose bytes could not be sent or kept.
fn reply_fault(error: &io::Error) -> Fault {
    match error.kind() {
        ErrorKind::OutOfMemory => Fault::Memory,
        _ => Fault::Operator,
    }
}

/// The size of a file, in bytes; 0 if there is none.
fn size_of_file(rt: &HostRuntime, path: &str) -> u64 {
    match fs::metadata(rt, path) {
        Ok(found) => found.len(),
        Err(_) => 0,
    }
}

/// The size of the log of a database, in bytes; 0 if there is none.
fn size_of_log(rt: &HostRuntime, db: &str) -> u64 {
    match format!(in rt.alloc(); "{db}-wal") {
        Ok(path) => size_of_file(rt, path.as_str()),
        Err(_) => 0,
    }
}

/// The resident memory of the process, in bytes; 0 if the system does not say it.
fn resident_memory(rt: &HostRuntime) -> u64 {
    let Ok(text) = fs::read_to_string(rt, "/proc/self/statm") else {
        return 0;
    };
    let pages = text
        .split(' ')
        .nth(1)
        .and_then(|word| word.parse::<u64>().ok());
    pages.unwrap_or(0).saturating_mul(PAGE)
}

/// A machine with sockets.
#[derive(Drop)]
pub struct Sockets<'a, C> {
    /// For random bytes.
    pub rt: &'a HostRuntime,
    /// For moments, and for how long clients and operators are waited for.
    pub clock: &'a C,
    /// The path of the policy file.
    pub policy: &'a str,
    /// The path of the database's file.
    pub db: &'a str,
    /// Those who wait at the sockets.
    pub queue: Queue<'a>,
    /// The requests that the store refused.
    pub refusals: Refusals,
}

impl<C: Clock> Sockets<'_, C> {
    /// Reports the requests that the store refused.
    fn report_refusals(&mut self) {
        self.refusals.report(self.rt, self.clock, self.db);
    }

    /// Holds a conversation over the connection of a client. What had arrived is read first, and what is written is kept, to be
    /// sent after the turn.
    fn talk<S: Store, T: Conversation>(
        &self,
        client: &mut Client,
        front: &mut Front,
        store: &mut S,
        conversation: &T,
    ) -> (Turn, Option<Download>)
        ensures { (talk : Talk) × From S.State store.old store.new (λ world.
            T.leads conversation.now S.State talk result.0.served result.1 store.old store.new world) }
    {
        let course = Cell::new(Course::new());
        let (received, sent) = (Cell::new(0), Cell::new(0));
        let (reader, writer) = self.queue.stream_pair(client, self.clock, &course, front);
        let mut source = Counted::new(Metered::new(reader, &received));
        let mut sink = Counted::new(Metered::new(writer, &sent));
        let Begun { served, later } = conversation.hold(store, &mut source, &mut sink);
        let turn = Turn {
            served,
            received: received.get(),
            sent: sent.get(),
        };
        (turn, later)
    }
}

impl<C: Clock> Machine for Sockets<'_, C> {
    // No contract says what a socket or a clock of the system returns.
    ghost observed = { λ _ _ _. ⊤ };

    ghost idled = { λ _ _. ⊤ };

    fn next(&mut self) -> Result<Option<Caller>, Fault> {
        self.report_refusals();
        self.queue
            .take(self.clock, &Messages)
            .map_err(|_| Fault::Network)
    }

    fn next_ready(&mut self) -> Result<Option<Caller>, Fault> {
        self.report_refusals();
        self.queue
            .take_ready(self.clock, &Messages)
            .map_err(|_| Fault::Network)
    }

    fn moment(&mut self) -> Result<Moment, Fault> {
        moment(self.clock, None)
    }

    fn random(&mut self) -> Result<[u8; 32], Fault> {
        read_random(self.rt, RANDOM)
    }

    fn receive(
        &mut self,
        operator: &OperatorStream,
        start: Instant,
        piece: &mut [u8],
    ) -> Result<(), Fault> {
        let mut reader = TimedReader {
            clock: self.clock,
            stream: self.queue.stream_of(operator),
            start,
            time: PATIENCE,
        };
        reader.read_exact(piece).map_err(|_| Fault::Operator)
    }

    fn send(&mut self, operator: &OperatorStream, bytes: &[u8]) -> Result<(), Fault> {
        self.queue
            .send(operator, bytes)
            .map_err(|error| reply_fault(&error))
    }

    fn end_reply(&mut self, operator: &OperatorStream, end: &[u8]) -> Result<(), Fault> {
        self.queue
            .end_reply(operator, end, self.clock)
            .map_err(|_| Fault::Operator)
    }

    fn drop_rest(&mut self, operator: &OperatorStream) {
        // The connection ends in any case.
        let _ = drop_rest(self.queue.stream_of(operator));
    }

    fn policy(&mut self) -> Result<Policy, Fault> {
        read_described(self.rt, self.policy)
    }

    fn wait_for(&mut self, operator: &OperatorStream, seconds: u64) -> bool {
        let Ok(start) = Instant::now(self.clock) else {
            return false;
        };
        let mut reader = TimedReader {
            clock: self.clock,
            stream: self.queue.stream_of(operator),
            start,
            time: seconds,
        };
        reader.has_ended()
    }

    fn gauges(&mut self) -> Gauges {
        Gauges {
            waiting: self.queue.waiting(),
            under_way: self.queue.under_way(),
            longest_wait: self.queue.longest_wait(),
            longest_transfer_wait: self.queue.longest_transfer_wait(),
            database: size_of_file(self.rt, self.db),
            log: size_of_log(self.rt, self.db),
            memory: resident_memory(self.rt),
            now: Instant::now(self.clock).ok(),
        }
    }

    fn ended(&mut self) -> Option<Ended> {
        self.queue.ended()
    }

    fn converse<S: Store, T: Conversation>(
        &mut self,
        client: &mut Client,
        store: &mut S,
        conversation: &T,
    ) -> Option<Talked> {
        let mut front = client.begin(self.rt.alloc()).ok()?;
        let number = client.number;
        let (turn, later) = self.talk(client, &mut front, store, conversation);
        // The connection has the number that it had, whatever was done over it.
        client.number = number;
        Some(Talked { turn, front, later })
    }

    fn tell(&mut self, client: &mut Client, bytes: &[u8]) -> Option<usize> {
        let now = Instant::now(self.clock).ok()?;
        let number = client.number;
        let sent = client.send(bytes, now);
        // As after a talk.
        client.number = number;
        sent.ok()
    }

    fn put_aside(&mut self, mut client: Client, number: u64, is_due: bool) {
        client.number = Some(number);
        self.queue.put_aside(client, is_due);
    }

    fn end_turn(
        &mut self,
        mut client: Client,
        number: u64,
        front: &Front,
        end: End,
    ) -> Result<Option<End>, Fault> {
        client.number = Some(number);
        if matches!(end, End::StoreRefused | End::StoreFailed) {
            self.refusals.count(self.rt, self.db);
        }
        let ended = match end {
            End::InputEnded if front.is_over() => self
                .queue
                .put_back(client, front, self.clock, &Messages)
                .map(|()| None),
            End::Closed | End::StoreRefused => self
                .queue
                .dismiss(client, self.clock, &Messages)
                .map(|is_open| Some(if is_open { end } else { End::WriteFailed })),
            _ => {
                self.queue.close(client);
                Ok(Some(end))
            }
        };
        ended.map_err(|_| Fault::Clock)
    }

    fn close(&mut self, client: Client) {
        self.queue.close(client);
    }

    fn shut(&mut self) {
        self.queue.shut();
    }

    fn shut_at_once(&mut self) {
        self.queue.shut_at_once();
    }

    fn settle(&mut self) {
        // The server ends in any case.
        let _ = self.queue.settle(self.clock, &Messages);
    }
}
