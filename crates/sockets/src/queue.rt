//! The clients and operators that wait to be answered.

ghost use Rattle.std.specs.Prelude.{◌≡◌, IfOk, OnErr, IfSome};
ghost use Rattle.sockets.specs.Turns.{kind_of, other_than, turn_after};

use clients::{Client, Ended, LONGEST_LEAVING, Limits, ROUND, Room};
use connections::{Course, Framing, Front, PatientReader, PatientWriter};
use mio::event::Events;
use mio::unix::SourceFd;
use mio::{Interest, Poll, Token};
use outbox::{OperatorStream, Outbox};
use std::cell::Cell;
use std::io::{self, ErrorKind};
use std::net::{TcpListener, TcpStream};
use std::os::fd::AsRawFd;
use std::os::unix::net::{UnixListener, UnixStream};
use std::rt::HostRuntime;
use std::time::{Clock, Duration, Instant};

/// The tokens of the listeners.
const CLIENTS: Token = Token(0);

const OPERATORS: Token = Token(1);

/// The token of the operators who have not taken all of their replies.
const READERS: Token = Token(2);

/// How many events the system reports at a time.
const NEWS: usize = 1_024;

/// The most clients that are accepted at a time.
const ACCEPTED: u32 = 1_024;

/// Who is answered next.
#[derive(Drop)]
pub enum Caller {
    /// A client, whose next message has arrived.
    Client(Client),
    /// An operator, who sends a command.
    Operator(OperatorStream),
}

/// A kind of caller.
#[derive(Clone, Copy, Debug, PartialEq, Eq)]
enum Kind {
    /// A client.
    Client,
    /// An operator.
    Operator,
}

impl Kind {
    /// The other kind.
    fn other(self) -> Kind
        ensures { result ≡ other_than self }
    {
        match self {
            Kind::Client => Kind::Operator,
            Kind::Operator => Kind::Client,
        }
    }
}

impl Caller {
    fn kind(&self) -> Kind
        ensures { result ≡ kind_of self.now }
    {
        match self {
            Caller::Client(_) => Kind::Client,
            Caller::Operator(_) => Kind::Operator,
        }
    }
}

/// Those who wait to be answered: the connections of clients, and the operators of the listener.
#[derive(Drop)]
pub struct Queue<'a> {
    listener: &'a TcpListener,
    control: Option<&'a UnixListener>,
    /// The kind that is answered first.
    turn: Kind,
    room: Room,
    /// The replies to operators that are not sent yet.
    outbox: Outbox,
    /// Whether further clients are accepted.
    is_open: bool,
    /// Whether a connection may wait at the listener of the clients, and at that of the operators.
    clients_wait: bool,
    operators_wait: bool,
    /// Whether the system had no room for an operator since the last look.
    is_short: bool,
    /// A client that was accepted, and waits for the place of one that is given up.
    newcomer: Option<TcpStream>,
    /// The longest times that a short message of a client, and one with an object, has waited for its turn.
    longest_wait: Duration,
    longest_transfer_wait: Duration,
    poll: Poll,
    events: Events,
}

/// Whether an accept that failed is tried again.
fn is_passing(kind: ErrorKind) -> bool {
    matches!(kind, ErrorKind::Interrupted | ErrorKind::ConnectionAborted)
}

/// Whether an accept failed for want of what the system has of files and memory: ENOMEM, ENFILE, EMFILE, ENOBUFS.
fn is_shortage(error: &io::Error) -> bool {
    matches!(error.raw_os_error(), Some(12 | 23 | 24 | 105))
}

impl<'a> Queue<'a> {
    /// Those who wait at these listeners.
    ///
    /// # Errors
    ///
    /// Fails if the system refuses to watch the listeners, or if there is no memory.
    pub fn new(
        rt: &HostRuntime,
        listener: &'a TcpListener,
        control: Option<&'a UnixListener>,
        limits: Limits,
    ) -> io::Result<Queue<'a>> {
        let poll = Poll::new(rt)?;
        listener.set_nonblocking(true)?;
        let clients = listener.as_raw_fd();
        poll.registry()
            .register(&mut SourceFd(&clients), CLIENTS, Interest::READABLE)?;
        if let Some(control) = control {
            control.set_nonblocking(true)?;
            let operators = control.as_raw_fd();
            poll.registry()
                .register(&mut SourceFd(&operators), OPERATORS, Interest::READABLE)?;
        }
        Ok(Queue {
            listener,
            control,
            turn: Kind::Operator,
            room: Room::new(rt.alloc(), limits)?,
            outbox: Outbox::new(rt.alloc(), READERS),
            is_open: true,
            clients_wait: false,
            operators_wait: false,
            is_short: false,
            newcomer: None,
            longest_wait: Duration::ZERO,
            longest_transfer_wait: Duration::ZERO,
            poll,
            events: Events::with_capacity(rt.alloc(), NEWS)?,
        })
    }

    /// Takes in a client that was accepted, in the place of the one that gives way. If that one is only given up, the client
    /// waits until it is closed.
    fn welcome(
        &mut self,
        stream: TcpStream,
        gives_way: Option<usize>,
        now: Instant,
        framing: &impl Framing,
    ) {
        if let Some(key) = gives_way {
            self.room.give_up(key);
        }
        if self.room.is_full() {
            self.newcomer = Some(stream);
        } else {
            self.room.enter(&self.poll, stream, now, framing);
        }
    }

    /// Takes in the client that waits for a place, if one is free.
    fn admit_newcomer(&mut self, now: Instant, framing: &impl Framing) {
        if !self.room.is_full()
            && let Some(stream) = self.newcomer.take()
        {
            self.room.enter(&self.poll, stream, now, framing);
        }
    }

    /// Whether another client may be accepted, beside those that may be, or in the place of one.
    fn may_admit(&self, gives_way: Option<usize>) -> bool {
        let has_place = !self.room.is_full() || gives_way.is_some();
        self.is_open && self.clients_wait && self.newcomer.is_none() && has_place
    }

    /// Accepts the clients that wait at the listener. If there are as many connections as there may be, or if the system
    /// has no room for one more, one gives way.
    fn admit(&mut self, now: Instant, framing: &impl Framing) -> io::Result<()> {
        self.admit_newcomer(now, framing);
        'clients: for _ in 0..ACCEPTED {
            let gives_way = if self.room.is_full() {
                self.room.gives_way(now)
            } else {
                None
            };
            if !self.may_admit(gives_way) {
                break;
            }
            match self.listener.accept() {
                Ok((stream, _)) => self.welcome(stream, gives_way, now, framing),
                Err(error) if error.kind() == ErrorKind::WouldBlock => self.clients_wait = false,
                Err(error) if is_passing(error.kind()) => {}
                Err(error) if is_shortage(&error) => {
                    if !self.room.evict(now) {
                        break;
                    }
                }
                Err(error) => return Err(error),
            }
        }
        Ok(())
    }

    /// Accepts an operator, if one waits. If the system has no room for him, and no connection can give way, he waits.
    fn next_operator(&mut self, now: Instant) -> io::Result<Option<Caller>>
        ensures kind { IfOk result (λ found. IfSome found
            (λ caller. kind_of caller ≡ Kind.Operator)) }
        ensures turn { self.new.turn ≡ self.old.turn }
    {
        let Some(control) = self.control else {
            return Ok(None);
        };
        match control.accept() {
            Ok((stream, _)) => Ok(Some(Caller::Operator(OperatorStream::new(stream)))),
            Err(error) if error.kind() == ErrorKind::WouldBlock => {
                self.operators_wait = false;
                Ok(None)
            }
            Err(error) if is_passing(error.kind()) => Ok(None),
            Err(error) if is_shortage(&error) => {
                self.is_short = !self.room.evict(now);
                Ok(None)
            }
            Err(error) => Err(error),
        }
    }

    /// The next of this kind, if one is ready.
    fn next_of(&mut self, kind: Kind, now: Instant) -> io::Result<Option<Caller>>
        ensures kind { IfOk result (λ found. IfSome found (λ caller. kind_of caller ≡ kind)) }
        ensures turn { self.new.turn ≡ self.old.turn }
    {
        match kind {
            Kind::Client => Ok(self.room.take().map(Caller::Client)),
            Kind::Operator if self.operators_wait => self.next_operator(now),
            Kind::Operator => Ok(None),
        }
    }

    /// The next of those who are ready: of the kind whose turn it is, or else of the other. Then it is the turn of the
    /// kind that was not answered, so neither clients nor operators wait for more than one of the others.
    fn next(&mut self, now: Instant) -> io::Result<Option<Caller>>
        ensures turn { IfOk result (λ found. self.new.turn ≡ turn_after self.old.turn found) }
        ensures err { OnErr result (self.new.turn ≡ self.old.turn) }
    {
        let found = match self.next_of(self.turn, now)? {
            Some(caller) => Some(caller),
            None => self.next_of(self.turn.other(), now)?,
        };
        if let Some(caller) = &found {
            self.turn = caller.kind().other();
        }
        Ok(found)
    }

    /// Whether nobody is connected, and nobody waits at the listeners.
    fn is_idle(&self) -> bool {
        let is_empty = self.room.is_empty() && self.outbox.is_empty();
        is_empty && self.newcomer.is_none() && !self.clients_wait && !self.operators_wait
    }

    /// How long a look for the next one to answer may wait: not at all if there is something to do, and until a connection
    /// may have waited for too long if there are any. `None` is without a limit.
    fn patience(&self) -> Option<Duration> {
        let may_accept = self.operators_wait && !self.is_short;
        let may_enter = self.newcomer.is_some() && !self.room.is_full();
        let may_send = self.outbox.may_send();
        let may_serve = self.room.has_ready() || self.room.has_ended();
        if may_serve || may_enter || may_accept || may_send {
            Some(Duration::ZERO)
        } else if self.is_idle() {
            None
        } else {
            Some(Duration::from_millis(ROUND))
        }
    }

    /// Looks at those of whom the system has news, and waits for some for at most this long. Sends to operators what they
    /// take. Returns when it looked.
    fn look(
        &mut self,
        longest: Option<Duration>,
        clock: &impl Clock,
        framing: &impl Framing,
    ) -> io::Result<Instant> {
        self.poll.poll(&mut self.events, longest)?;
        self.is_short = false;
        let now = Instant::now(clock)?;
        for event in self.events.iter() {
            match event.token() {
                CLIENTS => self.clients_wait = true,
                OPERATORS => self.operators_wait = true,
                READERS => self.outbox.wake(),
                token => self.room.look(token, event.is_writable(), now, framing),
            }
        }
        self.outbox.go_on(now);
        self.admit(now, framing)?;
        self.room.expire(now);
        Ok(now)
    }

    /// Notes how long the caller has waited for his turn, if it is the first one for his message.
    fn note_wait(&mut self, caller: &Caller, now: Instant) {
        if let Caller::Client(client) = caller
            && !client.is_in_parts
        {
            let longest = if client.is_transfer() {
                &mut self.longest_transfer_wait
            } else {
                &mut self.longest_wait
            };
            *longest = now.duration_since(client.since()).max(*longest);
        }
    }

    /// How many clients wait for a turn, since their message has arrived.
    pub fn waiting(&self) -> usize {
        self.room.waiting()
    }

    /// To how many clients an object or the rest of a reply is sent.
    pub fn under_way(&self) -> usize {
        self.room.under_way()
    }

    /// The longest time that a short message of a client has waited for its turn.
    pub fn longest_wait(&self) -> Duration {
        self.longest_wait
    }

    /// The longest time that the message of an upload or a download has waited for its turn.
    pub fn longest_transfer_wait(&self) -> Duration {
        self.longest_transfer_wait
    }

    /// Looks once, and waits for at most this long. Returns the next one to answer, if one is ready; `None` if nobody is, or
    /// if a connection ended that had a turn.
    fn take_within(
        &mut self,
        longest: Option<Duration>,
        clock: &impl Clock,
        framing: &impl Framing,
    ) -> io::Result<Option<Caller>> {
        let now = self.look(longest, clock, framing)?;
        if self.room.has_ended() {
            return Ok(None);
        }
        let found = self.next(now)?;
        if let Some(caller) = &found {
            self.note_wait(caller, now);
        }
        Ok(found)
    }

    /// The next one to answer. Waits if nobody is ready; `None` if a connection ended that had a turn.
    ///
    /// # Errors
    ///
    /// Fails if a listener failed, and if the clock did.
    pub fn take(
        &mut self,
        clock: &impl Clock,
        framing: &impl Framing,
    ) -> io::Result<Option<Caller>> {
        'looks: for _ in 0..u64::MAX {
            let longest = self.patience();
            let found = self.take_within(longest, clock, framing)?;
            if found.is_some() || self.room.has_ended() {
                return Ok(found);
            }
        }
        Err(ErrorKind::TimedOut.into())
    }

    /// The next one to answer, if one is ready now; `None` if nobody is, or if a connection ended that had a turn.
    ///
    /// # Errors
    ///
    /// Fails if a listener failed, and if the clock did.
    pub fn take_ready(
        &mut self,
        clock: &impl Clock,
        framing: &impl Framing,
    ) -> io::Result<Option<Caller>> {
        self.take_within(Some(Duration::ZERO), clock, framing)
    }

    /// A connection that had a turn, and ended while it waited for the next.
    pub fn ended(&mut self) -> Option<Ended> {
        self.room.ended()
    }

    /// Accepts no further client, and closes the connections that had no turn.
    pub fn shut(&mut self) {
        self.is_open = false;
        self.newcomer = None;
        self.room.send_away();
    }

    /// Accepts no further client, and closes the connections that wait for a turn, and the others once their last reply is
    /// sent.
    pub fn shut_at_once(&mut self) {
        self.is_open = false;
        self.newcomer = None;
        self.room.send_all_away();
    }

    /// Waits until what is left of replies to clients and operators is sent, and until each client whose connection was closed
    /// has closed its side, for at most two seconds.
    ///
    /// # Errors
    ///
    /// Fails if a listener or the clock did.
    pub fn settle(&mut self, clock: &impl Clock, framing: &impl Framing) -> io::Result<()> {
        let start = Instant::now(clock)?;
        'looks: for _ in 0..u64::MAX {
            if self.room.is_empty() && self.outbox.is_empty() {
                break;
            }
            let longest = self.patience();
            let now = self.look(longest, clock, framing)?;
            if now.duration_since(start) >= Duration::from_secs(LONGEST_LEAVING) {
                self.outbox.clear();
                self.room.clear();
            }
        }
        Ok(())
    }

    /// Sends bytes of a reply to its operator, after what his socket has not taken yet of it. Nobody waits for him: what the
    /// socket does not take at once is kept.
    ///
    /// # Errors
    ///
    /// Fails if the operator has closed the connection, and if there is no memory.
    pub fn send(&self, operator: &OperatorStream, bytes: &[u8]) -> io::Result<()> {
        self.outbox.send(operator, bytes)?;
        Ok(())
    }

    /// Sends the end of a reply to its operator, after what his socket has not taken yet of it. What it does not take at once
    /// is sent while others are served. His connection is closed if he takes nothing for ten minutes, and if there are more
    /// than eight such operators, and he has taken nothing for longer than the others.
    ///
    /// # Errors
    ///
    /// Fails if the operator has closed the connection, if the system has no descriptor or no memory, and if the clock
    /// failed. The reply has no end then.
    pub fn end_reply(
        &mut self,
        operator: &OperatorStream,
        end: &[u8],
        clock: &impl Clock,
    ) -> io::Result<()> {
        if self.outbox.send(operator, end)? {
            return Ok(());
        }
        let now = Instant::now(clock)?;
        self.outbox.push(&self.poll, operator, now)
    }

    /// The stream of an operator who called.
    pub fn stream_of<'o>(&self, operator: &'o OperatorStream) -> &'o UnixStream {
        self.outbox.stream_of(operator)
    }

    /// Reads the message of a client's turn, what had arrived first, and keeps what is written of the reply.
    pub fn stream_pair<'c, C: Clock>(
        &self,
        client: &'c mut Client,
        clock: &'c C,
        course: &'c Cell<Course>,
        front: &'c mut Front,
    ) -> (PatientReader<'c, C>, PatientWriter<'c, C>) {
        self.room.stream_pair(client, clock, course, front)
    }

    /// Takes a client back after a turn whose message was handed out. Its next message is looked at once the reply is sent,
    /// which nobody waits for.
    ///
    /// # Errors
    ///
    /// Fails if the clock did.
    pub fn put_back(
        &mut self,
        client: Client,
        front: &Front,
        clock: &impl Clock,
        framing: &impl Framing,
    ) -> io::Result<()> {
        self.room
            .put_back(client, front, Instant::now(clock)?, framing);
        Ok(())
    }

    /// Keeps a client to whom an object is sent in parts. It is ready again once its socket takes some, or at once if `is_due`;
    /// and also if it takes nothing for too long, but then nothing more can be sent to it.
    pub fn put_aside(&mut self, client: Client, is_due: bool) {
        self.room.put_aside(client, is_due);
    }

    /// Closes a connection once its last reply is sent, which nobody waits for. What the client still sends is then read and
    /// dropped, until it has closed its side, for at most two seconds: a close with unread bytes would reset the connection,
    /// and the client could lose the reply. Returns whether the client has not closed the connection.
    ///
    /// # Errors
    ///
    /// Fails if the clock did.
    pub fn dismiss(
        &mut self,
        client: Client,
        clock: &impl Clock,
        framing: &impl Framing,
    ) -> io::Result<bool> {
        Ok(self.room.dismiss(client, Instant::now(clock)?, framing))
    }

    /// Closes a connection at once. What is left of its replies is sent as far as the socket takes it.
    pub fn close(&mut self, client: Client) {
        self.room.close(client);
    }
}
