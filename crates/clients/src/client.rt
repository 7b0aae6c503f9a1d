//! A client's connection between its turns: what has arrived of its next message, and how long the rest may take.

ghost use Rattle.std.specs.Prelude.{◌≡◌, ◌≤◌, length, min, nat_eq, IfOk};
ghost use Rattle.std.specs.Io.Cursor.{cursor_inner, cursor_position};
ghost use Rattle.std.specs.Duration.{as_nanos};
ghost use Rattle.connections.specs.Messages.{turn_size};
ghost use Rattle.connections.specs.Waiting.{may_arrive, may_wait};
ghost use Rattle.clients.specs.Ready.{is_ready};

use connections::{Backlog, Course, Extent, Framing, Front, MessageKind, is_pause, write_now};
use std::alloc::{AllocError, Global};
use std::io::{self, Cursor, ErrorKind, Read, Write};
use std::mem;
use std::net::{Shutdown, TcpStream};
use std::time::{Duration, Instant};

/// The largest number of bytes of an upload whose turn begins only when the whole of it has arrived: a head of 16 KiB with
/// a body of 64 KiB. The turn of a longer one begins when its head has arrived.
const LONGEST_AWAITED: u64 = 81_920;

/// The most pieces of 16 KiB that are read and dropped at a time.
const DROPPED: u32 = 64;

/// Among how many bytes a head ends, or is refused.
const LONGEST_HEAD: usize = 16_384;

/// What came of a look at a connection.
#[derive(Clone, Copy, Debug, PartialEq, Eq)]
pub(crate) enum Progress {
    /// Its turn may not begin yet.
    Waiting,
    /// Its turn may begin, of a transfer or of another message.
    Ready(bool),
    /// The client ended it, within a head or between two messages.
    Ended,
    /// A read failed, or there is no memory for what arrived.
    Failed,
    /// It holds more than it may.
    Crowded,
}

/// A client's connection.
#[derive(Drop)]
pub struct Client {
    stream: TcpStream,
    /// Its key among the connections.
    pub(crate) key: usize,
    /// The number of the connection, from its first turn on.
    pub number: Option<u64>,
    /// What arrived, and was not handed out in a turn.
    arrived: Vec<u8>,
    extent: Extent,
    /// Whether nothing more will arrive.
    has_ended: bool,
    /// Since when the next message arrives, and how many bytes of it did.
    course: Course,
    /// When the connection was accepted, had its last turn, or moved its last byte.
    since: Instant,
    /// What was written to the client, and is not sent yet.
    unsent: Backlog,
    /// Whether an object is sent to it in parts.
    pub is_in_parts: bool,
    /// Whether nothing more is sent to it: it has taken nothing for too long.
    pub(crate) is_given_up: bool,
}

impl Client {
    /// A connection that was accepted now.
    pub(crate) fn new(alloc: Global, stream: TcpStream, key: usize, now: Instant) -> Client {
        Client {
            stream,
            key,
            number: None,
            arrived: Vec::new(alloc),
            extent: Extent::Head,
            has_ended: false,
            course: Course::new(),
            since: now,
            unsent: Backlog::new(alloc),
            is_in_parts: false,
            is_given_up: false,
        }
    }

    /// How many bytes of its messages it holds.
    pub(crate) fn held(&self) -> usize {
        self.arrived.len()
    }

    /// How many bytes of a reply it holds, of which some may be sent.
    pub(crate) fn unsent(&self) -> usize {
        self.unsent.held()
    }

    /// The socket, and what was written to the client and is not sent yet.
    pub(crate) fn parts(&mut self) -> (&TcpStream, &mut Backlog) {
        let Client { stream, unsent, .. } = self;
        (stream, unsent)
    }

    /// Whether a turn may begin.
    pub(crate) fn is_ready(&self) -> bool
        ensures { result ≡ is_ready self.now.extent self.now.has_ended
            (length self.now.arrived.items) }
    {
        match self.extent {
            Extent::Head => false,
            Extent::Message { kind, .. } => {
                let size = self.extent.size();
                let is_early = kind.begins_early() && size > LONGEST_AWAITED;
                self.has_ended || is_early || self.arrived.len() as u64 >= size
            }
            Extent::Refused => true,
        }
    }

    /// Takes in what arrived now, from `start` on. The head is looked for at the ends of lines, so that a client that sends it
    /// byte by byte costs no more than one that sends it at once.
    fn take_in(&mut self, start: usize, now: Instant, framing: &impl Framing) {
        let bytes = self.arrived.as_slice().get(start..).unwrap_or(&[]);
        let may_end = bytes.contains(&b'\n') || self.arrived.len() >= LONGEST_HEAD;
        self.course = self.course.begun(now).advanced(bytes.len());
        self.since = now;
        if self.extent == Extent::Head && may_end {
            self.extent = framing.extent(self.arrived.as_slice());
        }
    }

    /// Keeps bytes that arrived now.
    fn keep(
        &mut self,
        bytes: &[u8],
        now: Instant,
        framing: &impl Framing,
    ) -> Result<(), AllocError> {
        let start = self.arrived.len();
        self.arrived.extend_from_slice(bytes)?;
        self.take_in(start, now, framing);
        Ok(())
    }

    /// Reads what has arrived, until a turn may begin, or until it holds more than `most` bytes. The socket does not wait.
    pub(crate) fn receive(
        &mut self,
        now: Instant,
        framing: &impl Framing,
        most: usize,
    ) -> Progress {
        let mut piece = [0; 16_384];
        'pieces: for _ in 0..u64::MAX {
            if self.arrived.len() > most {
                return Progress::Crowded;
            }
            if self.is_ready() {
                return Progress::Ready(self.is_transfer());
            }
            let mut stream = &self.stream;
            match stream.read(&mut piece) {
                Ok(0) if self.has_ended || self.extent == Extent::Head => return Progress::Ended,
                Ok(0) => self.has_ended = true,
                Ok(count) => {
                    let bytes = piece.get(..count).unwrap_or(&[]);
                    if self.keep(bytes, now, framing).is_err() {
                        return Progress::Failed;
                    }
                }
                Err(error) if error.kind() == ErrorKind::Interrupted => {}
                Err(error) if is_pause(error.kind()) => return Progress::Waiting,
                Err(_) => return Progress::Failed,
            }
        }
        Progress::Waiting
    }

    /// Whether the next message moves the content of an object.
    pub fn is_transfer(&self) -> bool {
        matches!(
            self.extent,
            Extent::Message {
                kind: MessageKind::Upload | MessageKind::Download,
                ..
            }
        )
    }

    /// Since when the client sends nothing, or takes nothing of a reply.
    pub fn since(&self) -> Instant {
        self.since
    }

    /// Whether the next message may still arrive: the client may idle for less than `idle`, and pause within a message as
    /// within a turn.
    pub(crate) fn may_wait(&self, now: Instant, idle: Duration) -> bool
        ensures { result ≡ may_arrive self.now.course.since self.now.course.moved self.now.since
            now (as_nanos idle) }
    {
        if self.course.has_begun() {
            self.course.may_wait(self.since, now)
        } else {
            now.duration_since(self.since).as_nanos() < idle.as_nanos()
        }
    }

    /// Starts the waiting time again, since the server was busy for long.
    pub(crate) fn forgive(&mut self, now: Instant) {
        self.since = now;
        self.course = self.course.anew(now);
    }

    /// Begins a turn: the result hands out what arrived, and the socket waits from now on.
    ///
    /// # Errors
    ///
    /// Fails if the system refuses to set the option of the socket.
    pub fn begin(&mut self, alloc: Global) -> io::Result<Front>
        ensures size { IfOk result (λ front. front.left ≡ turn_size self.old.extent) }
        ensures bytes { IfOk result (λ front. cursor_inner front.arrived ≡ self.old.arrived) }
        ensures start { IfOk result (λ front. cursor_position front.arrived ≡ 0) }
        ensures number { self.new.number ≡ self.old.number }
    {
        self.stream.set_nonblocking(false)?;
        self.course = Course::new();
        let arrived = mem::replace(&mut self.arrived, Vec::new(alloc));
        Ok(Front {
            arrived: Cursor::new(arrived),
            left: self.extent.size(),
        })
    }

    /// Ends a turn: what was not handed out is the beginning of the next message.
    ///
    /// # Errors
    ///
    /// Fails if there is no memory for those bytes.
    pub(crate) fn end(&mut self, front: &Front) -> Result<(), AllocError> {
        self.arrived.extend_from_slice(front.rest())
    }

    /// Begins to wait for the next message, of which a part may have arrived.
    pub(crate) fn begin_next(&mut self, now: Instant, framing: &impl Framing) {
        self.extent = Extent::Head;
        self.course = Course::new();
        self.since = now;
        self.is_in_parts = false;
        if !self.arrived.is_empty() {
            self.take_in(0, now, framing);
        }
    }

    /// Begins to send a reply, unless that has begun. The socket does not wait from now on.
    fn begin_reply(&mut self, now: Instant) -> io::Result<()> {
        if !self.course.is_reply() {
            self.stream.set_nonblocking(true)?;
            self.course = self.course.of_reply(now);
            self.since = now;
        }
        Ok(())
    }

    /// Notes that this many bytes of a reply were sent now.
    fn note_sent(&mut self, count: usize, now: Instant) {
        if count > 0 {
            self.course = self.course.advanced(count);
            self.since = now;
        }
    }

    /// Sends what is left of the replies, as far as the socket takes it without waiting. Returns whether nothing is left.
    ///
    /// # Errors
    ///
    /// Fails if the client has closed the connection.
    pub(crate) fn flush(&mut self, now: Instant) -> io::Result<bool> {
        self.begin_reply(now)?;
        'writes: for _ in 0..u64::MAX {
            if self.unsent.is_empty() {
                return Ok(true);
            }
            let count = write_now(&self.stream, self.unsent.as_slice())?;
            if count == 0 {
                break;
            }
            self.unsent.advance(count);
            self.note_sent(count, now);
        }
        Ok(false)
    }

    /// Sends bytes of a reply after those that are left, and does not wait. Returns how many of them the socket took: none if
    /// it has no room.
    ///
    /// # Errors
    ///
    /// Fails if the client has closed the connection, or has taken nothing for too long.
    pub fn send(&mut self, bytes: &[u8], now: Instant) -> io::Result<usize>
        ensures { IfOk result (λ count. count ≤ length bytes.now) }
    {
        if self.is_given_up {
            return Err(ErrorKind::TimedOut.into());
        }
        if !self.flush(now)? {
            return Ok(0);
        }
        let count = write_now(&self.stream, bytes)?;
        self.note_sent(count, now);
        Ok(count)
    }

    /// Sends what the socket takes at once of what is left, before the connection is closed.
    pub(crate) fn send_last(&mut self) {
        if !self.unsent.is_empty() && self.stream.set_nonblocking(true).is_ok() {
            // The connection ends in any case.
            let _ = write_now(&self.stream, self.unsent.as_slice());
        }
    }

    /// Since when the reply is sent.
    pub(crate) fn replies_since(&self) -> Instant {
        self.course.start().unwrap_or(self.since)
    }

    /// Whether the socket may still take nothing of a reply.
    pub(crate) fn may_stall(&self, now: Instant) -> bool
        ensures { result ≡ may_wait self.now.course.since self.now.course.moved self.now.since now }
    {
        self.course.may_wait(self.since, now)
    }

    /// Ends what is sent, so that the client sees the end of its last reply.
    pub(crate) fn finish(&mut self, now: Instant) -> io::Result<()> {
        self.since = now;
        self.stream.shutdown(Shutdown::Write)
    }

    /// Reads and drops what the client still sends. Returns whether it may send more.
    pub(crate) fn drain(&self) -> bool {
        let mut piece = [0; 16_384];
        let mut stream = &self.stream;
        'pieces: for _ in 0..DROPPED {
            match stream.read(&mut piece) {
                Ok(0) => return false,
                Ok(_) => {}
                Err(error) => return is_pause(error.kind()),
            }
        }
        true
    }
}
