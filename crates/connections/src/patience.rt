//! How long the reads and writes of a connection wait for a client.

ghost use Rattle.std.specs.Prelude.{◌≡◌, ◌≤◌, is_some, length, IfOk};
ghost use Rattle.std.specs.Duration.{as_nanos};
ghost use Rattle.std.specs.Io.{ReadsAtMost, WritesAtMost};
ghost use Rattle.connections.specs.Waiting.{allowance, elapsed, may_wait};

use crate::backlog::Backlog;
use crate::front::Front;
use std::cell::Cell;
use std::io::{self, ErrorKind, Read, Write};
use std::net::TcpStream;
use std::time::{Clock, Duration, Instant};

/// How long one call of the socket waits, in milliseconds. After it the rules of this module are
/// applied.
const SLICE: u64 = 25;

/// The longest pause within a message or a reply, and the time that it may take however few bytes it
/// has, in seconds.
const GRACE: u64 = 30;

/// The bytes for which a message or a reply may take one second more.
const BYTES_A_SECOND: u64 = 16_384;

/// Sets how the socket of a connection reads and writes: at once, and in a turn for a short time in one call.
///
/// # Errors
///
/// Fails if the system refuses to set an option of the socket.
pub fn prepare(stream: &TcpStream) -> io::Result<()> {
    stream.set_nodelay(true)?;
    let slice = Duration::from_millis(SLICE);
    stream.set_read_timeout(Some(slice))?;
    stream.set_write_timeout(Some(slice))?;
    stream.set_nonblocking(true)
}

/// What a connection is occupied with.
#[derive(Clone, Copy, Debug, PartialEq, Eq)]
enum Activity {
    /// A message is read.
    Message,
    /// Replies are written.
    Reply,
}

/// What a connection is occupied with, since when, and how many bytes it read or wrote for it.
#[derive(Clone, Copy)]
pub struct Course {
    activity: Activity,
    /// `None` before the first read or write.
    since: Option<Instant>,
    moved: u64,
}

/// How long the next read or write may wait within a message or a reply that began `elapsed` ago, and
/// of which `moved` bytes were read or written.
fn allowance(elapsed: Duration, moved: u64) -> Duration
    ensures { as_nanos result ≡ allowance (as_nanos elapsed) moved }
{
    let whole = Duration::from_secs(GRACE + moved / BYTES_A_SECOND);
    let left = whole.saturating_sub(elapsed);
    let grace = Duration::from_secs(GRACE);
    if left < grace { left } else { grace }
}

/// Whether a call of the socket ended without an error of the connection: its time was over, or a
/// signal came.
pub fn is_pause(kind: ErrorKind) -> bool {
    matches!(
        kind,
        ErrorKind::WouldBlock | ErrorKind::TimedOut | ErrorKind::Interrupted
    )
}

/// Writes bytes to a socket that does not wait. Returns how many it took: none if it has no room.
///
/// # Errors
///
/// Fails if the client has closed the connection.
pub fn write_now(stream: &TcpStream, bytes: &[u8]) -> io::Result<usize>
    ensures { IfOk result (λ count. count ≤ length bytes.now) }
{
    let mut stream = stream;
    'tries: for _ in 0..u64::MAX {
        match stream.write(bytes) {
            Err(error) if error.kind() == ErrorKind::Interrupted => {}
            Err(error) if is_pause(error.kind()) => return Ok(0),
            written => return written,
        }
    }
    Ok(0)
}

impl Course {
    /// The course of a turn, or of a message, of which nothing was read yet.
    pub fn new() -> Course {
        Course::of(Activity::Message)
    }

    fn of(activity: Activity) -> Course {
        Course {
            activity,
            since: None,
            moved: 0,
        }
    }

    /// Whether a byte was read or written.
    pub fn has_begun(&self) -> bool
        ensures { result ≡ is_some self.now.since }
    {
        self.since.is_some()
    }

    /// The same, which began at this moment if it had not begun.
    pub fn begun(self, now: Instant) -> Course {
        Course {
            since: Some(self.since.unwrap_or(now)),
            ..self
        }
    }

    /// The same, as if it had begun at this moment, if it had begun.
    pub fn anew(self, now: Instant) -> Course {
        Course {
            since: self.since.map(|_| now),
            ..self
        }
    }

    /// The course of a reply: the same if it is one, and else one that begins now.
    pub fn of_reply(self, now: Instant) -> Course {
        match self.activity {
            Activity::Reply => self.begun(now),
            Activity::Message => Course::of(Activity::Reply).begun(now),
        }
    }

    /// Whether replies are written.
    pub fn is_reply(&self) -> bool {
        self.activity == Activity::Reply
    }

    /// When it began; `None` if it has not begun.
    pub fn start(&self) -> Option<Instant>
        ensures { result ≡ self.now.since }
    {
        self.since
    }

    /// How long it had taken at this moment.
    fn elapsed(&self, now: Instant) -> Duration
        ensures { as_nanos result ≡ elapsed self.now.since now }
    {
        now.duration_since(self.since.unwrap_or(now))
    }

    /// The same, after `count` more bytes.
    pub fn advanced(self, count: usize) -> Course {
        Course {
            moved: self.moved.saturating_add(count as u64),
            ..self
        }
    }

    /// Whether a read or a write that began at `start` may still wait.
    pub fn may_wait(&self, start: Instant, now: Instant) -> bool
        ensures { result ≡ may_wait self.now.since self.now.moved start now }
    {
        let most = allowance(self.elapsed(start), self.moved);
        now.duration_since(start).as_nanos() < most.as_nanos()
    }
}

/// Reads the message of a turn: what arrived before, and then from the client, for as long as it may take. At the end of
/// the message, as at the end of the client's bytes, a read returns 0: so nothing of the next message is read.
#[derive(Drop)]
pub struct PatientReader<'a, C: Clock> {
    /// The clock of the limits.
    pub clock: &'a C,
    /// The client's connection.
    pub stream: &'a TcpStream,
    /// What the connection is occupied with.
    pub course: &'a Cell<Course>,
    /// What arrived before.
    pub front: &'a mut Front,
}

impl<C: Clock> PatientReader<'_, C> {
    /// What the connection is occupied with in a read that begins now.
    fn course_at(&self, now: Instant) -> Course {
        let course = self.course.get();
        match course.activity {
            Activity::Reply => Course::of(Activity::Message).begun(now),
            Activity::Message => course.begun(now),
        }
    }

    /// Reads from the client.
    fn wait(&self, piece: &mut [u8]) -> io::Result<usize>
        ensures { ReadsAtMost result piece.new }
    {
        let start = Instant::now(self.clock)?;
        let course = self.course_at(start);
        if !course.may_wait(start, start) {
            return Ok(0);
        }
        let mut stream = self.stream;
        'slices: for _ in 0..u64::MAX {
            match stream.read(piece) {
                Ok(count) => {
                    self.course.set(course.advanced(count));
                    return Ok(count);
                }
                Err(error) if is_pause(error.kind()) => {}
                Err(error) => return Err(error),
            }
            if !course.may_wait(start, Instant::now(self.clock)?) {
                return Ok(0);
            }
        }
        Ok(0)
    }
}

impl<C: Clock> Read for PatientReader<'_, C> {
    fn read(&mut self, piece: &mut [u8]) -> io::Result<usize> {
        let most = self.front.most(piece.len());
        if most == 0 {
            return Ok(0);
        }
        let piece = &mut piece[..most];
        let count = match self.front.arrived.read(piece)? {
            0 => self.wait(piece)?,
            count => count,
        };
        self.front.left = self.front.left.saturating_sub(count as u64);
        Ok(count)
    }
}

/// Writes to a client for as long as it may take. Then a write fails.
fn wait_to_write<C: Clock>(
    clock: &C,
    stream: &TcpStream,
    course: &Cell<Course>,
    piece: &[u8],
) -> io::Result<usize>
    ensures { WritesAtMost result piece.now }
{
    let start = Instant::now(clock)?;
    let begun = course.get().of_reply(start);
    let mut stream = stream;
    'slices: for _ in 0..u64::MAX {
        match stream.write(piece) {
            Ok(count) => {
                course.set(begun.advanced(count));
                return Ok(count);
            }
            Err(error) if is_pause(error.kind()) => {}
            Err(error) => return Err(error),
        }
        if !begun.may_wait(start, Instant::now(clock)?) {
            break;
        }
    }
    Err(ErrorKind::TimedOut.into())
}

impl Backlog {
    /// Writes all of it to the client.
    fn wait_to_send<C: Clock>(
        &mut self,
        clock: &C,
        stream: &TcpStream,
        course: &Cell<Course>,
    ) -> io::Result<()> {
        'pieces: for _ in 0..u64::MAX {
            if self.is_empty() {
                break;
            }
            let count = wait_to_write(clock, stream, course, self.as_slice())?;
            if count == 0 {
                return Err(ErrorKind::WriteZero.into());
            }
            self.advance(count);
        }
        Ok(())
    }
}

/// Keeps what is written to a client, which is sent after the turn. If that is too much, or if there is no memory for it, it
/// is written to the client for as long as it may take. Then a write fails.
#[derive(Drop)]
pub struct PatientWriter<'a, C: Clock> {
    /// The clock of the limits.
    pub clock: &'a C,
    /// The client's connection.
    pub stream: &'a TcpStream,
    /// What the connection is occupied with.
    pub course: &'a Cell<Course>,
    /// What was written, and is not sent yet.
    pub unsent: &'a mut Backlog,
    /// Whether nothing more is kept.
    pub writes_through: bool,
}

impl<C: Clock> Write for PatientWriter<'_, C> {
    fn write(&mut self, piece: &[u8]) -> io::Result<usize> {
        if !self.writes_through && self.unsent.push(piece) {
            return Ok(piece.len());
        }
        self.writes_through = true;
        let (clock, stream, course) = (self.clock, self.stream, self.course);
        self.unsent.wait_to_send(clock, stream, course)?;
        wait_to_write(clock, stream, course, piece)
    }

    fn flush(&mut self) -> io::Result<()> {
        Ok(())
    }
}
