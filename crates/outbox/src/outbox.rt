//! Replies that are sent as their operators read.

use crate::operator_stream::OperatorStream;
use crate::unsent::Unsent;
use mio::unix::SourceFd;
use mio::{Interest, Poll, Token};
use std::alloc::Global;
use std::io::{self, ErrorKind};
use std::os::fd::AsRawFd;
use std::os::unix::net::UnixStream;
use std::time::{Duration, Instant};

/// The most replies that are kept.
const MOST: usize = 8;

/// How long an operator may take nothing of his reply, in seconds.
const LONGEST_PAUSE: u64 = 600;

/// A reply that was made, and is sent as its operator reads.
#[derive(Drop)]
struct Reply {
    operator: UnixStream,
    unsent: Unsent,
    /// When the operator's socket took the last bytes.
    since: Instant,
    /// Whether the operator has closed the connection, or gives way to another one.
    is_closed: bool,
}

impl Reply {
    /// Sends what the operator's socket takes. Returns whether it took some.
    fn go_on(&mut self, now: Instant) -> bool {
        let sent = self.unsent.send(&self.operator);
        self.is_closed = sent.is_err();
        let has_taken = sent.unwrap_or(false);
        if has_taken {
            self.since = now;
        }
        has_taken
    }

    /// Whether nothing more is sent: there is nothing more, or the operator has gone, or he takes nothing for too long.
    fn is_over(&self, now: Instant) -> bool {
        self.is_closed
            || self.unsent.as_slice().is_empty()
            || now.duration_since(self.since) >= Duration::from_secs(LONGEST_PAUSE)
    }
}

/// Adds bytes to what a socket has not taken yet, and sends what it takes at once. Returns whether nothing is left.
fn send_after(unsent: &mut Unsent, stream: &UnixStream, bytes: &[u8]) -> io::Result<bool> {
    unsent.push(bytes)?;
    unsent.send(stream)?;
    Ok(unsent.as_slice().is_empty())
}

/// The replies that are sent while others are served.
#[derive(Drop)]
pub struct Outbox {
    alloc: Global,
    /// By which a poll names the operators' sockets.
    token: Token,
    replies: Vec<Reply>,
    /// Whether a socket may take bytes now.
    may_send: bool,
}

impl Outbox {
    /// No replies. A poll names the sockets of operators by this token.
    pub fn new(alloc: Global, token: Token) -> Outbox {
        Outbox {
            alloc,
            token,
            replies: Vec::new(alloc),
            may_send: false,
        }
    }

    /// The stream of an operator who called.
    pub fn stream_of<'o>(&self, operator: &'o OperatorStream) -> &'o UnixStream {
        &operator.stream
    }

    /// Sends bytes of a reply to its operator, after what his socket has not taken yet of it. What it does not take at once is
    /// kept with him. Returns whether nothing is left.
    ///
    /// # Errors
    ///
    /// Fails if the operator has closed the connection, and if there is no memory. What was kept still is.
    pub fn send(&self, operator: &OperatorStream, bytes: &[u8]) -> io::Result<bool> {
        let kept = operator.unsent.take();
        let mut unsent = kept.unwrap_or(Unsent::new(self.alloc));
        let sent = send_after(&mut unsent, &operator.stream, bytes);
        operator.unsent.set(Some(unsent));
        sent
    }

    /// Whether there are none.
    pub fn is_empty(&self) -> bool {
        self.replies.is_empty()
    }

    /// Whether a socket may take bytes now.
    pub fn may_send(&self) -> bool {
        self.may_send
    }

    /// Notes that a socket may take bytes.
    pub fn wake(&mut self) {
        self.may_send = true;
    }

    /// Which of the operators has taken nothing for the longest time.
    fn most_silent(&self) -> Option<usize> {
        let mut found: Option<(usize, Instant)> = None;
        for (index, reply) in self.replies.iter().enumerate() {
            match found {
                Some((_, least)) if least <= reply.since => {}
                _ => found = Some((index, reply.since)),
            }
        }
        found.map(|(index, _)| index)
    }

    /// Closes the connection of that operator, if there are as many replies as may be.
    fn make_room(&mut self) {
        if self.replies.len() < MOST {
            return;
        }
        if let Some(index) = self.most_silent()
            && let Some(reply) = self.replies.get_mut(index)
        {
            reply.is_closed = true;
        }
        self.replies.retain(|reply| !reply.is_closed);
    }

    /// Keeps the rest of a reply, which is sent as its operator reads. The caller may close his connection. If there are as
    /// many replies as may be, the operator gives way who has taken nothing for the longest time.
    ///
    /// # Errors
    ///
    /// Fails if the system has no descriptor or refuses to watch the socket, and if there is no memory.
    pub fn push(&mut self, poll: &Poll, operator: &OperatorStream, now: Instant) -> io::Result<()> {
        let Some(unsent) = operator.unsent.take() else {
            return Ok(());
        };
        self.make_room();
        let operator = operator.stream.try_clone()?;
        let handle = operator.as_raw_fd();
        poll.registry()
            .register(&mut SourceFd(&handle), self.token, Interest::WRITABLE)?;
        let reply = Reply {
            operator,
            unsent,
            since: now,
            is_closed: false,
        };
        match self.replies.push(reply) {
            Ok(()) => Ok(()),
            Err(_) => Err(ErrorKind::OutOfMemory.into()),
        }
    }

    /// Sends what the sockets take, and closes the connections of the replies that are over.
    pub fn go_on(&mut self, now: Instant) {
        if self.may_send {
            self.may_send = false;
            for reply in self.replies.iter_mut() {
                self.may_send |= reply.go_on(now);
            }
        }
        self.replies.retain(|reply| !reply.is_over(now));
    }

    /// Closes the connections of all.
    pub fn clear(&mut self) {
        self.replies.clear();
        self.may_send = false;
    }
}
