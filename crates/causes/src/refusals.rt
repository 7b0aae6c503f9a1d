//! Reports why a server's store refuses requests.

use crate::room::{Room, room_beside};
use std::io::{self, Write};
use std::rt::HostRuntime;
use std::time::{Clock, Duration, Instant};

/// How long there is no further line after one, in seconds.
const PAUSE: u64 = 1;

/// The requests of a server that its store or its memory refused, which it reports with their cause: in at most one line a
/// second, which has the number of those since the last one. The line has no token, no path and no user.
#[derive(Debug, Drop)]
pub struct Refusals {
    /// Whether they are reported.
    is_reported: bool,
    /// How many are not reported yet.
    count: u64,
    /// Whether the disk had room after the first of these.
    room: Room,
    /// When the last line was written.
    last: Option<Instant>,
}

/// Writes that requests were refused, and why.
fn write_line<E: Write>(errors: &mut E, db: &str, count: u64, room: Room) -> io::Result<()> {
    let requests = if count == 1 {
        "request was"
    } else {
        "requests were"
    };
    writeln!(errors, "custody: {count} {requests} refused: {db}: {room}")
}

impl Refusals {
    /// No refusal yet.
    pub fn new(is_reported: bool) -> Refusals {
        Refusals {
            is_reported,
            count: 0,
            room: Room::Unknown,
            last: None,
        }
    }

    /// Counts a refusal by the store of this database. At the first one that is not reported yet it looks for the cause, with a
    /// file that is written beside the database.
    pub fn count(&mut self, rt: &HostRuntime, db: &str) {
        if self.is_reported && self.count == 0 {
            self.room = room_beside(rt, db);
        }
        self.count = self.count.saturating_add(1);
    }

    /// Whether a line is due at this time.
    fn is_due(&self, now: Instant) -> bool {
        self.is_reported
            && self.count > 0
            && match self.last {
                Some(last) => now.duration_since(last) >= Duration::from_secs(PAUSE),
                None => true,
            }
    }

    /// Writes a line on the error stream about the refusals that are not reported yet, if there is one, and the last line is
    /// at least a second old.
    pub fn report<C: Clock>(&mut self, rt: &HostRuntime, clock: &C, db: &str) {
        let Ok(now) = Instant::now(clock) else {
            return;
        };
        if self.is_due(now) {
            // Each refused connection has a line of its own in any case.
            let _ = write_line(&mut rt.stderr(), db, self.count, self.room);
            self.count = 0;
            self.last = Some(now);
        }
    }
}
