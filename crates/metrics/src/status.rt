//! How a server is, in the text format that Prometheus reads.

use policy::Repo;
use service::{End, Served};
use std::alloc::{AllocError, Global};
use std::time::{Duration, Instant};
use store::Room;

/// What the machine of a server knows of it.
#[derive(Clone, Copy)]
pub struct Gauges {
    /// How many clients wait for a turn, since their message has arrived.
    pub waiting: usize,
    /// To how many clients an object or the rest of a reply is sent.
    pub under_way: usize,
    /// The longest time that a short message of a client has waited for its turn.
    pub longest_wait: Duration,
    /// The longest time that the message of an upload or a download has waited for its turn.
    pub longest_transfer_wait: Duration,
    /// The size of the database's file, in bytes.
    pub database: u64,
    /// The size of its log, in bytes.
    pub log: u64,
    /// The resident memory of the process, in bytes.
    pub memory: u64,
    /// The time; `None` if the clock failed.
    pub now: Option<Instant>,
}

/// A turn of a client.
#[derive(Clone, Copy)]
pub struct Turn {
    /// How many replies were written, and how the turn ended.
    pub served: Served,
    /// How many bytes were received.
    pub received: u64,
    /// How many bytes were sent.
    pub sent: u64,
}

/// How many connections ended, by how they did.
#[derive(Clone, Copy)]
struct Ends {
    input_ended: u64,
    closed: u64,
    store_refused: u64,
    read_failed: u64,
    write_failed: u64,
    store_failed: u64,
}

/// What a server has counted since it began.
#[derive(Clone, Copy)]
pub struct Counts {
    /// When it began; `None` if the clock failed.
    pub began: Option<Instant>,
    /// When it read its policy; `None` if the clock failed.
    pub read_policy: Option<Instant>,
    ends: Ends,
    replies: u64,
    received: u64,
    sent: u64,
    busy: Duration,
    answered: u64,
    refused: u64,
}

/// What a repository stores, without a look at its objects.
#[derive(Clone, Copy)]
pub struct Stored<'a> {
    /// The repository.
    pub repo: &'a Repo,
    /// The bytes of its objects.
    pub used: u64,
    /// How many locks were ever made.
    pub locks_made: u32,
}

/// A value that each repository has.
#[derive(Clone, Copy)]
enum RepositoryValue {
    Used,
    Quota,
    LocksMade,
}

impl RepositoryValue {
    /// The name of the metric, its kind and what it is.
    fn metric(self) -> (&'static str, &'static str, &'static str) {
        match self {
            RepositoryValue::Used => (
                "custody_repository_stored_bytes",
                "gauge",
                "Bytes of the objects of a repository.",
            ),
            RepositoryValue::Quota => (
                "custody_repository_quota_bytes",
                "gauge",
                "Bytes that a repository may store.",
            ),
            RepositoryValue::LocksMade => (
                "custody_repository_locks_made_total",
                "counter",
                "Locks that were ever made in a repository.",
            ),
        }
    }
}

impl Stored<'_> {
    fn value(&self, value: RepositoryValue) -> u64 {
        match value {
            RepositoryValue::Used => self.used,
            RepositoryValue::Quota => self.repo.quota(),
            RepositoryValue::LocksMade => u64::from(self.locks_made),
        }
    }
}

impl Gauges {
    /// How long ago this was; none if a clock failed.
    fn since(&self, moment: Option<Instant>) -> Duration {
        match (self.now, moment) {
            (Some(now), Some(then)) => now.duration_since(then),
            _ => Duration::ZERO,
        }
    }
}

impl Counts {
    /// The counts of a server that begins now, and has read its policy: nothing is counted yet.
    pub fn new(now: Option<Instant>) -> Counts {
        Counts {
            began: now,
            read_policy: now,
            ends: Ends {
                input_ended: 0,
                closed: 0,
                store_refused: 0,
                read_failed: 0,
                write_failed: 0,
                store_failed: 0,
            },
            replies: 0,
            received: 0,
            sent: 0,
            busy: Duration::ZERO,
            answered: 0,
            refused: 0,
        }
    }

    /// Counts an operator, whose command was run or not.
    pub fn count_operator(&mut self, is_answered: bool) {
        let count = if is_answered {
            &mut self.answered
        } else {
            &mut self.refused
        };
        *count = count.saturating_add(1);
    }

    /// Counts a connection that ended.
    pub fn count_end(&mut self, end: End) {
        let count = match end {
            End::InputEnded => &mut self.ends.input_ended,
            End::Closed => &mut self.ends.closed,
            End::StoreRefused => &mut self.ends.store_refused,
            End::ReadFailed => &mut self.ends.read_failed,
            End::WriteFailed => &mut self.ends.write_failed,
            End::StoreFailed => &mut self.ends.store_failed,
        };
        *count = count.saturating_add(1);
    }

    /// Counts a turn.
    pub fn count_turn(&mut self, turn: Turn, time: Duration) {
        self.replies = self.replies.saturating_add(turn.served.answered as u64);
        self.received = self.received.saturating_add(turn.received);
        self.sent = self.sent.saturating_add(turn.sent);
        self.busy = self.busy.saturating_add(time);
    }
}

/// A text of lines in the format of Prometheus.
#[derive(Drop)]
struct Metrics {
    alloc: Global,
    text: String,
}

impl Metrics {
    fn new(alloc: Global) -> Metrics {
        Metrics {
            alloc,
            text: String::new(alloc),
        }
    }

    /// Adds the two lines that say what a metric is.
    fn describe(&mut self, name: &str, kind: &str, help: &str) -> Result<(), AllocError> {
        let lines = format!(in self.alloc; "# HELP {name} {help}\n# TYPE {name} {kind}\n")?;
        self.text.push_str(lines.as_str())
    }

    /// Adds a value of a metric, with one label.
    fn value_of(
        &mut self,
        name: &str,
        label: &str,
        of: &str,
        value: u64,
    ) -> Result<(), AllocError> {
        let line = format!(in self.alloc; "{name}{{{label}=\"{of}\"}} {value}\n")?;
        self.text.push_str(line.as_str())
    }

    /// Adds a metric that has one whole number.
    fn number(&mut self, name: &str, kind: &str, help: &str, value: u64) -> Result<(), AllocError> {
        self.describe(name, kind, help)?;
        let line = format!(in self.alloc; "{name} {value}\n")?;
        self.text.push_str(line.as_str())
    }

    /// Adds a metric that has one time.
    fn time(
        &mut self,
        name: &str,
        kind: &str,
        help: &str,
        time: Duration,
    ) -> Result<(), AllocError> {
        self.describe(name, kind, help)?;
        let (seconds, millis) = (time.as_secs(), time.subsec_millis());
        let line = format!(in self.alloc; "{name} {seconds}.{millis:03}\n")?;
        self.text.push_str(line.as_str())
    }

    /// Adds how many connections ended.
    fn ends(&mut self, ends: &Ends) -> Result<(), AllocError> {
        let name = "custody_connections_total";
        self.describe(
            name,
            "counter",
            "Connections of clients, by how they ended.",
        )?;
        self.value_of(name, "end", "input_ended", ends.input_ended)?;
        self.value_of(name, "end", "closed", ends.closed)?;
        self.value_of(name, "end", "store_refused", ends.store_refused)?;
        self.value_of(name, "end", "read_failed", ends.read_failed)?;
        self.value_of(name, "end", "write_failed", ends.write_failed)?;
        self.value_of(name, "end", "store_failed", ends.store_failed)
    }

    /// Adds the values that each repository has.
    fn repositories(
        &mut self,
        all: &[Stored<'_>],
        value: RepositoryValue,
    ) -> Result<(), AllocError> {
        let (name, kind, help) = value.metric();
        self.describe(name, kind, help)?;
        for stored in all {
            let repo = stored.repo.name().as_str();
            self.value_of(name, "repository", repo, stored.value(value))?;
        }
        Ok(())
    }

    /// Adds what a server has counted.
    fn counts(&mut self, counts: &Counts) -> Result<(), AllocError> {
        self.ends(&counts.ends)?;
        let name = "custody_replies_total";
        self.number(
            name,
            "counter",
            "Replies that were wholly written.",
            counts.replies,
        )?;
        let name = "custody_received_bytes_total";
        self.number(
            name,
            "counter",
            "Bytes of requests from clients.",
            counts.received,
        )?;
        let name = "custody_sent_bytes_total";
        self.number(name, "counter", "Bytes of replies to clients.", counts.sent)?;
        let name = "custody_busy_seconds_total";
        self.time(
            name,
            "counter",
            "Time spent on requests of clients.",
            counts.busy,
        )?;
        let name = "custody_operators_total";
        self.describe(
            name,
            "counter",
            "Operators, by whether their command was run.",
        )?;
        self.value_of(name, "result", "answered", counts.answered)?;
        self.value_of(name, "result", "refused", counts.refused)
    }

    /// Adds how the file of contents is filled.
    fn room(&mut self, room: Room) -> Result<(), AllocError> {
        let name = "custody_contents_bytes";
        self.describe(
            name,
            "gauge",
            "Bytes of the file of contents, by their state.",
        )?;
        self.value_of(name, "state", "kept", room.kept)?;
        self.value_of(name, "state", "free", room.free)
    }

    /// Adds how long requests have waited.
    fn waits(&mut self, gauges: &Gauges) -> Result<(), AllocError> {
        let name = "custody_longest_wait_seconds";
        let help = "Longest time that a request without an object has waited for its turn.";
        self.time(name, "gauge", help, gauges.longest_wait)?;
        let name = "custody_longest_transfer_wait_seconds";
        let help = "Longest time that an upload or a download has waited for its turn.";
        self.time(name, "gauge", help, gauges.longest_transfer_wait)
    }

    /// Adds what the machine knows.
    fn gauges(
        &mut self,
        counts: &Counts,
        gauges: &Gauges,
        room: Option<Room>,
    ) -> Result<(), AllocError> {
        let name = "custody_waiting_connections";
        let help = "Connections whose request waits for its turn.";
        self.number(name, "gauge", help, gauges.waiting as u64)?;
        let name = "custody_sending_connections";
        let help = "Connections to which an object or the rest of a reply is sent.";
        self.number(name, "gauge", help, gauges.under_way as u64)?;
        self.waits(gauges)?;
        let name = "custody_uptime_seconds";
        let help = "Time since the server began.";
        self.time(name, "gauge", help, gauges.since(counts.began))?;
        let name = "custody_policy_age_seconds";
        let help = "Time since the policy file was read.";
        self.time(name, "gauge", help, gauges.since(counts.read_policy))?;
        let name = "custody_database_bytes";
        self.describe(name, "gauge", "Sizes of the files of the database.")?;
        self.value_of(name, "file", "database", gauges.database)?;
        self.value_of(name, "file", "log", gauges.log)?;
        if let Some(room) = room {
            self.value_of(name, "file", "contents", room.size)?;
        }
        let name = "process_resident_memory_bytes";
        self.number(
            name,
            "gauge",
            "Resident memory of the process.",
            gauges.memory,
        )
    }
}

/// Returns how a server is, in the text format that Prometheus reads.
///
/// # Errors
///
/// Memory ran out.
pub fn status_text(
    alloc: Global,
    counts: &Counts,
    gauges: &Gauges,
    room: Option<Room>,
    all: &[Stored<'_>],
) -> Result<String, AllocError> {
    let mut metrics = Metrics::new(alloc);
    metrics.counts(counts)?;
    metrics.gauges(counts, gauges, room)?;
    if let Some(room) = room {
        metrics.room(room)?;
    }
    metrics.repositories(all, RepositoryValue::Used)?;
    metrics.repositories(all, RepositoryValue::Quota)?;
    metrics.repositories(all, RepositoryValue::LocksMade)?;
    Ok(metrics.text)
}
