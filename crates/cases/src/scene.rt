//! What a case has beside its store: the policy, the moment, and the connection that is being written.

use crate::script::Step;
use crate::texts::Names;
use calls::{Fault, Hands, moment, number};
use names::Moment;
use policy::Policy;
use service::{End, Served};
use std::alloc::Global;

/// What a case has beside its store.
#[derive(Drop)]
pub(crate) struct Scene {
    pub policy: Option<Policy>,
    pub now: Moment,
    /// The bytes of the next connection.
    pub asked: Vec<u8>,
    /// The replies that it has to get, and where each of them ends.
    pub wanted: Vec<u8>,
    pub ends: Vec<usize>,
    /// The most bytes of a read and of a write.
    pub most: usize,
    /// The number of its reads, and of its writes, that succeed.
    pub reads: u64,
    pub writes: u64,
    /// The number of bytes of the last connection that were not read.
    pub unread: usize,
    /// What calls have begun.
    pub hands: Hands,
}

impl Scene {
    /// A scene whose reads and writes have at most `most` bytes.
    pub(crate) fn new(alloc: Global, most: usize) -> Result<Scene, Fault> {
        Ok(Scene {
            policy: None,
            now: moment("0")?,
            asked: Vec::new(alloc),
            wanted: Vec::new(alloc),
            ends: Vec::new(alloc),
            most,
            reads: u64::MAX,
            writes: u64::MAX,
            unread: 0,
            hands: Hands::new(alloc),
        })
    }

    /// Begins the next connection.
    pub(crate) fn begin(&mut self) {
        self.asked.clear();
        self.wanted.clear();
        self.ends.clear();
        self.reads = u64::MAX;
        self.writes = u64::MAX;
    }

    /// Each connection has to be ended.
    pub(crate) fn expect_ended(&self) -> Result<(), Fault> {
        if self.asked.is_empty() && self.wanted.is_empty() {
            Ok(())
        } else {
            Err(Fault::Script("a connection is not ended"))
        }
    }

    /// Reads the policy from this text.
    fn govern(&mut self, alloc: Global, text: &[u8]) -> Result<(), Fault> {
        let Ok(text) = str::from_utf8(text) else {
            return Err(Fault::Script("a policy is no text"));
        };
        match Policy::read(alloc, text) {
            Ok(policy) => self.policy = Some(policy),
            Err(_) => return Err(Fault::Script("a policy is refused")),
        }
        Ok(())
    }

    /// Takes a step that adds a text. Returns whether it is one.
    pub(crate) fn add(
        &mut self,
        alloc: Global,
        names: &mut Names,
        step: &Step,
    ) -> Result<bool, Fault> {
        let rest = step.rest.as_str();
        match step.word.as_str() {
            "let" => names.define_by(step)?,
            "policy" => {
                let text = names.of(step, rest)?;
                self.govern(alloc, text.as_slice())?;
            }
            "send" => self
                .asked
                .extend_from_slice(names.of(step, rest)?.as_slice())?,
            "reply" => {
                self.wanted
                    .extend_from_slice(names.of(step, rest)?.as_slice())?;
                self.ends.push(self.wanted.len())?;
            }
            _ => return Ok(false),
        }
        Ok(true)
    }

    /// Takes a step that concerns neither a text nor the store.
    pub(crate) fn set(&mut self, alloc: Global, word: &str, text: &str) -> Result<(), Fault> {
        match word {
            "at" => self.now = moment(text)?,
            "reads" => self.reads = number(text)?,
            "writes" => self.writes = number(text)?,
            "unread" => self.expect_unread(alloc, number(text)?)?,
            "pieces" | "each" | "fresh" => {}
            _ => return Err(Fault::Script("no such step")),
        }
        Ok(())
    }

    /// Compares the number of bytes that the last connection left unread.
    fn expect_unread(&self, alloc: Global, wanted: u64) -> Result<(), Fault> {
        let found = self.unread;
        if found as u64 == wanted {
            return Ok(());
        }
        Err(Fault::Differs(format!(in alloc; "{found} bytes are unread, not {wanted}")?))
    }

    /// The number of replies that these bytes are, if they are the first whole ones.
    pub(crate) fn whole_replies(&self, front: &[u8]) -> Option<usize> {
        if front.is_empty() {
            return Some(0);
        }
        let last = self.ends.iter().position(|end| *end == front.len())?;
        self.wanted
            .starts_with(front)
            .then_some(last.saturating_add(1))
    }

    /// How the connection has to end: the words are why, and the number of replies if it is not that of the texts.
    pub(crate) fn wanted_end(&self, words: &str) -> Result<Served, Fault> {
        let (why, answered) = match words.split_once(' ') {
            Some((why, count)) => (why, number(count)? as usize),
            None => (words, self.ends.len()),
        };
        let end = match why {
            "input" => End::InputEnded,
            "closed" => End::Closed,
            "store-refused" => End::StoreRefused,
            "store-failed" => End::StoreFailed,
            "read-failed" => End::ReadFailed,
            "write-failed" => End::WriteFailed,
            _ => return Err(Fault::Script("a connection does not end so")),
        };
        Ok(Served { answered, end })
    }
}
