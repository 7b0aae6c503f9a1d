//! The messages of a connection, one after another.

ghost use Rattle.std.specs.Prelude.{◌≡◌, ◌≢◌, ℕ, List, ◌+◌, ◌<◌, ◌≤◌, [], ◌++◌, length, take, drop, IfOk, IfErr, OnOk, OnErr, IfSome, Ok, Err, Some, None};
ghost use Rattle.std.specs.Io.KnownBytes.{IsAtEnd};
ghost use Rattle.httparse.specs.Grammar.{RequestHead};
ghost use Rattle.names.specs.Streams.{HasGrown};
ghost use Rattle.model.specs.Heads.{check_framing, content_length};
ghost use Rattle.model.specs.Stream.{BeginsWithHead};
ghost use Rattle.wire.specs.HeadRules.{rule_seen};
ghost use Rattle.wire.specs.declared.cut.TheConstants.{FIELD_LIMIT};

use crate::buffer::{Buffer, read_into};
use crate::cut::FIELD_LIMIT;
use crate::head::Head;
use crate::reading::{Halt, read_head};
use crate::rules::HeadRule;
use httparse::spans::{EMPTY_HEADER_SPAN, HeaderSpan, RequestSpans, Span};
use names::{BodyFault, Source};
use std::alloc::{AllocError, Global};
use thiserror::Error;

/// The spans of a connection before its first head.
const NO_HEAD: RequestSpans = RequestSpans {
    method: Span { start: 0, end: 0 },
    path: Span { start: 0, end: 0 },
    version: 0,
    headers: 0,
    len: 0,
};

/// Why there is no next message.
#[derive(Clone, Copy, Debug, PartialEq, Eq, Error)]
pub enum Stop {
    /// The source ended before a whole head.
    #[error("the input ended")]
    End,
    /// The next message is refused: H1 if the bytes do not begin with a head, or else the first of H2 to
    /// H5 that refuses its head.
    #[error("{0}")]
    Rule(HeadRule),
    /// A read failed. The bytes that were read wait.
    #[error("a read failed")]
    Device,
    /// The body of the last message was not read to its end. Nothing was read.
    #[error("a body was not read to its end")]
    Unread,
}

/// A connection: reads messages from a source, one after another.
///
/// It owns a buffer of [`HEAD_LIMIT`](crate::HEAD_LIMIT) bytes, and room for the
/// [`FIELD_LIMIT`](crate::FIELD_LIMIT) fields of a head: 18,432 bytes, allocated once, in [`Conn::new`].
#[derive(Drop)]
pub struct Conn<R: Source + Drop> {
    source: R,
    buffer: Buffer,
    fields: Vec<HeaderSpan>,
    /// The head that was read last.
    head: RequestSpans,
    /// The number of bytes of its body that were not read.
    left: u64,
    /// Why no further message is read.
    over: Option<Stop>,
    ghost room: { FIELD_LIMIT ≤ length fields.items },
}

impl<R: Source + Drop> Conn<R> {
    ghost use Rattle.wire.specs.Buffers.{front, unused};
    ghost use Rattle.wire.specs.Fields.{Shows};
    ghost use Rattle.wire.specs.Halts.{IsHeadOf};
    ghost use Rattle.wire.specs.Connections.{waiting, weight, IsAt, Moves, SameHead, HasHead, IsStopped};

    /// Makes a connection over a source. Nothing is read.
    ///
    /// # Errors
    ///
    /// An [`AllocError`] if there is no memory for the buffer or for the fields, and the source.
    pub fn new(alloc: Global, source: R) -> Result<Conn<R>, (AllocError, R)>
        ensures ok { IfOk result (λ c. (c.source ≡ source) × (c.left ≡ 0) × (c.over ≡ None)
            × (waiting c ≡ [])) }
        ensures err { IfErr result (λ e. e.1 ≡ source) }
    {
        match Conn::<R>::memory(alloc) {
            Ok((buffer, fields)) => Ok(Conn {
                source,
                buffer,
                fields,
                head: NO_HEAD,
                left: 0,
                over: None,
            }),
            Err(error) => Err((error, source)),
        }
    }

    /// The memory of a connection.
    fn memory(alloc: Global) -> Result<(Buffer, Vec<HeaderSpan>), AllocError>
        ensures { IfOk result (λ m. (unused m.0 ≡ []) × (FIELD_LIMIT ≤ length m.1.items)) }
    {
        let buffer = Buffer::new(alloc)?;
        let fields = vec![in alloc; EMPTY_HEADER_SPAN; FIELD_LIMIT]?;
        Ok((buffer, fields))
    }

    /// Returns the source. Bytes that were read and not handed out are lost.
    pub fn into_source(self) -> R
        ensures { result ≡ self.source }
    {
        self.source
    }

    /// The head that was read last.
    pub(crate) fn head(&self) -> Head<'_>
        ensures { (head : RequestHead) → IsAt self.now head → Shows result head }
    {
        Head::new(self.buffer.front(), &self.fields, self.head)
    }

    /// The number of bytes of the body that were not read.
    pub(crate) fn body_left(&self) -> u64
        ensures { result ≡ self.now.left }
    {
        self.left
    }

    /// The number of failed reads so far.
    pub(crate) fn failures(&self) -> u64
        ensures { result ≡ R.failed self.now.source }
    {
        self.source.failures()
    }

    /// Returns the answer, and remembers it for later calls.
    fn stop(&mut self, stop: Stop) -> Result<(), Stop>
        ensures result { result ≡ Err stop }
        ensures over { self.new.over ≡ Some stop }
        ensures same { (self.new.source ≡ self.old.source) × (self.new.left ≡ self.old.left)
            × (self.new.buffer ≡ self.old.buffer) }
    {
        self.over = Some(stop);
        Err(stop)
    }

    /// Begins the message of a head that is at the front of the buffer, if H2 to H5 do not refuse it.
    fn accept(&mut self, spans: RequestSpans) -> Result<(), Stop>
        requires head { IsHeadOf (front self.old.buffer) self.old.fields.items spans }
        requires begun { self.old.buffer.at ≡ 0 }
        requires left { self.old.left ≡ 0 }
        ensures source { self.new.source ≡ self.old.source }
        ensures ok { IfOk result (λ _. (head : RequestHead)
            × BeginsWithHead (front self.old.buffer) head (waiting self.new) × IsAt self.new head
            × (check_framing head ≡ Ok tt) × (self.new.left ≡ content_length head)
            × (length (waiting self.new) < length (front self.old.buffer))) }
        ensures over { OnOk result (self.new.over ≡ self.old.over) }
        ensures err { IfErr result (λ stop. (rule : _) × (head : RequestHead) × (rest : List ℕ)
            × BeginsWithHead (front self.old.buffer) head rest × (stop ≡ Stop.Rule rule)
            × (check_framing head ≡ Err (rule_seen rule)) × (self.new.over ≡ Some stop) × (self.new.left ≡ 0)
            × (self.new.buffer ≡ self.old.buffer)) }
    {
        match Head::new(self.buffer.front(), &self.fields, spans).body_length() {
            Ok(length) => {
                self.buffer.skip(spans.len);
                self.head = spans;
                self.left = length;
                Ok(())
            }
            Err(rule) => self.stop(Stop::Rule(rule)),
        }
    }

    /// Reads the next head.
    pub(crate) fn advance(&mut self) -> Result<(), Stop>
        ensures head { OnOk result (HasHead self.old self.new) }
        ensures stopped { IfErr result (λ stop. IsStopped self.old stop self.new) }
    {
        if self.left > 0 {
            return Err(Stop::Unread);
        }
        if let Some(stop) = self.over {
            return Err(stop);
        }
        self.buffer.begin();
        match read_head(&mut self.buffer, &mut self.fields, &mut self.source) {
            Ok(head) => self.accept(head),
            Err(Halt::End) => self.stop(Stop::End),
            Err(Halt::Bad) => self.stop(Stop::Rule(HeadRule::H1)),
            Err(Halt::Device) => Err(Stop::Device),
        }
    }

    /// Reads some bytes of the body: those that wait, or else from the source.
    pub(crate) fn take_body(&mut self, piece: &mut [u8]) -> Result<usize, BodyFault>
        ensures within { IfOk result (λ n. (n ≤ length piece.new)
            × (n + self.new.left ≡ self.old.left)) }
        ensures bytes { IfOk result (λ n. (read : List ℕ)
            × Moves self.old self.new read (take n piece.new)) }
        ensures some { IfOk result (λ n. n ≡ 0 → 0 < length piece.new → self.old.left ≡ 0) }
        ensures err { OnErr result (Moves self.old self.new [] [] × (self.new.left ≡ self.old.left)
            × (0 < self.old.left) × (waiting self.new ≡ [])) }
        ensures ended { result ≡ Err BodyFault.Ended → IsAtEnd (R.left self.new.source) }
        ensures good { result ≢ Err BodyFault.Device
            → R.failed self.new.source ≡ R.failed self.old.source }
        ensures fault { result ≡ Err BodyFault.Device
            → HasGrown (R.failed self.old.source) (R.failed self.new.source) }
        ensures same_head { SameHead self.old self.new }
    {
        let size = smaller(self.left, piece.len());
        if size == 0 {
            return Ok(0);
        }
        if self.buffer.has_unused() {
            let count = self.buffer.hand_out(piece, size);
            self.left -= count as u64;
            return Ok(count);
        }
        match read_into(&mut self.source, piece, size) {
            Ok(0) => Err(BodyFault::Ended),
            Ok(count) => {
                self.left -= count as u64;
                Ok(count)
            }
            Err(_) => Err(BodyFault::Device),
        }
    }

    /// Reads the rest of the body into `body`, which is as long.
    pub(crate) fn fill_body(&mut self, body: &mut [u8]) -> Result<(), BodyFault>
        requires size { length body.old ≡ self.old.left }
        ensures bytes { (read : List ℕ) × (part : List ℕ) × Moves self.old self.new read part
            × (length part + self.new.left ≡ self.old.left) × OnOk result (part ≡ body.new) }
        ensures whole { OnOk result (self.new.left ≡ 0) }
        ensures err { OnErr result ((0 < self.new.left) × (waiting self.new ≡ [])) }
        ensures ended { result ≡ Err BodyFault.Ended → IsAtEnd (R.left self.new.source) }
        ensures good { result ≢ Err BodyFault.Device
            → R.failed self.new.source ≡ R.failed self.old.source }
        ensures fault { result ≡ Err BodyFault.Device
            → HasGrown (R.failed self.old.source) (R.failed self.new.source) }
        ensures same_head { SameHead self.old self.new }
    {
        let mut at = 0;
        'pieces: while at < body.len() {
            match self.take_body(&mut body[at..]) {
                Ok(count) => at += count,
                Err(fault) => return Err(fault),
            }
        }
        Ok(())
    }
}

/// The smaller of the two.
fn smaller(left: u64, room: usize) -> usize
    ensures within { (result ≤ left) × (result ≤ room) }
    ensures some { result ≡ 0 → 0 < room → left ≡ 0 }
{
    if left < room as u64 {
        left as usize
    } else {
        room
    }
}
