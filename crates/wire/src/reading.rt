//! Reads a head.

ghost use Rattle.std.specs.Prelude.{◌≡◌, ◌≢◌, ℕ, List, ◌+◌, ◌<◌, ◌≤◌, ◌++◌, length, IfOk, IfErr, Err};
ghost use Rattle.std.specs.Io.KnownBytes.{Consumes};
ghost use Rattle.names.specs.Streams.{HasGrown};
ghost use Rattle.wire.specs.Buffers.{front};
ghost use Rattle.wire.specs.Halts.{HasHalted, IsCutOf, IsHeadOf};

use crate::buffer::Buffer;
use crate::cut::{Cut, FIELD_LIMIT, first_head};
use httparse::spans::{HeaderSpan, RequestSpans};
use names::Source;

/// Why there is no head.
#[derive(Clone, Copy, Debug, PartialEq, Eq)]
pub(crate) enum Halt {
    /// The source ended before one.
    End,
    /// The bytes cannot begin with one.
    Bad,
    /// A read failed.
    Device,
}

/// Reads until the bytes of the buffer begin with a head, or cannot. No byte is handed out.
///
/// The source learns that a message is expected before the first read, if there is one.
pub(crate) fn read_head<S: Source>(
    buffer: &mut Buffer,
    fields: &mut [HeaderSpan],
    source: &mut S,
) -> Result<RequestSpans, Halt>
    requires begun { buffer.old.at ≡ 0 }
    requires room { FIELD_LIMIT ≤ length fields.old }
    ensures begun { buffer.new.at ≡ 0 }
    ensures bytes { (read : List ℕ) × Consumes (S.left source.old) (S.left source.new) read
        × (front buffer.new ≡ front buffer.old ++ read) }
    ensures head { IfOk result (λ spans. IsHeadOf (front buffer.new) fields.new spans) }
    ensures halt { IfErr result (λ halt. HasHalted halt (front buffer.new) (S.left source.new)
        (S.failed source.old) (S.failed source.new)) }
    ensures same_reference { S.reference source.new ≡ S.reference source.old }
    ensures weight { length (front buffer.new) + S.budget source.new
        ≤ length (front buffer.old) + S.budget source.old }
    ensures good { result ≢ Err Halt.Device → S.failed source.new ≡ S.failed source.old }
{
    'reading: loop {
        match cut_front(buffer, fields) {
            Cut::Head(spans) => return Ok(spans),
            Cut::Bad => return Err(Halt::Bad),
            Cut::Unfinished => {}
        }
        match buffer.fill(source) {
            Ok(0) => return Err(Halt::End),
            Ok(_) => {}
            Err(_) => return Err(Halt::Device),
        }
    }
}

/// Finds the head at the front of the buffer, and writes the spans of its fields to the front of `fields`.
fn cut_front(buffer: &Buffer, fields: &mut [HeaderSpan]) -> Cut
    requires room { FIELD_LIMIT ≤ length fields.old }
    ensures room { length fields.new ≡ length fields.old }
    ensures cut { IsCutOf (front buffer.now) fields.new result }
{
    first_head(buffer.front(), fields)
}
