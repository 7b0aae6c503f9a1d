//! Writes whole texts to a sink that takes some bytes at a time.

ghost use Rattle.std.specs.Prelude.{◌≡◌, ◌≤◌, length, drop, OnOk, IfErr};
ghost use Rattle.std.specs.Io.KnownBytes.{Appends};
ghost use Rattle.names.specs.Streams.{HasGrown, IsBeginning};

use crate::streams::Sink;
use thiserror::Error;

/// A write failed; the sink took a prefix of the text.
#[derive(Clone, Copy, Debug, PartialEq, Eq, Error)]
#[error("a write failed after {written} bytes")]
pub struct WriteFault {
    /// The number of bytes that it took: fewer than the text has.
    pub written: usize,
}

/// Writes all of the text, in as many writes as the sink needs.
///
/// # Errors
///
/// A [`WriteFault`] if a write fails: the sink counts one failure, and it took exactly the first
/// `written` bytes of the text. Nothing is written twice, and no write is tried after the failure.
pub fn write_whole<K: Sink>(sink: &mut K, text: &[u8]) -> Result<(), WriteFault>
    ensures ok { OnOk result (Appends (K.taken sink.old) (K.taken sink.new) text.now) }
    ensures good { OnOk result (K.failed sink.new ≡ K.failed sink.old) }
    ensures part { IfErr result
        (λ e. IsBeginning (K.taken sink.old) (K.taken sink.new) text.now e.written) }
    ensures fault { IfErr result (λ _. HasGrown (K.failed sink.old) (K.failed sink.new)) }
{
    let mut at = 0;
    'pieces: while at < text.len() {
        match sink.write(rest_of(text, at)) {
            Ok(n) => at += n,
            Err(_) => return Err(WriteFault { written: at }),
        }
    }
    Ok(())
}

/// The rest of the text from this position on.
fn rest_of(text: &[u8], at: usize) -> &[u8]
    requires { at ≤ length text.now }
    ensures { result.now ≡ drop at text.now }
{
    text.split_at(at).1
}
