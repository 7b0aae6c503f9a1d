//! Writes replies to a sink that takes some bytes at a time.

ghost use Rattle.std.specs.Prelude.{◌≡◌, ◌≤◌, ◌<◌, ◌+◌, ◌++◌, length, OnOk, IfErr, IfSome, None};
ghost use Rattle.std.specs.Io.KnownBytes.{Appends};
ghost use Rattle.names.specs.Streams.{HasGrown, IsBeginning};
ghost use Rattle.wire.specs.Replies.{head_of};

use crate::reply::ReplyHead;
use arrayvec::ArrayVec;
use names::{ALLOW_LIMIT, Sink, WriteFault, write_whole};

/// The longest reply that is written in one piece, in bytes: its head and its body.
const SHORT_REPLY: usize = 4_096;

/// Writes a reply: its head, and then its body. A reply of at most 4,096 bytes is offered to the sink as one piece.
///
/// The head states the size of the body; the caller has to make sure that it is correct.
///
/// # Errors
///
/// A [`WriteFault`] at the first write that fails, as for [`write_whole`]; head and body count as one text.
pub fn write_reply<K: Sink>(
    sink: &mut K,
    head: &ReplyHead<'_>,
    body: &[u8],
) -> Result<(), WriteFault>
    requires { length head.now.allow.now ≤ ALLOW_LIMIT }
    ensures ok { OnOk result (Appends (K.taken sink.old) (K.taken sink.new)
        (head_of head.now ++ body.now)) }
    ensures good { OnOk result (K.failed sink.new ≡ K.failed sink.old) }
    ensures part { IfErr result (λ e. IsBeginning (K.taken sink.old) (K.taken sink.new)
        (head_of head.now ++ body.now) e.written) }
    ensures fault { IfErr result (λ _. HasGrown (K.failed sink.old) (K.failed sink.new)) }
{
    write_both(sink, head.text().as_str().as_bytes(), body)
}

/// Writes all of one text, and then all of another: in one write, if they are short and the sink takes them whole.
fn write_both<K: Sink>(sink: &mut K, front: &[u8], back: &[u8]) -> Result<(), WriteFault>
    ensures ok { OnOk result (Appends (K.taken sink.old) (K.taken sink.new) (front.now ++ back.now)) }
    ensures good { OnOk result (K.failed sink.new ≡ K.failed sink.old) }
    ensures part { IfErr result
        (λ e. IsBeginning (K.taken sink.old) (K.taken sink.new) (front.now ++ back.now) e.written) }
    ensures fault { IfErr result (λ _. HasGrown (K.failed sink.old) (K.failed sink.new)) }
{
    match joined(front, back) {
        Some(text) => write_whole(sink, text.as_slice()),
        None => write_each(sink, front, back),
    }
}

/// One text after another, if the two are short.
fn joined(front: &[u8], back: &[u8]) -> Option<ArrayVec<u8, SHORT_REPLY>>
    ensures text { IfSome result (λ text. text.items ≡ front.now ++ back.now) }
    ensures long { result ≡ None → SHORT_REPLY < length front.now + length back.now }
{
    let mut text = ArrayVec::new();
    text.try_extend_from_slice(front).ok()?;
    text.try_extend_from_slice(back).ok()?;
    Some(text)
}

/// Writes all of one text, and then all of another.
fn write_each<K: Sink>(sink: &mut K, front: &[u8], back: &[u8]) -> Result<(), WriteFault>
    ensures ok { OnOk result (Appends (K.taken sink.old) (K.taken sink.new) (front.now ++ back.now)) }
    ensures good { OnOk result (K.failed sink.new ≡ K.failed sink.old) }
    ensures part { IfErr result
        (λ e. IsBeginning (K.taken sink.old) (K.taken sink.new) (front.now ++ back.now) e.written) }
    ensures fault { IfErr result (λ _. HasGrown (K.failed sink.old) (K.failed sink.new)) }
{
    match write_whole(sink, front) {
        Ok(()) => {}
        Err(fault) => return Err(fault),
    }
    match write_whole(sink, back) {
        Ok(()) => Ok(()),
        Err(fault) => Err(WriteFault {
            written: front.len() + fault.written,
        }),
    }
}
