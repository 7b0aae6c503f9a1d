//! `names`: sources and sinks.

use crate::harness::{expect, unwrap};
use names::{Counted, DeviceFault, FailAfter, Sink, SliceSource, Source, VecSink};
use std::cell::Cell;
use std::io;
use std::io::{Read, Write};
use std::process::Abort;

fn write_whole<K: Sink>(sink: &mut K, bytes: &[u8]) -> Result<(), DeviceFault> {
    let mut rest = bytes;
    for _ in 0..bytes.len() {
        if rest.is_empty() {
            break;
        }
        let size = sink.write(rest)?;
        rest = &rest[size..];
    }
    Ok(())
}

/// Copies in pieces of 8 bytes to the end or a fault, in at most 32 reads, and counts the reads.
fn copy<S: Source, K: Sink>(source: &mut S, sink: &mut K) -> Result<usize, DeviceFault> {
    for reads in 0..32 {
        let mut piece = [0; 8];
        let size = source.read(&mut piece)?;
        if size == 0 {
            return Ok(reads);
        }
        write_whole(sink, &piece[..size])?;
    }
    Ok(32)
}

const TEXT: &[u8] = b"twenty bytes of text";

/// The most bytes of a call, and the number of reads that then return the text.
const MOSTS: &[(usize, usize)] = &[(0, 20), (1, 20), (2, 10), (7, 3), (usize::MAX, 3)];

#[test]
fn sources_hand_out_every_byte(rt: HostRuntime) {
    for &(most, reads) in MOSTS {
        let mut source = SliceSource::new(TEXT, most);
        let mut sink = VecSink::new(rt.alloc(), most);
        // A borrowed source is a source, and a borrowed sink is a sink.
        let copied = copy(&mut &mut source, &mut &mut sink);
        expect(&rt, &most, copied, Ok(reads));
        expect(&rt, &most, sink.taken(), TEXT);
        expect(&rt, &most, source.left(), b"");
        expect(&rt, &most, (source.failures(), sink.failures()), (0, 0));
    }
}

/// The most of six bytes that a read returns, the room, and the number of bytes that it returns.
const READS: &[(usize, usize, usize)] = &[(2, 8, 2), (7, 8, 6), (7, 3, 3), (7, 0, 0)];

/// The writes, in order, and how much of each a sink of two bytes takes.
const WRITES: &[(&[u8], usize)] = &[(b"abc", 2), (b"c", 1), (b"", 0)];

#[test]
fn a_source_hands_out_as_little_as_asked(rt: HostRuntime) {
    for &(most, room, size) in READS {
        let mut piece = unwrap(&rt, vec![in rt.alloc(); 0; room]);
        let read = SliceSource::new(b"abcdef", most).read(&mut piece);
        expect(&rt, &(most, room), read, Ok(size));
    }
}

#[test]
fn a_sink_takes_as_little_as_asked(rt: HostRuntime) {
    let mut sink = VecSink::new(rt.alloc(), 2);
    for &(piece, size) in WRITES {
        expect(&rt, &piece, sink.write(piece), Ok(size));
    }
    expect(&rt, &sink, sink.taken(), b"abc");
}

#[test]
fn a_source_fails_from_then_on(rt: HostRuntime) {
    let mut source = FailAfter::new(SliceSource::new(b"abcdef", 2), 2);
    let mut sink = VecSink::new(rt.alloc(), 2);
    let copied = copy(&mut source, &mut sink);
    expect(&rt, &"a copy", copied, Err(DeviceFault));
    expect(&rt, &"a copy", sink.taken(), b"abcd");
    let again = source.read(&mut [0]);
    expect(&rt, &"a read", again, Err(DeviceFault));
    expect(&rt, &"a read", source.failures(), 2);
    expect(&rt, &"a read", source.into_inner().left(), b"ef");
}

#[test]
fn a_sink_fails_from_then_on(rt: HostRuntime) {
    let mut sink = FailAfter::new(VecSink::new(rt.alloc(), 1), 3);
    let written = write_whole(&mut sink, b"abcdef");
    expect(&rt, &"writes", written, Err(DeviceFault));
    expect(&rt, &"writes", sink.failures(), 1);
    expect(&rt, &"writes", sink.into_inner().taken(), b"abc");
    let text = unwrap(&rt, DeviceFault.to_string(rt.alloc()));
    expect(&rt, &"a fault", text.as_str(), "the device failed");
}

/// A reader that fails once, before its byte of that index.
#[derive(Drop)]
pub(crate) struct FailsOnce {
    pub(crate) bytes: &'static [u8],
    pub(crate) before: Option<usize>,
}

impl Read for FailsOnce {
    fn read(&mut self, piece: &mut [u8]) -> io::Result<usize> {
        if self.before == Some(0) {
            self.before = None;
            return Err(io::ErrorKind::Interrupted.into());
        }
        let (Some(byte), Some(place)) = (self.bytes.first(), piece.first_mut()) else {
            return Ok(0);
        };
        *place = *byte;
        self.bytes = &self.bytes[1..];
        self.before = self.before.map(|count| count.saturating_sub(1));
        Ok(1)
    }
}

/// The results of copies from that reader, in order.
const COPIES: &[Result<usize, DeviceFault>] = &[Err(DeviceFault), Ok(3), Ok(0)];

#[test]
fn a_reader_that_fails_is_counted(rt: HostRuntime) {
    let mut source = Counted::new(FailsOnce {
        bytes: b"abcdef",
        before: Some(3),
    });
    let mut sink = Counted::new(Vec::new(rt.alloc()));
    for want in COPIES {
        let copied = copy(&mut source, &mut sink);
        expect(&rt, &"a copy", copied, *want);
        expect(&rt, &"a copy", source.failures(), 1);
    }
    expect(&rt, &"the sink", sink.failures(), 0);
    expect(&rt, &"the source", source.into_inner().bytes, b"");
    expect(&rt, &"the sink", sink.into_inner().as_slice(), b"abcdef");
}

/// A reader that fills any room, leaves the bytes unchanged, and counts its calls in a cell.
#[derive(Drop)]
struct Endless<'c> {
    calls: &'c Cell<u32>,
}

impl Read for Endless<'_> {
    fn read(&mut self, piece: &mut [u8]) -> io::Result<usize> {
        self.calls.set(self.calls.get().saturating_add(1));
        Ok(piece.len())
    }
}

/// The room offered, and the number of bytes read: at most 1,099,511,627,776 in all, which are 16,384 reads of
/// 67,108,864 bytes.
const LAST_READS: &[(usize, usize)] = &[(67_108_860, 67_108_860), (3, 3), (8, 1), (8, 0), (0, 0)];

#[test]
fn a_source_ends_at_its_cap(rt: HostRuntime) {
    let calls = Cell::new(0);
    let mut source = Counted::new(Endless { calls: &calls });
    let mut piece = unwrap(&rt, vec![in rt.alloc(); 0; 67_108_864]);
    for _ in 0..16_383 {
        expect(&rt, &"a read", source.read(&mut piece), Ok(67_108_864));
    }
    for &(room, size) in LAST_READS {
        let mut piece = unwrap(&rt, vec![in rt.alloc(); 0; room]);
        expect(&rt, &room, source.read(&mut piece), Ok(size));
    }
    // The reader is not called once all bytes are returned.
    expect(&rt, &"calls", calls.get(), 16_386);
}

/// A writer that fails, or takes nothing.
#[derive(Drop)]
struct Stuck(bool);

impl Write for Stuck {
    fn write(&mut self, _piece: &[u8]) -> io::Result<usize> {
        if self.0 {
            return Err(io::ErrorKind::Other.into());
        }
        Ok(0)
    }

    fn flush(&mut self) -> io::Result<()> {
        Ok(())
    }
}

/// The pieces written, in order, the result of each, and the number of failures counted then: if the
/// writer fails, and if it takes nothing.
const TO_FAILING: &[(&[u8], Result<usize, DeviceFault>, u64)] = &[
    (b"a", Err(DeviceFault), 1),
    (b"", Err(DeviceFault), 2),
    (b"a", Err(DeviceFault), 3),
];

const TO_FULL: &[(&[u8], Result<usize, DeviceFault>, u64)] = &[
    (b"a", Err(DeviceFault), 1),
    (b"", Ok(0), 1),
    (b"a", Err(DeviceFault), 2),
];

/// Asserts that the writes to that writer are counted this way.
fn expect_writes(
    rt: &impl Abort,
    writer: Stuck,
    writes: &[(&'static [u8], Result<usize, DeviceFault>, u64)],
) {
    let mut sink = Counted::new(writer);
    for &(piece, want, failures) in writes {
        expect(rt, &piece, sink.write(piece), want);
        expect(rt, &piece, sink.failures(), failures);
    }
}

#[test]
fn a_writer_that_takes_nothing_is_counted(rt: HostRuntime) {
    expect_writes(&rt, Stuck(true), TO_FAILING);
    expect_writes(&rt, Stuck(false), TO_FULL);
}

/// A source or a sink that counts its calls in a cell.
#[derive(Drop)]
struct Ticking<'c, T> {
    inner: T,
    calls: &'c Cell<u32>,
}

impl<T> Ticking<'_, T> {
    fn tick(&self) {
        self.calls.set(self.calls.get().saturating_add(1));
    }
}

impl<S: Source> Source for Ticking<'_, S> {
    ghost left = { λ s. S.left s.inner };

    ghost reference = { λ s. S.reference s.inner };

    ghost budget = { λ s. S.budget s.inner };

    ghost failed = { λ s. S.failed s.inner };

    ghost bounded = { λ s. S.bounded s.inner };

    fn read(&mut self, piece: &mut [u8]) -> Result<usize, DeviceFault> {
        self.tick();
        self.inner.read(piece)
    }

    fn failures(&self) -> u64 {
        self.inner.failures()
    }
}

impl<K: Sink> Sink for Ticking<'_, K> {
    ghost taken = { λ k. K.taken k.inner };

    ghost failed = { λ k. K.failed k.inner };

    fn write(&mut self, piece: &[u8]) -> Result<usize, DeviceFault> {
        self.tick();
        self.inner.write(piece)
    }

    fn failures(&self) -> u64 {
        self.inner.failures()
    }
}

#[test]
fn a_source_and_a_sink_may_share_a_cell(rt: HostRuntime) {
    let calls = Cell::new(0);
    let mut source = Ticking {
        inner: SliceSource::new(b"abcd", 2),
        calls: &calls,
    };
    let mut sink = Ticking {
        inner: VecSink::new(rt.alloc(), 1),
        calls: &calls,
    };
    let copied = copy(&mut source, &mut sink);
    expect(&rt, &"a copy", copied, Ok(2));
    // Three reads, the last of which is the end, and four writes.
    expect(&rt, &"calls", calls.get(), 7);
    expect(&rt, &"the sink", sink.inner.taken(), b"abcd");
}
