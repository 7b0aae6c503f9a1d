//! `wire`: connections, from the bytes of a source to messages.

use crate::harness::{Tester, expect, unwrap};
use crate::heads::head_of_size;
use crate::streams::FailsOnce;
use names::{Body, BodyFault, Counted, DeviceFault, SliceSource, Source};
use std::cell::Cell;
use wire::{Conn, Inflow};

/// The way a test reads bodies.
#[derive(Clone, Copy, Debug)]
enum Way {
    Whole,
    Pieces,
    Not,
}

/// Adds bytes to a transcript.
fn add(rt: &impl Tester, log: &mut Vec<u8>, bytes: &[u8]) {
    unwrap(rt, log.extend_from_slice(bytes));
}

/// Reads a body in pieces of 3 bytes, and adds it to the transcript; `?` is a read that failed.
fn add_pieces<B: Body>(rt: &impl Tester, body: &mut B, log: &mut Vec<u8>) {
    for _ in 0..32 {
        let mut piece = [0; 3];
        match body.piece(&mut piece) {
            Ok(0) => break,
            Ok(size) => add(rt, log, &piece[..size]),
            Err(BodyFault::Device) => add(rt, log, b"?"),
            Err(BodyFault::Ended) => {
                add(rt, log, b"!");
                break;
            }
        }
    }
}

/// Reads a body, and adds it to the transcript; `!` is a body that ended early.
fn add_body<R: Source + Drop>(
    rt: &impl Tester,
    inflow: &mut Inflow<'_, R>,
    way: Way,
    log: &mut Vec<u8>,
) {
    match way {
        Way::Whole => match inflow.body_whole(rt.alloc()) {
            Ok(body) => add(rt, log, &body),
            Err(_) => add(rt, log, b"!"),
        },
        Way::Pieces => add_pieces(rt, inflow, log),
        Way::Not => {}
    }
}

/// Reads one message, and adds its method, its target, its body, its target again, and the number of
/// bytes of the body that are left; or why there is no message.
fn add_message<R: Source + Drop>(
    rt: &impl Tester,
    conn: &mut Conn<R>,
    way: Way,
    log: &mut Vec<u8>,
) {
    match conn.next_head() {
        Ok(mut inflow) => {
            add(rt, log, inflow.head().method());
            add(rt, log, inflow.head().target());
            add(rt, log, b" ");
            add_body(rt, &mut inflow, way, log);
            add(rt, log, b" ");
            add(rt, log, inflow.head().target());
            let left = inflow.body_left();
            let text = unwrap(rt, format!(in rt.alloc(); " {left}; "));
            add(rt, log, text.as_bytes());
        }
        Err(stop) => {
            let text = unwrap(rt, format!(in rt.alloc(); "{stop:?}; "));
            add(rt, log, text.as_bytes());
        }
    }
}

/// The transcript of four calls for a message.
fn transcript<R: Source + Drop>(rt: &impl Tester, source: R, way: Way) -> Vec<u8> {
    let mut log = Vec::new(rt.alloc());
    let Ok(mut conn) = Conn::new(rt.alloc(), source) else {
        panic!(rt; "no memory");
    };
    for _ in 0..4 {
        add_message(rt, &mut conn, way, &mut log);
    }
    log
}

/// The most bytes of a read.
const MOSTS: &[usize] = &[1, 2, 7, 4_096];

/// Streams and their transcripts, however bodies are read.
const STREAMS: &[(&[u8], &[u8])] = &[
    (b"", b"End; End; End; End; "),
    (b"GET / HTTP/1.1\r\n", b"End; End; End; End; "),
    (
        b"POST /a HTTP/1.1\r\nContent-Length: 5\r\n\r\nhelloGET /b HTTP/1.1\r\n\r\nPUT /cc HTTP/1.1\r\nContent-Length: 9\r\n\r\n123456789",
        b"POST/a hello /a 0; GET/b  /b 0; PUT/cc 123456789 /cc 0; End; ",
    ),
    (
        b"GET /a HTTP/1.1\r\n\r\n\x00",
        b"GET/a  /a 0; Rule(H1); Rule(H1); Rule(H1); ",
    ),
    (
        b"POST /a HTTP/1.1\r\nContent-Length: 2\r\n\r\nhiG /b",
        b"POST/a hi /a 0; End; End; End; ",
    ),
    (
        b"GET /a HTTP/1.1\r\nTransfer-Encoding: chunked\r\n\r\n",
        b"Rule(H2); Rule(H2); Rule(H2); Rule(H2); ",
    ),
    (
        b"POST /a HTTP/1.1\r\n\r\nGET /b HTTP/1.1\r\n\r\n",
        b"Rule(H3); Rule(H3); Rule(H3); Rule(H3); ",
    ),
    (
        b"GET /a HTTP/1.1\r\nContent-Length: 1\r\n\r\nx",
        b"Rule(H4); Rule(H4); Rule(H4); Rule(H4); ",
    ),
    (
        b"POST /a HTTP/1.1\r\nContent-Length: 1048577\r\n\r\nx",
        b"Rule(H5); Rule(H5); Rule(H5); Rule(H5); ",
    ),
];

#[test]
fn messages_do_not_depend_on_the_sizes_of_reads(rt: HostRuntime) {
    for &(stream, want) in STREAMS {
        for &most in MOSTS {
            for &way in &[Way::Whole, Way::Pieces] {
                let found = transcript(&rt, SliceSource::new(stream, most), way);
                expect(&rt, &(stream, most, way), found.as_slice(), want);
            }
        }
    }
}

#[test]
fn bytes_in_memory_are_a_body(rt: HostRuntime) {
    for &most in MOSTS {
        let mut body = SliceSource::new(b"hello, world", most);
        let mut log = Vec::new(rt.alloc());
        let before = Body::left(&body);
        add_pieces(&rt, &mut body, &mut log);
        expect(&rt, &most, log.as_slice(), b"hello, world");
        assert!(rt; before == 12 && Body::left(&body) == 0 && Body::failures(&body) == 0);
    }
}

/// Ways to read a body of five bytes of which a stream has three, and the transcript.
const SHORT: &[(Way, &[u8])] = &[
    (Way::Whole, b"PUT/a ! /a 2; Unread; Unread; Unread; "),
    (Way::Pieces, b"PUT/a hel! /a 2; Unread; Unread; Unread; "),
    (Way::Not, b"PUT/a  /a 5; Unread; Unread; Unread; "),
];

#[test]
fn a_body_that_is_not_read_is_no_message(rt: HostRuntime) {
    let stream = b"PUT /a HTTP/1.1\r\nContent-Length: 5\r\n\r\nhel";
    for &(way, want) in SHORT {
        for &most in MOSTS {
            let found = transcript(&rt, SliceSource::new(stream, most), way);
            expect(&rt, &(way, most), found.as_slice(), want);
        }
    }
}

/// Sizes of heads, the number of missing bytes, and the beginning of the transcript.
const SIZES: &[(usize, usize, &[u8])] = &[
    (16_384, 0, b"GET/  / 0; End; "),
    (16_385, 0, b"Rule(H1); Rule(H"),
    (16_384, 1, b"End; End; End; E"),
    (16_385, 1, b"Rule(H1); Rule(H"),
];

#[test]
fn heads_of_over_16384_bytes_are_refused(rt: HostRuntime) {
    for &(size, short, want) in SIZES {
        let stream = head_of_size(&rt, size, short);
        let found = transcript(&rt, SliceSource::new(&stream, 1_000), Way::Whole);
        expect(&rt, &(size, short), &found[..found.len().min(16)], want);
    }
}

/// The index of the byte before which a read fails once, and the transcript.
const FAULTS: &[(usize, &[u8])] = &[
    (0, b"Device; POST/a hello /a 0; GET/b  /b 0; End; "),
    (38, b"Device; POST/a hello /a 0; GET/b  /b 0; End; "),
    (39, b"POST/a ?hello /a 0; GET/b  /b 0; End; End; "),
    (41, b"POST/a he?llo /a 0; GET/b  /b 0; End; End; "),
    (44, b"POST/a hello /a 0; Device; GET/b  /b 0; End; "),
    (63, b"POST/a hello /a 0; GET/b  /b 0; Device; End; "),
];

#[test]
fn a_connection_goes_on_after_a_failed_read(rt: HostRuntime) {
    let stream = b"POST /a HTTP/1.1\r\nContent-Length: 5\r\n\r\nhelloGET /b HTTP/1.1\r\n\r\n";
    for &(before, want) in FAULTS {
        let device = FailsOnce {
            bytes: stream,
            before: Some(before),
        };
        let found = transcript(&rt, Counted::new(device), Way::Pieces);
        expect(&rt, &before, found.as_slice(), want);
    }
}

/// A source that counts its reads.
#[derive(Drop)]
struct Metered<'c, S> {
    inner: S,
    reads: &'c Cell<u64>,
}

impl<S: Source> Source for Metered<'_, S> {
    ghost left = { λ s. S.left s.inner };

    ghost reference = { λ s. S.reference s.inner };

    ghost budget = { λ s. S.budget s.inner };

    ghost failed = { λ s. S.failed s.inner };

    ghost bounded = { λ s. S.bounded s.inner };

    fn read(&mut self, piece: &mut [u8]) -> Result<usize, DeviceFault> {
        self.reads.set(self.reads.get().saturating_add(1));
        self.inner.read(piece)
    }

    fn failures(&self) -> u64 {
        self.inner.failures()
    }
}

/// Streams, the most bytes of a read, and the reads of the source in four calls for a message.
const READS: &[(&[u8], usize, u64)] = &[
    // Two messages in one read, and then the end.
    (b"GET /a HTTP/1.1\r\n\r\nGET /b HTTP/1.1\r\n\r\n", 4_096, 2),
    // The first read has a part of the second message.
    (b"GET /a HTTP/1.1\r\n\r\nGET /b HTTP/1.1\r\n\r\n", 20, 3),
    // The bytes after the first message are no head: they are not read on.
    (b"GET /a HTTP/1.1\r\n\r\n\x00GET /b HTTP/1.1\r\n\r\n", 20, 1),
    // The body is read in the call for it.
    (b"PUT /a HTTP/1.1\r\nContent-Length: 5\r\n\r\nhello", 39, 3),
];

#[test]
fn a_source_is_read_only_if_it_has_to_be(rt: HostRuntime) {
    for &(stream, most, want) in READS {
        let reads = Cell::new(0);
        let source = Metered {
            inner: SliceSource::new(stream, most),
            reads: &reads,
        };
        let _log = transcript(&rt, source, Way::Whole);
        expect(&rt, &(stream, most), reads.get(), want);
    }
}

#[test]
fn a_connection_hands_its_source_back(rt: HostRuntime) {
    let source = match Conn::new(rt.alloc(), SliceSource::new(b"abc", 1)) {
        Ok(conn) => conn.into_source(),
        // With no memory, too.
        Err((_, source)) => source,
    };
    expect(&rt, &"a source", source.left(), b"abc");
}
