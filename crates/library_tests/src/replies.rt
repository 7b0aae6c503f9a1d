//! `wire`: replies written to sinks that take few bytes, or fail.

use crate::harness::{expect, unwrap};
use http::StatusCode;
use names::{ALLOW_LIMIT, Counted, FailAfter, Sink, VecSink, WriteFault, write_whole};
use std::alloc::{Alloc, Global};
use std::io::{self, Write};
use std::process::Abort;
use wire::{Content, ReplyHead, write_reply};

/// The head of a reply, with its status as a number.
#[derive(Clone, Copy)]
struct Case<'a> {
    status: u16,
    content: Content,
    size: u64,
    allow: &'a str,
    close: bool,
}

const JSON: Case<'static> = Case {
    status: 200,
    content: Content::Json,
    size: 0,
    allow: "",
    close: false,
};

/// The body for a lock that was made.
const LOCK: &str =
    "{\"lock\":{\"id\":\"1\",\"locked_at\":\"2016-05-17T15:49:06Z\",\"owner\":{\"name\":\"ann\"},\"path\":\"art/hero.psd\"}}";

/// The body that refuses it the second time.
const HELD: &str =
    "{\"lock\":{\"id\":\"1\",\"locked_at\":\"2016-05-17T15:49:06Z\",\"owner\":{\"name\":\"ann\"},\"path\":\"art/hero.psd\"},\"message\":\"L1: the path is already locked\"}";

/// Heads, bodies, the lines of the heads, and the lengths of the replies.
const REPLIES: &[(Case<'static>, &str, &str, usize)] = &[
    (
        Case {
            status: 201,
            size: 99,
            ..JSON
        },
        LOCK,
        "HTTP/1.1 201 Created\r\nContent-Type: application/vnd.git-lfs+json\r\nContent-Length: 99\r\n\r\n",
        187,
    ),
    (
        Case {
            status: 409,
            size: 142,
            ..JSON
        },
        HELD,
        "HTTP/1.1 409 Conflict\r\nContent-Type: application/vnd.git-lfs+json\r\nContent-Length: 142\r\n\r\n",
        232,
    ),
    (
        Case {
            status: 405,
            size: 47,
            allow: "GET, POST",
            close: true,
            ..JSON
        },
        "{\"message\":\"H7: the method is not served here\"}",
        "HTTP/1.1 405 Method Not Allowed\r\nContent-Type: application/vnd.git-lfs+json\r\nContent-Length: 47\r\nAllow: GET, POST\r\nConnection: close\r\n\r\n",
        183,
    ),
    (
        Case {
            status: 401,
            size: 42,
            ..JSON
        },
        "{\"message\":\"A1: a bearer token is needed\"}",
        "HTTP/1.1 401 Unauthorized\r\nContent-Type: application/vnd.git-lfs+json\r\nContent-Length: 42\r\nLFS-Authenticate: Bearer realm=\"Git LFS\"\r\n\r\n",
        177,
    ),
    (
        Case {
            status: 500,
            size: 35,
            close: true,
            ..JSON
        },
        "{\"message\":\"S1: the store refused\"}",
        "HTTP/1.1 500 Internal Server Error\r\nContent-Type: application/vnd.git-lfs+json\r\nContent-Length: 35\r\nConnection: close\r\n\r\n",
        156,
    ),
    (
        Case {
            content: Content::Octets,
            size: 3,
            ..JSON
        },
        "abc",
        "HTTP/1.1 200 OK\r\nContent-Type: application/octet-stream\r\nContent-Length: 3\r\n\r\n",
        81,
    ),
    (
        Case {
            content: Content::Empty,
            ..JSON
        },
        "",
        "HTTP/1.1 200 OK\r\nContent-Length: 0\r\n\r\n",
        38,
    ),
    (
        Case {
            content: Content::Octets,
            size: u64::MAX,
            close: true,
            ..JSON
        },
        "",
        "HTTP/1.1 200 OK\r\nContent-Type: application/octet-stream\r\nContent-Length: 18446744073709551615\r\nConnection: close\r\n\r\n",
        116,
    ),
];

/// The part of the reply that a sink with at most `most` bytes per write takes.
fn reply_of(
    rt: &(impl Abort + Alloc<A = Global>),
    case: &Case<'_>,
    body: &str,
    most: usize,
) -> Vec<u8> {
    assert!(rt; case.allow.len() <= ALLOW_LIMIT);
    let head = ReplyHead {
        status: unwrap(rt, StatusCode::from_u16(case.status)),
        content: case.content,
        size: case.size,
        allow: case.allow,
        close: case.close,
    };
    let mut sink = VecSink::new(rt.alloc(), most);
    unwrap(rt, write_reply(&mut sink, &head, body.as_bytes()));
    unwrap(rt, sink.taken().to_vec(rt.alloc()))
}

#[test]
fn replies_are_their_head_and_their_body(rt: HostRuntime) {
    for (case, body, lines, size) in REPLIES {
        let text = unwrap(&rt, format!(in rt.alloc(); "{lines}{body}"));
        expect(&rt, lines, text.len(), *size);
        for &most in &[1, 2, 7, usize::MAX] {
            let reply = reply_of(&rt, case, body, most);
            expect(&rt, &(lines, most), reply.as_slice(), text.as_bytes());
        }
    }
}

/// Statuses and their phrases.
const PHRASES: &[(u16, &str)] = &[
    (200, "OK"),
    (201, "Created"),
    (400, "Bad Request"),
    (401, "Unauthorized"),
    (403, "Forbidden"),
    (404, "Not Found"),
    (405, "Method Not Allowed"),
    (406, "Not Acceptable"),
    (409, "Conflict"),
    (410, "Gone"),
    (411, "Length Required"),
    (413, "Content Too Large"),
    (422, "Unprocessable Content"),
    (500, "Internal Server Error"),
    (501, "Not Implemented"),
    (507, "Insufficient Storage"),
];

#[test]
fn each_status_has_its_phrase(rt: HostRuntime) {
    for &(status, phrase) in PHRASES {
        let case = Case {
            status,
            content: Content::Empty,
            ..JSON
        };
        let reply = reply_of(&rt, &case, "", usize::MAX);
        let line = unwrap(
            &rt,
            format!(in rt.alloc(); "HTTP/1.1 {status} {phrase}\r\n"),
        );
        let front = reply.get(..line.len());
        expect(&rt, &line, front, Some(line.as_bytes()));
    }
}

/// The number of two-byte writes that succeed, and the result of writing three bytes.
const WRITES: &[(u64, Result<(), WriteFault>)] = &[
    (0, Err(WriteFault { written: 0 })),
    (1, Err(WriteFault { written: 2 })),
    (2, Ok(())),
    (3, Ok(())),
];

/// A reply of 81 bytes, and its text.
const OCTETS: ReplyHead<'static> = ReplyHead {
    status: StatusCode::OK,
    content: Content::Octets,
    size: 3,
    allow: "",
    close: false,
};

const OCTETS_TEXT: &[u8] =
    b"HTTP/1.1 200 OK\r\nContent-Type: application/octet-stream\r\nContent-Length: 3\r\n\r\nabc";

/// Sizes of bodies after a head of 78 bytes, and the result if a second write fails.
const BODIES: &[(usize, Result<(), WriteFault>)] = &[
    (0, Ok(())),
    (4_018, Ok(())),
    (4_019, Err(WriteFault { written: 78 })),
];

#[test]
fn replies_of_4096_bytes_are_one_write(rt: HostRuntime) {
    for &(size, want) in BODIES {
        let body = unwrap(&rt, vec![in rt.alloc(); b'a'; size]);
        let mut sink = FailAfter::new(VecSink::new(rt.alloc(), usize::MAX), 1);
        expect(&rt, &size, write_reply(&mut sink, &OCTETS, &body), want);
        let mut sink = VecSink::new(rt.alloc(), usize::MAX);
        unwrap(&rt, write_reply(&mut sink, &OCTETS, &body));
        expect(&rt, &size, sink.taken().get(..78), OCTETS_TEXT.get(..78));
        expect(&rt, &size, sink.taken().get(78..), Some(body.as_slice()));
    }
}

/// A writer that takes a byte per call. It fails once, after `good` bytes, and would then take the rest.
#[derive(Drop)]
struct WritesAgain {
    taken: Vec<u8>,
    good: Option<usize>,
}

impl Write for WritesAgain {
    fn write(&mut self, piece: &[u8]) -> io::Result<usize> {
        if self.good == Some(0) {
            self.good = None;
            return Err(io::ErrorKind::Interrupted.into());
        }
        self.good = self.good.map(|count| count.saturating_sub(1));
        let size = piece.len().min(1);
        self.taken.write(&piece[..size])
    }

    fn flush(&mut self) -> io::Result<()> {
        Ok(())
    }
}

#[test]
fn nothing_is_written_after_a_write_that_failed(rt: HostRuntime) {
    for written in 0..OCTETS_TEXT.len() {
        let mut sink = Counted::new(WritesAgain {
            taken: Vec::new(rt.alloc()),
            good: Some(written),
        });
        let reply = write_reply(&mut sink, &OCTETS, b"abc");
        expect(&rt, &written, reply, Err(WriteFault { written }));
        expect(&rt, &written, sink.failures(), 1);
        let taken = sink.into_inner().taken;
        let front = OCTETS_TEXT.get(..written);
        expect(&rt, &written, Some(taken.as_slice()), front);
    }
}

#[test]
fn a_sink_that_fails_has_taken_a_beginning(rt: HostRuntime) {
    for calls in 0..81 {
        let mut sink = FailAfter::new(VecSink::new(rt.alloc(), 1), calls);
        let written = usize::try_from(calls).unwrap_or(0);
        let reply = write_reply(&mut sink, &OCTETS, b"abc");
        expect(&rt, &calls, reply, Err(WriteFault { written }));
        expect(&rt, &calls, sink.failures(), 1);
        let begins = OCTETS_TEXT.starts_with(sink.into_inner().taken());
        expect(&rt, &calls, begins, true);
    }
    for &(calls, want) in WRITES {
        let mut sink = FailAfter::new(VecSink::new(rt.alloc(), 2), calls);
        expect(&rt, &calls, write_whole(&mut sink, b"abc"), want);
    }
    let fault = unwrap(&rt, WriteFault { written: 3 }.to_string(rt.alloc()));
    expect(
        &rt,
        &"a fault",
        fault.as_str(),
        "a write failed after 3 bytes",
    );
}
