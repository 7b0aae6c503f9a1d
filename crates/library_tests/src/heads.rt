//! `wire`: heads cut from bytes, and what they state.

use crate::harness::{expect, unwrap};
use httparse::spans::EMPTY_HEADER_SPAN;
use std::alloc::{Alloc, Global};
use std::process::Abort;
use wire::{Cut, FIELD_LIMIT, Head, HeadRule, first_head, front_of};

/// The length of the head at the front of the text, or what the text begins with instead.
fn length_of(text: &[u8]) -> Result<usize, &'static str> {
    let mut fields = [EMPTY_HEADER_SPAN; FIELD_LIMIT];
    match first_head(text, &mut fields) {
        Cut::Head(spans) => Ok(spans.len),
        Cut::Bad => Err("bad"),
        Cut::Unfinished => Err("unfinished"),
    }
}

/// What a head states about its connection, its body and its client.
#[derive(Clone, Copy)]
struct Said {
    asks_close: bool,
    body_length: Result<u64, HeadRule>,
    accepts_json: bool,
}

/// What the head at the front of the text states; `None` if there is no head.
fn said_by(text: &[u8]) -> Option<Said> {
    let mut fields = [EMPTY_HEADER_SPAN; FIELD_LIMIT];
    let Cut::Head(spans) = first_head(text, &mut fields) else {
        return None;
    };
    let head = Head::new(front_of(text), &fields, spans);
    Some(Said {
        asks_close: head.asks_close(),
        body_length: head.body_length(),
        accepts_json: head.accepts_json(),
    })
}

/// Texts, and the length of the head at their front.
const CUTS: &[(&[u8], Result<usize, &str>)] = &[
    // The example of RFC 9110.
    (
        b"GET /hello.txt HTTP/1.1\r\nUser-Agent: curl/7.64.1\r\nHost: www.example.com\r\nAccept-Language: en, mi\r\n\r\n",
        Ok(100),
    ),
    (b"GET / HTTP/1.1\r\n\r\nGET / HTTP/1.1\r\n\r\n", Ok(18)),
    (b"GET / HTTP/1.1\n\n", Ok(16)),
    (b"\r\nGET / HTTP/1.1\r\n\r\n", Ok(20)),
    (b"POST / HTTP/1.1\r\nContent-Length: 3\r\n\r\nabc", Ok(38)),
    (b"", Err("unfinished")),
    (b"\r\n", Err("unfinished")),
    (b"GE", Err("unfinished")),
    (b"GET / HTTP/1.1\r\n", Err("unfinished")),
    (b"GET / HTTP/1.1\r\n\r", Err("unfinished")),
    (b"GET / HTTP/1.1\r\nA: b\r\n", Err("unfinished")),
    (b"\x00", Err("bad")),
    (b"GET  / HTTP/1.1\r\n\r\n", Err("bad")),
    (b"GET / HTTP/2.0\r\n\r\n", Err("bad")),
    (b"GET /\xff HTTP/1.1\r\n\r\n", Err("bad")),
    (b"GET / HTTP/1.1\r\nA : b\r\n\r\n", Err("bad")),
    (b"GET / HTTP/1.1\r\nA: b\r\n c\r\n\r\n", Err("bad")),
    (b"GET / HTTP/1.1\r\n: b\r\n\r\n", Err("bad")),
    (b"GET / HTTP/1.1\r\nA: \x00\r\n\r\n", Err("bad")),
    (b"GET / HTTP/1.1\r\nA: b\rc\r\n\r\n", Err("bad")),
];

#[test]
fn heads_are_cut_from_what_follows(rt: HostRuntime) {
    for &(text, want) in CUTS {
        expect(&rt, &text, length_of(text), want);
    }
}

/// A head of `size` bytes in all, less `short`.
pub(crate) fn head_of_size(
    rt: &(impl Abort + Alloc<A = Global>),
    size: usize,
    short: usize,
) -> Vec<u8> {
    let value = unwrap(rt, "a".repeat(rt.alloc(), size.saturating_sub(23)));
    let text = unwrap(
        rt,
        format!(in rt.alloc(); "GET / HTTP/1.1\r\nA: {value}\r\n\r\n"),
    );
    let mut bytes = unwrap(rt, text.as_bytes().to_vec(rt.alloc()));
    bytes.truncate(size.saturating_sub(short));
    bytes
}

/// Sizes of heads, the number of missing bytes, and the length of the head.
const SIZES: &[(usize, usize, Result<usize, &str>)] = &[
    (16_384, 0, Ok(16_384)),
    (16_385, 0, Err("bad")),
    (16_384, 1, Err("unfinished")),
    (16_385, 1, Err("bad")),
];

#[test]
fn heads_of_over_16384_bytes_are_bad(rt: HostRuntime) {
    for &(size, short, want) in SIZES {
        let text = head_of_size(&rt, size, short);
        let case = (size, short);
        expect(&rt, &case, text.len(), size.saturating_sub(short));
        expect(&rt, &case, front_of(&text).len(), text.len().min(16_384));
        expect(&rt, &case, length_of(&text), want);
    }
}

/// The number of fields of a head, what follows them, and the length of the head.
const COUNTS: &[(usize, &str, Result<usize, &str>)] = &[
    (0, "\r\n", Ok(18)),
    (64, "\r\n", Ok(402)),
    (64, "", Err("unfinished")),
    (65, "\r\n", Err("bad")),
    // A head is refused for its fields only once it is whole.
    (65, "", Err("unfinished")),
    (65, "A: \0", Err("bad")),
    (2_000, "\r\n", Err("bad")),
    (2_000, "", Err("unfinished")),
];

#[test]
fn heads_of_over_64_fields_are_bad(rt: HostRuntime) {
    for &(count, end, want) in COUNTS {
        let fields = unwrap(&rt, "A: b\r\n".repeat(rt.alloc(), count));
        let text = unwrap(
            &rt,
            format!(in rt.alloc(); "GET / HTTP/1.1\r\n{fields}{end}"),
        );
        expect(&rt, &(count, end), length_of(text.as_bytes()), want);
    }
}

/// A head whose fields end at the empty line.
const HEAD: &[u8] =
    b"POST /a.git/info/lfs/locks?b=c HTTP/1.1\r\nAccept: x\r\nACCEPT:\t y \r\nA:\r\n\r\nAccept: z";

/// Names of fields, the number of such fields in the head, and the first value.
const FIELDS: &[(&str, usize, &[u8])] = &[
    ("Accept", 2, b"x"),
    ("accept", 2, b"x"),
    ("a", 1, b""),
    ("accep", 0, b"none"),
    ("", 0, b"none"),
];

#[test]
fn heads_have_their_parts(rt: HostRuntime) {
    let mut fields = [EMPTY_HEADER_SPAN; FIELD_LIMIT];
    let Cut::Head(spans) = first_head(HEAD, &mut fields) else {
        panic!(rt; "no head");
    };
    let head = Head::new(front_of(HEAD), &fields, spans);
    expect(&rt, &"method", head.method(), b"POST");
    expect(&rt, &"target", head.target(), b"/a.git/info/lfs/locks?b=c");
    expect(&rt, &"HTTP/1.0", head.is_http_1_0(), false);
    for &(name, count, first) in FIELDS {
        expect(&rt, &name, head.count(name), count);
        let value = head.first(name).unwrap_or(b"none");
        expect(&rt, &name, value, first);
    }
}

/// Texts, and whether the connection ends after the head at their front.
const CLOSING: &[(&[u8], bool)] = &[
    (b"GET / HTTP/1.1\r\n\r\n", false),
    (b"GET / HTTP/1.0\r\n\r\n", true),
    (b"GET / HTTP/1.0\r\nConnection: keep-alive\r\n\r\n", true),
    (b"GET / HTTP/1.1\r\nConnection: close\r\n\r\n", true),
    (b"GET / HTTP/1.1\r\ncONNECTION:CLOSE\r\n\r\n", true),
    (
        b"GET / HTTP/1.1\r\nConnection: keep-alive,\t close \r\n\r\n",
        true,
    ),
    (
        b"GET / HTTP/1.1\r\nConnection: close, keep-alive\r\n\r\n",
        true,
    ),
    (
        b"GET / HTTP/1.1\r\nConnection: a\r\nConnection: close\r\n\r\n",
        true,
    ),
    (b"GET / HTTP/1.1\r\nConnection: keep-alive\r\n\r\n", false),
    (b"GET / HTTP/1.1\r\nConnection: close;x\r\n\r\n", false),
    (b"GET / HTTP/1.1\r\nConnection: closed\r\n\r\n", false),
    (b"GET / HTTP/1.1\r\nConnection: clo se\r\n\r\n", false),
    (b"GET / HTTP/1.1\r\nConnection:\r\n\r\n", false),
    (b"GET / HTTP/1.1\r\nConnections: close\r\n\r\n", false),
    (b"GET / HTTP/1.1\r\n\r\nConnection: close\r\n\r\n", false),
];

#[test]
fn connections_end_where_the_head_says_so(rt: HostRuntime) {
    for &(text, want) in CLOSING {
        let closes = said_by(text).map(|said| said.asks_close);
        expect(&rt, &text, closes, Some(want));
    }
}

/// Texts, and the size of the body after the head at their front, or the rule that refuses it.
const LENGTHS: &[(&[u8], Result<u64, HeadRule>)] = &[
    (b"GET / HTTP/1.1\r\n\r\n", Ok(0)),
    (b"GET / HTTP/1.1\r\nContent-Length: 0\r\n\r\n", Ok(0)),
    (
        b"GET / HTTP/1.1\r\nContent-Length: 1\r\n\r\n",
        Err(HeadRule::H4),
    ),
    (b"DELETE / HTTP/1.1\r\n\r\n", Ok(0)),
    (
        b"DELETE / HTTP/1.1\r\ncontent-length: 999999999999999999\r\n\r\n",
        Ok(999_999_999_999_999_999),
    ),
    (b"POST / HTTP/1.1\r\nContent-Length: 23\r\n\r\n", Ok(23)),
    (
        b"POST / HTTP/1.1\r\nContent-Length: 000000000000000007\r\n\r\n",
        Ok(7),
    ),
    (
        b"POST / HTTP/1.1\r\nContent-Length: 1048576\r\n\r\n",
        Ok(1_048_576),
    ),
    (
        b"POST / HTTP/1.1\r\nContent-Length: 1048577\r\n\r\n",
        Err(HeadRule::H5),
    ),
    (
        b"PUT / HTTP/1.1\r\nContent-Length: 1048577\r\n\r\n",
        Ok(1_048_577),
    ),
    (
        b"PUT / HTTP/1.1\r\nContent-Length: 4294967296\r\n\r\n",
        Ok(4_294_967_296),
    ),
    (
        b"PUT / HTTP/1.1\r\nContent-Length: 4294967297\r\n\r\n",
        Err(HeadRule::H5),
    ),
    (
        b"post / HTTP/1.1\r\nContent-Length: 1048577\r\n\r\n",
        Ok(1_048_577),
    ),
    (b"POST / HTTP/1.1\r\n\r\n", Err(HeadRule::H3)),
    (b"PUT / HTTP/1.0\r\n\r\n", Err(HeadRule::H3)),
    (
        b"POST / HTTP/1.1\r\nTransfer-Encoding: chunked\r\n\r\n",
        Err(HeadRule::H2),
    ),
    (
        b"POST / HTTP/1.1\r\nContent-Length: 3\r\nTRANSFER-ENCODING: identity\r\n\r\n",
        Err(HeadRule::H2),
    ),
    (
        b"POST / HTTP/1.1\r\nContent-Length: 3\r\nContent-Length: 3\r\n\r\n",
        Err(HeadRule::H4),
    ),
    (
        b"POST / HTTP/1.1\r\nContent-Length: 1000000000000000000\r\n\r\n",
        Err(HeadRule::H4),
    ),
    (
        b"POST / HTTP/1.1\r\nContent-Length: 0000000000000000007\r\n\r\n",
        Err(HeadRule::H4),
    ),
    (
        b"POST / HTTP/1.1\r\nContent-Length: +3\r\n\r\n",
        Err(HeadRule::H4),
    ),
    (
        b"POST / HTTP/1.1\r\nContent-Length: -3\r\n\r\n",
        Err(HeadRule::H4),
    ),
    (
        b"POST / HTTP/1.1\r\nContent-Length: 3, 3\r\n\r\n",
        Err(HeadRule::H4),
    ),
    (
        b"POST / HTTP/1.1\r\nContent-Length: 0x3\r\n\r\n",
        Err(HeadRule::H4),
    ),
    (
        b"POST / HTTP/1.1\r\nContent-Length:\r\n\r\n",
        Err(HeadRule::H4),
    ),
    (
        b"GET / HTTP/1.1\r\nAuthorization: a\r\nAuthorization: a\r\n\r\n",
        Err(HeadRule::H4),
    ),
    (
        b"GET / HTTP/1.1\r\nAccept: a\r\nAccept: a\r\n\r\n",
        Err(HeadRule::H4),
    ),
    (b"GET / HTTP/1.1\r\nHost: a\r\nHost: a\r\n\r\n", Ok(0)),
];

#[test]
fn heads_say_how_long_the_body_is(rt: HostRuntime) {
    for &(text, want) in LENGTHS {
        let length = said_by(text).map(|said| said.body_length);
        expect(&rt, &text, length, Some(want));
    }
}

/// Texts, and whether the head at their front accepts a JSON reply.
const ACCEPTS: &[(&[u8], bool)] = &[
    (b"GET / HTTP/1.1\r\n\r\n", true),
    (
        b"GET / HTTP/1.1\r\nAccept: application/vnd.git-lfs+json\r\n\r\n",
        true,
    ),
    (
        b"GET / HTTP/1.1\r\naccept: text/html, Application/* ;q=0.1\r\n\r\n",
        true,
    ),
    (
        b"GET / HTTP/1.1\r\nAccept: text/html,\t*/*\t;q=0\r\n\r\n",
        true,
    ),
    (b"GET / HTTP/1.1\r\nAccept: application/json\r\n\r\n", false),
    (
        b"GET / HTTP/1.1\r\nAccept: application/vnd.git-lfs+json2\r\n\r\n",
        false,
    ),
    (b"GET / HTTP/1.1\r\nAccept:\r\n\r\n", false),
];

#[test]
fn clients_accept_json_or_not(rt: HostRuntime) {
    for &(text, want) in ACCEPTS {
        let accepts = said_by(text).map(|said| said.accepts_json);
        expect(&rt, &text, accepts, Some(want));
    }
}
