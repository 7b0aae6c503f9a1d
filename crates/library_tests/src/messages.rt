//! `control`: requests and replies as bytes, bytes that are none, and what another version gets.

use crate::harness::{Tester, expect, owned, unwrap};
use control::{
    LONGEST_PIECE, LONGEST_REQUEST, MOST_WORDS, PrefixFault, RequestFault, Start, Status, Stream,
    VERSION, frame_start, piece_head, piece_size, read_request, refusal_bytes, request_bytes,
    request_size,
};

/// Inputs, words, the five bytes in front of the request, and those that follow.
const REQUESTS: &[(&[u8], &[&str], [u8; 5], &[u8])] = &[
    (b"", &[], [3, 0, 0, 0, 4], b"\0\0\0\0"),
    (b"", &[""], [3, 0, 0, 0, 8], b"\0\0\0\0\0\0\0\0"),
    (
        b"",
        &["check"],
        [3, 0, 0, 0, 13],
        b"\0\0\0\0\0\0\0\x05check",
    ),
    (b"\0\xff", &[], [3, 0, 0, 0, 6], b"\0\0\0\x02\0\xff"),
    (
        b"art/hero.psd\n",
        &["pushcheck", "--user", "ann", "", "\u{e9}"],
        [3, 0, 0, 0, 57],
        b"\0\0\0\x0dart/hero.psd\n\0\0\0\x09pushcheck\0\0\0\x06--user\0\0\0\x03ann\0\0\0\0\0\0\0\x02\xc3\xa9",
    ),
];

fn owned_words(rt: &impl Tester, words: &[&str]) -> Vec<String> {
    let mut all = Vec::new(rt.alloc());
    for &word in words {
        unwrap(rt, all.push(owned(rt, word)));
    }
    all
}

fn has_words(found: &[String], words: &[&str]) -> bool {
    if found.len() != words.len() {
        return false;
    }
    for (i, word) in words.iter().enumerate() {
        if found[i].as_str() != *word {
            return false;
        }
    }
    true
}

/// Whether these bytes, after the five in front, are the request of this input and these words.
fn reads_as(rt: &impl Tester, bytes: &[u8], input: &[u8], words: &[&str]) -> bool {
    match unwrap(rt, read_request(rt.alloc(), bytes)) {
        None => false,
        Some(request) => request.input == input && has_words(request.words.as_slice(), words),
    }
}

fn is_request(rt: &impl Tester, bytes: &[u8]) -> bool {
    unwrap(rt, read_request(rt.alloc(), bytes)).is_some()
}

#[test]
fn requests_are_their_bytes(rt: HostRuntime) {
    for &(input, words, prefix, rest) in REQUESTS {
        let all = owned_words(&rt, words);
        let bytes = unwrap(&rt, request_bytes(rt.alloc(), input, all.as_slice()));
        expect(&rt, &words, bytes.get(..5), Some(prefix.as_slice()));
        expect(&rt, &words, bytes.get(5..), Some(rest));
        expect(&rt, &words, request_size(prefix), Ok(rest.len()));
        assert!(rt; reads_as(&rt, rest, input, words), "{words:?}");
        for end in 0..rest.len() {
            let front = rest.get(..end).unwrap_or(rest);
            assert!(rt; !reads_as(&rt, front, input, words), "{words:?} {end}");
        }
    }
}

/// Bytes after the five in front that are no request.
const NO_REQUESTS: &[&[u8]] = &[
    b"",
    b"\0",
    b"\0\0\0",
    // the input is longer than the bytes that are left
    b"\0\0\0\x01",
    b"\0\0\0\x03ab",
    b"\xff\xff\xff\xffab",
    // numbers with the lowest byte first
    b"\x02\0\0\0ab",
    b"\0\0\0\0\x02\0\0\0ab",
    // bytes after the last word
    b"\0\0\0\0\0",
    b"\0\0\0\0\0\0\0",
    b"\0\0\0\0\0\0\0\x01ab",
    // the word is longer than the bytes that are left
    b"\0\0\0\0\0\0\0\x01",
    b"\0\0\0\0\0\0\0\x06check",
    b"\0\0\0\0\0\0\0\x05chec",
    b"\0\0\0\0\xff\xff\xff\xffcheck",
    // words that are not UTF-8: a byte of no character, a character cut off, a surrogate
    b"\0\0\0\0\0\0\0\x01\xff",
    b"\0\0\0\0\0\0\0\x01\xc3\0\0\0\x01\xa9",
    b"\0\0\0\0\0\0\0\x03\xed\xa0\x80",
];

#[test]
fn other_bytes_are_no_requests(rt: HostRuntime) {
    for &bytes in NO_REQUESTS {
        assert!(rt; !is_request(&rt, bytes), "{bytes:?}");
    }
}

/// The bytes in front of a request, and how many it says follow.
const SIZES: &[([u8; 5], Result<usize, PrefixFault>)] = &[
    ([3, 0, 0, 0, 0], Ok(0)),
    ([3, 0, 0, 1, 2], Ok(258)),
    ([3, 0, 1, 2, 3], Ok(66_051)),
    ([3, 0, 255, 255, 255], Ok(16_777_215)),
    ([3, 1, 0, 0, 0], Ok(16_777_216)),
    ([3, 1, 0, 0, 1], Err(PrefixFault::TooLong)),
    ([3, 4, 0, 0, 0], Err(PrefixFault::TooLong)),
    ([3, 255, 255, 255, 255], Err(PrefixFault::TooLong)),
    // requests of the first version: the size, and the first byte of the input's
    ([0, 0, 0, 13, 0], Err(PrefixFault::OtherVersion)),
    ([1, 0, 0, 0, 0], Err(PrefixFault::OtherVersion)),
    ([2, 0, 0, 0, 4], Err(PrefixFault::OtherVersion)),
    ([4, 0, 0, 0, 4], Err(PrefixFault::OtherVersion)),
    ([255, 255, 255, 255, 255], Err(PrefixFault::OtherVersion)),
    ([0, 0, 0, 4, 3], Err(PrefixFault::OtherVersion)),
];

#[test]
fn requests_of_another_version_or_more_than_16_mib_have_no_size(rt: HostRuntime) {
    assert_eq!(rt; VERSION, 3);
    assert_eq!(rt; LONGEST_REQUEST, 16_777_216);
    for &(prefix, size) in SIZES {
        expect(&rt, &prefix, request_size(prefix), size);
    }
}

/// The number of all bytes of a request, or its fault.
fn size_of(rt: &impl Tester, input: &[u8], words: &[String]) -> Result<usize, RequestFault> {
    match request_bytes(rt.alloc(), input, words) {
        Ok(bytes) => Ok(bytes.len()),
        Err(fault) => Err(fault),
    }
}

fn empty_words(rt: &impl Tester, count: usize) -> Vec<String> {
    let mut words = Vec::new(rt.alloc());
    for _ in 0..count {
        unwrap(rt, words.push(owned(rt, "")));
    }
    words
}

/// Sizes of inputs, numbers of empty words, and the number of bytes of the request, with the five in front.
const LENGTHS: &[(usize, usize, Result<usize, RequestFault>)] = &[
    (16_777_212, 0, Ok(16_777_221)),
    (16_777_213, 0, Err(RequestFault::TooLong)),
    (16_777_208, 1, Ok(16_777_221)),
    (16_777_209, 1, Err(RequestFault::TooLong)),
    (16_777_213, 63, Err(RequestFault::TooLong)),
    (16_777_213, 64, Err(RequestFault::TooManyWords)),
];

#[test]
fn a_request_has_at_most_16_mib(rt: HostRuntime) {
    for &(length, count, want) in LENGTHS {
        let input = unwrap(&rt, vec![in rt.alloc(); b'a'; length]);
        let words = empty_words(&rt, count);
        let size = size_of(&rt, &input, words.as_slice());
        expect(&rt, &(length, count), size, want);
    }
}

/// The number in front of an input, the number of its bytes, and whether that is a request.
const INPUTS: &[(&[u8], usize, bool)] = &[
    (b"\0\xff\xff\xfc", 16_777_212, true),
    (b"\0\xff\xff\xfd", 16_777_213, false),
];

#[test]
fn no_request_of_more_than_16_mib_is_read(rt: HostRuntime) {
    for &(number, length, is_good) in INPUTS {
        let mut bytes = unwrap(&rt, number.to_vec(rt.alloc()));
        let input = unwrap(&rt, vec![in rt.alloc(); b'a'; length]);
        unwrap(&rt, bytes.extend_from_slice(&input));
        let is_read = reads_as(&rt, &bytes, &input, &[]);
        expect(&rt, &length, is_read, is_good);
    }
}

/// Numbers of empty words, and whether a request may have them.
const COUNTS: &[(usize, bool)] = &[(0, true), (62, true), (63, true), (64, false), (65, false)];

#[test]
fn a_request_has_at_most_63_words(rt: HostRuntime) {
    assert_eq!(rt; MOST_WORDS, 63);
    for &(count, is_good) in COUNTS {
        let words = empty_words(&rt, count);
        let want = if is_good {
            Ok(9 + 4 * count)
        } else {
            Err(RequestFault::TooManyWords)
        };
        expect(&rt, &count, size_of(&rt, b"", words.as_slice()), want);
        // The input and the words are empty, so all bytes are 0.
        let bytes = unwrap(&rt, vec![in rt.alloc(); 0u8; 4 + 4 * count]);
        expect(&rt, &count, is_request(&rt, &bytes), is_good);
    }
}

/// Pieces of a reply, its status, all its output, all its error stream, and its bytes.
const REPLIES: &[(&[(Stream, &[u8])], Status, &[u8], &[u8], &[u8])] = &[
    (&[], Status::Good, b"", b"", b"\x03\0"),
    (&[], Status::Refused, b"", b"", b"\x03\x01"),
    (&[], Status::Invalid, b"", b"", b"\x03\x02"),
    (
        &[(Stream::Output, b"swept 0 uploads\n")],
        Status::Good,
        b"swept 0 uploads\n",
        b"",
        b"\x03\x03\0\0\0\x10swept 0 uploads\n\0",
    ),
    (
        &[(Stream::Errors, b"custody: no memory\n")],
        Status::Refused,
        b"",
        b"custody: no memory\n",
        b"\x03\x04\0\0\0\x13custody: no memory\n\x01",
    ),
    (
        &[
            (Stream::Output, b"\0\xff"),
            (Stream::Errors, b"a"),
            (Stream::Output, b"\x03"),
            (Stream::Errors, b"\x04\0\0"),
            (Stream::Errors, b"b"),
        ],
        Status::Invalid,
        b"\0\xff\x03",
        b"a\x04\0\0b",
        b"\x03\x03\0\0\0\x02\0\xff\x04\0\0\0\x01a\x03\0\0\0\x01\x03\x04\0\0\0\x03\x04\0\0\x04\0\0\0\x01b\x02",
    ),
    (
        &[
            (Stream::Progress, b"1 of 2"),
            (Stream::Output, b"a\n"),
            (Stream::Progress, b"2 of 2"),
            (Stream::Errors, b"b\n"),
        ],
        Status::Good,
        b"a\n",
        b"b\n",
        b"\x03\x05\0\0\0\x061 of 2\x03\0\0\0\x02a\n\x05\0\0\0\x062 of 2\x04\0\0\0\x02b\n\0",
    ),
];

/// Appends a piece.
fn push_piece(rt: &impl Tester, bytes: &mut Vec<u8>, stream: Stream, content: &[u8]) {
    if content.is_empty() || content.len() > LONGEST_PIECE {
        panic!(rt; "no piece has {} bytes", content.len());
    }
    unwrap(
        rt,
        bytes.extend_from_slice(&piece_head(stream, content.len())),
    );
    unwrap(rt, bytes.extend_from_slice(content));
}

/// What the frame at the front says, its content, and the bytes after it; `None` if there is no whole frame.
fn front_frame(bytes: &[u8]) -> Option<(Start, &[u8], &[u8])> {
    let (&byte, rest) = bytes.split_first()?;
    let start = frame_start(byte)?;
    if let Start::End(_) = start {
        return Some((start, b"", rest));
    }
    let (number, rest) = rest.split_first_chunk::<4>()?;
    let (content, rest) = rest.split_at_checked(piece_size(*number)?)?;
    Some((start, content, rest))
}

/// What the frames of a reply say together.
#[derive(Drop)]
struct Told {
    status: Status,
    output: Vec<u8>,
    errors: Vec<u8>,
}

/// Reads a reply; `None` if these are not all the bytes of one.
fn read_reply(rt: &impl Tester, bytes: &[u8]) -> Option<Told> {
    let (&version, mut rest) = bytes.split_first()?;
    if version != VERSION {
        return None;
    }
    let (mut output, mut errors) = (Vec::new(rt.alloc()), Vec::new(rt.alloc()));
    for _ in 0..bytes.len() {
        let (start, content, after) = front_frame(rest)?;
        match start {
            Start::Piece(Stream::Output) => unwrap(rt, output.extend_from_slice(content)),
            Start::Piece(Stream::Errors) => unwrap(rt, errors.extend_from_slice(content)),
            Start::Piece(Stream::Progress) => {}
            Start::End(status) if after.is_empty() => {
                return Some(Told {
                    status,
                    output,
                    errors,
                });
            }
            Start::End(_) => return None,
        }
        rest = after;
    }
    None
}

fn is_reply(rt: &impl Tester, bytes: &[u8], status: Status, output: &[u8], errors: &[u8]) -> bool {
    match read_reply(rt, bytes) {
        None => false,
        Some(told) => {
            told.status == status
                && told.output.as_slice() == output
                && told.errors.as_slice() == errors
        }
    }
}

#[test]
fn replies_are_their_bytes(rt: HostRuntime) {
    for &(pieces, status, output, errors, want) in REPLIES {
        let mut bytes = unwrap(&rt, vec![in rt.alloc(); VERSION; 1]);
        for &(stream, content) in pieces {
            push_piece(&rt, &mut bytes, stream, content);
        }
        unwrap(&rt, bytes.push(status.code()));
        expect(&rt, &want, bytes.as_slice(), want);
        assert!(rt; is_reply(&rt, want, status, output, errors), "{want:?}");
        for end in 0..want.len() {
            let front = want.get(..end).unwrap_or(want);
            assert!(rt; read_reply(&rt, front).is_none(), "{want:?} {end}");
        }
    }
}

/// Bytes that are no reply.
const NO_REPLIES: &[&[u8]] = &[
    // other versions, and a reply of the first one
    b"\x02\0",
    b"\x04\0",
    b"\0\0\0\0\0\0\0\0\0",
    // frames with another first byte
    b"\x03\x06",
    b"\x03\xff\0\0\0\x01a\0",
    b"\x03\x03\0\0\0\x01a\x06\0",
    // bytes after the end
    b"\x03\0\0",
    b"\x03\0\x03\0\0\0\x01a\0",
    // pieces of 0 bytes, of 65,537, and with the lowest byte first
    b"\x03\x03\0\0\0\0\0",
    b"\x03\x04\0\x01\0\x01a\0",
    b"\x03\x04\x01\0\0\0a\0",
    b"\x03\x05\0\0\0\0\0",
    // pieces that are longer than the bytes that are left
    b"\x03\x03\0\0\0\x03ab\0",
    b"\x03\x03\0\0\0\x02a\0",
    // no end
    b"\x03\x03\0\0\0\x01a",
];

#[test]
fn other_bytes_are_no_replies(rt: HostRuntime) {
    for &bytes in NO_REPLIES {
        assert!(rt; read_reply(&rt, bytes).is_none(), "{bytes:?}");
    }
}

/// Numbers in four bytes, and how many bytes a piece with this number has.
const PIECES: &[([u8; 4], Option<usize>)] = &[
    ([0, 0, 0, 0], None),
    ([0, 0, 0, 1], Some(1)),
    ([0, 0, 1, 2], Some(258)),
    ([0, 0, 255, 255], Some(65_535)),
    ([0, 1, 0, 0], Some(65_536)),
    ([0, 1, 0, 1], None),
    ([0, 255, 0, 0], None),
    ([1, 0, 0, 0], None),
    ([1, 0, 0, 1], None),
    ([255, 255, 255, 255], None),
];

#[test]
fn a_piece_has_1_to_65_536_bytes(rt: HostRuntime) {
    assert_eq!(rt; LONGEST_PIECE, 65_536);
    for &(number, size) in PIECES {
        expect(&rt, &number, piece_size(number), size);
        if let Some(size) = size {
            let content = unwrap(&rt, vec![in rt.alloc(); b'a'; size]);
            let mut bytes = Vec::new(rt.alloc());
            push_piece(&rt, &mut bytes, Stream::Errors, &content);
            expect(&rt, &size, bytes.get(..1), Some(b"\x04".as_slice()));
            expect(&rt, &size, bytes.get(1..5), Some(number.as_slice()));
            expect(&rt, &size, bytes.get(5..), Some(content.as_slice()));
        }
    }
}

/// First bytes of frames, and what each says.
const STARTS: &[(u8, Start)] = &[
    (0, Start::End(Status::Good)),
    (1, Start::End(Status::Refused)),
    (2, Start::End(Status::Invalid)),
    (3, Start::Piece(Stream::Output)),
    (4, Start::Piece(Stream::Errors)),
    (5, Start::Piece(Stream::Progress)),
];

#[test]
fn frames_begin_with_0_to_5(rt: HostRuntime) {
    for &(byte, start) in STARTS {
        expect(&rt, &byte, frame_start(byte), Some(start));
        if let Start::End(status) = start {
            expect(&rt, &status, status.code(), byte);
        }
    }
    for byte in 6..=u8::MAX {
        expect(&rt, &byte, frame_start(byte), None);
    }
}

#[test]
fn another_version_gets_a_reply_of_the_first_one(rt: HostRuntime) {
    let want = b"\x02\0\0\0\0\0\0\0\x28custody: the server has another version\n";
    expect(&rt, &"refusal", refusal_bytes(), want.as_slice());
    assert!(rt; read_reply(&rt, refusal_bytes()).is_none());
}

/// Faults of requests, and the text of each.
const FAULTS: &[(RequestFault, &str)] = &[
    (
        RequestFault::TooLong,
        "the input and the words are too long",
    ),
    (RequestFault::TooManyWords, "too many words"),
    (RequestFault::Memory, "no memory"),
];

/// Faults of the first bytes of a request, and the text of each.
const PREFIX_FAULTS: &[(PrefixFault, &str)] = &[
    (PrefixFault::OtherVersion, "the request has another version"),
    (PrefixFault::TooLong, "the request is too long"),
];

#[test]
fn faults_have_a_text(rt: HostRuntime) {
    for &(fault, want) in FAULTS {
        let text = unwrap(&rt, fault.to_string(rt.alloc()));
        expect(&rt, &fault, text.as_str(), want);
    }
    for &(fault, want) in PREFIX_FAULTS {
        let text = unwrap(&rt, fault.to_string(rt.alloc()));
        expect(&rt, &fault, text.as_str(), want);
    }
}
