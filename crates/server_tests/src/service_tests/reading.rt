//! Whole messages that are read from memory, and why bytes have none.

use crate::harness::{Tester, unwrap};
use crate::server::{ANN, HERO, LENGTH, LOCKS, MESSAGE, message};
use forms::Request;
use names::Rule;
use service::{MessageFault, Routes, read_message};

/// The fault of the bytes; `None` if they have a message.
fn fault_of(rt: &impl Tester, bytes: &[u8]) -> Option<MessageFault> {
    let routes = unwrap(rt, Routes::new(rt.alloc()));
    read_message(rt.alloc(), &routes, bytes).err()
}

#[test]
fn each_part_of_a_message_is_cut_off(rt: HostRuntime) {
    for size in 0..MESSAGE.len() {
        let part = MESSAGE.as_bytes().get(..size).unwrap_or(&[]);
        assert!(rt; fault_of(&rt, part) == Some(MessageFault::Cut), "{size}");
    }
    assert!(rt; fault_of(&rt, MESSAGE.as_bytes()).is_none());
}

/// Request lines, fields and bodies, and the rule that refuses the message.
const REFUSED: &[(&str, &[&str], &str, Rule)] = &[
    (
        "POST /studio/film.git/info/lfs/locks",
        &[ANN, LENGTH],
        HERO,
        Rule::H1,
    ),
    (LOCKS, &["Transfer-Encoding: chunked"], HERO, Rule::H2),
    (LOCKS, &[ANN], HERO, Rule::H3),
    (LOCKS, &[ANN, ANN, LENGTH], HERO, Rule::H4),
    (LOCKS, &[ANN, "Content-Length: 1048577"], HERO, Rule::H5),
    (
        "GET /studio/film.git/info/lfs HTTP/1.1",
        &[ANN],
        "",
        Rule::H6,
    ),
    (
        "PUT /studio/film.git/info/lfs/locks HTTP/1.1",
        &[ANN, LENGTH],
        HERO,
        Rule::H7,
    ),
    (LOCKS, &[ANN, LENGTH, "Accept: text/html"], HERO, Rule::H8),
    (LOCKS, &["Content-Length: 2"], "[]", Rule::J1),
    (
        LOCKS,
        &[ANN, "Content-Length: 15"],
        "{\"path\":\"../a\"}",
        Rule::J2,
    ),
    (
        "GET /studio/film.git/info/lfs/content/x HTTP/1.1",
        &[],
        "",
        Rule::J2,
    ),
    (
        "POST /studio/film.git/info/lfs/objects/batch HTTP/1.1",
        &["Content-Length: 61"],
        "{\"operation\":\"download\",\"transfers\":[\"tus\"],\"objects\":[]    }",
        Rule::J4,
    ),
];

#[test]
fn a_message_is_refused_by_its_first_rule(rt: HostRuntime) {
    for &(line, fields, body, rule) in REFUSED {
        let text = message(&rt, line, fields, body);
        let fault = fault_of(&rt, text.as_bytes());
        assert!(rt; fault == Some(MessageFault::Refused(rule)), "{text}");
    }
}

#[test]
fn an_upload_is_read_with_its_content_and_no_further(rt: HostRuntime) {
    let text = message(
        &rt,
        "PUT /studio/film.git/info/lfs/content/ba7816bf8f01cfea414140de5dae2223b00361a396177a9cb410ff61f20015ad?ref=refs/heads/dev HTTP/1.0",
        &[ANN, "Content-Length: 3"],
        "abcGET",
    );
    let routes = unwrap(&rt, Routes::new(rt.alloc()));
    let read = unwrap(&rt, read_message(rt.alloc(), &routes, text.as_bytes()));
    assert!(rt; read.body == b"abc".as_slice());
    assert_eq!(rt; read.asked.repo.as_str(), "studio/film");
    assert!(rt; read.asked.is_last);
    let is_upload = match &read.request {
        Request::Put(asked) => asked.ref_name.is_some(),
        _ => false,
    };
    assert!(rt; is_upload);
}
