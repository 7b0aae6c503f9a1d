//! `policy`: policy files, their faults, and the row that decides.

use crate::harness::unwrap;
use policy::*;
use std::alloc::{Alloc, Global};
use std::process::Abort;

mod covering;
mod decisions;
mod faults;
mod limits;
mod worked;

const TOP: &str = r#"base = "https://lfs.example"
token_seconds = 3600
"#;

const REPO: &str = r#"[[repo]]
name = "studio/film"
default_ref = "refs/heads/main"
quota = 1000000
"#;

const ROW: &str = r#"[[row]]
effect = "allow"
users = ["ann", "bob"]
repos = ["studio/film"]
refs = ["*"]
paths = ["*"]
rights = ["pull", "push", "list", "lock"]
"#;

/// The three parts, joined.
fn join(rt: &(impl Abort + Alloc<A = Global>), first: &str, second: &str, third: &str) -> String {
    unwrap(rt, format!(in rt.alloc(); "{first}{second}{third}"))
}

/// The lists of a row, and valid entries of each.
const LISTS: &[(Key, &str)] = &[
    (Key::Users, "[\"*\"]"),
    (Key::Repos, "[\"*\"]"),
    (Key::Refs, "[\"*\"]"),
    (Key::Paths, "[\"*\"]"),
    (Key::Rights, "[\"pull\"]"),
];

/// A row that denies everything to everyone, except that one list is the given one.
fn row_with(rt: &(impl Abort + Alloc<A = Global>), key: Key, list: &str) -> String {
    let mut row = unwrap(
        rt,
        String::from_str(rt.alloc(), "[[row]]\neffect = \"deny\"\n"),
    );
    for &(other, any) in LISTS {
        let list = if other == key { list } else { any };
        let line = unwrap(rt, format!(in rt.alloc(); "{} = {list}\n", other.name()));
        unwrap(rt, row.push_str(line.as_str()));
    }
    row
}

/// Asserts that the program prints this after `custody: policy ` for the text, or, if `none` is expected,
/// that the text is a policy.
fn expect(rt: &(impl Abort + Alloc<A = Global>), source: &str, expected: &str) {
    let line = match Policy::read(rt.alloc(), source) {
        Ok(_) => unwrap(rt, String::from_str(rt.alloc(), "none")),
        Err(fault) => unwrap(rt, fault.to_string(rt.alloc())),
    };
    assert_eq!(rt; line.as_str(), expected, "of {source}");
}

/// The same for a text in three parts: usually the top, the repositories and the rows.
fn expect_parts(
    rt: &(impl Abort + Alloc<A = Global>),
    top: &str,
    repos: &str,
    rows: &str,
    expected: &str,
) {
    let source = join(rt, top, repos, rows);
    expect(rt, source.as_str(), expected);
}

#[test]
fn reads_a_plain_policy(rt: HostRuntime) {
    let source = join(&rt, TOP, REPO, ROW);
    let policy = unwrap(&rt, Policy::read(rt.alloc(), source.as_str()));
    assert_eq!(rt; policy.base(), "https://lfs.example");
    assert_eq!(rt; policy.token_seconds(), 3600);
    let repo = unwrap(&rt, policy.repo("studio/film").ok_or(()));
    assert_eq!(rt; repo.name().as_str(), "studio/film");
    assert_eq!(rt; repo.default_ref().as_str(), "refs/heads/main");
    assert_eq!(rt; repo.quota(), 1000000);
    assert!(rt; policy.repo("studio/other").is_none());
}

#[test]
fn reads_bytes(rt: HostRuntime) {
    let source = join(&rt, TOP, REPO, ROW);
    let policy = unwrap(&rt, Policy::read_bytes(rt.alloc(), source.as_bytes()));
    assert_eq!(rt; policy.token_seconds(), 3600);
}

/// The longest length of a file and one byte more, and the faults of bytes that are not UTF-8.
const LENGTHS: &[(usize, FaultCode)] = &[(1_048_576, FaultCode::Y1), (1_048_577, FaultCode::Y5)];

#[test]
fn reads_bytes_that_are_no_text(rt: HostRuntime) {
    for &(length, code) in LENGTHS {
        let bytes = unwrap(&rt, vec![in rt.alloc(); 0xffu8; length]);
        let fault = Fault {
            code,
            place: Place::File,
            key: None,
        };
        let read = Policy::read_bytes(rt.alloc(), bytes.as_slice());
        assert_eq!(rt; read.err(), Some(PolicyFault::Refused(fault)));
    }
}
