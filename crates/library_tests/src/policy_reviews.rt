//! `policy_review`: the lines that are printed of the faults of a policy file, and of what is dubious in one without a
//! fault.

use crate::harness::{Tester, unwrap};
use model::Right;
use policy::{Fault, FaultCode, Key, Place, Policy, PolicyFault};
use policy_review::{asked_by, problem_in, warnings};

/// A file of two repositories and two rows, without a fault: 27 lines.
const FILE: &str = r#"base = "https://lfs.example"
token_seconds = 3600

[[repo]]
name = "studio/film"
default_ref = "refs/heads/main"
quota = 1000000

[[repo]]
name = "studio/game"
default_ref = "refs/heads/main"
quota = 1000000

# the artists
[[row]]
effect = "allow"
users = ["ann", "bob"]
repos = ["studio/film"]
refs = ["*"]
paths = ["*"]
rights = ["pull", "push", "list", "lock"]

[[row]]
effect = "deny"
users = [
  "ann",
  "bob",
]
repos = ["studio/"]
refs = ["refs/heads/main"]
paths = ["art/"]
rights = ["lock"]
"#;

/// Texts of the file, others in their place, and the problem of the file.
const PROBLEMS: &[(&str, &str, &str)] = &[
    (
        "users = [\"ann\", \"bob\"]",
        "users = [\"ann\", \"Ann\"]",
        "line 17: in row 1, `users` is out of range: expected 1 to 64 texts, each * or a user; found \"Ann\"",
    ),
    (
        "\"bob\",\n]",
        "\"\\u001b[31m\",\n]",
        "line 25: in row 2, `users` is out of range: expected 1 to 64 texts, each * or a user; found \"\\u{1b}[31m\"",
    ),
    (
        "repos = [\"studio/\"]",
        "repos = []",
        "line 29: in row 2, `repos` is out of range: expected 1 to 64 texts, each *, an owner and a slash, or a repository; found 0 texts",
    ),
    (
        "refs = [\"refs/heads/main\"]",
        "refs = [\"main\"]",
        "line 30: in row 2, `refs` is out of range: expected 1 to 64 texts, each *, refs/, a ref and a slash, or a ref; found \"main\"",
    ),
    (
        "paths = [\"art/\"]",
        "paths = [\"/art/\"]",
        "line 31: in row 2, `paths` is out of range: expected 1 to 64 texts, each *, a path and a slash, or a path; found \"/art/\"",
    ),
    (
        "rights = [\"lock\"]",
        "rights = [\"lock\", \"unlock\"]",
        "line 32: in row 2, `rights` is out of range: expected 1 to 64 texts of pull, push, list, lock, force; found \"unlock\"",
    ),
    (
        "effect = \"deny\"",
        "effect = \"forbid\"",
        "line 24: in row 2, `effect` is out of range: expected allow or deny; found \"forbid\"",
    ),
    (
        "effect = \"deny\"\n",
        "",
        "line 23: in row 2, `effect` is missing: expected allow or deny",
    ),
    (
        "effect = \"deny\"",
        "effect = 1979-05-27",
        "line 24: in row 2, `effect` is of the wrong kind: expected allow or deny; found a date or a time",
    ),
    (
        "users = [\"ann\", \"bob\"]",
        "users = \"ann\"",
        "line 17: in row 1, `users` is of the wrong kind: expected 1 to 64 texts, each * or a user; found a text",
    ),
    (
        "users = [\"ann\", \"bob\"]",
        "users = [\"ann\", true]",
        "line 17: in row 1, `users` is of the wrong kind: expected 1 to 64 texts, each * or a user; found a boolean in it",
    ),
    (
        "effect = \"deny\"\n",
        "effect = \"deny\"\nuser = [\"zoe\"]\n",
        "line 25: in row 2, there is a key that is none of `effect`, `users`, `repos`, `refs`, `paths`, `rights`; found the key \"user\"",
    ),
    (
        "effect = \"deny\"\n",
        "effect = \"deny\"\n\"effect \" = 1\n",
        "in row 2, there is a key that is none of `effect`, `users`, `repos`, `refs`, `paths`, `rights`; found the key \"effect \"",
    ),
    (
        "[[row]]\neffect = \"deny\"",
        "[[rows]]\neffect = \"deny\"",
        "line 23: at the top, there is a key that is none of `base`, `token_seconds`, `repo`, `row`; found the key \"rows\"",
    ),
    (
        "token_seconds = 3600",
        "token_seconds = 3600\ncolour = 1",
        "line 3: at the top, there is a key that is none of `base`, `token_seconds`, `repo`, `row`; found the key \"colour\"",
    ),
    (
        "token_seconds = 3600\n",
        "",
        "at the top, `token_seconds` is missing: expected a whole number from 1 to 86400",
    ),
    (
        "token_seconds = 3600",
        "token_seconds = 86401",
        "line 2: at the top, `token_seconds` is out of range: expected a whole number from 1 to 86400; found 86401",
    ),
    (
        "quota = 1000000\n\n[[repo]]",
        "quota = -1\n\n[[repo]]",
        "line 7: in repository 1, `quota` is out of range: expected a whole number from 0 to 1099511627776; found -1",
    ),
    (
        "studio/game",
        "studio/film",
        "line 10: in repository 2, `name` is the same as in an earlier repository: expected a repository, as owner/name, each 1 to 40 of `a-z 0-9 _ -`; found \"studio/film\"",
    ),
    (
        "studio/game",
        "studio/0123456789012345678901234567890123456789012345678901234567890123456789",
        "line 10: in repository 2, `name` is out of range: expected a repository, as owner/name, each 1 to 40 of `a-z 0-9 _ -`; found \"studio/01234567890123456789012345678901234567890123456789012\"..",
    ),
    // not TOML
    (
        "token_seconds = 3600",
        "token_seconds = 3600\nrow = [{ effect = \"allow\" }, 1]",
        "line 16: the file is no TOML text in UTF-8; duplicate key",
    ),
    // a brace or a text in several lines: a line that looks like a key may be none
    (
        "effect = \"deny\"\n",
        "effect = \"\"\"\nusers = 1\n\"\"\"\n",
        "in row 2, `effect` is out of range: expected allow or deny; found \"users = 1\\n\"",
    ),
    ("# the artists", "# the artists {ann, bob}", "none"),
    (
        "repos = [\"studio/\"]",
        "repos = [\"studio/]",
        "line 29: the file is no TOML text in UTF-8; invalid string",
    ),
];

/// The problem of the text, or `none` if it is a policy.
fn problem_of(rt: &impl Tester, source: &[u8]) -> String {
    match Policy::read_bytes(rt.alloc(), source) {
        Ok(_) => unwrap(rt, String::from_str(rt.alloc(), "none")),
        Err(PolicyFault::Refused(fault)) => {
            let problem = unwrap(rt, problem_in(rt.alloc(), source, fault));
            unwrap(rt, problem.to_string(rt.alloc()))
        }
        Err(PolicyFault::Memory) => unwrap(rt, String::from_str(rt.alloc(), "memory")),
    }
}

/// Asserts the problem of the text, or `none` if it is a policy.
fn expect_problem(rt: &impl Tester, source: &[u8], expected: &str) {
    let printed = problem_of(rt, source);
    assert_eq!(rt; printed.as_str(), expected);
}

#[test]
fn a_fault_is_described_with_its_line(rt: HostRuntime) {
    for &(old, new, expected) in PROBLEMS {
        let source = unwrap(&rt, FILE.replace(rt.alloc(), old, new));
        expect_problem(&rt, source.as_bytes(), expected);
    }
}

/// Whole files, and the problem of each: bytes that are not UTF-8, arrays of inline tables, a key in quotes, a header in
/// quotes, and a text in several lines.
const FILES: &[(&[u8], &str)] = &[
    (
        b"base = \"https://lfs.example\"\ntoken_seconds = 3600\n# \xff\n",
        "line 3: the file is no TOML text in UTF-8; found a byte that is not UTF-8",
    ),
    (
        b"[[[[[[[[",
        "line 1: the file is no TOML text in UTF-8; invalid key, expected letters, numbers, `-`, `_` or a quoted key",
    ),
    (
        b"base =",
        "line 1: the file is no TOML text in UTF-8; invalid value, expected a string, number, boolean, date-time, array or inline table",
    ),
    (
        b"base = \"https://lfs.example\"\ntoken_seconds = 3600\nrepo = [\n  1,\n]\n",
        "in repository 1, there is no table; found a whole number",
    ),
    (
        b"base = \"https://lfs.example\"\ntoken_seconds = 3600\nrepo = [\n{ name = \"a/b\", default_ref = \"refs/a\", quota = -1 },\n]\n",
        "in repository 1, `quota` is out of range: expected a whole number from 0 to 1099511627776; found -1",
    ),
    (
        b"\"base\" = 1\ntoken_seconds = 3600\n",
        "at the top, `base` is of the wrong kind: expected a text of 8 to 200 of `A-Z a-z 0-9 . : _ / -` that begins with http:// or https://, goes on after it and does not end in /; found a whole number",
    ),
    (
        b"base = \"https://lfs.example\"\ntoken_seconds = 3600\n[[\"repo\"]]\nname = \"a/b\"\ndefault_ref = \"refs/a\"\nquota = 1\n[[repo]]\nname = \"a/b\"\ndefault_ref = \"refs/a\"\nquota = 1\n",
        "in repository 2, `name` is the same as in an earlier repository: expected a repository, as owner/name, each 1 to 40 of `a-z 0-9 _ -`; found \"a/b\"",
    ),
    (
        b"base = \"\"\"\ntoken_seconds = 1\n\"\"\"\ntoken_seconds = 0\n",
        "at the top, `base` is out of range: expected a text of 8 to 200 of `A-Z a-z 0-9 . : _ / -` that begins with http:// or https://, goes on after it and does not end in /; found \"token_seconds = 1\\n\"",
    ),
    (
        b"base = \"https://lfs.example\"\ntoken_seconds = 3600\n[row]\neffect = \"allow\"\n",
        "line 3: at the top, `row` is of the wrong kind: expected an array of at most 1000 tables; found a table",
    ),
];

#[test]
fn the_line_is_not_named_if_it_is_in_doubt(rt: HostRuntime) {
    for &(source, expected) in FILES {
        expect_problem(&rt, source, expected);
    }
}

/// A fault at the key of a place.
fn fault_at(code: FaultCode, place: Place, key: Option<Key>) -> Fault {
    Fault { code, place, key }
}

/// A fault that the text does not have: the sentence is printed, and no more than what the text shows.
#[test]
fn a_fault_of_another_text_is_described(rt: HostRuntime) {
    let faults = [
        fault_at(FaultCode::Y1, Place::File, None),
        fault_at(FaultCode::Y5, Place::File, None),
        fault_at(FaultCode::Y3, Place::Row(9), Some(Key::Users)),
        fault_at(FaultCode::Y2, Place::Repo(0), None),
    ];
    let expected = [
        "the file is no TOML text in UTF-8",
        "the file has more than 1048576 bytes",
        "in row 9, `users` is out of range: expected 1 to 64 texts, each * or a user",
        "in repository 0, there is no table",
    ];
    for (fault, expected) in faults.iter().zip(expected.iter()) {
        let problem = unwrap(&rt, problem_in(rt.alloc(), FILE.as_bytes(), *fault));
        let printed = unwrap(&rt, problem.to_string(rt.alloc()));
        assert_eq!(rt; printed.as_str(), *expected);
    }
}

/// Texts of the file, others in their place, and the warnings, each with a line end.
const WARNINGS: &[(&str, &str, &str)] = &[
    ("colour", "", ""),
    ("token_seconds = 3600", "token_seconds = 60", ""),
    (
        "token_seconds = 3600",
        "token_seconds = 59",
        "token_seconds: 59 seconds are short: the Git LFS client counts a token as expired 5 seconds before its end, so a transfer may need several tokens\n",
    ),
    (
        "token_seconds = 3600",
        "token_seconds = 6",
        "token_seconds: 6 seconds are short: the Git LFS client counts a token as expired 5 seconds before its end, so a transfer may need several tokens\n",
    ),
    (
        "token_seconds = 3600",
        "token_seconds = 5",
        "token_seconds: a token of 5 seconds cannot transfer files: the Git LFS client counts a token as expired 5 seconds before its end\n",
    ),
    (
        "repos = [\"studio/film\"]",
        "repos = [\"studio/flim\", \"*\", \"stduio/\", \"studio/game\"]",
        "row 1: \"studio/flim\" matches no repository of this file\nrow 1: \"stduio/\" matches no repository of this file\n",
    ),
    (
        "paths = [\"art/\"]",
        "paths = [\"*.psd\", \"art/*\", \"*\", \"art/\"]",
        "row 2: \"*.psd\" matches only the path with this very text: write a folder and a slash, as \"art/\", for all paths below it; there are no patterns by ending\nrow 2: \"art/*\" matches only the path with this very text: write a folder and a slash, as \"art/\", for all paths below it; there are no patterns by ending\n",
    ),
    (
        "rights = [\"lock\"]",
        "rights = [\"push\", \"pull\"]",
        "row 2: a request that asks pull names no ref, and the refs have no \"*\": the row does not match it\nrow 2: a request that asks pull names no path, and the paths have no \"*\": the row does not match it\nrow 2: a request that asks push names no path, and the paths have no \"*\": the row matches only the paths of `custody pushcheck`\n",
    ),
    (
        "  \"bob\",\n",
        "  \"zoe\",\n",
        "row 2: no row allows \"zoe\" anything: what no row allows is denied without a row that denies it\n",
    ),
    ("users = [\"ann\", \"bob\"]", "users = [\"*\"]", ""),
];

/// The warnings of the text, each with a line end.
fn warnings_of(rt: &impl Tester, source: &str) -> String {
    let policy = unwrap(rt, Policy::read(rt.alloc(), source));
    let mut printed = String::new(rt.alloc());
    for warning in unwrap(rt, warnings(rt.alloc(), &policy)).iter() {
        let line = unwrap(rt, format!(in rt.alloc(); "{warning}\n"));
        unwrap(rt, printed.push_str(line.as_str()));
    }
    printed
}

#[test]
fn each_kind_of_warning(rt: HostRuntime) {
    for &(old, new, expected) in WARNINGS {
        let source = unwrap(&rt, FILE.replace(rt.alloc(), old, new));
        let printed = warnings_of(&rt, source.as_str());
        assert_eq!(rt; printed.as_str(), expected);
    }
}

#[test]
fn requests_that_ask_a_right(rt: HostRuntime) {
    assert_eq!(rt;
        asked_by(Right::List),
        "a list of locks, for each lock in it"
    );
    assert_eq!(rt;
        asked_by(Right::Force),
        "the release of another user's lock, by force"
    );
}
