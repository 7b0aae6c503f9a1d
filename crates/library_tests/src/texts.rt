//! `names`: texts and numbers with a range, moments, rules.

use crate::harness::{expect, owned, unwrap};
use names::{LockId, LockPath, Moment, Oid, RefName, RepoName, Rule, Size, UserName, moment_text};
use std::alloc::{Alloc, Global};
use std::fmt::Display;
use std::process::Abort;

/// The text, followed by `letters` letters `a`.
fn lengthened(rt: &(impl Abort + Alloc<A = Global>), text: &str, letters: usize) -> String {
    let mut long = owned(rt, text);
    let rest = unwrap(rt, "a".repeat(rt.alloc(), letters));
    unwrap(rt, long.push_str(rest.as_str()));
    long
}

/// The printed text if there is no name. Each name in these tables is another text.
const NONE: &str = "none";

/// The printed name, or [`NONE`].
fn printed<T: Drop + Display>(rt: &(impl Abort + Alloc<A = Global>), name: Option<T>) -> String {
    match name {
        Some(name) => unwrap(rt, name.to_string(rt.alloc())),
        None => owned(rt, NONE),
    }
}

/// The text of a name, or [`NONE`].
fn held(rt: &(impl Abort + Alloc<A = Global>), name: Option<&str>) -> String {
    owned(rt, name.unwrap_or(NONE))
}

/// The kinds of names that are texts.
#[derive(Clone, Copy)]
enum Kind {
    User,
    Repository,
    Ref,
    Path,
}

/// The text, read and printed as a name of this kind, or [`NONE`].
fn written(rt: &(impl Abort + Alloc<A = Global>), kind: Kind, text: &str) -> String {
    let text = owned(rt, text);
    match kind {
        Kind::User => printed(rt, UserName::read(text)),
        Kind::Repository => printed(rt, RepoName::read(text)),
        Kind::Ref => printed(rt, RefName::read(text)),
        Kind::Path => printed(rt, LockPath::read(text)),
    }
}

/// The text of the name of this kind, or [`NONE`].
fn text_of(rt: &(impl Abort + Alloc<A = Global>), kind: Kind, text: &str) -> String {
    let text = owned(rt, text);
    match kind {
        Kind::User => {
            let name = UserName::read(text);
            held(rt, name.as_ref().map(UserName::as_str))
        }
        Kind::Repository => {
            let name = RepoName::read(text);
            held(rt, name.as_ref().map(RepoName::as_str))
        }
        Kind::Ref => {
            let name = RefName::read(text);
            held(rt, name.as_ref().map(RefName::as_str))
        }
        Kind::Path => {
            let name = LockPath::read(text);
            held(rt, name.as_ref().map(LockPath::as_str))
        }
    }
}

/// Whether the text is accepted as a name of this kind.
fn is_accepted(kind: Kind, text: &str) -> bool {
    match kind {
        Kind::User => UserName::accepts(text),
        Kind::Repository => RepoName::accepts(text),
        Kind::Ref => RefName::accepts(text),
        Kind::Path => LockPath::accepts(text),
    }
}

/// The text if it is a name, else [`NONE`].
fn wanted(text: &str, good: bool) -> &str {
    if good { text } else { NONE }
}

/// Asserts that these texts are names of the kind, or not.
fn expect_names(
    rt: &(impl Abort + Alloc<A = Global>),
    kind: Kind,
    cases: &[(&'static str, usize, bool)],
) {
    for &(text, letters, good) in cases {
        let text = lengthened(rt, text, letters);
        let text = text.as_str();
        let want = wanted(text, good);
        expect(rt, &text, written(rt, kind, text).as_str(), want);
        expect(rt, &text, text_of(rt, kind, text).as_str(), want);
        expect(rt, &text, is_accepted(kind, text), good);
    }
}

/// Texts, the number of letters `a` after them, and whether the result is a user.
const USERS: &[(&str, usize, bool)] = &[
    ("anna", 0, true),
    ("a", 0, true),
    ("z_0-9", 0, true),
    ("", 40, true),
    ("", 41, false),
    ("", 0, false),
    ("A", 0, false),
    ("a.b", 0, false),
    ("a/b", 0, false),
    ("a b", 0, false),
    ("\u{e9}", 0, false),
];

#[test]
fn users_are_1_to_40_bytes_of_their_alphabet(rt: HostRuntime) {
    expect_names(&rt, Kind::User, USERS);
}

/// Texts, the number of letters `a` after them, and whether the result is a repository.
const REPOSITORIES: &[(&str, usize, bool)] = &[
    ("studio/film", 0, true),
    // An owner of 40 letters and one of 41.
    ("aaaaaaaaaaaaaaaaaaaaaaaaaaaaaaaaaaaaaaaa/", 40, true),
    ("aaaaaaaaaaaaaaaaaaaaaaaaaaaaaaaaaaaaaaaaa/b", 0, false),
    ("b/", 41, false),
    ("", 0, false),
    ("studio", 0, false),
    ("studio/", 0, false),
    ("/film", 0, false),
    ("studio/film/", 0, false),
    ("studio/film/cut", 0, false),
    ("studio/Film", 0, false),
];

#[test]
fn repositories_are_an_owner_and_a_name(rt: HostRuntime) {
    expect_names(&rt, Kind::Repository, REPOSITORIES);
}

/// Texts, the number of letters `a` after them, and whether the result is a ref.
const REFS: &[(&str, usize, bool)] = &[
    ("refs/heads/main", 0, true),
    ("refs/a", 0, true),
    ("refs/a.b/C-9_.", 0, true),
    ("refs/", 250, true),
    ("refs/", 251, false),
    ("", 0, false),
    ("refs", 0, false),
    ("refs/", 0, false),
    ("refs//a", 0, false),
    ("refs/a/", 0, false),
    ("refs/a..b", 0, false),
    ("refs/..", 0, false),
    ("refs/a b", 0, false),
    ("refs/a~1", 0, false),
    ("Refs/a", 0, false),
    ("/refs/a", 0, false),
    ("refs/\u{e9}", 0, false),
];

#[test]
fn refs_have_no_two_dots_and_no_empty_part(rt: HostRuntime) {
    expect_names(&rt, Kind::Ref, REFS);
}

/// Texts, the number of letters `a` after them, and whether the result is a path.
const PATHS: &[(&str, usize, bool)] = &[
    ("a/\u{e9}", 0, true),
    ("a", 0, true),
    ("shots/010/plate.exr", 0, true),
    ("...", 0, true),
    (".a/b.", 0, true),
    (" ~", 0, true),
    ("", 1024, true),
    ("", 1025, false),
    ("", 0, false),
    ("/a", 0, false),
    ("a/", 0, false),
    ("a//b", 0, false),
    (".", 0, false),
    ("..", 0, false),
    ("a/./b", 0, false),
    ("a/..", 0, false),
    ("a\\b", 0, false),
    ("\u{0}", 0, false),
    ("\u{1f}", 0, false),
    ("\u{7f}", 0, false),
    ("\u{80}", 0, true),
    ("\u{d7ff}", 0, true),
    ("\u{e000}", 0, true),
    ("\u{fffd}", 0, true),
    ("\u{10ffff}", 0, true),
];

#[test]
fn lock_paths_are_clean(rt: HostRuntime) {
    expect_names(&rt, Kind::Path, PATHS);
}

/// Digits, and whether an object's name may have them.
const DIGITS: &[(&str, bool)] = &[
    ("0", true),
    ("9", true),
    ("a", true),
    ("f", true),
    ("/", false),
    (":", false),
    ("`", false),
    ("g", false),
    ("F", false),
];

/// Numbers of bytes, the size of each, and its printed form.
const SIZES: &[(u64, Option<u64>, &str)] = &[
    (0, Some(0), "0"),
    (4_294_967_296, Some(4_294_967_296), "4294967296"),
    (4_294_967_297, None, NONE),
];

/// The number of digits of a text, and whether an object's name may have that many.
const COUNTS: &[(usize, bool)] = &[(63, false), (64, true), (65, false)];

/// Asserts that the digit, repeated, is an object's name, or not.
fn expect_digit(rt: &(impl Abort + Alloc<A = Global>), digit: &str, good: bool) {
    for &(count, fits) in COUNTS {
        let text = unwrap(rt, digit.repeat(rt.alloc(), count));
        let read = Oid::read(text.as_bytes()).is_some();
        expect(rt, &text, read, good && fits);
    }
}

#[test]
fn objects_are_64_digits(rt: HostRuntime) {
    // The SHA-256 of the empty text.
    let empty = "e3b0c44298fc1c149afbf4c8996fb92427ae41e4649b934ca495991b7852b855";
    let name = unwrap(&rt, Oid::read(empty.as_bytes()).ok_or(()));
    expect(&rt, &"the text", name.text(), empty);
    expect(&rt, &empty, printed(&rt, Some(name)).as_str(), empty);
    for &(digit, good) in DIGITS {
        expect_digit(&rt, digit, good);
    }
}

#[test]
fn sizes_have_a_limit(rt: HostRuntime) {
    for &(bytes, number, text) in SIZES {
        let size = Size::read(bytes).map(|size| size.get());
        expect(&rt, &bytes, size, number);
        expect(&rt, &bytes, printed(&rt, Size::read(bytes)).as_str(), text);
    }
}

/// Texts, and the number of the lock that each names.
const LOCK_IDS: &[(&str, Option<u32>)] = &[
    ("1", Some(1)),
    ("10", Some(10)),
    ("4294967295", Some(4_294_967_295)),
    ("4294967296", None),
    ("18446744073709551617", None),
    ("0", None),
    ("01", None),
    ("+1", None),
    ("-1", None),
    ("", None),
    (" 1", None),
    ("1 ", None),
    ("1.", None),
    ("0x1", None),
    ("\u{ff11}", None),
];

#[test]
fn lock_ids_are_decimal(rt: HostRuntime) {
    for &(text, number) in LOCK_IDS {
        expect(&rt, &text, LockId::read(text).map(|id| id.get()), number);
    }
    expect(&rt, &0, LockId::from_number(0), None);
    let last = printed(&rt, LockId::from_number(4_294_967_295));
    expect(&rt, &"the last", last.as_str(), "4294967295");
}

/// Moments, and the texts of `date -u -d @N +%Y-%m-%dT%H:%M:%SZ`.
const MOMENTS: &[(u64, &str)] = &[
    (0, "1970-01-01T00:00:00Z"),
    (86_399, "1970-01-01T23:59:59Z"),
    (951_827_696, "2000-02-29T12:34:56Z"),
    (2_147_483_647, "2038-01-19T03:14:07Z"),
    (4_107_542_399, "2100-02-28T23:59:59Z"),
    (4_107_542_400, "2100-03-01T00:00:00Z"),
    (13_574_649_599, "2400-02-29T23:59:59Z"),
    (253_402_300_799, "9999-12-31T23:59:59Z"),
];

#[test]
fn moments_are_printed_as_dates(rt: HostRuntime) {
    for &(second, text) in MOMENTS {
        let moment = unwrap(&rt, Moment::read(second).ok_or(()));
        let date = unwrap(&rt, moment_text(rt.alloc(), moment));
        expect(&rt, &second, date.as_str(), text);
        expect(&rt, &second, moment.get(), second);
    }
    expect(
        &rt,
        &253_402_300_800u64,
        Moment::read(253_402_300_800),
        None,
    );
}

/// Rules, with their codes, statuses and reasons.
const RULES: &[(Rule, &str, u16, &str)] = &[
    (Rule::H1, "H1", 400, "bad request head"),
    (Rule::H2, "H2", 501, "transfer codings are not served"),
    (Rule::H3, "H3", 411, "a length is needed"),
    (Rule::H4, "H4", 400, "a field or body is not allowed here"),
    (Rule::H5, "H5", 413, "the body is too large"),
    (Rule::H6, "H6", 404, "no such route"),
    (Rule::H7, "H7", 405, "the method is not served here"),
    (Rule::H8, "H8", 406, "the reply type is not accepted"),
    (Rule::A1, "A1", 401, "a bearer token is needed"),
    (Rule::A2, "A2", 401, "the token is unknown"),
    (Rule::A3, "A3", 401, "the token has expired"),
    (Rule::A4, "A4", 404, "no such repository"),
    (Rule::A5, "A5", 403, "the token does not cover this"),
    (Rule::R1, "R1", 404, "no such repository"),
    (Rule::J1, "J1", 422, "the body has the wrong shape"),
    (Rule::J2, "J2", 422, "a field is out of range"),
    (Rule::J3, "J3", 413, "too many objects"),
    (Rule::J4, "J4", 422, "no transfer in common"),
    (Rule::B1, "B1", 404, "the object is not stored"),
    (Rule::B2, "B2", 422, "the object name or size is not valid"),
    (Rule::B3, "B3", 409, "the hash algorithm is not served"),
    (Rule::B4, "B4", 422, "the stored size differs"),
    (Rule::B5, "B5", 507, "the quota does not hold the object"),
    (Rule::B6, "B6", 410, "the object was removed by its owner"),
    (Rule::X1, "X1", 404, "the object is not stored"),
    (Rule::X2, "X2", 422, "the bytes do not have this name"),
    (Rule::X3, "X3", 507, "the quota does not hold the object"),
    (Rule::X4, "X4", 410, "the object was removed by its owner"),
    (Rule::V1, "V1", 404, "the object is not stored"),
    (Rule::V2, "V2", 422, "the stored size differs"),
    (Rule::L1, "L1", 409, "the path is already locked"),
    (Rule::L2, "L2", 404, "no such lock"),
    (Rule::L3, "L3", 403, "the lock belongs to another user"),
    (Rule::L4, "L4", 422, "the cursor is no lock id"),
    (Rule::L5, "L5", 507, "the lock ids are used up"),
    (Rule::S1, "S1", 500, "the store refused"),
];

#[test]
fn rules_have_a_code_a_status_and_a_reason(rt: HostRuntime) {
    for &(rule, code, status, reason) in RULES {
        expect(&rt, &rule, printed(&rt, Some(rule)).as_str(), code);
        let reply = (rule.status(), rule.reason());
        expect(&rt, &rule, reply, (Some(status), Some(reason)));
    }
}

/// Rows of a policy, and the codes of their denials.
const DENIALS: &[(u32, &str)] = &[(0, "P0"), (1, "P1"), (1000, "P1000")];

#[test]
fn a_denial_by_the_policy_has_its_row(rt: HostRuntime) {
    for &(row, code) in DENIALS {
        let rule = Rule::P(row);
        expect(&rt, &rule, printed(&rt, Some(rule)).as_str(), code);
        expect(&rt, &rule, (rule.status(), rule.reason()), (None, None));
    }
}
