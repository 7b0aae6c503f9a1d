//! `forms`: answers as JSON.

use crate::harness::{Tester, lock_path, moment, unwrap, user};
use forms::{Action, Answer, DenialStatus, ShownLock, ShownPage, SplitPage};
use model::Right;
use names::{LockId, Rule};
use std::alloc::{AllocError, Global};

/// The status, a space and the body.
pub(crate) fn text_of(alloc: Global, answer: &Answer<'_>) -> Result<String, AllocError> {
    let body = answer.body(alloc)?;
    let status = answer.status().as_u16();
    format!(in alloc; "{status} {body}")
}

/// A reply that shows one lock: that it was made, that it already holds the path, or that it was
/// released.
#[derive(Clone, Copy)]
enum Showing {
    Locked,
    Held,
    Released,
}

/// The text of the reply that shows the lock.
fn lock_text(alloc: Global, lock: &ShownLock<'_>, showing: Showing) -> Result<String, AllocError> {
    match showing {
        Showing::Locked => text_of(alloc, &Answer::Locked(lock)),
        Showing::Held => text_of(alloc, &Answer::Held(lock)),
        Showing::Released => text_of(alloc, &Answer::Released(lock)),
    }
}

/// The text of the reply to the lock of the example in `docs/PROTOCOL.md`, on this path.
fn text_of_lock(rt: &impl Tester, path: &str, showing: Showing) -> String {
    let owner = user(rt, "ann");
    let path = lock_path(rt, path);
    let lock = ShownLock {
        id: unwrap(rt, LockId::read("1").ok_or(())),
        locked_at: moment(rt, 1_463_500_146),
        owner: &owner,
        path: &path,
    };
    unwrap(rt, lock_text(rt.alloc(), &lock, showing))
}

/// A path, what the reply shows, and its text.
const LOCKS: &[(&str, Showing, &str)] = &[
    (
        "art/hero.psd",
        Showing::Locked,
        r#"201 {"lock":{"id":"1","locked_at":"2016-05-17T15:49:06Z","owner":{"name":"ann"},"path":"art/hero.psd"}}"#,
    ),
    (
        "art/hero.psd",
        Showing::Held,
        r#"409 {"lock":{"id":"1","locked_at":"2016-05-17T15:49:06Z","owner":{"name":"ann"},"path":"art/hero.psd"},"message":"L1: the path is already locked"}"#,
    ),
    (
        "art/hero.psd",
        Showing::Released,
        r#"200 {"lock":{"id":"1","locked_at":"2016-05-17T15:49:06Z","owner":{"name":"ann"},"path":"art/hero.psd"}}"#,
    ),
    (
        "\"\u{e9}\" & <b>",
        Showing::Locked,
        "201 {\"lock\":{\"id\":\"1\",\"locked_at\":\"2016-05-17T15:49:06Z\",\"owner\":{\"name\":\"ann\"},\"path\":\"\\\"\u{e9}\\\" & <b>\"}}",
    ),
];

#[test]
fn locks_are_shown_with_their_owner(rt: HostRuntime) {
    for &(path, showing, want) in LOCKS {
        let text = text_of_lock(&rt, path, showing);
        assert_eq!(rt; text.as_str(), want);
    }
}

/// The text of the reply with a page of the locks.
fn list_text(
    alloc: Global,
    locks: &[ShownLock<'_>],
    next: Option<LockId>,
) -> Result<String, AllocError> {
    text_of(alloc, &Answer::Listed(&ShownPage { locks, next }))
}

/// The text of the reply with a page of the locks, of which the first few are the caller's own.
fn split_text(
    alloc: Global,
    locks: &[ShownLock<'_>],
    own: usize,
    next: Option<LockId>,
) -> Result<String, AllocError> {
    let (ours, theirs) = locks.split_at(own.min(locks.len()));
    text_of(alloc, &Answer::Split(&SplitPage { ours, theirs, next }))
}

/// The text of the reply with a page of the first of two locks: the caller's own apart if their
/// number is given.
fn text_of_page(rt: &impl Tester, count: usize, own: Option<usize>, next: &str) -> String {
    let owner = user(rt, "ann");
    let path = lock_path(rt, "art/hero.psd");
    let first = ShownLock {
        id: unwrap(rt, LockId::read("1").ok_or(())),
        locked_at: moment(rt, 1_463_500_146),
        owner: &owner,
        path: &path,
    };
    let second = ShownLock {
        id: unwrap(rt, LockId::read("12").ok_or(())),
        locked_at: moment(rt, 0),
        ..first
    };
    let locks = [first, second];
    let shown = &locks[..count.min(2)];
    let next = LockId::read(next);
    let text = match own {
        None => list_text(rt.alloc(), shown, next),
        Some(own) => split_text(rt.alloc(), shown, own, next),
    };
    unwrap(rt, text)
}

/// How many locks a page has, how many of them are the caller's own if those are apart, the next
/// lock's id, and the text of the reply.
const PAGES: &[(usize, Option<usize>, &str, &str)] = &[
    (0, None, "", r#"200 {"locks":[]}"#),
    (
        1,
        None,
        "12",
        r#"200 {"locks":[{"id":"1","locked_at":"2016-05-17T15:49:06Z","owner":{"name":"ann"},"path":"art/hero.psd"}],"next_cursor":"12"}"#,
    ),
    (
        2,
        None,
        "",
        r#"200 {"locks":[{"id":"1","locked_at":"2016-05-17T15:49:06Z","owner":{"name":"ann"},"path":"art/hero.psd"},{"id":"12","locked_at":"1970-01-01T00:00:00Z","owner":{"name":"ann"},"path":"art/hero.psd"}]}"#,
    ),
    (0, Some(0), "", r#"200 {"ours":[],"theirs":[]}"#),
    (
        2,
        Some(1),
        "4294967295",
        r#"200 {"next_cursor":"4294967295","ours":[{"id":"1","locked_at":"2016-05-17T15:49:06Z","owner":{"name":"ann"},"path":"art/hero.psd"}],"theirs":[{"id":"12","locked_at":"1970-01-01T00:00:00Z","owner":{"name":"ann"},"path":"art/hero.psd"}]}"#,
    ),
    (
        1,
        Some(0),
        "",
        r#"200 {"ours":[],"theirs":[{"id":"1","locked_at":"2016-05-17T15:49:06Z","owner":{"name":"ann"},"path":"art/hero.psd"}]}"#,
    ),
];

#[test]
fn pages_are_shown_with_their_next_lock(rt: HostRuntime) {
    for &(count, own, next, want) in PAGES {
        let text = text_of_page(&rt, count, own, next);
        assert_eq!(rt; text.as_str(), want);
    }
}

/// Rules, and the text of the reply by each.
const RULES: &[(Rule, &str)] = &[
    (Rule::H1, r#"400 {"message":"H1: bad request head"}"#),
    (
        Rule::H2,
        r#"501 {"message":"H2: transfer codings are not served"}"#,
    ),
    (Rule::H3, r#"411 {"message":"H3: a length is needed"}"#),
    (
        Rule::H4,
        r#"400 {"message":"H4: a field or body is not allowed here"}"#,
    ),
    (Rule::H5, r#"413 {"message":"H5: the body is too large"}"#),
    (Rule::H6, r#"404 {"message":"H6: no such route"}"#),
    (
        Rule::H7,
        r#"405 {"message":"H7: the method is not served here"}"#,
    ),
    (
        Rule::H8,
        r#"406 {"message":"H8: the reply type is not accepted"}"#,
    ),
    (
        Rule::A1,
        r#"401 {"message":"A1: a bearer token is needed"}"#,
    ),
    (Rule::A2, r#"401 {"message":"A2: the token is unknown"}"#),
    (Rule::A3, r#"401 {"message":"A3: the token has expired"}"#),
    (Rule::A4, r#"404 {"message":"A4: no such repository"}"#),
    (
        Rule::A5,
        r#"403 {"message":"A5: the token does not cover this"}"#,
    ),
    (Rule::R1, r#"404 {"message":"R1: no such repository"}"#),
    (
        Rule::J1,
        r#"422 {"message":"J1: the body has the wrong shape"}"#,
    ),
    (Rule::J2, r#"422 {"message":"J2: a field is out of range"}"#),
    (Rule::J3, r#"413 {"message":"J3: too many objects"}"#),
    (Rule::J4, r#"422 {"message":"J4: no transfer in common"}"#),
    (
        Rule::X1,
        r#"404 {"message":"X1: the object is not stored"}"#,
    ),
    (
        Rule::X2,
        r#"422 {"message":"X2: the bytes do not have this name"}"#,
    ),
    (
        Rule::X3,
        r#"507 {"message":"X3: the quota does not hold the object"}"#,
    ),
    (
        Rule::V1,
        r#"404 {"message":"V1: the object is not stored"}"#,
    ),
    (Rule::V2, r#"422 {"message":"V2: the stored size differs"}"#),
    (Rule::L2, r#"404 {"message":"L2: no such lock"}"#),
    (
        Rule::L3,
        r#"403 {"message":"L3: the lock belongs to another user"}"#,
    ),
    (
        Rule::L4,
        r#"422 {"message":"L4: the cursor is no lock id"}"#,
    ),
    (
        Rule::L5,
        r#"507 {"message":"L5: the lock ids are used up"}"#,
    ),
    (Rule::S1, r#"500 {"message":"S1: the store refused"}"#),
];

#[test]
fn rules_are_reported_by_their_code(rt: HostRuntime) {
    for &(rule, want) in RULES {
        let text = unwrap(&rt, text_of(rt.alloc(), &Answer::Denied(rule)));
        assert_eq!(rt; text.as_str(), want);
    }
}

/// The row that decides, the right, the status of the denial, and the text of the reply.
const ROWS: &[(u32, Right, DenialStatus, &str)] = &[
    (
        0,
        Right::Lock,
        DenialStatus::Forbidden,
        r#"403 {"message":"P0: no policy row allows lock"}"#,
    ),
    (
        1,
        Right::Pull,
        DenialStatus::NotFound,
        r#"404 {"message":"P1: policy row 1 denies pull"}"#,
    ),
    (
        12,
        Right::Push,
        DenialStatus::Forbidden,
        r#"403 {"message":"P12: policy row 12 denies push"}"#,
    ),
    (
        2,
        Right::List,
        DenialStatus::Forbidden,
        r#"403 {"message":"P2: policy row 2 denies list"}"#,
    ),
    (
        u32::MAX,
        Right::Force,
        DenialStatus::Forbidden,
        r#"403 {"message":"P4294967295: policy row 4294967295 denies force"}"#,
    ),
];

#[test]
fn rows_are_reported_by_their_number(rt: HostRuntime) {
    for &(row, right, status, want) in ROWS {
        let answer = Answer::DeniedByRow { row, right, status };
        let text = unwrap(&rt, text_of(rt.alloc(), &answer));
        assert_eq!(rt; text.as_str(), want);
    }
}

/// The line that `docs/COMMANDS.md` shows for `authenticate`.
const ACTION: &str =
    r#"{"expires_in":3600,"header":{"Authorization":"Bearer TOKEN"},"href":"https://lfs.example/studio/film.git/info/lfs"}"#;

/// The text of an action.
fn action_text(
    alloc: Global,
    href: &str,
    token: &str,
    expires_in: u64,
) -> Result<String, AllocError> {
    let action = Action {
        href,
        token,
        expires_in,
    };
    action.text(alloc)
}

#[test]
fn an_action_has_its_token_in_a_field(rt: HostRuntime) {
    let href = "https://lfs.example/studio/film.git/info/lfs";
    let text = unwrap(&rt, action_text(rt.alloc(), href, "TOKEN", 3600));
    assert_eq!(rt; text.as_str(), ACTION);
}
