//! The desk's replies to requests, without the lines that a connection adds.

use crate::harness::{Tester, lock_path, oid, repo, unwrap, user};
use crate::server::{CREATED, EXPIRY, NOW, ROW, Server, Trial, policy_with, try_on_forms};
use desk::{ForeseeFault, Reply, ReplyBody, RepoRequest, answer, foresee, view};
use forms::{LockRequest, PutRequest, Request, read_form};
use model::Form;
use names::{Moment, Operation, Rule, SliceSource, VecSink};
use service::send_reply;
use store::Store;

/// Ann's upload token, and her download token.
const ANN: &[u8] = b"Bearer aaaaaaaaaaaaaaaaaaaaaaaaaaaaaaaaaaaaaaaaaaaaaaaaaaaaaaaaaaaaaaaa";

const READER: &[u8] = b"Bearer cccccccccccccccccccccccccccccccccccccccccccccccccccccccccccccccc";

/// A request for the lock on `art/hero.psd`.
fn lock_request(rt: &impl Tester) -> Request {
    Request::Lock(LockRequest {
        path: lock_path(rt, "art/hero.psd"),
        ref_name: None,
    })
}

/// The desk's reply to a request, with this content.
fn reply_to<S: Store>(
    rt: &impl Tester,
    server: &mut Server<S>,
    bearer: &[u8],
    repo: &str,
    request: &Result<Request, Rule>,
    content: &[u8],
) -> Reply {
    let asked = RepoRequest {
        authorization: Some(bearer),
        repo,
        request,
    };
    let now = unwrap(rt, Moment::read(NOW).ok_or(()));
    let mut content = SliceSource::new(content, 1);
    let reply = answer(
        rt.alloc(),
        &mut server.store,
        &server.policy,
        now,
        &asked,
        &mut content,
    );
    unwrap(rt, reply)
}

fn text_of(reply: &Reply) -> &str {
    match &reply.body {
        ReplyBody::Json(text) => text.as_str(),
        ReplyBody::Refused(text) => text,
        ReplyBody::Empty | ReplyBody::Content(..) => "",
    }
}

/// The SHA-256 of `abc` (FIPS 180-2, appendix B.1).
const ABC: &str = "ba7816bf8f01cfea414140de5dae2223b00361a396177a9cb410ff61f20015ad";

/// A front of its own: it takes no message, and no JSON is read.
#[derive(Drop)]
struct Front;

impl Trial for Front {
    fn take<S: Store>(&mut self, rt: &impl Tester, server: &mut Server<S>) {
        let request = Ok(lock_request(rt));
        let reply = reply_to(rt, server, ANN, "studio/film", &request, b"");
        let mut sink = VecSink::new(rt.alloc(), 7);
        unwrap(rt, send_reply(&mut sink, &reply, "", false));
        let text = unwrap(rt, str::from_utf8(sink.taken()));
        assert_eq!(rt; text, CREATED);
    }
}

#[test]
fn a_front_without_messages_locks_a_path(rt: HostRuntime) {
    try_on_forms(&rt, &mut Front);
}

/// A user and a repository; the numbers of tokens, objects and locks that the user sees, the number of locks ever made, and
/// the room.
type Sight = (&'static str, &'static str, usize, usize, usize, u32, i128);

/// What is seen of a server with the object `abc` and a lock of ann's. The policy has no row for carol, and does not have
/// the repository `studio/game`.
const SIGHTS: &[Sight] = &[
    ("ann", "studio/film", 2, 1, 1, 1, 999_997),
    ("bob", "studio/film", 1, 1, 1, 1, 999_997),
    ("carol", "studio/film", 0, 0, 0, 1, 999_997),
    ("ann", "studio/game", 1, 0, 0, 0, 0),
];

/// Adds the object `abc`, and ann's lock on `art/hero.psd`.
fn add_object_and_lock<S: Store>(rt: &impl Tester, server: &mut Server<S>) {
    let upload = Ok(Request::Put(PutRequest {
        name: oid(rt, ABC),
        ref_name: None,
    }));
    let stored = reply_to(rt, server, ANN, "studio/film", &upload, b"abc");
    assert!(rt; stored.rule.is_none());
    let lock = Ok(lock_request(rt));
    let locked = reply_to(rt, server, ANN, "studio/film", &lock, b"");
    assert!(rt; locked.rule.is_none());
}

/// What each user sees.
#[derive(Drop)]
struct Sights;

impl Trial for Sights {
    fn take<S: Store>(&mut self, rt: &impl Tester, server: &mut Server<S>) {
        add_object_and_lock(rt, server);
        for &(name, place, tokens, objects, locks, made, room) in SIGHTS {
            let (name, place) = (user(rt, name), repo(rt, place));
            let seen = view(rt.alloc(), &mut server.store, &server.policy, &name, &place);
            let seen = unwrap(rt, seen);
            assert_eq!(rt; seen.tokens.len(), tokens);
            assert_eq!(rt; seen.objects.len(), objects);
            assert_eq!(rt; seen.locks.len(), locks);
            assert_eq!(rt; seen.made, made);
            assert!(rt; seen.room == room);
        }
    }
}

#[test]
fn a_view_has_what_its_user_sees(rt: HostRuntime) {
    try_on_forms(&rt, &mut Sights);
}

/// The tokens of ann by the SHA-256 of their texts, which begins with 52 for 64 times `c`, and with ff for 64 times `a`.
#[derive(Drop)]
struct Listed;

impl Trial for Listed {
    fn take<S: Store>(&mut self, rt: &impl Tester, server: &mut Server<S>) {
        add_object_and_lock(rt, server);
        let (ann, film) = (user(rt, "ann"), repo(rt, "studio/film"));
        let seen = view(rt.alloc(), &mut server.store, &server.policy, &ann, &film);
        let seen = unwrap(rt, seen);
        assert!(rt;
            seen.tokens
                .as_slice()
                .first()
                .map_or(false, |token| token.digest[0] == 0x52)
        );
        assert!(rt;
            seen.tokens
                .as_slice()
                .last()
                .map_or(false, |token| token.digest[0] == 0xff)
        );
        assert!(rt;
            seen.tokens
                .as_slice()
                .first()
                .map_or(false, |token| token.operation == Operation::Download)
        );
        assert!(rt;
            seen.objects
                .as_slice()
                .first()
                .map_or(false, |object| object.name.text() == ABC)
        );
        assert!(rt;
            seen.objects
                .as_slice()
                .first()
                .map_or(false, |object| object.size.get() == 3)
        );
        assert!(rt;
            seen.locks
                .as_slice()
                .first()
                .map_or(false, |lock| lock.id.get() == 1)
        );
        assert!(rt;
            seen.locks
                .as_slice()
                .first()
                .map_or(false, |lock| lock.path.as_str() == "art/hero.psd")
        );
    }
}

#[test]
fn a_view_lists_tokens_objects_and_locks(rt: HostRuntime) {
    try_on_forms(&rt, &mut Listed);
}

/// The room under a quota of one byte.
#[derive(Drop)]
struct Lowered;

impl Trial for Lowered {
    fn take<S: Store>(&mut self, rt: &impl Tester, server: &mut Server<S>) {
        add_object_and_lock(rt, server);
        let lowered = policy_with(rt, "1", ROW);
        let (ann, film) = (user(rt, "ann"), repo(rt, "studio/film"));
        let seen = view(rt.alloc(), &mut server.store, &lowered, &ann, &film);
        assert!(rt; unwrap(rt, seen).room == -2);
    }
}

#[test]
fn the_room_of_a_view_is_below_zero_after_the_quota_was_lowered(rt: HostRuntime) {
    try_on_forms(&rt, &mut Lowered);
}

const BOB: &[u8] = b"Bearer bbbbbbbbbbbbbbbbbbbbbbbbbbbbbbbbbbbbbbbbbbbbbbbbbbbbbbbbbbbbbbbb";

/// A user and the user's token; what is asked, the parameter and the body, which is the content of an upload.
type Asked = (
    &'static str,
    &'static [u8],
    Form,
    &'static str,
    &'static str,
);

/// Requests of all eight kinds to one server, each of which finds what the ones before it left: granted ones, and ones that
/// A5, the policy, L1, L2, L3, X1, X2 and V2 refuse.
const REQUESTS: &[Asked] = &[
    ("ann", ANN, Form::Lock, "", "{\"path\":\"art/hero.psd\"}"),
    ("bob", BOB, Form::Lock, "", "{\"path\":\"art/hero.psd\"}"),
    (
        "ann",
        READER,
        Form::Lock,
        "",
        "{\"path\":\"art/other.psd\"}",
    ),
    ("bob", BOB, Form::Unlock, "1", "{}"),
    ("bob", BOB, Form::Unlock, "1", "{\"force\":true}"),
    ("bob", BOB, Form::Lock, "", "{\"path\":\"art/map.psd\"}"),
    ("ann", READER, Form::List, "", ""),
    ("ann", ANN, Form::VerifyLocks, "", "{\"limit\":1}"),
    ("ann", ANN, Form::VerifyLocks, "", "{}"),
    ("ann", ANN, Form::Get, ABC, ""),
    ("ann", ANN, Form::Put, ABC, "abd"),
    ("ann", ANN, Form::Put, ABC, "abc"),
    ("bob", BOB, Form::Get, ABC, ""),
    (
        "ann",
        ANN,
        Form::Verify,
        "",
        "{\"oid\":\"ba7816bf8f01cfea414140de5dae2223b00361a396177a9cb410ff61f20015ad\",\"size\":3}",
    ),
    (
        "ann",
        ANN,
        Form::Verify,
        "",
        "{\"oid\":\"ba7816bf8f01cfea414140de5dae2223b00361a396177a9cb410ff61f20015ad\",\"size\":4}",
    ),
    (
        "ann",
        ANN,
        Form::Batch,
        "",
        "{\"operation\":\"upload\",\"objects\":[{\"oid\":\"ba7816bf8f01cfea414140de5dae2223b00361a396177a9cb410ff61f20015ad\",\"size\":3},{\"oid\":\"aa7816bf8f01cfea414140de5dae2223b00361a396177a9cb410ff61f20015ad\",\"size\":999998},{\"oid\":\"x\",\"size\":1}]}",
    ),
    (
        "ann",
        READER,
        Form::Batch,
        "",
        "{\"operation\":\"download\",\"objects\":[{\"oid\":\"ba7816bf8f01cfea414140de5dae2223b00361a396177a9cb410ff61f20015ad\",\"size\":3}]}",
    ),
    ("ann", ANN, Form::Unlock, "1", "{}"),
    ("ann", ANN, Form::Unlock, "1", "{}"),
];

/// The reply that is foreseen from the view of the user.
fn foreseen<S: Store>(
    rt: &impl Tester,
    server: &mut Server<S>,
    name: &str,
    asked: &RepoRequest<'_>,
    second: u64,
    body: &[u8],
) -> Result<Reply, ForeseeFault> {
    let (name, film) = (user(rt, name), repo(rt, "studio/film"));
    let now = unwrap(rt, Moment::read(second).ok_or(()));
    let seen = view(rt.alloc(), &mut server.store, &server.policy, &name, &film);
    foresee(rt.alloc(), &unwrap(rt, seen), now, asked, body)
}

/// The requests, each of them foreseen before it is answered.
#[derive(Drop)]
struct ForeseenRequests;

impl Trial for ForeseenRequests {
    fn take<S: Store>(&mut self, rt: &impl Tester, server: &mut Server<S>) {
        for &(name, bearer, form, parameter, body) in REQUESTS {
            let request = unwrap(
                rt,
                read_form(rt.alloc(), form, parameter, "", body.as_bytes()),
            );
            let asked = RepoRequest {
                authorization: Some(bearer),
                repo: "studio/film",
                request: &request,
            };
            let want = foreseen(rt, server, name, &asked, NOW, body.as_bytes());
            let want = unwrap(rt, want);
            let film = "studio/film";
            let reply = reply_to(rt, server, bearer, film, &request, body.as_bytes());
            assert!(rt; !reply.is_store_refusal(), "{body}");
            assert!(rt;
                reply.status == want.status && reply.rule == want.rule,
                "{body}"
            );
            assert_eq!(rt; text_of(&reply), text_of(&want));
            let is_content = matches!(reply.body, ReplyBody::Content(..));
            assert!(rt;
                is_content == matches!(want.body, ReplyBody::Content(..)),
                "{body}"
            );
        }
    }
}

#[test]
fn a_reply_is_foreseen_from_the_view_of_its_user(rt: HostRuntime) {
    try_on_forms(&rt, &mut ForeseenRequests);
}

/// Tokens and moments, and whether ann's view has the caller: bob's token is none of hers, and hers is valid up to its expiry.
const CALLERS: &[(Option<&[u8]>, u64, bool)] = &[
    (Some(BOB), NOW, false),
    (None, NOW, false),
    (Some(b"Basic YTpi"), NOW, false),
    (Some(ANN), EXPIRY, false),
    (Some(ANN), EXPIRY - 1, true),
];

/// Each caller, before the view of ann.
#[derive(Drop)]
struct Callers;

impl Trial for Callers {
    fn take<S: Store>(&mut self, rt: &impl Tester, server: &mut Server<S>) {
        let request = Ok(lock_request(rt));
        for &(authorization, second, is_caller) in CALLERS {
            let asked = RepoRequest {
                authorization,
                repo: "studio/film",
                request: &request,
            };
            let fault = foreseen(rt, server, "ann", &asked, second, b"").err();
            let want = if is_caller {
                None
            } else {
                Some(ForeseeFault::NoCaller)
            };
            assert!(rt; fault == want);
        }
    }
}

#[test]
fn a_token_that_is_not_of_the_view_has_no_caller(rt: HostRuntime) {
    try_on_forms(&rt, &mut Callers);
}
