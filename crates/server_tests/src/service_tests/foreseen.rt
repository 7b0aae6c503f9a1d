//! Random requests of all eight kinds to servers with random policies: the reply that is foreseen from the user's view, and
//! what the server then writes.

use crate::harness::{Tester, repo, unwrap, user};
use crate::server::{NOW, Server, Trial, policy_with, try_on_forms};
use desk::{ForeseeFault, Reply, ReplyBody, foresee, view};
use names::{Moment, VecSink};
use policy::Policy;
use service::{Message, Routes, read_message, send_reply};
use store::Store;

/// A generator of numbers: the multiplier and the increment are those of Knuth's MMIX.
#[derive(Drop)]
struct Random {
    state: u64,
}

impl Random {
    /// A number below `bound`, which is at least 1.
    fn below(&mut self, bound: u64) -> u64 {
        self.state = self
            .state
            .wrapping_mul(6_364_136_223_846_793_005)
            .wrapping_add(1_442_695_040_888_963_407);
        (self.state >> 33) % bound.max(1)
    }

    /// One of the texts; an empty one if there is none.
    fn of(&mut self, texts: &[&'static str]) -> &'static str {
        let at = self.below(texts.len() as u64) as usize;
        texts.get(at).copied().unwrap_or("")
    }
}

/// The last rows of each policy.
const LAST_ROWS: &[&str] = &[
    "[[row]]\neffect = \"allow\"\nusers = [\"ann\"]\nrepos = [\"*\"]\nrefs = [\"*\"]\npaths = [\"*\"]\nrights = [\"pull\", \"push\", \"list\", \"lock\"]\n",
    "[[row]]\neffect = \"allow\"\nusers = [\"bob\"]\nrepos = [\"studio/\"]\nrefs = [\"*\"]\npaths = [\"*\"]\nrights = [\"pull\", \"push\", \"list\", \"lock\", \"force\"]\n",
];

/// Rows that may come before them, some of them twice.
const ROWS: &[&str] = &[
    "[[row]]\neffect = \"deny\"\nusers = [\"bob\"]\nrepos = [\"*\"]\nrefs = [\"*\"]\npaths = [\"art/\"]\nrights = [\"list\", \"push\"]\n",
    "[[row]]\neffect = \"deny\"\nusers = [\"*\"]\nrepos = [\"*\"]\nrefs = [\"refs/heads/dev\"]\npaths = [\"*\"]\nrights = [\"lock\", \"push\"]\n",
    "[[row]]\neffect = \"deny\"\nusers = [\"ann\"]\nrepos = [\"*\"]\nrefs = [\"*\"]\npaths = [\"*\"]\nrights = [\"pull\"]\n",
    "[[row]]\neffect = \"allow\"\nusers = [\"*\"]\nrepos = [\"studio/film\"]\nrefs = [\"refs/heads/main\"]\npaths = [\"art/\"]\nrights = [\"push\", \"lock\"]\n",
];

/// Quotas: none, one that a few objects fill, and one that they do not.
const QUOTAS: &[&str] = &["0", "9", "1000000"];

/// Methods and targets, after the repository, of the eight requests.
const TARGETS: &[&str] = &[
    "POST /objects/batch",
    "GET /content/$",
    "PUT /content/$",
    "PUT /content/$?ref=refs/heads/dev",
    "POST /verify",
    "POST /locks",
    "POST /locks",
    "GET /locks",
    "GET /locks?limit=1&cursor=#",
    "GET /locks?path=art/a",
    "POST /locks/verify",
    "POST /locks/#/unlock",
    "POST /locks/#/unlock",
];

/// Bodies of each of them but an upload.
const BATCHES: &[&str] = &[
    "{\"operation\":\"upload\",\"objects\":[{\"oid\":\"$\",\"size\":3},{\"oid\":\"x\",\"size\":1}]}",
    "{\"operation\":\"upload\",\"ref\":{\"name\":\"refs/heads/dev\"},\"objects\":[{\"oid\":\"$\",\"size\":5}]}",
    "{\"operation\":\"download\",\"objects\":[{\"oid\":\"$\",\"size\":3}]}",
];

const VERIFIES: &[&str] = &["{\"oid\":\"$\",\"size\":3}", "{\"oid\":\"$\",\"size\":5}"];

const LOCKS: &[&str] = &[
    "{\"path\":\"art/a\"}",
    "{\"path\":\"art/b\"}",
    "{\"path\":\"c\"}",
    "{\"path\":\"art/a\",\"ref\":{\"name\":\"refs/heads/dev\"}}",
];

const PAGES: &[&str] = &["{}", "{\"limit\":1}", "{\"cursor\":\"#\"}"];

const UNLOCKS: &[&str] = &["{}", "{\"force\":true}"];

/// Contents of uploads, and their names or another's.
const CONTENTS: &[&str] = &["", "abc", "hello"];

const NAMES: &[&str] = &[
    "e3b0c44298fc1c149afbf4c8996fb92427ae41e4649b934ca495991b7852b855",
    "ba7816bf8f01cfea414140de5dae2223b00361a396177a9cb410ff61f20015ad",
    "2cf24dba5fb0a30e26e83b2ac5b9e29e1b161e5c1fa7425e73043362938b9824",
];

/// The body of a request of this kind.
fn body_of(random: &mut Random, target: &str) -> &'static str {
    let bodies = match target {
        "POST /objects/batch" => BATCHES,
        "POST /verify" => VERIFIES,
        "POST /locks" => LOCKS,
        "POST /locks/verify" => PAGES,
        "POST /locks/#/unlock" => UNLOCKS,
        _ if target.starts_with("PUT") => CONTENTS,
        _ => &[""],
    };
    random.of(bodies)
}

/// The letters of tokens: ann's, bob's, ann's to download, ann's for another repository, and one that no token has.
const LETTERS: &[&str] = &["a", "a", "a", "b", "b", "b", "c", "d", "e"];

/// Who sends a message with the token of this letter: mostly the token's user.
fn sender_of(random: &mut Random, letter: &str) -> &'static str {
    match (letter, random.below(4)) {
        (_, 0) => random.of(&["ann", "bob"]),
        ("b", _) => "bob",
        _ => "ann",
    }
}

/// Whether the token of the letter is one of the user for `studio/film`.
fn is_of(letter: &str, name: &str) -> bool {
    match letter {
        "a" | "c" => name == "ann",
        "b" => name == "bob",
        _ => false,
    }
}

/// A random message about `studio/film`, with the token of this letter.
fn random_message(rt: &impl Tester, random: &mut Random, letter: &str) -> String {
    let alloc = rt.alloc();
    let target = random.of(TARGETS);
    let body = body_of(random, target);
    let (name, id) = (random.of(NAMES), random.of(&["1", "2", "3", "4"]));
    let body = placed(rt, body, name, id);
    let size = body.len();
    let (method, rest) = target.split_once(' ').unwrap_or(("", ""));
    let rest = placed(rt, rest, name, id);
    let token = unwrap(rt, letter.repeat(alloc, 64));
    let length = match method {
        "GET" => String::new(alloc),
        _ => unwrap(rt, format!(in alloc; "Content-Length: {size}\r\n")),
    };
    unwrap(
        rt,
        format!(in alloc;
            "{method} /studio/film.git/info/lfs{rest} HTTP/1.1\r\nAuthorization: Bearer {token}\r\n{length}\r\n{body}"
        ),
    )
}

/// The text with the name in place of `$`, and the id in place of `#`.
fn placed(rt: &impl Tester, text: &str, name: &str, id: &str) -> String {
    let text = unwrap(rt, text.replace(rt.alloc(), '$', name));
    unwrap(rt, text.replace(rt.alloc(), '#', id))
}

/// A random policy.
fn random_policy(rt: &impl Tester, random: &mut Random) -> Policy {
    let mut rows = String::new(rt.alloc());
    for _ in 0..random.below(4) {
        unwrap(rt, rows.push_str(random.of(ROWS)));
    }
    for row in LAST_ROWS {
        unwrap(rt, rows.push_str(row));
    }
    policy_with(rt, random.of(QUOTAS), rows.as_str())
}

/// The reply to the message that is foreseen from the view of the user.
fn foreseen<S: Store>(
    rt: &impl Tester,
    server: &mut Server<S>,
    name: &str,
    text: &[u8],
) -> Result<Reply, ForeseeFault> {
    let routes = unwrap(rt, Routes::new(rt.alloc()));
    let Message {
        asked,
        request,
        body,
    } = unwrap(rt, read_message(rt.alloc(), &routes, text));
    let request = Ok(request);
    let (name, film) = (user(rt, name), repo(rt, "studio/film"));
    let now = unwrap(rt, Moment::read(NOW).ok_or(()));
    let seen = view(rt.alloc(), &mut server.store, &server.policy, &name, &film);
    let asked = asked.to_desk(&request);
    foresee(rt.alloc(), &unwrap(rt, seen), now, &asked, body)
}

/// Whether this is the content of the object of the name.
fn is_content(name: &str, bytes: &[u8]) -> bool {
    CONTENTS.iter().zip(NAMES).any(|(content, known)| content.as_bytes() == bytes && *known == name)
}

/// Whether the server has written this reply, whatever it says about the connection.
fn is_written(rt: &impl Tester, reply: &Reply, sent: &str) -> bool {
    let closes = sent.contains("\r\nConnection: close\r\n");
    let mut sink = VecSink::new(rt.alloc(), usize::MAX);
    unwrap(rt, send_reply(&mut sink, reply, "", closes));
    let Some(rest) = sent.as_bytes().strip_prefix(sink.taken()) else {
        return false;
    };
    match &reply.body {
        ReplyBody::Content(name, size) => {
            rest.len() as u64 == size.get() && is_content(name.text(), rest)
        }
        ReplyBody::Empty | ReplyBody::Json(_) | ReplyBody::Refused(_) => rest.is_empty(),
    }
}

/// Random messages to servers with random policies; how many requests were granted, were refused, and had no token of the
/// user.
#[derive(Drop)]
struct Tally {
    random: Random,
    granted: u32,
    refused: u32,
    strangers: u32,
}

impl Tally {
    /// Foresees the reply to a random message, sends the message to the server, and compares.
    fn compare<S: Store>(&mut self, rt: &impl Tester, server: &mut Server<S>) {
        let letter = self.random.of(LETTERS);
        let name = sender_of(&mut self.random, letter);
        let text = random_message(rt, &mut self.random, letter);
        let want = foreseen(rt, server, name, text.as_bytes());
        let sent = server.answer(rt, text.as_bytes(), usize::MAX).text;
        match want {
            Ok(reply) => {
                assert!(rt; is_of(letter, name), "{text}");
                assert!(rt; is_written(rt, &reply, sent.as_str()), "{text}: {sent}");
                match reply.rule {
                    None => self.granted = self.granted.wrapping_add(1),
                    Some(_) => self.refused = self.refused.wrapping_add(1),
                }
            }
            Err(fault) => {
                assert!(rt;
                    fault == ForeseeFault::NoCaller && !is_of(letter, name),
                    "{text}"
                );
                self.strangers = self.strangers.wrapping_add(1);
            }
        }
    }
}

impl Trial for Tally {
    fn take<S: Store>(&mut self, rt: &impl Tester, server: &mut Server<S>) {
        server.policy = random_policy(rt, &mut self.random);
        for _ in 0..20 {
            self.compare(rt, server);
        }
    }
}

#[test]
fn replies_of_random_servers_are_foreseen(rt: HostRuntime) {
    let mut tally = Tally {
        random: Random { state: 1 },
        granted: 0,
        refused: 0,
        strangers: 0,
    };
    for _ in 0..25 {
        try_on_forms(&rt, &mut tally);
    }
    assert!(rt; tally.granted > 50 && tally.refused > 50 && tally.strangers > 50);
}
