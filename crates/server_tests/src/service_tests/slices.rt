//! An upload that is received in slices: others are answered in between, and it is judged again at its end.

use super::large::{DOWNLOAD, STORED, UPLOAD};
use crate::harness::{Tester, moment, oid, repo, unwrap};
use crate::server::{
    CREATED, EXPIRY, MESSAGE, NOW, Server, Trial, filled, repeated, reply, texts, try_on_forms,
};
use names::VecSink;
use service::{End, Routes, Terms, Upload, begin_upload};
use store::Store;

/// The name in the head of the upload.
const NAME: &str = "6d1cf22d7cc09b085dfc25ee1a1f3ae0265804c607bc2074ad253bcc82fd81ee";

/// The head of an upload with the token of which each byte is `@`.
const UPLOAD_BY: &str =
    "PUT /studio/film.git/info/lfs/content/6d1cf22d7cc09b085dfc25ee1a1f3ae0265804c607bc2074ad253bcc82fd81ee HTTP/1.1\r\nAuthorization: Bearer @\r\nContent-Length: 100000\r\n\r\n";

/// Begins an upload of which these bytes have arrived.
fn begun<S: Store>(rt: &impl Tester, server: &mut Server<S>, bytes: &[u8]) -> Option<Upload> {
    let routes = unwrap(rt, Routes::new(rt.alloc()));
    let terms = Terms {
        policy: &server.policy,
        moment: moment(rt, NOW),
    };
    begin_upload(rt.alloc(), &mut server.store, terms, &routes, bytes)
}

/// An upload of which 70,000 bytes come first, then a lock of another connection, and then the other 30,000.
#[derive(Drop)]
struct Sliced<'w> {
    /// What its content repeats.
    byte: &'w str,
    /// Whether its token is removed in between.
    prunes: bool,
    /// The reply to it, and how the connection ends.
    want: &'w str,
    end: Option<End>,
    /// Whether the object is stored.
    stored: bool,
}

impl Trial for Sliced<'_> {
    fn take<S: Store>(&mut self, rt: &impl Tester, server: &mut Server<S>) {
        let first = repeated(rt, &[(self.byte, 70_000)]);
        let rest = repeated(rt, &[(self.byte, 30_000)]);
        let bytes = texts(rt, &[UPLOAD, first.as_str()]);
        let mut upload = unwrap(rt, begun(rt, server, bytes.as_bytes()).ok_or(()));
        assert_eq!(rt; upload.left(), 30_000);
        let sent = server.answer(rt, MESSAGE.as_bytes(), usize::MAX);
        assert!(rt; sent.text.as_str() == CREATED);
        if self.prunes {
            unwrap(rt, server.store.remove_expired(moment(rt, EXPIRY)));
        }
        unwrap(rt, upload.take(&mut server.store, rest.as_bytes()));
        assert_eq!(rt; upload.left(), 0);
        let mut sink = VecSink::new(rt.alloc(), usize::MAX);
        let end = upload.end(rt.alloc(), &mut server.store, &server.policy, &mut sink);
        assert!(rt; sink.taken() == self.want.as_bytes());
        assert_eq!(rt; end, self.end);
        let found = server
            .store
            .object(&repo(rt, "studio/film"), &oid(rt, NAME));
        assert_eq!(rt; unwrap(rt, found).is_some(), self.stored);
    }
}

#[test]
fn others_are_answered_between_slices(rt: HostRuntime) {
    let mut sliced = Sliced {
        byte: "a",
        prunes: false,
        want: STORED,
        end: None,
        stored: true,
    };
    try_on_forms(&rt, &mut sliced);
}

#[test]
fn an_upload_is_judged_again_at_its_end(rt: HostRuntime) {
    let unknown = reply(
        &rt,
        "401 Unauthorized",
        "LFS-Authenticate: Bearer realm=\"Git LFS\"\r\nConnection: close\r\n",
        "{\"message\":\"A2: the token is unknown\"}",
    );
    let mut pruned = Sliced {
        byte: "a",
        prunes: true,
        want: unknown.as_str(),
        end: Some(End::Closed),
        stored: false,
    };
    try_on_forms(&rt, &mut pruned);
    let differs = reply(
        &rt,
        "422 Unprocessable Content",
        "",
        "{\"message\":\"X2: the bytes do not have this name\"}",
    );
    let mut other = Sliced {
        byte: "b",
        prunes: false,
        want: differs.as_str(),
        end: None,
        stored: false,
    };
    try_on_forms(&rt, &mut other);
}

/// What is not begun: no upload, a part of a head, and uploads that a rule refuses at their head.
#[derive(Drop)]
struct Denied;

impl Trial for Denied {
    fn take<S: Store>(&mut self, rt: &impl Tester, server: &mut Server<S>) {
        assert!(rt; begun(rt, server, DOWNLOAD.as_bytes()).is_none());
        assert!(rt; begun(rt, server, b"PUT /studio").is_none());
        // A token for downloads, one for another repository, and one that is unknown.
        for byte in ["c", "d", "e"] {
            let token = repeated(rt, &[(byte, 64)]);
            let head = filled(rt, UPLOAD_BY, token.as_str());
            assert!(rt; begun(rt, server, head.as_bytes()).is_none());
        }
    }
}

#[test]
fn a_denied_upload_is_not_begun(rt: HostRuntime) {
    try_on_forms(&rt, &mut Denied);
}
