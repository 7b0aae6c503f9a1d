//! `routes`: the route of a target.

use crate::harness::{Tester, unwrap};
use model::Form;
use routes::{Resource, Routes, path_of, query_of};

/// Targets, and the owner and the name of the repository that each leads to.
const LOCKS: &[(&str, &str, &str)] = &[
    ("/studio/film.git/info/lfs/locks", "studio", "film"),
    ("/studio/film.git/info/lfs/locks?", "studio", "film"),
    ("/studio/film.git/info/lfs/locks?a", "studio", "film"),
    ("/studio/film.git/info/lfs/locks?a=/b?c", "studio", "film"),
    ("/a/b.git.git/info/lfs/locks", "a", "b.git"),
    ("/a/.git/info/lfs/locks", "a", ""),
    // Not valid names, and yet a route.
    ("/STUDIO/%66ilm.git/info/lfs/locks", "STUDIO", "%66ilm"),
    (
        "/STUDIO/%66ilm.git.git/info/lfs/locks",
        "STUDIO",
        "%66ilm.git",
    ),
    ("/../...git/info/lfs/locks", "..", ".."),
    ("/{owner}/{name}.git/info/lfs/locks", "{owner}", "{name}"),
    ("/info/lfs.git/info/lfs/locks", "info", "lfs"),
    ("/\u{e9}/\u{e9}.git/info/lfs/locks", "\u{e9}", "\u{e9}"),
];

/// Whether the target is a route to the locks of this repository, whose text is its owner, a slash and
/// its name.
fn leads_to(rt: &impl Tester, routes: &Routes, target: &str, owner: &str, name: &str) -> bool {
    let Some(route) = routes.find(target) else {
        return false;
    };
    let text = unwrap(rt, route.repo_text(rt.alloc()));
    let want = unwrap(rt, format!(in rt.alloc(); "{owner}/{name}"));
    route.owner == owner
        && route.name == name
        && route.resource == Resource::Locks
        && text.as_str() == want.as_str()
}

#[test]
fn targets_lead_to_the_locks_of_a_repository(rt: HostRuntime) {
    let routes = unwrap(&rt, Routes::new(rt.alloc()));
    for &(target, owner, name) in LOCKS {
        assert!(rt; leads_to(&rt, &routes, target, owner, name), "{target}");
    }
}

/// What follows the address of a repository, and the resource and the parameter that it leads to.
const RESOURCES: &[(&str, Resource, &str)] = &[
    ("/objects/batch", Resource::Batch, ""),
    ("/objects/batch?a", Resource::Batch, ""),
    ("/locks", Resource::Locks, ""),
    ("/locks?id=1", Resource::Locks, ""),
    ("/locks/verify", Resource::VerifyLocks, ""),
    ("/locks/verify?a", Resource::VerifyLocks, ""),
    ("/locks/1/unlock", Resource::Unlock, "1"),
    ("/locks/1/unlock?/2/unlock", Resource::Unlock, "1"),
    ("/locks/verify/unlock", Resource::Unlock, "verify"),
    ("/locks/unlock/unlock", Resource::Unlock, "unlock"),
    // Not the ids of locks, and yet a route.
    ("/locks/%31/unlock", Resource::Unlock, "%31"),
    ("/locks/{id}/unlock", Resource::Unlock, "{id}"),
    ("/locks/../unlock", Resource::Unlock, ".."),
    ("/locks/\u{e9}/unlock", Resource::Unlock, "\u{e9}"),
    ("/content/1", Resource::Content, "1"),
    ("/content/1?ref=refs/heads/main", Resource::Content, "1"),
    ("/content/content", Resource::Content, "content"),
    ("/content/verify", Resource::Content, "verify"),
    // Not the names of objects, and yet a route.
    ("/content/%31", Resource::Content, "%31"),
    ("/content/{oid}", Resource::Content, "{oid}"),
    ("/content/..", Resource::Content, ".."),
    ("/content/\u{e9}", Resource::Content, "\u{e9}"),
    ("/verify", Resource::Verify, ""),
    ("/verify?ref=refs/heads/main", Resource::Verify, ""),
];

/// Whether this text after the address of a repository is a route to the resource, with the parameter.
fn has_parameter(
    rt: &impl Tester,
    routes: &Routes,
    rest: &str,
    resource: Resource,
    parameter: &str,
) -> bool {
    let target = unwrap(
        rt,
        format!(in rt.alloc(); "/studio/film.git/info/lfs{rest}"),
    );
    let Some(route) = routes.find(target.as_str()) else {
        return false;
    };
    route.owner == "studio"
        && route.name == "film"
        && route.resource == resource
        && route.parameter == parameter
}

#[test]
fn targets_lead_to_a_resource_with_its_parameter(rt: HostRuntime) {
    let routes = unwrap(&rt, Routes::new(rt.alloc()));
    for &(rest, resource, parameter) in RESOURCES {
        assert!(rt;
            has_parameter(&rt, &routes, rest, resource, parameter),
            "{rest}"
        );
    }
}

/// Targets that are not a route.
const NO_ROUTES: &[&str] = &[
    "",
    "/",
    "*",
    "?",
    "studio/film.git/info/lfs/locks",
    "http://host/studio/film.git/info/lfs/locks",
    "x/studio/film.git/info/lfs/locks",
    "//studio/film.git/info/lfs/locks",
    "/studio//film.git/info/lfs/locks",
    "/studio/film.git//info/lfs/locks",
    "/studio/film.git/info/lfs//locks",
    "/studio/film.git/info/lfs/locks/",
    "/studio/film.git/info/lfs/locks//",
    "/studio/film.git/info/lfs/locks/verify/",
    "/studio/film.git/info/lfs/locks/Verify",
    "/studio/film.git/info/lfs/locks/1",
    "/studio/film.git/info/lfs/locks/unlock",
    "/studio/film.git/info/lfs/locks//unlock",
    "/studio/film.git/info/lfs/locks/1/unlock/",
    "/studio/film.git/info/lfs/locks/1/Unlock",
    "/studio/film.git/info/lfs/locks/1/2/unlock",
    "/studio/film.git/info/lfs/locks/1/verify",
    "/studio/film/info/lfs/locks/1/unlock",
    "/studio/film.git/info/lfs/objects",
    "/studio/film.git/info/lfs/objects/",
    "/studio/film.git/info/lfs/objects?/batch",
    "/studio/film.git/info/lfs/objects/batch/",
    "/studio/film.git/info/lfs/objects/batch/1",
    "/studio/film.git/info/lfs/objects/Batch",
    "/studio/film.git/info/lfs/objects/1",
    "/studio/film.git/info/lfs/batch",
    "/studio/film/info/lfs/objects/batch",
    "/studio/film.git/info/lfs/content",
    "/studio/film.git/info/lfs/content/",
    "/studio/film.git/info/lfs/content?/1",
    "/studio/film.git/info/lfs/content//1",
    "/studio/film.git/info/lfs/content/1/",
    "/studio/film.git/info/lfs/content/1/2",
    "/studio/film.git/info/lfs/content/1/unlock",
    "/studio/film.git/info/lfs/Content/1",
    "/studio/film/info/lfs/content/1",
    "/studio/film.git/info/lfs/verify/",
    "/studio/film.git/info/lfs/verify/1",
    "/studio/film.git/info/lfs/Verify",
    "/studio/film/info/lfs/verify",
    "/studio/film.git/info/lfs/lock",
    "/studio/film.git/info/lfs/lockss",
    "/studio/film.git/info/lfs/Locks",
    "/studio/film.git/info/lfs/%6Cocks",
    "/studio/film.git/info/lfs/./locks",
    "/studio/film.git/info/lfs/../lfs/locks",
    "/studio/film.git/info/lfs%2Flocks",
    "/studio/film.git/info/lfs",
    "/studio/film.git/info/locks",
    "/studio/film/info/lfs/locks",
    "/studio/film.GIT/info/lfs/locks",
    "/studio/film.git%20/info/lfs/locks",
    "/studio/film.%67it/info/lfs/locks",
    "/film.git/info/lfs/locks",
    "/studio/cut/film.git/info/lfs/locks",
    "/studio?/film.git/info/lfs/locks",
    "/studio/film.git/info/lfs?/locks",
    "/studio/film.git/info/lfs/locks#a",
];

fn is_no_route(routes: &Routes, target: &str) -> bool {
    routes.find(target).is_none()
}

#[test]
fn other_targets_lead_nowhere(rt: HostRuntime) {
    let routes = unwrap(&rt, Routes::new(rt.alloc()));
    for target in NO_ROUTES {
        assert!(rt; is_no_route(&routes, target), "{target}");
    }
}

/// Targets, and the path and the query of each.
const PARTS: &[(&str, &str, &str)] = &[
    ("", "", ""),
    ("/a", "/a", ""),
    ("/a?", "/a", ""),
    ("/a?b?c", "/a", "b?c"),
    ("/a??", "/a", "?"),
    ("?/a", "", "/a"),
    ("?/a=%3F&\u{e9}", "", "/a=%3F&\u{e9}"),
];

fn has_parts(target: &str, path: &str, query: &str) -> bool {
    path_of(target) == path && query_of(target) == query
}

#[test]
fn paths_end_and_queries_begin_at_the_first_question_mark(rt: HostRuntime) {
    for &(target, path, query) in PARTS {
        assert!(rt; has_parts(target, path, query), "{target}");
    }
}

/// Methods, and what each asks of a resource: docs/PROTOCOL.md, "Routes".
const METHODS: &[(Resource, &[u8], Option<Form>)] = &[
    (Resource::Batch, b"POST", Some(Form::Batch)),
    (Resource::Batch, b"", None),
    (Resource::Batch, b"post", None),
    (Resource::Batch, b"GET", None),
    (Resource::Batch, b"PUT", None),
    (Resource::Locks, b"GET", Some(Form::List)),
    (Resource::Locks, b"POST", Some(Form::Lock)),
    (Resource::Locks, b"", None),
    (Resource::Locks, b"get", None),
    (Resource::Locks, b"post", None),
    (Resource::Locks, b"POS", None),
    (Resource::Locks, b"POSTS", None),
    (Resource::Locks, b"PUT", None),
    (Resource::Locks, b"HEAD", None),
    (Resource::Locks, b"OPTIONS", None),
    (Resource::VerifyLocks, b"POST", Some(Form::VerifyLocks)),
    (Resource::VerifyLocks, b"GET", None),
    (Resource::Unlock, b"POST", Some(Form::Unlock)),
    (Resource::Unlock, b"GET", None),
    (Resource::Unlock, b"DELETE", None),
    (Resource::Content, b"GET", Some(Form::Get)),
    (Resource::Content, b"PUT", Some(Form::Put)),
    (Resource::Content, b"", None),
    (Resource::Content, b"get", None),
    (Resource::Content, b"put", None),
    (Resource::Content, b"POST", None),
    (Resource::Content, b"HEAD", None),
    (Resource::Content, b"DELETE", None),
    (Resource::Verify, b"POST", Some(Form::Verify)),
    (Resource::Verify, b"GET", None),
    (Resource::Verify, b"PUT", None),
];

fn asks(resource: Resource, method: &[u8], form: Option<Form>) -> bool {
    resource.form_of(method) == form
}

fn serves(resource: Resource, methods: &str, is_json: bool) -> bool {
    resource.allow() == methods && resource.is_json() == is_json
}

#[test]
fn resources_serve_their_methods(rt: HostRuntime) {
    for &(resource, method, form) in METHODS {
        assert!(rt; asks(resource, method, form), "{resource:?} {method:?}");
    }
    assert!(rt; serves(Resource::Batch, "POST", true));
    assert!(rt; serves(Resource::Locks, "GET, POST", true));
    assert!(rt; serves(Resource::VerifyLocks, "POST", true));
    assert!(rt; serves(Resource::Unlock, "POST", true));
    assert!(rt; serves(Resource::Content, "GET, PUT", false));
    assert!(rt; serves(Resource::Verify, "POST", true));
}
