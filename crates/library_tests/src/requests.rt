//! `forms`: requests from parameters, queries and JSON.

use crate::batches::batch_text;
use crate::harness::{Tester, unwrap};
use forms::{
    ListRequest, LockRequest, PutRequest, Request, UnlockRequest, VerifyLocksRequest,
    VerifyRequest, read_form,
};
use model::Form;
use names::Oid;
use std::alloc::{AllocError, Global};

/// Appends a space and the text, if there is one, under its name.
pub(crate) fn add(text: &mut String, name: &str, value: Option<&str>) -> Result<(), AllocError> {
    if let Some(value) = value {
        text.push_str(name)?;
        text.push_str(value)?;
    }
    Ok(())
}

/// Appends the number, if there is one, under its name.
fn add_limit(alloc: Global, text: &mut String, limit: Option<i64>) -> Result<(), AllocError> {
    if let Some(limit) = limit {
        let number = limit.to_string(alloc)?;
        add(text, " limit=", Some(number.as_str()))?;
    }
    Ok(())
}

/// `get NAME`.
fn get_text(alloc: Global, name: Oid) -> Result<String, AllocError> {
    format!(in alloc; "get {name}")
}

/// `put NAME` or `put NAME ref=REF`.
fn put_text(alloc: Global, put: &PutRequest) -> Result<String, AllocError> {
    let name = put.name;
    let mut text = format!(in alloc; "put {name}")?;
    if let Some(name) = &put.ref_name {
        add(&mut text, " ref=", Some(name.as_str()))?;
    }
    Ok(text)
}

/// `verify NAME SIZE` or `verify NAME SIZE ref=REF`.
fn verify_text(alloc: Global, verify: &VerifyRequest) -> Result<String, AllocError> {
    let name = verify.name;
    let size = verify.size;
    let mut text = format!(in alloc; "verify {name} {size}")?;
    if let Some(name) = &verify.ref_name {
        add(&mut text, " ref=", Some(name.as_str()))?;
    }
    Ok(text)
}

/// `PATH` or `PATH at REF`.
fn lock_text(alloc: Global, lock: &LockRequest) -> Result<String, AllocError> {
    let mut text = lock.path.to_string(alloc)?;
    if let Some(name) = &lock.ref_name {
        add(&mut text, " at ", Some(name.as_str()))?;
    }
    Ok(text)
}

/// `list`, and each key that is given.
fn list_text(alloc: Global, list: &ListRequest) -> Result<String, AllocError> {
    let mut text = String::from_str(alloc, "list")?;
    if let Some(path) = &list.path {
        add(&mut text, " path=", Some(path.as_str()))?;
    }
    if let Some(id) = list.id {
        let number = id.to_string(alloc)?;
        add(&mut text, " id=", Some(number.as_str()))?;
    }
    if let Some(name) = &list.ref_name {
        add(&mut text, " ref=", Some(name.as_str()))?;
    }
    add(&mut text, " cursor=", list.cursor.as_deref())?;
    add_limit(alloc, &mut text, list.limit)?;
    Ok(text)
}

/// `verify`, and each key that is given.
fn verify_locks_text(alloc: Global, asked: &VerifyLocksRequest) -> Result<String, AllocError> {
    let mut text = String::from_str(alloc, "verify")?;
    if let Some(name) = &asked.ref_name {
        add(&mut text, " ref=", Some(name.as_str()))?;
    }
    add(&mut text, " cursor=", asked.cursor.as_deref())?;
    add_limit(alloc, &mut text, asked.limit)?;
    Ok(text)
}

/// `unlock ID` or `unlock ID by force`.
fn unlock_text(alloc: Global, unlock: &UnlockRequest) -> Result<String, AllocError> {
    let id = unlock.id;
    let end = if unlock.force { " by force" } else { "" };
    format!(in alloc; "unlock {id}{end}")
}

/// What a request asks, or the rule that refuses it.
pub(crate) fn asked(
    alloc: Global,
    form: Form,
    parameter: &str,
    query: &str,
    body: &[u8],
) -> Result<String, AllocError> {
    match read_form(alloc, form, parameter, query, body)? {
        Ok(Request::Batch(batch)) => batch_text(alloc, &batch),
        Ok(Request::Get(get)) => get_text(alloc, get.name),
        Ok(Request::Put(put)) => put_text(alloc, &put),
        Ok(Request::Verify(verify)) => verify_text(alloc, &verify),
        Ok(Request::Lock(lock)) => lock_text(alloc, &lock),
        Ok(Request::List(list)) => list_text(alloc, &list),
        Ok(Request::VerifyLocks(asked)) => verify_locks_text(alloc, &asked),
        Ok(Request::Unlock(unlock)) => unlock_text(alloc, &unlock),
        Err(rule) => rule.to_string(alloc),
    }
}

/// Asserts that the body asks for this lock, or is refused by this rule.
fn expect_asked(rt: &impl Tester, body: &[u8], want: &str) {
    let found = unwrap(rt, asked(rt.alloc(), Form::Lock, "", "", body));
    assert!(rt; found.as_str() == want, "{body:?}");
}

/// Bodies, and the lock that each asks for.
const LOCKS: &[(&[u8], &str)] = &[
    (br#"{"path":"art/hero.psd"}"#, "art/hero.psd"),
    (b" {\t\"path\" :\r\n\"a\" } \n", "a"),
    (
        br#"{"path":"a","ref":{"name":"refs/heads/main"}}"#,
        "a at refs/heads/main",
    ),
    (
        br#"{"ref":{"x":[],"name":"refs/a"},"y":{},"path":"a"}"#,
        "a at refs/a",
    ),
    (br#"{"path":"a","ref":null}"#, "a"),
    (br#"{"path":"\u0061\/b"}"#, "a/b"),
    (br#"{"\u0070ath":"a"}"#, "a"),
    (b"{\"path\":\"\xc3\xa9\"}", "\u{e9}"),
    (br#"{"path":"\ud83d\ude00"}"#, "\u{1f600}"),
    // The last of repeated keys counts.
    (br#"{"path":1,"path":"a"}"#, "a"),
    (br#"{"path":"a","path":"b"}"#, "b"),
    (br#"{"path":"a","ref":1,"ref":null}"#, "a"),
    (
        br#"{"path":"a","x":1e308,"y":-0,"z":18446744073709551616}"#,
        "a",
    ),
];

#[test]
fn locks_are_asked_by_path_and_ref(rt: HostRuntime) {
    for &(body, want) in LOCKS {
        expect_asked(&rt, body, want);
    }
}

/// Bodies that are refused by J1.
const OTHER_SHAPES: &[&[u8]] = &[
    b"",
    b" ",
    b"{",
    b"[]",
    b"null",
    b"true",
    b"17",
    br#""path""#,
    br#"[{"path":"a"}]"#,
    b"{}",
    br#"{"Path":"a"}"#,
    br#"{"path":null}"#,
    br#"{"path":1}"#,
    br#"{"path":false}"#,
    br#"{"path":["a"]}"#,
    br#"{"path":{"path":"a"}}"#,
    br#"{"path":"a","path":1}"#,
    br#"{"path":"a","path":null}"#,
    br#"{"path":"a"}x"#,
    br#"{"path":"a"}{"path":"a"}"#,
    br#"{"path":"a",}"#,
    br#"{path:"a"}"#,
    br#"{'path':'a'}"#,
    br#"{"path":"a","ref":"refs/heads/main"}"#,
    br#"{"path":"a","ref":1}"#,
    br#"{"path":"a","ref":[]}"#,
    br#"{"path":"a","ref":{}}"#,
    br#"{"path":"a","ref":{"name":null}}"#,
    br#"{"path":"a","ref":{"name":1}}"#,
    br#"{"path":"a","x":1e400}"#,
    br#"{"path":"a","x":-1e400}"#,
    br#"{"path":"a","x":NaN}"#,
    br#"{"path":"a","x":01}"#,
    br#"{"path":"a","x":+1}"#,
    br#"{"path":"\ud800"}"#,
    b"{\"path\":\"a\nb\"}",
    b"{\"path\":\"\xff\"}",
    b"\xef\xbb\xbf{\"path\":\"a\"}",
    // The shape is checked before the range, whatever their order in the body.
    br#"{"path":"","ref":1}"#,
    br#"{"path":1,"ref":{"name":"main"}}"#,
];

#[test]
fn bodies_of_another_shape_are_j1(rt: HostRuntime) {
    for body in OTHER_SHAPES {
        expect_asked(&rt, body, "J1");
    }
}

/// Bodies that are refused by J2.
const OUT_OF_RANGE: &[&[u8]] = &[
    br#"{"path":""}"#,
    br#"{"path":"/a"}"#,
    br#"{"path":"a/"}"#,
    br#"{"path":"a//b"}"#,
    br#"{"path":"a/../b"}"#,
    br#"{"path":"./a"}"#,
    br#"{"path":"a\\b"}"#,
    br#"{"path":"a\u0000b"}"#,
    br#"{"path":"a\nb"}"#,
    br#"{"path":"a","path":""}"#,
    br#"{"path":"a","ref":{"name":""}}"#,
    br#"{"path":"a","ref":{"name":"main"}}"#,
    br#"{"path":"a","ref":{"name":"refs/a..b"}}"#,
    br#"{"path":"","ref":{"name":"main"}}"#,
];

#[test]
fn texts_out_of_range_are_j2(rt: HostRuntime) {
    for body in OUT_OF_RANGE {
        expect_asked(&rt, body, "J2");
    }
}

/// A body whose path has `path` bytes, with `arrays` arrays nested in the outer object.
fn body_of(alloc: Global, path: usize, arrays: usize) -> Result<String, AllocError> {
    let path = "a".repeat(alloc, path)?;
    let open = "[".repeat(alloc, arrays)?;
    let close = "]".repeat(alloc, arrays)?;
    format!(in alloc; "{{\"x\":[{open}{close}],\"path\":\"{path}\"}}")
}

/// How long the path is, how many arrays are nested, and the rule that refuses the body, if one does.
const SIZES: &[(usize, usize, Option<&str>)] = &[
    (1_024, 0, None),
    (1_025, 0, Some("J2")),
    (1, 125, None),
    (1, 126, Some("J1")),
    (1, 5_000, Some("J1")),
];

/// Asserts what a body of these sizes asks for.
fn expect_of_size(rt: &impl Tester, path: usize, arrays: usize, rule: Option<&str>) {
    let body = unwrap(rt, body_of(rt.alloc(), path, arrays));
    let path = unwrap(rt, "a".repeat(rt.alloc(), path));
    let want = rule.unwrap_or(path.as_str());
    expect_asked(rt, body.as_str().as_bytes(), want);
}

#[test]
fn paths_end_at_1024_bytes_and_nesting_at_127_levels(rt: HostRuntime) {
    for &(path, arrays, rule) in SIZES {
        expect_of_size(&rt, path, arrays, rule);
    }
}

/// Queries, and what a request for locks with each of them asks.
const LISTS: &[(&str, &str)] = &[
    ("", "list"),
    ("&&", "list"),
    ("path=art/hero.psd", "list path=art/hero.psd"),
    ("path=art%2Fhero.psd", "list path=art/hero.psd"),
    ("path=a+b", "list path=a b"),
    ("path=a%2Bb", "list path=a+b"),
    ("path=a%2", "list path=a%2"),
    ("path=a=b", "list path=a=b"),
    ("path=%C3%A9", "list path=\u{e9}"),
    ("path=%FF", "list path=\u{fffd}"),
    ("&p%61th=a&", "list path=a"),
    ("id=1", "list id=1"),
    ("id=4294967295", "list id=4294967295"),
    ("refspec=refs%2Fheads%2Fmain", "list ref=refs/heads/main"),
    ("cursor=7", "list cursor=7"),
    ("cursor=01", "list cursor=01"),
    ("cursor=x", "list cursor=x"),
    ("limit=0", "list limit=0"),
    ("limit=-5", "list limit=-5"),
    ("limit=-0", "list limit=0"),
    ("limit=0000000007", "list limit=7"),
    ("limit=9999999999", "list limit=9999999999"),
    ("limit=-9999999999", "list limit=-9999999999"),
    (
        "limit=3&cursor=2&refspec=refs/a&id=1&path=a",
        "list path=a id=1 ref=refs/a cursor=2 limit=3",
    ),
    // An empty value counts as missing, and an unknown key is ignored.
    ("path=c&x=1&id=", "list path=c"),
    ("path&id=&refspec=&cursor=&limit", "list"),
    ("x=1&x=2&Path=/&ref=x", "list"),
    // Values out of range.
    ("path=/a", "J2"),
    ("path=a%00", "J2"),
    ("id=0", "J2"),
    ("id=01", "J2"),
    ("id=%2B1", "J2"),
    ("id=4294967296", "J2"),
    ("refspec=heads", "J2"),
    ("limit=-", "J2"),
    ("limit=+5", "J2"),
    ("limit=%2B5", "J2"),
    ("limit=--5", "J2"),
    ("limit=5x", "J2"),
    ("limit=1.0", "J2"),
    ("limit=99999999999", "J2"),
    ("limit=-99999999999", "J2"),
    // A known key twice, whatever its values are.
    ("path=a&path=a", "J2"),
    ("path=&path=b", "J2"),
    ("path=b&path=", "J2"),
    ("path&path", "J2"),
    ("path=a&p%61th=b", "J2"),
    ("id=1&id=1", "J2"),
    ("refspec=refs/a&refspec=refs/a", "J2"),
    ("cursor=1&cursor=2", "J2"),
    ("limit=1&path=a&limit=1", "J2"),
];

#[test]
fn lists_are_asked_by_their_query(rt: HostRuntime) {
    for &(query, want) in LISTS {
        let found = unwrap(&rt, asked(rt.alloc(), Form::List, "x", query, b"["));
        assert!(rt; found.as_str() == want, "{query}");
    }
}

/// Bodies, and what a request for the locks of a ref with each of them asks.
const VERIFICATIONS: &[(&[u8], &str)] = &[
    (b"{}", "verify"),
    (br#"{"ref":null,"cursor":null,"limit":null}"#, "verify"),
    (
        br#"{"ref":{"name":"refs/heads/main"},"cursor":"7","limit":-3}"#,
        "verify ref=refs/heads/main cursor=7 limit=-3",
    ),
    (br#"{"cursor":""}"#, "verify"),
    (br#"{"cursor":"01"}"#, "verify cursor=01"),
    (br#"{"limit":1}"#, "verify limit=1"),
    (br#"{"limit":0}"#, "verify limit=0"),
    (
        br#"{"limit":9223372036854775807}"#,
        "verify limit=9223372036854775807",
    ),
    (
        br#"{"limit":-9223372036854775808}"#,
        "verify limit=-9223372036854775808",
    ),
    (br#"{"limit":"1","limit":2}"#, "verify limit=2"),
    (b"", "J1"),
    (b"[]", "J1"),
    (b"null", "J1"),
    (br#"{"limit":"1"}"#, "J1"),
    (br#"{"limit":true}"#, "J1"),
    (br#"{"cursor":1}"#, "J1"),
    (br#"{"ref":"refs/heads/main"}"#, "J1"),
    (br#"{"ref":{"name":null}}"#, "J1"),
    (br#"{"ref":{"name":"x"},"limit":1.0,"cursor":[]}"#, "J1"),
    (br#"{"limit":1.0}"#, "J2"),
    (br#"{"limit":1e0}"#, "J2"),
    (br#"{"limit":-0}"#, "J2"),
    (br#"{"limit":9223372036854775808}"#, "J2"),
    (br#"{"limit":-9223372036854775809}"#, "J2"),
    (br#"{"ref":{"name":"x"}}"#, "J2"),
];

#[test]
fn verifications_are_asked_by_their_body(rt: HostRuntime) {
    for &(body, want) in VERIFICATIONS {
        let form = Form::VerifyLocks;
        let found = unwrap(&rt, asked(rt.alloc(), form, "x", "limit=5", body));
        assert!(rt; found.as_str() == want, "{body:?}");
    }
}

/// Parameters and bodies, and what a request to release a lock with each of them asks.
const UNLOCKS: &[(&str, &[u8], &str)] = &[
    ("1", b"{}", "unlock 1"),
    (
        "4294967295",
        br#"{"force":true}"#,
        "unlock 4294967295 by force",
    ),
    ("7", br#"{"force":false}"#, "unlock 7"),
    ("7", br#"{"force":null,"ref":null}"#, "unlock 7"),
    ("7", br#"{"ref":{"name":"refs/heads/main"}}"#, "unlock 7"),
    ("7", b"", "J1"),
    ("7", b"[]", "J1"),
    ("7", br#"{"force":1}"#, "J1"),
    ("7", br#"{"force":"true"}"#, "J1"),
    ("7", br#"{"ref":{"name":1}}"#, "J1"),
    ("7", br#"{"ref":{"name":"main"}}"#, "J2"),
    ("", b"{}", "J2"),
    ("x", b"{}", "J2"),
    ("0", b"{}", "J2"),
    ("01", b"{}", "J2"),
    ("4294967296", b"{}", "J2"),
    // The shape of the body is checked before the parameter.
    ("x", b"[]", "J1"),
    ("x", br#"{"ref":{"name":"main"},"force":0}"#, "J1"),
];

#[test]
fn unlocks_are_asked_by_parameter_and_body(rt: HostRuntime) {
    for &(parameter, body, want) in UNLOCKS {
        let form = Form::Unlock;
        let found = unwrap(&rt, asked(rt.alloc(), form, parameter, "force=true", body));
        assert!(rt; found.as_str() == want, "{parameter} {body:?}");
    }
}

/// The name of the empty object (FIPS 180-4).
const NAME: &str = "e3b0c44298fc1c149afbf4c8996fb92427ae41e4649b934ca495991b7852b855";

/// Texts, and whether each is the name of an object.
const NAMES: &[(&str, bool)] = &[
    (
        "e3b0c44298fc1c149afbf4c8996fb92427ae41e4649b934ca495991b7852b855",
        true,
    ),
    (
        "0000000000000000000000000000000000000000000000000000000000000000",
        true,
    ),
    (
        "0123456789abcdef0123456789abcdef0123456789abcdef0123456789abcdef",
        true,
    ),
    ("", false),
    (
        "e3b0c44298fc1c149afbf4c8996fb92427ae41e4649b934ca495991b7852b85",
        false,
    ),
    (
        "e3b0c44298fc1c149afbf4c8996fb92427ae41e4649b934ca495991b7852b8550",
        false,
    ),
    (
        "E3B0C44298FC1C149AFBF4C8996FB92427AE41E4649B934CA495991B7852B855",
        false,
    ),
    (
        "E3b0c44298fc1c149afbf4c8996fb92427ae41e4649b934ca495991b7852b855",
        false,
    ),
    (
        "g3b0c44298fc1c149afbf4c8996fb92427ae41e4649b934ca495991b7852b855",
        false,
    ),
    (
        " 3b0c44298fc1c149afbf4c8996fb92427ae41e4649b934ca495991b7852b855",
        false,
    ),
    (
        "-3b0c44298fc1c149afbf4c8996fb92427ae41e4649b934ca495991b7852b855",
        false,
    ),
    (
        "%653b0c44298fc1c149afbf4c8996fb92427ae41e4649b934ca495991b7852b855",
        false,
    ),
    (
        "%650c44298fc1c149afbf4c8996fb92427ae41e4649b934ca495991b7852b855",
        false,
    ),
    (
        "\u{e9}b0c44298fc1c149afbf4c8996fb92427ae41e4649b934ca495991b7852b855",
        false,
    ),
];

/// The requests for one object, and what each asks: `@` is the object's name.
const NAMED: &[(Form, &str)] = &[
    (Form::Get, "get @"),
    (Form::Put, "put @"),
    (Form::Verify, "verify @ 7"),
];

/// Asserts what the request asks of the object with this name. Get and Put read the name in the
/// parameter, Verify reads it in the body.
fn expect_named(rt: &impl Tester, form: Form, name: &str, query: &str, body: &str, want: &str) {
    let body = unwrap(rt, body.replace(rt.alloc(), "@", name));
    let want = unwrap(rt, want.replace(rt.alloc(), "@", name));
    let found = unwrap(
        rt,
        asked(rt.alloc(), form, name, query, body.as_str().as_bytes()),
    );
    assert!(rt;
        found.as_str() == want.as_str(),
        "{form:?} {name} {query} {body}"
    );
}

/// Asserts that each request for the object of this name is read, or refused by J2.
fn expect_name(rt: &impl Tester, name: &str, is_name: bool) {
    for &(form, want) in NAMED {
        let want = if is_name { want } else { "J2" };
        expect_named(rt, form, name, "", r#"{"oid":"@","size":7}"#, want);
    }
}

#[test]
fn objects_have_names_of_64_digits(rt: HostRuntime) {
    for &(name, is_name) in NAMES {
        expect_name(&rt, name, is_name);
    }
}

/// Queries, and what each of them adds to a request that reads `ref`.
const REFS: &[(&str, &str)] = &[
    ("", ""),
    ("ref", ""),
    ("ref=", ""),
    ("ref=refs/heads/main", " ref=refs/heads/main"),
    ("ref=refs%2Fheads%2Fmain", " ref=refs/heads/main"),
    ("&r%65f=refs/a&", " ref=refs/a"),
    ("x=1&ref=refs/a&x=2", " ref=refs/a"),
    ("Ref=x&refspec=x&refs=x&oid=x&size=x", ""),
    ("ref=main", "J2"),
    ("ref=refs", "J2"),
    ("ref=refs/", "J2"),
    ("ref=refs/a..b", "J2"),
    ("ref=refs/a+b", "J2"),
    ("ref=refs/a%20b", "J2"),
    ("ref=refs%252Fa", "J2"),
    ("ref=%FF", "J2"),
    // The key twice, whatever its values are.
    ("ref=refs/a&ref=refs/a", "J2"),
    ("ref=&ref=refs/a", "J2"),
    ("ref=refs/a&r%65f=", "J2"),
    ("ref&ref", "J2"),
];

/// The request with what its query adds, or the rule that refuses it.
fn with_ref(rt: &impl Tester, request: &str, want: &str) -> String {
    if want == "J2" {
        return unwrap(rt, want.to_owned(rt.alloc()));
    }
    unwrap(rt, format!(in rt.alloc(); "{request}{want}"))
}

/// Asserts what each request for an object asks with this query: Get does not read it.
fn expect_ref(rt: &impl Tester, query: &str, want: &str) {
    let body = r#"{"oid":"@","size":7}"#;
    let put = with_ref(rt, "put @", want);
    let verify = with_ref(rt, "verify @ 7", want);
    expect_named(rt, Form::Get, NAME, query, "[", "get @");
    expect_named(rt, Form::Put, NAME, query, "[", put.as_str());
    expect_named(rt, Form::Verify, NAME, query, body, verify.as_str());
}

#[test]
fn uploads_and_their_verification_read_the_ref_of_the_query(rt: HostRuntime) {
    for &(query, want) in REFS {
        expect_ref(&rt, query, want);
    }
}

/// Queries and bodies, and what a request to verify an object with each of them asks: `@` is a name.
const STORED: &[(&str, &str, &str)] = &[
    ("", r#"{"oid":"@","size":0}"#, "verify @ 0"),
    ("", r#"{"oid":"@","size":1}"#, "verify @ 1"),
    (
        "",
        r#"{"oid":"@","size":4294967296}"#,
        "verify @ 4294967296",
    ),
    ("", "\t{ \"size\" : 7,\r\n\"oid\":\"@\" }\n", "verify @ 7"),
    ("", r#"{"\u006fid":"@","size":7}"#, "verify @ 7"),
    // The body's ref is an unknown key, and the last of repeated keys counts.
    ("", r#"{"oid":"@","size":7,"ref":1,"x":{}}"#, "verify @ 7"),
    (
        "",
        r#"{"oid":1,"oid":"@","size":"1","size":7}"#,
        "verify @ 7",
    ),
    ("", "", "J1"),
    ("", "[]", "J1"),
    ("", "null", "J1"),
    ("", r#""@""#, "J1"),
    ("", r#"[{"oid":"@","size":7}]"#, "J1"),
    ("", r#"{"oid":"@","size":7}x"#, "J1"),
    ("", "{}", "J1"),
    ("", r#"{"oid":"@"}"#, "J1"),
    ("", r#"{"size":7}"#, "J1"),
    ("", r#"{"Oid":"@","size":7}"#, "J1"),
    ("", r#"{"oid":null,"size":7}"#, "J1"),
    ("", r#"{"oid":"@","size":null}"#, "J1"),
    ("", r#"{"oid":7,"size":7}"#, "J1"),
    ("", r#"{"oid":["@"],"size":7}"#, "J1"),
    ("", r#"{"oid":"@","size":"7"}"#, "J1"),
    ("", r#"{"oid":"@","size":true}"#, "J1"),
    ("", r#"{"oid":"@","size":[7]}"#, "J1"),
    ("", r#"{"oid":"@","size":7,"size":null}"#, "J1"),
    ("", r#"{"oid":"@","size":07}"#, "J1"),
    ("", r#"{"oid":"@","size":1e400}"#, "J1"),
    ("", r#"{"oid":"@","size":-1}"#, "J2"),
    ("", r#"{"oid":"@","size":-0}"#, "J2"),
    ("", r#"{"oid":"@","size":1.5}"#, "J2"),
    ("", r#"{"oid":"@","size":7.0}"#, "J2"),
    ("", r#"{"oid":"@","size":7e0}"#, "J2"),
    ("", r#"{"oid":"@","size":4294967297}"#, "J2"),
    ("", r#"{"oid":"@","size":18446744073709551615}"#, "J2"),
    ("", r#"{"oid":"@","size":18446744073709551616}"#, "J2"),
    ("", r#"{"oid":"","size":-1}"#, "J2"),
    // The shape of the body is checked before its ranges, and before the query.
    ("", r#"{"oid":"x"}"#, "J1"),
    ("", r#"{"oid":"x","size":"7"}"#, "J1"),
    ("", r#"{"oid":7,"size":-1}"#, "J1"),
    ("", r#"{"size":4294967297}"#, "J1"),
    ("ref=main", r#"{"oid":"@"}"#, "J1"),
    ("ref=main", r#"{"oid":"@","size":null}"#, "J1"),
    ("ref=refs/a&ref=refs/a", "[]", "J1"),
    ("ref=main", r#"{"oid":"@","size":-1}"#, "J2"),
];

#[test]
fn objects_are_verified_by_their_body(rt: HostRuntime) {
    for &(query, body, want) in STORED {
        expect_named(&rt, Form::Verify, NAME, query, body, want);
    }
}
