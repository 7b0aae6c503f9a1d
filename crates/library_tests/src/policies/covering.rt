//! Rows as text, and rows that cover others.
use super::*;

/// A row in other words than those in which it is printed.
const WORDED: &str = r#"[[row]]
rights = [ 'force', 'push' ]
paths = ['a "b"/', 'x']
refs = ["*"] # all
repos = ['studio/film', "studio/"]
users = [
  "ann",
]
effect = 'deny'
"#;

/// Its text.
const PRINTED: &str = r#"effect = "deny"
users = ["ann"]
repos = ["studio/film", "studio/"]
refs = ["*"]
paths = ["a \"b\"/", "x"]
rights = ["force", "push"]"#;

/// The policy with these rows.
fn policy_of(rt: &(impl Abort + Alloc<A = Global>), rows: &str) -> Policy {
    let text = join(rt, TOP, REPO, rows);
    unwrap(rt, Policy::read(rt.alloc(), text.as_str()))
}

#[test]
fn a_row_is_printed_as_in_a_file(rt: HostRuntime) {
    let policy = policy_of(&rt, WORDED);
    assert_eq!(rt; policy.repos().len(), 1);
    assert_eq!(rt; policy.rows().len(), 1);
    for row in policy.rows() {
        let text = unwrap(&rt, row.to_string(rt.alloc()));
        assert_eq!(rt; text.as_str(), PRINTED);
    }
    let again = policy_of(
        &rt,
        unwrap(&rt, format!(in rt.alloc(); "[[row]]\n{PRINTED}\n")).as_str(),
    );
    for row in again.rows() {
        let text = unwrap(&rt, row.to_string(rt.alloc()));
        assert_eq!(rt; text.as_str(), PRINTED);
    }
}

/// A row for users, refs, paths and rights; its effect and its repositories do not matter here.
type Lists = (&'static str, &'static str, &'static str, &'static str);

/// A row, another one, and whether the first covers it.
const PAIRS: &[(Lists, Lists, bool)] = &[
    (("*", "*", "*", "push"), ("ann", "*", "*", "push"), true),
    (("ann", "*", "*", "push"), ("*", "*", "*", "push"), false),
    (("ann", "*", "*", "push"), ("ann", "*", "*", "push"), true),
    (("ann", "*", "*", "push"), ("bob", "*", "*", "push"), false),
    // a folder, what is in it, and what only begins like it
    (
        ("*", "*", "art/", "push"),
        ("*", "*", "art/hero.psd", "push"),
        true,
    ),
    (
        ("*", "*", "art/", "push"),
        ("*", "*", "art/sky/", "push"),
        true,
    ),
    (("*", "*", "art/", "push"), ("*", "*", "art", "push"), false),
    (
        ("*", "*", "art/sky/", "push"),
        ("*", "*", "art/", "push"),
        false,
    ),
    (("*", "*", "art/", "push"), ("*", "*", "*", "push"), false),
    (
        ("*", "refs/", "*", "push"),
        ("*", "refs/heads/main", "*", "push"),
        true,
    ),
    // refs/ holds every ref, but not a question without a ref
    (("*", "refs/", "*", "push"), ("*", "*", "*", "push"), false),
    // another right
    (("*", "*", "*", "push"), ("*", "*", "*", "pull"), false),
];

/// The text of a row.
fn row_of(rt: &(impl Abort + Alloc<A = Global>), lists: &Lists) -> String {
    let &(users, refs, paths, rights) = lists;
    unwrap(
        rt,
        format!(in rt.alloc();
            "[[row]]\neffect = \"allow\"\nusers = [\"{users}\"]\nrepos = [\"*\"]\nrefs = [\"{refs}\"]\npaths = [\"{paths}\"]\nrights = [\"{rights}\"]\n"
        ),
    )
}

/// Whether the first row of the policy covers the second.
fn covers(policy: &Policy) -> bool {
    match policy.rows() {
        [first, second] => first.covers(second),
        _ => false,
    }
}

#[test]
fn a_row_covers_what_its_lists_have(rt: HostRuntime) {
    for (first, second, want) in PAIRS {
        let rows = join(
            &rt,
            row_of(&rt, first).as_str(),
            row_of(&rt, second).as_str(),
            "",
        );
        let policy = policy_of(&rt, rows.as_str());
        assert_eq!(rt; policy.rows().len(), 2);
        assert_eq!(rt; covers(&policy), *want, "{rows}");
    }
}
