//! The row that decides.
use super::*;
use crate::harness::{lock_path, ref_name, repo, user};
use model::Right;

/// A question of the tests: user, repository, right, and the ref and path if it concerns them.
pub type Asked = (
    &'static str,
    &'static str,
    Right,
    Option<&'static str>,
    Option<&'static str>,
);

/// The verdicts on a question: that of the policy, and that of the rows that apply to it, chosen without its ref and path.
fn ask(
    rt: &(impl Abort + Alloc<A = Global>),
    policy: &Policy,
    asked: &Asked,
) -> (Verdict, Verdict) {
    let &(name, place, right, branch, file) = asked;
    let name = user(rt, name);
    let place = repo(rt, place);
    let branch = branch.map(|text| ref_name(rt, text));
    let file = file.map(|text| lock_path(rt, text));
    let ref_name = branch.as_ref();
    let path = file.as_ref();
    let question = Question {
        user: &name,
        repo: &place,
        right,
        ref_name,
        path,
    };
    let without = Question {
        ref_name: None,
        path: None,
        ..question
    };
    let rows = unwrap(rt, ApplicableRows::new(rt.alloc(), policy, without));
    (decide(policy, &question), rows.decide(ref_name, path))
}

/// Asserts the policy's verdicts on these questions.
pub fn expect_verdicts(
    rt: &(impl Abort + Alloc<A = Global>),
    source: &str,
    verdicts: &[(Asked, Verdict)],
) {
    let policy = unwrap(rt, Policy::read(rt.alloc(), source));
    for (asked, want) in verdicts {
        let (by_policy, by_rows) = ask(rt, &policy, asked);
        assert_eq!(rt; by_policy, *want);
        assert_eq!(rt; by_rows, *want);
    }
}

const FILM: &str = "studio/film";

const MAIN: Option<&str> = Some("refs/heads/main");

const BELOW_ART: Option<&str> = Some("art/x");

/// No lock below art/; everyone may do everything else.
const FROZEN_FOLDER: &str = r#"
[[row]]
effect = "deny"
users = ["*"]
repos = ["*"]
refs = ["*"]
paths = ["art/"]
rights = ["lock"]

[[row]]
effect = "allow"
users = ["*"]
repos = ["*"]
refs = ["*"]
paths = ["*"]
rights = ["pull", "push", "list", "lock", "force"]
"#;

/// Questions, and the verdicts.
const ON_FROZEN_FOLDER: &[(Asked, Verdict)] = &[
    (
        ("ann", FILM, Right::Lock, MAIN, BELOW_ART),
        Verdict::Deny(1),
    ),
    (
        ("ann", FILM, Right::Lock, MAIN, Some("artx")),
        Verdict::Allow(2),
    ),
    (
        ("ann", FILM, Right::Lock, MAIN, Some("art")),
        Verdict::Allow(2),
    ),
    (
        ("ann", FILM, Right::Force, MAIN, BELOW_ART),
        Verdict::Allow(2),
    ),
];

#[test]
fn the_first_row_that_matches(rt: HostRuntime) {
    let source = join(&rt, TOP, REPO, FROZEN_FOLDER);
    expect_verdicts(&rt, source.as_str(), ON_FROZEN_FOLDER);
}

/// Ann may push only below art/.
const PUSH_BELOW: &str = r#"
[[row]]
effect = "allow"
users = ["ann"]
repos = ["*"]
refs = ["*"]
paths = ["art/"]
rights = ["push"]
"#;

/// Questions, and the verdicts.
const WITHOUT_A_PATH: &[(Asked, Verdict)] = &[
    (("ann", FILM, Right::Push, MAIN, None), Verdict::Deny(0)),
    (
        ("ann", FILM, Right::Push, MAIN, BELOW_ART),
        Verdict::Allow(1),
    ),
    (
        ("bob", FILM, Right::Push, MAIN, BELOW_ART),
        Verdict::Deny(0),
    ),
];

#[test]
fn a_question_without_a_path(rt: HostRuntime) {
    let source = join(&rt, TOP, REPO, PUSH_BELOW);
    expect_verdicts(&rt, source.as_str(), WITHOUT_A_PATH);
}

/// Ann may pull, if the question names a ref.
const PULL_REFS: &str = r#"
[[row]]
effect = "allow"
users = ["ann"]
repos = ["studio/"]
refs = ["refs/heads/"]
paths = ["*"]
rights = ["pull"]
"#;

/// Questions, and the verdicts.
const WITHOUT_A_REF: &[(Asked, Verdict)] = &[
    (("ann", FILM, Right::Pull, None, None), Verdict::Deny(0)),
    (("ann", FILM, Right::Pull, MAIN, None), Verdict::Allow(1)),
    (
        ("ann", FILM, Right::Pull, Some("refs/tags/a"), None),
        Verdict::Deny(0),
    ),
    (
        ("ann", "studios/film", Right::Pull, MAIN, None),
        Verdict::Deny(0),
    ),
];

#[test]
fn a_question_without_a_ref(rt: HostRuntime) {
    let source = join(&rt, TOP, REPO, PULL_REFS);
    expect_verdicts(&rt, source.as_str(), WITHOUT_A_REF);
}

/// Folders of several depths, the first of them twice, files with the text of a folder, and `*` beside others.
const NESTED_FOLDERS: &str = r#"
[[row]]
effect = "deny"
users = ["*"]
repos = ["*"]
refs = ["*"]
paths = ["film/shot/010/", "film/shot/010/"]
rights = ["lock"]

[[row]]
effect = "allow"
users = ["*"]
repos = ["*"]
refs = ["*"]
paths = ["film/shot/", "film/shot/010/plate.exr", "readme"]
rights = ["lock"]

[[row]]
effect = "deny"
users = ["*"]
repos = ["*"]
refs = ["refs/heads/main"]
paths = ["readme", "*", "film/"]
rights = ["lock"]

[[row]]
effect = "allow"
users = ["*"]
repos = ["*"]
refs = ["*"]
paths = ["film", "film/"]
rights = ["lock"]

[[row]]
effect = "deny"
users = ["*"]
repos = ["*"]
refs = ["refs/heads/side"]
paths = ["art/", "*"]
rights = ["lock"]

[[row]]
effect = "allow"
users = ["*"]
repos = ["*"]
refs = ["*"]
paths = ["*"]
rights = ["lock"]
"#;

const SIDE: Option<&str> = Some("refs/heads/side");

/// Questions, and the verdicts.
const ON_NESTED_FOLDERS: &[(Asked, Verdict)] = &[
    (
        (
            "ann",
            FILM,
            Right::Lock,
            MAIN,
            Some("film/shot/010/plate.exr"),
        ),
        Verdict::Deny(1),
    ),
    (
        (
            "ann",
            FILM,
            Right::Lock,
            MAIN,
            Some("film/shot/020/plate.exr"),
        ),
        Verdict::Allow(2),
    ),
    (
        ("ann", FILM, Right::Lock, MAIN, Some("film/shot/010")),
        Verdict::Allow(2),
    ),
    (
        ("ann", FILM, Right::Lock, MAIN, Some("readme")),
        Verdict::Allow(2),
    ),
    (
        ("ann", FILM, Right::Lock, MAIN, Some("film/shot")),
        Verdict::Deny(3),
    ),
    (
        ("ann", FILM, Right::Lock, SIDE, Some("film/shot")),
        Verdict::Allow(4),
    ),
    (
        ("ann", FILM, Right::Lock, SIDE, Some("film")),
        Verdict::Allow(4),
    ),
    (
        ("ann", FILM, Right::Lock, SIDE, Some("films")),
        Verdict::Deny(5),
    ),
    (
        ("ann", FILM, Right::Lock, SIDE, Some("readme/first")),
        Verdict::Deny(5),
    ),
    (
        (
            "ann",
            FILM,
            Right::Lock,
            Some("refs/heads/next"),
            Some("art/hero.psd"),
        ),
        Verdict::Allow(6),
    ),
    (("ann", FILM, Right::Lock, MAIN, None), Verdict::Deny(3)),
    (("ann", FILM, Right::Lock, SIDE, None), Verdict::Deny(5)),
    (("ann", FILM, Right::Lock, None, None), Verdict::Allow(6)),
];

#[test]
fn folders_within_folders(rt: HostRuntime) {
    let source = join(&rt, TOP, REPO, NESTED_FOLDERS);
    expect_verdicts(&rt, source.as_str(), ON_NESTED_FOLDERS);
}

/// Questions, and the verdicts.
const WITHOUT_A_ROW: &[(Asked, Verdict)] = &[(
    ("ann", FILM, Right::Pull, None, None),
    Verdict::Deny(0),
)];

#[test]
fn no_row(rt: HostRuntime) {
    let source = join(&rt, TOP, REPO, "");
    expect_verdicts(&rt, source.as_str(), WITHOUT_A_ROW);
}
