//! The policies of `docs/POLICY.md`, and their verdicts on the questions there.
use super::decisions::{Asked, expect_verdicts};
use super::*;
use model::Right;

const FILM: &str = "studio/film";

const MAIN: Option<&str> = Some("refs/heads/main");

const RELEASED: Option<&str> = Some("refs/heads/release/1.0");

const VENDOR: &str = r#"
base = "https://lfs.example"
token_seconds = 3600

[[repo]]
name = "studio/film"
default_ref = "refs/heads/main"
quota = 500000000000

# 1: the studio works
[[row]]
effect = "allow"
users = ["ann", "bob"]
repos = ["studio/film"]
refs = ["*"]
paths = ["*"]
rights = ["pull", "push", "list", "lock"]

# 2: the vendor reads
[[row]]
effect = "allow"
users = ["vendor"]
repos = ["studio/film"]
refs = ["*"]
paths = ["*"]
rights = ["pull"]
"#;

/// Questions, and the verdicts.
const VENDOR_ANSWERS: &[(Asked, Verdict)] = &[
    (("vendor", FILM, Right::Pull, None, None), Verdict::Allow(2)),
    (("vendor", FILM, Right::Push, MAIN, None), Verdict::Deny(0)),
    (
        ("vendor", FILM, Right::List, MAIN, Some("art/hero.psd")),
        Verdict::Deny(0),
    ),
    (("ann", FILM, Right::Push, MAIN, None), Verdict::Allow(1)),
];

#[test]
fn a_vendor_who_reads(rt: HostRuntime) {
    expect_verdicts(&rt, VENDOR, VENDOR_ANSWERS);
}

const FOLDERS: &str = r#"
base = "https://lfs.example"
token_seconds = 3600

[[repo]]
name = "studio/film"
default_ref = "refs/heads/main"
quota = 500000000000

# 1: the artists work
[[row]]
effect = "allow"
users = ["ann", "bob"]
repos = ["studio/film"]
refs = ["*"]
paths = ["*"]
rights = ["pull", "push", "list"]

# 2: ann locks characters
[[row]]
effect = "allow"
users = ["ann"]
repos = ["studio/film"]
refs = ["*"]
paths = ["art/characters/"]
rights = ["lock"]

# 3: bob locks sets, and one file more
[[row]]
effect = "allow"
users = ["bob"]
repos = ["studio/film"]
refs = ["*"]
paths = ["art/sets/", "art/palette.aco"]
rights = ["lock"]
"#;

/// Questions, and the verdicts.
const FOLDERS_ANSWERS: &[(Asked, Verdict)] = &[
    (
        (
            "ann",
            FILM,
            Right::Lock,
            MAIN,
            Some("art/characters/hero.psd"),
        ),
        Verdict::Allow(2),
    ),
    (
        ("ann", FILM, Right::Lock, MAIN, Some("art/sets/street.psd")),
        Verdict::Deny(0),
    ),
    (
        ("ann", FILM, Right::Lock, MAIN, Some("art/characters.psd")),
        Verdict::Deny(0),
    ),
    (
        ("bob", FILM, Right::Lock, MAIN, Some("art/palette.aco")),
        Verdict::Allow(3),
    ),
    (("bob", FILM, Right::Push, MAIN, None), Verdict::Allow(1)),
];

#[test]
fn artists_who_lock_their_folder(rt: HostRuntime) {
    expect_verdicts(&rt, FOLDERS, FOLDERS_ANSWERS);
}

const SUPERVISOR: &str = r#"
base = "https://lfs.example"
token_seconds = 3600

[[repo]]
name = "studio/film"
default_ref = "refs/heads/main"
quota = 500000000000

# 1: all work, the supervisor too
[[row]]
effect = "allow"
users = ["ann", "bob", "sue"]
repos = ["studio/film"]
refs = ["*"]
paths = ["*"]
rights = ["pull", "push", "list", "lock"]

# 2: the supervisor releases the locks of others, but not those of the edit
[[row]]
effect = "deny"
users = ["*"]
repos = ["*"]
refs = ["*"]
paths = ["edit/"]
rights = ["force"]

# 3
[[row]]
effect = "allow"
users = ["sue"]
repos = ["studio/film"]
refs = ["*"]
paths = ["*"]
rights = ["force"]
"#;

/// Questions, and the verdicts.
const SUPERVISOR_ANSWERS: &[(Asked, Verdict)] = &[
    (
        ("sue", FILM, Right::Force, MAIN, Some("art/hero.psd")),
        Verdict::Allow(3),
    ),
    (
        ("sue", FILM, Right::Force, MAIN, Some("edit/cut.prproj")),
        Verdict::Deny(2),
    ),
    (
        ("ann", FILM, Right::Force, MAIN, Some("art/hero.psd")),
        Verdict::Deny(0),
    ),
    (
        ("ann", FILM, Right::Lock, MAIN, Some("art/hero.psd")),
        Verdict::Allow(1),
    ),
];

#[test]
fn a_supervisor_who_may_force(rt: HostRuntime) {
    expect_verdicts(&rt, SUPERVISOR, SUPERVISOR_ANSWERS);
}

const RELEASE: &str = r#"
base = "https://lfs.example"
token_seconds = 3600

[[repo]]
name = "studio/film"
default_ref = "refs/heads/main"
quota = 500000000000

# 1: one person mends the release
[[row]]
effect = "allow"
users = ["rita"]
repos = ["studio/film"]
refs = ["refs/heads/release/"]
paths = ["*"]
rights = ["push", "lock"]

# 2: nobody else does
[[row]]
effect = "deny"
users = ["*"]
repos = ["studio/film"]
refs = ["refs/heads/release/"]
paths = ["*"]
rights = ["push", "lock", "force"]

# 3: elsewhere all work
[[row]]
effect = "allow"
users = ["ann", "bob", "rita"]
repos = ["studio/film"]
refs = ["*"]
paths = ["*"]
rights = ["pull", "push", "list", "lock"]
"#;

/// Questions, and the verdicts.
const RELEASE_ANSWERS: &[(Asked, Verdict)] = &[
    (
        ("rita", FILM, Right::Push, RELEASED, None),
        Verdict::Allow(1),
    ),
    (("ann", FILM, Right::Push, RELEASED, None), Verdict::Deny(2)),
    (
        ("ann", FILM, Right::Lock, RELEASED, Some("art/hero.psd")),
        Verdict::Deny(2),
    ),
    (("ann", FILM, Right::Push, MAIN, None), Verdict::Allow(3)),
    (("ann", FILM, Right::Pull, None, None), Verdict::Allow(3)),
];

#[test]
fn a_frozen_release(rt: HostRuntime) {
    expect_verdicts(&rt, RELEASE, RELEASE_ANSWERS);
}

const SEVERAL: &str = r#"
base = "https://lfs.example"
token_seconds = 3600

[[repo]]
name = "studio/film"
default_ref = "refs/heads/main"
quota = 500000000000

[[repo]]
name = "studio/game"
default_ref = "refs/heads/develop"
quota = 200000000000

[[repo]]
name = "studio/tools"
default_ref = "refs/heads/main"
quota = 1000000000

# 1: everyone reads the tools
[[row]]
effect = "allow"
users = ["*"]
repos = ["studio/tools"]
refs = ["*"]
paths = ["*"]
rights = ["pull"]

# 2: ann works on the film
[[row]]
effect = "allow"
users = ["ann"]
repos = ["studio/film"]
refs = ["*"]
paths = ["*"]
rights = ["pull", "push", "list", "lock"]

# 3: bob works on all that is the studio's
[[row]]
effect = "allow"
users = ["bob"]
repos = ["studio/"]
refs = ["*"]
paths = ["*"]
rights = ["pull", "push", "list", "lock"]
"#;

/// Questions, and the verdicts.
const SEVERAL_ANSWERS: &[(Asked, Verdict)] = &[
    (
        ("ann", "studio/tools", Right::Pull, None, None),
        Verdict::Allow(1),
    ),
    (
        ("ann", "studio/tools", Right::Push, MAIN, None),
        Verdict::Deny(0),
    ),
    (
        ("ann", "studio/film", Right::Push, MAIN, None),
        Verdict::Allow(2),
    ),
    (
        ("ann", "studio/game", Right::Pull, None, None),
        Verdict::Deny(0),
    ),
    (
        ("bob", "studio/game", Right::Push, MAIN, None),
        Verdict::Allow(3),
    ),
];

#[test]
fn several_repositories(rt: HostRuntime) {
    expect_verdicts(&rt, SEVERAL, SEVERAL_ANSWERS);
}
