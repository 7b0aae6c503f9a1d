//! Each limit of a length or a count, and one more. The limits of single numbers are among the faults.
use super::*;

/// `count` copies of the text.
fn copies(rt: &(impl Abort + Alloc<A = Global>), text: &str, count: usize) -> String {
    unwrap(rt, text.repeat(rt.alloc(), count))
}

/// `count` repositories, each with another name.
fn repos(rt: &(impl Abort + Alloc<A = Global>), count: u32) -> String {
    let mut repos = String::new(rt.alloc());
    for number in 0..count {
        let repo = format!(in rt.alloc();
            "[[repo]]\nname = \"studio/film-{number}\"\ndefault_ref = \"refs/heads/main\"\nquota = 1\n"
        );
        let repo = unwrap(rt, repo);
        unwrap(rt, repos.push_str(repo.as_str()));
    }
    repos
}

/// Lengths of a file, and the fault that is reported.
const FILES: &[(usize, &str)] = &[(1_048_576, "none"), (1_048_577, "Y5")];

#[test]
fn length_of_the_file(rt: HostRuntime) {
    let plain = join(&rt, TOP, REPO, ROW);
    for &(length, expected) in FILES {
        let rest = length.saturating_sub(plain.len()).saturating_sub(1);
        let comment = copies(&rt, "x", rest);
        let source = join(&rt, plain.as_str(), "#", comment.as_str());
        assert_eq!(rt; source.len(), length);
        expect(&rt, source.as_str(), expected);
    }
}

/// The number of repositories in a file, and the fault that is reported.
const REPOSITORIES: &[(u32, &str)] = &[(256, "none"), (257, "Y5 at top")];

#[test]
fn repositories(rt: HostRuntime) {
    for &(count, expected) in REPOSITORIES {
        let repos = repos(&rt, count);
        expect_parts(&rt, TOP, repos.as_str(), ROW, expected);
    }
}

/// One row too many is reported before a fault of the first row.
#[test]
fn rows(rt: HostRuntime) {
    let no_users = row_with(&rt, Key::Users, "[]");
    let most = copies(&rt, ROW, 999);
    expect_parts(&rt, TOP, most.as_str(), ROW, "none");
    expect_parts(&rt, TOP, most.as_str(), no_users.as_str(), "Y3 at row 1000");
    let more = join(&rt, no_users.as_str(), most.as_str(), ROW);
    expect_parts(&rt, TOP, REPO, more.as_str(), "Y5 at top");
}

/// The lists of a row, and an entry of each.
const ENTRIES: &[(Key, &str)] = &[
    (Key::Users, "\"ann\", "),
    (Key::Repos, "\"*\", "),
    (Key::Refs, "\"*\", "),
    (Key::Paths, "\"*\", "),
    (Key::Rights, "\"pull\", "),
];

/// The number of entries of a list, and the fault that is reported.
const LIST_LENGTHS: &[(usize, &str)] = &[(1, "none"), (64, "none"), (65, "Y3 at row 1")];

#[test]
fn entries_of_a_list(rt: HostRuntime) {
    for &(key, entry) in ENTRIES {
        for &(count, expected) in LIST_LENGTHS {
            let entries = copies(&rt, entry, count);
            let list = join(&rt, "[", entries.as_str(), "]");
            let row = row_with(&rt, key, list.as_str());
            expect_parts(&rt, TOP, REPO, row.as_str(), expected);
        }
    }
}

/// Fronts of addresses, the number of letters that follow, and the fault that is reported.
const ADDRESSES: &[(&str, usize, &str)] = &[
    ("http://", 0, "Y3 at top"),
    ("http://", 1, "none"),
    ("http://", 193, "none"),
    ("http://", 194, "Y3 at top"),
    ("https://", 1, "none"),
    ("https://", 192, "none"),
    ("https://", 193, "Y3 at top"),
];

#[test]
fn addresses(rt: HostRuntime) {
    for &(front, count, expected) in ADDRESSES {
        let rest = copies(&rt, "a", count);
        let address = join(&rt, "base = \"", front, rest.as_str());
        let top = join(&rt, address.as_str(), "\"\n", "token_seconds = 1\n");
        expect_parts(&rt, top.as_str(), REPO, ROW, expected);
    }
}
