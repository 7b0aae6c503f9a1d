//! Each fault at each place that can have it, and which of several is the first.
use super::*;

/// Whole files, and the fault that is reported.
const TEXTS: &[(&str, &str)] = &[
    ("base =", "Y1"),
    ("base = \"a\"\nbase = \"b\"", "Y1"),
    ("quota = 9223372036854775808", "Y1"),
    ("", "Y2 at top"),
];

#[test]
fn of_the_file(rt: HostRuntime) {
    for &(source, expected) in TEXTS {
        expect(&rt, source, expected);
    }
}

/// Tops of a file, and the fault that is reported.
const TOPS: &[(&str, &str)] = &[
    (
        "base = \"https://lfs.example\"\ntoken_seconds = 3600\ncolour = 1\n",
        "Y2 at top",
    ),
    ("base = \"https://lfs.example\"\n", "Y2 at top"),
    ("token_seconds = 3600\n", "Y2 at top"),
    ("base = 1\ntoken_seconds = 3600\n", "Y2 at top"),
    (
        "base = \"https://lfs.example\"\ntoken_seconds = \"1\"\n",
        "Y2 at top",
    ),
    (
        "base = \"https://lfs.example\"\ntoken_seconds = 1.0\n",
        "Y2 at top",
    ),
    (
        "base = \"https://lfs.example\"\ntoken_seconds = 0\n",
        "Y3 at top",
    ),
    (
        "base = \"https://lfs.example\"\ntoken_seconds = 86401\n",
        "Y3 at top",
    ),
    (
        "base = \"https://lfs.example\"\ntoken_seconds = -1\n",
        "Y3 at top",
    ),
    (
        "base = \"ftp://lfs.example\"\ntoken_seconds = 1\n",
        "Y3 at top",
    ),
    (
        "base = \"https://lfs.example/\"\ntoken_seconds = 1\n",
        "Y3 at top",
    ),
    (
        "base = \"https://lfs.example?x\"\ntoken_seconds = 1\n",
        "Y3 at top",
    ),
    ("base = \"https://\"\ntoken_seconds = 1\n", "Y3 at top"),
    (
        "base = \"https://lfs.example\"\ntoken_seconds = 1\n",
        "none",
    ),
    (
        "base = \"https://lfs.example\"\ntoken_seconds = 86400\n",
        "none",
    ),
];

#[test]
fn at_the_top(rt: HostRuntime) {
    for &(top, expected) in TOPS {
        expect_parts(&rt, top, REPO, ROW, expected);
    }
}

/// The text after the top, and the fault that is reported.
const RESTS: &[(&str, &str)] = &[
    ("", "none"),
    ("repo = []\nrow = []\n", "none"),
    ("repo = 1\n", "Y2 at top"),
    ("[repo]\nname = \"a/b\"\n", "Y2 at top"),
    ("row = \"x\"\n", "Y2 at top"),
    ("repo = [1]\n", "Y2 at repo 1"),
    ("row = [[]]\n", "Y2 at row 1"),
];

#[test]
fn values_of_the_wrong_kind(rt: HostRuntime) {
    for &(rest, expected) in RESTS {
        expect_parts(&rt, TOP, rest, "", expected);
    }
}

/// The keys of the second repository, and the fault that is reported.
const REPOS: &[(&str, &str)] = &[
    ("name = \"a/b\"\ndefault_ref = \"refs/a\"\n", "Y2 at repo 2"),
    ("name = \"a/b\"\nquota = 1\n", "Y2 at repo 2"),
    ("default_ref = \"refs/a\"\nquota = 1\n", "Y2 at repo 2"),
    (
        "name = \"a/b\"\ndefault_ref = \"refs/a\"\nquota = true\n",
        "Y2 at repo 2",
    ),
    (
        "name = \"a/b\"\ndefault_ref = \"refs/a\"\nquota = 1\nowner = \"a\"\n",
        "Y2 at repo 2",
    ),
    (
        "name = \"a\"\ndefault_ref = \"refs/a\"\nquota = 1\n",
        "Y3 at repo 2",
    ),
    (
        "name = \"A/b\"\ndefault_ref = \"refs/a\"\nquota = 1\n",
        "Y3 at repo 2",
    ),
    (
        "name = \"a/b\"\ndefault_ref = \"refs/a/\"\nquota = 1\n",
        "Y3 at repo 2",
    ),
    (
        "name = \"a/b\"\ndefault_ref = \"refs/a\"\nquota = -1\n",
        "Y3 at repo 2",
    ),
    (
        "name = \"a/b\"\ndefault_ref = \"refs/a\"\nquota = 1099511627777\n",
        "Y3 at repo 2",
    ),
    (
        "name = \"studio/film\"\ndefault_ref = \"refs/a\"\nquota = 1\n",
        "Y4 at repo 2",
    ),
    (
        "name = \"a/b\"\ndefault_ref = \"refs/a\"\nquota = 0\n",
        "none",
    ),
    (
        "name = \"a/b\"\ndefault_ref = \"refs/a\"\nquota = 1099511627776\n",
        "none",
    ),
];

#[test]
fn of_a_repository(rt: HostRuntime) {
    for &(repo, expected) in REPOS {
        let second = join(&rt, REPO, "[[repo]]\n", repo);
        expect_parts(&rt, TOP, second.as_str(), ROW, expected);
    }
}

/// The second of two equal names is reported, which is the third repository here.
#[test]
fn of_a_repeated_name(rt: HostRuntime) {
    let other = "[[repo]]\nname = \"a/b\"\ndefault_ref = \"refs/a\"\nquota = 1\n";
    let repos = join(&rt, REPO, other, REPO);
    expect_parts(&rt, TOP, repos.as_str(), ROW, "Y4 at repo 3");
}

/// The keys of the second row, and the fault that is reported.
const ROWS: &[(&str, &str)] = &[
    ("effect = \"allow\"\n", "Y2 at row 2"),
    (
        "effect = 1\nusers = [\"*\"]\nrepos = [\"*\"]\nrefs = [\"*\"]\npaths = [\"*\"]\nrights = [\"pull\"]\n",
        "Y2 at row 2",
    ),
    (
        "effect = \"deny\"\nusers = \"*\"\nrepos = [\"*\"]\nrefs = [\"*\"]\npaths = [\"*\"]\nrights = [\"pull\"]\n",
        "Y2 at row 2",
    ),
    (
        "effect = \"deny\"\nusers = [\"*\"]\nrepos = [1]\nrefs = [\"*\"]\npaths = [\"*\"]\nrights = [\"pull\"]\n",
        "Y2 at row 2",
    ),
    (
        "effect = \"deny\"\nusers = [\"*\"]\nrepos = [\"*\"]\nrefs = [\"*\", 1]\npaths = [\"*\"]\nrights = [\"pull\"]\n",
        "Y2 at row 2",
    ),
    (
        "effect = \"deny\"\nusers = [\"*\"]\nrepos = [\"*\"]\nrefs = [\"*\"]\npaths = {}\nrights = [\"pull\"]\n",
        "Y2 at row 2",
    ),
    (
        "effect = \"deny\"\nusers = [\"*\"]\nrepos = [\"*\"]\nrefs = [\"*\"]\npaths = [\"*\"]\nrights = false\n",
        "Y2 at row 2",
    ),
    (
        "effect = \"deny\"\nusers = [\"*\"]\nrepos = [\"*\"]\nrefs = [\"*\"]\npaths = [\"*\"]\nrights = [\"pull\"]\nnote = \"\"\n",
        "Y2 at row 2",
    ),
    (
        "effect = \"Deny\"\nusers = [\"*\"]\nrepos = [\"*\"]\nrefs = [\"*\"]\npaths = [\"*\"]\nrights = [\"pull\"]\n",
        "Y3 at row 2",
    ),
    (
        "effect = \"deny\"\nusers = [\"*\"]\nrepos = [\"*\"]\nrefs = [\"*\"]\npaths = [\"*\"]\nrights = [\"pull\"]\n",
        "none",
    ),
];

#[test]
fn of_the_keys_of_a_row(rt: HostRuntime) {
    for &(row, expected) in ROWS {
        let second = join(&rt, ROW, "[[row]]\n", row);
        expect_parts(&rt, TOP, REPO, second.as_str(), expected);
    }
}

/// Lists of a row, and the fault that is reported.
const ROW_LISTS: &[(Key, &str, &str)] = &[
    (Key::Users, "[]", "Y3 at row 1"),
    (Key::Users, "[\"Ann\"]", "Y3 at row 1"),
    (Key::Users, "[\"ann/\"]", "Y3 at row 1"),
    (Key::Users, "[\"*\", \"ann\", \"ann\"]", "none"),
    (Key::Repos, "[]", "Y3 at row 1"),
    (Key::Repos, "[\"studio\"]", "Y3 at row 1"),
    (Key::Repos, "[\"studio/film/\"]", "Y3 at row 1"),
    (Key::Repos, "[\"/\"]", "Y3 at row 1"),
    (
        Key::Repos,
        "[\"studio/\", \"studio/film\", \"other/game\"]",
        "none",
    ),
    (Key::Refs, "[]", "Y3 at row 1"),
    (Key::Refs, "[\"heads/\"]", "Y3 at row 1"),
    (Key::Refs, "[\"refs//\"]", "Y3 at row 1"),
    (Key::Refs, "[\"refs\"]", "Y3 at row 1"),
    (
        Key::Refs,
        "[\"refs/\", \"refs/heads/\", \"refs/heads/main\"]",
        "none",
    ),
    (Key::Paths, "[]", "Y3 at row 1"),
    (Key::Paths, "[\"/art\"]", "Y3 at row 1"),
    (Key::Paths, "[\"art//\"]", "Y3 at row 1"),
    (Key::Paths, "[\"/\"]", "Y3 at row 1"),
    (Key::Paths, "[\"\"]", "Y3 at row 1"),
    (Key::Paths, "[\"art/\", \"art/hero.psd\", \"art\"]", "none"),
    (Key::Rights, "[]", "Y3 at row 1"),
    (Key::Rights, "[\"pul\"]", "Y3 at row 1"),
    (Key::Rights, "[\"*\"]", "Y3 at row 1"),
    (
        Key::Rights,
        "[\"pull\", \"push\", \"list\", \"lock\", \"force\"]",
        "none",
    ),
];

#[test]
fn of_the_lists_of_a_row(rt: HostRuntime) {
    for &(key, list, expected) in ROW_LISTS {
        let row = row_with(&rt, key, list);
        expect_parts(&rt, TOP, REPO, row.as_str(), expected);
    }
}

const NO_QUOTA: &str = "[[repo]]\nname = \"a\"\ndefault_ref = \"refs/a\"\n";

const NO_USERS: &str =
    "[[row]]\neffect = \"allow\"\nusers = []\nrepos = [\"*\"]\nrefs = [\"*\"]\npaths = [\"*\"]\nrights = [\"pull\"]\n";

const BAD_VALUES: &str = "base = \"x\"\ntoken_seconds = 0\n";

/// The top comes before repositories, these before rows; in a table, keys come before values.
const SEVERAL: &[(&str, &str, &str, &str)] = &[
    (TOP, NO_QUOTA, NO_USERS, "Y2 at repo 1"),
    (TOP, NO_USERS, NO_QUOTA, "Y2 at repo 1"),
    (TOP, NO_USERS, "[[row]]\n", "Y3 at row 1"),
    (BAD_VALUES, NO_QUOTA, NO_USERS, "Y3 at top"),
    ("base = \"x\"\n", NO_QUOTA, NO_USERS, "Y2 at top"),
];

#[test]
fn the_first_of_several(rt: HostRuntime) {
    for &(top, repos, rows, expected) in SEVERAL {
        expect_parts(&rt, top, repos, rows, expected);
    }
}

#[test]
fn in_words(rt: HostRuntime) {
    let fault = Policy::read(
        rt.alloc(),
        "base = \"https://lfs.example\"\ntoken_seconds = 0\n",
    )
    .err();
    let first = Fault {
        code: FaultCode::Y3,
        place: Place::Top,
        key: Some(Key::TokenSeconds),
    };
    assert_eq!(rt; fault, Some(PolicyFault::Refused(first)));
    let words = unwrap(&rt, Sentence(first).to_string(rt.alloc()));
    assert_eq!(rt;
        words.as_str(),
        "at the top, `token_seconds` is out of range: expected a whole number from 1 to 86400"
    );
}
