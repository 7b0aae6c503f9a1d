//! The command `policy`: policy files that are checked, questions, and lists of rows.

use crate::policies::{FOLDERS, RELEASE, STUDIO};
use crate::transcript::{POLICY, perform};
use std::rt::HostRuntime;

/// Policies without a fault.
const COUNTED: &str = r#"
$ policy --policy @/policy
| policy ok: 1 repositories, 1 rows
missing db
$ policy --policy @/policy
append 255 [[repo]]\nname = "studio/r@"\ndefault_ref = "refs/heads/main"\nquota = 1\n
append 999 [[row]]\neffect = "deny"\nusers = ["*"]\nrepos = ["*"]\nrefs = ["*"]\npaths = ["*"]\nrights = ["pull"]\n
| policy ok: 256 repositories, 1000 rows
missing db
"#;

/// A policy without repositories and rows.
const EMPTY: &str = "base = \"https://lfs.example\"\ntoken_seconds = 3600\n";

const ASKED_OF_EMPTY: &str = r#"
$ policy --policy @/policy
| policy ok: 0 repositories, 0 rows
$ policy --policy @/policy --rows
$ policy --policy @/policy --user ann --repo studio/film --right pull
| denied by row 0
| asked by: a download (batch, GET of an object), as in a fetch or a clone; a list of locks
status 1
"#;

/// Files that are not a policy, each with what to mend.
const MENDED: &str = r#"
# a file that does not exist, and a folder
$ policy --policy @/nowhere
error custody: policy not read
status 1
$ policy --policy @
error custody: policy not read
status 1
# the whole file
file policy 40 91
$ policy --policy @/policy
error custody: policy Y1
error line 1: the file is no TOML text in UTF-8; invalid key, expected letters, numbers, `-`, `_` or a quoted key
status 1
file policy 1048577 32
$ policy --policy @/policy
error custody: policy Y5
error the file has more than 1048576 bytes
status 1
# the top
$ policy --policy @/policy
replace base = => colour = 1\nbase =
error custody: policy Y2 at top
error line 2: at the top, there is a key that is none of `base`, `token_seconds`, `repo`, `row`; found the key "colour"
status 1
file policy 0 0
$ policy --policy @/policy
error custody: policy Y2 at top
error at the top, `base` is missing: expected a text of 8 to 200 of `A-Z a-z 0-9 . : _ / -` that begins with http:// or https://, goes on after it and does not end in /
status 1
$ policy --policy @/policy
replace = 3600 => = 86401
error custody: policy Y3 at top
error line 3: at the top, `token_seconds` is out of range: expected a whole number from 1 to 86400; found 86401
status 1
$ policy --policy @/policy
append 256 [[repo]]\nname = "studio/r@"\ndefault_ref = "refs/heads/main"\nquota = 1\n
error custody: policy Y5 at top
error line 1037: at the top, `repo` is too long: expected an array of at most 256 tables; found 257 tables
status 1
# a repository
$ policy --policy @/policy
replace quota = 1000000 => quota = 1000000\ncolour = 1
error custody: policy Y2 at repo 1
error line 9: in repository 1, there is a key that is none of `name`, `default_ref`, `quota`; found the key "colour"
status 1
$ policy --policy @/policy
replace quota = 1000000 => quota = -1
error custody: policy Y3 at repo 1
error line 8: in repository 1, `quota` is out of range: expected a whole number from 0 to 1099511627776; found -1
status 1
$ policy --policy @/policy
append 1 [[repo]]\nname = "studio/film"\ndefault_ref = "refs/heads/main"\nquota = 1\n
error custody: policy Y4 at repo 2
error line 18: in repository 2, `name` is the same as in an earlier repository: expected a repository, as owner/name, each 1 to 40 of `a-z 0-9 _ -`; found "studio/film"
status 1
# a row
$ policy --policy @/policy
replace rights = => colour = 1\nrights =
error custody: policy Y2 at row 1
error line 16: in row 1, there is a key that is none of `effect`, `users`, `repos`, `refs`, `paths`, `rights`; found the key "colour"
status 1
$ policy --policy @/policy
replace refs = ["*"] => refs = "*"
error custody: policy Y2 at row 1
error line 14: in row 1, `refs` is of the wrong kind: expected 1 to 64 texts, each *, refs/, a ref and a slash, or a ref; found a text
status 1
$ policy --policy @/policy
replace "list", "lock" => "lists"
error custody: policy Y3 at row 1
error line 16: in row 1, `rights` is out of range: expected 1 to 64 texts of pull, push, list, lock, force; found "lists"
status 1
$ policy --policy @/policy
append 1 [[row]]\neffect = "forbid"\nusers = ["*"]\nrepos = ["*"]\nrefs = ["*"]\npaths = ["*"]\nrights = ["pull"]\n
error custody: policy Y3 at row 2
error line 18: in row 2, `effect` is out of range: expected allow or deny; found "forbid"
status 1
# what is missing, and what has another kind
$ policy --policy @/policy
replace effect = "allow" => # nothing
error custody: policy Y2 at row 1
error line 10: in row 1, `effect` is missing: expected allow or deny
status 1
$ policy --policy @/policy
append 1 row = 1\n
error custody: policy Y2 at row 1
error line 17: in row 1, there is a key that is none of `effect`, `users`, `repos`, `refs`, `paths`, `rights`; found the key "row"
status 1
# a text is escaped, and cut
$ policy --policy @/policy
replace "ann", "bob" => "\u001b[31m"
error custody: policy Y3 at row 1
error line 12: in row 1, `users` is out of range: expected 1 to 64 texts, each * or a user; found "\u{1b}[31m"
status 1
$ policy --policy @/policy
replace "ann" => "0123456789012345678901234567890123456789012345678901234567890123456789"
error custody: policy Y3 at row 1
error line 12: in row 1, `users` is out of range: expected 1 to 64 texts, each * or a user; found "012345678901234567890123456789012345678901234567890123456789"..
status 1
# no line is named beside an inline table
$ policy --policy @/policy
replace effect = "allow" => effect = { allow = 1 }
error custody: policy Y2 at row 1
error in row 1, `effect` is of the wrong kind: expected allow or deny; found a table
status 1
# the same for a question, and for the rows; other commands print one line
$ policy --policy @/policy --user ann --repo studio/film --right pull
replace = 3600 => = 0
error custody: policy Y3 at top
error line 3: at the top, `token_seconds` is out of range: expected a whole number from 1 to 86400; found 0
status 1
$ policy --policy @/policy --rows
error custody: policy Y3 at top
error line 3: at the top, `token_seconds` is out of range: expected a whole number from 1 to 86400; found 0
status 1
missing db
$ session --db @/db --policy @/policy --now 5
error custody: policy Y3 at top
status 1
missing db
"#;

#[test]
fn a_policy_file_is_checked(rt: HostRuntime) {
    perform(&rt, &rt, "counted", POLICY, COUNTED);
    perform(&rt, &rt, "counted", EMPTY, ASKED_OF_EMPTY);
    perform(&rt, &rt, "mended", POLICY, MENDED);
}

/// The questions of "A frozen release" in docs/POLICY.md, and some without a part.
const ASKED_OF_RELEASE: &str = r#"
$ policy --policy @/policy --user rita --repo studio/film --right push --ref refs/heads/release/1.0
| allowed by row 1
| effect = "allow"
| users = ["rita"]
| repos = ["studio/film"]
| refs = ["refs/heads/release/"]
| paths = ["*"]
| rights = ["push", "lock"]
| asked by: an upload (batch, PUT of an object, verification of an object); the check of the locks of a ref before a push; pushcheck, for each path
missing db
$ policy --policy @/policy --user ann --repo studio/film --right push --ref refs/heads/release/1.0
| denied by row 2
| effect = "deny"
| users = ["*"]
| repos = ["studio/film"]
| refs = ["refs/heads/release/"]
| paths = ["*"]
| rights = ["push", "lock", "force"]
| asked by: an upload (batch, PUT of an object, verification of an object); the check of the locks of a ref before a push; pushcheck, for each path
status 1
missing db
$ policy --policy @/policy --user ann --repo studio/film --right lock --ref refs/heads/release/1.0 --path art/hero.psd
| denied by row 2
| effect = "deny"
| users = ["*"]
| repos = ["studio/film"]
| refs = ["refs/heads/release/"]
| paths = ["*"]
| rights = ["push", "lock", "force"]
| asked by: the creation of a lock; the release of a lock of one's own
status 1
$ policy --policy @/policy --user ann --repo studio/film --right push --ref refs/heads/main
| allowed by row 3
| effect = "allow"
| users = ["ann", "bob", "rita"]
| repos = ["studio/film"]
| refs = ["*"]
| paths = ["*"]
| rights = ["pull", "push", "list", "lock"]
| asked by: an upload (batch, PUT of an object, verification of an object); the check of the locks of a ref before a push; pushcheck, for each path
$ policy --policy @/policy --user ann --repo studio/film --right pull
| allowed by row 3
| effect = "allow"
| users = ["ann", "bob", "rita"]
| repos = ["studio/film"]
| refs = ["*"]
| paths = ["*"]
| rights = ["pull", "push", "list", "lock"]
| asked by: a download (batch, GET of an object), as in a fetch or a clone; a list of locks
# a row for some refs does not match a question without a ref
$ policy --policy @/policy --user rita --repo studio/film --right push
| allowed by row 3
| effect = "allow"
| users = ["ann", "bob", "rita"]
| repos = ["studio/film"]
| refs = ["*"]
| paths = ["*"]
| rights = ["pull", "push", "list", "lock"]
| asked by: an upload (batch, PUT of an object, verification of an object); the check of the locks of a ref before a push; pushcheck, for each path
# a user without a row, a right without a row, and a repository that the policy does not have
$ policy --policy @/policy --user zoe --repo studio/film --right pull
| denied by row 0
| asked by: a download (batch, GET of an object), as in a fetch or a clone; a list of locks
status 1
$ policy --policy @/policy --user ann --repo studio/film --right force --ref refs/heads/main --path art/hero.psd
| denied by row 0
| asked by: the release of another user's lock, by force
status 1
$ policy --policy @/policy --user ann --repo studio/game --right pull
| denied by row 0
| asked by: a download (batch, GET of an object), as in a fetch or a clone; a list of locks
status 1
"#;

/// The questions about locks of "Artists who lock their own folder" in docs/POLICY.md, and some without a part.
const ASKED_OF_FOLDERS: &str = r#"
$ policy --policy @/policy --user ann --repo studio/film --right lock --ref refs/heads/main --path art/characters/hero.psd
| allowed by row 2
| effect = "allow"
| users = ["ann"]
| repos = ["studio/film"]
| refs = ["*"]
| paths = ["art/characters/"]
| rights = ["lock"]
| asked by: the creation of a lock; the release of a lock of one's own
# * among the refs matches a question without a ref
$ policy --policy @/policy --user bob --repo studio/film --right lock --path art/palette.aco
| allowed by row 3
| effect = "allow"
| users = ["bob"]
| repos = ["studio/film"]
| refs = ["*"]
| paths = ["art/sets/", "art/palette.aco"]
| rights = ["lock"]
| asked by: the creation of a lock; the release of a lock of one's own
$ policy --policy @/policy --user ann --repo studio/film --right lock --ref refs/heads/main --path art/sets/street.psd
| denied by row 0
| asked by: the creation of a lock; the release of a lock of one's own
status 1
$ policy --policy @/policy --user ann --repo studio/film --right lock --ref refs/heads/main --path art/characters.psd
| denied by row 0
| asked by: the creation of a lock; the release of a lock of one's own
status 1
# a row for some paths does not match a question without a path
$ policy --policy @/policy --user ann --repo studio/film --right lock --ref refs/heads/main
| denied by row 0
| asked by: the creation of a lock; the release of a lock of one's own
status 1
"#;

/// Some questions of "Several repositories" in docs/POLICY.md.
const ASKED_OF_STUDIO: &str = r#"
$ policy --policy @/policy
| policy ok: 3 repositories, 3 rows
$ policy --policy @/policy --user ann --repo studio/tools --right pull
| allowed by row 1
| effect = "allow"
| users = ["*"]
| repos = ["studio/tools"]
| refs = ["*"]
| paths = ["*"]
| rights = ["pull"]
| asked by: a download (batch, GET of an object), as in a fetch or a clone; a list of locks
$ policy --policy @/policy --user ann --repo studio/tools --right push --ref refs/heads/main
| denied by row 0
| asked by: an upload (batch, PUT of an object, verification of an object); the check of the locks of a ref before a push; pushcheck, for each path
status 1
$ policy --policy @/policy --user bob --repo studio/game --right push --ref refs/heads/main
| allowed by row 3
| effect = "allow"
| users = ["bob"]
| repos = ["studio/"]
| refs = ["*"]
| paths = ["*"]
| rights = ["pull", "push", "list", "lock"]
| asked by: an upload (batch, PUT of an object, verification of an object); the check of the locks of a ref before a push; pushcheck, for each path
"#;

#[test]
fn a_question_is_decided(rt: HostRuntime) {
    perform(&rt, &rt, "frozen_release", RELEASE, ASKED_OF_RELEASE);
    perform(&rt, &rt, "own_folder", FOLDERS, ASKED_OF_FOLDERS);
    perform(&rt, &rt, "repositories", STUDIO, ASKED_OF_STUDIO);
}

/// Values and words that are refused, before the policy is read.
const REFUSED: &str = r#"
# the values, in their order
$ policy --policy @/nowhere --user Ann --repo film --right paint --ref main --path /a
error custody: bad value for --user
status 2
$ policy --policy @/nowhere --user ann --repo film --right paint --ref main --path /a
error custody: bad value for --repo
status 2
$ policy --policy @/nowhere --user ann --repo studio/film --right paint --ref main --path /a
error custody: bad value for --right
status 2
$ policy --policy @/nowhere --user ann --repo studio/film --right pull --ref main --path /a
error custody: bad value for --ref
status 2
$ policy --policy @/nowhere --user ann --repo studio/film --right pull --ref refs/heads/main --path /a
error custody: bad value for --path
status 2
$ policy --policy @/nowhere --user ann --repo studio/film --right pull --path ''
error custody: bad value for --path
status 2
$ policy --policy @/nowhere --user ann --repo studio/film --right Pull
error custody: bad value for --right
status 2
$ policy --policy @/nowhere --user ann --repo studio/film --right ''
error custody: bad value for --right
status 2
$ policy --policy @/nowhere --user ann --repo studio/film --right force
error custody: policy not read
status 1
# the user, the repository and the right go together
$ policy --policy @/nowhere --user ann
error error: the following required arguments were not provided:
error   --repo <R>
error   --right <RIGHT>
error
error Usage: custody policy --policy <FILE> --user <U> --repo <R> --right <RIGHT>
error
error For more information, try '--help'.
status 2
$ policy --policy @/nowhere --user ann --repo studio/film
error error: the following required arguments were not provided:
error   --right <RIGHT>
error
error Usage: custody policy --policy <FILE> --user <U> --repo <R> --right <RIGHT>
error
error For more information, try '--help'.
status 2
$ policy --policy @/nowhere --user ann --right pull
error error: the following required arguments were not provided:
error   --repo <R>
error
error Usage: custody policy --policy <FILE> --user <U> --repo <R> --right <RIGHT>
error
error For more information, try '--help'.
status 2
$ policy --policy @/nowhere --repo studio/film --right pull
error error: the following required arguments were not provided:
error   --user <U>
error
error Usage: custody policy --policy <FILE> --user <U> --repo <R> --right <RIGHT>
error
error For more information, try '--help'.
status 2
# a ref or a path without them
$ policy --policy @/nowhere --ref refs/heads/main
error error: the following required arguments were not provided:
error   --user <U>
error   --repo <R>
error   --right <RIGHT>
error
error Usage: custody policy --policy <FILE> --user <U> --repo <R> --right <RIGHT> --ref <REF>
error
error For more information, try '--help'.
status 2
$ policy --policy @/nowhere --path art/hero.psd
error error: the following required arguments were not provided:
error   --user <U>
error   --repo <R>
error   --right <RIGHT>
error
error Usage: custody policy --policy <FILE> --user <U> --repo <R> --right <RIGHT> --path <PATH>
error
error For more information, try '--help'.
status 2
# a question and the rows
$ policy --policy @/nowhere --rows --user ann
error error: the argument '--rows' cannot be used with '--user <U>'
error
error Usage: custody policy --policy <FILE> --rows
error
error For more information, try '--help'.
status 2
# no policy, and a database
$ policy --rows
error error: the following required arguments were not provided:
error   --policy <FILE>
error
error Usage: custody policy --policy <FILE> --rows
error
error For more information, try '--help'.
status 2
$ policy --policy @/policy --db @/db
error error: unexpected argument '--db' found
error
error Usage: custody policy --policy <FILE>
error
error For more information, try '--help'.
status 2
missing db
"#;

#[test]
fn policy_words_and_values_are_refused(rt: HostRuntime) {
    perform(&rt, &rt, "unasked", POLICY, REFUSED);
}

/// Rows of which some are never reached: 3, which row 1 covers alone; 6, which rows 1 and 3 cover; and 7, which row
/// 2 covers, whatever the two allow. Rows 1 and 4 together match each question that row 5 matches, but neither does
/// alone. Row 8 has one right more than row 1; row 9 has a path, and row 10 also matches questions without one. The file
/// has no repository, of which it warns.
const COVERED: &str = r#"
base = "https://lfs.example"
token_seconds = 3600

# 1
[[row]]
effect = "allow"
users = ["ann", "bob"]
repos = ["studio/"]
refs = ["*"]
paths = ["*"]
rights = ["pull", "lock"]

# 2
[[row]]
effect = "deny"
users = ["*"]
repos = ["*"]
refs = ["*"]
paths = ["*"]
rights = ["force"]

# 3
[[row]]
effect = "deny"
users = ["ann"]
repos = ["studio/film"]
refs = ["refs/heads/main"]
paths = ["art/", "x"]
rights = ["lock"]

# 4
[[row]]
effect = "allow"
users = ["zoe"]
repos = ["studio/film"]
refs = ["*"]
paths = ["*"]
rights = ["lock"]

# 5
[[row]]
effect = "allow"
users = ["ann", "zoe"]
repos = ["studio/film"]
refs = ["*"]
paths = ["*"]
rights = ["lock"]

# 6
[[row]]
effect = "allow"
users = ["ann"]
repos = ["studio/film"]
refs = ["refs/heads/main"]
paths = ["art/hero.psd"]
rights = ["lock"]

# 7
[[row]]
effect = "allow"
users = ["sue"]
repos = ["studio/film"]
refs = ["*"]
paths = ["*"]
rights = ["force"]

# 8
[[row]]
effect = "allow"
users = ["ann"]
repos = ["studio/film"]
refs = ["*"]
paths = ["*"]
rights = ["pull", "push"]

# 9
[[row]]
effect = "allow"
users = ["max"]
repos = ["studio/film"]
refs = ["*"]
paths = ["art/"]
rights = ["lock"]

# 10
[[row]]
effect = "allow"
users = ["max"]
repos = ["studio/film"]
refs = ["*"]
paths = ["art/", "*"]
rights = ["lock"]
"#;

const LISTED: &str = r#"
$ policy --policy @/policy --rows
| row 1
| effect = "allow"
| users = ["ann", "bob"]
| repos = ["studio/"]
| refs = ["*"]
| paths = ["*"]
| rights = ["pull", "lock"]
| row 2
| effect = "deny"
| users = ["*"]
| repos = ["*"]
| refs = ["*"]
| paths = ["*"]
| rights = ["force"]
| row 3: never reached, row 1 covers it
| effect = "deny"
| users = ["ann"]
| repos = ["studio/film"]
| refs = ["refs/heads/main"]
| paths = ["art/", "x"]
| rights = ["lock"]
| row 4
| effect = "allow"
| users = ["zoe"]
| repos = ["studio/film"]
| refs = ["*"]
| paths = ["*"]
| rights = ["lock"]
| row 5
| effect = "allow"
| users = ["ann", "zoe"]
| repos = ["studio/film"]
| refs = ["*"]
| paths = ["*"]
| rights = ["lock"]
| row 6: never reached, row 1 covers it
| effect = "allow"
| users = ["ann"]
| repos = ["studio/film"]
| refs = ["refs/heads/main"]
| paths = ["art/hero.psd"]
| rights = ["lock"]
| row 7: never reached, row 2 covers it
| effect = "allow"
| users = ["sue"]
| repos = ["studio/film"]
| refs = ["*"]
| paths = ["*"]
| rights = ["force"]
| row 8
| effect = "allow"
| users = ["ann"]
| repos = ["studio/film"]
| refs = ["*"]
| paths = ["*"]
| rights = ["pull", "push"]
| row 9
| effect = "allow"
| users = ["max"]
| repos = ["studio/film"]
| refs = ["*"]
| paths = ["art/"]
| rights = ["lock"]
| row 10
| effect = "allow"
| users = ["max"]
| repos = ["studio/film"]
| refs = ["*"]
| paths = ["art/", "*"]
| rights = ["lock"]
| warning: row 1: "studio/" matches no repository of this file
| warning: row 3: "studio/film" matches no repository of this file
| warning: row 4: "studio/film" matches no repository of this file
| warning: row 5: "studio/film" matches no repository of this file
| warning: row 6: "studio/film" matches no repository of this file
| warning: row 7: "studio/film" matches no repository of this file
| warning: row 8: "studio/film" matches no repository of this file
| warning: row 9: "studio/film" matches no repository of this file
| warning: row 10: "studio/film" matches no repository of this file
missing db
"#;

#[test]
fn covered_rows_are_marked(rt: HostRuntime) {
    perform(&rt, &rt, "covered", COVERED, LISTED);
}

/// Policies without a fault of which it is doubtful that they are meant so.
const WARNED: &str = r#"
$ policy --policy @/policy
replace token_seconds = 3600 => token_seconds = 59
| policy ok: 1 repositories, 1 rows
| warning: token_seconds: 59 seconds are short: the Git LFS client counts a token as expired 5 seconds before its end, so a transfer may need several tokens
missing db
$ policy --policy @/policy
replace token_seconds = 3600 => token_seconds = 5
| policy ok: 1 repositories, 1 rows
| warning: token_seconds: a token of 5 seconds cannot transfer files: the Git LFS client counts a token as expired 5 seconds before its end
# a user whom no row allows anything, and a repository and an owner that the file does not have
$ policy --policy @/policy
append 1 [[row]]\neffect = "deny"\nusers = ["zoe", "ann"]\nrepos = ["studio/flim", "stduio/"]\nrefs = ["*"]\npaths = ["*"]\nrights = ["pull"]\n
| policy ok: 1 repositories, 2 rows
| warning: row 2: no row allows "zoe" anything: what no row allows is denied without a row that denies it
| warning: row 2: "studio/flim" matches no repository of this file
| warning: row 2: "stduio/" matches no repository of this file
# paths that look like patterns
$ policy --policy @/policy
append 1 [[row]]\neffect = "allow"\nusers = ["ann"]\nrepos = ["studio/film"]\nrefs = ["*"]\npaths = ["*.psd", "art/"]\nrights = ["lock"]\n
| policy ok: 1 repositories, 2 rows
| warning: row 2: "*.psd" matches only the path with this very text: write a folder and a slash, as "art/", for all paths below it; there are no patterns by ending
# rights whose requests name no ref or no path; a question has no warnings
$ policy --policy @/policy
append 1 [[row]]\neffect = "allow"\nusers = ["ann"]\nrepos = ["*"]\nrefs = ["refs/"]\npaths = ["art/"]\nrights = ["pull", "push"]\n
| policy ok: 1 repositories, 2 rows
| warning: row 2: a request that asks pull names no ref, and the refs have no "*": the row does not match it
| warning: row 2: a request that asks pull names no path, and the paths have no "*": the row does not match it
| warning: row 2: a request that asks push names no path, and the paths have no "*": the row matches only the paths of `custody pushcheck`
$ policy --policy @/policy --user zoe --repo studio/film --right force
| denied by row 0
| asked by: the release of another user's lock, by force
status 1
"#;

#[test]
fn what_is_doubtful_is_reported(rt: HostRuntime) {
    perform(&rt, &rt, "warned", POLICY, WARNED);
}
