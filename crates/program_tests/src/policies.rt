//! Policy files: their verdicts, and their faults.

use crate::transcript::{POLICY, perform, perform_on_forms};

/// "A vendor who reads" of docs/POLICY.md.
const VENDOR: &str = r#"
base = "https://lfs.example"
token_seconds = 3600

[[repo]]
name = "studio/film"
default_ref = "refs/heads/main"
quota = 500000000000

# 1: the studio works
[[row]]
effect = "allow"
users = ["ann", "bob"]
repos = ["studio/film"]
refs = ["*"]
paths = ["*"]
rights = ["pull", "push", "list", "lock"]

# 2: the vendor reads
[[row]]
effect = "allow"
users = ["vendor"]
repos = ["studio/film"]
refs = ["*"]
paths = ["*"]
rights = ["pull"]
"#;

const ASKED_OF_VENDOR: &str = r#"
token a ann studio/film
token b vendor studio/film
$ session --db @/db --policy @/policy --now 1463500146
lock b studio/film {"path":"art/hero.psd"}
reply 403 {"message":"P0: no policy row allows lock"}
lock a studio/film {"path":"art/hero.psd"}
reply 201 {"lock":{"id":"1","locked_at":"2016-05-17T15:49:06Z","owner":{"name":"ann"},"path":"art/hero.psd"}}
"#;

/// "Artists who lock their own folder" of docs/POLICY.md.
pub(crate) const FOLDERS: &str = r#"
base = "https://lfs.example"
token_seconds = 3600

[[repo]]
name = "studio/film"
default_ref = "refs/heads/main"
quota = 500000000000

# 1: the artists work
[[row]]
effect = "allow"
users = ["ann", "bob"]
repos = ["studio/film"]
refs = ["*"]
paths = ["*"]
rights = ["pull", "push", "list"]

# 2: ann locks characters
[[row]]
effect = "allow"
users = ["ann"]
repos = ["studio/film"]
refs = ["*"]
paths = ["art/characters/"]
rights = ["lock"]

# 3: bob locks sets, and one file more
[[row]]
effect = "allow"
users = ["bob"]
repos = ["studio/film"]
refs = ["*"]
paths = ["art/sets/", "art/palette.aco"]
rights = ["lock"]
"#;

const ASKED_OF_FOLDERS: &str = r#"
token a ann studio/film
token b bob studio/film
$ session --db @/db --policy @/policy --now 1463500146
lock a studio/film {"path":"art/characters/hero.psd"}
reply 201 {"lock":{"id":"1","locked_at":"2016-05-17T15:49:06Z","owner":{"name":"ann"},"path":"art/characters/hero.psd"}}
lock a studio/film {"path":"art/sets/street.psd"}
reply 403 {"message":"P0: no policy row allows lock"}
lock a studio/film {"path":"art/characters.psd"}
reply 403 {"message":"P0: no policy row allows lock"}
lock b studio/film {"path":"art/palette.aco"}
reply 201 {"lock":{"id":"2","locked_at":"2016-05-17T15:49:06Z","owner":{"name":"bob"},"path":"art/palette.aco"}}
"#;

/// "A supervisor who may force" of docs/POLICY.md.
const SUPERVISOR: &str = r#"
base = "https://lfs.example"
token_seconds = 3600

[[repo]]
name = "studio/film"
default_ref = "refs/heads/main"
quota = 500000000000

# 1: all work, the supervisor too
[[row]]
effect = "allow"
users = ["ann", "bob", "sue"]
repos = ["studio/film"]
refs = ["*"]
paths = ["*"]
rights = ["pull", "push", "list", "lock"]

# 2: the supervisor releases the locks of others, but not those of the edit
[[row]]
effect = "deny"
users = ["*"]
repos = ["*"]
refs = ["*"]
paths = ["edit/"]
rights = ["force"]

# 3
[[row]]
effect = "allow"
users = ["sue"]
repos = ["studio/film"]
refs = ["*"]
paths = ["*"]
rights = ["force"]
"#;

const ASKED_OF_SUPERVISOR: &str = r#"
token a ann studio/film
$ session --db @/db --policy @/policy --now 1463500146
lock a studio/film {"path":"art/hero.psd"}
reply 201 {"lock":{"id":"1","locked_at":"2016-05-17T15:49:06Z","owner":{"name":"ann"},"path":"art/hero.psd"}}
"#;

/// "A frozen release" of docs/POLICY.md.
pub(crate) const RELEASE: &str = r#"
base = "https://lfs.example"
token_seconds = 3600

[[repo]]
name = "studio/film"
default_ref = "refs/heads/main"
quota = 500000000000

# 1: one person mends the release
[[row]]
effect = "allow"
users = ["rita"]
repos = ["studio/film"]
refs = ["refs/heads/release/"]
paths = ["*"]
rights = ["push", "lock"]

# 2: nobody else does
[[row]]
effect = "deny"
users = ["*"]
repos = ["studio/film"]
refs = ["refs/heads/release/"]
paths = ["*"]
rights = ["push", "lock", "force"]

# 3: elsewhere all work
[[row]]
effect = "allow"
users = ["ann", "bob", "rita"]
repos = ["studio/film"]
refs = ["*"]
paths = ["*"]
rights = ["pull", "push", "list", "lock"]
"#;

const ASKED_OF_RELEASE: &str = r#"
token a ann studio/film
token b rita studio/film
$ session --db @/db --policy @/policy --now 1463500146
lock a studio/film {"path":"art/hero.psd","ref":{"name":"refs/heads/release/1.0"}}
reply 403 {"message":"P2: policy row 2 denies lock"}
lock b studio/film {"path":"art/hero.psd","ref":{"name":"refs/heads/release/1.0"}}
reply 201 {"lock":{"id":"1","locked_at":"2016-05-17T15:49:06Z","owner":{"name":"rita"},"path":"art/hero.psd"}}
lock a studio/film {"path":"art/hero.psd"}
reply 201 {"lock":{"id":"2","locked_at":"2016-05-17T15:49:06Z","owner":{"name":"ann"},"path":"art/hero.psd"}}
"#;

/// "Several repositories" of docs/POLICY.md.
pub(crate) const STUDIO: &str = r#"
base = "https://lfs.example"
token_seconds = 3600

[[repo]]
name = "studio/film"
default_ref = "refs/heads/main"
quota = 500000000000

[[repo]]
name = "studio/game"
default_ref = "refs/heads/develop"
quota = 200000000000

[[repo]]
name = "studio/tools"
default_ref = "refs/heads/main"
quota = 1000000000

# 1: everyone reads the tools
[[row]]
effect = "allow"
users = ["*"]
repos = ["studio/tools"]
refs = ["*"]
paths = ["*"]
rights = ["pull"]

# 2: ann works on the film
[[row]]
effect = "allow"
users = ["ann"]
repos = ["studio/film"]
refs = ["*"]
paths = ["*"]
rights = ["pull", "push", "list", "lock"]

# 3: bob works on all that is the studio's
[[row]]
effect = "allow"
users = ["bob"]
repos = ["studio/"]
refs = ["*"]
paths = ["*"]
rights = ["pull", "push", "list", "lock"]
"#;

const ASKED_OF_STUDIO: &str = r#"
token a ann studio/film
token b ann studio/tools
token c ann studio/game
token d bob studio/game
$ session --db @/db --policy @/policy --now 1463500146
lock a studio/film {"path":"art/hero.psd"}
reply 201 {"lock":{"id":"1","locked_at":"2016-05-17T15:49:06Z","owner":{"name":"ann"},"path":"art/hero.psd"}}
lock b studio/tools {"path":"art/hero.psd"}
reply 403 {"message":"P0: no policy row allows lock"}
lock c studio/game {"path":"art/hero.psd"}
reply 403 {"message":"P0: no policy row allows lock"}
lock d studio/game {"path":"art/hero.psd"}
reply 201 {"lock":{"id":"1","locked_at":"2016-05-17T15:49:06Z","owner":{"name":"bob"},"path":"art/hero.psd"}}
"#;

/// A folder in which nobody may lock, and paths that only have its name as a prefix.
const FROZEN: &str = r#"
token a ann studio/film
$ session --db @/db --policy @/policy --now 1463500146
replace [[row]] => [[row]]\neffect = "deny"\nusers = ["*"]\nrepos = ["*"]\nrefs = ["*"]\npaths = ["art/"]\nrights = ["lock"]\n[[row]]
replace users = ["ann", "bob"] => users = ["*"]
replace "list", "lock"] => "list", "lock", "force"]
lock a studio/film {"path":"art/x"}
reply 403 {"message":"P1: policy row 1 denies lock"}
lock a studio/film {"path":"artx"}
reply 201 {"lock":{"id":"1","locked_at":"2016-05-17T15:49:06Z","owner":{"name":"ann"},"path":"artx"}}
"#;

/// Folders, the policy of each, and the requests to it.
const DECISIONS: &[(&str, &str, &str)] = &[
    ("vendor", VENDOR, ASKED_OF_VENDOR),
    ("folders", FOLDERS, ASKED_OF_FOLDERS),
    ("supervisor", SUPERVISOR, ASKED_OF_SUPERVISOR),
    ("release", RELEASE, ASKED_OF_RELEASE),
    ("studio", STUDIO, ASKED_OF_STUDIO),
    ("frozen", POLICY, FROZEN),
];

#[test]
fn a_policy_decides(rt: HostRuntime) {
    for (folder, policy, transcript) in DECISIONS {
        perform_on_forms(&rt, &rt, folder, policy, transcript);
    }
}

/// Files that are not a policy, each with its first fault. They leave no database.
const FAULTS: &str = r#"
# a file that is not there, and a folder
$ session --db @/db --policy @/nowhere --now 5
error custody: policy not read
status 1
missing db
$ session --db @/db --policy @ --now 5
error custody: policy not read
status 1
missing db
$ authenticate --db @/db --policy @/nowhere --user ann --now 5 --random @/a studio/film upload
error custody: policy not read
status 1
missing db
# no TOML, no UTF-8, no bytes
file policy 40 91
$ session --db @/db --policy @/policy --now 5
error custody: policy Y1
status 1
missing db
file policy 40 255
$ session --db @/db --policy @/policy --now 5
error custody: policy Y1
status 1
missing db
file policy 0 0
$ session --db @/db --policy @/policy --now 5
error custody: policy Y2 at top
status 1
missing db
# a file that is too long
$ session --db @/db --policy @/policy --now 5
pad 1048577
error custody: policy Y5
status 1
missing db
# the top
$ session --db @/db --policy @/policy --now 5
replace base = => colour = 1\nbase =
error custody: policy Y2 at top
status 1
missing db
$ session --db @/db --policy @/policy --now 5
replace = 3600 => = 0
error custody: policy Y3 at top
status 1
missing db
$ session --db @/db --policy @/policy --now 5
replace = 3600 => = 86401
error custody: policy Y3 at top
status 1
missing db
$ session --db @/db --policy @/policy --now 5
append 256 [[repo]]\nname = "studio/r@"\ndefault_ref = "refs/heads/main"\nquota = 1\n
error custody: policy Y5 at top
status 1
missing db
$ session --db @/db --policy @/policy --now 5
replace users = ["ann", "bob"] => users = []
append 1000 [[row]]\neffect = "deny"\nusers = ["*"]\nrepos = ["*"]\nrefs = ["*"]\npaths = ["*"]\nrights = ["pull"]\n
error custody: policy Y5 at top
status 1
missing db
# a repository
$ session --db @/db --policy @/policy --now 5
replace quota = 1000000 => 
replace users = ["ann", "bob"] => users = []
error custody: policy Y2 at repo 1
status 1
missing db
$ session --db @/db --policy @/policy --now 5
replace quota = 1000000 => quota = 1099511627777
error custody: policy Y3 at repo 1
status 1
missing db
$ session --db @/db --policy @/policy --now 5
replace [[row]] => [[repo]]\nname = "studio/film"\ndefault_ref = "refs/heads/main"\nquota = 1\n[[row]]
error custody: policy Y4 at repo 2
status 1
missing db
# a row
$ session --db @/db --policy @/policy --now 5
replace effect = "allow" => effect = true
error custody: policy Y2 at row 1
status 1
missing db
$ session --db @/db --policy @/policy --now 5
replace "pull", "push", "list", "lock" => "pul"
error custody: policy Y3 at row 1
status 1
missing db
$ session --db @/db --policy @/policy --now 5
replace users = ["ann", "bob"] => users = []
error custody: policy Y3 at row 1
status 1
missing db
$ session --db @/db --policy @/policy --now 5
replace refs = ["*"] => refs = ["heads/"]
error custody: policy Y3 at row 1
status 1
missing db
$ session --db @/db --policy @/policy --now 5
replace "ann", "bob" => "ann", "ann", "ann", "ann", "ann", "ann", "ann", "ann", "ann", "ann", "ann", "ann", "ann", "ann", "ann", "ann", "ann", "ann", "ann", "ann", "ann", "ann", "ann", "ann", "ann", "ann", "ann", "ann", "ann", "ann", "ann", "ann", "ann", "ann", "ann", "ann", "ann", "ann", "ann", "ann", "ann", "ann", "ann", "ann", "ann", "ann", "ann", "ann", "ann", "ann", "ann", "ann", "ann", "ann", "ann", "ann", "ann", "ann", "ann", "ann", "ann", "ann", "ann", "ann", "ann"
error custody: policy Y3 at row 1
status 1
missing db
# the second row, after which nothing is read
$ authenticate --db @/db --policy @/policy --user ann --now 5 --random @/a studio/film upload
append 1 [[row]]\neffect = "deny"\nusers = ["*"]\nrepos = ["*"]\nrefs = ["*"]\npaths = ["*"]\nrights = ["pul"]\n
error custody: policy Y3 at row 2
status 1
missing db
"#;

/// Files that reach a limit, and pass.
const LIMITS: &str = r#"
# the longest file
$ session --db @/db --policy @/policy --now 5
pad 1048576
# the longest life of a token
$ session --db @/db --policy @/policy --now 5
replace = 3600 => = 86400
# 256 repositories
$ session --db @/db --policy @/policy --now 5
append 255 [[repo]]\nname = "studio/r@"\ndefault_ref = "refs/heads/main"\nquota = 1\n
# 1,000 rows
$ session --db @/db --policy @/policy --now 5
append 999 [[row]]\neffect = "deny"\nusers = ["*"]\nrepos = ["*"]\nrefs = ["*"]\npaths = ["*"]\nrights = ["pull"]\n
# 64 entries
$ session --db @/db --policy @/policy --now 5
replace "ann", "bob" => "ann", "ann", "ann", "ann", "ann", "ann", "ann", "ann", "ann", "ann", "ann", "ann", "ann", "ann", "ann", "ann", "ann", "ann", "ann", "ann", "ann", "ann", "ann", "ann", "ann", "ann", "ann", "ann", "ann", "ann", "ann", "ann", "ann", "ann", "ann", "ann", "ann", "ann", "ann", "ann", "ann", "ann", "ann", "ann", "ann", "ann", "ann", "ann", "ann", "ann", "ann", "ann", "ann", "ann", "ann", "ann", "ann", "ann", "ann", "ann", "ann", "ann", "ann", "ann"
"#;

#[test]
fn the_first_fault_of_a_policy_is_reported(rt: HostRuntime) {
    perform(&rt, &rt, "spelled", POLICY, FAULTS);
    perform(&rt, &rt, "spelled", POLICY, LIMITS);
}
