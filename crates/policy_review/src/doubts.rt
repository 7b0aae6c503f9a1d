//! What is dubious about the entries and the rights of a row.

ghost use Rattle.std.specs.Prelude.{◌≡◌, string_bytes};
ghost use Rattle.std.specs.List.{list_any};
ghost use Rattle.model.specs.Policy.{holds, held_by, is_any, same_right};
ghost use Rattle.policy.specs.Ranges.{texts};
ghost use Rattle.policy.specs.Values.{policy_view, repo_view, row_view};
ghost use Rattle.policy_review.specs.Doubts.{allows, has_any, has_right, has_star, is_allow, is_entry_doubtful, is_ever_allowed, is_right_doubtful, is_served};

use model::{Effect, Right};
use policy::{Policy, Repo, Row};

/// What is dubious about an entry of a list of a row.
#[derive(Clone, Copy, Debug, PartialEq, Eq)]
pub enum EntryDoubt {
    /// A user whom no row allows anything.
    NeverAllowed,
    /// A repository that the file does not have, or an owner without a repository.
    NotServed,
    /// A path with `*` within it.
    StarInPath,
}

/// What is dubious about a right of a row.
#[derive(Clone, Copy, Debug, PartialEq, Eq)]
pub enum RightDoubt {
    /// `pull`, whose question names no ref, and refs without `*`.
    PullWithRefs,
    /// `pull`, whose question names no path, and paths without `*`.
    PullWithPaths,
    /// `push`, whose question names no path, and paths without `*`.
    PushWithPaths,
}

/// Whether the pattern matches every text.
fn is_any(pattern: &str) -> bool
    ensures { result ≡ is_any pattern.now }
{
    pattern == "*"
}

/// Whether the pattern matches the text.
fn holds(pattern: &str, text: &str) -> bool
    ensures { result ≡ holds text.now pattern.now }
{
    let bytes = pattern.as_bytes();
    is_any(pattern)
        || pattern == text
        || (bytes.ends_with(b"/") && text.as_bytes().starts_with(bytes))
}

fn has_holder(patterns: &[String], text: &str) -> bool
    ensures { result ≡ list_any (λ pattern. holds text.now (string_bytes pattern)) patterns.now }
{
    patterns.iter().any(|pattern| holds(pattern.as_str(), text))
}

/// Whether one of the patterns matches the text.
fn held_by(patterns: &[String], text: &str) -> bool
    ensures { result ≡ held_by (texts patterns.now) text.now }
{
    has_holder(patterns, text)
}

fn is_allow(effect: Effect) -> bool
    ensures { result ≡ is_allow effect }
{
    matches!(effect, Effect::Allow)
}

/// Whether the row allows the user something.
fn allows(row: &Row, user: &str) -> bool
    ensures { result ≡ allows user.now (row_view row.now) }
{
    is_allow(row.effect) && held_by(&row.users, user)
}

/// Whether one of the rows allows the user something.
fn any_allows(rows: &[Row], user: &str) -> bool
    ensures { result ≡ list_any (λ row. allows user.now (row_view row)) rows.now }
{
    rows.iter().any(|row| allows(row, user))
}

/// Whether some row of the policy allows the user something.
fn is_ever_allowed(policy: &Policy, user: &str) -> bool
    ensures { result ≡ is_ever_allowed (policy_view policy.now).rows user.now }
{
    any_allows(policy.rows(), user)
}

/// Whether the entry matches one of the repositories.
fn any_served(repos: &[Repo], entry: &str) -> bool
    ensures { result ≡ list_any (λ repo. holds (repo_view repo).name entry.now) repos.now }
{
    repos.iter().any(|repo| holds(entry, repo.name().as_str()))
}

/// Whether the entry matches a repository of the policy.
fn is_served(policy: &Policy, entry: &str) -> bool
    ensures { result ≡ is_served (policy_view policy.now).repos entry.now }
{
    any_served(policy.repos(), entry)
}

/// Whether the text has a `*`.
fn has_star(text: &str) -> bool
    ensures { result ≡ has_star text.now }
{
    text.as_bytes().iter().any(|byte| *byte == b'*')
}

/// Whether the entry is doubtful in this respect.
pub(crate) fn is_entry_doubtful(policy: &Policy, doubt: EntryDoubt, entry: &str) -> bool
    ensures { result ≡ is_entry_doubtful (policy_view policy.now) doubt entry.now }
{
    match doubt {
        EntryDoubt::NeverAllowed => !is_any(entry) && !is_ever_allowed(policy, entry),
        EntryDoubt::NotServed => !is_any(entry) && !is_served(policy, entry),
        EntryDoubt::StarInPath => !is_any(entry) && has_star(entry),
    }
}

fn has_right(row: &Row, asked: Right) -> bool
    ensures { result ≡ has_right asked (row_view row.now) }
{
    row.rights.iter().any(|right| *right == asked)
}

fn some_is_any(patterns: &[String]) -> bool
    ensures { result ≡ list_any (λ pattern. is_any (string_bytes pattern)) patterns.now }
{
    patterns.iter().any(|pattern| is_any(pattern.as_str()))
}

/// Whether the patterns match a question that does not name this part.
fn has_any(patterns: &[String]) -> bool
    ensures { result ≡ has_any (texts patterns.now) }
{
    some_is_any(patterns)
}

/// Whether the row has the right of the doubt, and does not match the requests that ask it.
pub(crate) fn is_right_doubtful(row: &Row, doubt: RightDoubt) -> bool
    ensures { result ≡ is_right_doubtful (row_view row.now) doubt }
{
    match doubt {
        RightDoubt::PullWithRefs => has_right(row, Right::Pull) && !has_any(&row.refs),
        RightDoubt::PullWithPaths => has_right(row, Right::Pull) && !has_any(&row.paths),
        RightDoubt::PushWithPaths => has_right(row, Right::Push) && !has_any(&row.paths),
    }
}
