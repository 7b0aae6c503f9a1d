//! A row of the policy, and whether it matches a question.
//!
//! A row matches if each of its five lists holds the corresponding part of the question. In the lists
//! of users, repositories, refs and paths, `*` holds every text, a text that ends in `/` holds every
//! text that begins with it, and any other text holds itself. If the question does not name a part,
//! only `*` holds it.

ghost use Rattle.std.specs.Prelude.{◌≡◌, IsTrue, option_map, string_bytes};
ghost use Rattle.std.specs.List.{list_any};
ghost use Rattle.model.specs.Policy.{holds, held_by, held_if_named, matches, is_any, same_right};
ghost use Rattle.policy.specs.Applicable.{applies, covers_place};
ghost use Rattle.policy.specs.Ranges.{texts, are_entries, is_count, is_user_entry, is_repo_entry, is_ref_entry, is_path_entry};

use crate::questions::Question;
use model::{Effect, Right};
use names::{RepoName, UserName};

/// A row: whom and what it allows or denies.
#[derive(Debug, Drop)]
pub struct Row {
    pub effect: Effect,
    pub users: Vec<String>,
    pub repos: Vec<String>,
    pub refs: Vec<String>,
    pub paths: Vec<String>,
    pub rights: Vec<Right>,
    pub ghost users_in_range: { IsTrue (are_entries is_user_entry (texts users.items)) },
    pub ghost repos_in_range: { IsTrue (are_entries is_repo_entry (texts repos.items)) },
    pub ghost refs_in_range: { IsTrue (are_entries is_ref_entry (texts refs.items)) },
    pub ghost paths_in_range: { IsTrue (are_entries is_path_entry (texts paths.items)) },
    pub ghost rights_in_range: { IsTrue (is_count rights.items) },
}

/// Whether the pattern holds every text.
fn is_any(pattern: &str) -> bool
    ensures { result ≡ is_any pattern.now }
{
    pattern == "*"
}

/// Whether the pattern holds the text.
fn holds(pattern: &str, text: &str) -> bool
    ensures { result ≡ holds text.now pattern.now }
{
    let bytes = pattern.as_bytes();
    is_any(pattern)
        || pattern == text
        || (bytes.ends_with(b"/") && text.as_bytes().starts_with(bytes))
}

fn has_holder(patterns: &[String], text: &str) -> bool
    ensures { result ≡ list_any (λ pattern. holds text.now (string_bytes pattern)) patterns.now }
{
    patterns.iter().any(|pattern| holds(pattern.as_str(), text))
}

/// Whether one of the patterns holds the text.
pub(crate) fn held_by(patterns: &[String], text: &str) -> bool
    ensures { result ≡ held_by (texts patterns.now) text.now }
{
    has_holder(patterns, text)
}

fn has_any(patterns: &[String]) -> bool
    ensures { result ≡ list_any (λ pattern. is_any (string_bytes pattern)) patterns.now }
{
    patterns.iter().any(|pattern| is_any(pattern.as_str()))
}

/// Whether the patterns hold the text; if the question names none, whether they hold its absence.
fn held_if_named(patterns: &[String], text: Option<&str>) -> bool
    ensures { result ≡ held_if_named (texts patterns.now) (option_map (λ t. t.now) text.entry) }
{
    match text {
        Some(text) => held_by(patterns, text),
        None => has_any(patterns),
    }
}

pub(crate) fn has_right(rights: &[Right], asked: Right) -> bool
    ensures { result ≡ list_any (same_right asked) rights.now }
{
    rights.iter().any(|right| *right == asked)
}

impl Row {
    ghost use Rattle.names.specs.Names.{repo_text, user_text};
    ghost use Rattle.model.specs.Views.{may_allow_push};
    ghost use Rattle.policy.specs.Values.{row_view, question_view};

    /// Whether all five lists hold the question.
    pub fn matches(&self, question: &Question) -> bool
        ensures { result ≡ matches (row_view self.now) (question_view question.now) }
    {
        self.applies(question) && self.covers_place(question)
    }

    /// Whether the row holds the user, the repository and the right. The rights are compared first, since they are the
    /// shortest to compare.
    pub(crate) fn applies(&self, question: &Question) -> bool
        ensures { result ≡ applies (question_view question.now) (row_view self.now) }
    {
        has_right(&self.rights, question.right)
            && held_by(&self.users, question.user.as_str())
            && held_by(&self.repos, question.repo.as_str())
    }

    /// Whether the row may allow the user a push to some ref of the repository: it is a row that allows, and holds the
    /// user, the repository and the right.
    pub(crate) fn may_allow_push(&self, user: &UserName, repo: &RepoName) -> bool
        ensures { result ≡ may_allow_push (user_text user.now) (repo_text repo.now) (row_view self.now) }
    {
        matches!(self.effect, Effect::Allow)
            && held_by(&self.users, user.as_str())
            && held_by(&self.repos, repo.as_str())
            && has_right(&self.rights, Right::Push)
    }

    /// Whether the row holds the ref and the path.
    pub(crate) fn covers_place(&self, question: &Question) -> bool
        ensures { result ≡ covers_place (question_view question.now) (row_view self.now) }
    {
        held_if_named(&self.refs, question.ref_text())
            && held_if_named(&self.paths, question.path_text())
    }
}
