//! Questions to the policy, and its verdicts.

ghost use Rattle.std.specs.Prelude.{◌≡◌, option_map};

use model::Right;
use names::{LockPath, RefName, RepoName, UserName};

/// Whether a user may do something in a repository; the ref and the path are given if it concerns them.
#[derive(Clone, Copy, Debug)]
pub struct Question<'a> {
    /// The user who asks.
    pub user: &'a UserName,
    /// The repository.
    pub repo: &'a RepoName,
    /// The right that is asked for.
    pub right: Right,
    /// The ref, if the question concerns one.
    pub ref_name: Option<&'a RefName>,
    /// The path, if the question concerns one.
    pub path: Option<&'a LockPath>,
}

impl<'a> Question<'a> {
    ghost use Rattle.policy.specs.Values.{question_view};

    pub(crate) fn ref_text(&self) -> Option<&'a str>
        ensures { option_map (λ text. text.now) result ≡ (question_view self.now).ref }
    {
        match self.ref_name {
            Some(name) => Some(name.as_str()),
            None => None,
        }
    }

    pub(crate) fn path_text(&self) -> Option<&'a str>
        ensures { option_map (λ text. text.now) result ≡ (question_view self.now).path }
    {
        match self.path {
            Some(path) => Some(path.as_str()),
            None => None,
        }
    }
}

/// The verdict, with the number of the row that gave it. Rows count from 1.
#[derive(Clone, Copy, Debug, PartialEq, Eq)]
pub enum Verdict {
    /// Allowed by the row with this number.
    Allow(u32),
    /// Denied by the row with this number; 0 if no row matches.
    Deny(u32),
}
