//! A repository of the policy.

ghost use Rattle.std.specs.Prelude.{◌≡◌, ◌≤◌};
ghost use Rattle.policy.specs.Ranges.{largest_quota};

use names::{RefName, RepoName};

/// A repository that the server serves.
#[derive(Debug, Drop)]
pub struct Repo {
    pub(crate) name: RepoName,
    pub(crate) default_ref: RefName,
    pub(crate) quota: u64,
    pub ghost quota_in_range: { quota ≤ largest_quota },
}

impl Repo {
    ghost use Rattle.names.specs.Names.{repo_text, ref_text};
    ghost use Rattle.policy.specs.Values.{repo_view};

    /// Its name.
    pub fn name(&self) -> &RepoName
        ensures { repo_text result.now ≡ (repo_view self.now).name }
    {
        &self.name
    }

    /// The ref for a request that names no ref.
    pub fn default_ref(&self) -> &RefName
        ensures { ref_text result.now ≡ (repo_view self.now).default_ref }
    {
        &self.default_ref
    }

    /// How many bytes of objects it may store, from 0 to 1,099,511,627,776.
    pub fn quota(&self) -> u64
        ensures value { result ≡ (repo_view self.now).quota }
        ensures in_range { result ≤ largest_quota }
    {
        self.quota
    }
}
