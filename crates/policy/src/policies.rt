//! The policy as a value.

ghost use Rattle.std.specs.Prelude.{◌≡◌, ◌≤◌, IsTrue, length, option_copied, find, bytes_eq, string_bytes};
ghost use Rattle.names.specs.Names.{repo_text};
ghost use Rattle.names.specs.Texts.{between};
ghost use Rattle.policy.specs.Ranges.{is_base, longest_life, most_repos, most_rows, are_distinct};
ghost use Rattle.policy.specs.Repos.{names_of};

use crate::repos::Repo;
use crate::rows::Row;

/// A policy. Every value in it is in range.
#[derive(Debug, Drop)]
pub struct Policy {
    pub(crate) base: String,
    pub(crate) token_seconds: u64,
    pub(crate) repos: Vec<Repo>,
    pub(crate) rows: Vec<Row>,
    pub ghost base_in_range: { IsTrue (is_base (string_bytes base)) },
    pub ghost token_seconds_in_range: { IsTrue (between 1 longest_life token_seconds) },
    pub ghost repos_in_range: { length repos.items ≤ most_repos },
    pub ghost rows_in_range: { length rows.items ≤ most_rows },
    pub ghost repos_are_distinct: { IsTrue (are_distinct (names_of repos.items)) },
}

/// The first repository with the name.
pub(crate) fn named<'a>(repos: &'a [Repo], name: &str) -> Option<&'a Repo>
    ensures { option_copied result ≡ find
        (λ repo. bytes_eq (repo_text repo.name) name.now) repos.entry.now }
{
    repos.iter().find(|repo| repo.name.as_str() == name)
}

impl Policy {
    ghost use Rattle.std.specs.Prelude.{map, option_map};
    ghost use Rattle.model.specs.Policy.{IsPolicy, repo_named};
    ghost use Rattle.policy.specs.Values.{policy_view, repo_view, row_view};

    /// The address under which the server's repositories are served, as `https://lfs.example`.
    pub fn base(&self) -> &str
        ensures value { result.now ≡ (policy_view self.now).base }
        ensures in_range { IsTrue (is_base result.now) }
    {
        self.base.as_str()
    }

    /// How many seconds a token is valid, from 1 to 86,400.
    pub fn token_seconds(&self) -> u64
        ensures value { result ≡ (policy_view self.now).token_seconds }
        ensures in_range { IsTrue (between 1 longest_life result) }
    {
        self.token_seconds
    }

    /// The repository with that name; `None` exactly if the policy has none.
    pub fn repo(&self, name: &str) -> Option<&Repo>
        ensures value { option_map (λ r. repo_view r.now) result
            ≡ repo_named name.now (policy_view self.now) }
        ensures in_range { IsPolicy (policy_view self.now) }
    {
        named(&self.repos, name)
    }

    /// The repositories, in the order of the file.
    pub fn repos(&self) -> &[Repo]
        ensures { map repo_view result.now ≡ (policy_view self.now).repos }
    {
        self.repos.as_slice()
    }

    /// The rows, in the order of the file. The first one has the number 1.
    pub fn rows(&self) -> &[Row]
        ensures { map row_view result.now ≡ (policy_view self.now).rows }
    {
        self.rows.as_slice()
    }
}
