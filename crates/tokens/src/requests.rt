//! The operator's requests.

ghost use Rattle.std.specs.Prelude.{◌≤◌};
ghost use Rattle.names.specs.Texts.{last_moment};

use names::{Moment, Operation, RepoName, UserName};

/// A request for a token.
#[derive(Clone, Copy, Debug)]
pub struct TokenRequest<'a> {
    /// The user of the token.
    pub user: &'a UserName,
    /// The repository that it is for.
    pub repo: &'a RepoName,
    /// The operation that it is for.
    pub operation: Operation,
    /// The moment of the request.
    pub now: Moment,
    /// How many seconds it is valid.
    pub seconds: u64,
    /// 32 random bytes; the token's text is their hex encoding.
    pub random: &'a [u8; 32],
    pub ghost in_range: { now ≤ last_moment },
}
