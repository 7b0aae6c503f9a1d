//! A caller in a repository, and why a request is denied.

ghost use Rattle.std.specs.Prelude.{◌≤◌};
ghost use Rattle.names.specs.Texts.{last_moment};

use forms::DenialStatus;
use model::Right;
use names::{Moment, Rule, UserName};
use policy::{Policy, Repo};

/// A caller in a repository: what the verdict on a request depends on, besides the request and the store.
#[derive(Clone, Copy, Debug)]
pub(crate) struct Case<'a> {
    /// The policy of the server.
    pub policy: &'a Policy,
    /// The moment of the connection.
    pub now: Moment,
    /// The repository, as the policy has it.
    pub repo: &'a Repo,
    /// The caller.
    pub user: &'a UserName,
    /// The text of the caller's token, as it was presented.
    pub token: &'a str,
    /// The moment from which on the token is no longer valid.
    pub expires: Moment,
    pub ghost in_range: { now ≤ last_moment },
}

/// Why a request is denied.
#[derive(Clone, Copy, Debug, PartialEq, Eq)]
pub(crate) enum Denial {
    /// The rule refuses.
    Rule(Rule),
    /// The policy denies the right.
    Row {
        /// The row that decides, counted from 1; 0 if no row matches.
        row: u32,
        /// The right that was asked.
        right: Right,
        /// The status of the reply, which the request decides.
        status: DenialStatus,
    },
}
