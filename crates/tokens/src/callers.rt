//! The caller of a token.

ghost use Rattle.std.specs.Prelude.{◌≡◌};
ghost use Rattle.tokens.specs.Callers.{IsGoodAt};
ghost use Rattle.tokens.specs.declared.callers.CallerFault.TheVariants.{Store as by_store};

use names::{Moment, Operation, RepoName, Rule, UserName};
use tables::{StoreFault, TokenRow};
use thiserror::Error;

/// The authenticated caller.
#[derive(Debug, Drop)]
pub struct Caller<'t> {
    /// The text of the token, as the caller presented it.
    pub token: &'t str,
    /// The user.
    pub user: UserName,
    /// The repository that the token is for.
    pub repo: RepoName,
    /// The operation that the token was issued for.
    pub operation: Operation,
    /// The moment from which on the token is no longer valid. It is later than the moment of the request.
    pub expires: Moment,
}

/// Why a request has no caller. The store is unchanged.
#[derive(Clone, Copy, Debug, PartialEq, Eq, Error)]
pub enum CallerFault {
    /// A1 if the request has no token, A2 if the store has no such token, A3 if the token has expired.
    #[error("{0}")]
    Rule(Rule),
    /// The store refused, or memory ran out.
    #[error("{0}")]
    Store(StoreFault),
}

impl From<StoreFault> for CallerFault {
    ghost from_gives = { λ refused fault. fault ≡ by_store refused };

    fn from(fault: StoreFault) -> CallerFault {
        CallerFault::Store(fault)
    }
}

/// The caller who presented this text, with the row of the token, if the token is valid at the moment; else A3.
pub(crate) fn good_at<'t>(
    text: &'t str,
    token: TokenRow,
    now: Moment,
) -> Result<Caller<'t>, CallerFault>
    ensures { IsGoodAt text.now token now result }
{
    if now.get() < token.expires.get() {
        Ok(Caller {
            token: text,
            user: token.user,
            repo: token.repo,
            operation: token.operation,
            expires: token.expires,
        })
    } else {
        Err(CallerFault::Rule(Rule::A3))
    }
}
