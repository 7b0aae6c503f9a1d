//! Lists the tokens of a repository, and those of a user in it.

ghost use Rattle.std.specs.Prelude.{map, filter, IfOk, IsPermutation};
ghost use Rattle.names.specs.Names.{user_text, repo_text};
ghost use Rattle.tables.specs.Steps.{read_token};
ghost use Rattle.refinement.specs.Left.{Reads};
ghost use Rattle.tokens.specs.Holding.{is_of, is_in, fields_of_token};

use names::{RepoName, UserName};
use std::alloc::Global;
use store::Store;
use tables::{StoreFault, TokenRow};

/// Returns the stored tokens of the user for the repository, in any order: of each its SHA-256, its
/// operation, and its expiry. They include expired tokens that have not been pruned yet.
///
/// # Errors
///
/// `Refused` or `Memory`. In either case, what the store shows is unchanged.
pub fn of<S: Store>(
    alloc: Global,
    store: &mut S,
    user: &UserName,
    repo: &RepoName,
) -> Result<Vec<TokenRow>, StoreFault>
    ensures { Reads S.State store.old store.new (λ world.
        IfOk result (λ found. IsPermutation (map read_token found.items)
        (map fields_of_token
        (filter (is_of (user_text user.entry.now) (repo_text repo.entry.now)) world.tokens)))) }
{
    store.tokens_of(alloc, user, repo)
}

/// Returns all stored tokens for the repository, in any order, with the fields that [`of`] returns. They include expired
/// tokens that have not been pruned yet.
///
/// # Errors
///
/// `Refused` or `Memory`. In either case, what the store shows is unchanged.
pub fn all<S: Store>(
    alloc: Global,
    store: &mut S,
    repo: &RepoName,
) -> Result<Vec<TokenRow>, StoreFault>
    ensures { Reads S.State store.old store.new (λ world.
        IfOk result (λ found. IsPermutation (map read_token found.items)
        (map fields_of_token (filter (is_in (repo_text repo.entry.now)) world.tokens)))) }
{
    store.tokens_in(alloc, repo)
}
