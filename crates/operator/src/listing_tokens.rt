//! Lists the valid tokens of a repository.

ghost use Rattle.std.specs.Prelude.{◌≡◌, ℕ, List, filter, nat_lt, IfErr, IfOk, IsPermutation, IsSorted, OnOk};
ghost use Rattle.std.specs.Io.KnownBytes.{Appends};
ghost use Rattle.names.specs.Names.{repo_text};
ghost use Rattle.refinement.specs.Left.{Reads};
ghost use Rattle.operator.specs.Failing.{IsPlain};
ghost use Rattle.operator.specs.Printed.{ListsTokens, token_lines};
ghost use Rattle.operator.specs.Texts.{text_of};
ghost use Rattle.operator.specs.Tokens.{AreValid, token_cmp};

use crate::escapes::Destination;
use crate::faults::TaskFault;
use crate::lines::shown_token;
use crate::output::Lines;
use names::{Moment, RepoName, Sink};
use std::alloc::{AllocError, Global};
use std::cmp::Ordering;
use store::Store;
use tables::{StoreFault, TokenRow};

/// Whether the token is valid at the moment: its expiry is later.
fn is_valid(row: &TokenRow, now: Moment) -> bool
    ensures { result ≡ nat_lt now row.now.expires }
{
    now.get() < row.expires.get()
}

/// Keeps the tokens that are valid at the moment.
fn keep_valid(rows: &mut Vec<TokenRow>, now: Moment)
    ensures { rows.new.items ≡ filter (λ row. nat_lt now row.expires) rows.old.items }
{
    rows.retain(|row| is_valid(row, now));
}

/// Returns the tokens for the repository that are valid at the moment, in any order.
///
/// # Errors
///
/// `Refused` or `Memory`. The contents of the store are unchanged in any case.
pub(crate) fn valid_tokens<S: Store>(
    alloc: Global,
    store: &mut S,
    repo: &RepoName,
    now: Moment,
) -> Result<Vec<TokenRow>, StoreFault>
    ensures { Reads S.State store.old store.new (λ world.
        IfOk result (λ rows. AreValid (repo_text repo.now) now world rows.items)) }
{
    let mut rows = tokens::all(alloc, store, repo)?;
    keep_valid(&mut rows, now);
    Ok(rows)
}

/// The order of the list: that of users, then that of the moments of expiry, then that of digests.
fn compare(a: &TokenRow, b: &TokenRow) -> Ordering
    ensures { result ≡ token_cmp a.now b.now }
{
    a.user
        .as_str()
        .cmp(b.user.as_str())
        .then(a.expires.cmp(&b.expires))
        .then(a.digest.cmp(&b.digest))
}

fn sort(rows: &mut Vec<TokenRow>) -> Result<(), AllocError>
    ensures same { IsPermutation rows.old.items rows.new.items }
    ensures sorted { OnOk result (IsSorted token_cmp rows.new.items) }
{
    rows.sort_by(compare)
}

/// The tokens for the repository that are valid at the moment, in the order of the list.
fn listed_tokens<S: Store>(
    alloc: Global,
    store: &mut S,
    repo: &RepoName,
    now: Moment,
) -> Result<Vec<TokenRow>, StoreFault>
    ensures valid { Reads S.State store.old store.new (λ world.
        IfOk result (λ rows. AreValid (repo_text repo.now) now world rows.items)) }
    ensures sorted { IfOk result (λ rows. IsSorted token_cmp rows.items) }
{
    let mut rows = valid_tokens(alloc, store, repo, now)?;
    sort(&mut rows)?;
    Ok(rows)
}

/// A line for each token.
fn lines_of(alloc: Global, rows: &[TokenRow], destination: Destination) -> Result<Lines, AllocError>
    ensures { IfOk result (λ lines. text_of lines ≡ token_lines destination rows.now) }
{
    let mut lines = Lines::new(alloc);
    for row in rows {
        lines.push(shown_token(alloc, row, destination)?.as_slice())?;
    }
    Ok(lines)
}

/// Prints a line for each token for the repository that is valid at the moment, in the order of users, then of moments
/// of expiry, then of digests.
///
/// # Errors
///
/// `Store` and `Memory`, and `Output` if a line could not be written.
pub(crate) fn list_tokens<S: Store, K: Sink>(
    alloc: Global,
    store: &mut S,
    repo: &RepoName,
    now: Moment,
    destination: Destination,
    output: &mut K,
) -> Result<(), TaskFault>
    ensures reads { Reads S.State store.old store.new (λ world. OnOk result ((text : List ℕ)
        × ListsTokens destination (repo_text repo.now) now world text
        × Appends (K.taken output.old) (K.taken output.new) text)) }
    ensures good { OnOk result (K.failed output.new ≡ K.failed output.old) }
    ensures err { IfErr result IsPlain }
{
    let rows = listed_tokens(alloc, store, repo, now)?;
    lines_of(alloc, rows.as_slice(), destination)?.write(output)
}
