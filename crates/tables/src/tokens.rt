//! The calls on tokens.

ghost use Rattle.std.specs.Prelude.{◌≡◌, not, pos, length, find, filter};
ghost use Rattle.names.specs.Names.{user_text, repo_text};
ghost use Rattle.tables.specs.Statements.{has_digest, is_held_by, is_for, has_expired, with_token, without_expired};
ghost use Rattle.tables.specs.Calls.{Says, Does, Transacts};
ghost use Rattle.tables.specs.Steps.{IsTokenOf, AreTokensOf, asked_token, has_token, after_add};
ghost use Rattle.tables.specs.Shown.{Reads, Changes};

use crate::Store;
use crate::fault::StoreFault;
use crate::new_rows::NewToken;
use crate::read::{read, select};
use crate::rows::{TokenRow, all_tokens, code_of, first_token, second_of};
use crate::write::{change, finish_with};
use names::{Moment, RepoName, UserName};
use sqlite::{Alter, Connection, Error, Transaction, params};
use std::alloc::Global;

/// Whether no token has this digest.
fn is_free<S: Alter>(tx: &mut Transaction<'_, S>, digest: &[u8]) -> Result<bool, Error>
    ensures same_reference { tx.new.conn.ghost_name ≡ tx.old.conn.ghost_name }
    ensures value { Says S.Store tx.old.conn.now tx.new.conn.now result
        (λ t free. has_token digest.now t ≡ not free) }
    ensures does { Does S.Store tx.old.conn.now tx.new.conn.now result (λ t. t) }
{
    let rows = select(
        tx,
        "SELECT digest, user, repo, op, expires FROM tokens WHERE digest = ?1 ORDER BY rowid",
        params![digest],
    )?;
    Ok(rows.is_empty())
}

fn token_into<S: Alter>(tx: &mut Transaction<'_, S>, token: &NewToken<'_>) -> Result<usize, Error>
    ensures same_reference { tx.new.conn.ghost_name ≡ tx.old.conn.ghost_name }
    ensures does { Does S.Store tx.old.conn.now tx.new.conn.now result
        (with_token (asked_token token.now)) }
{
    change(
        tx,
        "INSERT INTO tokens (digest, user, repo, op, expires) VALUES (?1, ?2, ?3, ?4, ?5)",
        params![
            token.digest.as_slice(),
            token.user.as_str(),
            token.repo.as_str(),
            code_of(token.operation),
            second_of(token.expires)
        ],
    )
}

/// Stores the token, unless one with its digest is stored.
fn add_into<S: Alter>(tx: &mut Transaction<'_, S>, token: &NewToken<'_>) -> Result<bool, Error>
    ensures same_reference { tx.new.conn.ghost_name ≡ tx.old.conn.ghost_name }
    ensures value { Says S.Store tx.old.conn.now tx.new.conn.now result
        (λ t added. has_token token.now.digest.now t ≡ not added) }
    ensures does { Does S.Store tx.old.conn.now tx.new.conn.now result
        (after_add (asked_token token.now)) }
{
    if !is_free(tx, token.digest.as_slice())? {
        return Ok(false);
    }
    token_into(tx, token)?;
    Ok(true)
}

#[tactic(auto, using(crate::proofs::Calls::led))]
fn add<S: Alter>(conn: &mut Connection<S>, token: &NewToken<'_>) -> Result<bool, StoreFault>
    ensures { Transacts S.Store conn.old conn.new result (after_add (asked_token token.now))
        (λ t added. has_token token.now.digest.now t ≡ not added) }
{
    if !conn.is_autocommit() {
        return Err(StoreFault::Refused);
    }
    let mut tx = conn.transaction();
    let added = add_into(&mut tx, token)?;
    finish_with(tx, added)
}

fn remove_expired_into<S: Alter>(
    tx: &mut Transaction<'_, S>,
    moment: Moment,
) -> Result<usize, Error>
    ensures same_reference { tx.new.conn.ghost_name ≡ tx.old.conn.ghost_name }
    ensures count { Says S.Store tx.old.conn.now tx.new.conn.now result
        (λ t n. n ≡ length (filter (has_expired (pos moment)) t.tokens)) }
    ensures does { Does S.Store tx.old.conn.now tx.new.conn.now result
        (without_expired (pos moment)) }
{
    change(
        tx,
        "DELETE FROM tokens WHERE expires <= ?1",
        params![second_of(moment)],
    )
}

#[tactic(auto, using(crate::proofs::Calls::led))]
fn remove_expired<S: Alter>(conn: &mut Connection<S>, moment: Moment) -> Result<usize, StoreFault>
    ensures { Transacts S.Store conn.old conn.new result (without_expired (pos moment))
        (λ t n. n ≡ length (filter (has_expired (pos moment)) t.tokens)) }
{
    if !conn.is_autocommit() {
        return Err(StoreFault::Refused);
    }
    let mut tx = conn.transaction();
    let removed = remove_expired_into(&mut tx, moment)?;
    finish_with(tx, removed)
}

impl<S: Alter> Store<S> {
    /// Returns the token with this digest, if one is stored.
    ///
    /// # Errors
    ///
    /// `Refused` or `Memory`. The tables are unchanged in any case.
    pub fn token(&mut self, digest: &[u8; 32]) -> Result<Option<TokenRow>, StoreFault>
        ensures { Reads S.Store self.old self.new result
            (λ t found. IsTokenOf found (find (has_digest digest.now) t.tokens)) }
    {
        let rows = read(
            &mut self.conn,
            "SELECT digest, user, repo, op, expires FROM tokens WHERE digest = ?1 ORDER BY rowid",
            params![digest.as_slice()],
        )?;
        first_token(rows.as_slice())
    }

    /// Returns all tokens of the user in the repository, in the order in which they were added.
    ///
    /// # Errors
    ///
    /// `Refused` or `Memory`. The tables are unchanged in any case.
    pub fn tokens_of(
        &mut self,
        alloc: Global,
        user: &UserName,
        repo: &RepoName,
    ) -> Result<Vec<TokenRow>, StoreFault>
        ensures { Reads S.Store self.old self.new result
            (λ t found. AreTokensOf found.items
            (filter (is_held_by (user_text user.now) (repo_text repo.now)) t.tokens)) }
    {
        let rows = read(
            &mut self.conn,
            "SELECT digest, user, repo, op, expires FROM tokens WHERE user = ?1 AND repo = ?2 ORDER BY rowid",
            params![user.as_str(), repo.as_str()],
        )?;
        all_tokens(alloc, rows.as_slice())
    }

    /// Returns all tokens for the repository, in the order in which they were added.
    ///
    /// # Errors
    ///
    /// `Refused` or `Memory`. The tables are unchanged in any case.
    pub fn tokens_in(&mut self, alloc: Global, repo: &RepoName) -> Result<Vec<TokenRow>, StoreFault>
        ensures { Reads S.Store self.old self.new result
            (λ t found. AreTokensOf found.items (filter (is_for (repo_text repo.now)) t.tokens)) }
    {
        let rows = read(
            &mut self.conn,
            "SELECT digest, user, repo, op, expires FROM tokens WHERE repo = ?1 ORDER BY rowid",
            params![repo.as_str()],
        )?;
        all_tokens(alloc, rows.as_slice())
    }

    /// Adds a token, unless one with its digest is stored. Returns whether it was added.
    ///
    /// # Errors
    ///
    /// `Refused` or `Memory`. The tables are unchanged, but a stop may still leave the change.
    pub fn add_token(&mut self, token: &NewToken<'_>) -> Result<bool, StoreFault>
        ensures { Changes S.Store self.old self.new result (after_add (asked_token token.now))
            (λ t added. has_token token.now.digest.now t ≡ not added) }
    {
        add(&mut self.conn, token)
    }

    /// Removes the tokens that have expired at this moment, and returns their number.
    ///
    /// # Errors
    ///
    /// `Refused` or `Memory`. The tables are unchanged, but a stop may still leave the change.
    pub fn remove_expired(&mut self, moment: Moment) -> Result<usize, StoreFault>
        ensures { Changes S.Store self.old self.new result (without_expired (pos moment))
            (λ t n. n ≡ length (filter (has_expired (pos moment)) t.tokens)) }
    {
        remove_expired(&mut self.conn, moment)
    }
}
