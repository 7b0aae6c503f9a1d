//! Issues tokens.

ghost use Rattle.std.specs.Prelude.{◌≡◌, ◌+◌, true, false, is_some, nat_le, Ok, IfOk, IsTrue, MatchOption, MatchResult, string_bytes};
ghost use Rattle.hex.specs.Hex.{encode_lower};
ghost use Rattle.names.specs.Texts.{last_moment, is_hex_64};
ghost use Rattle.model.specs.World.{find_token};
ghost use Rattle.model.specs.Operator.{token_verdict};
ghost use Rattle.refinement.specs.Left.{From, Reads};
ghost use Rattle.tokens.specs.Issuing.{Issues, Refuses, Keeps, Offers, denial_of, token_asked, token_until};
ghost use Rattle.tokens.specs.declared.issuing.TokenFault.TheVariants.{Store as by_store};

use crate::requests::TokenRequest;
use names::Moment;
use sha2::{Digest, Sha256};
use std::alloc::Global;
use store::Store;
use tables::{NewToken, StoreFault};
use thiserror::Error;

/// Why no token was issued. The tables are unchanged.
#[derive(Clone, Copy, Debug, PartialEq, Eq, Error)]
pub enum TokenFault {
    /// A token of these random bytes is already stored.
    #[error("K1: token already issued")]
    AlreadyIssued,
    /// It would expire after the last moment.
    #[error("K2: expiry out of range")]
    ExpiresTooLate,
    /// The store refused or memory ran out.
    #[error("{0}")]
    Store(StoreFault),
}

impl From<StoreFault> for TokenFault {
    ghost from_gives = { λ refused fault. fault ≡ by_store refused };

    fn from(fault: StoreFault) -> TokenFault {
        TokenFault::Store(fault)
    }
}

/// The text of the bytes: two hexadecimal digits for each.
fn text_of(alloc: Global, random: &[u8; 32]) -> Result<String, StoreFault>
    ensures text { IfOk result (λ text. string_bytes text ≡ encode_lower random.now) }
    ensures digits { IsTrue (is_hex_64 (encode_lower random.now)) }
{
    Ok(hex::encode(alloc, random.as_slice())?)
}

/// Whether a token of this text was issued.
fn is_known<S: Store>(store: &mut S, text: &str) -> Result<bool, StoreFault>
    ensures { Reads S.State store.old store.new (λ world.
        IfOk result (λ known. known ≡ is_some (find_token text.now world))) }
{
    let digest = Sha256::digest(text.as_bytes());
    Ok(store.token(&digest)?.is_some())
}

/// When the token expires; `None` if that is after the last moment.
fn expiry(now: Moment, seconds: u64) -> Option<Moment>
    ensures { MatchOption result
        (nat_le (now + seconds) last_moment ≡ false)
        (λ expires. (nat_le (now + seconds) last_moment ≡ true) × (expires ≡ now + seconds)) }
{
    Moment::read(now.get().checked_add(seconds)?)
}

/// Stores the token, unless one with its text is stored; returns whether it was stored.
fn keep<S: Store>(
    store: &mut S,
    asked: &TokenRequest<'_>,
    text: &str,
    expires: Moment,
) -> Result<bool, StoreFault>
    ensures { From S.State store.old store.new (λ world.
        Keeps S.State world asked.entry.now text.now expires store.old store.new result) }
{
    let digest = Sha256::digest(text.as_bytes());
    store.add_token(&NewToken {
        digest: &digest,
        user: asked.user,
        repo: asked.repo,
        operation: asked.operation,
        expires,
    })
}

/// When a token with this text, that of the random bytes, would expire; or why none may be issued.
fn judge<S: Store>(
    store: &mut S,
    asked: &TokenRequest<'_>,
    text: &str,
) -> Result<Moment, TokenFault>
    ensures { Reads S.State store.old store.new (λ world.
        text.now ≡ (token_asked asked.entry.now).text → MatchResult result
        (λ expires. token_verdict world (token_asked asked.entry.now)
        ≡ Ok (token_until asked.entry.now text.now expires))
        (λ fault. denial_of fault (token_verdict world (token_asked asked.entry.now)))) }
{
    if is_known(store, text)? {
        return Err(TokenFault::AlreadyIssued);
    }
    expiry(asked.now, asked.seconds).ok_or(TokenFault::ExpiresTooLate)
}

/// Returns the text of the token that [`issue`] would issue now, without storing it: the caller can
/// print the text before the token exists, so no token exists whose text nobody knows.
///
/// # Errors
///
/// Those of [`issue`].
pub fn offer<S: Store>(
    alloc: Global,
    store: &mut S,
    asked: &TokenRequest<'_>,
) -> Result<String, TokenFault>
    ensures { Reads S.State store.old store.new (λ world.
        MatchResult result
        (λ text. Offers world asked.entry.now (string_bytes text))
        (λ fault. denial_of fault (token_verdict world (token_asked asked.entry.now)))) }
{
    let text = text_of(alloc, asked.random)?;
    judge(store, asked, text.as_str())?;
    Ok(text)
}

/// Issues a token and returns its text. The store keeps only the SHA-256 of it. The text is made
/// before the token is stored.
///
/// # Errors
///
/// `AlreadyIssued` (K1) if a token of these random bytes is stored; `ExpiresTooLate` (K2) if it would
/// expire after the last moment; `Store`. They leave the tables unchanged.
pub fn issue<S: Store>(
    alloc: Global,
    store: &mut S,
    asked: &TokenRequest<'_>,
) -> Result<String, TokenFault>
    ensures { From S.State store.old store.new (λ world.
        MatchResult result
        (λ text. Issues S.State world store.old store.new asked.entry.now (string_bytes text))
        (λ fault. Refuses S.State world store.old store.new asked.entry.now fault)) }
{
    let text = text_of(alloc, asked.random)?;
    let expires = judge(store, asked, text.as_str())?;
    match keep(store, asked, text.as_str(), expires) {
        Ok(true) => Ok(text),
        Ok(false) => Err(TokenFault::AlreadyIssued),
        Err(fault) => Err(TokenFault::Store(fault)),
    }
}
