//! Finds the caller: the token in a request, and its row in the store (RFC 6750).

ghost use Rattle.std.specs.Prelude.{◌≡◌, option_map, Some, None, if◌then◌else◌};
ghost use Rattle.std.specs.List.{list_all};
ghost use Rattle.sha2.specs.Sha256.{sha256};
ghost use Rattle.model.specs.Callers.{bearer, is_visible};
ghost use Rattle.refinement.specs.Left.{Reads};
ghost use Rattle.tokens.specs.Bearers.{single_value};
ghost use Rattle.tokens.specs.Callers.{IsCalling};

use crate::callers::{Caller, CallerFault, good_at};
use names::{Moment, Rule};
use sha2::{Digest, Sha256};
use store::Store;

fn is_visible(byte: u8) -> bool
    ensures { result ≡ is_visible byte }
{
    (0x21..=0x7e).contains(&byte)
}

fn are_visible(text: &[u8]) -> bool
    ensures { result ≡ list_all is_visible text.now }
{
    text.iter().copied().all(is_visible)
}

/// The bytes as a text, if each of them is visible.
fn visible_text(bytes: &[u8]) -> Option<&str>
    ensures { option_map (λ text. text.now) result ≡ (if list_all is_visible bytes.now then Some bytes.now else None) }
{
    if !are_visible(bytes) {
        return None;
    }
    match str::from_utf8(bytes) {
        Ok(text) => Some(text),
        Err(_) => None,
    }
}

/// The token's text in the value of a field.
fn bearer_in(value: &[u8]) -> Option<&str>
    ensures { option_map (λ text. text.now) result ≡ bearer (single_value (Some value.now)) }
{
    let (scheme, text) = value.split_at(value.len().min(7));
    if scheme.eq_ignore_ascii_case(b"bearer ") && !text.is_empty() {
        visible_text(text)
    } else {
        None
    }
}

/// Returns the text of the token in the value of an `Authorization` field: `Bearer` in any case, one space, and one or more
/// visible characters. `None` if there is no value, or it has another form.
pub fn bearer<'t>(authorization: Option<&'t [u8]>) -> Option<&'t str>
    ensures { option_map (λ text. text.now) result
        ≡ bearer (single_value (option_map (λ v. v.now) authorization.entry)) }
{
    match authorization {
        Some(value) => bearer_in(value),
        None => None,
    }
}

/// Returns the SHA-256 of the text of a token, under which it is stored.
pub fn digest_of(text: &str) -> [u8; 32]
    ensures { result ≡ sha256 text.now }
{
    Sha256::digest(text.as_bytes())
}

/// Returns the caller for the value of the `Authorization` field. The store is only read.
///
/// # Errors
///
/// `Rule` of A1 if the value has no token, of A2 if the store has no such token, of A3 if the token has expired; `Store`
/// of `Refused` or `Memory`.
pub fn caller<'t, S: Store>(
    store: &mut S,
    authorization: Option<&'t [u8]>,
    now: Moment,
) -> Result<Caller<'t>, CallerFault>
    ensures { Reads S.State store.old store.new (λ world.
        IsCalling world now (single_value (option_map (λ v. v.now) authorization.entry)) result) }
{
    let Some(text) = bearer(authorization) else {
        return Err(CallerFault::Rule(Rule::A1));
    };
    let Some(token) = store.token(&digest_of(text))? else {
        return Err(CallerFault::Rule(Rule::A2));
    };
    good_at(text, token, now)
}
