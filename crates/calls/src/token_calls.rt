//! Calls of `tokens`.

use crate::Given;
use crate::fault::Fault;
use crate::words::{count, moment, number, operation, repo, user, word};
use names::{Moment, Operation};
use sha2::{Digest, Sha256};
use std::alloc::Global;
use store::Store;
use tables::{NewToken, TokenRow};
use tokens::{CallerFault, TokenFault, TokenRequest};

/// The word of the operation.
fn operation_word(operation: Operation) -> &'static str {
    match operation {
        Operation::Download => "download",
        Operation::Upload => "upload",
    }
}

/// Stores a token: its letter, of which its text has 64, its user, its repository, its operation, and its expiry.
fn add<S: Store>(alloc: Global, store: &mut S, words: &[&str]) -> Result<String, Fault> {
    let letter = word(words, 0)?.bytes().next().unwrap_or(0);
    let user = user(alloc, word(words, 1)?)?;
    let repo = repo(alloc, word(words, 2)?)?;
    let operation = operation(word(words, 3)?)?;
    let expires = moment(word(words, 4)?)?;
    let is_new = store.add_token(&NewToken {
        digest: &Sha256::digest(&[letter; 64]),
        user: &user,
        repo: &repo,
        operation,
        expires,
    })?;
    let line = if is_new { "" } else { "known\n" };
    Ok(line.to_owned(alloc)?)
}

/// The text of a token, or why it is refused.
fn text_of(alloc: Global, answer: Result<String, TokenFault>) -> Result<String, Fault> {
    match answer {
        Ok(text) => Ok(format!(in alloc; "{text}\n")?),
        Err(TokenFault::Store(fault)) => Err(fault.into()),
        Err(fault) => Ok(format!(in alloc; "{fault}\n")?),
    }
}

/// Issues a token, or offers it: the byte of which its random bytes have 32, its user, its repository, its operation, and
/// its lifetime in seconds.
fn issue<S: Store>(
    alloc: Global,
    now: Moment,
    store: &mut S,
    words: &[&str],
    is_offer: bool,
) -> Result<String, Fault> {
    let Ok(byte) = u8::from_str_radix(word(words, 0)?, 16) else {
        return Err(Fault::Script("a byte has two hexadecimal digits"));
    };
    let user = user(alloc, word(words, 1)?)?;
    let repo = repo(alloc, word(words, 2)?)?;
    let asked = TokenRequest {
        user: &user,
        repo: &repo,
        operation: operation(word(words, 3)?)?,
        now,
        seconds: number(word(words, 4)?)?,
        random: &[byte; 32],
    };
    if is_offer {
        text_of(alloc, tokens::offer(alloc, store, &asked))
    } else {
        text_of(alloc, tokens::issue(alloc, store, &asked))
    }
}

/// The caller whom a field names, or the rule that refuses it.
fn caller<S: Store>(
    given: &Given<'_>,
    store: &mut S,
    field: Option<&[u8]>,
) -> Result<String, Fault> {
    let alloc = given.alloc;
    match tokens::caller(store, field, given.now) {
        Ok(caller) => {
            let (user, repo) = (caller.user.as_str(), caller.repo.as_str());
            let operation = operation_word(caller.operation);
            let expires = caller.expires.get();
            Ok(format!(in alloc; "{user} {repo} {operation} {expires}\n")?)
        }
        Err(CallerFault::Rule(rule)) => Ok(format!(in alloc; "{rule}\n")?),
        Err(CallerFault::Store(fault)) => Err(fault.into()),
    }
}

/// The lines of tokens.
fn lines(alloc: Global, rows: &[TokenRow]) -> Result<String, Fault> {
    let mut text = String::new(alloc);
    for row in rows.iter() {
        let digest = hex::encode(alloc, row.digest.as_slice())?;
        let (user, operation) = (row.user.as_str(), operation_word(row.operation));
        let expires = row.expires.get();
        let line = format!(in alloc; "{digest} {user} {operation} {expires}\n")?;
        text.push_str(line.as_str())?;
    }
    Ok(text)
}

/// The tokens of a user for a repository.
fn of_user<S: Store>(alloc: Global, store: &mut S, words: &[&str]) -> Result<String, Fault> {
    let user = user(alloc, word(words, 0)?)?;
    let repo = repo(alloc, word(words, 1)?)?;
    lines(alloc, tokens::of(alloc, store, &user, &repo)?.as_slice())
}

/// The tokens of all users for a repository.
fn of_all<S: Store>(alloc: Global, store: &mut S, words: &[&str]) -> Result<String, Fault> {
    let repo = repo(alloc, word(words, 0)?)?;
    lines(alloc, tokens::all(alloc, store, &repo)?.as_slice())
}

/// Makes the call of this word, if it is one about tokens.
pub(crate) fn call<S: Store>(
    given: &Given<'_>,
    store: &mut S,
    name: &str,
    words: &[&str],
    text: &str,
) -> Result<Option<String>, Fault> {
    let alloc = given.alloc;
    Ok(Some(match name {
        "token" => add(alloc, store, words)?,
        "issue" => issue(alloc, given.now, store, words, false)?,
        "offer" => issue(alloc, given.now, store, words, true)?,
        "prune" => count(alloc, tokens::prune(store, given.now)?)?,
        "caller" => caller(given, store, Some(text.as_bytes()))?,
        "no-caller" => caller(given, store, None)?,
        "tokens-of" => of_user(alloc, store, words)?,
        "tokens-in" => of_all(alloc, store, words)?,
        _ => return Ok(None),
    }))
}
