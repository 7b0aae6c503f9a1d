//! Calls of the crates over a store, each by the words of a line, and what it returns as lines of text.
//!
//! For tests: `cases` makes them. Nothing is promised of this crate beyond what each call promises.
#![tactic(auto)]

mod fault;
mod lock_calls;
mod object_calls;
mod page_calls;
mod table_calls;
mod token_calls;
mod upload_calls;
mod words;

use chunks::{Arrival, Intake};
pub use fault::Fault;
use names::Moment;
use policy::Policy;
use std::alloc::Global;
use store::Store;
pub use table_calls::{create, migrate};
use tables::UploadId;
pub use words::{moment, number, oid, operation, repo, size, user, word};

/// What a call is given beside its words.
#[derive(Clone, Copy)]
pub struct Given<'g> {
    pub alloc: Global,
    /// The moment of the call.
    pub now: Moment,
    /// The policy, if there is one.
    pub policy: &'g Option<Policy>,
    /// The most bytes of a write, and the number of writes that succeed.
    pub most: usize,
    pub writes: u64,
}

/// What the calls of uploads so far have begun.
#[derive(Drop)]
pub struct Hands {
    /// The uploads, which the calls number from 1 on.
    pub(crate) uploads: Vec<UploadId>,
    pub(crate) intake: Option<Intake>,
    pub(crate) arrival: Option<Arrival>,
}

impl Hands {
    /// Nothing was begun.
    pub fn new(alloc: Global) -> Hands {
        Hands {
            uploads: Vec::new(alloc),
            intake: None,
            arrival: None,
        }
    }
}

/// Makes the call of this word, with the text after it. Returns its lines; `None` if no call has this word.
///
/// # Errors
///
/// `Store` if the store refuses, and `Memory` if memory runs out: each transaction of the call is then made whole or not at
/// all, so a call of several may have made some of them, and `Memory` may follow a call that was made. Another fault if the
/// words mean nothing to the call, or if what it returned contradicts another call.
pub fn call<S: Store>(
    given: &Given<'_>,
    store: &mut S,
    hands: &mut Hands,
    name: &str,
    text: &str,
) -> Result<Option<String>, Fault> {
    let words: Vec<&str> = text.split_whitespace().collect(given.alloc)?;
    let words = words.as_slice();
    if let Some(lines) = token_calls::call(given, store, name, words, text)? {
        return Ok(Some(lines));
    }
    if let Some(lines) = lock_calls::call(given, store, name, words)? {
        return Ok(Some(lines));
    }
    if let Some(lines) = page_calls::call(given, store, name, words, text)? {
        return Ok(Some(lines));
    }
    if let Some(lines) = upload_calls::call(given, store, hands, name, words)? {
        return Ok(Some(lines));
    }
    object_calls::call(given, store, hands, name, words)
}
