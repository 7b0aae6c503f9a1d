//! What the tests share: the runtime, and results that have to be `Ok`.

use std::alloc::{Alloc, Global};
use std::process::Abort;

/// What a test needs of its runtime: memory, and a way to abort.
pub(crate) trait Tester: Abort + Alloc<A = Global> {}

impl<R: Abort + Alloc<A = Global>> Tester for R {}

/// Unwraps a result that has to be `Ok`.
pub(crate) fn unwrap<T, E>(rt: &impl Abort, answer: Result<T, E>) -> T {
    match answer {
        Ok(value) => value,
        Err(_) => panic!(rt; "an answer is an error"),
    }
}
