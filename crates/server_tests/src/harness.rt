//! What the tests share: the runtime, results that have to be `Ok`, names, and a store in memory.

use names::{LockPath, Moment, Oid, RefName, RepoName, UserName};
use sqlite::MemStore;
use std::alloc::{Alloc, Global};
use std::process::Abort;
use tables::{Layout, Store};

/// What a test needs of its runtime: memory, and a way to abort.
pub(crate) trait Tester: Abort + Alloc<A = Global> {}

impl<R: Abort + Alloc<A = Global>> Tester for R {}

/// Unwraps a result that has to be `Ok`.
pub(crate) fn unwrap<T, E>(rt: &impl Abort, answer: Result<T, E>) -> T {
    match answer {
        Ok(value) => value,
        Err(_) => panic!(rt; "an answer is an error"),
    }
}

/// A copy of the text.
pub(crate) fn owned(rt: &impl Tester, text: &str) -> String {
    unwrap(rt, text.to_owned(rt.alloc()))
}

/// The user of this text.
pub(crate) fn user(rt: &impl Tester, text: &str) -> UserName {
    unwrap(rt, UserName::read(owned(rt, text)).ok_or(()))
}

/// The repository of this text.
pub(crate) fn repo(rt: &impl Tester, text: &str) -> RepoName {
    unwrap(rt, RepoName::read(owned(rt, text)).ok_or(()))
}

/// The ref of this text.
pub(crate) fn ref_name(rt: &impl Tester, text: &str) -> RefName {
    unwrap(rt, RefName::read(owned(rt, text)).ok_or(()))
}

/// The object name of this text.
pub(crate) fn oid(rt: &impl Tester, text: &str) -> Oid {
    unwrap(rt, Oid::read(text.as_bytes()).ok_or(()))
}

/// The path of this text.
pub(crate) fn lock_path(rt: &impl Tester, text: &str) -> LockPath {
    unwrap(rt, LockPath::read(owned(rt, text)).ok_or(()))
}

/// The moment of this second.
pub(crate) fn moment(rt: &impl Tester, second: u64) -> Moment {
    unwrap(rt, Moment::read(second).ok_or(()))
}

/// A new store in memory, with the tables of this layout.
pub(crate) fn in_memory(rt: &impl Tester, layout: Layout) -> Store<MemStore> {
    let mut store = unwrap(rt, Store::open_memory(rt.alloc()));
    unwrap(rt, store.create_or_check(rt.alloc(), layout));
    store
}
