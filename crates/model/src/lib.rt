//! The definitions that every contract of the workspace cites: what the server stores, what a policy
//! allows, what a request asks for, how it is answered, and what a connection is sent.
//!
//! They are in `specs/`, one file a subject, in the order in which they are best read: Reading, Policy,
//! World, Orders, RepoState, Forms, Heads, Callers, Cases, Answers, Pages, Locks, Objects, Batch, Verdict,
//! Operator, Steps, Moments, Replies, Stream, Sessions, Views, Bounds. What follows from them, by proof, is
//! on the contracts of [`laws`] and [`examples`], whose functions do nothing when they run. Progress is for
//! the proofs of the crates above.
#![tactic(auto)]

pub mod examples;
pub mod laws;

/// What a policy row may allow or deny.
#[derive(Clone, Copy, Debug, PartialEq, Eq, Hash)]
pub enum Right {
    /// Download objects, and learn that the repository exists.
    Pull,
    /// Upload objects.
    Push,
    /// See locks.
    List,
    /// Lock a path, and release one's own lock.
    Lock,
    /// Release another user's lock.
    Force,
}

/// Whether a policy row allows or denies what it matches.
#[derive(Clone, Copy, Debug, PartialEq, Eq, Hash)]
pub enum Effect {
    /// What the row matches is allowed.
    Allow,
    /// What the row matches is denied.
    Deny,
}

/// The form of a request, from its route and its method.
#[derive(Clone, Copy, Debug, PartialEq, Eq, Hash)]
pub enum Form {
    /// How to download or upload some objects.
    Batch,
    /// The content of an object.
    Get,
    /// Upload an object.
    Put,
    /// Whether an object is stored.
    Verify,
    /// Lock a path.
    Lock,
    /// A list of locks.
    List,
    /// The locks of a ref, one's own apart.
    VerifyLocks,
    /// Release a lock.
    Unlock,
}
