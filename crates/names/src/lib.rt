//! The vocabulary of `custody`: the names in a request, the rules that refuse one, and where bytes come
//! from and go to.
//!
//! Users lock files and store large ones. This crate has the names that their requests use: a
//! repository, a user, a ref of Git, a path in the work tree, an object's SHA-256 and its size, a
//! lock's number, a moment. Each has a type, whose `read` accepts exactly the valid texts or numbers, so
//! a value of the type needs no further test. [`Rule`] has each reason for which the server refuses,
//! with its code and its status. [`Source`] and [`Sink`] are a connection, as the server uses it;
//! [`Counted`] makes one of any reader or writer of the standard library, and [`SliceSource`],
//! [`VecSink`] and [`FailAfter`] serve tests. [`Body`] is the body of one message.
//!
//! Only [`moment_text`] allocates memory, and [`VecSink`] as it grows.
#![tactic(auto)]

mod bodies;
mod civil;
mod counted;
mod limits;
mod memory;
mod numbers;
mod objects;
mod operations;
mod rules;
mod streams;
mod texts;
mod writing;

pub use bodies::{Body, BodyFault};
pub use civil::moment_text;
pub use counted::Counted;
pub use limits::{ALLOW_LIMIT, LARGEST_OBJECT};
pub use memory::{FailAfter, SliceSource, VecSink};
pub use numbers::{LockId, Moment};
pub use objects::{Oid, Size};
pub use operations::Operation;
pub use rules::Rule;
pub use streams::{DeviceFault, Sink, Source};
pub use texts::{LockPath, RefName, RepoName, UserName};
pub use writing::{WriteFault, write_whole};
