//! One lock a path. The calls find, make and remove locks as the definitions have them: each says which
//! lock of the world it found, or which world the store holds after it.
//!
//! A lock has an id, counted from 1 in its repository and never used again. Two locks of a repository
//! differ in their id, and two of one ref of it in their path.
#![tactic(auto)]

mod creating;
mod finding;
mod removing;

pub use creating::{LockFault, create};
pub use finding::{all, at, get, made, window};
pub use removing::remove;
pub use tables::{LockRow as Lock, NewLock};
