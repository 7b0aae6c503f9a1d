//! The tokens of a server: its operator issues them, and removes the expired ones.
//!
//! A client sends the text of its token with each request (RFC 6750). [`issue`] makes that text from
//! random bytes and stores only its SHA-256; [`offer`] returns the text and stores nothing. [`caller`]
//! returns the caller of a request, [`of`] a user's tokens, and [`all`] those of a repository. [`prune`] removes the
//! expired tokens.
#![tactic(auto)]

mod bearers;
mod callers;
mod holding;
mod issuing;
mod pruning;
mod requests;

pub use bearers::{bearer, caller, digest_of};
pub use callers::{Caller, CallerFault};
pub use holding::{all, of};
pub use issuing::{TokenFault, issue, offer};
pub use names::Operation as Op;
pub use pruning::prune;
pub use requests::TokenRequest;
pub use tables::TokenRow as Token;
