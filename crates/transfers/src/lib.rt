//! Objects that are sent to clients in parts, between which a server serves others.
#![tactic(auto)]

mod transfers;

pub use transfers::{Due, SentPart, Transfer, Transfers};
