//! Objects that are sent in parts, between which other calls of the store may be made.
#![tactic(auto)]

mod download;

pub use download::Download;
