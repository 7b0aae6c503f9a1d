//! Whether a database has the same tables as another, row by row and content by content.
//!
//! A database is copied into a new one of another layout. What the copy did, and in how many runs, is not proved: before
//! the new database takes the name of the old one, [`is_same`] compares both, and only if they are the same does the new
//! one represent the world of the old one, as [`same_law`] says.
#![tactic(auto)]

mod chunks;
mod comparing;
mod keys;
mod laws;
mod rows;

pub use comparing::is_same;
pub use laws::same_law;
