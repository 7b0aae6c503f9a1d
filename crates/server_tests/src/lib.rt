//! Tests of the crates that need a database, through their public items.
//!
//! | Of | Module |
//! |---|---|
//! | `schema_compare` | `schema_compare_tests` |
//! | `tables` | `tables_tests` |
//! | `desk` | `desk_tests` |
//! | `service` | `service_tests` |
//!
//! `harness` and `server` have the helpers. A program over a database takes minutes to prove and to compile before its
//! first test: hence one crate for all of these. What a server answers to messages is in the crate `cases`, and the tests of the
//! whole program are in `program_tests`.
#![tactic(auto)]

#[cfg(test)]
mod desk_tests;
#[cfg(test)]
mod harness;
#[cfg(test)]
mod schema_compare_tests;
#[cfg(test)]
mod server;
#[cfg(test)]
mod service_tests;
#[cfg(test)]
mod tables_tests;
