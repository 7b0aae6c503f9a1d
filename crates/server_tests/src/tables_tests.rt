//! Tests of `tables` on files of the machine. Its other tests are cases (`crates/cases`).

mod databases;
mod files;
