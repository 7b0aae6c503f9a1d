//! How a server is, in the text format that Prometheus reads: what it has counted, what its machine knows of it, and what
//! its repositories store.
#![tactic(auto)]

mod status;

pub use status::{Counts, Gauges, Stored, Turn, status_text};
