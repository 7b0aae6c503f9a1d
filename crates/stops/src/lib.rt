//! What a stop of the program leaves in its files: the worlds that the calls between an opening and the stop leave of the
//! opened world. Nothing here runs; the calls close a store, and their contracts are the laws.
#![tactic(auto)]

mod laws;

pub use laws::{reopening_law, reopening_law_beside};
