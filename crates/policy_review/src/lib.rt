//! What an author meant: where a fault of a policy file is and how to correct it, and what is dubious in a file without a
//! fault.
//!
//! [`problem_in`] finds the line of a fault and the text that is wrong. [`warnings`] lists what a policy says and its
//! author probably did not mean. [`asked_by`] names the requests that ask a right.
#![tactic(auto)]

mod asking;
mod doubts;
mod found;
mod lines;
mod problems;
mod sections;
mod warning_list;

pub use asking::asked_by;
pub use doubts::{EntryDoubt, RightDoubt};
pub use problems::{Problem, problem_in};
pub use warning_list::{Warning, warnings};
