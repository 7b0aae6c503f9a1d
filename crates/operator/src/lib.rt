//! The commands of an operator, over an open database: tokens are issued and removed, locks, objects, tokens and what
//! each repository uses are listed, Git is let in or not, the paths of a push are checked, replies are foreseen, objects
//! are hashed again, and uploads that were not completed, objects that may not be kept, and objects that are damaged, are
//! removed.
//!
//! A [`Task`] is a command whose words, files and input were read. [`Task::run`] writes what the command prints. It is
//! the same over a database that was opened for the command, and over one that a running server has open.
#![tactic(auto)]

mod checking;
mod columns;
mod counting;
mod escapes;
mod faults;
mod foreseeing;
mod inspecting;
mod issuing;
mod lines;
mod listing_locks;
mod listing_objects;
mod listing_tokens;
mod listing_usage;
mod output;
mod paths;
mod permitting;
mod pruning;
mod pushing;
mod retiring;
mod sweeping;
mod tasks;

pub use escapes::{Destination, shown};
pub use faults::TaskFault;
pub use foreseeing::Foresight;
pub use inspecting::{Advance, Inspection, Purpose};
pub use issuing::repo_at;
pub use output::{Lines, print};
pub use paths::{LONGEST_PATHS, PathsFault, paths_in};
pub use permitting::AccessQuestion;
pub use pushing::Push;
pub use tasks::Task;
