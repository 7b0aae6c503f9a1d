//! Contents in one file: where each is, and how it is written, kept and read.
//!
//! A content is in a [`Region`] of the file. [`Regions`] are those in use, none of which has a byte in common with
//! another, and find room for a new one. A [`Draft`] is a content that is being written into its region: what is
//! appended follows what is written, and [`Draft::finish`] returns the region after a sync, so that a row may name it.
//! [`read`] reads a finished content, and [`trim`] cuts the file after the last region. All of it is over any
//! `Disk`, and nothing here has the name of a file.
#![tactic(auto)]

mod draft;
mod fault;
mod file;
mod region;
mod regions;

pub use draft::Draft;
pub use fault::ContentsFault;
pub use file::{read, sync, trim};
pub use region::Region;
pub use regions::{LARGEST_END, Regions};
