//! Pages of locks, and the walk from page to page.
//!
//! A client lists the locks of a repository a page at a time (Git LFS API, File Locking, "List
//! Locks"): the first locks from an id on, as many as its limit says, and the id at which the next page
//! begins. [`page`] reads the locks 64 rows at a time, and stops once it has the page and its next id;
//! [`split`] separates the locks of one user from the others.
#![tactic(auto)]

mod copies;
mod filters;
mod pages;
mod parameters;
mod splitting;
mod walks;
mod windows;

pub use copies::page_among;
pub use filters::Filter;
pub use pages::Page;
pub use parameters::{LONGEST_PAGE, USUAL_PAGE, read_cursor, read_limit};
pub use splitting::split;
pub use walks::walk_law;
pub use windows::page;
