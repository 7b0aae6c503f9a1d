//! A store whose contents are in a file beside its database.
#![tactic(auto)]

mod beginning;
mod calls;
mod completing;
mod fault;
mod listed;
mod opening;
mod place;
mod placed;
mod portions;
mod reading;
mod receiving;
mod removal;
mod staged;

pub use fault::PlaceFault;
pub use place::{PLACE_NUMBER, place_of, region_in};
pub use placed::Placed;
