//! A stream of bytes as the chunks of an upload, with the name of its bytes.
//!
//! No object is in memory whole: an [`Intake`] has the hash of the bytes so far (SHA-256, FIPS 180-4) and the bytes of
//! one chunk that is not full yet.
#![tactic(auto)]

mod intake;
mod portions;
mod pouring;
mod verifying;

pub use intake::{Arrival, Intake};
pub use portions::portion;
pub use pouring::{PourCause, PourFault, pour};
pub use verifying::is_whole;
