//! The objects of a world, and the uploads that become objects. The calls begin, complete and remove uploads, and find
//! objects, as the definitions have them: each says which object of the world it found, or which world the store holds
//! after it. An object can be removed for good; its name is then retired.
//!
//! An upload that is begun is staged: it is not part of the world, whatever bytes of it are stored. Once all its bytes
//! have arrived, with the name and the size with which it was begun, it is completed: then it is an object of the world.
#![tactic(auto)]

mod beginning;
mod completing;
mod finding;
mod laws;
mod removing;
mod retiring;

pub use beginning::begin;
pub use completing::{Kept, UploadFault, complete};
pub use finding::{all, find, is_retired, retired, used};
pub use laws::bound_law;
pub use removing::{abandon, sweep};
pub use retiring::{Retired, retire};
pub use tables::{ObjectRow as Object, UploadRow as Stored};
