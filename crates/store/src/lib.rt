//! The calls on the tables, whatever form the files of a store have: what each returns, which step of the tables it
//! makes, and what a stop leaves. Everything above works on a [`Store`]; [`tables::Store`] is one, over a database alone.
#![tactic(auto)]

mod content;
mod database;
mod listed;
mod numbered;
mod read_fault;
mod restored;
mod room;
mod state;
mod store;

pub use content::ChunkContent;
pub use listed::Listed;
pub use numbered::Numbered;
pub use read_fault::ReadFault;
pub use restored::Restored;
pub use room::Room;
pub use state::State;
pub use store::Store;
