//! The desk: takes one request, returns one reply, and changes the store in one step.
#![tactic(auto)]

mod admission;
mod answering;
mod batching;
mod cases;
mod checking;
mod downloading;
mod foreseeing;
mod listing;
mod locking;
mod outcomes;
mod pages;
mod readers;
mod receiving;
mod replies;
mod rights;
mod sight;
mod slices;
mod store_reader;
mod unlocking;
mod uploading;
mod verifying;
mod view_reader;
mod viewing;
mod views;

pub use admission::RepoRequest;
pub use answering::answer;
pub use batching::batch_objects;
pub use foreseeing::{ForeseeFault, foresee};
pub use names::{Body, BodyFault};
pub use replies::{Reply, ReplyBody};
pub use slices::{Receiving, Terms, begin_upload, finish};
pub use viewing::view;
pub use views::{ObjectSize, OwnToken, View};
