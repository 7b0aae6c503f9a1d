//! Requests from JSON and queries, and replies as JSON (Git LFS API, Batch, Basic Transfers and File
//! Locking; RFC 8259; URL Standard, `application/x-www-form-urlencoded`).
//!
//! A client sends the objects of a batch, or the path that it wants to lock, as a JSON text, the filters
//! of a list as a query, and the id of a lock to release, or the name of an object to download or upload,
//! in the path of the target. [`read_form`] reads them and returns a [`Request`] of typed names, or the
//! rule that refuses it: J1 if a body has the wrong shape, J2 if it has the right one and a value is out
//! of range, J3 if a batch has too many objects, J4 if it cannot be transferred by `basic`. The content
//! of an upload is no part of its request. In the other direction, an [`Answer`] gives its status and
//! its JSON text: the objects of a batch with their actions, a lock that was made or released, the lock
//! that already holds the path, a page of locks, or the rule or policy row that refuses. An [`Action`]
//! is the JSON for an address and the token for requests to it.
//!
//! This crate does not read the store, and both directions fail only if memory runs out.
#![tactic(auto)]

mod action;
mod answer;
mod batch;
mod body;
mod links;
mod list;
mod lock;
mod objects;
mod offers;
mod page;
mod query;
mod refusal;
mod request;
mod shown_lock;
mod unlock;
mod verify_locks;

pub use action::Action;
pub use answer::{Answer, DenialStatus};
pub use batch::{BatchObject, BatchRequest, OBJECT_LIMIT};
pub use list::ListRequest;
pub use lock::LockRequest;
pub use model::Form;
pub use objects::{GetRequest, PutRequest, VerifyRequest};
pub use offers::{Actions, Links, Offer, ShownBatch};
pub use page::{ShownPage, SplitPage};
pub use request::{Request, read_form};
pub use shown_lock::ShownLock;
pub use unlock::UnlockRequest;
pub use verify_locks::VerifyLocksRequest;
