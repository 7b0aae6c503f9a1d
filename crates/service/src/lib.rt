//! The service reads requests from a connection, writes the replies, and makes the changes to the
//! store that the replies report.
//!
//! [`serve`] reads a client's messages one after the other, as they arrive, and answers them in order.
//! It writes each reply before it reads further.
#![tactic(auto)]

mod ends;
mod judging;
mod message;
mod reading;
mod refusals;
mod responding;
mod sending;
mod session;
mod turn;
mod underway;
mod uploading;

pub use desk::Terms;
pub use downloads::Download;
pub use ends::{Begun, End, Served};
pub use judging::{Denied, Target, route_of};
pub use message::{Asked, HeadFault, read_head, read_request};
pub use model::laws::run_law;
pub use reading::{LONGEST_MESSAGE, Message, MessageFault, read_message};
pub use routes::Routes;
pub use sending::send_reply;
pub use session::{begin, serve};
pub use underway::Upload;
pub use uploading::begin_upload;
