//! A server over an open store: what it does for the clients and the operators who call it.
//!
//! [`Server::run`] serves whoever a [`Machine`](machine::Machine) returns: the message of a client, or the command of an
//! operator. Its contract says what it does for each of them, and that it does nothing else.
#![tactic(auto)]

mod foreseeing;
mod operators;
mod outcomes;
mod pieces;
mod reply;
mod requests;
mod server;
mod turns;
mod waiting;

pub use foreseeing::{GivenMessage, message_in};
pub use requests::{access_question, plain_task, push_of, token_request};
pub use server::{Finish, Server};
