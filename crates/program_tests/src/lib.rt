//! Tests of `cli`: the whole program, over its arguments and its streams, with the expected output written out.
//!
//! Most of them are transcripts, which one function plays, since each line of code in a test is proved, and a line of a
//! text is not. `harness`, `program` and `transcript` have the helpers.
#![tactic(auto)]

#[cfg(test)]
mod channel;
#[cfg(test)]
mod commands;
#[cfg(test)]
mod control_sockets;
#[cfg(test)]
mod explaining;
#[cfg(test)]
mod foreseeing;
#[cfg(test)]
mod harness;
#[cfg(test)]
mod issued;
#[cfg(test)]
mod large_objects;
#[cfg(test)]
mod lock_requests;
#[cfg(test)]
mod machines;
#[cfg(test)]
mod messages;
#[cfg(test)]
mod migrating;
#[cfg(test)]
mod operator_commands;
#[cfg(test)]
mod policies;
#[cfg(test)]
mod policy_command;
#[cfg(test)]
mod program;
#[cfg(test)]
mod queues;
#[cfg(test)]
mod retiring;
#[cfg(test)]
mod serving;
#[cfg(test)]
mod sessions;
#[cfg(test)]
mod streams;
#[cfg(test)]
mod transcript;
