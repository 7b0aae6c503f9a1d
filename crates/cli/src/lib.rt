//! The commands of `custody`.
//!
//! [`run`] is the whole program over its arguments and its streams. It returns the exit status: 0 for
//! success, 1 for a refusal, 2 for invalid arguments. `main` passes the machine's arguments and streams.
#![tactic(auto)]

mod address;
mod beside;
mod copying;
mod explaining;
mod inputs;
mod migrating;
mod noting;
mod opening;
mod operating;
mod output;
mod policy_command;
mod policy_lines;
mod program;
mod progress;
mod quiet;
mod reading;
mod serve;
mod session;
mod starts;
mod via;

pub use address::{Outlet, ServerAddress, ServerConnection, ServerSocket, SocketOutlet};
pub use command_line::ServeArgs;
pub use operator::Destination;
pub use output::Flushed;
pub use program::{Environment, refuse_args, run};
pub use reading::size_text;
pub use serve::{Listeners, serve_listeners};
pub use starts::Starts;
pub use via::{Question, ask_at, print_reply, request_of};
