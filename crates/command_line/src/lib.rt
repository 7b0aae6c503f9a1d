//! The command line of `custody`: its commands and options with their help, and their arguments as typed values.
//!
//! [`read_args`] parses the arguments of the program. A command for a running server is sent as its words:
//! [`OperatorCommand::words`] returns them, and [`OperatorCommand::read`] returns the command that has them.
#![tactic(auto)]

mod args;
mod commands;
mod faults;
mod flags;
mod operator_commands;
mod parameters;
mod policy_args;
mod server_commands;
mod words;

pub use args::{
    Command, Files, ForeseeArgs, MayArgs, MigrateArgs, OperatorCommand, PushArgs, RetireArgs,
    ServeArgs, SessionArgs, Target, TokenArgs, TokensArgs, read_args,
};
pub use faults::ArgsFault;
pub use flags::{is_given, with_server};
pub use parameters::RANDOM;
pub use policy_args::{AskedQuestion, PolicyArgs, PolicyTask};
