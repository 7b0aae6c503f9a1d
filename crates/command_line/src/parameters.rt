//! The options and arguments of a command, as tables describe them and as `clap` takes them.

use clap::{Arg, ArgAction, Command};
use std::alloc::{AllocError, Global};

/// How a parameter is given, and when it has to be.
#[derive(Clone, Copy, Debug, PartialEq, Eq)]
pub(crate) enum Kind {
    /// An option that is required.
    Required,
    /// An option that may be left out.
    Optional,
    /// An option for a file: it is required, unless the socket is given.
    File,
    /// The option for the file of random bytes, which has a default.
    Random,
    /// The option for the socket of a server, in place of all files.
    Socket,
    /// An option that is part of a question, and requires the user, the repository and the right.
    Question,
    /// A flag, in place of a question.
    Flag,
    /// A flag that goes with all other parameters.
    Switch,
    /// An argument without a name, which is required.
    Argument,
    /// The same for the operation of a token, which has two values.
    Operation,
    /// The same for what Git asks for, which has two values.
    Access,
}

/// An option or an argument of a command.
#[derive(Clone, Copy, Debug)]
pub(crate) struct Parameter {
    pub name: &'static str,
    /// What the help calls its value.
    pub value_name: &'static str,
    pub help: &'static str,
    pub kind: Kind,
}

/// The file that random bytes are read from, if no other is given.
pub const RANDOM: &str = "/dev/urandom";

/// The two operations of a token.
pub(crate) const DOWNLOAD: &str = "download";

pub(crate) const UPLOAD: &str = "upload";

/// What Git may ask for.
pub(crate) const PULL: &str = "pull";

pub(crate) const PUSH: &str = "push";

/// The name of the option for the socket.
const VIA: &str = "via";

/// The argument for the parameter, without what its kind adds.
fn plain_arg<'a>(alloc: Global, parameter: &Parameter) -> Arg<'a> {
    Arg::new(alloc, parameter.name).help(parameter.help)
}

/// An option with a value.
fn option<'a>(alloc: Global, parameter: &Parameter) -> Arg<'a> {
    plain_arg(alloc, parameter)
        .long(parameter.name)
        .value_name(parameter.value_name)
}

/// An argument without a name, which is required.
fn argument<'a>(alloc: Global, parameter: &Parameter) -> Arg<'a> {
    plain_arg(alloc, parameter)
        .value_name(parameter.value_name)
        .required(true)
}

/// An option for a file, which is required, unless the socket is given.
fn file<'a>(alloc: Global, parameter: &Parameter) -> Result<Arg<'a>, AllocError> {
    option(alloc, parameter)
        .required_unless_present(VIA)?
        .conflicts_with(VIA)
}

/// An option that is part of a question, and requires the parts that each question has.
fn question_part<'a>(alloc: Global, parameter: &Parameter) -> Result<Arg<'a>, AllocError> {
    let mut arg = option(alloc, parameter);
    for part in ["user", "repo", "right"] {
        arg = arg.requires_arg(part)?;
    }
    Ok(arg)
}

/// A flag, in place of a question.
fn flag<'a>(alloc: Global, parameter: &Parameter) -> Result<Arg<'a>, AllocError> {
    let mut arg = plain_arg(alloc, parameter)
        .long(parameter.name)
        .action(ArgAction::SetTrue);
    for part in ["user", "repo", "right", "ref", "path"] {
        arg = arg.conflicts_with(part)?;
    }
    Ok(arg)
}

/// The parameter, as `clap` takes it.
fn arg_of<'a>(alloc: Global, parameter: &Parameter) -> Result<Arg<'a>, AllocError> {
    match parameter.kind {
        Kind::Required => Ok(option(alloc, parameter).required(true)),
        Kind::Optional | Kind::Socket => Ok(option(alloc, parameter)),
        Kind::File => file(alloc, parameter),
        Kind::Random => option(alloc, parameter)
            .default_value(RANDOM)
            .conflicts_with(VIA),
        Kind::Question => question_part(alloc, parameter),
        Kind::Flag => flag(alloc, parameter),
        Kind::Switch => Ok(
            plain_arg(alloc, parameter)
                .long(parameter.name)
                .action(ArgAction::SetTrue),
        ),
        Kind::Argument => Ok(argument(alloc, parameter)),
        Kind::Operation => {
            Ok(argument(alloc, parameter).value_parser([DOWNLOAD, UPLOAD].as_slice()))
        }
        Kind::Access => Ok(argument(alloc, parameter).value_parser([PULL, PUSH].as_slice())),
    }
}

/// The parameters, as `clap` takes them.
fn args_of<'a>(alloc: Global, parameters: &[Parameter]) -> Result<Vec<Arg<'a>>, AllocError> {
    let mut args = Vec::new(alloc);
    for parameter in parameters {
        args.push(arg_of(alloc, parameter)?)?;
    }
    Ok(args)
}

/// The flag that all commands have.
const EXPLAIN: Parameter = Parameter {
    name: "explain",
    value_name: "",
    help: "Says what caused a failure and what to do, in a further line on the error stream, also if that is no terminal",
    kind: Kind::Switch,
};

/// The flag of the commands whose last line has a count.
pub(crate) const QUIET: Parameter = Parameter {
    name: "quiet",
    value_name: "",
    help: "Does not print the last line, which has the number, if the command succeeds",
    kind: Kind::Switch,
};

/// A command: its name, how it is used, a line and a longer text about it, its parameters, and an example.
#[derive(Clone, Copy, Debug)]
pub(crate) struct CommandText {
    pub name: &'static str,
    /// What is required, and what may be left out in brackets.
    pub usage: &'static str,
    pub about: &'static str,
    pub long_about: &'static str,
    pub parameters: &'static [Parameter],
    pub example: &'static str,
}

/// Which usage `clap` prints.
#[derive(Clone, Copy, Debug, PartialEq, Eq)]
pub(crate) enum Usage {
    /// That of the table, which has all that may be given: for the help.
    Whole,
    /// That of `clap`, which has what is required: for an error.
    Required,
}

/// The command, as `clap` takes it.
fn command_of<'a>(
    alloc: Global,
    text: &CommandText,
    usage: Usage,
) -> Result<Command<'a>, AllocError> {
    let mut args = args_of(alloc, text.parameters)?;
    args.push(arg_of(alloc, &EXPLAIN)?)?;
    let mut command = Command::new(alloc, text.name)
        .about(text.about)
        .long_about(text.long_about)
        .after_help(text.example);
    if usage == Usage::Whole {
        command = command.override_usage(text.usage);
    }
    command.args(args)
}

/// The commands, as `clap` takes them.
pub(crate) fn commands_of<'a>(
    alloc: Global,
    texts: &[CommandText],
    usage: Usage,
) -> Result<Vec<Command<'a>>, AllocError> {
    let mut commands = Vec::new(alloc);
    for text in texts {
        commands.push(command_of(alloc, text, usage)?)?;
    }
    Ok(commands)
}
