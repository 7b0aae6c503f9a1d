//! The whole program.

ghost use Rattle.std.specs.Prelude.{◌≡◌, ◌≢◌, ◌≤◌, OnOk};
ghost use Rattle.std.specs.IoError.{error_kind};
ghost use Rattle.control.specs.declared.status.Status.TheVariants.{Good};

use crate::address::ServerSocket;
use crate::explaining::Explaining;
use crate::migrating::migrate;
use crate::noting::Notes;
use crate::operating::operate;
use crate::policy_command::policy_command;
use crate::quiet::but_last_line;
use crate::serve::serve;
use crate::session::session;
use crate::starts::Starts;
use crate::via::ask_at;
use causes::Named;
use command_line::{Command, is_given, read_args, with_server};
use control::Status;
use faults::{Fault, refuse};
use names::{Counted, Sink};
use operator::{Destination, print};
use std::alloc::{AllocError, Global};
use std::io::{self, ErrorKind, Read, Write};
use std::rt::HostRuntime;

/// Prints the help or the version.
///
/// # Errors
///
/// `Output` if it could not be written, and `Memory`.
fn print_text<K: Sink>(alloc: Global, text: &clap::Error, output: &mut K) -> Result<(), Fault>
    ensures { OnOk result (K.failed output.new ≡ K.failed output.old) }
{
    let text = format!(in alloc; "{text}")?;
    print(output, text.as_bytes())?;
    Ok(())
}

/// What the program is run in, besides its arguments and streams.
#[derive(Clone, Copy, Debug)]
pub struct Environment<'a> {
    /// Where the output is written to.
    pub destination: Destination,
    /// Whether failures are explained without `--explain`: whether the error stream is a terminal.
    pub explains: bool,
    /// The control socket of the server that is asked if the arguments name neither files nor a server: the variable
    /// `CUSTODY_VIA`.
    pub server: Option<&'a str>,
}

/// How a command prints.
#[derive(Clone, Copy)]
struct Manner {
    destination: Destination,
    /// Whether failures are explained.
    explains: bool,
    /// Whether the last line of the output is dropped if the command succeeds.
    is_quiet: bool,
}

/// Runs the command that the arguments name.
fn dispatch<S: Starts, R: Read, K: Sink, E: Write>(
    rt: &HostRuntime,
    command: &Command<'_>,
    input: &mut R,
    manner: Manner,
    output: &mut K,
    errors: &mut E,
    start: S,
) -> Result<(), Fault>
    ensures { OnOk result (K.failed output.new ≡ K.failed output.old) }
{
    let destination = manner.destination;
    match command {
        Command::Text(text) => print_text(rt.alloc(), text, output),
        Command::Session(asked) => session(rt, asked, &mut Counted::new(input), output, start),
        Command::Serve(asked) => serve(rt, asked, manner.explains, output, errors, start),
        Command::Policy(asked) => policy_command(rt, asked, output),
        Command::Migrate(args) => migrate(rt, args, output, start),
        Command::Local(files, command) => {
            let input = &mut Counted::new(input);
            operate(rt, files, command, input, destination, output, start)
        }
        Command::Remote(socket, command) => {
            let input = &mut Counted::new(input);
            let address = ServerSocket { rt, path: socket };
            ask_at(rt, &address, command, input, destination, output, errors)
        }
    }
}

/// How a command ended, and what it has printed.
#[derive(Drop)]
struct KeptOutput {
    ended: Result<(), Fault>,
    text: Vec<u8>,
}

/// Runs the command, and keeps what it prints.
fn dispatch_kept<S: Starts, R: Read, E: Write>(
    rt: &HostRuntime,
    command: &Command<'_>,
    input: &mut R,
    manner: Manner,
    errors: &mut E,
    start: S,
) -> KeptOutput {
    let mut output = Counted::new(Vec::new(rt.alloc()));
    let ended = dispatch(rt, command, input, manner, &mut output, errors, start);
    KeptOutput {
        ended,
        text: output.into_inner(),
    }
}

impl KeptOutput {
    /// Prints what was kept, but for its last line if the command succeeded and is to be quiet. Returns how the command ended.
    ///
    /// # Errors
    ///
    /// That of the command, and `Output` if the text could not be written.
    fn print<K: Sink>(self, is_quiet: bool, output: &mut K) -> Result<(), Fault>
        ensures { OnOk result (K.failed output.new ≡ K.failed output.old) }
    {
        let text = self.text.as_slice();
        let printed = if is_quiet && self.ended.is_ok() {
            but_last_line(text)
        } else {
            text
        };
        print(output, printed)?;
        self.ended
    }
}

/// Runs the command, and prints its fault, if there is one, and what may not have been meant.
fn run_command<S: Starts, R: Read, K: Sink, E: Write>(
    explaining: Explaining<'_>,
    command: &Command<'_>,
    input: &mut R,
    manner: Manner,
    output: &mut K,
    errors: &mut E,
    start: S,
) -> Status
    ensures { result ≡ Good → K.failed output.new ≡ K.failed output.old }
{
    let (rt, named) = (explaining.rt, Named::of(command));
    let notes = Notes::of(rt, command);
    let mut has_printed = true;
    let ended = if manner.is_quiet || (manner.explains && notes.are_about_output()) {
        let kept = dispatch_kept(rt, command, input, manner, errors, start);
        has_printed = !kept.text.is_empty();
        kept.print(manner.is_quiet, output)
    } else {
        dispatch(rt, command, input, manner, output, errors, start)
    };
    let status = explaining.status_after(ended, &named, errors);
    if manner.explains {
        notes.write(rt, has_printed || status != Status::Good, errors);
    }
    status
}

/// Runs the command of these arguments, and prints its fault, if there is one.
fn run_args<S: Starts, R: Read, K: Sink, E: Write>(
    rt: &HostRuntime,
    args: &[String],
    input: &mut R,
    environment: Environment<'_>,
    output: &mut K,
    errors: &mut E,
    start: S,
) -> Status
    ensures { result ≡ Good → K.failed output.new ≡ K.failed output.old }
{
    let is_on = environment.explains || is_given(args, "--explain");
    let manner = Manner {
        destination: environment.destination,
        explains: is_on,
        is_quiet: is_given(args, "--quiet"),
    };
    let explaining = Explaining { rt, is_on };
    match read_args(rt.alloc(), args) {
        Ok(command) => {
            let status = run_command(explaining, &command, input, manner, output, errors, start);
            drop(command);
            status
        }
        Err(fault) => explaining.refuse(&Fault::from(fault), &Named::NOTHING, errors),
    }
}

/// The arguments with the server of the environment, if there is one, and they name neither files nor a server.
fn args_with_server(
    alloc: Global,
    args: &[String],
    server: Option<&str>,
) -> Result<Option<Vec<String>>, AllocError> {
    match server {
        Some(socket) => with_server(alloc, args, socket),
        None => Ok(None),
    }
}

/// The program: runs the command that its arguments name, over its input, its output and its error
/// stream. Returns the exit status: 0 for success, 1 for a refusal, 2 for invalid arguments. If it is 0, all output was
/// written.
///
/// The first argument is the program's own name. `docs/COMMANDS.md` lists what the commands print, and each line on the error
/// stream.
///
/// `start` represents the contents of the database and its log when they are opened, which no code can
/// read: so the proofs about the commands hold for every file. A program passes
/// [`Unknown`](tables::Unknown).
pub fn run<S: Starts, R: Read, K: Sink, E: Write>(
    rt: &HostRuntime,
    args: &[String],
    input: &mut R,
    environment: Environment<'_>,
    output: &mut K,
    errors: &mut E,
    start: S,
) -> u8
    ensures status { result ≤ 2 }
    ensures good { result ≡ 0 → K.failed output.new ≡ K.failed output.old }
{
    let status = match args_with_server(rt.alloc(), args, environment.server) {
        Ok(None) => run_args(rt, args, input, environment, output, errors, start),
        Ok(Some(more)) => {
            run_args(
                rt,
                more.as_slice(),
                input,
                environment,
                output,
                errors,
                start,
            )
        }
        Err(_) => refuse(&Fault::Memory, errors),
    };
    status.code()
}

/// Prints that an argument is not valid UTF-8.
fn print_not_utf8<E: Write>(errors: &mut E) -> io::Result<()> {
    writeln!(
        errors,
        "error: invalid UTF-8 was detected in one or more arguments"
    )?;
    errors.flush()
}

/// Prints why the arguments could not be read, and returns the exit status: 1 if memory ran out, else
/// 2, as for an argument that is not UTF-8.
pub fn refuse_args<E: Write>(error: &io::Error, errors: &mut E) -> u8
    ensures memory { error_kind error.now ≡ ErrorKind.OutOfMemory → result ≡ 1 }
    ensures other { error_kind error.now ≢ ErrorKind.OutOfMemory → result ≡ 2 }
{
    match error.kind() {
        ErrorKind::OutOfMemory => refuse(&Fault::Memory, errors).code(),
        _ => {
            let _ = print_not_utf8(errors);
            2
        }
    }
}
