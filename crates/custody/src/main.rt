//! The program `custody`: passes the machine's arguments, streams and files to the crate `cli`.
#![tactic(auto)]

use cli::{Destination, Environment, Flushed};
use names::Counted;
use std::io::IsTerminal;
use std::process::ExitCode;
use std::{env, io};
use tables::Unknown;

/// The arguments of the command line. The first is the program's name.
fn args(rt: &HostRuntime) -> io::Result<Vec<String>> {
    Ok(env::args(rt)?.collect(rt.alloc())?)
}

/// What the standard output writes to.
fn destination(rt: &HostRuntime) -> Destination {
    if rt.stdout().is_terminal() {
        Destination::Terminal
    } else {
        Destination::Other
    }
}

/// The variable that names the server to ask, if the arguments name neither files nor a server.
const SERVER: &str = "CUSTODY_VIA";

fn main(rt: HostRuntime) -> ExitCode {
    let server = env::var(&rt, SERVER).ok();
    let environment = Environment {
        destination: destination(&rt),
        explains: rt.stderr().is_terminal(),
        server: server
            .as_ref()
            .map(|socket| socket.as_str())
            .filter(|socket| !socket.is_empty()),
    };
    let mut output = Counted::new(Flushed::new(rt.stdout()));
    let mut errors = rt.stderr();
    let status = match args(&rt) {
        Ok(args) => cli::run(
            &rt,
            args.as_slice(),
            &mut rt.stdin(),
            environment,
            &mut output,
            &mut errors,
            Unknown,
        ),
        Err(error) => cli::refuse_args(&error, &mut errors),
    };
    ExitCode::from(status)
}
