//! Runs the program over memory and the files of a test.
// The helpers have no clause, so a test's proof does not include those of each call.

use crate::harness::{Tester, unwrap};
use cli::{Destination, Environment, ServeArgs};
use names::Counted;
use sqlite::{Connection, Error, File, FileStore};
use std::io::{Read, Write};
use std::rt::{Files, HostRuntime};
use std::{fs, str};
use tables::{Alter, Unknown};

/// The output of a run of the program, and its exit status.
#[derive(Drop)]
pub(crate) struct Ran {
    pub status: u8,
    pub output: Vec<u8>,
    pub errors: Vec<u8>,
}

impl Ran {
    /// Whether the run ended with this status, and printed exactly this.
    pub fn is(&self, status: u8, output: &str, errors: &str) -> bool {
        self.status == status
            && self.output.as_slice() == output.as_bytes()
            && self.errors.as_slice() == errors.as_bytes()
    }

    /// Whether the other run ended and printed the same.
    pub fn is_as(&self, other: &Ran) -> bool {
        self.status == other.status
            && self.output.as_slice() == other.output.as_slice()
            && self.errors.as_slice() == other.errors.as_slice()
    }

    /// All of it, for a person to read.
    pub fn text(&self, rt: &impl Tester) -> String {
        let output = str::from_utf8(self.output.as_slice()).unwrap_or("bytes");
        let errors = str::from_utf8(self.errors.as_slice()).unwrap_or("bytes");
        text_of(rt, self.status, output, errors)
    }
}

/// A status, an output and an error stream in one line.
pub(crate) fn text_of(rt: &impl Tester, status: u8, output: &str, errors: &str) -> String {
    unwrap(
        rt,
        format!(in rt.alloc(); "status {status}, {output:?}, {errors:?}"),
    )
}

/// The arguments in a line, after the program's own name, as the machine would pass them. `@` is the
/// folder, `~` a space, and `''` the empty argument.
pub(crate) fn words(rt: &impl Tester, folder: &str, line: &str) -> Vec<String> {
    let mut all = Vec::new(rt.alloc());
    let name = unwrap(rt, String::from_str(rt.alloc(), "custody"));
    unwrap(rt, all.push(name));
    for word in line.split_terminator(' ') {
        let word = unwrap(rt, word.replace(rt.alloc(), "''", ""));
        let word = unwrap(rt, word.replace(rt.alloc(), '~', " "));
        let word = unwrap(rt, word.replace(rt.alloc(), '@', folder));
        unwrap(rt, all.push(word));
    }
    all
}

/// The exit status of a run over any streams.
pub(crate) fn status_over<R: Read, W: Write>(
    rt: &impl Tester,
    host: &HostRuntime,
    folder: &str,
    line: &str,
    input: &mut R,
    environment: Environment<'_>,
    output: &mut W,
    errors: &mut Vec<u8>,
) -> u8 {
    let words = words(rt, folder, line);
    let mut output = Counted::new(output);
    cli::run(
        host,
        words.as_slice(),
        input,
        environment,
        &mut output,
        errors,
        Unknown,
    )
}

/// An environment in which no server is named.
pub(crate) fn plain(destination: Destination) -> Environment<'static> {
    Environment {
        destination,
        explains: false,
        server: None,
    }
}

/// Runs the program over the input. Its output is no terminal.
pub(crate) fn run(
    rt: &impl Tester,
    host: &HostRuntime,
    folder: &str,
    line: &str,
    input: &str,
) -> Ran {
    run_to(rt, host, folder, line, input, Destination::Other)
}

/// Runs the program over the input, with an output of this kind.
pub(crate) fn run_to(
    rt: &impl Tester,
    host: &HostRuntime,
    folder: &str,
    line: &str,
    input: &str,
    destination: Destination,
) -> Ran {
    run_in(rt, host, folder, line, input, plain(destination))
}

/// Runs the program over the input, in this environment.
pub(crate) fn run_in(
    rt: &impl Tester,
    host: &HostRuntime,
    folder: &str,
    line: &str,
    input: &str,
    environment: Environment<'_>,
) -> Ran {
    let mut rest = input.as_bytes();
    let mut output = Vec::new(rt.alloc());
    let mut errors = Vec::new(rt.alloc());
    let status = status_over(
        rt,
        host,
        folder,
        line,
        &mut rest,
        environment,
        &mut output,
        &mut errors,
    );
    Ran {
        status,
        output,
        errors,
    }
}

/// The arguments of a server over a database and a policy, without a control socket of its own.
pub(crate) fn serve_args<'a>(
    db: &'a str,
    policy: &'a str,
    requests: u64,
    idle: u64,
) -> ServeArgs<'a> {
    ServeArgs {
        db,
        policy,
        listen: "here",
        requests: Some(requests),
        idle,
        control: None,
        contents: false,
    }
}

/// The path of a file of a folder.
pub(crate) fn path_of(rt: &impl Tester, folder: &str, name: &str) -> String {
    unwrap(rt, format!(in rt.alloc(); "{folder}/{name}"))
}

/// Writes a file of a folder.
pub(crate) fn write(rt: &impl Tester, host: &HostRuntime, folder: &str, name: &str, bytes: &[u8]) {
    let path = path_of(rt, folder, name);
    unwrap(rt, fs::write(host, path.as_str(), bytes));
}

/// The bytes of a file of a folder.
pub(crate) fn read(rt: &impl Tester, host: &HostRuntime, folder: &str, name: &str) -> Vec<u8> {
    let path = path_of(rt, folder, name);
    unwrap(rt, fs::read(host, path.as_str()))
}

/// Runs the statement on the connection.
fn run_on<S: Alter + Drop>(rt: &impl Tester, opened: Result<Connection<S>, Error>, sql: &str) {
    let mut conn = unwrap(rt, opened);
    unwrap(rt, conn.execute_batch(sql));
}

/// Runs the statement on the database of a folder, as another program would.
pub(crate) fn run_sql(rt: &impl Tester, host: &HostRuntime, folder: &str, sql: &str) {
    let path = path_of(rt, folder, "db");
    let opened: Result<Connection<FileStore<File>>, Error> = Connection::open(host, path.as_str());
    run_on(rt, opened, sql);
}

/// Makes a folder for a test, with the policy, and with the random bytes of the tokens of 64 times
/// `a`, `b`, `c` and `d`.
pub(crate) fn prepare(rt: &impl Tester, host: &HostRuntime, folder: &str, policy: &str) {
    remove(host, folder);
    unwrap(rt, fs::create_dir(host, folder));
    write(rt, host, folder, "policy", policy.as_bytes());
    for &(name, byte) in &[("a", 0xaa), ("b", 0xbb), ("c", 0xcc), ("d", 0xdd)] {
        write(rt, host, folder, name, &[byte; 32]);
    }
}

/// Where a database has the contents of objects.
#[derive(Clone, Copy, Debug)]
pub(crate) enum Form {
    /// In rows.
    Rows,
    /// The larger ones in a file beside it.
    File,
}

/// The forms of a database.
pub(crate) const FORMS: [Form; 2] = [Form::Rows, Form::File];

/// The form of the database of a folder; that of rows if there is none.
pub(crate) fn form_of(rt: &impl Tester, host: &HostRuntime, folder: &str) -> Form {
    let contents = path_of(rt, folder, "db-contents");
    match fs::metadata(host, contents.as_str()) {
        Ok(_) => Form::File,
        Err(_) => Form::Rows,
    }
}

/// Makes a folder for a test over a database of this form. The first command makes one whose contents are rows.
pub(crate) fn prepare_on(
    rt: &impl Tester,
    host: &HostRuntime,
    folder: &str,
    policy: &str,
    form: Form,
) {
    prepare(rt, host, folder, policy);
    if let Form::File = form {
        let made = run(rt, host, folder, "migrate --contents --db @/db", "");
        assert!(rt; made.is(0, "migrated from version 2, 0 objects\n", ""));
    }
}

/// Removes the folder and its contents, if it exists.
pub(crate) fn remove(host: &HostRuntime, folder: &str) {
    let _ = host.remove_dir_all(host.alloc(), folder);
}
