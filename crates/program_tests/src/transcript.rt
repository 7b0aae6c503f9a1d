//! Transcripts: successive commands, with the whole expected output of each.
//!
//! A line is a word, a space and a text, or empty.
//!
//! | Word | Its text |
//! |---|---|
//! | `#` | a comment for the reader: what is tried |
//! | `$` | a command: its arguments, as [`run`] reads them |
//! | `terminal` | the same, with an output that is a terminal |
//! | `via` | a command that a running server runs: its words |
//! | `token` | the command that issues an upload token, and its line: the token's letter, the user, the repository |
//! | `status` | the exit status of the command; 0 if none is given |
//! | `>`, `>>` | a line of its input, which ends in CR LF; input without a line end |
//! | `line` | a line of its input, which ends in LF |
//! | `<`, `<<` | the same of its output |
//! | `\|` | a line of its output, which ends in LF |
//! | `error` | a line on the error stream |
//! | `missing` | a file that does not exist after the command |
//! | `lock` | input: a request for a lock: the token's letter, the repository, the body |
//! | `get` | input: a GET: the token's letter, the repository, the rest of the target |
//! | `post` | input: a POST: the token's letter, the repository, the rest of the target, the body |
//! | `put` | input: an upload: the token's letter, the repository, the object's name, how many times which letter |
//! | `reply` | output: a reply of JSON: the status, the body |
//! | `bytes` | output: a content: how many times which letter |
//! | `file` | a file is written before the next command: its name, how many bytes, which byte |
//! | `chmod` | a file is given a mode before the next command: its name, three octal digits |
//! | `mode` | the mode of a file after the command: its name, three octal digits |
//! | `sql` | a statement that another program runs on the database before the next command |
//! | `replace` | a change of [`POLICY`] from this command on: `OLD => NEW`, in which `\n` is a line end |
//! | `append` | text added to the policy, after the number of copies: `\n` is a line end, `@` the number of a copy |
//! | `pad` | the size of the policy in bytes, which a comment fills up |
//! | `in-rows`, `in-file` | a line, with its word, that counts only if contents are rows, or in a file |

use crate::channel::run_via;
use crate::harness::{Tester, unwrap};
use crate::program::{
    FORMS, Form, Ran, form_of, path_of, prepare, prepare_on, remove, run_sql, run_to, text_of,
    write,
};
use cli::Destination;
use std::alloc::Global;
use std::fs::{self, Permissions};
use std::os::unix::fs::PermissionsExt;
use std::rt::HostRuntime;

/// A policy in which ann and bob work on a film.
pub(crate) const POLICY: &str = r#"
base = "https://lfs.example"
token_seconds = 3600

[[repo]]
name = "studio/film"
default_ref = "refs/heads/main"
quota = 1000000

[[row]]
effect = "allow"
users = ["ann", "bob"]
repos = ["studio/film"]
refs = ["*"]
paths = ["*"]
rights = ["pull", "push", "list", "lock"]
"#;

/// How a command is run.
#[derive(Clone, Copy)]
enum Way {
    /// Over files.
    Local(Destination),
    /// By a running server.
    Remote,
}

/// A command, and its expected result.
#[derive(Drop)]
struct Step {
    /// The line that it begins on, counted after the one of the opening quote.
    line: usize,
    command: String,
    way: Way,
    input: String,
    status: u8,
    output: String,
    errors: String,
    missing: String,
    policy: String,
}

/// Three words separated by spaces; the last may contain spaces.
fn three(text: &str) -> (&str, &str, &str) {
    let (first, rest) = text.split_once(' ').unwrap_or((text, ""));
    let (second, third) = rest.split_once(' ').unwrap_or((rest, ""));
    (first, second, third)
}

/// Adds a text to another, with a line end or without.
fn push(rt: &impl Tester, text: &mut String, line: &str, end: &str) {
    unwrap(rt, text.push_str(line));
    unwrap(rt, text.push_str(end));
}

/// The phrase of a status (docs/PROTOCOL.md, "Heads").
fn phrase(status: &str) -> &'static str {
    match status {
        "200" => "OK",
        "201" => "Created",
        "401" => "Unauthorized",
        "403" => "Forbidden",
        "404" => "Not Found",
        "409" => "Conflict",
        "410" => "Gone",
        "422" => "Unprocessable Content",
        "507" => "Insufficient Storage",
        _ => "of no phrase",
    }
}

/// The POST of the token's letter to the rest of the target, with the body.
fn post(rt: &impl Tester, letter: &str, repo: &str, rest: &str, body: &str) -> String {
    let token = unwrap(rt, letter.repeat(rt.alloc(), 64));
    let length = body.len();
    unwrap(
        rt,
        format!(in rt.alloc();
            "POST /{repo}.git/info/lfs/{rest} HTTP/1.1\r\nAuthorization: Bearer {token}\r\nContent-Length: {length}\r\n\r\n{body}"
        ),
    )
}

/// The upload of the token's letter, of a content that the text describes.
fn upload(rt: &impl Tester, letter: &str, repo: &str, text: &str) -> String {
    let token = unwrap(rt, letter.repeat(rt.alloc(), 64));
    let (name, content) = text.split_once(' ').unwrap_or((text, ""));
    let content = repeated(rt, content);
    let length = content.len();
    unwrap(
        rt,
        format!(in rt.alloc();
            "PUT /{repo}.git/info/lfs/content/{name} HTTP/1.1\r\nAuthorization: Bearer {token}\r\nContent-Length: {length}\r\n\r\n{content}"
        ),
    )
}

/// A letter, repeated as often as the number before it says.
fn repeated(rt: &impl Tester, text: &str) -> String {
    let (count, letter) = text.split_once(' ').unwrap_or((text, ""));
    let count = unwrap(rt, count.parse::<usize>());
    unwrap(rt, letter.repeat(rt.alloc(), count))
}

/// The request that the text describes after its word.
fn request(rt: &impl Tester, mark: &str, text: &str) -> String {
    let (letter, repo, rest) = three(text);
    match mark {
        "lock" => post(rt, letter, repo, "locks", rest),
        "put" => upload(rt, letter, repo, rest),
        "post" => {
            let (rest, body) = rest.split_once(' ').unwrap_or((rest, ""));
            post(rt, letter, repo, rest, body)
        }
        _ => {
            let token = unwrap(rt, letter.repeat(rt.alloc(), 64));
            unwrap(
                rt,
                format!(in rt.alloc();
                    "GET /{repo}.git/info/lfs/{rest} HTTP/1.1\r\nAuthorization: Bearer {token}\r\n\r\n"
                ),
            )
        }
    }
}

/// The reply of a status and a body.
fn reply(rt: &impl Tester, text: &str) -> String {
    let (status, body) = text.split_once(' ').unwrap_or((text, ""));
    let phrase = phrase(status);
    let length = body.len();
    let asks = match status {
        "401" => "LFS-Authenticate: Bearer realm=\"Git LFS\"\r\n",
        _ => "",
    };
    unwrap(
        rt,
        format!(in rt.alloc();
            "HTTP/1.1 {status} {phrase}\r\nContent-Type: application/vnd.git-lfs+json\r\nContent-Length: {length}\r\n{asks}\r\n{body}"
        ),
    )
}

/// The text, repeated, with `@` for the number of each copy.
fn many(rt: &impl Tester, text: &str) -> String {
    let (count, piece) = text.split_once(' ').unwrap_or((text, ""));
    let piece = unwrap(rt, piece.replace(rt.alloc(), "\\n", "\n"));
    let mut all = String::new(rt.alloc());
    for number in 0..unwrap(rt, count.parse::<u32>()) {
        let number = unwrap(rt, number.to_string(rt.alloc()));
        let piece = unwrap(rt, piece.replace(rt.alloc(), '@', number.as_str()));
        unwrap(rt, all.push_str(piece.as_str()));
    }
    all
}

/// Writes the file that the text describes.
fn write_bytes(rt: &impl Tester, host: &HostRuntime, folder: &str, text: &str) {
    let (name, count, byte) = three(text);
    let count = unwrap(rt, count.parse::<usize>());
    let byte = unwrap(rt, byte.parse::<u8>());
    let bytes = unwrap(rt, vec![in rt.alloc(); byte; count]);
    write(rt, host, folder, name, bytes.as_slice());
}

impl Step {
    fn new(alloc: Global, line: usize) -> Step {
        Step {
            line,
            command: String::new(alloc),
            way: Way::Local(Destination::Other),
            input: String::new(alloc),
            status: 0,
            output: String::new(alloc),
            errors: String::new(alloc),
            missing: String::new(alloc),
            policy: String::new(alloc),
        }
    }

    /// The command that issues an upload token, and its line.
    fn issue(&mut self, rt: &impl Tester, text: &str) {
        let (letter, user, repo) = three(text);
        let token = unwrap(rt, letter.repeat(rt.alloc(), 64));
        self.command = unwrap(
            rt,
            format!(in rt.alloc();
                "authenticate --db @/db --policy @/policy --user {user} --now 1463500000 --random @/{letter} {repo} upload"
            ),
        );
        self.output = unwrap(
            rt,
            format!(in rt.alloc();
                "{{\"expires_in\":3600,\"header\":{{\"Authorization\":\"Bearer {token}\"}},\"href\":\"https://lfs.example/{repo}.git/info/lfs\"}}\n"
            ),
        );
    }

    /// Changes the policy, which starts as [`POLICY`].
    fn change_policy(&mut self, rt: &impl Tester, mark: &str, text: &str) {
        if self.policy.is_empty() {
            unwrap(rt, self.policy.push_str(POLICY));
        }
        match mark {
            "replace" => self.replace(rt, text),
            "append" => push(rt, &mut self.policy, many(rt, text).as_str(), ""),
            _ => self.pad(rt, text),
        }
    }

    /// Replaces a text in the policy.
    fn replace(&mut self, rt: &impl Tester, text: &str) {
        let (old, new) = text.split_once(" => ").unwrap_or((text, ""));
        let new = unwrap(rt, new.replace(rt.alloc(), "\\n", "\n"));
        self.policy = unwrap(rt, self.policy.replace(rt.alloc(), old, new.as_str()));
    }

    /// Fills up the policy with a comment.
    fn pad(&mut self, rt: &impl Tester, text: &str) {
        let size = unwrap(rt, text.parse::<usize>());
        let left = size.saturating_sub(self.policy.len());
        let comment = unwrap(rt, "#".repeat(rt.alloc(), left));
        unwrap(rt, self.policy.push_str(comment.as_str()));
    }

    fn add(&mut self, rt: &impl Tester, mark: &str, text: &str) {
        match mark {
            "$" | "terminal" | "via" => {
                push(rt, &mut self.command, text, "");
                self.way = match mark {
                    "via" => Way::Remote,
                    "terminal" => Way::Local(Destination::Terminal),
                    _ => Way::Local(Destination::Other),
                };
            }
            "token" => self.issue(rt, text),
            "status" => self.status = unwrap(rt, text.parse::<u8>()),
            ">" => push(rt, &mut self.input, text, "\r\n"),
            ">>" => push(rt, &mut self.input, text, ""),
            "line" => push(rt, &mut self.input, text, "\n"),
            "<" => push(rt, &mut self.output, text, "\r\n"),
            "<<" => push(rt, &mut self.output, text, ""),
            "|" => push(rt, &mut self.output, text, "\n"),
            "error" => push(rt, &mut self.errors, text, "\n"),
            "missing" => push(rt, &mut self.missing, text, "\n"),
            "lock" | "get" | "post" | "put" => {
                push(rt, &mut self.input, request(rt, mark, text).as_str(), "");
            }
            "reply" => push(rt, &mut self.output, reply(rt, text).as_str(), ""),
            "bytes" => push(rt, &mut self.output, repeated(rt, text).as_str(), ""),
            "replace" | "append" | "pad" => self.change_policy(rt, mark, text),
            "" | "#" | "file" | "chmod" | "mode" | "sql" => {}
            _ => panic!(rt; "line {}: no such word", self.line),
        }
    }

    /// Whether a file that must not exist exists.
    fn leaves_file(&self, rt: &impl Tester, host: &HostRuntime, folder: &str) -> bool {
        for name in self.missing.lines() {
            let path = path_of(rt, folder, name);
            if fs::metadata(host, path.as_str()).is_ok() {
                return true;
            }
        }
        false
    }

    /// Runs the command, if there is one, and compares its result with the step.
    fn run(&self, rt: &impl Tester, host: &HostRuntime, folder: &str) {
        if self.command.is_empty() {
            assert!(rt;
                self.missing.is_empty(),
                "{folder}: missing {}",
                self.missing
            );
            return;
        }
        if !self.policy.is_empty() {
            write(rt, host, folder, "policy", self.policy.as_bytes());
        }
        let (command, input) = (self.command.as_str(), self.input.as_str());
        let ran = match self.way {
            Way::Remote => run_via(rt, host, folder, command, input),
            Way::Local(destination) => run_to(rt, host, folder, command, input, destination),
        };
        let is_wanted = ran.is(self.status, self.output.as_str(), self.errors.as_str());
        if !is_wanted || self.leaves_file(rt, host, folder) {
            self.fail(rt, host, folder, &ran);
        }
    }

    /// Stops the test, and prints what was wanted, what came, and where.
    fn fail(&self, rt: &impl Tester, host: &HostRuntime, folder: &str, ran: &Ran) {
        let came = ran.text(rt);
        let form = form_of(rt, host, folder);
        let wanted = text_of(rt, self.status, self.output.as_str(), self.errors.as_str());
        panic!(rt;
            "{folder} ({form:?}), line {}: {}\nwanted: {wanted}, without the files {:?}\ncame:   {came}",
            self.line, self.command, self.missing
        );
    }
}

/// Sets the mode of the file, or asserts it.
fn use_mode(rt: &impl Tester, host: &HostRuntime, folder: &str, mark: &str, text: &str) {
    let (name, digits, _) = three(text);
    let path = path_of(rt, folder, name);
    let mode = unwrap(rt, u32::from_str_radix(digits, 8));
    if mark == "chmod" {
        let permissions = Permissions::from_mode(mode);
        unwrap(rt, fs::set_permissions(host, path.as_str(), permissions));
    } else {
        let found = unwrap(rt, fs::metadata(host, path.as_str())).permissions();
        assert!(rt; found.mode() & 0o777 == mode, "{folder}: mode {text}");
    }
}

/// Changes the files between two commands, or looks at one.
fn change_files(rt: &impl Tester, host: &HostRuntime, folder: &str, mark: &str, text: &str) {
    match mark {
        "file" => write_bytes(rt, host, folder, text),
        "chmod" | "mode" => use_mode(rt, host, folder, mark, text),
        "sql" => run_sql(rt, host, folder, text),
        _ => {}
    }
}

/// The line as it counts over a database of this form: empty if it is marked for the other one.
fn line_over(form: Form, line: &str) -> &str {
    let (mark, rest) = line.split_once(' ').unwrap_or((line, ""));
    match (mark, form) {
        ("in-rows", Form::Rows) | ("in-file", Form::File) => rest,
        ("in-rows" | "in-file", _) => "",
        _ => line,
    }
}

/// Plays the transcript over the files of a folder.
pub(crate) fn play(rt: &impl Tester, host: &HostRuntime, folder: &str, transcript: &str) {
    let form = form_of(rt, host, folder);
    let mut step = Step::new(rt.alloc(), 0);
    for (at, line) in transcript.lines().enumerate() {
        let line = line_over(form, line);
        let (mark, text) = line.split_once(' ').unwrap_or((line, ""));
        if matches!(
            mark,
            "$" | "terminal" | "via" | "token" | "file" | "chmod" | "mode" | "sql"
        ) {
            step.run(rt, host, folder);
            step = Step::new(rt.alloc(), at);
        }
        change_files(rt, host, folder, mark, text);
        step.add(rt, mark, text);
    }
    step.run(rt, host, folder);
}

/// Plays the transcript in a folder of its own, with this policy and no database.
pub(crate) fn perform(
    rt: &impl Tester,
    host: &HostRuntime,
    folder: &str,
    policy: &str,
    transcript: &str,
) {
    prepare(rt, host, folder, policy);
    play(rt, host, folder, transcript);
    remove(host, folder);
}

/// Plays the transcript over a database of each form.
pub(crate) fn perform_on_forms(
    rt: &impl Tester,
    host: &HostRuntime,
    folder: &str,
    policy: &str,
    transcript: &str,
) {
    for form in FORMS {
        prepare_on(rt, host, folder, policy, form);
        play(rt, host, folder, transcript);
        remove(host, folder);
    }
}
