//! A server on a machine that a test makes: who calls, and which policies the file has, one after the other.

use crate::harness::{Tester, unwrap};
use crate::program::{FORMS, Form};
use crate::queues::read_on;
use crate::transcript::POLICY;
use control::request_bytes;
use faults::Fault;
use machine::{Conversation, Machine, Talked};
use metrics::Gauges;
use names::{Moment, Oid, RepoName, Size};
use outbox::OperatorStream;
use placed::Placed;
use policy::Policy;
use server::{Finish, Server};
use service::{End, Routes};
use sockets::{Caller, Client, Ended, Front, Limits, Queue, listen};
use sqlite_disk::Memory;
use std::io::{Read, Write};
use std::net::{Shutdown, TcpListener};
use std::os::unix::net::UnixStream;
use std::rt::HostRuntime;
use std::str;
use std::time::{Duration, Instant};
use store::Store;
use tables::{LastChunk, Layout, NewUpload};

/// Where nobody calls.
const ANY: &str = "127.0.0.1:0";

/// A machine whose operators are known.
#[derive(Drop)]
struct Script<'a> {
    /// Through which the operators are read from and written to. It has no callers of its own.
    queue: Queue<'a>,
    operators: Vec<OperatorStream>,
    policies: Vec<Result<Policy, Fault>>,
    host: &'a HostRuntime,
}

impl Machine for Script<'_> {
    ghost use Rattle.std.specs.Prelude.{⊤};

    ghost observed = { λ _ _ _. ⊤ };

    ghost idled = { λ _ _. ⊤ };

    fn next(&mut self) -> Result<Option<Caller>, Fault> {
        if self.operators.is_empty() {
            return Err(Fault::Network);
        }
        Ok(Some(Caller::Operator(self.operators.remove(0))))
    }

    fn next_ready(&mut self) -> Result<Option<Caller>, Fault> {
        if self.operators.is_empty() {
            return Ok(None);
        }
        self.next()
    }

    fn moment(&mut self) -> Result<Moment, Fault> {
        Moment::read(1_463_500_146).ok_or(Fault::Clock)
    }

    fn random(&mut self) -> Result<[u8; 32], Fault> {
        Ok([0xcc; 32])
    }

    fn receive(
        &mut self,
        operator: &OperatorStream,
        _: Instant,
        piece: &mut [u8],
    ) -> Result<(), Fault> {
        let mut stream = self.queue.stream_of(operator);
        stream.read_exact(piece).map_err(|_| Fault::Operator)
    }

    fn send(&mut self, operator: &OperatorStream, bytes: &[u8]) -> Result<(), Fault> {
        let sent = self.queue.send(operator, bytes);
        sent.map_err(|_| Fault::Operator)
    }

    fn end_reply(&mut self, operator: &OperatorStream, end: &[u8]) -> Result<(), Fault> {
        let ended = self.queue.end_reply(operator, end, self.host);
        ended.map_err(|_| Fault::Operator)
    }

    fn policy(&mut self) -> Result<Policy, Fault> {
        if self.policies.is_empty() {
            return Err(Fault::PolicyFile);
        }
        self.policies.remove(0)
    }

    fn drop_rest(&mut self, _: &OperatorStream) {}

    fn wait_for(&mut self, _: &OperatorStream, _: u64) -> bool {
        true
    }

    fn gauges(&mut self) -> Gauges {
        Gauges {
            waiting: 1,
            under_way: 2,
            longest_wait: Duration::from_millis(1_500),
            longest_transfer_wait: Duration::from_millis(2_500),
            database: 4_096,
            log: 8_192,
            memory: 12_288,
            now: None,
        }
    }

    fn ended(&mut self) -> Option<Ended> {
        None
    }

    fn converse<S: Store, T: Conversation>(
        &mut self,
        _: &mut Client,
        _: &mut S,
        _: &T,
    ) -> Option<Talked> {
        None
    }

    fn tell(&mut self, _: &mut Client, _: &[u8]) -> Option<usize> {
        None
    }

    fn put_aside(&mut self, _: Client, _: u64, _: bool) {}

    fn end_turn(&mut self, _: Client, _: u64, _: &Front, end: End) -> Result<Option<End>, Fault> {
        Ok(Some(end))
    }

    fn close(&mut self, _: Client) {}

    fn shut(&mut self) {}

    fn shut_at_once(&mut self) {}

    fn settle(&mut self) {}
}

/// The operators of a test: the sides that call the server, and those from which their replies are read.
#[derive(Drop)]
struct Operators {
    callers: Vec<OperatorStream>,
    readers: Vec<UnixStream>,
}

/// Adds an operator who sends these words, which spaces separate, and this input.
fn add(rt: &impl Tester, host: &HostRuntime, all: &mut Operators, line: &str, input: &str) {
    let mut words = Vec::new(rt.alloc());
    for word in line.split(' ') {
        let word = unwrap(rt, String::from_str(rt.alloc(), word));
        unwrap(rt, words.push(word));
    }
    let request = request_bytes(rt.alloc(), input.as_bytes(), words.as_slice());
    let (caller, mut reader) = unwrap(rt, UnixStream::pair(host));
    unwrap(rt, reader.write_all(unwrap(rt, request).as_slice()));
    unwrap(rt, reader.shutdown(Shutdown::Write));
    unwrap(rt, all.callers.push(OperatorStream::new(caller)));
    unwrap(rt, all.readers.push(reader));
}

/// Operators who send these words and inputs.
fn operators_of(rt: &impl Tester, host: &HostRuntime, calls: &[(&str, &str)]) -> Operators {
    let mut all = Operators {
        callers: Vec::new(rt.alloc()),
        readers: Vec::new(rt.alloc()),
    };
    for (line, input) in calls {
        add(rt, host, &mut all, line, input);
    }
    all
}

/// Stores objects without bytes under these names, which are not theirs.
fn store_damaged<S: Store>(rt: &impl Tester, store: &mut S, names: &[&[u8; 64]]) {
    let name = unwrap(rt, String::from_str(rt.alloc(), "studio/film"));
    let Some((repo, size)) = RepoName::read(name).zip(Size::read(0)) else {
        panic!(rt; "out of range");
    };
    for name in names {
        let Some(oid) = Oid::read(*name) else {
            panic!(rt; "no name");
        };
        let upload = NewUpload {
            repo: &repo,
            oid: &oid,
            size,
        };
        let id = unwrap(rt, store.begin_upload(rt.alloc(), &upload));
        let last = LastChunk {
            n: 0,
            bytes: Vec::new(rt.alloc()),
        };
        unwrap(rt, store.complete_upload(id, &last, &oid, size));
    }
}

/// Serves the operators of a machine over a store with these objects, which are damaged. Asserts that nothing is
/// reported.
fn serve_over<S: Store>(
    rt: &impl Tester,
    host: &HostRuntime,
    machine: &mut Script<'_>,
    store: &mut S,
    damaged: &[&[u8; 64]],
) -> Result<Finish, Fault> {
    store_damaged(rt, store, damaged);
    let routes = unwrap(rt, Routes::new(rt.alloc()));
    let server = Server {
        alloc: rt.alloc(),
        routes: &routes,
        clock: host,
    };
    let policy = unwrap(rt, Policy::read(rt.alloc(), POLICY));
    let mut errors = Vec::new(rt.alloc());
    let served = server.run(store, machine, policy, 1, &mut errors);
    assert!(rt; errors.is_empty());
    served
}

/// The same over a new database of this form.
fn serve(
    rt: &impl Tester,
    host: &HostRuntime,
    machine: &mut Script<'_>,
    form: Form,
    damaged: &[&[u8; 64]],
) -> Result<Finish, Fault> {
    let mut rows = unwrap(rt, tables::Store::open_memory(rt.alloc()));
    match form {
        Form::Rows => {
            unwrap(rt, rows.create_or_check(rt.alloc(), Layout::Rows));
            serve_over(rt, host, machine, &mut rows, damaged)
        }
        Form::File => {
            unwrap(rt, rows.create_or_check(rt.alloc(), Layout::Places));
            let mut store = Placed::new(rt.alloc(), rows, Memory::new(rt.alloc()));
            serve_over(rt, host, machine, &mut store, damaged)
        }
    }
}

/// What an operator has got. One who was not served sees that the server has gone.
fn reply_to(rt: &impl Tester, reader: &mut UnixStream) -> Vec<u8> {
    let mut bytes = Vec::new(rt.alloc());
    let read = reader.read_to_end(&mut bytes);
    assert!(rt; read.is_ok() || bytes.is_empty());
    bytes
}

/// A machine with these operators, and with these policies.
fn script_of<'a>(
    rt: &impl Tester,
    host: &'a HostRuntime,
    listener: &'a TcpListener,
    operators: Vec<OperatorStream>,
    policies: Vec<Result<Policy, Fault>>,
) -> Script<'a> {
    let limits = Limits {
        idle: Duration::from_secs(30),
        connections: 1,
    };
    Script {
        queue: unwrap(rt, Queue::new(host, listener, None, limits)),
        operators,
        policies,
        host,
    }
}

/// Asserts what the operators have got.
fn expect_replies(rt: &impl Tester, mut readers: Vec<UnixStream>, replies: &[&[u8]]) {
    assert!(rt; readers.len() == replies.len());
    for (reader, reply) in readers.iter_mut().zip(replies) {
        assert!(rt; reply_to(rt, reader).as_slice() == *reply);
    }
}

const PUSH: &str = "pushcheck ann studio/film refs/heads/main";

/// The same for a user whom no row allows anything.
const ZOE: &str = "pushcheck zoe studio/film refs/heads/main";

#[test]
fn the_next_command_has_the_policy_that_was_read(rt: HostRuntime) {
    let calls = [
        (PUSH, "a.txt"),
        ("reload", ""),
        (PUSH, "a.txt"),
        ("reload", ""),
        (PUSH, "a.txt"),
    ];
    let Operators { callers, readers } = operators_of(&rt, &rt, &calls);
    let other = unwrap(&rt, POLICY.replace(rt.alloc(), "ann", "zoe"));
    let mut policies = Vec::new(rt.alloc());
    let read = unwrap(&rt, Policy::read(rt.alloc(), other.as_str()));
    unwrap(&rt, policies.push(Ok(read)));
    let listener = unwrap(&rt, listen(&rt, ANY));
    let mut script = script_of(&rt, &rt, &listener, callers, policies);
    assert!(rt; serve(&rt, &rt, &mut script, Form::Rows, &[]).is_err());
    let denied = b"\x03\x03\0\0\0\x17denied by row 0: a.txt\n\x01";
    expect_replies(
        &rt,
        readers,
        &[
            b"\x03\x03\0\0\0\x0aok: a.txt\n\0",
            b"\x03\x03\0\0\0\x22policy ok: 1 repositories, 1 rows\n\0",
            denied,
            b"\x03\x04\0\0\0\x19custody: policy not read\n\x01",
            denied,
        ],
    );
}

/// Asserts that a server over a database of this form does nothing after a stop.
fn expect_stop(rt: &impl Tester, host: &HostRuntime, form: Form) {
    let calls = [("sweep", ""), ("stop", ""), ("sweep", "")];
    let Operators { callers, readers } = operators_of(rt, host, &calls);
    let listener = unwrap(rt, listen(host, ANY));
    let mut script = script_of(rt, host, &listener, callers, Vec::new(rt.alloc()));
    match serve(rt, host, &mut script, form, &[]) {
        Ok(finish) => assert!(rt; finish.connections == 0 && finish.stopped_by.is_some()),
        Err(_) => panic!(rt; "the server was not stopped"),
    }
    drop(script);
    expect_replies(
        rt,
        readers,
        &[b"\x03\x03\0\0\0\x10swept 0 uploads\n\0", b"\x03\0", b""],
    );
}

#[test]
fn nothing_is_done_after_a_stop(rt: HostRuntime) {
    for form in FORMS {
        expect_stop(&rt, &rt, form);
    }
}

/// The names of two objects.
const NAMES: [&[u8; 64]; 2] = [&[b'a'; 64], &[b'b'; 64]];

/// What the first of these operators gets, whose check finds the two objects damaged, one in each part; meanwhile a second
/// check is refused, and another command is done.
const CHECKED: &[&[u8]] = &[
    b"\x03\x03\0\0\0\x55damaged studio/film aaaaaaaaaaaaaaaaaaaaaaaaaaaaaaaaaaaaaaaaaaaaaaaaaaaaaaaaaaaaaaaa\n\
      \x05\0\0\0\x16checked 1 of 2 objects\
      \x03\0\0\0\x55damaged studio/film bbbbbbbbbbbbbbbbbbbbbbbbbbbbbbbbbbbbbbbbbbbbbbbbbbbbbbbbbbbbbbbb\n\
      \x05\0\0\0\x16checked 2 of 2 objects\
      \x03\0\0\0\x12checked 2 objects\n\x01",
    b"\x03\x04\0\0\0\x26custody: another check or repair runs\n\x01",
    b"\x03\x03\0\0\0\x10swept 0 uploads\n\0",
];

/// Asserts that a check over a database of this form gives way.
fn expect_check(rt: &impl Tester, host: &HostRuntime, form: Form) {
    let calls = [("check", ""), ("repair", ""), ("sweep", "")];
    let Operators { callers, readers } = operators_of(rt, host, &calls);
    let listener = unwrap(rt, listen(host, ANY));
    let mut script = script_of(rt, host, &listener, callers, Vec::new(rt.alloc()));
    assert!(rt; serve(rt, host, &mut script, form, &NAMES).is_err());
    expect_replies(rt, readers, CHECKED);
}

#[test]
fn a_check_gives_way(rt: HostRuntime) {
    for form in FORMS {
        expect_check(&rt, &rt, form);
    }
}

/// A path, and the line of its verdict.
const PATH: &str = "textures/a/b\n";

const DENIED: &str = "denied by row 0: textures/a/b\n";

/// A text this many times.
fn times(rt: &impl Tester, text: &str, count: usize) -> String {
    let mut all = String::new(rt.alloc());
    for _ in 0..count {
        unwrap(rt, all.push_str(text));
    }
    all
}

/// The output in a reply, and what follows its last piece.
fn output_in<'r>(rt: &impl Tester, reply: &'r [u8]) -> (Vec<u8>, &'r [u8]) {
    let mut output = Vec::new(rt.alloc());
    let mut rest = reply.get(1..).unwrap_or(&[]);
    for _ in 0..reply.len() {
        let Some((&[3, a, b, c, d], pieces)) = rest.split_first_chunk::<5>() else {
            break;
        };
        let size = u32::from_be_bytes([a, b, c, d]) as usize;
        unwrap(
            rt,
            output.extend_from_slice(pieces.get(..size).unwrap_or(&[])),
        );
        rest = pieces.get(size..).unwrap_or(&[]);
    }
    (output, rest)
}

/// A socket takes about 200,000 bytes of which nothing is read.
#[test]
fn what_a_socket_does_not_take_is_sent_before_the_end(rt: HostRuntime) {
    let paths = times(&rt, PATH, 10_000);
    let Operators {
        callers,
        mut readers,
    } = operators_of(&rt, &rt, &[(ZOE, paths.as_str())]);
    let listener = unwrap(&rt, listen(&rt, ANY));
    let mut script = script_of(&rt, &rt, &listener, callers, Vec::new(rt.alloc()));
    assert!(rt; serve(&rt, &rt, &mut script, Form::Rows, &[]).is_err());
    let Some(reader) = readers.first_mut() else {
        panic!(&rt; "there is no operator");
    };
    let reply = read_on(&rt, &rt, &mut script.queue, reader);
    let (output, end) = output_in(&rt, reply.as_slice());
    assert!(rt; output.as_slice() == times(&rt, DENIED, 10_000).as_bytes());
    assert!(rt; end == b"\x01".as_slice());
}

/// Lines of a status.
const STATUS: &[&str] = &[
    "custody_longest_wait_seconds 1.500",
    "custody_longest_transfer_wait_seconds 2.500",
    "custody_sending_connections 2",
    "custody_waiting_connections 1",
    "custody_database_bytes{file=\"database\"} 4096",
    "custody_database_bytes{file=\"log\"} 8192",
    "process_resident_memory_bytes 12288",
    "custody_repository_stored_bytes{repository=\"studio/film\"} 0",
    "custody_repository_quota_bytes{repository=\"studio/film\"} 1000000",
    "custody_repository_locks_made_total{repository=\"studio/film\"} 0",
    "custody_operators_total{result=\"answered\"} 1",
    "custody_operators_total{result=\"refused\"} 0",
];

/// Lines of a status with a file of contents, and of none without.
const CONTENTS: &[&str] = &[
    "custody_database_bytes{file=\"contents\"} 0",
    "custody_contents_bytes{state=\"kept\"} 0",
    "custody_contents_bytes{state=\"free\"} 0",
];

/// The status of a server over a database of this form.
fn status_over(rt: &impl Tester, host: &HostRuntime, form: Form) -> String {
    let Operators {
        callers,
        mut readers,
    } = operators_of(rt, host, &[("sweep", ""), ("status", "")]);
    let listener = unwrap(rt, listen(host, ANY));
    let mut script = script_of(rt, host, &listener, callers, Vec::new(rt.alloc()));
    assert!(rt; serve(rt, host, &mut script, form, &[]).is_err());
    let Some(reader) = readers.get_mut(1) else {
        panic!(rt; "there is no second operator");
    };
    let reply = reply_to(rt, reader);
    let text = str::from_utf8(reply.as_slice().get(6..).unwrap_or(&[])).unwrap_or("");
    unwrap(rt, text.to_owned(rt.alloc()))
}

/// Asserts that the status has each of the lines, or none.
fn expect_lines(rt: &impl Tester, status: &str, lines: &[&str], has: bool) {
    for line in lines {
        assert!(rt; status.lines().any(|found| found == *line) == has, "{line}");
    }
}

#[test]
fn a_status_has_what_the_machine_knows(rt: HostRuntime) {
    for form in FORMS {
        let status = status_over(&rt, &rt, form);
        expect_lines(&rt, status.as_str(), STATUS, true);
        expect_lines(&rt, status.as_str(), CONTENTS, matches!(form, Form::File));
    }
}
