//! The order in which the callers of a server are answered: operators and clients in turn, clients as their messages arrive.

use crate::harness::{Tester, unwrap};
use outbox::OperatorStream;
use sockets::{
    Caller, Cause, Client, Course, Ended, Extent, Framing, Limits, MessageKind, Queue, listen,
};
use std::cell::Cell;
use std::fs;
use std::io::{self, Read, Write};
use std::net::{Shutdown, TcpListener, TcpStream};
use std::os::unix::net::{UnixListener, UnixStream};
use std::rt::HostRuntime;
use std::time::{Clock, Duration, Instant};

/// Messages of a letter, the number of bytes of the body, the end of the line, and the body.
#[derive(Clone, Copy)]
struct Letters;

/// The size of the body after this line.
fn body_of(line: &[u8]) -> u64 {
    let digits = line.get(1..).unwrap_or(&[]);
    match str::from_utf8(digits) {
        Ok(text) => text.parse().unwrap_or(0),
        Err(_) => 0,
    }
}

impl Framing for Letters {
    fn extent(&self, bytes: &[u8]) -> Extent {
        match bytes.iter().position(|byte| *byte == b'\n') {
            Some(end) => Extent::Message {
                head: end.saturating_add(1),
                body: body_of(bytes.get(..end).unwrap_or(&[])),
                kind: match bytes.first() {
                    Some(b't'..=b'v') => MessageKind::Upload,
                    Some(b'w'..=b'z') => MessageKind::Download,
                    _ => MessageKind::Short,
                },
            },
            None if bytes.len() >= 16_384 => Extent::Refused,
            None => Extent::Head,
        }
    }
}

/// Where the callers connect.
#[derive(Clone, Copy)]
struct Listeners<'a> {
    clients: &'a TcpListener,
    operators: Option<&'a UnixListener>,
}

/// A queue that keeps at most this many connections.
fn queue_of<'a>(
    rt: &impl Tester,
    host: &HostRuntime,
    listeners: Listeners<'a>,
    connections: usize,
) -> Queue<'a> {
    let limits = Limits {
        idle: Duration::from_secs(30),
        connections,
    };
    unwrap(
        rt,
        Queue::new(host, listeners.clients, listeners.operators, limits),
    )
}

/// Reads the message of a client's turn, writes this reply, and ends the turn. Returns the message's letter and its size.
fn reply(
    host: &HostRuntime,
    clock: &impl Clock,
    queue: &mut Queue<'_>,
    mut client: Client,
    reply: &[u8],
) -> io::Result<(u8, u64)> {
    client.number = Some(1);
    let mut front = client.begin(host.alloc())?;
    let course = Cell::new(Course::new());
    let (mut reader, mut writer) = queue.stream_pair(&mut client, host, &course, &mut front);
    let mut message = Vec::new(host.alloc());
    let size = reader.read_to_end(&mut message)?;
    for piece in reply.chunks(10_000) {
        writer.write_all(piece)?;
    }
    queue.put_back(client, &front, clock, &Letters)?;
    Ok((message.first().copied().unwrap_or(b'?'), size as u64))
}

/// The same without a reply.
fn serve(
    host: &HostRuntime,
    clock: &impl Clock,
    queue: &mut Queue<'_>,
    client: Client,
) -> io::Result<(u8, u64)> {
    reply(host, clock, queue, client, b"")
}

/// Answers a caller. Returns the letter of its message and its size; a minus sign for a connection that ended, and a question
/// mark for nobody.
fn answer(
    host: &HostRuntime,
    queue: &mut Queue<'_>,
    caller: Option<Caller>,
) -> io::Result<(u8, u64)> {
    match caller {
        Some(Caller::Client(client)) => serve(host, host, queue, client),
        Some(Caller::Operator(operator)) => {
            let mut letter = [0];
            let mut stream = queue.stream_of(&operator);
            stream.read_exact(&mut letter)?;
            Ok((letter[0], 1))
        }
        None => {
            let ended = queue.ended();
            Ok((if ended.is_some() { b'-' } else { b'?' }, 0))
        }
    }
}

/// Answers the next caller.
fn take(host: &HostRuntime, queue: &mut Queue<'_>) -> io::Result<(u8, u64)> {
    let caller = queue.take(host, &Letters)?;
    answer(host, queue, caller)
}

/// Answers the next caller, if one is ready now.
fn take_ready(host: &HostRuntime, queue: &mut Queue<'_>) -> io::Result<(u8, u64)> {
    let caller = queue.take_ready(host, &Letters)?;
    answer(host, queue, caller)
}

/// What happens at the listeners, and what is recorded. A capital letter is an operator who connects, a small one a client
/// that sends a message; `!` answers the next caller, whose letter is recorded, and `?` does so if one is ready now.
const CASES: &[(&str, &str)] = &[
    ("ABCabc!!!!!!", "AaBbCc"),
    ("abcABC!!!!!!", "AaBbCc"),
    // Those of one kind alone, and those who are more.
    ("ABC!!!", "ABC"),
    ("abc!!!", "abc"),
    ("ABCDa!!!!!", "AaBCD"),
    ("Aabcd!!!!!", "Aabcd"),
    // Letters from t on are transfers: short messages are before them, but none that came after a transfer could be next.
    ("tuab!!!!", "abtu"),
    ("tuvab!!!!!", "abtuv"),
    ("tua!b!!!", "atbu"),
    ("t!ab!u!!", "tabu"),
    // After a client who was alone an operator comes first, and after an operator a client.
    ("a!bcB!!!", "aBbc"),
    ("A!BCb!!!", "AbBC"),
    // With nobody there, and in turn.
    ("?A??abB????", "?A?aBb?"),
];

/// Connects a client.
fn connect(rt: &impl Tester, host: &HostRuntime, listener: &TcpListener) -> TcpStream {
    let address = unwrap(rt, listener.local_addr());
    let stream = unwrap(rt, TcpStream::connect(host, address));
    unwrap(rt, stream.set_nodelay(true));
    stream
}

/// The place of the operators' socket.
const SOCKET: &str = "in_turn";

/// Plays what happens, and compares the record.
fn play(rt: &impl Tester, host: &HostRuntime, listeners: Listeners<'_>, case: (&str, &str)) {
    let (happens, wanted) = case;
    let mut queue = queue_of(rt, host, listeners, 10);
    let mut clients = Vec::new(rt.alloc());
    let mut record = Vec::new(rt.alloc());
    for letter in happens.bytes() {
        if letter == b'!' {
            unwrap(rt, record.push(unwrap(rt, take(host, &mut queue)).0));
        } else if letter == b'?' {
            unwrap(rt, record.push(unwrap(rt, take_ready(host, &mut queue)).0));
        } else if letter.is_ascii_uppercase() {
            let mut operator = unwrap(rt, UnixStream::connect(host, SOCKET));
            unwrap(rt, operator.write_all(&[letter]));
        } else {
            let mut client = connect(rt, host, listeners.clients);
            unwrap(rt, client.write_all(&[letter, b'\n']));
            unwrap(rt, clients.push(client));
        }
    }
    assert!(rt; record.as_slice() == wanted.as_bytes(), "{happens}");
}

#[test]
fn operators_and_clients_are_answered_in_turn(rt: HostRuntime) {
    let _ = fs::remove_file(&rt, SOCKET);
    let clients = unwrap(&rt, listen(&rt, "127.0.0.1:0"));
    let operators = unwrap(&rt, UnixListener::bind(&rt, SOCKET));
    let listeners = Listeners {
        clients: &clients,
        operators: Some(&operators),
    };
    for case in CASES {
        play(&rt, &rt, listeners, *case);
    }
    unwrap(&rt, fs::remove_file(&rt, SOCKET));
}

/// What clients do, in a queue of three connections; and which messages are served, or that a connection ended.
///
/// `+x` connects the client `x`, `x=TEXT` sends the text, with `/` for the end of a line, `x.` ends its side, and `!`
/// answers the next caller.
const STEPS: &[(&str, &str)] = &[
    // A second message in halves, beside another client.
    ("+a +b a=a0/a ! b=b0/ ! a=0/ !", "aba"),
    // Many messages at once, and a client that comes later.
    ("+a a=a0/a0/a0/ +b b=b0/ ! ! ! !", "abaa"),
    // Half a head beside others, and its end after a turn.
    ("+a a=a0/a ! +b b=b0/ ! a. b=b0/ ! !", "ab-b"),
    // A body in halves. That of a long message is awaited in its turn alone.
    ("+a a=a3/xy +b b=b0/ ! a=z !", "ba"),
    // A fourth connection: the client that was silent for longest gives way.
    ("+a +b +c +d b=b0/ ! d=d0/ ! c=c0/ !", "bdc"),
];

/// The client of this letter, among those in alphabetical order.
fn place_of(letter: u8) -> usize {
    usize::from(letter.wrapping_sub(b'a'))
}

/// Does a step of a client's letter: sends a text, or ends the client's side.
fn act(rt: &impl Tester, clients: &mut [TcpStream], letter: u8, step: &str) {
    let client = unwrap(rt, clients.get_mut(place_of(letter)).ok_or(()));
    match step.split_once("=") {
        Some((_, text)) => {
            let text = unwrap(rt, text.replace(rt.alloc(), "/", "\n"));
            unwrap(rt, client.write_all(text.as_bytes()));
        }
        None => unwrap(rt, client.shutdown(Shutdown::Write)),
    }
}

/// Does the steps, and compares the record.
fn follow(rt: &impl Tester, host: &HostRuntime, listeners: Listeners<'_>, steps: (&str, &str)) {
    let mut queue = queue_of(rt, host, listeners, 3);
    let mut clients = Vec::new(rt.alloc());
    let mut record = Vec::new(rt.alloc());
    for step in steps.0.split(' ') {
        match step.bytes().next() {
            Some(b'!') => unwrap(rt, record.push(unwrap(rt, take(host, &mut queue)).0)),
            Some(b'+') => unwrap(rt, clients.push(connect(rt, host, listeners.clients))),
            Some(letter) => act(rt, clients.as_mut_slice(), letter, step),
            None => {}
        }
    }
    assert!(rt; record.as_slice() == steps.1.as_bytes(), "{}", steps.0);
}

#[test]
fn clients_are_answered_as_their_messages_arrive(rt: HostRuntime) {
    let clients = unwrap(&rt, listen(&rt, "127.0.0.1:0"));
    let listeners = Listeners {
        clients: &clients,
        operators: None,
    };
    for steps in STEPS {
        follow(&rt, &rt, listeners, *steps);
    }
}

/// The number of bytes of the longest head.
const LONGEST: u64 = 16_384;

#[test]
fn a_head_that_arrives_byte_by_byte_holds_nobody_up(rt: HostRuntime) {
    let listener = unwrap(&rt, listen(&rt, "127.0.0.1:0"));
    let listeners = Listeners {
        clients: &listener,
        operators: None,
    };
    let mut queue = queue_of(&rt, &rt, listeners, 3);
    let mut slow = connect(&rt, &rt, &listener);
    let mut other = connect(&rt, &rt, &listener);
    for _ in 1..LONGEST {
        unwrap(&rt, slow.write_all(b"a"));
        unwrap(&rt, other.write_all(b"b0\n"));
        assert!(&rt; unwrap(&rt, take(&rt, &mut queue)) == (b'b', 3));
    }
    unwrap(&rt, slow.write_all(b"\n"));
    assert!(&rt; unwrap(&rt, take(&rt, &mut queue)) == (b'a', LONGEST));
}

/// A clock that runs 200 milliseconds ahead at each look.
#[derive(Drop)]
struct FastClock<'a> {
    host: &'a HostRuntime,
    looks: Cell<u64>,
}

impl Clock for FastClock<'_> {
    fn monotonic(&self) -> io::Result<Duration> {
        let looks = self.looks.get().saturating_add(1);
        self.looks.set(looks);
        let ahead = Duration::from_millis(looks.saturating_mul(200));
        Ok(self.host.monotonic()?.saturating_add(ahead))
    }

    fn since_1970(&self) -> io::Result<Duration> {
        self.host.since_1970()
    }
}

/// The clock of a test, from now on.
fn fast_clock(host: &HostRuntime) -> FastClock<'_> {
    FastClock {
        host,
        looks: Cell::new(0),
    }
}

/// Sends a client bytes until his socket takes no more. Returns how many.
fn fill(rt: &impl Tester, host: &HostRuntime, client: &mut Client) -> usize {
    let now = unwrap(rt, Instant::now(host));
    let mut sent = 0_usize;
    for _ in 0..100_000 {
        match unwrap(rt, client.send(&[b'a'; 4_096], now)) {
            0 => break,
            count => sent = sent.saturating_add(count),
        }
    }
    sent
}

/// The client whose turn it is.
fn next_client(rt: &impl Tester, host: &HostRuntime, queue: &mut Queue<'_>) -> Client {
    match unwrap(rt, queue.take(host, &Letters)) {
        Some(Caller::Client(client)) => client,
        _ => panic!(rt; "no client is ready"),
    }
}

/// The number of messages of another client, two looks at the clock each, before a client is closed that sends this after
/// its first message and nothing more, and takes nothing of this reply; and why it is closed. The other has 100 messages at
/// most.
fn messages_before_the_end(
    rt: &impl Tester,
    host: &HostRuntime,
    beginning: &[u8],
    text: &[u8],
) -> (usize, Option<Ended>) {
    let listener = unwrap(rt, listen(host, "127.0.0.1:0"));
    let listeners = Listeners {
        clients: &listener,
        operators: None,
    };
    let mut queue = queue_of(rt, host, listeners, 3);
    let mut client = connect(rt, host, &listener);
    let mut other = connect(rt, host, &listener);
    unwrap(rt, client.write_all(b"a0\n"));
    let mut turn = next_client(rt, host, &mut queue);
    if !text.is_empty() {
        fill(rt, host, &mut turn);
    }
    unwrap(rt, reply(host, host, &mut queue, turn, text));
    unwrap(rt, client.write_all(beginning));
    let clock = fast_clock(host);
    for count in 0..100 {
        unwrap(rt, other.write_all(b"b0\n"));
        let Some(Caller::Client(turn)) = unwrap(rt, queue.take(&clock, &Letters)) else {
            return (count, queue.ended());
        };
        unwrap(rt, serve(host, &clock, &mut queue, turn));
    }
    (100, None)
}

#[test]
fn a_client_that_does_nothing_more_is_closed(rt: HostRuntime) {
    let cases = [
        (b"".as_slice(), b"".as_slice(), Cause::InputEnded),
        (b"a".as_slice(), b"".as_slice(), Cause::InputEnded),
        (b"a0\n".as_slice(), b"end".as_slice(), Cause::WriteFailed),
    ];
    // 30 seconds are 75 messages of the other, or fewer on a slow machine.
    for (beginning, text, cause) in cases {
        let (count, ended) = messages_before_the_end(&rt, &rt, beginning, text);
        assert!(rt; count > 40 && count < 77, "{count}");
        assert!(rt; ended.is_some_and(|ended| ended.number == 1 && ended.cause == cause));
    }
}

/// Reads this many bytes, and answers who is ready after each read. Returns the bytes and the letters of the messages.
fn read_beside(
    rt: &impl Tester,
    host: &HostRuntime,
    queue: &mut Queue<'_>,
    client: &mut TcpStream,
    size: usize,
) -> (Vec<u8>, Vec<u8>) {
    let (mut bytes, mut letters) = (Vec::new(rt.alloc()), Vec::new(rt.alloc()));
    let mut piece = [0; 4_096];
    for _ in 0..size {
        let most = piece.len().min(size.saturating_sub(bytes.len()));
        if most == 0 {
            break;
        }
        let count = unwrap(rt, client.read(piece.get_mut(..most).unwrap_or(&mut [])));
        unwrap(
            rt,
            bytes.extend_from_slice(piece.get(..count).unwrap_or(&[])),
        );
        unwrap(rt, letters.push(unwrap(rt, take_ready(host, queue)).0));
    }
    letters.retain(|letter| *letter != b'?');
    (bytes, letters)
}

#[test]
fn a_reply_that_is_not_read_holds_nobody_up(rt: HostRuntime) {
    let listener = unwrap(&rt, listen(&rt, "127.0.0.1:0"));
    let listeners = Listeners {
        clients: &listener,
        operators: None,
    };
    let mut queue = queue_of(&rt, &rt, listeners, 3);
    let text = long_reply(&rt);
    let mut client = connect(&rt, &rt, &listener);
    let mut other = connect(&rt, &rt, &listener);
    unwrap(&rt, client.write_all(b"a0\na0\n"));
    let mut turn = next_client(&rt, &rt, &mut queue);
    let filled = fill(&rt, &rt, &mut turn);
    unwrap(&rt, reply(&rt, &rt, &mut queue, turn, text.as_slice()));
    assert!(rt; queue.under_way() == 1 && queue.waiting() == 0);
    for _ in 0..3 {
        unwrap(&rt, other.write_all(b"b0\n"));
        assert!(rt; unwrap(&rt, take(&rt, &mut queue)) == (b'b', 3));
    }
    // The next message of the connection is answered when all of the reply is sent.
    assert!(rt; unwrap(&rt, take_ready(&rt, &mut queue)).0 == b'?');
    let size = filled.saturating_add(text.len());
    let (bytes, letters) = read_beside(&rt, &rt, &mut queue, &mut client, size);
    assert!(rt; bytes.as_slice().get(filled..) == Some(text.as_slice()));
    assert!(rt; letters.as_slice() == b"a".as_slice());
    assert!(rt; queue.under_way() == 0);
}

#[test]
fn a_reply_is_sent_before_its_connection_is_closed(rt: HostRuntime) {
    let listener = unwrap(&rt, listen(&rt, "127.0.0.1:0"));
    let listeners = Listeners {
        clients: &listener,
        operators: None,
    };
    let mut queue = queue_of(&rt, &rt, listeners, 3);
    let mut client = connect(&rt, &rt, &listener);
    unwrap(&rt, client.write_all(b"a0\n"));
    let mut turn = next_client(&rt, &rt, &mut queue);
    let filled = fill(&rt, &rt, &mut turn);
    let mut front = unwrap(&rt, turn.begin(rt.alloc()));
    let course = Cell::new(Course::new());
    let (_, mut writer) = queue.stream_pair(&mut turn, &rt, &course, &mut front);
    unwrap(&rt, writer.write_all(b"end"));
    assert!(rt; unwrap(&rt, queue.dismiss(turn, &rt, &Letters)));
    assert!(rt; queue.under_way() == 1);
    let size = filled.saturating_add(3);
    let (bytes, _) = read_beside(&rt, &rt, &mut queue, &mut client, size);
    assert!(rt; bytes.as_slice().get(filled..) == Some(b"end".as_slice()));
    assert!(rt; unwrap(&rt, take_ready(&rt, &mut queue)).0 == b'?');
    assert!(rt; unwrap(&rt, client.read(&mut [0])) == 0);
}

#[test]
fn a_long_message_is_awaited_whole_unless_it_is_an_upload(rt: HostRuntime) {
    let listener = unwrap(&rt, listen(&rt, "127.0.0.1:0"));
    let listeners = Listeners {
        clients: &listener,
        operators: None,
    };
    let mut queue = queue_of(&rt, &rt, listeners, 3);
    let half = unwrap(&rt, "a".repeat(rt.alloc(), 100_000));
    let mut slow = connect(&rt, &rt, &listener);
    unwrap(&rt, slow.write_all(b"a200000\n"));
    unwrap(&rt, slow.write_all(half.as_bytes()));
    let mut other = connect(&rt, &rt, &listener);
    unwrap(&rt, other.write_all(b"b0\n"));
    assert!(rt; unwrap(&rt, take(&rt, &mut queue)) == (b'b', 3));
    unwrap(&rt, slow.write_all(half.as_bytes()));
    assert!(rt; unwrap(&rt, take(&rt, &mut queue)) == (b'a', 200_008));
    unwrap(&rt, other.write_all(b"t200000\n"));
    assert!(rt; unwrap(&rt, queue.take(&rt, &Letters)).is_some());
}

/// A client that takes nothing of an object is taken again when it is late, or when another one needs its place; and then
/// nothing can be sent to it.
#[test]
fn a_client_that_takes_nothing_of_an_object_is_given_up(rt: HostRuntime) {
    for (connections, least, most) in [(3, 120, 160), (1, 20, 40)] {
        let listener = unwrap(&rt, listen(&rt, "127.0.0.1:0"));
        let listeners = Listeners {
            clients: &listener,
            operators: None,
        };
        let mut queue = queue_of(&rt, &rt, listeners, connections);
        let mut client = connect(&rt, &rt, &listener);
        unwrap(&rt, client.write_all(b"w0\n"));
        let mut turn = next_client(&rt, &rt, &mut queue);
        turn.number = Some(7);
        fill(&rt, &rt, &mut turn);
        queue.put_aside(turn, false);
        let _other = connect(&rt, &rt, &listener);
        let clock = fast_clock(&rt);
        let mut looks = 0;
        for count in 0..200 {
            looks = count;
            if let Some(Caller::Client(mut turn)) = unwrap(
                &rt,
                queue.take_ready(&clock, &Letters),
            ) {
                let now = unwrap(&rt, Instant::now(&clock));
                assert!(rt; turn.number == Some(7) && turn.send(b"a", now).is_err());
                queue.close(turn);
                break;
            }
        }
        assert!(rt; looks > least && looks < most, "{looks}");
        assert!(rt; queue.ended().is_none() && queue.under_way() == 0);
    }
}

/// More clients than the 128 for which a listener usually has room.
const CLIENTS: usize = 200;

#[test]
fn two_hundred_clients_connect_before_one_is_accepted(rt: HostRuntime) {
    let listener = unwrap(&rt, listen(&rt, "127.0.0.1:0"));
    let address = unwrap(&rt, listener.local_addr());
    let mut waiting = Vec::new(rt.alloc());
    for _ in 0..CLIENTS {
        let client = unwrap(&rt, TcpStream::connect(&rt, address));
        unwrap(&rt, waiting.push(client));
    }
    assert!(rt; waiting.len() == CLIENTS);
}

/// The bytes that a test sends to an operator: more than a socket takes of which nothing is read, and all different nearby.
fn long_reply(rt: &impl Tester) -> Vec<u8> {
    let mut bytes = Vec::new(rt.alloc());
    for number in 0..300_000_u32 {
        unwrap(rt, bytes.extend_from_slice(&number.to_be_bytes()));
    }
    bytes
}

/// Begins a reply, ends it, and closes the server's side. Returns that of the operator.
fn reply_late(
    rt: &impl Tester,
    host: &HostRuntime,
    queue: &mut Queue<'_>,
    reply: &[u8],
) -> UnixStream {
    let (operator, reader) = unwrap(rt, UnixStream::pair(host));
    let operator = OperatorStream::new(operator);
    for piece in reply.chunks(10_000) {
        unwrap(rt, queue.send(&operator, piece));
    }
    unwrap(rt, queue.end_reply(&operator, b"end", host));
    reader
}

/// Reads all of a reply, and has the queue look after each read. Nobody calls meanwhile.
pub(crate) fn read_on(
    rt: &impl Tester,
    host: &HostRuntime,
    queue: &mut Queue<'_>,
    reader: &mut UnixStream,
) -> Vec<u8> {
    let mut all = Vec::new(rt.alloc());
    let mut piece = [0; 4_096];
    for _ in 0..1_000 {
        let count = unwrap(rt, reader.read(&mut piece));
        if count == 0 {
            break;
        }
        unwrap(rt, all.extend_from_slice(piece.get(..count).unwrap_or(&[])));
        assert!(rt; unwrap(rt, take_ready(host, queue)).0 == b'?');
    }
    all
}

#[test]
fn a_reply_is_sent_as_its_operator_reads(rt: HostRuntime) {
    let listener = unwrap(&rt, listen(&rt, "127.0.0.1:0"));
    let listeners = Listeners {
        clients: &listener,
        operators: None,
    };
    let mut queue = queue_of(&rt, &rt, listeners, 3);
    let mut reply = long_reply(&rt);
    let mut reader = reply_late(&rt, &rt, &mut queue, reply.as_slice());
    let mut client = connect(&rt, &rt, &listener);
    unwrap(&rt, client.write_all(b"a0\n"));
    assert!(rt; unwrap(&rt, take(&rt, &mut queue)) == (b'a', 3));
    let all = read_on(&rt, &rt, &mut queue, &mut reader);
    unwrap(&rt, reply.extend_from_slice(b"end"));
    assert!(rt; all.as_slice() == reply.as_slice());
}

/// Eight replies are sent while others are served. The ninth takes the place of the first, which has waited for longest, and
/// has no end then. A queue that settles leaves all of them after two seconds.
#[test]
fn the_operator_who_is_silent_for_longest_gives_way(rt: HostRuntime) {
    let listener = unwrap(&rt, listen(&rt, "127.0.0.1:0"));
    let listeners = Listeners {
        clients: &listener,
        operators: None,
    };
    let mut queue = queue_of(&rt, &rt, listeners, 3);
    let mut reply = long_reply(&rt);
    let mut readers = Vec::new(rt.alloc());
    for _ in 0..9 {
        let reader = reply_late(&rt, &rt, &mut queue, reply.as_slice());
        unwrap(&rt, readers.push(reader));
    }
    unwrap(&rt, reply.extend_from_slice(b"end"));
    let mut whole = Vec::new(rt.alloc());
    for reader in readers.iter_mut().take(2) {
        let all = read_on(&rt, &rt, &mut queue, reader);
        assert!(rt; reply.as_slice().starts_with(all.as_slice()));
        unwrap(&rt, whole.push(all.len() == reply.len()));
    }
    assert!(rt; whole.as_slice() == [false, true].as_slice());
    unwrap(&rt, queue.settle(&rt, &Letters));
    for reader in readers.iter_mut().skip(2) {
        let mut all = Vec::new(rt.alloc());
        unwrap(&rt, reader.read_to_end(&mut all));
        assert!(rt; all.len() < reply.len() && reply.as_slice().starts_with(all.as_slice()));
    }
}
