//! Asks a running server to run a command.

ghost use Rattle.std.specs.Prelude.{◌≡◌, ◌⊎◌, ℕ, List, Option, [], ◌∷◌, length, IfErr, IfOk, OnOk};
ghost use Rattle.std.specs.Io.KnownBytes.{Appends, Consumes};
ghost use Rattle.control.specs.Fields.{field};
ghost use Rattle.control.specs.Replies.{IsPieceSize};
ghost use Rattle.control.specs.Versions.{version};
ghost use Rattle.cli.specs.Asked.{EndsAsAnswered, IsFramePrinted, IsUnasked, IsPiecePrinted, IsReplyPrinted, IsRequestFor, IsRestPrinted, IsUnread, HasOtherVersion, ending, wanted_of};

use crate::address::{Outlet, ServerAddress, ServerConnection};
use crate::inputs::{read_exactly, read_input, skip};
use crate::progress::ProgressLine;
use command_line::OperatorCommand;
use control::{
    LONGEST_REQUEST, Start, Status, Stream, VERSION, frame_start, piece_size, request_bytes,
};
use faults::Fault;
use names::{Sink, Source};
use operator::{Destination, LONGEST_PATHS, print, shown};
use std::alloc::Global;
use std::io::{self, IsTerminal, Stderr, Write};
use std::rt::HostRuntime;

/// How many bytes of its input a command may want: one more than it takes, so that a longer input is noticed.
fn wanted_of(command: &OperatorCommand<'_>) -> usize
    ensures { result ≡ wanted_of command.now }
{
    match command {
        OperatorCommand::PushCheck(_) => LONGEST_PATHS as usize,
        OperatorCommand::Foresee(_) => LONGEST_REQUEST + 1,
        _ => 0,
    }
}

/// The request for a command, with the input that the command reads.
///
/// # Errors
///
/// `InputTooLong`, `Output` if the input could not be read, and `Memory`.
pub fn request_of<R: Source>(
    alloc: Global,
    command: &OperatorCommand<'_>,
    input: &mut R,
) -> Result<Vec<u8>, Fault>
    ensures ok { IfOk result (λ bytes.
        IsRequestFor command.now (R.left input.old) (R.left input.new) bytes.items) }
    ensures err { IfErr result IsUnasked }
{
    let words = command.words(alloc)?;
    let input = read_input(alloc, input, wanted_of(command))?;
    Ok(request_bytes(alloc, input.as_slice(), words.as_slice())?)
}

/// How the command ended that a server ran.
fn ending(status: Status) -> Result<(), Fault>
    ensures { result ≡ ending status }
{
    match status {
        Status::Good => Ok(()),
        Status::Refused => Err(Fault::Reported),
        Status::Invalid => Err(Fault::ReportedInvalid),
    }
}

/// Writes on the error stream what the command has written on its own.
fn write_errors<E: Write>(errors: &mut E, text: &[u8]) -> io::Result<()> {
    errors.write_all(text)?;
    errors.flush()
}

/// Reads the first byte of a reply or of a frame.
///
/// # Errors
///
/// `Control` if there is none, and `Memory`.
fn read_byte<R: Source>(alloc: Global, source: &mut R) -> Result<u8, Fault>
    ensures byte { IfOk result (λ byte.
        Consumes (R.left source.old) (R.left source.new) (byte ∷ [])) }
    ensures err { IfErr result IsUnread }
{
    let bytes = read_exactly(alloc, source, 1)?;
    match bytes.as_slice() {
        [byte] => Ok(*byte),
        _ => Err(Fault::Control),
    }
}

/// Reads what a piece says, after its stream.
///
/// # Errors
///
/// `Control` if it is no piece, or not whole, and `Memory`.
fn read_content<R: Source>(alloc: Global, source: &mut R) -> Result<Vec<u8>, Fault>
    ensures bytes { IfOk result (λ content.
        Consumes (R.left source.old) (R.left source.new) (field content.items)) }
    ensures size { IfOk result (λ content. IsPieceSize (length content.items)) }
    ensures err { IfErr result IsUnread }
{
    let number = read_exactly(alloc, source, 4)?;
    let [a, b, c, d] = number.as_slice() else {
        return Err(Fault::Control);
    };
    let Some(size) = piece_size([*a, *b, *c, *d]) else {
        return Err(Fault::Control);
    };
    read_exactly(alloc, source, size)
}

/// How the reply of a server is printed.
#[derive(Clone, Copy)]
struct Printing {
    alloc: Global,
    destination: Destination,
}

impl Printing {
    /// Prints a piece of a stream, or shows it if it is about progress.
    ///
    /// # Errors
    ///
    /// `Output` if it could not be written, and `Memory`.
    fn print_piece<K: Sink, E: Write>(
        self,
        stream: Stream,
        content: &[u8],
        progress: &mut ProgressLine<'_>,
        output: &mut K,
        errors: &mut E,
    ) -> Result<(), Fault>
        ensures printed { IsPiecePrinted self.destination stream content.now
            (K.taken output.old) (K.taken output.new) result }
        ensures good { OnOk result (K.failed output.new ≡ K.failed output.old) }
    {
        if stream != Stream::Progress {
            progress.clear();
        }
        match stream {
            Stream::Output => {
                let printed = shown(self.alloc, content, self.destination)?;
                print(output, printed.as_slice())?;
                Ok(())
            }
            Stream::Errors if write_errors(errors, content).is_err() => Err(Fault::Output),
            Stream::Errors => Ok(()),
            Stream::Progress => {
                progress.show(content);
                Ok(())
            }
        }
    }

    /// Reads a frame of a reply and prints what it says. Returns the status at the end.
    ///
    /// # Errors
    ///
    /// `Control` if there is no whole frame, `Output` if it could not be written, and `Memory`.
    fn print_frame<R: Source, K: Sink, E: Write>(
        self,
        source: &mut R,
        progress: &mut ProgressLine<'_>,
        output: &mut K,
        errors: &mut E,
    ) -> Result<Option<Status>, Fault>
        ensures frame { IsFramePrinted (R.left source.old) (R.left source.new) self.destination
            (K.taken output.old) (K.taken output.new) result }
        ensures good { OnOk result (K.failed output.new ≡ K.failed output.old) }
    {
        let Some(start) = frame_start(read_byte(self.alloc, source)?) else {
            return Err(Fault::Control);
        };
        let stream = match start {
            Start::Piece(stream) => stream,
            Start::End(status) => return Ok(Some(status)),
        };
        let content = read_content(self.alloc, source)?;
        self.print_piece(stream, content.as_slice(), progress, output, errors)?;
        Ok(None)
    }

    /// Reads the frames that are left of a reply, and prints what they say. The result is that of the command.
    ///
    /// # Errors
    ///
    /// Those of [`print_reply`].
    fn print_rest<R: Source, K: Sink, E: Write>(
        self,
        source: &mut R,
        progress: &mut ProgressLine<'_>,
        output: &mut K,
        errors: &mut E,
    ) -> Result<(), Fault>
        ensures reply { (before : List ℕ) (start : Option (List ℕ)) → Consumes start (R.left source.old) before
            → IsRestPrinted before start (R.left source.new) self.destination
            (K.taken output.old) (K.taken output.new) result }
        ensures good { OnOk result (K.failed output.new ≡ K.failed output.old) }
    {
        'frames: for _ in 0..u64::MAX {
            if let Some(status) = self.print_frame(source, progress, output, errors)? {
                return ending(status);
            }
        }
        Err(Fault::Control)
    }
}

/// Reads the first byte of a reply.
///
/// # Errors
///
/// `Control` if there is none, `Version` if it is that of another version, and `Memory`.
fn read_version<R: Source>(alloc: Global, source: &mut R) -> Result<(), Fault>
    ensures ok { OnOk result (Consumes (R.left source.old) (R.left source.new) (version ∷ [])) }
    ensures err { IfErr result (λ fault. IsUnread fault
        ⊎ ((fault ≡ Fault.Version) × HasOtherVersion (R.left source.old) (R.left source.new))) }
{
    if read_byte(alloc, source)? == VERSION {
        Ok(())
    } else {
        Err(Fault::Version)
    }
}

/// Reads the reply of a server, and prints what its command prints, as it comes. The result is that of the command. Shows
/// its progress on the terminal, if there is one.
///
/// # Errors
///
/// `Control` if the reply does not end: the command may have been run all the same. `Version` if the server has another
/// version. `Reported` and `ReportedInvalid` with the status that the server has reported, `Output` if the output could not
/// be written, and `Memory`.
pub fn print_reply<R: Source, K: Sink, E: Write>(
    alloc: Global,
    source: &mut R,
    destination: Destination,
    terminal: Option<&Stderr>,
    output: &mut K,
    errors: &mut E,
) -> Result<(), Fault>
    ensures reply { IsReplyPrinted (R.left source.old) (R.left source.new) destination
        (K.taken output.old) (K.taken output.new) result }
    ensures good { OnOk result (K.failed output.new ≡ K.failed output.old) }
{
    read_version(alloc, source)?;
    let mut progress = ProgressLine::new(terminal);
    let printing = Printing { alloc, destination };
    let printed = printing.print_rest(source, &mut progress, output, errors);
    progress.clear();
    printed
}

/// Writes all bytes of a request.
///
/// # Errors
///
/// `Control` if a write failed.
fn send<W: Sink>(to: &mut W, request: &[u8]) -> Result<(), Fault>
    ensures sent { OnOk result (Appends (W.taken to.old) (W.taken to.new) request.now) }
    ensures err { IfErr result (λ fault. fault ≡ Fault.Control) }
{
    match print(to, request) {
        Ok(()) => Ok(()),
        Err(_) => Err(Fault::Control),
    }
}

/// A request to a server, and where the output of its reply is printed.
#[derive(Clone, Copy)]
pub struct Question<'a> {
    /// For the reply.
    pub alloc: Global,
    /// The bytes of the request.
    pub request: &'a [u8],
    /// Where the output is written to.
    pub destination: Destination,
    /// Where the progress of the command is shown; `None` if nowhere.
    pub terminal: Option<&'a Stderr>,
}

/// The question of a request, whose progress is shown on the terminal, if there is one.
fn question_of<'x>(
    alloc: Global,
    request: &'x [u8],
    destination: Destination,
    terminal: Option<&'x Stderr>,
) -> Question<'x>
    ensures request { result.request.now ≡ request.now }
    ensures destination { result.destination ≡ destination }
{
    Question {
        alloc,
        request,
        destination,
        terminal,
    }
}

impl Question<'_> {
    /// Sends the request to a server, and prints what the server replies. The result is that of the command.
    ///
    /// # Errors
    ///
    /// `Control` if the request could not be sent, and those of [`print_reply`].
    pub fn ask<W: Sink, R: Source, K: Sink, E: Write>(
        &self,
        to: &mut W,
        from: &mut R,
        output: &mut K,
        errors: &mut E,
    ) -> Result<(), Fault>
        ensures asked { (status : Status) → result ≡ ending status
            → Appends (W.taken to.old) (W.taken to.new) self.now.request.now }
        ensures reply { IsReplyPrinted (R.left from.old) (R.left from.new)
            self.now.destination (K.taken output.old) (K.taken output.new) result }
        ensures good { OnOk result (K.failed output.new ≡ K.failed output.old) }
    {
        send(to, self.request)?;
        print_reply(
            self.alloc,
            from,
            self.destination,
            self.terminal,
            output,
            errors,
        )
    }

    /// The same, and then reads on until the server has gone.
    fn ask_to_the_end<W: Sink, R: Source, K: Sink, E: Write>(
        &self,
        to: &mut W,
        from: &mut R,
        output: &mut K,
        errors: &mut E,
    ) -> Result<(), Fault>
        ensures asked { (status : Status) → result ≡ ending status
            → Appends (W.taken to.old) (W.taken to.new) self.now.request.now }
        ensures reply { (rest : Option (List ℕ)) × IsReplyPrinted (R.left from.old) rest
            self.now.destination (K.taken output.old) (K.taken output.new) result }
        ensures good { OnOk result (K.failed output.new ≡ K.failed output.old) }
    {
        let asked = self.ask(to, from, output, errors);
        let _ = skip(from);
        asked
    }

    /// The same for a server that is held: after the first piece of the reply was printed, it is held until the input
    /// ends.
    fn ask_holding<W: Outlet, R: Source, I: Source, K: Sink, E: Write>(
        &self,
        connection: &mut ServerConnection<W, R>,
        input: &mut I,
        output: &mut K,
        errors: &mut E,
    ) -> Result<(), Fault>
        ensures asked { (status : Status) → result ≡ ending status
            → Appends (W.taken connection.old.to) (W.taken connection.new.to) self.now.request.now }
        ensures reply { IsReplyPrinted (R.left connection.old.from) (R.left connection.new.from)
            self.now.destination (K.taken output.old) (K.taken output.new) result }
        ensures good { OnOk result (K.failed output.new ≡ K.failed output.old) }
    {
        let ServerConnection { to, from } = connection;
        let alloc = self.alloc;
        // A hold has no progress.
        let mut progress = ProgressLine::new(None);
        let printing = Printing {
            alloc,
            destination: self.destination,
        };
        send(to, self.request)?;
        read_version(alloc, from)?;
        if let Some(status) = printing.print_frame(from, &mut progress, output, errors)? {
            return ending(status);
        }
        // An input that cannot be read has ended too.
        let _ = skip(input);
        to.close()?;
        printing.print_rest(from, &mut progress, output, errors)
    }
}

/// Asks the server to run the command, and prints what the server prints. The command `stop` waits until the server has
/// closed its database.
///
/// # Errors
///
/// Those of [`request_of`], `Control` if the server could not be reached, and those of [`Question::ask`].
pub fn ask_at<A: ServerAddress, R: Source, K: Sink, E: Write>(
    rt: &HostRuntime,
    address: &A,
    command: &OperatorCommand<'_>,
    input: &mut R,
    destination: Destination,
    output: &mut K,
    errors: &mut E,
) -> Result<(), Fault>
    ensures answered { EndsAsAnswered (A.connects address.now) command.now (R.left input.old) destination
        (K.taken output.old) (K.taken output.new) result }
    ensures good { OnOk result (K.failed output.new ≡ K.failed output.old) }
{
    let alloc = rt.alloc();
    let request = request_of(alloc, command, input)?;
    let mut connection = address.connect()?;
    let error_stream = rt.stderr();
    let terminal = error_stream.is_terminal().then_some(&error_stream);
    let question = question_of(alloc, request.as_slice(), destination, terminal);
    match command {
        OperatorCommand::Hold(_) => question.ask_holding(&mut connection, input, output, errors),
        OperatorCommand::Stop => question.ask_to_the_end(
            &mut connection.to,
            &mut connection.from,
            output,
            errors,
        ),
        _ => question.ask(&mut connection.to, &mut connection.from, output, errors),
    }
}
