//! The pieces in which an operator gets what his command prints.

ghost use Rattle.std.specs.Prelude.{◌≡◌, ◌<◌, ◌≤◌, ◌++◌, [], length, None, OnErr, OnOk, List};
ghost use Rattle.control.specs.Replies.{IsPieceSize, longest_piece, piece_bytes};
ghost use Rattle.server.specs.Commands.{ArePieces, AreSent};
ghost use Rattle.server.specs.Jobs.{Call, Calls, seen_in};

use control::{LONGEST_PIECE, Stream, piece_head};
use faults::Fault;
use machine::Machine;
use memchr::memrchr;
use names::{DeviceFault, Sink};
use outbox::OperatorStream;
use std::alloc::{AllocError, Global};

/// What a command prints: the pieces of its reply, which are kept until they are sent. Each write is a piece; a longer write
/// ends with a line, if it has one.
#[derive(Drop)]
pub(crate) struct Pieces {
    alloc: Global,
    /// The pieces that were not sent.
    bytes: Vec<u8>,
    failures: u64,
    pub ghost are_pieces: { ArePieces bytes.items },
}

/// How many bytes of a write are sent in one piece: all of them, or those of the lines that fit.
fn size_of_piece(text: &[u8]) -> usize
    ensures within { result ≤ length text.now }
    ensures short { result ≤ longest_piece }
    ensures some { 0 < length text.now → 0 < result }
{
    let Some(first) = text.get(..LONGEST_PIECE) else {
        return text.len();
    };
    match memrchr(b'\n', first) {
        Some(index) => index + 1,
        None => LONGEST_PIECE,
    }
}

impl Pieces {
    /// No pieces yet.
    pub(crate) fn new(alloc: Global) -> Pieces {
        Pieces {
            alloc,
            bytes: Vec::new(alloc),
            failures: 0,
        }
    }

    /// Adds a piece of a stream.
    ///
    /// # Errors
    ///
    /// Memory ran out, and nothing is added.
    fn push(&mut self, stream: Stream, content: &[u8]) -> Result<(), AllocError>
        requires { IsPieceSize (length content.now) }
        ensures ok { OnOk result (self.new.bytes.items ≡ self.old.bytes.items
            ++ piece_bytes (record { stream = stream; content = content.now })) }
        ensures failures { self.new.failures ≡ self.old.failures }
    {
        let mut piece = Vec::new(self.alloc);
        piece.extend_from_slice(&piece_head(stream, content.len()))?;
        piece.extend_from_slice(content)?;
        self.bytes.extend_from_slice(piece.as_slice())?;
        Ok(())
    }

    /// Adds the text that a command wrote to its error stream, or the first 65,536 bytes of it.
    ///
    /// # Errors
    ///
    /// Memory ran out, and nothing is added.
    pub(crate) fn push_errors(&mut self, text: &[u8]) -> Result<(), AllocError> {
        if text.is_empty() {
            return Ok(());
        }
        self.push(Stream::Errors, &text[..text.len().min(LONGEST_PIECE)])
    }

    /// Adds how far the command is, in a text of at most 65,536 bytes.
    ///
    /// # Errors
    ///
    /// Memory ran out, and nothing is added.
    pub(crate) fn push_progress(&mut self, text: &[u8]) -> Result<(), AllocError> {
        if text.is_empty() {
            return Ok(());
        }
        self.push(Stream::Progress, &text[..text.len().min(LONGEST_PIECE)])
    }

    /// Sends the pieces to the operator.
    ///
    /// # Errors
    ///
    /// `Operator` if he has gone, and `Memory`. None is dropped then.
    pub(crate) fn send<M: Machine>(
        &mut self,
        machine: &mut M,
        operator: &OperatorStream,
    ) -> Result<(), Fault>
        ensures ok { OnOk result ((calls : List Call) × Calls M.Machine machine.old calls machine.new
            × AreSent operator.now (seen_in calls)) }
        ensures err { OnErr result ((calls : List Call) × Calls M.Machine machine.old calls machine.new
            × (seen_in calls ≡ [])) }
        ensures failures { self.new.failures ≡ self.old.failures }
    {
        machine.send(operator, self.bytes.as_slice())?;
        self.bytes.clear();
        Ok(())
    }
}

impl Sink for Pieces {
    // What the pieces say is not what the sink takes.
    ghost taken = { λ _. None };

    ghost failed = { λ pieces. pieces.failures };

    fn write(&mut self, text: &[u8]) -> Result<usize, DeviceFault> {
        let size = size_of_piece(text);
        if size > 0 && self.push(Stream::Output, &text[..size]).is_err() {
            self.failures = self.failures.saturating_add(1);
            return Err(DeviceFault);
        }
        Ok(size)
    }

    fn failures(&self) -> u64 {
        self.failures
    }
}
