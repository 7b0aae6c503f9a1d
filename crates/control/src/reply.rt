//! Replies: what a command writes while it runs, in frames, and how it ended.

ghost use Rattle.std.specs.Prelude.{◌≡◌, ◌≢◌, ◌∷◌, ℕ, IfSome, IfNone};
ghost use Rattle.control.specs.Fields.{number_bytes};
ghost use Rattle.control.specs.Replies.{BeginsNoFrame, IsPieceSize, start_code, stream_code};

use crate::fields::number_in;
use crate::status::Status;

/// The most bytes of a piece. A piece has at least one.
pub const LONGEST_PIECE: usize = 65_536;

/// What a piece is written to.
#[derive(Clone, Copy, Debug, PartialEq, Eq)]
pub enum Stream {
    /// The output of the command.
    Output,
    /// The error stream of the command.
    Errors,
    /// How far the command is: a text that replaces the one before it. A program shows it only on a terminal.
    Progress,
}

/// What the first byte of a frame says.
#[derive(Clone, Copy, Debug, PartialEq, Eq)]
pub enum Start {
    /// A piece of this stream. The number of its bytes follows, and then the bytes.
    Piece(Stream),
    /// The end of the reply. Nothing follows.
    End(Status),
}

impl Stream {
    /// The byte that the frame of a piece begins with.
    fn code(self) -> u8
        ensures { result ≡ stream_code self }
    {
        match self {
            Stream::Output => 3,
            Stream::Errors => 4,
            Stream::Progress => 5,
        }
    }
}

/// Returns the bytes in front of a piece of `size` bytes, 1 to [`LONGEST_PIECE`]: the stream in one byte,
/// and the size in four.
pub fn piece_head(stream: Stream, size: usize) -> [u8; 5]
    requires { IsPieceSize size }
    ensures { result ≡ stream_code stream ∷ number_bytes size }
{
    let [a, b, c, d] = (size as u32).to_be_bytes();
    [stream.code(), a, b, c, d]
}

/// Returns what the first byte of a frame says; `None` if no frame begins with this byte.
pub fn frame_start(byte: u8) -> Option<Start>
    ensures some { IfSome result (λ start. start_code start ≡ byte) }
    ensures none { IfNone result (BeginsNoFrame byte) }
{
    match byte {
        3 => Some(Start::Piece(Stream::Output)),
        4 => Some(Start::Piece(Stream::Errors)),
        5 => Some(Start::Piece(Stream::Progress)),
        _ => Some(Start::End(Status::of_code(byte)?)),
    }
}

/// Returns how many bytes a piece has, from the four bytes after its stream; `None` if no piece has this
/// size: it is 0, or over [`LONGEST_PIECE`].
pub fn piece_size(number: [u8; 4]) -> Option<usize>
    ensures some { IfSome result (λ size. number_bytes size ≡ number) }
    ensures within { IfSome result (λ size. IsPieceSize size) }
    ensures none { IfNone result ((size : ℕ) → IsPieceSize size → number_bytes size ≢ number) }
{
    let size = number_in(&number);
    if size == 0 || size > LONGEST_PIECE {
        return None;
    }
    Some(size)
}
