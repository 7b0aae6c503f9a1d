//! Control characters in what the commands print on a terminal.

ghost use Rattle.std.specs.Prelude.{◌≡◌, ◌++◌, IfOk, OnOk};
ghost use Rattle.operator.specs.Escapes.{escape, escaped, is_control, shown};

use std::alloc::{AllocError, Global};

/// Where the lines of a command are written to.
#[derive(Clone, Copy, Debug, PartialEq, Eq)]
pub enum Destination {
    /// A terminal, which acts on control characters.
    Terminal,
    /// A file, a pipe or a socket.
    Other,
}

/// Whether the bytes are a character from U+0080 to U+009F in UTF-8.
fn is_control(first: u8, second: u8) -> bool
    ensures { result ≡ is_control first second }
{
    first == 0xc2 && 0x80 <= second && second <= 0x9f
}

/// Adds the escape of the character with this number.
fn push_escape(bytes: &mut Vec<u8>, number: u8) -> Result<(), AllocError>
    ensures { OnOk result (bytes.new.items ≡ bytes.old.items ++ escape number) }
{
    let mut digits = [0; 2];
    let _ = hex::encode_to_slice([number].as_slice(), &mut digits);
    bytes.extend_from_slice(b"\\u{")?;
    bytes.extend_from_slice(&digits)?;
    bytes.extend_from_slice(b"}")
}

/// The text with the escapes of control characters in their place.
fn escaped(alloc: Global, text: &[u8]) -> Result<Vec<u8>, AllocError>
    ensures { IfOk result (λ bytes. bytes.items ≡ escaped text.now) }
{
    let mut bytes = Vec::new(alloc);
    let mut rest = text;
    'bytes: while let Some((byte, tail)) = rest.split_first() {
        rest = match tail.split_first() {
            Some((next, after)) if is_control(*byte, *next) => {
                push_escape(&mut bytes, *next)?;
                after
            }
            _ => {
                bytes.push(*byte)?;
                tail
            }
        };
    }
    Ok(bytes)
}

/// The text as it is written: to a terminal with the escapes of U+0080 to U+009F, `\u{80}` to `\u{9f}`, and else as it is.
pub fn shown(alloc: Global, text: &[u8], destination: Destination) -> Result<Vec<u8>, AllocError>
    ensures { IfOk result (λ bytes. bytes.items ≡ shown destination text.now) }
{
    match destination {
        Destination::Terminal => escaped(alloc, text),
        Destination::Other => text.to_vec(alloc),
    }
}
