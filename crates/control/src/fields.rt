//! Fields: the number of some bytes in four bytes, the highest first, and then the bytes.

ghost use Rattle.std.specs.Prelude.{◌≡◌, ◌++◌, ◌<◌, ◌^◌, length, IfSome, IfNone, OnOk};
ghost use Rattle.control.specs.Fields.{number_bytes, field, FitsField, BeginsWith, BeginsWithNone};

use std::alloc::AllocError;

/// Appends a number in four bytes.
pub(crate) fn push_number(bytes: &mut Vec<u8>, number: usize) -> Result<(), AllocError>
    requires { number < 2 ^ 32 }
    ensures { OnOk result (bytes.new.items ≡ bytes.old.items ++ number_bytes number) }
{
    let number = (number as u32).to_be_bytes();
    bytes.extend_from_slice(&number)
}

/// Appends a field.
pub(crate) fn push_field(bytes: &mut Vec<u8>, content: &[u8]) -> Result<(), AllocError>
    requires { FitsField content.now }
    ensures { OnOk result (bytes.new.items ≡ bytes.old.items ++ field content.now) }
{
    push_number(bytes, content.len())?;
    bytes.extend_from_slice(content)
}

/// The number in four bytes.
pub(crate) fn number_in(bytes: &[u8; 4]) -> usize
    ensures within { result < 2 ^ 32 }
    ensures bytes { number_bytes result ≡ bytes.now }
{
    u32::from_be_bytes(*bytes) as usize
}

/// The content of the field at the front, and the bytes after the field; `None` if there is no whole field.
pub(crate) fn front_field(bytes: &[u8]) -> Option<(&[u8], &[u8])>
    ensures some { IfSome result (λ front. BeginsWith bytes.now front.0.now front.1.now) }
    ensures none { IfNone result (BeginsWithNone bytes.now) }
{
    let (number, rest) = bytes.split_first_chunk::<4>()?;
    rest.split_at_checked(number_in(number))
}
