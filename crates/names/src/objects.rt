//! The name and the size of an object.

ghost use Rattle.std.specs.Prelude.{◌≡◌, ◌≤◌, ◌↔◌, ℕ, List, IsTrue, IsSome, IfSome, Some, decimal};
ghost use Rattle.std.specs.List.{list_all};
ghost use Rattle.names.specs.Texts.{is_hex_digit, is_hex_64, largest_object};

use crate::limits::LARGEST_OBJECT;
use std::fmt;
use std::marker::Model;

/// Whether the byte is one of `0-9 a-f`.
fn is_hex_digit(byte: u8) -> bool
    ensures { result ≡ is_hex_digit byte }
{
    byte.is_ascii_digit() || (b'a'..=b'f').contains(&byte)
}

fn has_hex_digits(text: &[u8]) -> bool
    ensures { result ≡ list_all is_hex_digit text.now }
{
    text.iter().copied().all(is_hex_digit)
}

/// An object's name: the SHA-256 digest of its bytes, as 64 hexadecimal digits in lower case.
///
/// The first two digits are the first byte of the digest (FIPS 180-4). Contracts see the list of the 64
/// bytes of the text.
#[derive(Clone, Copy, Debug, PartialEq, Eq, PartialOrd, Ord, Hash)]
pub struct Oid {
    digits: [u8; 64],
}

impl Model for Oid {
    ghost Value = { List ℕ };

    ghost view = { λ name. name.digits };

    ghost invariant = { λ name. IsTrue (is_hex_64 name.digits) };

    ghost inverse = { λ digits. record { digits = digits } };
}

impl Oid {
    /// Reads a name; `None` exactly if the text is not 64 bytes of `0-9 a-f`.
    pub fn read(text: &[u8]) -> Option<Self>
        ensures accepted { IsSome result ↔ IsTrue (is_hex_64 text.now) }
        ensures value { IfSome result (λ name. name ≡ text.now) }
    {
        let digits = *text.as_array()?;
        if has_hex_digits(text) {
            Some(Oid { digits })
        } else {
            None
        }
    }

    /// The 64 digits.
    pub fn text(&self) -> &str
        ensures value { result.now ≡ self.now }
        ensures in_range { IsTrue (is_hex_64 result.now) }
    {
        std::str::from_utf8(&self.digits).unwrap()
    }
}

/// Writes the 64 digits.
impl fmt::Display for Oid {
    ghost output = { λ name. Some name };

    fn fmt<W: fmt::Write>(&self, f: &mut fmt::Formatter<W>) -> fmt::Result {
        f.write_str(self.text())
    }
}

/// An object's size in bytes, from 0 to [`LARGEST_OBJECT`].
#[derive(Clone, Copy, Debug, PartialEq, Eq, PartialOrd, Ord, Hash)]
pub struct Size {
    bytes: u64,
}

impl Model for Size {
    ghost Value = { ℕ };

    ghost view = { λ size. size.bytes };

    ghost invariant = { λ size. size.bytes ≤ largest_object };

    ghost inverse = { λ bytes. record { bytes = bytes } };
}

impl Size {
    /// The size of this many bytes; `None` exactly above [`LARGEST_OBJECT`].
    pub fn read(bytes: u64) -> Option<Self>
        ensures accepted { IsSome result ↔ (bytes ≤ largest_object) }
        ensures value { IfSome result (λ size. size ≡ bytes) }
    {
        if bytes <= LARGEST_OBJECT {
            Some(Size { bytes })
        } else {
            None
        }
    }

    /// Returns the number of bytes.
    pub fn get(&self) -> u64
        ensures value { result ≡ self.now }
        ensures in_range { result ≤ largest_object }
    {
        self.bytes
    }
}

/// Writes the number of bytes in decimal.
impl fmt::Display for Size {
    ghost output = { λ size. Some (decimal size) };

    fn fmt<W: fmt::Write>(&self, f: &mut fmt::Formatter<W>) -> fmt::Result {
        write!(f, "{}", self.bytes)
    }
}
