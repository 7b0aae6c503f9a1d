//! The version of the messages.

ghost use Rattle.std.specs.Prelude.{◌≡◌};
ghost use Rattle.control.specs.Versions.{refusal_bytes};

/// The byte that each request and each reply begins with.
pub const VERSION: u8 = 3;

/// Returns what a server sends to a program of another version, in place of a reply: the bytes of a reply
/// of the first version, which prints its line. No reply of this version has these bytes.
pub fn refusal_bytes() -> &'static [u8]
    ensures { result.now ≡ refusal_bytes }
{
    b"\x02\0\0\0\0\0\0\0\x28custody: the server has another version\n"
}
