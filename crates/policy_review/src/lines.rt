//! Lines of a text: which one has a place, and how much of a text is printed in one.

ghost use Rattle.std.specs.Prelude.{◌≡◌, ◌+◌, ◌≤◌, length, take};
ghost use Rattle.policy_review.specs.Lines.{line_ends, longest_excerpt};

/// The longest part of a text that is printed, in bytes.
const LONGEST_EXCERPT: usize = 60;

/// How many line ends the bytes have.
fn line_ends(bytes: &[u8]) -> usize
    ensures count { result ≡ line_ends bytes.now }
    ensures bound { result ≤ length bytes.now }
{
    let mut count = 0;
    for byte in bytes {
        if *byte == b'\n' {
            count += 1;
        }
    }
    count
}

/// The number of the line of a place, which is an index into the text: lines count from 1. A place after the text is
/// one of its last line.
pub(crate) fn line_at(source: &[u8], place: usize) -> usize
    ensures { result ≡ line_ends (take place source.now) + 1 }
{
    let before = &source[..place.min(source.len())];
    line_ends(before) + 1
}

/// The front of a text that is printed: at most 60 bytes, and whole characters.
pub(crate) fn excerpt(text: &str) -> &str
    ensures front { result.now ≡ take (length result.now) text.now }
    ensures bound { length result.now ≤ longest_excerpt }
{
    let (front, _rest) = text.split_at(text.floor_char_boundary(LONGEST_EXCERPT));
    front
}
