//! Optional white space: spaces and tabs (RFC 9110, Whitespace).

ghost use Rattle.std.specs.Prelude.{◌≡◌, reverse};
ghost use Rattle.httparse.specs.Grammar.{is_ows, skip_ows, trim_ows};

/// The text without the spaces and tabs at its two ends.
pub(crate) fn trim_ows(text: &[u8]) -> &[u8]
    ensures { result.now ≡ trim_ows text.now }
{
    trim_back(trim_front(text))
}

/// Whether the byte is a space or a tab.
fn is_ows(byte: u8) -> bool
    ensures { result ≡ is_ows byte }
{
    byte == b' ' || byte == b'\t'
}

/// The text from its first byte that is not white space.
fn trim_front(text: &[u8]) -> &[u8]
    ensures { result.now ≡ skip_ows text.now }
{
    let mut left = text;
    'bytes: while let [first, rest @ ..] = left {
        if !is_ows(*first) {
            return left;
        }
        left = rest;
    }
    left
}

/// The text up to its last byte that is not white space.
fn trim_back(text: &[u8]) -> &[u8]
    ensures { reverse result.now ≡ skip_ows (reverse text.now) }
{
    let mut left = text;
    'bytes: while let [rest @ .., last] = left {
        if !is_ows(*last) {
            return left;
        }
        left = rest;
    }
    left
}
