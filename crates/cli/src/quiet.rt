//! Output without its last line.

use memchr::memrchr;

/// The text without its last line, which may lack its end.
pub(crate) fn but_last_line(text: &[u8]) -> &[u8] {
    let lines = text.strip_suffix(b"\n").unwrap_or(text);
    match memrchr(b'\n', lines) {
        Some(index) => &text[..index + 1],
        None => &[],
    }
}
