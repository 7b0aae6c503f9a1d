//! The lines of a policy file at which its tables and their keys begin.
//!
//! They are looked for only in a text without multi-line texts and inline tables: no line of it then begins like a header or
//! a key without being one. A line of an array in several lines begins with a value, a bracket or a comma.

/// A text whose lines can be trusted to be what they look like.
#[derive(Clone, Copy, Debug)]
pub(crate) struct PlainText<'a> {
    text: &'a str,
}

/// Whether the line, without the white space at its front, is the header of the table, as `[row]` or `[[row]]`.
fn is_header(line: &str, name: &str) -> bool {
    let Some(rest) = line.trim_ascii_start().strip_prefix("[") else {
        return false;
    };
    let inner = rest.strip_prefix("[").unwrap_or(rest);
    match inner.trim_ascii_start().strip_prefix(name) {
        Some(end) => end.trim_ascii_start().starts_with("]"),
        None => false,
    }
}

/// Whether the line is one of the key.
fn is_line_of(line: &str, key: &str) -> bool {
    match line.trim_ascii_start().strip_prefix(key) {
        Some(rest) => rest.trim_ascii_start().starts_with("="),
        None => false,
    }
}

fn is_bare_byte(byte: u8) -> bool {
    byte.is_ascii_alphanumeric() || byte == b'_' || byte == b'-'
}

/// Whether the name may be written without quotes as a key, and not as a value.
fn is_bare(name: &str) -> bool {
    let bytes = name.as_bytes();
    let is_value = matches!(name, "true" | "false" | "inf" | "nan");
    match bytes.first() {
        Some(first) if first.is_ascii_alphabetic() || *first == b'_' => {
            !is_value && bytes.iter().all(|byte| is_bare_byte(*byte))
        }
        _ => false,
    }
}

impl<'a> PlainText<'a> {
    /// The text; `None` if it has a multi-line text or an inline table, or seems to have one.
    pub fn new(text: &'a str) -> Option<Self> {
        let is_plain = !text.contains("\"\"\"") && !text.contains("'''") && !text.contains("{");
        if is_plain {
            Some(PlainText { text })
        } else {
            None
        }
    }

    /// How many headers of the name the text has.
    pub fn headers(&self, name: &str) -> usize {
        self.text
            .lines()
            .filter(|line| is_header(line, name))
            .count()
    }

    /// The number of the line with the header of the name that has this number. Both count from 1.
    pub fn header_line(&self, name: &str, number: usize) -> Option<usize> {
        let mut left = number;
        for (index, line) in self.text.lines().enumerate() {
            if is_header(line, name) {
                if left <= 1 {
                    return Some(index.saturating_add(1));
                }
                left -= 1;
            }
        }
        None
    }

    /// The number of the line of the key, in the table whose first line comes after this number of lines.
    pub fn key_line(&self, lines_before: usize, key: &str) -> Option<usize> {
        if !is_bare(key) {
            return None;
        }
        for (index, line) in self.text.lines().enumerate().skip(lines_before) {
            if line.trim_ascii_start().starts_with("[") {
                return None;
            }
            if is_line_of(line, key) {
                return Some(index.saturating_add(1));
            }
        }
        None
    }

    /// The number of the line at which the file has this key: a line of its own, or the only header of the name.
    pub fn top_line(&self, key: &str) -> Option<usize> {
        match self.key_line(0, key) {
            Some(line) => Some(line),
            None if is_bare(key) => self.header_line(key, 1),
            None => None,
        }
    }
}
