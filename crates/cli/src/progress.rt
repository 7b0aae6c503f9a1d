//! How far a command is that a server runs, on a terminal.

use std::io::{Stderr, Write};

/// The line of a terminal on which a command shows how far it is.
#[derive(Drop)]
pub(crate) struct ProgressLine<'a> {
    terminal: Option<&'a Stderr>,
    is_shown: bool,
}

/// The text, if a terminal acts on none of its bytes.
fn plain_text(text: &[u8]) -> Option<&str> {
    if text.iter().all(|byte| matches!(*byte, b' '..=b'~')) {
        str::from_utf8(text).ok()
    } else {
        None
    }
}

impl<'a> ProgressLine<'a> {
    /// A line on which nothing is shown yet; without a terminal nothing ever is.
    pub(crate) fn new(terminal: Option<&'a Stderr>) -> ProgressLine<'a> {
        ProgressLine {
            terminal,
            is_shown: false,
        }
    }

    /// Shows the text in place of the one before. A text with a byte outside of printable ASCII is dropped.
    pub(crate) fn show(&mut self, text: &[u8]) {
        if let Some(mut terminal) = self.terminal
            && let Some(text) = plain_text(text)
        {
            // Nothing depends on what is shown.
            let _ = write!(terminal, "\r{text}\x1b[K");
            self.is_shown = true;
        }
    }

    /// Removes what is shown. If nothing is, it leaves the line, on which the command may have begun to print.
    pub(crate) fn clear(&mut self) {
        if let Some(mut terminal) = self.terminal
            && self.is_shown
        {
            let _ = write!(terminal, "\r\x1b[K");
            self.is_shown = false;
        }
    }
}
