//! The texts of a script, with names in them.
//!
//! | In a text | Stands for |
//! |---|---|
//! | `$(NAME)` | the text that `let NAME` defines |
//! | `$(NAME*N)` | that text N times |
//! | `$(NAME<N)` | the first N bytes of that text |
//! | `$(x 0d 0a)` | these bytes, in hexadecimal digits |
//! | `$(sha256 NAME)` | the SHA-256 of that text, in hexadecimal digits |
//! | `$(size NAME)` | the number of its bytes |

use crate::script::Step;
use calls::{Fault, number};
use sha2::{Digest, Sha256};
use std::alloc::Global;

/// Names, and the text of each.
#[derive(Drop)]
pub(crate) struct Names {
    pub alloc: Global,
    entries: Vec<(String, Vec<u8>)>,
}

impl Names {
    pub(crate) fn new(alloc: Global) -> Names {
        Names {
            alloc,
            entries: Vec::new(alloc),
        }
    }

    /// Gives the name this text, in place of one that it had.
    pub(crate) fn define(&mut self, name: &str, text: Vec<u8>) -> Result<(), Fault> {
        match self
            .entries
            .iter_mut()
            .find(|entry| entry.0.as_str() == name)
        {
            Some(entry) => entry.1 = text,
            None => self.entries.push((name.to_owned(self.alloc)?, text))?,
        }
        Ok(())
    }

    /// Gives the name the digits of this number.
    pub(crate) fn define_number(&mut self, name: &str, number: u64) -> Result<(), Fault> {
        let digits = format!(in self.alloc; "{number}")?;
        self.define(name, digits.into_bytes())
    }

    /// The text of the name.
    pub(crate) fn text(&self, name: &str) -> Result<&[u8], Fault> {
        match self.entries.iter().find(|entry| entry.0.as_str() == name) {
            Some(entry) => Ok(entry.1.as_slice()),
            None => Err(Fault::Script("a name has no text")),
        }
    }

    /// Appends the bytes that are written as hexadecimal digits.
    fn push_bytes(bytes: &mut Vec<u8>, digits: &str) -> Result<(), Fault> {
        for pair in digits.split_whitespace() {
            match u8::from_str_radix(pair, 16) {
                Ok(byte) => bytes.push(byte)?,
                Err(_) => return Err(Fault::Script("a byte has two hexadecimal digits")),
            }
        }
        Ok(())
    }

    /// Appends what is written between `$(` and `)`.
    fn push_mark(&self, bytes: &mut Vec<u8>, mark: &str) -> Result<(), Fault> {
        if let Some(digits) = mark.strip_prefix("x ") {
            return Names::push_bytes(bytes, digits);
        }
        if let Some(name) = mark.strip_prefix("sha256 ") {
            let digest = Sha256::digest(self.text(name)?);
            let digits = hex::encode(self.alloc, digest.as_slice())?;
            return Ok(bytes.extend_from_slice(digits.as_bytes())?);
        }
        if let Some(name) = mark.strip_prefix("size ") {
            let size = self.text(name)?.len();
            let digits = format!(in self.alloc; "{size}")?;
            return Ok(bytes.extend_from_slice(digits.as_bytes())?);
        }
        if let Some((name, size)) = mark.rsplit_once('<') {
            let size = self.count(size)?;
            return match self.text(name)?.get(..size) {
                Some(front) => Ok(bytes.extend_from_slice(front)?),
                None => Err(Fault::Script("a text is shorter")),
            };
        }
        let (name, times) = match mark.rsplit_once('*') {
            Some((name, times)) => (name, self.count(times)?),
            None => (mark, 1),
        };
        let text = self.text(name)?;
        for _ in 0..times {
            bytes.extend_from_slice(text)?;
        }
        Ok(())
    }

    /// The number of these digits, or of those that are the value of this name.
    fn count(&self, word: &str) -> Result<usize, Fault> {
        let digits = match number(word) {
            Ok(count) => return Ok(count as usize),
            Err(_) => str::from_utf8(self.text(word)?),
        };
        match digits {
            Ok(digits) => Ok(number(digits)? as usize),
            Err(_) => Err(Fault::Script("a number has decimal digits")),
        }
    }

    /// The text, with the value of each name in it.
    pub(crate) fn written(&self, text: &str) -> Result<Vec<u8>, Fault> {
        let mut bytes = Vec::new(self.alloc);
        let mut rest = text;
        for _ in 0..text.len() {
            let Some((front, marked)) = rest.split_once("$(") else {
                break;
            };
            let Some((mark, after)) = marked.split_once(')') else {
                return Err(Fault::Script("a name has no end"));
            };
            bytes.extend_from_slice(front.as_bytes())?;
            self.push_mark(&mut bytes, mark)?;
            rest = after;
        }
        bytes.extend_from_slice(rest.as_bytes())?;
        Ok(bytes)
    }

    /// The lines, each ended in this way but the last.
    fn joined(&self, lines: &[String], end: &[u8]) -> Result<Vec<u8>, Fault> {
        let mut bytes = Vec::new(self.alloc);
        for (index, line) in lines.iter().enumerate() {
            if index > 0 {
                bytes.extend_from_slice(end)?;
            }
            bytes.extend_from_slice(self.written(line.as_str())?.as_slice())?;
        }
        Ok(bytes)
    }

    /// The text of a block: its lines up to the first empty one end in CR LF, those after it are joined by LF. In the
    /// former `size` is the number of bytes of the latter.
    fn block(&mut self, lines: &[String]) -> Result<Vec<u8>, Fault> {
        let Some(at) = lines.iter().position(|line| line.is_empty()) else {
            return self.joined(lines, b"\r\n");
        };
        let (head, body) = lines.split_at(at);
        let body = self.joined(body.get(1..).unwrap_or(&[]), b"\n")?;
        self.define_number("size", body.len() as u64)?;
        let mut bytes = self.joined(head, b"\r\n")?;
        bytes.extend_from_slice(b"\r\n\r\n")?;
        bytes.extend_from_slice(body.as_slice())?;
        Ok(bytes)
    }

    /// The text of a line, which is UTF-8.
    pub(crate) fn line(&self, text: &str) -> Result<String, Fault> {
        match String::from_utf8(self.written(text)?) {
            Ok(text) => Ok(text),
            Err(_) => Err(Fault::Script("a line is no text")),
        }
    }

    /// The lines, each ended by LF.
    pub(crate) fn lines(&self, lines: &[String]) -> Result<Vec<u8>, Fault> {
        let mut bytes = self.joined(lines, b"\n")?;
        if !lines.is_empty() {
            bytes.push(b'\n')?;
        }
        Ok(bytes)
    }

    /// Defines the name that the step begins with, by the rest of its line or by its block.
    pub(crate) fn define_by(&mut self, step: &Step) -> Result<(), Fault> {
        let rest = step.rest.as_str();
        let (name, text) = rest.split_once(' ').unwrap_or((rest, ""));
        let text = self.of(step, text)?;
        self.define(name, text)
    }

    /// The text of a step: that of its block, or what its line says.
    pub(crate) fn of(&mut self, step: &Step, rest: &str) -> Result<Vec<u8>, Fault> {
        if step.block.is_empty() {
            self.written(rest)
        } else {
            self.block(step.block.as_slice())
        }
    }
}
