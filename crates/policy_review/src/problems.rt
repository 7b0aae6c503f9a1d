//! A fault of a policy file, described for a person who corrects the file.

use crate::found::{found_key, found_kind, found_value, found_wrong_kind};
use crate::lines::line_at;
use crate::sections::PlainText;
use policy::{Fault, FaultCode, Key, Place, Sentence};
use std::alloc::{AllocError, Global};
use std::fmt;
use toml::{Table, Value};

/// A fault of a policy file in one line of text: the line of the file if it is known, the place, what is wrong, what is
/// expected and what was found.
#[derive(Debug, Drop)]
pub struct Problem {
    line: Option<usize>,
    sentence: String,
    found: Option<String>,
}

/// Writes the problem, without a line end.
impl fmt::Display for Problem {
    fn fmt<W: fmt::Write>(&self, f: &mut fmt::Formatter<W>) -> fmt::Result {
        if let Some(line) = self.line {
            write!(f, "line {line}: ")?;
        }
        f.write_str(self.sentence.as_str())?;
        match &self.found {
            Some(found) => {
                let found = found.as_str();
                write!(f, "; {found}")
            }
            None => Ok(()),
        }
    }
}

/// The place of a fault in a text that is TOML.
#[derive(Clone, Copy, Debug)]
struct Section<'a> {
    /// The lines of the text, if it is plain.
    lines: Option<PlainText<'a>>,
    /// What the place has, unless it is the top of the file, or the file has no such place.
    entry: Option<&'a Value>,
    /// The table of the place, unless it is no table.
    table: Option<&'a Table>,
    /// How many lines come before the first one of the table, if that is known.
    lines_before: Option<usize>,
}

/// The name of the array that has the place, and its number there; `None` for the top and the whole file.
fn array_of(place: Place) -> Option<(&'static str, usize)> {
    match place {
        Place::File | Place::Top => None,
        Place::Repo(number) => Some(("repo", number as usize)),
        Place::Row(number) => Some(("row", number as usize)),
    }
}

/// The entries of the array with this name; empty if it is missing or no array.
fn entries_of<'a>(table: &'a Table, name: &str) -> &'a [Value] {
    match table.get(name) {
        Some(Value::Array(entries)) => entries.as_slice(),
        _ => &[],
    }
}

/// The number of the line with this header, if each of the entries has such a header.
fn header_line(
    lines: Option<PlainText<'_>>,
    name: &str,
    entries: usize,
    number: usize,
) -> Option<usize> {
    match lines {
        Some(lines) if lines.headers(name) == entries => lines.header_line(name, number),
        _ => None,
    }
}

impl<'a> Section<'a> {
    /// The place in the text, which has this table.
    fn find(text: &'a str, top: &'a Table, place: Place) -> Section<'a> {
        let lines = PlainText::new(text);
        let Some((name, number)) = array_of(place) else {
            return Section {
                lines,
                entry: None,
                table: Some(top),
                lines_before: Some(0),
            };
        };
        let entries = entries_of(top, name);
        let entry = match number {
            0 => None,
            _ => entries.get(number - 1),
        };
        let table = match entry {
            Some(Value::Table(table)) => Some(table),
            _ => None,
        };
        Section {
            lines,
            entry,
            table,
            lines_before: header_line(lines, name, entries.len(), number),
        }
    }

    /// The line of the table's header; `None` for the top, which has none.
    fn own_line(&self) -> Option<usize> {
        match self.lines_before {
            Some(0) | None => None,
            line => line,
        }
    }

    /// The line of the key.
    fn key_line(&self, key: &str) -> Option<usize> {
        match (self.lines, self.lines_before) {
            (Some(lines), Some(0)) => lines.top_line(key),
            (Some(lines), Some(before)) => lines.key_line(before, key),
            _ => None,
        }
    }

    /// The line of the first entry too many.
    fn line_past(&self, key: Key, entries: usize, most: usize) -> Option<usize> {
        header_line(self.lines, key.name(), entries, most.saturating_add(1))
    }
}

/// The sentence with one of its alternatives in place of all of them.
fn sentence_with(alloc: Global, fault: Fault, all: &str, one: &str) -> Result<String, AllocError> {
    let sentence = Sentence(fault).to_string(alloc)?;
    match sentence.as_str().split_once(all) {
        Some((before, after)) => format!(in alloc; "{before}{one}{after}"),
        None => Ok(sentence),
    }
}

/// A problem of which only the fault is known.
fn bare(alloc: Global, fault: Fault) -> Result<Problem, AllocError> {
    Ok(Problem {
        line: None,
        sentence: Sentence(fault).to_string(alloc)?,
        found: None,
    })
}

/// A text that is no TOML, or bytes that are no text: `place` is the index of what is wrong, and `why` says it.
fn unreadable(
    alloc: Global,
    source: &[u8],
    fault: Fault,
    place: usize,
    why: &str,
) -> Result<Problem, AllocError> {
    if !matches!(fault.code, FaultCode::Y1) {
        return bare(alloc, fault);
    }
    Ok(Problem {
        line: Some(line_at(source, place)),
        sentence: Sentence(fault).to_string(alloc)?,
        found: Some(String::from_str(alloc, why)?),
    })
}

/// Whether the place may have a key of this name.
fn is_key_of(place: Place, name: &str) -> bool {
    match place {
        Place::File | Place::Top => matches!(name, "base" | "token_seconds" | "repo" | "row"),
        Place::Repo(_) => matches!(name, "name" | "default_ref" | "quota"),
        Place::Row(_) => matches!(
            name,
            "effect" | "users" | "repos" | "refs" | "paths" | "rights"
        ),
    }
}

/// The first key of the table, by its bytes, that the place must not have.
fn unknown_key(table: &Table, place: Place) -> Option<&str> {
    for name in table.keys() {
        if !is_key_of(place, name.as_str()) {
            return Some(name.as_str());
        }
    }
    None
}

/// A place that is no table, or has a key that it must not have.
fn at_whole(alloc: Global, section: &Section<'_>, fault: Fault) -> Result<Problem, AllocError> {
    let Some(table) = section.table else {
        let found = match section.entry {
            Some(entry) => Some(found_kind(alloc, entry)?),
            None => None,
        };
        return Ok(Problem {
            line: None,
            sentence: no_table(alloc, fault)?,
            found,
        });
    };
    match unknown_key(table, fault.place) {
        Some(name) => Ok(Problem {
            line: section.key_line(name),
            sentence: sentence_with(alloc, fault, "no table, or a key", "a key")?,
            found: Some(found_key(alloc, name)?),
        }),
        None => bare(alloc, fault),
    }
}

/// The sentence for a place that is no table.
fn no_table(alloc: Global, fault: Fault) -> Result<String, AllocError> {
    let sentence = Sentence(fault).to_string(alloc)?;
    match sentence.as_str().split_once(", or a key") {
        Some((before, _keys)) => String::from_str(alloc, before),
        None => Ok(sentence),
    }
}

/// A key that is missing.
fn at_missing(alloc: Global, section: &Section<'_>, fault: Fault) -> Result<Problem, AllocError> {
    Ok(Problem {
        line: section.own_line(),
        sentence: sentence_with(alloc, fault, "missing or of the wrong kind", "missing")?,
        found: None,
    })
}

/// A value that is wrong at its key.
fn at_value(
    alloc: Global,
    section: &Section<'_>,
    fault: Fault,
    key: Key,
    value: &Value,
) -> Result<Problem, AllocError> {
    match fault.code {
        FaultCode::Y2 => Ok(Problem {
            line: section.key_line(key.name()),
            sentence: sentence_with(alloc, fault, "missing or of", "of")?,
            found: Some(found_wrong_kind(alloc, key, value)?),
        }),
        FaultCode::Y5 => too_many(alloc, section, fault, key, value),
        _ => Ok(Problem {
            line: section.key_line(key.name()),
            sentence: Sentence(fault).to_string(alloc)?,
            found: Some(found_value(alloc, key, value)?),
        }),
    }
}

/// The most repositories of a file, and the most rows.
fn most_of(key: Key) -> usize {
    match key {
        Key::Repo => 256,
        _ => 1000,
    }
}

/// An array with too many tables: the line is that of the first one too many.
fn too_many(
    alloc: Global,
    section: &Section<'_>,
    fault: Fault,
    key: Key,
    value: &Value,
) -> Result<Problem, AllocError> {
    let count = match value {
        Value::Array(entries) => entries.len(),
        _ => 0,
    };
    Ok(Problem {
        line: section.line_past(key, count, most_of(key)),
        sentence: Sentence(fault).to_string(alloc)?,
        found: Some(format!(in alloc; "found {count} tables")?),
    })
}

/// A fault of a text that is TOML.
fn in_document(
    alloc: Global,
    text: &str,
    top: &Table,
    fault: Fault,
) -> Result<Problem, AllocError> {
    let section = Section::find(text, top, fault.place);
    let Some(key) = fault.key else {
        return at_whole(alloc, &section, fault);
    };
    let value = match section.table {
        Some(table) => table.get(key.name()),
        None => None,
    };
    match value {
        Some(value) => at_value(alloc, &section, fault, key, value),
        None => at_missing(alloc, &section, fault),
    }
}

/// Describes the fault of a policy file that has these bytes.
///
/// The line is named only if it is certain: not in a file with inline tables or multi-line texts, nor for a table that has
/// no header of its own, nor for a key in quotes.
///
/// # Errors
///
/// Memory ran out.
pub fn problem_in(alloc: Global, source: &[u8], fault: Fault) -> Result<Problem, AllocError> {
    if matches!((fault.code, fault.place), (FaultCode::Y5, Place::File)) {
        return bare(alloc, fault);
    }
    let text = match str::from_utf8(source) {
        Ok(text) => text,
        Err(error) => {
            let why = "found a byte that is not UTF-8";
            return unreadable(alloc, source, fault, error.valid_up_to(), why);
        }
    };
    match toml::table_from_str(alloc, text) {
        Ok(_) if matches!(fault.code, FaultCode::Y1) => bare(alloc, fault),
        Ok(table) => in_document(alloc, text, &table, fault),
        Err(error) => match error.span() {
            Some(span) => unreadable(alloc, source, fault, span.start, error.message()),
            None => Err(AllocError),
        },
    }
}
