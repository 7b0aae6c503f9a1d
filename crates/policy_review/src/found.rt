//! What a policy file has where something else is expected.

use crate::lines::excerpt;
use names::{LockPath, RefName, RepoName, UserName};
use policy::{Key, right_named};
use std::alloc::{AllocError, Global};
use toml::Value;

/// The kind of a value, in words.
fn kind_name(value: &Value) -> &'static str {
    match value {
        Value::String(_) => "a text",
        Value::Integer(_) => "a whole number",
        Value::Float(_) => "a number with a point or an exponent",
        Value::Boolean(_) => "a boolean",
        Value::Datetime(_) => "a date or a time",
        Value::Array(_) => "an array",
        Value::Table(_) => "a table",
    }
}

/// The text in quotes, with escapes for control characters; cut, and followed by two points, if it is long.
fn quoted(alloc: Global, text: &str) -> Result<String, AllocError> {
    let front = excerpt(text);
    if front.len() < text.len() {
        format!(in alloc; "{front:?}..")
    } else {
        format!(in alloc; "{front:?}")
    }
}

/// What is found where a table has a key that it must not have.
pub(crate) fn found_key(alloc: Global, name: &str) -> Result<String, AllocError> {
    let name = quoted(alloc, name)?;
    format!(in alloc; "found the key {name}")
}

/// The name before a slash at the end of the text; the empty text, which is no name, if there is no slash.
fn before_slash(text: &str) -> &str {
    text.strip_suffix("/").unwrap_or("")
}

/// Whether the text is valid in the list of a row that has this key.
fn is_valid(key: Key, text: &str) -> bool {
    let front = before_slash(text);
    match key {
        Key::Users => text == "*" || UserName::accepts(text),
        Key::Repos => text == "*" || RepoName::accepts(text) || UserName::accepts(front),
        Key::Refs => {
            text == "*" || text == "refs/" || RefName::accepts(text) || RefName::accepts(front)
        }
        Key::Paths => text == "*" || LockPath::accepts(text) || LockPath::accepts(front),
        Key::Rights => right_named(text).is_some(),
        _ => true,
    }
}

/// The first text that is not valid in the list; `None` if each is.
fn first_invalid(key: Key, entries: &[Value]) -> Option<&str> {
    for entry in entries {
        if let Some(text) = entry.as_str() {
            if !is_valid(key, text) {
                return Some(text);
            }
        }
    }
    None
}

/// The first text of the array that is not valid at the key; if each is, how many there are.
fn found_in_array(alloc: Global, key: Key, entries: &[Value]) -> Result<String, AllocError> {
    match first_invalid(key, entries) {
        Some(text) => found_text(alloc, text),
        None => {
            let count = entries.len();
            format!(in alloc; "found {count} texts")
        }
    }
}

fn found_text(alloc: Global, text: &str) -> Result<String, AllocError> {
    let text = quoted(alloc, text)?;
    format!(in alloc; "found {text}")
}

/// What is found at a key whose value is out of range.
pub(crate) fn found_value(alloc: Global, key: Key, value: &Value) -> Result<String, AllocError> {
    match value {
        Value::String(text) => found_text(alloc, text.as_str()),
        Value::Integer(number) => format!(in alloc; "found {number}"),
        Value::Array(entries) => found_in_array(alloc, key, entries.as_slice()),
        other => found_kind(alloc, other),
    }
}

/// What is found in place of a value of another kind.
pub(crate) fn found_kind(alloc: Global, value: &Value) -> Result<String, AllocError> {
    let kind = kind_name(value);
    format!(in alloc; "found {kind}")
}

/// What is found at a key whose value is of the wrong kind.
pub(crate) fn found_wrong_kind(
    alloc: Global,
    key: Key,
    value: &Value,
) -> Result<String, AllocError> {
    match value {
        Value::Array(entries) if is_list(key) => found_no_text(alloc, entries.as_slice()),
        other => found_kind(alloc, other),
    }
}

/// Whether the key has a list of texts.
fn is_list(key: Key) -> bool {
    matches!(
        key,
        Key::Users | Key::Repos | Key::Refs | Key::Paths | Key::Rights
    )
}

/// The kind of the first entry of the list that is not a text.
fn found_no_text(alloc: Global, entries: &[Value]) -> Result<String, AllocError> {
    match entries.iter().find(|entry| entry.as_str().is_none()) {
        Some(entry) => {
            let kind = kind_name(entry);
            format!(in alloc; "found {kind} in it")
        }
        None => String::from_str(alloc, "found texts"),
    }
}
