//! Writes a row as TOML.

use crate::keys::Key;
use crate::rows::Row;
use model::{Effect, Right};
use std::fmt;

/// The name of an effect, as written in the file.
fn effect_name(effect: Effect) -> &'static str {
    match effect {
        Effect::Allow => "allow",
        Effect::Deny => "deny",
    }
}

/// The name of a right, as written in the file.
fn right_name(right: Right) -> &'static str {
    match right {
        Right::Pull => "pull",
        Right::Push => "push",
        Right::List => "list",
        Right::Lock => "lock",
        Right::Force => "force",
    }
}

/// Writes a text in quotes. A text of a row has no control character and no backslash.
fn write_text<W: fmt::Write>(f: &mut fmt::Formatter<W>, text: &str) -> fmt::Result {
    f.write_str("\"")?;
    for c in text.chars() {
        if c == '"' {
            f.write_str("\\")?;
        }
        f.write_char(c)?;
    }
    f.write_str("\"")
}

/// Writes a key and its texts.
fn write_texts<W: fmt::Write>(
    f: &mut fmt::Formatter<W>,
    key: Key,
    texts: &[String],
) -> fmt::Result {
    let name = key.name();
    write!(f, "{name} = [")?;
    for (index, text) in texts.iter().enumerate() {
        if index > 0 {
            f.write_str(", ")?;
        }
        write_text(f, text.as_str())?;
    }
    f.write_str("]\n")
}

/// Writes the rights.
fn write_rights<W: fmt::Write>(f: &mut fmt::Formatter<W>, rights: &[Right]) -> fmt::Result {
    f.write_str("rights = [")?;
    for (index, right) in rights.iter().enumerate() {
        if index > 0 {
            f.write_str(", ")?;
        }
        let name = right_name(*right);
        write!(f, "\"{name}\"")?;
    }
    f.write_str("]")
}

/// Writes the row as in a policy file, in six lines without a line end after the last.
impl fmt::Display for Row {
    fn fmt<W: fmt::Write>(&self, f: &mut fmt::Formatter<W>) -> fmt::Result {
        let effect = effect_name(self.effect);
        write!(f, "effect = \"{effect}\"\n")?;
        write_texts(f, Key::Users, self.users.as_slice())?;
        write_texts(f, Key::Repos, self.repos.as_slice())?;
        write_texts(f, Key::Refs, self.refs.as_slice())?;
        write_texts(f, Key::Paths, self.paths.as_slice())?;
        write_rights(f, self.rights.as_slice())
    }
}
