//! Describes a fault in words, for a person who corrects the file.

use crate::faults::{Fault, FaultCode, Place};
use crate::keys::Key;
use std::fmt;

/// Writes a fault as a sentence: its place, what is wrong and what is expected.
///
/// The commands print the code and the place, which [`Fault`] writes; only the one that checks a policy file adds the
/// sentence.
#[derive(Clone, Copy, Debug, PartialEq, Eq)]
pub struct Sentence(pub Fault);

impl fmt::Display for Sentence {
    fn fmt<W: fmt::Write>(&self, f: &mut fmt::Formatter<W>) -> fmt::Result {
        let fault = self.0;
        match fault.place {
            Place::File => write!(f, "the file ")?,
            Place::Top => write!(f, "at the top, ")?,
            Place::Repo(number) => write!(f, "in repository {number}, ")?,
            Place::Row(number) => write!(f, "in row {number}, ")?,
        }
        match fault.key {
            Some(key) => {
                let (name, wrong, expected) = (key.name(), wrong(fault.code), expected(key));
                write!(f, "`{name}` is {wrong}: expected {expected}")
            }
            None => f.write_str(wrong_as_a_whole(fault)),
        }
    }
}

/// What is wrong with the value of a key.
fn wrong(code: FaultCode) -> &'static str {
    match code {
        FaultCode::Y1 => "no TOML",
        FaultCode::Y2 => "missing or of the wrong kind",
        FaultCode::Y3 => "out of range",
        FaultCode::Y4 => "the same as in an earlier repository",
        FaultCode::Y5 => "too long",
    }
}

/// What is wrong with a place, if the fault is not at one of its keys.
fn wrong_as_a_whole(fault: Fault) -> &'static str {
    match (fault.code, fault.place) {
        (FaultCode::Y1, _) => "is no TOML text in UTF-8",
        (FaultCode::Y5, _) => "has more than 1048576 bytes",
        (_, Place::Repo(_)) => {
            "there is no table, or a key that is none of `name`, `default_ref`, `quota`"
        }
        (_, Place::Row(_)) => {
            "there is no table, or a key that is none of `effect`, `users`, `repos`, `refs`, `paths`, `rights`"
        }
        _ => "there is a key that is none of `base`, `token_seconds`, `repo`, `row`",
    }
}

/// What is expected at a key.
fn expected(key: Key) -> &'static str {
    match key {
        Key::Base => {
            "a text of 8 to 200 of `A-Z a-z 0-9 . : _ / -` that begins with http:// or https://, goes on after it and does not end in /"
        }
        Key::TokenSeconds => "a whole number from 1 to 86400",
        Key::Repo => "an array of at most 256 tables",
        Key::Row => "an array of at most 1000 tables",
        Key::Name => "a repository, as owner/name, each 1 to 40 of `a-z 0-9 _ -`",
        Key::DefaultRef => "a ref, as refs/heads/main",
        Key::Quota => "a whole number from 0 to 1099511627776",
        Key::Effect => "allow or deny",
        Key::Users => "1 to 64 texts, each * or a user",
        Key::Repos => "1 to 64 texts, each *, an owner and a slash, or a repository",
        Key::Refs => "1 to 64 texts, each *, refs/, a ref and a slash, or a ref",
        Key::Paths => "1 to 64 texts, each *, a path and a slash, or a path",
        Key::Rights => "1 to 64 texts of pull, push, list, lock, force",
    }
}
