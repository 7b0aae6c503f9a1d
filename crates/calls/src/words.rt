//! The words of a line, as names and numbers.

use crate::fault::Fault;
use names::{LockId, LockPath, Moment, Oid, Operation, RefName, RepoName, Size, UserName};
use std::alloc::Global;

/// The word at this place.
pub fn word<'t>(words: &[&'t str], at: usize) -> Result<&'t str, Fault> {
    match words.get(at) {
        Some(word) => Ok(*word),
        None => Err(Fault::Script("a word is missing")),
    }
}

/// The word at this place, unless there is none or it is `-`.
pub(crate) fn part<'t>(words: &[&'t str], at: usize) -> Option<&'t str> {
    words.get(at).copied().filter(|word| *word != "-")
}

/// The number of this text.
pub fn number(text: &str) -> Result<u64, Fault> {
    match text.parse::<u64>() {
        Ok(number) => Ok(number),
        Err(_) => Err(Fault::Script("a number has decimal digits")),
    }
}

/// The number of this text, which has 32 bits.
pub(crate) fn small(text: &str) -> Result<u32, Fault> {
    match text.parse::<u32>() {
        Ok(number) => Ok(number),
        Err(_) => Err(Fault::Script("a number has decimal digits, and 32 bits")),
    }
}

/// The moment of this text.
pub fn moment(text: &str) -> Result<Moment, Fault> {
    Moment::read(number(text)?).ok_or(Fault::Script("no such moment"))
}

/// The repository of this text.
pub fn repo(alloc: Global, text: &str) -> Result<RepoName, Fault> {
    RepoName::read(text.to_owned(alloc)?).ok_or(Fault::Script("no such repository"))
}

/// The user of this text.
pub fn user(alloc: Global, text: &str) -> Result<UserName, Fault> {
    UserName::read(text.to_owned(alloc)?).ok_or(Fault::Script("no such user"))
}

/// The ref of this text.
pub(crate) fn ref_name(alloc: Global, text: &str) -> Result<RefName, Fault> {
    RefName::read(text.to_owned(alloc)?).ok_or(Fault::Script("no such ref"))
}

/// The path of this text.
pub(crate) fn path(alloc: Global, text: &str) -> Result<LockPath, Fault> {
    LockPath::read(text.to_owned(alloc)?).ok_or(Fault::Script("no such path"))
}

/// The lock id of this text.
pub(crate) fn lock_id(text: &str) -> Result<LockId, Fault> {
    LockId::from_number(small(text)?).ok_or(Fault::Script("no such lock"))
}

/// The object's name of this text.
pub fn oid(text: &str) -> Result<Oid, Fault> {
    Oid::read(text.as_bytes()).ok_or(Fault::Script("no such object"))
}

/// The object's size of this text.
pub fn size(text: &str) -> Result<Size, Fault> {
    Size::read(number(text)?).ok_or(Fault::Script("no such size"))
}

/// The operation of this word.
pub fn operation(word: &str) -> Result<Operation, Fault> {
    match word {
        "download" => Ok(Operation::Download),
        "upload" => Ok(Operation::Upload),
        _ => Err(Fault::Script("no such operation")),
    }
}

/// The line of a number.
pub(crate) fn count(alloc: Global, number: u64) -> Result<String, Fault> {
    Ok(format!(in alloc; "{number}\n")?)
}

/// The line `yes` or `no`.
pub(crate) fn answer(alloc: Global, is_so: bool) -> Result<String, Fault> {
    let line = if is_so { "yes\n" } else { "no\n" };
    Ok(line.to_owned(alloc)?)
}
