//! Calls about objects: of `uploads`, `chunks` and `desk`.

use crate::fault::Fault;
use crate::words::{answer, count, oid, part, repo, user, word};
use crate::{Given, Hands};
use chunks::{PourCause, pour};
use names::{FailAfter, VecSink};
use std::alloc::Global;
use store::Store;
use tables::UploadRow;
use uploads::Retired;

/// The number of an object's upload, and its size, if a repository has it.
fn object<S: Store>(
    alloc: Global,
    store: &mut S,
    hands: &mut Hands,
    words: &[&str],
) -> Result<String, Fault> {
    let repo = repo(alloc, word(words, 0)?)?;
    let name = oid(word(words, 1)?)?;
    match uploads::find(store, &repo, &name)? {
        Some(row) => {
            let (number, size) = (hands.number(row.id)?, row.size.get());
            Ok(format!(in alloc; "{number} {size}\n")?)
        }
        None => Ok(String::new(alloc)),
    }
}

/// The lines of objects.
fn lines(alloc: Global, rows: &[UploadRow]) -> Result<String, Fault> {
    let mut text = String::new(alloc);
    for row in rows.iter() {
        let (repo, name, size) = (row.repo.as_str(), row.oid.text(), row.size.get());
        let line = format!(in alloc; "{repo} {name} {size}\n")?;
        text.push_str(line.as_str())?;
    }
    Ok(text)
}

/// The objects of a repository, or of all.
fn objects<S: Store>(alloc: Global, store: &mut S, words: &[&str]) -> Result<String, Fault> {
    let name = match part(words, 0) {
        Some(word) => Some(repo(alloc, word)?),
        None => None,
    };
    lines(alloc, uploads::all(alloc, store, name.as_ref())?.as_slice())
}

/// The bytes of a repository's objects.
fn used<S: Store>(alloc: Global, store: &mut S, words: &[&str]) -> Result<String, Fault> {
    let repo = repo(alloc, word(words, 0)?)?;
    count(alloc, uploads::used(store, &repo)?)
}

/// Removes an object for good.
fn retire<S: Store>(alloc: Global, store: &mut S, words: &[&str]) -> Result<String, Fault> {
    let repo = repo(alloc, word(words, 0)?)?;
    let name = oid(word(words, 1)?)?;
    let line = match uploads::retire(alloc, store, &repo, name)? {
        Retired::Now => "now\n",
        Retired::Already => "already\n",
        Retired::Unknown => "unknown\n",
    };
    Ok(line.to_owned(alloc)?)
}

/// Removes an object, whose name may be uploaded again.
fn discard<S: Store>(alloc: Global, store: &mut S, words: &[&str]) -> Result<String, Fault> {
    let repo = repo(alloc, word(words, 0)?)?;
    let name = oid(word(words, 1)?)?;
    answer(alloc, store.discard_object(&repo, &name)?)
}

/// How the file of contents is filled, if there is one: the bytes of contents, those that are free before the last of
/// them ends, and the size.
fn room<S: Store>(alloc: Global, store: &mut S) -> Result<String, Fault> {
    match store.room()? {
        Some(room) => {
            let (kept, free, size) = (room.kept, room.free, room.size);
            Ok(format!(in alloc; "{kept} {free} {size}\n")?)
        }
        None => Ok(String::new(alloc)),
    }
}

/// Whether an object was removed for good.
fn is_retired<S: Store>(alloc: Global, store: &mut S, words: &[&str]) -> Result<String, Fault> {
    let repo = repo(alloc, word(words, 0)?)?;
    let name = oid(word(words, 1)?)?;
    answer(alloc, uploads::is_retired(store, &repo, &name)?)
}

/// The names of the objects that a repository removed for good.
fn retired<S: Store>(alloc: Global, store: &mut S, words: &[&str]) -> Result<String, Fault> {
    let repo = repo(alloc, word(words, 0)?)?;
    let mut text = String::new(alloc);
    for name in uploads::retired(alloc, store, &repo)?.iter() {
        text.push_str(name.text())?;
        text.push('\n')?;
    }
    Ok(text)
}

/// Writes an object out: its upload, and the bytes that it has to begin with. Returns their number, and whether a write
/// failed.
fn write_out<S: Store>(
    given: &Given<'_>,
    store: &mut S,
    hands: &Hands,
    words: &[&str],
) -> Result<String, Fault> {
    let alloc = given.alloc;
    let upload = hands.upload(word(words, 0)?)?;
    let mut sink = FailAfter::new(VecSink::new(alloc, given.most), given.writes);
    let (written, end) = match pour(store, upload, &mut sink) {
        Ok(written) => (written, ""),
        Err(fault) => match fault.cause {
            PourCause::Store(cause) => return Err(cause.into()),
            PourCause::Device => (fault.written, " failed"),
        },
    };
    let sink = sink.into_inner();
    let wanted = words.get(1).copied().unwrap_or("").as_bytes();
    if wanted.get(..written as usize) != Some(sink.taken()) {
        return Err(Fault::Script("other bytes are written out"));
    }
    Ok(format!(in alloc; "{written}{end}\n")?)
}

/// The numbers of tokens, objects, removed objects and locks that a user sees of a repository.
fn view<S: Store>(given: &Given<'_>, store: &mut S, words: &[&str]) -> Result<String, Fault> {
    let alloc = given.alloc;
    let Some(policy) = given.policy else {
        return Err(Fault::Script("there is no policy"));
    };
    let user = user(alloc, word(words, 0)?)?;
    let repo = repo(alloc, word(words, 1)?)?;
    let view = desk::view(alloc, store, policy, &user, &repo)?;
    let (tokens, objects) = (view.tokens.len(), view.objects.len());
    let (retired, locks) = (view.retired.len(), view.locks.len());
    Ok(format!(in alloc; "{tokens} {objects} {retired} {locks}\n")?)
}

/// Makes the call of this word, if it is one about objects.
pub(crate) fn call<S: Store>(
    given: &Given<'_>,
    store: &mut S,
    hands: &mut Hands,
    name: &str,
    words: &[&str],
) -> Result<Option<String>, Fault> {
    let alloc = given.alloc;
    Ok(Some(match name {
        "object" => object(alloc, store, hands, words)?,
        "objects" => objects(alloc, store, words)?,
        "used" => used(alloc, store, words)?,
        "retire" => retire(alloc, store, words)?,
        "discard" => discard(alloc, store, words)?,
        "room" => room(alloc, store)?,
        "is-retired" => is_retired(alloc, store, words)?,
        "retired" => retired(alloc, store, words)?,
        "pour" => write_out(given, store, hands, words)?,
        "view" => view(given, store, words)?,
        _ => return Ok(None),
    }))
}
