//! Calls about an upload that is not complete: of `uploads`, `chunks` and `tables`.

use crate::fault::Fault;
use crate::words::{answer, count, number, oid, repo, size, small, word};
use crate::{Given, Hands};
use chunks::Intake;
use std::alloc::Global;
use store::Store;
use tables::UploadId;
use uploads::{Kept, UploadFault};

impl Hands {
    /// The number of the upload, from 1 on.
    pub(crate) fn number(&mut self, upload: UploadId) -> Result<usize, Fault> {
        if let Some(at) = self.uploads.iter().position(|known| *known == upload) {
            return Ok(at.saturating_add(1));
        }
        self.uploads.push(upload)?;
        Ok(self.uploads.len())
    }

    /// The upload of this number.
    pub(crate) fn upload(&self, text: &str) -> Result<UploadId, Fault> {
        let at = (number(text)? as usize).saturating_sub(1);
        match self.uploads.get(at) {
            Some(upload) => Ok(*upload),
            None => Err(Fault::Script("no such upload")),
        }
    }

    /// The upload that was begun last.
    fn last(&self) -> Result<UploadId, Fault> {
        match self.uploads.last() {
            Some(upload) => Ok(*upload),
            None => Err(Fault::Script("no upload was begun")),
        }
    }
}

/// Begins an upload: its repository, its name, and its size.
fn begin<S: Store>(
    alloc: Global,
    store: &mut S,
    hands: &mut Hands,
    words: &[&str],
) -> Result<String, Fault> {
    let repo = repo(alloc, word(words, 0)?)?;
    let name = oid(word(words, 1)?)?;
    let size = size(word(words, 2)?)?;
    let upload = uploads::begin(alloc, store, &repo, &name, size)?;
    count(alloc, hands.number(upload)? as u64)
}

/// Stages an upload: its repository, its name, its size, and the bytes that have arrived.
fn stage<S: Store>(alloc: Global, store: &mut S, words: &[&str]) -> Result<String, Fault> {
    let repo = repo(alloc, word(words, 0)?)?;
    let name = oid(word(words, 1)?)?;
    let size = size(word(words, 2)?)?;
    let upload = uploads::begin(alloc, store, &repo, &name, size)?;
    if let Some(bytes) = words.get(3) {
        store.add_chunk(upload, 0, bytes.as_bytes())?;
    }
    Ok(String::new(alloc))
}

/// Begins to take the bytes of the last upload, which has this size.
fn open(alloc: Global, hands: &mut Hands, words: &[&str]) -> Result<String, Fault> {
    let size = size(word(words, 0)?)?;
    hands.intake = Some(Intake::begin(alloc, hands.last()?, size)?);
    Ok(String::new(alloc))
}

/// Takes bytes, in pieces of a size.
fn take<S: Store>(
    alloc: Global,
    store: &mut S,
    hands: &mut Hands,
    words: &[&str],
) -> Result<String, Fault> {
    let cut = number(word(words, 0)?)? as usize;
    let bytes = words.get(1).copied().unwrap_or("").as_bytes();
    let Some(intake) = &mut hands.intake else {
        return Err(Fault::Script("no upload is taken"));
    };
    for piece in bytes.chunks(cut.max(1)) {
        intake.push(store, piece)?;
    }
    Ok(String::new(alloc))
}

/// Ends what was taken: its SHA-256, and its size.
fn close(alloc: Global, hands: &mut Hands) -> Result<String, Fault> {
    let Some(intake) = hands.intake.take() else {
        return Err(Fault::Script("no upload is taken"));
    };
    let arrival = intake.end()?;
    let (name, size) = (arrival.name, arrival.size.get());
    let name = name.text();
    let line = format!(in alloc; "{name} {size}\n")?;
    hands.arrival = Some(arrival);
    Ok(line)
}

/// Makes the last upload an object, by what arrived.
fn complete<S: Store>(alloc: Global, store: &mut S, hands: &Hands) -> Result<String, Fault> {
    let Some(arrival) = &hands.arrival else {
        return Err(Fault::Script("nothing has arrived"));
    };
    let id = hands.last()?;
    let line = match uploads::complete(store, id, &arrival.last, &arrival.name, arrival.size) {
        Ok(Kept::New) => "new\n",
        Ok(Kept::Already) => "already\n",
        Err(UploadFault::Differs) => "differs\n",
        Err(UploadFault::Store(fault)) => return Err(fault.into()),
    };
    Ok(line.to_owned(alloc)?)
}

/// Removes the last upload.
fn abandon<S: Store>(alloc: Global, store: &mut S, hands: &Hands) -> Result<String, Fault> {
    uploads::abandon(store, hands.last()?)?;
    Ok(String::new(alloc))
}

/// Removes the chunks of an upload from a number on.
fn shorten<S: Store>(
    alloc: Global,
    store: &mut S,
    hands: &Hands,
    words: &[&str],
) -> Result<String, Fault> {
    let upload = hands.upload(word(words, 0)?)?;
    let first = small(word(words, 1)?)?;
    answer(alloc, store.shorten_upload(upload, first)?)
}

/// Adds a chunk: its upload, its number, and its bytes.
fn chunk<S: Store>(
    alloc: Global,
    store: &mut S,
    hands: &Hands,
    words: &[&str],
) -> Result<String, Fault> {
    let upload = hands.upload(word(words, 0)?)?;
    let number = small(word(words, 1)?)?;
    store.add_chunk(upload, number, word(words, 2)?.as_bytes())?;
    Ok(String::new(alloc))
}

/// Makes the call of this word, if it is one about an upload.
pub(crate) fn call<S: Store>(
    given: &Given<'_>,
    store: &mut S,
    hands: &mut Hands,
    name: &str,
    words: &[&str],
) -> Result<Option<String>, Fault> {
    let alloc = given.alloc;
    Ok(Some(match name {
        "begin" => begin(alloc, store, hands, words)?,
        "stage" => stage(alloc, store, words)?,
        "open" => open(alloc, hands, words)?,
        "take" => take(alloc, store, hands, words)?,
        "close" => close(alloc, hands)?,
        "complete" => complete(alloc, store, hands)?,
        "abandon" => abandon(alloc, store, hands)?,
        "sweep" => count(alloc, uploads::sweep(alloc, store)?)?,
        "shorten" => shorten(alloc, store, hands, words)?,
        "chunk" => chunk(alloc, store, hands, words)?,
        _ => return Ok(None),
    }))
}
