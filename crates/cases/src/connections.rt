//! Connections: served over a store, and compared with what a case wants.

use crate::scene::Scene;
use crate::texts::Names;
use calls::Fault;
use names::{FailAfter, SliceSource, VecSink};
use service::{End, Routes, Served, serve};
use std::alloc::Global;
use store::Store;

/// What a connection was sent, how it ended, and the number of bytes that were not read.
#[derive(Drop)]
pub(crate) struct Sent {
    pub text: Vec<u8>,
    pub served: Served,
    pub unread: usize,
}

/// Serves the connection of the scene.
pub(crate) fn sent_by<S: Store>(
    alloc: Global,
    store: &mut S,
    scene: &Scene,
) -> Result<Sent, Fault> {
    let Some(policy) = &scene.policy else {
        return Err(Fault::Script("there is no policy"));
    };
    let Ok(routes) = Routes::new(alloc) else {
        return Err(Fault::Memory);
    };
    let bytes = SliceSource::new(scene.asked.as_slice(), scene.most);
    let mut source = FailAfter::new(bytes, scene.reads);
    let mut sink = FailAfter::new(VecSink::new(alloc, scene.most), scene.writes);
    let served = serve(
        alloc,
        store,
        policy,
        &routes,
        scene.now,
        &mut source,
        &mut sink,
    );
    let unread = source.into_inner().left().len();
    let text = sink.into_inner().taken().to_vec(alloc)?;
    Ok(Sent {
        text,
        served,
        unread,
    })
}

/// The number of bytes that a text shows beside the first one that differs.
const SHOWN: usize = 200;

/// A part of the bytes, from the first on that differs, for a person to read.
fn part(bytes: &[u8], at: usize) -> &str {
    let end = bytes.len().min(at.saturating_add(SHOWN));
    let shown = bytes.get(at..end).unwrap_or(b"");
    str::from_utf8(shown).unwrap_or("bytes that are no text")
}

/// Compares two texts.
pub(crate) fn expect_text(alloc: Global, wanted: &[u8], found: &[u8]) -> Result<(), Fault> {
    if wanted == found {
        return Ok(());
    }
    let same = wanted
        .iter()
        .zip(found)
        .take_while(|pair| pair.0 == pair.1)
        .count();
    let (wanted, found) = (part(wanted, same), part(found, same));
    Err(Fault::Differs(format!(in alloc;
        "from byte {same} on {wanted:?} is wanted, and {found:?} was found"
    )?))
}

/// Compares how a connection ended. One that ended with the client's input was read to its end.
pub(crate) fn expect_end(alloc: Global, wanted: Served, sent: &Sent) -> Result<(), Fault> {
    let Sent { served, unread, .. } = sent;
    if wanted != *served {
        return Err(Fault::Differs(format!(in alloc;
            "{wanted:?} is wanted, and {served:?} was found"
        )?));
    }
    if served.end == End::InputEnded && *unread > 0 {
        return Err(Fault::Differs(format!(in alloc; "{unread} bytes were not read")?));
    }
    Ok(())
}

/// Whether a store that fails explains what was sent: the first replies whole, and then the store refusal, or a part of
/// the next one.
fn is_cut_by_store(scene: &Scene, refusal: &[u8], sent: &Sent) -> bool {
    let text = sent.text.as_slice();
    let Served { answered, end } = sent.served;
    match (end, text.strip_suffix(refusal)) {
        (End::StoreRefused, Some(front)) => {
            scene
                .whole_replies(front)
                .is_some_and(|whole| whole.saturating_add(1) == answered)
        }
        (End::StoreFailed, _) => {
            let whole = scene.ends.iter().filter(|end| **end <= text.len()).count();
            scene.wanted.starts_with(text) && whole == answered
        }
        _ => false,
    }
}

/// Serves the connection of the scene, and compares what is sent and how it ends. Of the replies as many bytes are sent
/// as the writes take. A write that fails though all should succeed had no memory.
pub(crate) fn end<S: Store>(
    alloc: Global,
    store: &mut S,
    scene: &mut Scene,
    names: &Names,
    words: &str,
) -> Result<(), Fault> {
    let wanted = scene.wanted_end(words)?;
    let sent = sent_by(alloc, store, scene)?;
    if sent.served.end == End::WriteFailed && scene.writes == u64::MAX {
        return Err(Fault::Memory);
    }
    let taken = scene.writes.saturating_mul(scene.most as u64);
    let size = taken.min(scene.wanted.len() as u64) as usize;
    let text = scene.wanted.get(..size).unwrap_or(b"");
    if text != sent.text.as_slice() && is_cut_by_store(scene, names.text("S1")?, &sent) {
        return Err(Fault::Stopped);
    }
    expect_text(alloc, text, sent.text.as_slice())?;
    expect_end(alloc, wanted, &sent)?;
    scene.unread = sent.unread;
    scene.begin();
    Ok(())
}
