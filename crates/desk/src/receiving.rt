//! Receives the bytes of an upload (Git LFS API, Basic Transfers, "Uploads").

ghost use Rattle.std.specs.Prelude.{◌≡◌, ◌<◌, ◌≤◌, ℕ, List, length, take, Err, OnOk, IfErr};
ghost use Rattle.names.specs.Names.{repo_text};
ghost use Rattle.refinement.specs.Left.{From, Keeps};
ghost use Rattle.desk.specs.declared.receiving.ReceiveFault.TheVariants as fault;
ghost use Rattle.tables.specs.declared.fault.StoreFault.TheVariants as store;
ghost use Rattle.desk.specs.Contents.{HasRead, IsReadOut, IsLeftAfter};
ghost use Rattle.desk.specs.Receiving.{Takes, Fills, Settles, ReceivesStaged, Receives};

use chunks::{Arrival, Intake};
use names::{Body, BodyFault, Oid, RepoName, Size};
use std::alloc::{AllocError, Global};
use store::Store;
use tables::{StoreFault, UploadId};
use uploads::UploadFault;

/// The largest number of bytes that are read at a time.
const PIECE: usize = 65_536;

/// The result of an upload whose bytes all arrived.
#[derive(Clone, Copy, Debug, PartialEq, Eq)]
pub(crate) enum Receipt {
    /// The repository has the object.
    Stored,
    /// The bytes do not have the name of the upload (X2).
    Differs,
}

/// Why an upload was not received. The objects of the store are unchanged.
#[derive(Clone, Copy, Debug, PartialEq, Eq)]
pub(crate) enum ReceiveFault {
    /// The store refused, or memory ran out.
    Store(StoreFault),
    /// The input ended, or a read failed, within the content.
    Body(BodyFault),
}

impl From<StoreFault> for ReceiveFault {
    ghost from_gives = { λ refused result. result ≡ fault.Store refused };

    fn from(fault: StoreFault) -> ReceiveFault {
        ReceiveFault::Store(fault)
    }
}

impl From<BodyFault> for ReceiveFault {
    ghost from_gives = { λ cut result. result ≡ fault.Body cut };

    fn from(fault: BodyFault) -> ReceiveFault {
        ReceiveFault::Body(fault)
    }
}

impl From<AllocError> for ReceiveFault {
    ghost from_gives = { λ _ result. result ≡ fault.Store store.Memory };

    fn from(_error: AllocError) -> ReceiveFault {
        ReceiveFault::Store(StoreFault::Memory)
    }
}

/// The first bytes of the piece.
fn front(piece: &[u8], count: usize) -> &[u8]
    requires { count ≤ length piece.now }
    ensures { result.now ≡ take count piece.now }
{
    piece.split_at(count).0
}

/// The number of bytes of a content of this size that are read at a time.
fn piece_of(size: Size) -> usize
    ensures { 0 < result }
{
    size.get().clamp(1, PIECE as u64) as usize
}

/// Reads the content to its end, and pushes its bytes to the intake. Each piece is read into `buffer`.
///
/// # Errors
///
/// `Body` if the content was not read to its end, and `Store` of the errors of [`Intake::push`]. The contents of the
/// store are unchanged.
fn take_all<S: Store, B: Body>(
    store: &mut S,
    content: &mut B,
    intake: &mut Intake,
    buffer: &mut [u8],
) -> Result<(), ReceiveFault>
    requires { 0 < length buffer.old }
    ensures bytes { (bytes : List ℕ) × HasRead B.Body content.old content.new bytes
        × From S.State store.old store.new (λ world.
        Takes S.State store.old intake.old store.new intake.new bytes result world) }
    ensures upload { intake.new.upload ≡ intake.old.upload }
    ensures whole { OnOk result (IsReadOut B.Body content.old content.new) }
    ensures fault { IfErr result (IsLeftAfter B.Body content.old content.new) }
{
    'pieces: while content.left() > 0 {
        let count = content.piece(buffer)?;
        intake.push(store, front(buffer, count))?;
    }
    Ok(())
}

/// Reads the content to its end as the bytes of an upload that has none yet, and returns their name, their number and
/// their last chunk.
///
/// # Errors
///
/// `Body` if the content was not read to its end, and `Store` of the errors of [`Intake::push`] and [`Intake::end`].
/// The contents of the store are unchanged.
fn fill<S: Store, B: Body>(
    alloc: Global,
    store: &mut S,
    upload: UploadId,
    size: Size,
    content: &mut B,
) -> Result<Arrival, ReceiveFault>
    ensures bytes { (bytes : List ℕ) × HasRead B.Body content.old content.new bytes
        × From S.State store.old store.new (λ world.
        Fills S.State store.old store.new upload size bytes result world) }
    ensures whole { OnOk result (IsReadOut B.Body content.old content.new) }
    ensures fault { IfErr result (IsLeftAfter B.Body content.old content.new) }
{
    let mut intake = Intake::begin(alloc, upload, size)?;
    let mut buffer = vec![in alloc; 0u8; piece_of(size)]?;
    take_all(store, content, &mut intake, &mut buffer)?;
    Ok(intake.end()?)
}

/// Makes the upload an object of its repository if the bytes that arrived have its name.
///
/// # Errors
///
/// The errors of [`uploads::complete`], which leave the objects of the store unchanged.
pub(crate) fn settle<S: Store>(
    store: &mut S,
    upload: UploadId,
    arrival: &Arrival,
) -> Result<Receipt, StoreFault>
    ensures { From S.State store.old store.new (λ world.
        Settles S.State store.old store.new upload arrival.now result world) }
{
    match uploads::complete(store, upload, &arrival.last, &arrival.name, arrival.size) {
        Ok(_) => Ok(Receipt::Stored),
        Err(UploadFault::Differs) => Ok(Receipt::Differs),
        Err(UploadFault::Store(fault)) => Err(fault),
    }
}

/// Reads the content to its end as the bytes of an upload that has none yet, and makes the upload an object of its
/// repository if they have its name.
///
/// # Errors
///
/// `Store` and `Body`, as [`receive`]. The upload may still be staged; the world is unchanged.
fn receive_staged<S: Store, B: Body>(
    alloc: Global,
    store: &mut S,
    upload: UploadId,
    size: Size,
    content: &mut B,
) -> Result<Receipt, ReceiveFault>
    ensures bytes { (bytes : List ℕ) × HasRead B.Body content.old content.new bytes
        × From S.State store.old store.new (λ world. ReceivesStaged S.State store.old store.new
        upload size bytes (B.size content.new) result world) }
    ensures whole { OnOk result (IsReadOut B.Body content.old content.new) }
    ensures fault { IfErr result (IsLeftAfter B.Body content.old content.new) }
{
    let arrival = fill(alloc, store, upload, size, content)?;
    Ok(settle(store, upload, &arrival)?)
}

/// Removes what arrived of an upload that has other bytes, if the store allows it. After a refusal of the store it removes
/// whatever is staged: on a full disk, uploads that failed before may be staged too. An upload that is cut off stays
/// staged. What is not removed here is removed by the next upload of its repository.
pub(crate) fn clear<S: Store>(
    alloc: Global,
    store: &mut S,
    upload: UploadId,
    received: &Result<Receipt, ReceiveFault>,
)
    ensures { From S.State store.old store.new (λ world.
        Keeps S.State store.old store.new world) }
{
    match received {
        Ok(Receipt::Stored) | Err(ReceiveFault::Body(_)) => {}
        Ok(Receipt::Differs) => {
            let _ = uploads::abandon(store, upload);
        }
        Err(ReceiveFault::Store(_)) => {
            let _ = uploads::sweep(alloc, store);
        }
    }
}

/// Reads the content to its end, and stores it as the object of this name if its bytes have the name. If they do not, or
/// if the store refuses, the bytes that arrived are removed, as far as the store allows it. If the content is cut off, the
/// upload stays staged, with the chunks that arrived.
///
/// # Errors
///
/// - [`ReceiveFault::Store`]: the store refused, or memory ran out; `Refused` also for a name that the repository has
///   retired, or a content above the largest size of an object. Some of the content may be unread.
/// - [`ReceiveFault::Body`]: the content was not read to its end.
///
/// Both leave the contents of the store unchanged.
pub(crate) fn receive<S: Store, B: Body>(
    alloc: Global,
    store: &mut S,
    repo: &RepoName,
    name: &Oid,
    content: &mut B,
) -> Result<Receipt, ReceiveFault>
    ensures bytes { (bytes : List ℕ) × HasRead B.Body content.old content.new bytes
        × From S.State store.old store.new (λ world. Receives S.State store.old store.new world
        (repo_text repo.now) name.now bytes (B.size content.new) result) }
    ensures whole { OnOk result (IsReadOut B.Body content.old content.new) }
    ensures fault { IfErr result (IsLeftAfter B.Body content.old content.new) }
{
    let Some(size) = Size::read(content.left()) else {
        return Err(ReceiveFault::Store(StoreFault::Refused));
    };
    let upload = uploads::begin(alloc, store, repo, name, size)?;
    let received = receive_staged(alloc, store, upload, size, content);
    clear(alloc, store, upload, &received);
    received
}
