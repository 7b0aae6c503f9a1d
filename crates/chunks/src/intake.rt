//! Takes the bytes of an upload, and writes its chunks.

ghost use Rattle.std.specs.Prelude.{◌≡◌, ◌+◌, ◌<◌, ◌≤◌, ◌++◌, ℕ, List, true, false, [], length, take, drop, Err, IfOk, OnOk, OnErr};
ghost use Rattle.sha2.specs.Hashers.{Holds256};
ghost use Rattle.model.specs.World.{name_of};
ghost use Rattle.store.specs.Shown.{HasTables};
ghost use Rattle.refinement.specs.Left.{From, Keeps};
ghost use Rattle.chunks.specs.Intakes.{IsCut, IsWhole, HasCounted, KeepsCount, HasTaken, Advances, KeepsWithin};

use names::{Oid, Size};
use sha2::{Digest, Sha256};
use std::alloc::{AllocError, Global};
use store::Store;
use tables::{LastChunk, StoreFault, UploadId};

/// The number of bytes of a chunk; the last one of an upload may be shorter.
const CHUNK: usize = 65_536;

/// The bytes of an upload, once all have arrived.
#[derive(Debug, Drop)]
pub struct Arrival {
    /// Their name.
    pub name: Oid,
    /// Their number.
    pub size: Size,
    /// The last chunk. It is not written yet: it is added when the upload is completed.
    pub last: LastChunk,
}

/// Takes the bytes of an upload, in pieces of any length.
///
/// After a fault an intake is spent: each later call returns `Refused`, and leaves the store as it is.
#[derive(Drop)]
pub struct Intake {
    upload: UploadId,
    /// The most bytes that it takes.
    size: Size,
    hasher: Sha256,
    /// The bytes of the chunk that is not full yet.
    last: Vec<u8>,
    /// The number of chunks that were written.
    written: u32,
    /// The number of bytes that were taken.
    taken: u64,
    is_spent: bool,
}

impl Intake {
    /// Makes an intake for an upload that has no chunk yet. It takes at most `size` bytes.
    ///
    /// # Errors
    ///
    /// Fails only if memory runs out.
    pub fn begin(alloc: Global, upload: UploadId, size: Size) -> Result<Intake, AllocError>
        ensures upload { IfOk result (λ intake. intake.upload ≡ upload) }
        ensures size { IfOk result (λ intake. intake.size ≡ size) }
        ensures empty { IfOk result (λ intake. IsCut intake.written intake.last.items [] []
            × HasCounted intake.hasher intake.taken []) }
        ensures ready { IfOk result (λ intake. intake.is_spent ≡ false) }
    {
        Ok(Intake {
            upload,
            size,
            hasher: Sha256::new(),
            last: Vec::with_capacity(alloc, CHUNK)?,
            written: 0,
            taken: 0,
            is_spent: false,
        })
    }

    /// Writes the bytes in memory, which are a full chunk, as the next one.
    fn write_chunk<S: Store>(&mut self, store: &mut S) -> Result<(), StoreFault>
        ensures same { KeepsCount self.old self.new }
        ensures empty { OnOk result (self.new.last.items ≡ []) }
        ensures advances { length self.old.last.items ≡ CHUNK
            → OnOk result (Advances S.State store.old self.old store.new self.new []) }
        ensures keeps { KeepsWithin S.State store.old self.old store.new 0 }
    {
        let Some(next) = self.written.checked_add(1) else {
            return Err(StoreFault::Refused);
        };
        store.add_chunk(self.upload, self.written, self.last.as_slice())?;
        self.written = next;
        self.last.clear();
        Ok(())
    }

    /// Takes bytes from the front until the chunk is full, which is then written, and returns how many it took.
    fn fill<S: Store>(&mut self, store: &mut S, rest: &[u8]) -> Result<usize, StoreFault>
        requires { length self.old.last.items < CHUNK }
        ensures some { IfOk result (λ n. (0 < length rest.now → 0 < n) × (n ≤ length rest.now)) }
        ensures short { OnOk result (length self.new.last.items < CHUNK) }
        ensures same { KeepsCount self.old self.new }
        ensures advances { IfOk result
            (λ n. Advances S.State store.old self.old store.new self.new (take n rest.now)) }
        ensures keeps { KeepsWithin S.State store.old self.old store.new (length rest.now) }
    {
        let size = rest.len().min(CHUNK - self.last.len());
        self.last.extend_from_slice(&rest[..size])?;
        if self.last.len() == CHUNK {
            self.write_chunk(store)?;
        }
        Ok(size)
    }

    /// Takes all of the bytes.
    fn fill_all<S: Store>(&mut self, store: &mut S, piece: &[u8]) -> Result<(), StoreFault>
        ensures same { KeepsCount self.old self.new }
        ensures advances { OnOk result
            (Advances S.State store.old self.old store.new self.new piece.now) }
        ensures keeps { KeepsWithin S.State store.old self.old store.new (length piece.now) }
    {
        if self.last.len() >= CHUNK {
            return Err(StoreFault::Refused);
        }
        let mut at = 0;
        'pieces: while at < piece.len() {
            at += self.fill(store, rest_of(piece, at))?;
        }
        Ok(())
    }

    /// Takes a piece of the upload. Each chunk that is full is written at once, in a transaction of its own.
    ///
    /// # Errors
    ///
    /// A [`StoreFault`]; `Refused` also for a piece beyond the size of the upload. The intake is then spent. The
    /// contents of the store are unchanged: the chunks that were written are those of a staged upload.
    pub fn push<S: Store>(&mut self, store: &mut S, piece: &[u8]) -> Result<(), StoreFault>
        ensures taken { HasTables S.State store.old → OnOk result ((repo name : List ℕ) (size : ℕ)
            (bytes : List ℕ) → HasTaken S.State store.old self.old repo name size bytes
            → HasTaken S.State store.new self.new repo name size (bytes ++ piece.now)) }
        ensures kept { From S.State store.old store.new (λ world. (repo name : List ℕ) (size : ℕ)
            (bytes : List ℕ) → HasTaken S.State store.old self.old repo name size bytes
            → Keeps S.State store.old store.new world) }
        ensures upload { self.new.upload ≡ self.old.upload }
        ensures spent { OnErr result (self.new.is_spent ≡ true) }
        ensures refused { self.old.is_spent ≡ true
            → (result ≡ Err StoreFault.Refused) × (store.new ≡ store.old) }
    {
        if self.is_spent {
            return Err(StoreFault::Refused);
        }
        self.is_spent = true;
        let taken = self.taken_with(piece)?;
        self.fill_all(store, piece)?;
        self.hasher.update(piece);
        self.taken = taken;
        self.is_spent = false;
        Ok(())
    }

    /// The number of bytes taken, with this piece. A piece beyond the size of the upload is refused.
    fn taken_with(&self, piece: &[u8]) -> Result<u64, StoreFault>
        ensures { IfOk result (λ taken. (taken ≡ self.now.taken + length piece.now)
            × (taken ≤ self.now.size)) }
    {
        match self.taken.checked_add(piece.len() as u64) {
            Some(taken) if taken <= self.size.get() => Ok(taken),
            _ => Err(StoreFault::Refused),
        }
    }

    /// Returns the name and the number of the bytes that were taken, and the last chunk, which is not written.
    ///
    /// # Errors
    ///
    /// `Refused` if the intake is spent, or `Memory`.
    pub fn end(self) -> Result<Arrival, StoreFault>
        ensures named { (bytes : List ℕ) → HasCounted self.hasher self.taken bytes → IfOk result
            (λ arrival. (arrival.name ≡ name_of bytes) × (arrival.size ≡ length bytes)) }
        ensures whole { (pieces : List (List ℕ)) (bytes : List ℕ)
            → IsCut self.written self.last.items pieces bytes → IfOk result
            (λ arrival. IsWhole pieces arrival.last bytes) }
        ensures refused { self.is_spent ≡ true → result ≡ Err StoreFault.Refused }
    {
        if self.is_spent {
            return Err(StoreFault::Refused);
        }
        let Some(size) = Size::read(self.taken) else {
            return Err(StoreFault::Refused);
        };
        let last = LastChunk {
            n: self.written,
            bytes: self.last,
        };
        let name = name_of(self.hasher)?;
        Ok(Arrival { name, size, last })
    }
}

/// The rest of the bytes from this position on.
fn rest_of(bytes: &[u8], at: usize) -> &[u8]
    requires { at ≤ length bytes.now }
    ensures { result.now ≡ drop at bytes.now }
{
    bytes.split_at(at).1
}

/// The name of the bytes that the hasher has.
pub(crate) fn name_of(hasher: Sha256) -> Result<Oid, StoreFault>
    ensures { (bytes : List ℕ) → Holds256 hasher bytes → IfOk result
        (λ name. name ≡ name_of bytes) }
{
    let mut digits = [0u8; 64];
    if hex::encode_to_slice(hasher.finalize().as_slice(), &mut digits).is_err() {
        return Err(StoreFault::Refused);
    }
    Oid::read(&digits).ok_or(StoreFault::Refused)
}
