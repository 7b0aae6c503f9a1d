//! Hashes every stored object again, some of them at a time.

ghost use Rattle.std.specs.Prelude.{◌≡◌, ⊤, false, length, true, string_bytes, vec_len, IfErr, IfOk, IfSome, None, OnOk, Some};
ghost use Rattle.std.specs.Io.KnownBytes.{Appends};
ghost use Rattle.store.specs.Shown.{Answers, HasTables, IsHonest, shown};
ghost use Rattle.tables.specs.Staging.{AreUploadsOf, objects_of};
ghost use Rattle.store.specs.ReadFaults.{result_behind};
ghost use Rattle.refinement.specs.Left.{From, Reads};
ghost use Rattle.operator.specs.Damage.{FindsSound, HasRow, IsRowSound, IsWhole};
ghost use Rattle.operator.specs.Failing.{IsPlain};
ghost use Rattle.operator.specs.Inspections.{IsChecked, IsDoneAtEnd, IsQuiet, Spares, inspected_line, progress_text};
ghost use Rattle.operator.specs.Listed.{line};
ghost use Rattle.operator.specs.Printed.{IfWritten};
ghost use Rattle.uploads.specs.Listing.{Lists};

use crate::checking::{Progress, is_damaged};
use crate::faults::TaskFault;
use crate::lines::{damage_line, removal_line};
use crate::output::{print, print_count};
use names::Sink;
use sha2::{Digest, Sha256};
use std::alloc::{AllocError, Global};
use std::io::Stderr;
use store::{ReadFault, Store};
use tables::{ObjectRow, StoreFault};
use uploads::Stored;

/// How many bytes are hashed at a time, about: an object that is larger is read in slices of as many.
const SLICE: u64 = 1_048_576;

/// How many chunks a slice has.
const CHUNKS: u32 = 16;

/// The most objects that are inspected at a time.
const OBJECTS: u32 = 64;

/// What an inspection is for.
#[derive(Clone, Copy, Debug, PartialEq, Eq)]
pub enum Purpose {
    /// Damaged objects are reported.
    Check,
    /// Damaged objects are removed, with their bytes. What their repositories store is counted again, and their names may
    /// be stored again.
    Repair,
}

/// How far an inspection got.
#[derive(Debug, Drop)]
pub enum Advance {
    /// Objects are left, or a part of one.
    More,
    /// An object is damaged; the line that reports it, or its removal, with its end.
    Damaged(String),
    /// The file of contents does not return the bytes of an object; the same line.
    Unreadable(String),
    /// No object is left.
    Done,
}

/// What was read of an object.
#[derive(Drop)]
enum Pass {
    /// A part.
    Part(ObjectReading),
    /// All of it: it has the bytes of its name.
    Whole,
    /// All that there is: other bytes, or another number of them.
    Other,
}

/// The part of an object that was read.
#[derive(Drop)]
struct ObjectReading {
    hasher: Sha256,
    /// How many bytes were hashed.
    count: u64,
    /// The number of the next chunk.
    next: u32,
}

impl ObjectReading {
    /// Nothing was read yet.
    fn new() -> ObjectReading {
        ObjectReading {
            hasher: Sha256::new(),
            count: 0,
            next: 0,
        }
    }

    /// Reads the next slice of the object.
    fn advance<S: Store>(mut self, store: &mut S, row: &Stored) -> Result<Pass, ReadFault>
        ensures { Reads S.State store.old store.new (λ _. ⊤) }
    {
        'chunks: for _ in 0..CHUNKS {
            let Some(chunk) = store.chunk(row.id, self.next)? else {
                return Ok(self.compare(row));
            };
            let bytes = chunk.bytes();
            self.hasher.update(bytes);
            self.count = self.count.saturating_add(bytes.len() as u64);
            self.next = self.next.saturating_add(1);
        }
        Ok(Pass::Part(self))
    }

    /// Compares what was read with the name and the size of the object.
    fn compare(self, row: &Stored) -> Pass {
        let mut digits = [0; 64];
        let digest = self.hasher.finalize();
        let is_named = hex::encode_to_slice(digest.as_slice(), &mut digits).is_ok()
            && digits.as_slice() == row.oid.text().as_bytes();
        if is_named && self.count == row.size.get() {
            Pass::Whole
        } else {
            Pass::Other
        }
    }
}

/// Whether the upload that was found is the one that was listed.
fn is_same(found: ObjectRow, row: &Stored) -> bool
    ensures id { result ≡ true → found.id ≡ row.now.id }
    ensures size { result ≡ true → found.size ≡ row.now.size }
    ensures both { found.id ≡ row.now.id → found.size ≡ row.now.size → result ≡ true }
{
    found.id == row.id && found.size == row.size
}

/// Whether the object is still stored as it was listed.
fn is_stored<S: Store>(store: &mut S, row: &Stored) -> Result<bool, StoreFault>
    ensures world { Reads S.State store.old store.new (λ world. IfOk result
        (λ stored. stored ≡ true → IsWhole S.State store.new row.now)) }
    ensures exact { Answers S.State store.old store.new result (λ t stored.
        HasRow t row.now → stored ≡ true) }
{
    match store.object(&row.repo, &row.oid)? {
        Some(found) => Ok(is_same(found, row)),
        None => Ok(false),
    }
}

/// Whether the object is still stored, and is damaged. No object of a world is.
fn is_still_damaged<S: Store>(store: &mut S, row: &Stored) -> Result<bool, ReadFault>
    ensures world { Reads S.State store.old store.new (λ world. IfOk result
        (λ damaged. damaged ≡ false)) }
    ensures exact { Answers S.State store.old store.new (result_behind result) (λ t damaged.
        damaged ≡ false → IsRowSound t row.now) }
{
    if is_stored(store, row)? {
        is_damaged(store, row)
    } else {
        Ok(false)
    }
}

/// Reads the next slice of the object, and returns whether it is damaged; `None` if more of it is left. The store may
/// change between two slices, so what they have in sum is only a reason to look again.
fn verdict_by_slices<S: Store>(
    store: &mut S,
    row: &Stored,
    reading: &mut Option<ObjectReading>,
) -> Result<Option<bool>, ReadFault>
    ensures { Reads S.State store.old store.new (λ world. IfOk result
        (λ found. IfSome found (λ damaged. damaged ≡ false))) }
{
    let begun = reading.take().unwrap_or(ObjectReading::new());
    match begun.advance(store, row)? {
        Pass::Part(begun) => {
            *reading = Some(begun);
            Ok(None)
        }
        Pass::Whole => Ok(Some(false)),
        Pass::Other => Ok(Some(is_still_damaged(store, row)?)),
    }
}

/// Whether the object is damaged; `None` if only a slice of it was read, for which it has to be large, and `pauses` true.
fn verdict_on<S: Store>(
    store: &mut S,
    row: &Stored,
    reading: &mut Option<ObjectReading>,
    pauses: bool,
) -> Result<Option<bool>, ReadFault>
    ensures world { Reads S.State store.old store.new (λ world. IfOk result
        (λ found. IfSome found (λ damaged. damaged ≡ false))) }
    ensures exact { pauses ≡ false → Answers S.State store.old store.new (result_behind result) (λ t found.
        found ≡ Some false → IsRowSound t row.now) }
{
    if pauses && row.size.get() > SLICE {
        return verdict_by_slices(store, row, reading);
    }
    Ok(Some(is_still_damaged(store, row)?))
}

impl Purpose {
    /// Does what is to be done with a damaged object, and returns the line that says so. The line is ready before.
    fn treat<S: Store>(
        self,
        alloc: Global,
        store: &mut S,
        row: &Stored,
    ) -> Result<String, TaskFault>
        ensures honest { IsHonest S.State store.new → IsHonest S.State store.old }
        ensures reads { self ≡ Purpose.Check → Reads S.State store.old store.new (λ _. ⊤) }
        ensures err { IfErr result IsPlain }
    {
        let mut line = match self {
            Purpose::Check => damage_line(alloc, row)?,
            Purpose::Repair => removal_line(alloc, row)?,
        };
        line.push('\n')?;
        if self == Purpose::Repair {
            store.discard_object(&row.repo, &row.oid)?;
        }
        Ok(line)
    }

    /// Does what is to be done with an object whose bytes could not be read: as with a damaged one, but before it is
    /// removed the store notes that a content is lost.
    fn give_up<S: Store>(
        self,
        alloc: Global,
        store: &mut S,
        row: &Stored,
    ) -> Result<String, TaskFault>
        ensures world { From S.State store.old store.new (λ _. Reads S.State store.old store.new (λ _. ⊤)) }
        ensures reads { self ≡ Purpose.Check → Reads S.State store.old store.new (λ _. ⊤) }
        ensures lost { OnOk result (self ≡ Purpose.Repair → IsHonest S.State store.new → ⊥) }
        ensures err { IfErr result IsPlain }
    {
        if self == Purpose::Check {
            return self.treat(alloc, store, row);
        }
        if !store.note_loss() {
            return Err(TaskFault::Store(StoreFault::Refused));
        }
        self.treat(alloc, store, row)
    }
}

/// A check or a repair of all objects, which may pause between two of them.
#[derive(Drop)]
pub struct Inspection {
    purpose: Purpose,
    /// Whether it pauses within an object that is larger than a slice.
    pauses: bool,
    /// The objects that were stored when it began, in the order of repositories and names.
    rows: Vec<Stored>,
    /// How many of them were inspected.
    next: usize,
    /// What was read of the next one, if that is larger than a slice.
    reading: Option<ObjectReading>,
    /// How many were damaged. Of a repair, also those that were removed since they could not be read.
    damaged: u64,
    /// How many a check could not read.
    unread: u64,
}

impl Inspection {
    /// An inspection of the objects that are stored now. With `pauses`, an object that is larger than 1 MiB is read in
    /// slices.
    ///
    /// # Errors
    ///
    /// `Store` and `Memory`.
    pub fn begin<S: Store>(
        alloc: Global,
        store: &mut S,
        purpose: Purpose,
        pauses: bool,
    ) -> Result<Inspection, TaskFault>
        ensures reads { Reads S.State store.old store.new (λ _. ⊤) }
        ensures purpose { IfOk result (λ inspection. inspection.purpose ≡ purpose) }
        ensures pauses { IfOk result (λ inspection. inspection.pauses ≡ pauses) }
        ensures start { IfOk result (λ inspection. inspection.next ≡ 0) }
        ensures none { IfOk result (λ inspection. inspection.damaged ≡ 0) }
        ensures rows { IsHonest S.State store.new → HasTables S.State store.old → IfOk result
            (λ inspection. AreUploadsOf inspection.rows.items
            (objects_of None (shown S.State store.old))) }
        ensures all { Reads S.State store.old store.new (λ world. IfOk result
            (λ inspection. Lists S.State world store.new None inspection.rows.items)) }
        ensures err { IfErr result IsPlain }
    {
        let rows = store.objects(alloc, None)?;
        Ok(Inspection {
            purpose,
            pauses,
            rows,
            next: 0,
            reading: None,
            damaged: 0,
            unread: 0,
        })
    }

    /// Counts an object whose bytes could not be read.
    fn count_unreadable(&mut self)
        ensures purpose { self.new.purpose ≡ self.old.purpose }
        ensures pauses { self.new.pauses ≡ self.old.pauses }
        ensures rows { self.new.rows ≡ self.old.rows }
        ensures damaged { self.old.purpose ≡ Purpose.Check → self.new.damaged ≡ self.old.damaged }
        ensures read { self.old.purpose ≡ Purpose.Check → self.new.unread ≡ 0 → ⊥ }
        ensures unread { self.new.unread ≡ 0 → self.old.unread ≡ 0 }
        ensures counted { self.new.damaged ≡ 0 → self.new.unread ≡ 0 → ⊥ }
    {
        self.next = self.next.saturating_add(1);
        match self.purpose {
            Purpose::Check => self.unread = self.unread.saturating_add(1),
            Purpose::Repair => self.damaged = self.damaged.saturating_add(1),
        }
    }

    /// Does what is to be done with the next object, whose bytes could not be read.
    fn give_up<S: Store>(&mut self, alloc: Global, store: &mut S) -> Result<Advance, TaskFault>
        ensures world { From S.State store.old store.new (λ _.
            Spares S.State store.old store.new self.old self.new) }
        ensures reads { self.old.purpose ≡ Purpose.Check → Reads S.State store.old store.new (λ _. ⊤) }
        ensures purpose { self.new.purpose ≡ self.old.purpose }
        ensures pauses { self.new.pauses ≡ self.old.pauses }
        ensures rows { self.new.rows ≡ self.old.rows }
        ensures unread { self.new.unread ≡ 0 → self.old.unread ≡ 0 }
        ensures counted { OnOk result (self.new.damaged ≡ 0 → self.new.unread ≡ 0 → ⊥) }
        ensures quiet { From S.State store.old store.new (λ _. IfOk result (IsQuiet self.new)) }
        ensures done { IfOk result (IsDoneAtEnd self.new) }
        ensures err { IfErr result IsPlain }
    {
        let Some(row) = self.rows.get(self.next) else {
            return Err(TaskFault::Store(StoreFault::Refused));
        };
        let line = self.purpose.give_up(alloc, store, row)?;
        self.count_unreadable();
        Ok(Advance::Unreadable(line))
    }

    /// Inspects the next objects, or a slice of one: about 1 MiB, and at most 64 objects. It ends with a damaged one. An
    /// object that was removed since the inspection began is passed over, and one that was stored since is not inspected.
    ///
    /// Of a store that holds a world, nothing is changed, and no object is damaged, unless a repair removes one that the
    /// file of contents does not return: the disk is not honest then. Whatever the tables hold, an inspection without
    /// pauses that finds none damaged and none unreadable has gone over objects that have the bytes of their names.
    ///
    /// # Errors
    ///
    /// `Store` and `Memory`. Of a repair, the objects whose lines were returned are removed, and perhaps the next one.
    pub fn advance<S: Store>(&mut self, alloc: Global, store: &mut S) -> Result<Advance, TaskFault>
        ensures world { From S.State store.old store.new (λ _.
            Spares S.State store.old store.new self.old self.new) }
        ensures reads { self.old.purpose ≡ Purpose.Check → Reads S.State store.old store.new (λ _. ⊤) }
        ensures purpose { self.new.purpose ≡ self.old.purpose }
        ensures pauses { self.new.pauses ≡ self.old.pauses }
        ensures rows { self.new.rows ≡ self.old.rows }
        ensures checked { OnOk result (self.old.pauses ≡ false → HasTables S.State store.old
            → IsChecked S.State store.old self.old → IsChecked S.State store.new self.new) }
        ensures unread { self.new.unread ≡ 0 → self.old.unread ≡ 0 }
        ensures quiet { From S.State store.old store.new (λ _. IfOk result (IsQuiet self.new)) }
        ensures done { IfOk result (IsDoneAtEnd self.new) }
        ensures err { IfErr result IsPlain }
    {
        let mut spent = 0u64;
        'objects: for _ in 0..OBJECTS {
            if spent >= SLICE {
                return Ok(Advance::More);
            }
            let Some(row) = self.rows.get(self.next) else {
                return Ok(Advance::Done);
            };
            match verdict_on(store, row, &mut self.reading, self.pauses) {
                Err(ReadFault::Unreadable) => return self.give_up(alloc, store),
                Err(ReadFault::Store(fault)) => return Err(fault.into()),
                Ok(None) => return Ok(Advance::More),
                Ok(Some(false)) => {}
                Ok(Some(true)) => {
                    let line = self.purpose.treat(alloc, store, row)?;
                    self.damaged = self.damaged.saturating_add(1);
                    self.next += 1;
                    return Ok(Advance::Damaged(line));
                }
            }
            spent = spent.saturating_add(row.size.get());
            self.next += 1;
        }
        Ok(Advance::More)
    }

    /// Returns how far it is, for people: `checked 5 of 10 objects`.
    ///
    /// # Errors
    ///
    /// Memory ran out.
    pub fn progress(&self, alloc: Global) -> Result<String, AllocError>
        ensures { IfOk result (λ text. string_bytes text
            ≡ progress_text self.now.next (vec_len self.now.rows)) }
    {
        let (count, all) = (self.next, self.rows.len());
        format!(in alloc; "checked {count} of {all} objects")
    }

    /// Prints the last line, with the number of objects: those that were stored when it began, or those that a repair
    /// removed.
    ///
    /// # Errors
    ///
    /// `Output` if it could not be written, `Store` if a check could not read an object, and else `Reported` if it found
    /// one damaged.
    pub fn finish<K: Sink>(&self, output: &mut K) -> Result<(), TaskFault>
        ensures text { IfWritten result (Appends (K.taken output.old) (K.taken output.new)
            (line (inspected_line self.now.purpose (vec_len self.now.rows) self.now.damaged))) }
        ensures good { OnOk result (K.failed output.new ≡ K.failed output.old) }
        ensures none { OnOk result (self.now.purpose ≡ Purpose.Check → self.now.damaged ≡ 0) }
        ensures read { OnOk result (self.now.unread ≡ 0) }
        ensures err { self.now.damaged ≡ 0 → IfErr result IsPlain }
    {
        match self.purpose {
            Purpose::Check => print_count(output, "checked", self.rows.len() as u64, "objects")?,
            Purpose::Repair => print_count(output, "removed", self.damaged, "objects")?,
        }
        if self.unread > 0 {
            return Err(TaskFault::Store(StoreFault::Refused));
        }
        if self.purpose == Purpose::Check && self.damaged > 0 {
            return Err(TaskFault::Reported);
        }
        Ok(())
    }
}

/// Hashes each object again, in the order of repositories and names, prints a line for each one that is damaged, and
/// removes it if that is the purpose; and then prints their number. One whose bytes the file of contents does not return is
/// a damaged one. One chunk at a time is in memory. Shows how far it is
/// on the terminal, if there is one.
///
/// # Errors
///
/// `Store`, also if a check could not read an object, and `Memory`, `Output` if a line could not be written, and
/// `Reported` if a check found an object damaged. Of a repair, the objects for which a line was written are removed, and perhaps the next one.
pub(crate) fn inspect_all<S: Store, K: Sink>(
    alloc: Global,
    store: &mut S,
    purpose: Purpose,
    terminal: Option<&Stderr>,
    output: &mut K,
) -> Result<(), TaskFault>
    ensures world { From S.State store.old store.new (λ _.
        Reads S.State store.old store.new (λ _. ⊤) × IfErr result IsPlain) }
    ensures reads { purpose ≡ Purpose.Check → Reads S.State store.old store.new (λ _. ⊤) }
    ensures printed { From S.State store.old store.new (λ world. OnOk result
        (Appends (K.taken output.old) (K.taken output.new)
        (line (inspected_line purpose (length world.objects) 0)))) }
    ensures good { OnOk result (K.failed output.new ≡ K.failed output.old) }
    ensures sound { OnOk result (purpose ≡ Purpose.Check
        → FindsSound S.State store.old store.new) }
{
    let mut inspection = Inspection::begin(alloc, store, purpose, false)?;
    let progress = Progress { terminal };
    'steps: for _ in 0..u64::MAX {
        progress.show(inspection.progress(alloc)?.as_str());
        match inspection.advance(alloc, store)? {
            Advance::More => {}
            Advance::Damaged(line) | Advance::Unreadable(line) => {
                progress.clear();
                print(output, line.as_bytes())?;
            }
            Advance::Done => {
                progress.clear();
                return inspection.finish(output);
            }
        }
    }
    Err(TaskFault::Store(StoreFault::Refused))
}
