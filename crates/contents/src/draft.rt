//! A content that is being written.

ghost use Rattle.std.specs.Prelude.{◌≡◌, ◌≤◌, ◌<◌, ◌+◌, ◌++◌, ◌^◌, min, length, take, drop, List, ℕ, is_ok, IsTrue, IfErr, IfOk, OnOk, OnErr, ⊤};
ghost use Rattle.sqlite_disk.specs.Disk.{Only};
ghost use Rattle.contents.specs.Files.{HasAt, HasContent, KeepsOthers, KeepsContents, IsSameFile, IsChangedBy, ReachesTo, FailsFor};
ghost use Rattle.contents.specs.Drafts.{HasWritten, HasRoomFor, AreWritten, region_of, written_of};

use crate::fault::ContentsFault;
use crate::file;
use crate::region::Region;
use sqlite_disk::Disk;

/// A content that is being written into its region: its first bytes are written.
#[derive(Clone, Copy, Debug, PartialEq, Eq)]
pub struct Draft {
    region: Region,
    written: u64,
}

impl Draft {
    /// A content in this region, of which nothing is written.
    pub fn new(region: Region) -> Draft
        ensures region { region_of result ≡ region }
        ensures written { written_of result ≡ 0 }
    {
        Draft { region, written: 0 }
    }

    /// Where it is.
    pub fn region(&self) -> Region
        ensures { result ≡ region_of self.now }
    {
        self.region
    }

    /// How many bytes of it are written.
    pub fn written(&self) -> u64
        ensures { result ≡ written_of self.now }
    {
        self.written
    }

    /// Forgets all bytes after the first `len`, if more are written. The next ones are written in their place.
    pub fn truncate(&mut self, len: u64)
        ensures region { region_of self.new ≡ region_of self.old }
        ensures written { written_of self.new ≡ min len (written_of self.old) }
        ensures bytes { (file bytes : List ℕ) → HasWritten file self.old bytes
            → HasWritten file self.new (take (written_of self.new) bytes) }
    {
        self.written = self.written.min(len);
    }

    /// Writes bytes after those that are written.
    ///
    /// Fails with [`ContentsFault::Outside`] exactly if they do not fit into the region, with
    /// [`ContentsFault::Unusable`] after a failed sync, and with [`ContentsFault::Failed`] if the file fails: then
    /// their place may have any bytes. After an error the draft is as before. All bytes apart from theirs are as
    /// before, in the file and in whatever a stop leaves of it.
    pub fn append<D: Disk>(&mut self, disk: &mut D, bytes: &[u8]) -> Result<(), ContentsFault>
        ensures inside { OnOk result (HasRoomFor self.old (length bytes.now)) }
        ensures region { region_of self.new ≡ region_of self.old }
        ensures written { OnOk result (written_of self.new ≡ written_of self.old + length bytes.now) }
        ensures bytes { OnOk result ((before : List ℕ)
            → HasWritten (D.Disk.seen disk.old) self.old before
            → HasWritten (D.Disk.seen disk.new) self.new (before ++ bytes.now)) }
        ensures others { IsChangedBy D.Disk (KeepsOthers
            ((region_of self.old).start + written_of self.old) (length bytes.now)) disk.old disk.new }
        ensures contents { IsChangedBy D.Disk (KeepsContents (region_of self.old)) disk.old disk.new }
        ensures unchanged { OnErr result (self.new ≡ self.old) }
        ensures err { IfErr result (λ fault. FailsFor D.Disk fault
            (HasRoomFor self.old (length bytes.now)) ⊤ ⊤ disk.old disk.new) }
    {
        file::write(disk, self.region, self.written, bytes)?;
        self.written += bytes.len() as u64;
        Ok(())
    }

    /// Reads bytes that are written, from the byte `at` of the content on.
    ///
    /// Fails with [`ContentsFault::Outside`] exactly if they are not all written, and otherwise as [`crate::read`].
    /// Nothing changes.
    pub fn read<D: Disk>(&self, disk: &mut D, at: u64, buf: &mut [u8]) -> Result<(), ContentsFault>
        ensures inside { OnOk result (AreWritten self.now at (length buf.old)) }
        ensures read { OnOk result (IsTrue (D.Disk.is_clean disk.new)
            → HasAt (D.Disk.seen disk.old) ((region_of self.now).start + at) buf.new) }
        ensures content { OnOk result (IsTrue (D.Disk.is_clean disk.new) → (bytes : List ℕ)
            → HasWritten (D.Disk.seen disk.old) self.now bytes
            → buf.new ≡ take (length buf.old) (drop at bytes)) }
        ensures same { IsSameFile D.Disk disk.old disk.new }
        ensures usable { IsTrue (D.Disk.is_usable disk.old) → IsTrue (D.Disk.is_usable disk.new) }
        ensures err { IfErr result (λ fault. FailsFor D.Disk fault
            (AreWritten self.now at (length buf.old)) ⊤
            (ReachesTo D.Disk ((region_of self.now).start + at + length buf.old) disk.old)
            disk.old disk.new) }
    {
        file::read_below(disk, self.region, self.written, at, buf)
    }

    /// Syncs the file, and returns the region of the content, which is there from now on, whatever a stop leaves.
    ///
    /// Fails with [`ContentsFault::Unfinished`] exactly if not all of it is written, and otherwise as [`crate::sync`].
    /// The bytes of the file stay.
    pub fn finish<D: Disk>(&self, disk: &mut D) -> Result<Region, ContentsFault>
        ensures region { IfOk result (λ region. region ≡ region_of self.now) }
        ensures finished { OnOk result (written_of self.now ≡ (region_of self.now).size) }
        ensures stop { OnOk result ((content : List ℕ)
            → HasWritten (D.Disk.seen disk.old) self.now content
            → (left : List ℕ) → D.Disk.may_leave disk.new left
            → HasContent left (region_of self.now) content) }
        ensures durable { OnOk result (Only (D.Disk.seen disk.new) (D.Disk.may_leave disk.new)) }
        ensures usable { written_of self.now ≡ (region_of self.now).size
            → D.Disk.is_usable disk.new ≡ is_ok result }
        ensures same { IsSameFile D.Disk disk.old disk.new }
        ensures err { IfErr result (λ fault. FailsFor D.Disk fault ⊤
            (written_of self.now ≡ (region_of self.now).size) ⊤ disk.old disk.new) }
    {
        if self.written != self.region.size {
            return Err(ContentsFault::Unfinished);
        }
        file::sync(disk)?;
        Ok(self.region)
    }
}
