//! The regions of a file that are in use, and room for new ones.

ghost use Rattle.std.specs.Prelude.{◌≡◌, ◌≤◌, ◌<◌, ◌+◌, ◌++◌, ◌∷◌, [], ℕ, List, length, All, Contains, HoldsAt, IsPermutation, sum_by, MatchBool, MatchOption, MatchResult, IfOk, IfSome, IfNone, OnErr};
ghost use Rattle.contents.specs.Regions.{AreInOrder, IsFreeRoom, IsLastEnd, IsReserved, HasNoRoom, FitsAfter, IsGap, end_of, largest_end};

use crate::region::Region;
use std::alloc::{AllocError, Global};

/// The greatest offset after the last byte of a region: the greatest length of a file.
pub const LARGEST_END: u64 = 9223372036854775807;

/// The regions of a file that are in use, in their order. No two have a byte in common.
#[derive(Drop)]
pub struct Regions {
    items: Vec<Region>,
    ghost in_order: { AreInOrder items.items },
}

impl Regions {
    ghost use Rattle.contents.specs.InUse.{regions_of};

    /// No region is in use.
    pub fn new(alloc: Global) -> Regions
        ensures { regions_of result ≡ [] }
    {
        Regions {
            items: Vec::new(alloc),
        }
    }

    /// The regions, in their order.
    pub fn as_slice(&self) -> &[Region]
        ensures is { result.now ≡ regions_of self.now }
        ensures in_order { AreInOrder result.now }
    {
        &self.items
    }

    /// The offset after the last byte that is in use; 0 if there is none.
    pub fn end(&self) -> u64
        ensures last { IsLastEnd (regions_of self.now) result }
        ensures within { result ≤ largest_end }
    {
        match self.items.last() {
            Some(last) => last.start + last.size,
            None => 0,
        }
    }

    /// The number of bytes that are in use.
    pub fn total(&self) -> u64
        ensures { result ≡ sum_by (λ region. region.size) (regions_of self.now) }
    {
        let mut total: u64 = 0;
        for region in &self.items {
            total += region.size;
        }
        total
    }

    /// The number of bytes that are not in use before the end of the last region.
    pub fn free(&self) -> u64
        ensures { IsLastEnd (regions_of self.now)
            (sum_by (λ region. region.size) (regions_of self.now) + result) }
    {
        self.end() - self.total()
    }

    /// Adds a region after all others; `false`, and nothing changes, exactly if it begins before the last one has ended,
    /// or ends after [`LARGEST_END`]. If memory runs out nothing changes.
    pub fn push(&mut self, region: Region) -> Result<bool, AllocError>
        ensures ok { IfOk result (λ added. MatchBool added
            (FitsAfter (regions_of self.old) region
            × (regions_of self.new ≡ regions_of self.old ++ region ∷ []))
            ((FitsAfter (regions_of self.old) region → ⊥)
            × (regions_of self.new ≡ regions_of self.old))) }
        ensures err { OnErr result (regions_of self.new ≡ regions_of self.old) }
    {
        let Some(end) = region.end() else {
            return Ok(false);
        };
        if region.start < self.end() || end > LARGEST_END {
            return Ok(false);
        }
        self.items.push(region)?;
        Ok(true)
    }

    /// Takes the lowest free room of `size` bytes into use; `None`, and nothing changes, exactly if there is none below
    /// [`LARGEST_END`]. If memory runs out nothing changes.
    pub fn reserve(&mut self, size: u64) -> Result<Option<Region>, AllocError>
        ensures ok { IfOk result (λ found. MatchOption found
            (HasNoRoom (regions_of self.old) size × (regions_of self.new ≡ regions_of self.old))
            (IsReserved (regions_of self.old) (regions_of self.new) size)) }
        ensures err { OnErr result (regions_of self.new ≡ regions_of self.old) }
    {
        let Some((index, start)) = gap(&self.items, size) else {
            return Ok(None);
        };
        let region = Region { start, size };
        self.items.insert(index, region)?;
        Ok(Some(region))
    }

    /// Takes a region out of use; `false`, and nothing changes, exactly if it is not in use.
    pub fn release(&mut self, region: Region) -> bool
        ensures { MatchBool result
            (IsPermutation (regions_of self.old) (region ∷ regions_of self.new))
            ((Contains (regions_of self.old) region → ⊥) × (regions_of self.new ≡ regions_of self.old)) }
    {
        let Some(index) = index_of(&self.items, region) else {
            return false;
        };
        self.items.remove(index);
        true
    }
}

/// Finds the lowest free room of `size` bytes between regions and after them. Returns the index of the first region
/// after it, and its start.
fn gap(regions: &[Region], size: u64) -> Option<(usize, u64)>
    requires { AreInOrder regions.now }
    ensures some { IfSome result (λ found. IsGap regions.now size found.0 found.1) }
    ensures none { IfNone result (HasNoRoom regions.now size) }
{
    let mut from: u64 = 0;
    for (index, region) in regions.iter().enumerate() {
        if region.start - from >= size {
            return Some((index, from));
        }
        from = region.start + region.size;
    }
    if LARGEST_END - from < size {
        return None;
    }
    Some((regions.len(), from))
}

/// The index of a region.
fn index_of(regions: &[Region], region: Region) -> Option<usize>
    ensures some { IfSome result (λ index.
        (index < length regions.now) × HoldsAt (λ it. it ≡ region) regions.now index) }
    ensures none { IfNone result (Contains regions.now region → ⊥) }
{
    regions.iter().position(|used| *used == region)
}
