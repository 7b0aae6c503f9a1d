//! Where a content is.

ghost use Rattle.std.specs.Prelude.{◌<◌, ◌^◌, SomeIff};
ghost use Rattle.contents.specs.Regions.{end_of};

/// A part of a file of contents: `size` bytes from the byte `start` on.
#[derive(Clone, Copy, Debug, PartialEq, Eq)]
pub struct Region {
    /// The offset of its first byte.
    pub start: u64,
    /// How many bytes it has.
    pub size: u64,
}

impl Region {
    /// The offset after its last byte; `None` if that is over `u64::MAX`.
    pub fn end(&self) -> Option<u64>
        ensures { SomeIff result (end_of self.now < 2 ^ 64) (end_of self.now) }
    {
        self.start.checked_add(self.size)
    }
}
