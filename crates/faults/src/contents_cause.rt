//! What can be wrong with a file of contents.

/// What is wrong with a file of contents.
#[derive(Clone, Copy, Debug, PartialEq, Eq)]
pub enum ContentsCause {
    /// It does not exist.
    Missing,
    /// It has bytes, and the database is new.
    NotEmpty,
    /// Another program has it open.
    InUse,
    /// It has a second name.
    Linked,
    /// It ends before a content does.
    Short,
    /// The database says of two contents that they have bytes in common, or that they are of one upload.
    Overlapping,
    /// A row of the database says where no content can be.
    NoPlace,
    /// It could not be opened, read or synced.
    Failed,
    /// An object that is to be copied into it has fewer or more bytes than its size says.
    Damaged,
}
