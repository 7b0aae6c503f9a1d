//! How a file of contents is filled.

/// How a file of contents is filled, in bytes.
#[derive(Clone, Copy, Debug, PartialEq, Eq)]
pub struct Room {
    /// What it has of contents that are kept or being received.
    pub kept: u64,
    /// What is free before the end of the last of them.
    pub free: u64,
    /// The size of the file.
    pub size: u64,
}
