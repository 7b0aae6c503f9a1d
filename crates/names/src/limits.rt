//! Limits that several crates share.

/// The largest object, in bytes.
pub const LARGEST_OBJECT: u64 = 4_294_967_296;

/// The longest list of methods in the `Allow` field of a reply, in bytes.
pub const ALLOW_LIMIT: usize = 128;
