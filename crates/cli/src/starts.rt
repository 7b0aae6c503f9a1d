//! What the files of a store held as they are opened.

use tables::{Start, Unknown};

/// What the files of a store held as they are opened: the database with its log, and the file of contents. A function over
/// any such type is proved for all that they may have held.
pub trait Starts: Start {
    /// What the file of contents held: the `db` of this type.
    type Contents: Start;

    /// Returns the value of that type.
    fn contents() -> Self::Contents;
}

impl Starts for Unknown {
    type Contents = Unknown;

    fn contents() -> Unknown {
        Unknown
    }
}
