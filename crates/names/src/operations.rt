//! What a token is for.

/// The operation that a token was issued for.
#[derive(Clone, Copy, Debug, PartialEq, Eq, Hash)]
pub enum Operation {
    /// Pull and list.
    Download,
    /// All five rights.
    Upload,
}
