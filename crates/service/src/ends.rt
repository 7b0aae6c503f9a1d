//! How a connection ended.

use downloads::Download;

/// Why a connection ended.
#[derive(Clone, Copy, Debug, PartialEq, Eq, Hash)]
pub enum End {
    /// The client's input ended, and every complete message was answered.
    InputEnded,
    /// The server closed it after a reply that is no store refusal.
    Closed,
    /// The server closed it after a store refusal: the store refused, or memory ran out.
    StoreRefused,
    /// A read failed, and every complete message read before was answered.
    ReadFailed,
    /// A write failed.
    WriteFailed,
    /// The store failed within the content of an object.
    StoreFailed,
}

/// The result of serving a connection.
#[derive(Clone, Copy, Debug, PartialEq, Eq, Hash)]
pub struct Served {
    /// The number of replies that were written completely.
    pub answered: usize,
    /// Why the connection ended.
    pub end: End,
}

/// The result of serving a connection, but for the content of an object.
#[derive(Debug, Drop)]
pub struct Begun {
    /// The result so far.
    pub served: Served,
    /// The object whose content is left to be sent.
    pub later: Option<Download>,
}
