//! What becomes of the connection of a client.

use crate::client::Client;
use std::time::Instant;

/// Why a connection ended that had a turn.
#[derive(Clone, Copy, Debug, PartialEq, Eq)]
pub enum Cause {
    /// The client ended it, or it gave way.
    InputEnded,
    /// A read failed, or there was no memory for what arrived.
    ReadFailed,
    /// A write failed, or the client took nothing of a reply for too long.
    WriteFailed,
}

/// A connection that had a turn, and ended in the room.
#[derive(Clone, Copy, Debug, PartialEq, Eq)]
pub struct Ended {
    /// Its number.
    pub number: u64,
    /// Why it ended.
    pub cause: Cause,
}

/// What follows a reply.
#[derive(Clone, Copy)]
pub(crate) enum Next {
    /// The next message.
    Message,
    /// The end of the connection, which the server knows of.
    End,
}

/// A pause of a client for which its connection may be closed.
#[derive(Clone, Copy)]
pub(crate) enum Pause {
    /// It sends nothing.
    Silent,
    /// The same, within a message.
    Halfway,
    /// It takes nothing of a reply.
    Stalled,
}

/// How many bytes connections hold.
#[derive(Clone, Copy, Default)]
pub(crate) struct Load {
    /// Those of messages.
    pub arrived: usize,
    /// Those of replies that are not wholly sent.
    pub unsent: usize,
}

impl Load {
    /// With those of another one.
    pub(crate) fn with(self, other: Load) -> Load {
        Load {
            arrived: self.arrived.saturating_add(other.arrived),
            unsent: self.unsent.saturating_add(other.unsent),
        }
    }

    /// Without those of another one.
    pub(crate) fn without(self, other: Load) -> Load {
        Load {
            arrived: self.arrived.saturating_sub(other.arrived),
            unsent: self.unsent.saturating_sub(other.unsent),
        }
    }
}

/// A connection in the room.
#[derive(Drop)]
pub(crate) enum Place {
    /// Its next message has not arrived, or its turn has not come.
    Waiting(Client),
    /// It has its turn.
    Served,
    /// An object is sent to it in parts, and its socket takes none now.
    Sending(Client),
    /// The same, and its socket may take some, or it is given up.
    Due(Client),
    /// The rest of a reply is sent as its socket takes it.
    Replying(Client, Next),
    /// It was closed, and the client may still send.
    Leaving(Client),
}

impl Place {
    /// How many bytes the connection holds.
    pub(crate) fn load(&self) -> Load {
        match self {
            Place::Served => Load::default(),
            Place::Waiting(client)
            | Place::Sending(client)
            | Place::Due(client)
            | Place::Replying(client, _)
            | Place::Leaving(client) => Load {
                arrived: client.held(),
                unsent: client.unsent(),
            },
        }
    }

    /// The number of a connection that had a turn, and whose end is to be returned.
    pub(crate) fn number(self) -> Option<u64> {
        match self {
            Place::Waiting(client) | Place::Replying(client, Next::Message) => client.number,
            _ => None,
        }
    }

    /// Whether a reply is sent.
    pub(crate) fn is_under_way(&self) -> bool {
        matches!(
            self,
            Place::Sending(_) | Place::Due(_) | Place::Replying(..)
        )
    }

    /// Whether it is closed in its turn, since it is given up.
    pub(crate) fn is_given_up(&self) -> bool {
        matches!(self, Place::Due(client) if client.is_given_up)
    }

    /// Since when the client makes such a pause, if it does.
    pub(crate) fn pauses_since(&self, pause: Pause) -> Option<Instant> {
        match (pause, self) {
            (Pause::Silent, Place::Waiting(client)) if !client.is_ready() => Some(client.since()),
            (Pause::Silent, Place::Leaving(client)) => Some(client.since()),
            (Pause::Halfway, Place::Waiting(client)) if !client.is_ready() && client.held() > 0 => {
                Some(client.since())
            }
            (Pause::Stalled, Place::Sending(client) | Place::Replying(client, _)) => {
                Some(client.since())
            }
            _ => None,
        }
    }
}
