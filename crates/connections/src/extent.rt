//! How long the messages of a connection are.

ghost use Rattle.std.specs.Prelude.{◌≡◌};
ghost use Rattle.connections.specs.Messages.{begins_early, turn_size};

/// What a message moves.
#[derive(Clone, Copy, Debug, PartialEq, Eq)]
pub enum MessageKind {
    /// Nothing large. The whole of it is awaited, whatever its size.
    Short,
    /// The content of an object, to the server. If it is long, its turn begins when its head has arrived.
    Upload,
    /// The content of an object, to the client.
    Download,
}

impl MessageKind {
    /// Whether a turn may begin when the head of a long message has arrived.
    pub fn begins_early(self) -> bool
        ensures { result ≡ begins_early self }
    {
        matches!(self, MessageKind::Upload)
    }
}

/// What the bytes that arrived begin with.
#[derive(Clone, Copy, Debug, PartialEq, Eq)]
pub enum Extent {
    /// A part of a head.
    Head,
    /// The head of a message: how many bytes it has, and how many its body.
    Message {
        /// The number of bytes of the head.
        head: usize,
        /// The number of bytes of the body.
        body: u64,
        /// What it moves.
        kind: MessageKind,
    },
    /// No head, or one that is refused whatever follows it.
    Refused,
}

impl Extent {
    /// How many bytes a turn hands out: those of the message, or all if they are refused.
    pub fn size(self) -> u64
        ensures { result ≡ turn_size self }
    {
        match self {
            Extent::Head => 0,
            Extent::Message { head, body, .. } => body.saturating_add(head as u64),
            Extent::Refused => u64::MAX,
        }
    }
}

/// How long messages are.
pub trait Framing {
    /// What the bytes begin with.
    fn extent(&self, bytes: &[u8]) -> Extent;
}
