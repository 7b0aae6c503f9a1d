//! What arrived before a turn.

ghost use Rattle.std.specs.Prelude.{◌≡◌, min, nat_eq};

use std::io::Cursor;

/// The bytes that arrived before a turn, of which those of one message are handed out.
#[derive(Drop)]
pub struct Front {
    /// What arrived, and how far it was handed out.
    pub arrived: Cursor<Vec<u8>>,
    /// How many bytes of the message were not handed out.
    pub left: u64,
}

impl Front {
    /// Whether the whole message was handed out.
    pub fn is_over(&self) -> bool
        ensures { result ≡ nat_eq self.now.left 0 }
    {
        self.left == 0
    }

    /// How many bytes a read into room for `room` of them may hand out.
    pub fn most(&self, room: usize) -> usize
        ensures { result ≡ min room self.now.left }
    {
        (room as u64).min(self.left) as usize
    }

    /// What arrived after the message.
    pub fn rest(&self) -> &[u8] {
        let handed_out = self.arrived.position() as usize;
        let arrived = self.arrived.get_ref().as_slice();
        arrived.get(handed_out..).unwrap_or(&[])
    }
}
