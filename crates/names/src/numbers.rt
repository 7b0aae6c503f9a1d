//! Names that are numbers: lock ids and moments.

ghost use Rattle.std.specs.Prelude.{◌≡◌, ◌≤◌, ◌↔◌, ℕ, Some, None, IsTrue, IsSome, IfSome, decimal, slice_index};
ghost use Rattle.std.specs.Int.{IsInRange};
ghost use Rattle.names.specs.Texts.{last_lock_id, last_moment, lock_id_in};

use std::fmt;
use std::marker::Model;

/// Whether the text begins with one of `1-9`, so with neither a sign nor a leading zero.
fn begins_with_1_to_9(text: &str) -> bool
    ensures { IsTrue result ↔ IsInRange 49 57 (slice_index text.now 0) }
{
    text.bytes()
        .next()
        .is_some_and(|byte| (b'1'..=b'9').contains(&byte))
}

/// The number of a lock in its repository, from 1 to 4,294,967,295. A number is never reused.
#[derive(Clone, Copy, Debug, PartialEq, Eq, PartialOrd, Ord, Hash)]
pub struct LockId {
    number: u32,
}

impl Model for LockId {
    ghost Value = { ℕ };

    ghost view = { λ id. id.number };

    ghost invariant = { λ id. (1 ≤ id.number) × (id.number ≤ last_lock_id) };

    ghost inverse = { λ number. record { number = number } };
}

impl LockId {
    /// The lock id with this number; `None` exactly for 0.
    pub fn from_number(number: u32) -> Option<Self>
        ensures accepted { IsSome result ↔ (1 ≤ number) }
        ensures value { IfSome result (λ id. id ≡ number) }
    {
        if number >= 1 {
            Some(LockId { number })
        } else {
            None
        }
    }

    /// Parses a lock id in decimal; `None` exactly if the text is not one, as with a leading zero or a
    /// sign.
    pub fn read(text: &str) -> Option<Self>
        ensures { result ≡ lock_id_in text.now }
    {
        if !begins_with_1_to_9(text) {
            return None;
        }
        LockId::from_number(text.parse().ok()?)
    }

    /// Returns the number.
    pub fn get(&self) -> u32
        ensures value { result ≡ self.now }
        ensures in_range { (1 ≤ result) × (result ≤ last_lock_id) }
    {
        self.number
    }
}

/// Writes the number in decimal.
impl fmt::Display for LockId {
    ghost output = { λ id. Some (decimal id) };

    fn fmt<W: fmt::Write>(&self, f: &mut fmt::Formatter<W>) -> fmt::Result {
        write!(f, "{}", self.number)
    }
}

/// A second from 1970-01-01T00:00:00Z to 9999-12-31T23:59:59Z, counted from the first.
///
/// As in POSIX, each day has 86,400 seconds.
#[derive(Clone, Copy, Debug, PartialEq, Eq, PartialOrd, Ord, Hash)]
pub struct Moment {
    second: u64,
}

impl Model for Moment {
    ghost Value = { ℕ };

    ghost view = { λ moment. moment.second };

    ghost invariant = { λ moment. moment.second ≤ last_moment };

    ghost inverse = { λ second. record { second = second } };
}

impl Moment {
    /// The moment of this second; `None` exactly above 253,402,300,799.
    pub fn read(second: u64) -> Option<Self>
        ensures accepted { IsSome result ↔ (second ≤ last_moment) }
        ensures value { IfSome result (λ moment. moment ≡ second) }
    {
        if second <= 253_402_300_799 {
            Some(Moment { second })
        } else {
            None
        }
    }

    /// Returns the seconds since 1970-01-01T00:00:00Z.
    pub fn get(&self) -> u64
        ensures value { result ≡ self.now }
        ensures in_range { result ≤ last_moment }
    {
        self.second
    }
}
