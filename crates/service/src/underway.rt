//! An upload that is under way.

ghost use Rattle.std.specs.Prelude.{◌≤◌};
ghost use Rattle.names.specs.Texts.{last_moment};

use crate::message::Asked;
use desk::Receiving;
use forms::Request;
use names::{Moment, Rule};

/// The head of an upload that no rule from H1 to J4 refuses.
#[derive(Debug, Drop)]
pub(crate) struct PutHead<'a> {
    /// What it asks.
    pub asked: Asked,
    /// The request that it makes.
    pub request: Result<Request, Rule>,
    /// The bytes after it.
    pub part: &'a [u8],
}

/// An upload that no rule refused at its head, and whose content has not all arrived.
#[derive(Drop)]
pub struct Upload {
    pub(crate) asked: Asked,
    pub(crate) request: Result<Request, Rule>,
    pub(crate) receiving: Receiving,
    /// The moment of its head.
    pub(crate) moment: Moment,
    pub ghost in_range: { moment ≤ last_moment },
}
