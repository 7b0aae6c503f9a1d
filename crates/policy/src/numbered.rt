//! A row with its number.

ghost use Rattle.std.specs.Prelude.{◌≡◌, map};
ghost use Rattle.policy.specs.Ranges.{texts};
ghost use Rattle.policy.specs.Patterns.{pattern_of, pattern_view};

use crate::patterns::Pattern;
use crate::rows::Row;

/// A row with its number, and the patterns of its refs and paths.
#[derive(Debug, Drop)]
pub(crate) struct NumberedRow<'a> {
    /// Rows count from 1.
    pub number: u32,
    pub row: &'a Row,
    pub refs: Vec<Pattern<'a>>,
    pub paths: Vec<Pattern<'a>>,
    pub ghost refs_are_of_the_row: { map pattern_view refs.items
        ≡ map pattern_of (texts row.now.refs.items) },
    pub ghost paths_are_of_the_row: { map pattern_view paths.items
        ≡ map pattern_of (texts row.now.paths.items) },
}
