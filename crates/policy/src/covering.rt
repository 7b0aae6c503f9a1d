//! Rows that decide no question, since an earlier row matches each question that they match.

ghost use Rattle.std.specs.Prelude.{◌≡◌, string_bytes};
ghost use Rattle.std.specs.List.{list_all};
ghost use Rattle.model.specs.Policy.{held_by};
ghost use Rattle.policy.specs.Ranges.{texts};
ghost use Rattle.policy.specs.Covering.{CoveringRowMatches, covers, hold_all, have_all};

use crate::rows::{Row, has_right, held_by};
use model::Right;

fn hold_each(patterns: &[String], others: &[String]) -> bool
    ensures { result ≡ list_all (λ other. held_by (texts patterns.now) (string_bytes other)) others.now }
{
    others.iter().all(|other| held_by(patterns, other.as_str()))
}

/// Whether one of the patterns holds each of the others, read as a text.
fn hold_all(patterns: &[String], others: &[String]) -> bool
    ensures { result ≡ hold_all (texts patterns.now) (texts others.now) }
{
    hold_each(patterns, others)
}

/// Whether each of the other rights is one of these.
fn have_all(rights: &[Right], others: &[Right]) -> bool
    ensures { result ≡ have_all rights.now others.now }
{
    others.iter().all(|other| has_right(rights, *other))
}

impl Row {
    ghost use Rattle.policy.specs.Values.{row_view};

    /// Whether each list of the row has all that the same list of the other row has: an entry that is the same, or that
    /// matches more. The row then matches each question that the other one matches, so the other one decides no
    /// question if it comes later. If the answer is no, the row may match each of them all the same.
    pub fn covers(&self, other: &Row) -> bool
        ensures { result ≡ covers (row_view self.now) (row_view other.now) }
    {
        hold_all(&self.users, &other.users)
            && hold_all(&self.repos, &other.repos)
            && hold_all(&self.refs, &other.refs)
            && hold_all(&self.paths, &other.paths)
            && have_all(&self.rights, &other.rights)
    }
}

/// A row matches each question that a row matches which it covers.
pub fn covering_law()
    ensures { CoveringRowMatches }
{}
