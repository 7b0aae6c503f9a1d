//! Walks from page to page.

ghost use Rattle.cursor.specs.Walking.{WalksRise, WalksHoldOnce, WalksMissNone};

/// The pages of a walk, each from the next of the page before it: whatever other requests change between
/// them, the joined pages rise, have no lock twice, and have each lock that was wanted at every page.
pub fn walk_law()
    ensures rise { WalksRise }
    ensures once { WalksHoldOnce }
    ensures none { WalksMissNone }
{}
