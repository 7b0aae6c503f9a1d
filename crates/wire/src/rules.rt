//! The rules that refuse a head.

ghost use Rattle.std.specs.Prelude.{◌≡◌, Some};
ghost use Rattle.names.specs.Rules.{row_of};
ghost use Rattle.wire.specs.HeadRules.{rule_seen};

use names::Rule;
use std::fmt;

/// A rule that refuses a message by its head, before its body is read. [`Rule`] says what each means; this crate finds
/// H1 to H5, and whoever knows the routes finds H6 to H8.
#[derive(Clone, Copy, Debug, PartialEq, Eq, Hash)]
pub enum HeadRule {
    H1,
    H2,
    H3,
    H4,
    H5,
    H6,
    H7,
    H8,
}

impl HeadRule {
    /// The same rule among all rules.
    pub fn rule(self) -> Rule
        ensures { result ≡ rule_seen self }
    {
        match self {
            HeadRule::H1 => Rule::H1,
            HeadRule::H2 => Rule::H2,
            HeadRule::H3 => Rule::H3,
            HeadRule::H4 => Rule::H4,
            HeadRule::H5 => Rule::H5,
            HeadRule::H6 => Rule::H6,
            HeadRule::H7 => Rule::H7,
            HeadRule::H8 => Rule::H8,
        }
    }
}

/// Writes the code, like `H1`.
impl fmt::Display for HeadRule {
    ghost output = { λ rule. Some (row_of (rule_seen rule)).code };

    fn fmt<W: fmt::Write>(&self, f: &mut fmt::Formatter<W>) -> fmt::Result {
        self.rule().fmt(f)
    }
}
