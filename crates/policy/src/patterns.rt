//! The patterns of a row, read once for many comparisons.

ghost use Rattle.std.specs.Prelude.{◌≡◌, IfOk, map, option_map};
ghost use Rattle.std.specs.List.{list_any};
ghost use Rattle.policy.specs.Ranges.{texts};
ghost use Rattle.policy.specs.Patterns.{pattern_of, pattern_view, pattern_holds, holds_every, hold_if_named};

use std::alloc::{AllocError, Global};

/// What a pattern of a row holds.
#[derive(Clone, Copy, Debug)]
pub(crate) enum Pattern<'a> {
    /// Every text.
    Any,
    /// The texts that begin with this one, which ends in a slash.
    Folder(&'a str),
    /// This text alone.
    Only(&'a str),
}

impl<'a> Pattern<'a> {
    /// The pattern that the text spells.
    fn new(text: &'a str) -> Pattern<'a>
        ensures { pattern_view result ≡ pattern_of text.entry.now }
    {
        if text == "*" {
            Pattern::Any
        } else if text.as_bytes().ends_with(b"/") {
            Pattern::Folder(text)
        } else {
            Pattern::Only(text)
        }
    }

    fn holds(self, text: &str) -> bool
        ensures { result ≡ pattern_holds (pattern_view self.entry) text.now }
    {
        match self {
            Pattern::Any => true,
            Pattern::Folder(front) => text.as_bytes().starts_with(front.as_bytes()),
            Pattern::Only(other) => other == text,
        }
    }

    fn holds_every(self) -> bool
        ensures { result ≡ holds_every (pattern_view self.entry) }
    {
        matches!(self, Pattern::Any)
    }
}

/// The patterns that these texts spell.
pub(crate) fn patterns_of<'a>(
    alloc: Global,
    spelled: &'a [String],
) -> Result<Vec<Pattern<'a>>, AllocError>
    ensures { IfOk result (λ patterns. map pattern_view patterns.items
        ≡ map pattern_of (texts spelled.entry.now)) }
{
    let mut patterns = Vec::new(alloc);
    for text in spelled {
        patterns.push(Pattern::new(text.as_str()))?;
    }
    Ok(patterns)
}

fn any_holds(patterns: &[Pattern<'_>], text: &str) -> bool
    ensures { result ≡ list_any (λ p. pattern_holds (pattern_view p) text.now) patterns.now }
{
    patterns.iter().any(|pattern| pattern.holds(text))
}

fn any_holds_every(patterns: &[Pattern<'_>]) -> bool
    ensures { result ≡ list_any (λ p. holds_every (pattern_view p)) patterns.now }
{
    patterns.iter().any(|pattern| pattern.holds_every())
}

/// Whether one of the patterns holds the text, or, if there is none, every text.
pub(crate) fn hold_if_named(patterns: &[Pattern<'_>], text: Option<&str>) -> bool
    ensures { result ≡ hold_if_named (map pattern_view patterns.now) (option_map (λ t. t.now) text.entry) }
{
    match text {
        Some(text) => any_holds(patterns, text),
        None => any_holds_every(patterns),
    }
}
