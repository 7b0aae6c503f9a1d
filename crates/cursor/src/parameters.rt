//! The parameters of a request for a page: where it begins, and how many locks it has.

ghost use Rattle.std.specs.Prelude.{◌≡◌, Some, None, MatchResult};
ghost use Rattle.names.specs.Texts.{lock_id_in};
ghost use Rattle.names.specs.declared.rules.Rule.TheVariants.{L4};
ghost use Rattle.model.specs.Pages.{page_limit};

use names::{LockId, Rule};

/// The most locks of a page.
pub const LONGEST_PAGE: u32 = 500;

/// The number of locks of a page for which no limit is given.
pub const USUAL_PAGE: u32 = 100;

/// Returns the id at which a page begins, from 1 to 4,294,967,295.
///
/// # Errors
///
/// L4 exactly if the text is not the decimal text of an id.
pub fn read_cursor(text: &str) -> Result<LockId, Rule>
    ensures { MatchResult result
        (λ id. lock_id_in text.now ≡ Some id)
        (λ rule. (rule ≡ L4) × (lock_id_in text.now ≡ None)) }
{
    LockId::read(text).ok_or(Rule::L4)
}

/// Returns how many locks a page may have, from 1 to [`LONGEST_PAGE`]: the limit, or the nearest of these numbers.
/// Without a limit it is [`USUAL_PAGE`].
pub fn read_limit(limit: Option<i64>) -> u32
    ensures { result ≡ page_limit limit }
{
    match limit {
        None => USUAL_PAGE,
        Some(limit) => limit.clamp(1, i64::from(LONGEST_PAGE)) as u32,
    }
}
