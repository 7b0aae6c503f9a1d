//! What the requests for pages of locks share: where a page begins, and the locks that a client sees.

ghost use Rattle.std.specs.Prelude.{ℕ, List, IfOk, map, option_map, string_bytes};
ghost use Rattle.model.specs.Answers.{by_rules};
ghost use Rattle.model.specs.Pages.{cursor_in};
ghost use Rattle.forms.specs.ShownLocks.{AreOf};
ghost use Rattle.locks.specs.Finding.{lock_seen};
ghost use Rattle.cursor.specs.Paging.{cursor_or_first};
ghost use Rattle.desk.specs.Rights.{Judges};

use crate::cases::Denial;
use crate::locking::shown;
use cursor::read_cursor;
use forms::ShownLock;
use locks::Lock;
use names::LockId;
use std::alloc::{AllocError, Global};

/// The id at which the page begins; `None` if no cursor is given.
pub(crate) fn start_at(cursor: Option<&String>) -> Result<Option<LockId>, Denial>
    ensures { Judges cursor_or_first result
        (by_rules (cursor_in (option_map (λ text. string_bytes text.now) cursor.entry))) }
{
    let Some(text) = cursor else {
        return Ok(None);
    };
    match read_cursor(text.as_str()) {
        Ok(id) => Ok(Some(id)),
        Err(rule) => Err(Denial::Rule(rule)),
    }
}

/// The locks of the rows, as a client sees them.
pub(crate) fn shown_locks<'a>(
    alloc: Global,
    rows: &'a [Lock],
) -> Result<Vec<ShownLock<'a>>, AllocError>
    ensures { IfOk result (λ locks. (repo : List ℕ)
        → AreOf locks.items (map (lock_seen repo) rows.entry.now)) }
{
    rows.iter().map(shown).collect(alloc)
}
