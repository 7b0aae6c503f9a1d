//! Whether an object is damaged, and how an inspection of all objects shows how far it is.

ghost use Rattle.std.specs.Prelude.{◌≡◌, ⊤, not, IfOk};
ghost use Rattle.tables.specs.Staging.{upload_number};
ghost use Rattle.refinement.specs.Left.{Reads};
ghost use Rattle.chunks.specs.Pouring.{OfBytes};
ghost use Rattle.operator.specs.Damage.{has_bytes};

use chunks::is_whole;
use std::io::{Stderr, Write};
use store::{ReadFault, Store};
use uploads::Stored;

/// Whether the stored bytes of the object are not as many as its size says, or do not have its name.
pub(crate) fn is_damaged<S: Store>(store: &mut S, row: &Stored) -> Result<bool, ReadFault>
    ensures exact { OfBytes S.State store.old store.new (upload_number row.now.id) (λ bytes. IfOk result
        (λ damaged. damaged ≡ not (has_bytes row.now bytes))) }
    ensures reads { Reads S.State store.old store.new (λ _. ⊤) }
{
    Ok(!is_whole(store, row.id, &row.oid, row.size)?)
}

/// How far an inspection is, on the error stream if that is a terminal.
#[derive(Drop)]
pub(crate) struct Progress<'a> {
    pub(crate) terminal: Option<&'a Stderr>,
}

impl Progress<'_> {
    /// Shows this text.
    pub(crate) fn show(&self, text: &str) {
        if let Some(mut terminal) = self.terminal {
            // Nothing depends on what is shown.
            let _ = write!(terminal, "\r{text}");
        }
    }

    /// Removes what is shown.
    pub(crate) fn clear(&self) {
        if let Some(mut terminal) = self.terminal {
            let _ = write!(terminal, "\r\x1b[K");
        }
    }
}
