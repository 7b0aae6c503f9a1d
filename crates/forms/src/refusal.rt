//! Why a request is not read.

ghost use Rattle.std.specs.Prelude.{◌≡◌};
ghost use Rattle.forms.specs.declared.refusal.Refusal.TheVariants as refusal;

use names::Rule;
use std::alloc::AllocError;

/// Why a request is not read.
#[derive(Clone, Copy, Debug)]
pub(crate) enum Refusal {
    /// This rule refuses it.
    Rule(Rule),
    /// Memory ran out.
    Memory,
}

impl From<Rule> for Refusal {
    ghost from_gives = { λ rule result. result ≡ refusal.Rule rule };

    fn from(rule: Rule) -> Refusal {
        Refusal::Rule(rule)
    }
}

impl From<AllocError> for Refusal {
    ghost from_gives = { λ _ result. result ≡ refusal.Memory };

    fn from(_error: AllocError) -> Refusal {
        Refusal::Memory
    }
}
