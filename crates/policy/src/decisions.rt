//! How the policy decides.

ghost use Rattle.std.specs.Prelude.{◌≡◌};
ghost use Rattle.model.specs.Policy.{decide, decision_by};
ghost use Rattle.policy.specs.Values.{policy_view, question_view, decision_view};

use crate::policies::Policy;
use crate::questions::{Question, Verdict};
use model::Effect;

/// The verdict of the row with this number.
pub(crate) fn decided(effect: Effect, number: u32) -> Verdict
    ensures { decision_view result ≡ decision_by effect number }
{
    match effect {
        Effect::Allow => Verdict::Allow(number),
        Effect::Deny => Verdict::Deny(number),
    }
}

/// Returns the policy's verdict on the question: that of the first row that matches, or, if no row
/// matches, a denial by row 0. It needs no memory.
pub fn decide(policy: &Policy, question: &Question) -> Verdict
    ensures { decision_view result ≡ decide (policy_view policy.now) (question_view question.now) }
{
    for (index, row) in policy.rows.iter().enumerate() {
        if row.matches(question) {
            return decided(row.effect, index as u32 + 1);
        }
    }
    Verdict::Deny(0)
}
