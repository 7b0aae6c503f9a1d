//! The lines of the command `policy`.

ghost use Rattle.std.specs.Prelude.{◌≡◌, IfOk, string_bytes};
ghost use Rattle.policy.specs.Values.{decision_view};
ghost use Rattle.cli.specs.Answers.{decision_line, row_line};

use policy::Verdict;
use std::alloc::{AllocError, Global};

/// The line with the row that decides a question.
pub(crate) fn decision_line(alloc: Global, verdict: Verdict) -> Result<String, AllocError>
    ensures { IfOk result (λ text. string_bytes text ≡ decision_line (decision_view verdict)) }
{
    match verdict {
        Verdict::Allow(row) => format!(in alloc; "allowed by row {row}"),
        Verdict::Deny(row) => format!(in alloc; "denied by row {row}"),
    }
}

/// The line before a row: its number, and the number of an earlier row that covers it.
pub(crate) fn row_line(
    alloc: Global,
    row: usize,
    covering: Option<usize>,
) -> Result<String, AllocError>
    ensures { IfOk result (λ text. string_bytes text ≡ row_line row covering) }
{
    match covering {
        None => format!(in alloc; "row {row}"),
        Some(earlier) => format!(in alloc; "row {row}: never reached, row {earlier} covers it"),
    }
}
