//! The command `policy`: checks a policy file, decides a question by it, lists its rows, and warns.

ghost use Rattle.std.specs.Prelude.{◌≡◌, map, option_map, IfOk, OnOk, IsTrue, is_ok};
ghost use Rattle.model.specs.Policy.{decide};
ghost use Rattle.policy.specs.Values.{decision_view, policy_view, row_view};
ghost use Rattle.cli.specs.Answers.{covering_in, is_allowed, number_of, row_numbered};
ghost use Rattle.command_line.specs.Asking.{asked_view};

use crate::policy_lines::{decision_line, row_line};
use command_line::{AskedQuestion, PolicyArgs, PolicyTask};
use faults::Fault;
use machine::{policy_line, read_described};
use model::Right;
use names::Sink;
use operator::Lines;
use policy::{Policy, Row, Verdict, decide};
use policy_review::{asked_by, warnings};
use std::alloc::{AllocError, Global};
use std::rt::HostRuntime;

/// The policy's verdict on the question.
fn verdict_on(policy: &Policy, asked: &AskedQuestion) -> Verdict
    ensures { decision_view result ≡ decide (policy_view policy.now) (asked_view asked.now) }
{
    decide(policy, &asked.question())
}

/// The number of the row that decided.
fn number_of(verdict: Verdict) -> u32
    ensures { result ≡ number_of (decision_view verdict) }
{
    match verdict {
        Verdict::Allow(number) | Verdict::Deny(number) => number,
    }
}

/// The row with the number; `None` for 0, and for a number that no row has.
fn row_numbered(rows: &[Row], number: u32) -> Option<&Row>
    ensures { option_map (λ row. row_view row.now) result
        ≡ row_numbered number (map row_view rows.now) }
{
    match number {
        0 => None,
        _ => rows.get(number as usize - 1),
    }
}

/// How a command that printed the verdict ends.
fn ending(verdict: Verdict) -> Result<(), Fault>
    ensures { is_ok result ≡ is_allowed (decision_view verdict) }
{
    match verdict {
        Verdict::Allow(_) => Ok(()),
        Verdict::Deny(_) => Err(Fault::Reported),
    }
}

/// The number of the first of the rows that covers the row.
fn covering_in(earlier: &[Row], row: &Row) -> Option<usize>
    ensures { result ≡ covering_in (map row_view earlier.now) (row_view row.now) }
{
    for (index, other) in earlier.iter().enumerate() {
        if other.covers(row) {
            return Some(index + 1);
        }
    }
    None
}

/// Adds a line for each warning of the policy.
fn push_warnings(alloc: Global, policy: &Policy, lines: &mut Lines) -> Result<(), AllocError> {
    let found = warnings(alloc, policy)?;
    for warning in found.iter() {
        let line = format!(in alloc; "warning: {warning}")?;
        lines.push(line.as_bytes())?;
    }
    Ok(())
}

/// The line with the number of repositories and rows, and the warnings.
fn count_lines(alloc: Global, policy: &Policy) -> Result<Lines, AllocError> {
    let mut lines = Lines::new(alloc);
    lines.push(policy_line(alloc, policy)?.as_bytes())?;
    push_warnings(alloc, policy, &mut lines)?;
    Ok(lines)
}

/// The lines with the verdict, with the row that decides, and with the requests that ask the right.
fn decision_lines(
    alloc: Global,
    policy: &Policy,
    right: Right,
    verdict: Verdict,
) -> Result<Lines, AllocError> {
    let mut lines = Lines::new(alloc);
    lines.push(decision_line(alloc, verdict)?.as_bytes())?;
    if let Some(row) = row_numbered(policy.rows(), number_of(verdict)) {
        lines.push(row.to_string(alloc)?.as_bytes())?;
    }
    let requests = asked_by(right);
    lines.push(format!(in alloc; "asked by: {requests}")?.as_bytes())?;
    Ok(lines)
}

/// Writes which row decides the question, its text, and which requests ask the right. `Ok` means that the question is
/// allowed.
fn write_decision<K: Sink>(
    alloc: Global,
    policy: &Policy,
    asked: &AskedQuestion,
    output: &mut K,
) -> Result<(), Fault>
    ensures allowed { IfOk result
        (λ _. IsTrue (is_allowed (decide (policy_view policy.now) (asked_view asked.now)))) }
    ensures good { OnOk result (K.failed output.new ≡ K.failed output.old) }
{
    let verdict = verdict_on(policy, asked);
    decision_lines(alloc, policy, asked.right, verdict)?.write(output)?;
    ending(verdict)
}

/// Adds the text of each row, after a line with its number.
fn push_rows(alloc: Global, rows: &[Row], lines: &mut Lines) -> Result<(), AllocError> {
    for (index, row) in rows.iter().enumerate() {
        let covering = covering_in(&rows[..index], row);
        lines.push(row_line(alloc, index + 1, covering)?.as_bytes())?;
        lines.push(row.to_string(alloc)?.as_bytes())?;
    }
    Ok(())
}

/// The rows, and the warnings.
fn row_lines(alloc: Global, policy: &Policy) -> Result<Lines, AllocError> {
    let mut lines = Lines::new(alloc);
    push_rows(alloc, policy.rows(), &mut lines)?;
    push_warnings(alloc, policy, &mut lines)?;
    Ok(lines)
}

/// Prints what the arguments ask of the policy file. No database is opened.
///
/// # Errors
///
/// `PolicyFile`, `PolicyDescribed` and `Memory`; `Output` if a line could not be written; and `Reported` if the
/// question is denied.
pub(crate) fn policy_command<K: Sink>(
    rt: &HostRuntime,
    args: &PolicyArgs<'_>,
    output: &mut K,
) -> Result<(), Fault>
    ensures { OnOk result (K.failed output.new ≡ K.failed output.old) }
{
    let alloc = rt.alloc();
    let policy = read_described(rt, args.policy)?;
    let lines = match &args.task {
        PolicyTask::Decide(asked) => return write_decision(alloc, &policy, asked, output),
        PolicyTask::Count => count_lines(alloc, &policy)?,
        PolicyTask::List => row_lines(alloc, &policy)?,
    };
    lines.write(output)?;
    Ok(())
}
