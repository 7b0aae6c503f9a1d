//! The warnings of a policy: what it says and its author probably did not mean.

ghost use Rattle.std.specs.Prelude.{◌≡◌, IfOk, OnOk, map};
ghost use Rattle.policy.specs.Ranges.{texts};
ghost use Rattle.policy.specs.Values.{policy_view, row_view};
ghost use Rattle.policy_review.specs.Warnings.{entry_warnings, right_warning, row_warnings, token_warnings, warnings};
ghost use Rattle.policy_review.specs.Values.{Adds, warning_view};

use crate::doubts::{EntryDoubt, RightDoubt, is_entry_doubtful, is_right_doubtful};
use policy::{Policy, Row};
use std::alloc::{AllocError, Global};
use std::fmt;

/// The shortest life of a token without a warning, in seconds.
const SHORTEST_LIFE: u64 = 60;

/// The shortest life of a token that a client may use at all, in seconds.
const SHORTEST_USABLE_LIFE: u64 = 6;

/// What a policy says and its author probably did not mean. Rows count from 1.
#[derive(Debug, Drop)]
pub enum Warning {
    /// Tokens are valid for this many seconds, less than 60. The Git LFS client counts a token as expired 5 seconds before
    /// its end.
    ShortToken(u64),
    /// The row of this number has this entry, which is doubtful.
    Entry(usize, EntryDoubt, String),
    /// The row of this number has a right that is doubtful.
    Right(usize, RightDoubt),
}

/// Adds a warning for each doubtful entry of the row.
fn push_entries(
    alloc: Global,
    found: &mut Vec<Warning>,
    policy: &Policy,
    row: usize,
    doubt: EntryDoubt,
    entries: &[String],
) -> Result<(), AllocError>
    ensures { OnOk result (Adds found.old.items found.new.items
        (entry_warnings (policy_view policy.now) row doubt (texts entries.now))) }
{
    for entry in entries {
        if is_entry_doubtful(policy, doubt, entry.as_str()) {
            let text = String::from_str(alloc, entry.as_str())?;
            found.push(Warning::Entry(row, doubt, text))?;
        }
    }
    Ok(())
}

/// Adds a warning if the right is doubtful in the row of this number.
fn push_right(
    found: &mut Vec<Warning>,
    number: usize,
    row: &Row,
    doubt: RightDoubt,
) -> Result<(), AllocError>
    ensures { OnOk result (Adds found.old.items found.new.items
        (right_warning number (row_view row.now) doubt)) }
{
    if is_right_doubtful(row, doubt) {
        found.push(Warning::Right(number, doubt))?;
    }
    Ok(())
}

/// Adds the warnings of the row of this number.
fn push_row(
    alloc: Global,
    found: &mut Vec<Warning>,
    policy: &Policy,
    number: usize,
    row: &Row,
) -> Result<(), AllocError>
    ensures { OnOk result (Adds found.old.items found.new.items
        (row_warnings (policy_view policy.now) number (row_view row.now))) }
{
    push_entries(
        alloc,
        found,
        policy,
        number,
        EntryDoubt::NeverAllowed,
        &row.users,
    )?;
    push_entries(
        alloc,
        found,
        policy,
        number,
        EntryDoubt::NotServed,
        &row.repos,
    )?;
    push_entries(
        alloc,
        found,
        policy,
        number,
        EntryDoubt::StarInPath,
        &row.paths,
    )?;
    push_right(found, number, row, RightDoubt::PullWithRefs)?;
    push_right(found, number, row, RightDoubt::PullWithPaths)?;
    push_right(found, number, row, RightDoubt::PushWithPaths)?;
    Ok(())
}

/// Adds a warning if this life of a token, in seconds, is short.
fn push_token(found: &mut Vec<Warning>, seconds: u64) -> Result<(), AllocError>
    ensures { OnOk result (Adds found.old.items found.new.items (token_warnings seconds)) }
{
    if seconds < SHORTEST_LIFE {
        found.push(Warning::ShortToken(seconds))?;
    }
    Ok(())
}

/// The warnings of the policy, in the order of the file: the life of a token, then for each row those of its users, its
/// repositories, its paths and its rights.
///
/// # Errors
///
/// Memory ran out.
pub fn warnings(alloc: Global, policy: &Policy) -> Result<Vec<Warning>, AllocError>
    ensures { IfOk result (λ found. map warning_view found.items ≡ warnings (policy_view policy.now)) }
{
    let mut found = Vec::new(alloc);
    push_token(&mut found, policy.token_seconds())?;
    for (index, row) in policy.rows().iter().enumerate() {
        push_row(alloc, &mut found, policy, index + 1, row)?;
    }
    Ok(found)
}

/// Writes what is dubious about the entry, and what it means.
fn write_entry<W: fmt::Write>(
    f: &mut fmt::Formatter<W>,
    doubt: EntryDoubt,
    text: &str,
) -> fmt::Result {
    match doubt {
        EntryDoubt::NeverAllowed => write!(
            f,
            "no row allows {text:?} anything: what no row allows is denied without a row that denies it"
        ),
        EntryDoubt::NotServed => write!(f, "{text:?} matches no repository of this file"),
        EntryDoubt::StarInPath => write!(
            f,
            "{text:?} matches only the path with this very text: write a folder and a slash, as \"art/\", for all paths below it; there are no patterns by ending"
        ),
    }
}

/// What is dubious about the right, and what it means.
fn right_text(doubt: RightDoubt) -> &'static str {
    match doubt {
        RightDoubt::PullWithRefs => {
            "a request that asks pull names no ref, and the refs have no \"*\": the row does not match it"
        }
        RightDoubt::PullWithPaths => {
            "a request that asks pull names no path, and the paths have no \"*\": the row does not match it"
        }
        RightDoubt::PushWithPaths => {
            "a request that asks push names no path, and the paths have no \"*\": the row matches only the paths of `custody pushcheck`"
        }
    }
}

/// Writes the warning in one line, which begins with its place, as `row 3: ` or `token_seconds: `.
impl fmt::Display for Warning {
    fn fmt<W: fmt::Write>(&self, f: &mut fmt::Formatter<W>) -> fmt::Result {
        match self {
            Warning::ShortToken(seconds) if *seconds < SHORTEST_USABLE_LIFE => write!(
                f,
                "token_seconds: a token of {seconds} seconds cannot transfer files: the Git LFS client counts a token as expired 5 seconds before its end"
            ),
            Warning::ShortToken(seconds) => write!(
                f,
                "token_seconds: {seconds} seconds are short: the Git LFS client counts a token as expired 5 seconds before its end, so a transfer may need several tokens"
            ),
            Warning::Entry(row, doubt, text) => {
                write!(f, "row {row}: ")?;
                write_entry(f, *doubt, text.as_str())
            }
            Warning::Right(row, doubt) => {
                let text = right_text(*doubt);
                write!(f, "row {row}: {text}")
            }
        }
    }
}
