//! Lists what each repository of a policy uses.

ghost use Rattle.std.specs.Prelude.{◌≡◌, ◌++◌, ℕ, List, map, IfErr, IfOk, OnOk, string_bytes};
ghost use Rattle.std.specs.Io.KnownBytes.{Appends};
ghost use Rattle.std.specs.List.{AllZip};
ghost use Rattle.policy.specs.Values.{policy_view, repo_view};
ghost use Rattle.refinement.specs.Left.{Reads};
ghost use Rattle.operator.specs.Failing.{IsPlain};
ghost use Rattle.operator.specs.Texts.{text_of};
ghost use Rattle.operator.specs.Usage.{IsLineOf, ListsUsage, room_line, room_lines, share, share_text, staged_text, usage_cells, usage_headings};

use crate::columns::{Cells, lines_of};
use crate::counting::{Usage, usage_of};
use crate::faults::TaskFault;
use crate::output::Lines;
use names::{Moment, Sink, Size};
use policy::{Policy, Repo};
use std::alloc::{AllocError, Global};
use store::{Room, Store};
use tables::StoreFault;

/// How much of the quota the bytes are, in whole percent, rounded down; `None` for a quota of 0.
fn share(bytes: u64, quota: u64) -> Option<u128>
    ensures { result ≡ share bytes quota }
{
    if quota == 0 {
        return None;
    }
    Some(u128::from(bytes) * 100 / u128::from(quota))
}

fn share_text(alloc: Global, share: Option<u128>) -> Result<String, AllocError>
    ensures { IfOk result (λ text. string_bytes text ≡ share_text share) }
{
    match share {
        Some(percent) => format!(in alloc; "{percent}%"),
        None => format!(in alloc; "-"),
    }
}

/// The text of the size of an upload, if there is one.
fn staged_text(alloc: Global, size: Option<Size>) -> Result<String, AllocError>
    ensures { IfOk result (λ text. string_bytes text ≡ staged_text size) }
{
    match size {
        Some(size) => format!(in alloc; "{size}"),
        None => format!(in alloc; "-"),
    }
}

/// The texts in the line of a repository.
fn cells_of(alloc: Global, repo: &Repo, usage: &Usage) -> Result<Cells, AllocError>
    ensures { IfOk result (λ cells. map string_bytes cells
        ≡ usage_cells (repo_view repo.now).name (repo_view repo.now).quota usage.now) }
{
    Ok([
        repo.name().as_str().to_owned(alloc)?,
        usage.objects.to_string(alloc)?,
        usage.bytes.to_string(alloc)?,
        repo.quota().to_string(alloc)?,
        share_text(alloc, share(usage.bytes, repo.quota()))?,
        staged_text(alloc, usage.staged)?,
        usage.locks.to_string(alloc)?,
        usage.tokens.to_string(alloc)?,
    ])
}

/// The line of headings.
fn headings(alloc: Global) -> Result<Cells, AllocError>
    ensures { IfOk result (λ cells. map string_bytes cells ≡ usage_headings) }
{
    Ok([
        "repository".to_owned(alloc)?,
        "objects".to_owned(alloc)?,
        "bytes".to_owned(alloc)?,
        "quota".to_owned(alloc)?,
        "share".to_owned(alloc)?,
        "staged".to_owned(alloc)?,
        "locks".to_owned(alloc)?,
        "tokens".to_owned(alloc)?,
    ])
}

/// The texts in the line of each repository, in the order of the repositories.
fn rows_of<S: Store>(
    alloc: Global,
    store: &mut S,
    repos: &[Repo],
    now: Moment,
) -> Result<Vec<Cells>, StoreFault>
    ensures { Reads S.State store.old store.new (λ world.
        IfOk result (λ rows. AllZip (IsLineOf S.State world store.new now) repos.now
        (map (map string_bytes) rows.items))) }
{
    let mut rows = Vec::new(alloc);
    for repo in repos {
        let usage = usage_of(alloc, store, repo.name(), now)?;
        rows.push(cells_of(alloc, repo, &usage)?)
            .map_err(AllocError::from)?;
    }
    Ok(rows)
}

/// The line of a file of contents.
fn room_line(alloc: Global, room: Room) -> Result<String, AllocError>
    ensures { IfOk result (λ text. string_bytes text ≡ room_line room) }
{
    let Room { kept, free, size } = room;
    format!(in alloc; "contents: {kept} kept, {free} free, {size} in the file")
}

/// Adds the line of a file of contents, if there is one.
fn push_room(alloc: Global, lines: &mut Lines, room: Option<Room>) -> Result<(), AllocError>
    ensures { OnOk result (text_of lines.new ≡ text_of lines.old ++ room_lines room) }
{
    let Some(room) = room else {
        return Ok(());
    };
    let text = room_line(alloc, room)?;
    lines.push(text.as_bytes())
}

/// The lines that [`list_usage`] prints.
fn usage_lines<S: Store>(
    alloc: Global,
    store: &mut S,
    repos: &[Repo],
    now: Moment,
) -> Result<Lines, TaskFault>
    ensures reads { Reads S.State store.old store.new (λ world. IfOk result (λ lines.
        ListsUsage S.State world store.old store.new now (map repo_view repos.now)
        (text_of lines))) }
    ensures err { IfErr result IsPlain }
{
    let room = store.room()?;
    let headings = headings(alloc)?;
    let rows = rows_of(alloc, store, repos, now)?;
    let mut lines = lines_of(alloc, &headings, rows.as_slice())?;
    push_room(alloc, &mut lines, room)?;
    Ok(lines)
}

/// Prints a table with what each repository of the policy uses, with the tokens that are valid at the moment: a line of
/// headings, and a line for each repository, in the policy's order. The rows of one repository at a time are in memory.
/// Repositories that the database has and the policy does not are not listed: no call finds them. If there is a file of
/// contents, a last line says how it is filled.
///
/// # Errors
///
/// `Store` and `Memory`, and `Output` if a line could not be written.
pub(crate) fn list_usage<S: Store, K: Sink>(
    alloc: Global,
    store: &mut S,
    policy: &Policy,
    now: Moment,
    output: &mut K,
) -> Result<(), TaskFault>
    ensures reads { Reads S.State store.old store.new (λ world. OnOk result
        ((text : List ℕ)
        × ListsUsage S.State world store.old store.new now (policy_view policy.now).repos text
        × Appends (K.taken output.old) (K.taken output.new) text)) }
    ensures good { OnOk result (K.failed output.new ≡ K.failed output.old) }
    ensures err { IfErr result IsPlain }
{
    usage_lines(alloc, store, policy.repos(), now)?.write(output)
}
