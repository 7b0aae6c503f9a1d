//! Reads a repository in the store.

ghost use Rattle.std.specs.Prelude.{◌≡◌, map, option_map};
ghost use Rattle.model.specs.RepoState.{repo_state};
ghost use Rattle.model.specs.World.{World};
ghost use Rattle.policy.specs.Values.{policy_view, question_view};
ghost use Rattle.store.specs.Shown.{AddsNothing, IsHonest, Moves};
ghost use Rattle.store.proofs.Moved.{moves_none, moves_then, nothing_none, nothing_then};
ghost use Rattle.refinement.specs.Representation.{Holds};
ghost use Rattle.refinement.proofs.Holding.{holds_still};
ghost use Rattle.desk.specs.Visible.{is_visible};

use crate::readers::RepoReader;
use crate::rights::allow_on;
use cursor::{Filter, Page, page};
use locks::Lock;
use names::{LockId, Oid, Size};
use policy::{ApplicableRows, Repo};
use std::alloc::Global;
use store::Store;
use tables::StoreFault;

/// Whether the rows allow the lock; if none are given, every lock is allowed.
pub(crate) fn is_visible(visible: Option<&ApplicableRows<'_>>, row: &Lock) -> bool
    ensures { result ≡ is_visible visible.entry row.now }
{
    match visible {
        Some(rows) => allow_on(rows, row),
        None => true,
    }
}

impl<S: Store> RepoReader for S {
    ghost honest = { λ s. IsHonest S.State s };

    ghost shows = { λ s repo state. (world : World) × Holds S.State s world × (state ≡ repo_state repo world) };

    ghost reads = { λ one two. Moves S.State (λ t. t) one two × AddsNothing S.State one two };

    fn room(&mut self, repo: &Repo) -> Result<i128, StoreFault> {
        let used = uploads::used(self, repo.name())?;
        Ok(i128::from(repo.quota()) - i128::from(used))
    }

    fn size_of(&mut self, repo: &Repo, name: &Oid) -> Result<Option<Size>, StoreFault> {
        match uploads::find(self, repo.name(), name)? {
            Some(row) => Ok(Some(row.size)),
            None => Ok(None),
        }
    }

    fn is_gone(&mut self, repo: &Repo, name: &Oid) -> Result<bool, StoreFault> {
        uploads::is_retired(self, repo.name(), name)
    }

    fn page(
        &mut self,
        alloc: Global,
        repo: &Repo,
        wanted: &Filter<'_>,
        visible: Option<&ApplicableRows<'_>>,
        cursor: Option<LockId>,
        limit: u32,
    ) -> Result<Page, StoreFault> {
        page(
            alloc,
            self,
            repo.name(),
            wanted,
            |row| is_visible(visible, row),
            cursor,
            limit,
        )
    }

    ghost reads_none = { λ s. (moves_none _ s, nothing_none _ s) };

    ghost was_honest = { λ one two reads. reads.0.was_honest };

    ghost reads_on = { λ one two three first then. (
      moves_then _ one two three first.0 then.0,
      nothing_then _ one two three first.1 then.1,
    ) };

    ghost shows_still = { λ one two repo state reads shown. (
      shown.0,
      holds_still _ one two shown.0 reads.0 shown.1,
      shown.2,
    ) };
}
