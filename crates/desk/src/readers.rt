//! What a request reads of its repository.

ghost use Rattle.std.specs.Prelude.{◌≡◌, IfOk, filter};
ghost use Rattle.model.specs.Policy as model;
ghost use Rattle.model.specs.Pages.{page_of};
ghost use Rattle.model.specs.RepoState.{RepoState, is_gone, size_of};
ghost use Rattle.policy.specs.Values.{repo_view};
ghost use Rattle.cursor.specs.Paging.{cursor_or_first, page_seen};
ghost use Rattle.cursor.specs.Wanted.{Test, is_wanted};
ghost use Rattle.desk.specs.Visible.{TestsBy};

use cursor::{Filter, Page};
use names::{LockId, Oid, Size};
use policy::{ApplicableRows, Repo};
use std::alloc::Global;
use tables::StoreFault;

/// Reads a repository of the policy: in the store, or in what a user sees of it. A request that changes nothing is answered
/// by what it reads, so the rules for it are the same for both.
pub(crate) trait RepoReader {
    /// What was read is what was written.
    ghost honest: { Self → Type 0 };

    /// The repository has this state.
    ghost shows: { Self → model.Repo → RepoState → Type 0 };

    /// Reads led from one state of the reader to another.
    ghost reads: { Self → Self → Type 0 };

    /// Returns the quota less the bytes that are stored; below 0 once the quota was lowered.
    ///
    /// # Errors
    ///
    /// A [`StoreFault`].
    fn room(&mut self, repo: &Repo) -> Result<i128, StoreFault>
        ensures reads { reads self.old self.new }
        ensures room { honest self.new → (state : RepoState)
            → shows self.old (repo_view repo.now) state → IfOk result (λ room. room ≡ state.room) };

    /// Returns the size of the object of the name; `None` if there is none.
    ///
    /// # Errors
    ///
    /// A [`StoreFault`].
    fn size_of(&mut self, repo: &Repo, name: &Oid) -> Result<Option<Size>, StoreFault>
        ensures reads { reads self.old self.new }
        ensures size { honest self.new → (state : RepoState)
            → shows self.old (repo_view repo.now) state
            → IfOk result (λ size. size ≡ size_of name.now state) };

    /// Returns whether the name is retired: the repository removed the object of the name for good.
    ///
    /// # Errors
    ///
    /// A [`StoreFault`].
    fn is_gone(&mut self, repo: &Repo, name: &Oid) -> Result<bool, StoreFault>
        ensures reads { reads self.old self.new }
        ensures gone { honest self.new → (state : RepoState)
            → shows self.old (repo_view repo.now) state
            → IfOk result (λ gone. gone ≡ is_gone name.now state) };

    /// Returns a page of the locks that meet the filters and that the rows allow, if rows are given; as
    /// [`cursor::page`] does.
    ///
    /// # Errors
    ///
    /// A [`StoreFault`].
    fn page(
        &mut self,
        alloc: Global,
        repo: &Repo,
        wanted: &Filter<'_>,
        visible: Option<&ApplicableRows<'_>>,
        cursor: Option<LockId>,
        limit: u32,
    ) -> Result<Page, StoreFault>
        ensures reads { reads self.old self.new }
        ensures page { honest self.new → (state : RepoState)
            → shows self.old (repo_view repo.now) state
            → (sees : Test) → TestsBy visible.entry (repo_view repo.now).name sees
            → IfOk result (λ page. page_seen (repo_view repo.now).name page
            ≡ page_of (cursor_or_first cursor) limit
            (filter (is_wanted wanted.entry.now sees) state.locks)) };

    /// To read nothing is to read.
    ghost reads_none: { (one : Self) → reads one one };

    /// What was read before was read from an honest reader, if what was read later was.
    ghost was_honest: { (one two : Self) → reads one two → honest two → honest one };

    /// Reads one after the other are reads.
    ghost reads_on: { (one two three : Self) → reads one two → reads two three → reads one three };

    /// Reads leave the repository's state.
    ghost shows_still: { (one two : Self) (repo : model.Repo) (state : RepoState)
        → reads one two → shows one repo state → shows two repo state };
}
