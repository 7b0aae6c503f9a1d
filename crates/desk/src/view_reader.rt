//! Reads a repository in what a user sees of it.

ghost use Rattle.std.specs.Prelude.{◌≡◌, ⊤, find, option_map, bytes_eq};
ghost use Rattle.std.proofs.Common.{ap, refl, sym, ◌∙◌};
ghost use Rattle.names.specs.Names.{repo_text};
ghost use Rattle.desk.specs.Views.{state_seen};

use crate::readers::RepoReader;
use crate::store_reader::is_visible;
use crate::views::{ObjectSize, View};
use cursor::{Filter, Page, page_among};
use names::{LockId, Oid, Size};
use policy::{ApplicableRows, Repo};
use std::alloc::Global;
use tables::StoreFault;

/// Reads the repository of a view.
#[derive(Drop)]
pub(crate) struct ViewReader<'v> {
    pub view: &'v View<'v>,
}

/// The object of the name.
fn named<'a>(objects: &'a [ObjectSize], name: &Oid) -> Option<&'a ObjectSize>
    ensures { option_map (λ o. o.now) result ≡ find (λ o. bytes_eq o.name name.now) objects.now }
{
    objects.iter().find(|object| object.name == *name)
}

/// The name, if it is among these.
fn among<'a>(names: &'a [Oid], name: &Oid) -> Option<&'a Oid>
    ensures { option_map (λ other. other.now) result ≡ find (λ other. bytes_eq other name.now) names.now }
{
    names.iter().find(|other| **other == *name)
}

impl RepoReader for ViewReader<'_> {
    ghost honest = { λ v. ⊤ };

    ghost shows = { λ v repo state. (repo.name ≡ repo_text v.view.now.repo.now)
        × (state ≡ state_seen v.view.now) };

    ghost reads = { λ one two. two.view ≡ one.view };

    fn room(&mut self, _repo: &Repo) -> Result<i128, StoreFault> {
        Ok(self.view.room)
    }

    fn size_of(&mut self, _repo: &Repo, name: &Oid) -> Result<Option<Size>, StoreFault> {
        match named(self.view.objects.as_slice(), name) {
            Some(object) => Ok(Some(object.size)),
            None => Ok(None),
        }
    }

    fn is_gone(&mut self, _repo: &Repo, name: &Oid) -> Result<bool, StoreFault> {
        Ok(among(self.view.retired.as_slice(), name).is_some())
    }

    fn page(
        &mut self,
        alloc: Global,
        _repo: &Repo,
        wanted: &Filter<'_>,
        visible: Option<&ApplicableRows<'_>>,
        cursor: Option<LockId>,
        limit: u32,
    ) -> Result<Page, StoreFault> {
        let page = page_among(
            alloc,
            self.view.locks.as_slice(),
            wanted,
            |row| is_visible(visible, row),
            cursor,
            limit,
        )?;
        Ok(page)
    }

    ghost reads_none = { λ v. refl };

    ghost was_honest = { λ one two reads honest. tt };

    ghost reads_on = { λ one two three first then. then ∙ first };

    ghost shows_still = { λ one two repo state reads shown. (
      shown.0 ∙ ap (λ v. repo_text v.now.repo.now) (sym reads),
      shown.1 ∙ ap (λ v. state_seen v.now) (sym reads),
    ) };
}
