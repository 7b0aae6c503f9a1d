//! Calls of `cursor`.

use crate::Given;
use crate::fault::Fault;
use crate::words::{count, lock_id, part, path, ref_name, repo, small, user, word};
use cursor::{Filter, Page};
use locks::Lock;
use names::{LockId, LockPath, RefName, RepoName};
use std::alloc::Global;
use std::cell::Cell;
use store::Store;

/// The number of locks that are read at once (`cursor::page`).
const WINDOW: u32 = 64;

/// What is asked of a page: the locks whose ids are multiples of a number, from an id on, a number of them, and those that
/// have these parts.
#[derive(Drop)]
struct Asked {
    every: u32,
    cursor: Option<LockId>,
    limit: u32,
    path: Option<LockPath>,
    id: Option<LockId>,
    ref_name: Option<RefName>,
}

impl Asked {
    /// What the words say.
    fn read(alloc: Global, words: &[&str]) -> Result<Asked, Fault> {
        Ok(Asked {
            every: small(word(words, 1)?)?,
            cursor: match part(words, 2) {
                Some(word) => Some(lock_id(word)?),
                None => None,
            },
            limit: small(word(words, 3)?)?,
            path: match part(words, 4) {
                Some(word) => Some(path(alloc, word)?),
                None => None,
            },
            id: match part(words, 5) {
                Some(word) => Some(lock_id(word)?),
                None => None,
            },
            ref_name: match part(words, 6) {
                Some(word) => Some(ref_name(alloc, word)?),
                None => None,
            },
        })
    }

    /// The parts.
    fn filter(&self) -> Filter<'_> {
        Filter {
            path: self.path.as_ref(),
            id: self.id,
            ref_name: self.ref_name.as_ref(),
        }
    }

    /// The page of the store. No more than a window is asked about after the next lock.
    fn page<S: Store>(&self, alloc: Global, store: &mut S, repo: &RepoName) -> Result<Page, Fault> {
        let count = Cell::new(0u32);
        let every = self.every;
        let visible = |row: &Lock| {
            count.set(count.get().saturating_add(1));
            row.id.get().is_multiple_of(every)
        };
        let filter = self.filter();
        let page = cursor::page(
            alloc,
            store,
            repo,
            &filter,
            visible,
            self.cursor,
            self.limit,
        )?;
        let most = page
            .next
            .map_or(u32::MAX, |next| next.get().saturating_add(WINDOW));
        if count.get() > most {
            return Err(Fault::Script("more than a window of locks is read after the next"));
        }
        Ok(page)
    }

    /// The page among these locks.
    fn page_among(&self, alloc: Global, locks: &[Lock]) -> Result<Page, Fault> {
        let every = self.every;
        let visible = |row: &Lock| row.id.get().is_multiple_of(every);
        let filter = self.filter();
        Ok(cursor::page_among(alloc, locks, &filter, visible, self.cursor, self.limit)?)
    }
}

/// The number of the locks, the id of the first, and of the last; 0 if there is none.
fn ends(locks: &[Lock]) -> (usize, u32, u32) {
    let first = locks.first().map_or(0, |lock| lock.id.get());
    let last = locks.last().map_or(0, |lock| lock.id.get());
    (locks.len(), first, last)
}

/// The line of a page.
fn line(alloc: Global, page: &Page) -> Result<String, Fault> {
    let (count, first, last) = ends(page.locks.as_slice());
    let next = page.next.map_or(0, |id| id.get());
    Ok(format!(in alloc; "{count} {first} {last} {next}\n")?)
}

/// A page of the store's locks, which has to be that of the same locks in memory.
fn page<S: Store>(alloc: Global, store: &mut S, words: &[&str]) -> Result<String, Fault> {
    let repo = repo(alloc, word(words, 0)?)?;
    let asked = Asked::read(alloc, words)?;
    let stored = line(alloc, &asked.page(alloc, store, &repo)?)?;
    let locks = locks::all(alloc, store, &repo)?;
    let copied = line(alloc, &asked.page_among(alloc, locks.as_slice())?)?;
    if stored.as_str() == copied.as_str() {
        return Ok(stored);
    }
    Err(Fault::Differs(format!(in alloc; "in memory the page is {copied:?}")?))
}

/// The first page of a repository's locks, in those of a user and the others.
fn split<S: Store>(alloc: Global, store: &mut S, words: &[&str]) -> Result<String, Fault> {
    let repo = repo(alloc, word(words, 0)?)?;
    let user = user(alloc, word(words, 1)?)?;
    let any = Filter {
        path: None,
        id: None,
        ref_name: None,
    };
    let visible = |row: &Lock| row.id.get() >= 1;
    let mut page = cursor::page(alloc, store, &repo, &any, visible, None, 100)?;
    let (ours, theirs) = cursor::split(&mut page, &user);
    let (count, first, last) = ends(ours);
    let (others, next, end) = ends(theirs);
    Ok(format!(in alloc; "{count} {first} {last}\n{others} {next} {end}\n")?)
}

/// The id of a cursor, or the rule that refuses it.
fn cursor_line(alloc: Global, text: &str) -> Result<String, Fault> {
    match cursor::read_cursor(text) {
        Ok(id) => count(alloc, u64::from(id.get())),
        Err(rule) => Ok(format!(in alloc; "{rule}\n")?),
    }
}

/// The number of locks of a page for a limit; without a text none is given.
fn limit_line(alloc: Global, text: &str) -> Result<String, Fault> {
    let limit = match text.parse::<i64>() {
        Ok(limit) => Some(limit),
        Err(_) if text.is_empty() => None,
        Err(_) => return Err(Fault::Script("a limit has 64 bits")),
    };
    count(alloc, u64::from(cursor::read_limit(limit)))
}

/// Makes the call of this word, if it is one about pages.
pub(crate) fn call<S: Store>(
    given: &Given<'_>,
    store: &mut S,
    name: &str,
    words: &[&str],
    text: &str,
) -> Result<Option<String>, Fault> {
    let alloc = given.alloc;
    Ok(Some(match name {
        "page" => page(alloc, store, words)?,
        "split" => split(alloc, store, words)?,
        "cursor" => cursor_line(alloc, text)?,
        "limit" => limit_line(alloc, text)?,
        _ => return Ok(None),
    }))
}
