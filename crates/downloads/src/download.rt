//! An object that is sent in parts.

ghost use Rattle.std.specs.Prelude.{◌≡◌, ◌≤◌, min, length, nat_le, IfSome};
ghost use Rattle.refinement.specs.Left.{Reads};
ghost use Rattle.downloads.specs.Downloads.{IsAdvanced, AreNextBytes, closes_of, left_of, name_of, download_repo, sent_of, size_of};

use chunks::portion;
use names::{Oid, RepoName, Size};
use std::alloc::Global;
use store::Store;
use uploads::find;

/// An object of a repository that is sent, of which the first bytes were sent.
#[derive(Debug, Drop)]
pub struct Download {
    repo: RepoName,
    name: Oid,
    /// How many bytes it has.
    size: u64,
    /// How many of them were sent.
    sent: u64,
    /// Whether the connection is closed after it.
    closes: bool,
}

impl Download {
    /// The object of this name and size, of which nothing was sent, and after which the connection is closed or not.
    pub fn new(repo: RepoName, name: Oid, size: Size, closes: bool) -> Download
        ensures repo { download_repo result ≡ repo }
        ensures name { name_of result ≡ name }
        ensures size { size_of result ≡ size }
        ensures sent { sent_of result ≡ 0 }
        ensures closes { closes_of result ≡ closes }
    {
        Download {
            repo,
            name,
            size: size.get(),
            sent: 0,
            closes,
        }
    }

    /// Whether the connection is closed after it.
    pub fn closes(&self) -> bool
        ensures { result ≡ closes_of self.now }
    {
        self.closes
    }

    /// Whether all of its bytes were sent.
    pub fn is_over(&self) -> bool
        ensures { result ≡ nat_le (size_of self.now) (sent_of self.now) }
    {
        self.sent >= self.size
    }

    /// Returns its next bytes, at most `most`. `None` if they are not to be had: the repository has no object of the name any
    /// more, its content is in rows, the store refused, or memory ran out.
    pub fn next<S: Store>(&self, alloc: Global, store: &mut S, most: usize) -> Option<Vec<u8>>
        ensures next { Reads S.State store.old store.new (λ world. IfSome result (λ bytes.
            AreNextBytes self.now bytes.items world)) }
        ensures few { IfSome result (λ bytes. length bytes.items ≤ min most (left_of self.now)) }
    {
        let left = self.size.saturating_sub(self.sent);
        let most = left.min(most as u64) as usize;
        match find(store, &self.repo, &self.name) {
            Ok(Some(row)) => match portion(alloc, store, row.id, self.sent, most) {
                Ok(found) => found,
                Err(_) => None,
            },
            Ok(None) | Err(_) => None,
        }
    }

    /// Notes that this many more of its bytes were sent.
    pub fn advance(&mut self, count: usize)
        ensures advanced { IsAdvanced self.old count self.new }
        ensures closes { closes_of self.new ≡ closes_of self.old }
    {
        self.sent = self.sent.saturating_add(count as u64).min(self.size);
    }
}
