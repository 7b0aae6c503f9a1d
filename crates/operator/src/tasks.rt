//! What an operator asks for.

ghost use Rattle.std.specs.Prelude.{◌≡◌, OnOk};
ghost use Rattle.refinement.specs.Left.{From, KeepsTables};
ghost use Rattle.operator.specs.Damage.{FindsSound};
ghost use Rattle.operator.specs.Printed.{AppendsOutput, IfWritten};
ghost use Rattle.operator.specs.Tasks.{IsCheck, IsQuestion, Ran};

use crate::escapes::Destination;
use crate::faults::TaskFault;
use crate::foreseeing::{Foresight, print_foreseen};
use crate::inspecting::{Purpose, inspect_all};
use crate::issuing::grant;
use crate::listing_locks::list_locks;
use crate::listing_objects::list_objects;
use crate::listing_tokens::list_tokens;
use crate::listing_usage::list_usage;
use crate::permitting::{AccessQuestion, print_access};
use crate::pruning::prune;
use crate::pushing::{Push, check_push};
use crate::retiring::retire;
use crate::sweeping::sweep;
use names::{Moment, Oid, RepoName, Sink};
use policy::Policy;
use std::alloc::Global;
use std::io::Stderr;
use store::Store;
use tokens::TokenRequest;

/// A command of an operator, ready to run over an open database.
#[derive(Drop)]
pub enum Task<'a> {
    /// Issue a token, for a repository that this policy has.
    Issue(&'a Policy, TokenRequest<'a>),
    /// Remove the tokens that are not valid at the moment.
    Prune(Moment),
    /// Say whether Git may begin.
    May(AccessQuestion<'a>),
    /// Check the paths of a push.
    CheckPush(Push<'a>),
    /// Foresee the reply to a request.
    Foresee(Foresight<'a>),
    /// List the locks of the repository.
    ListLocks(&'a RepoName),
    /// List the objects of the repository.
    ListObjects(&'a RepoName),
    /// List the tokens for the repository that are valid at the moment.
    ListTokens(&'a RepoName, Moment),
    /// Print what each repository of the policy uses, with the tokens that are valid at the moment. Repositories that the
    /// database has and the policy does not are not listed.
    Usage(&'a Policy, Moment),
    /// Hash the objects of all repositories again. Shows how far it is on the terminal, if there is one.
    CheckObjects(Option<&'a Stderr>),
    /// Remove the objects of all repositories that are damaged. Shows how far it is on the terminal, if there is one.
    Repair(Option<&'a Stderr>),
    /// Remove the uploads that were not completed.
    Sweep,
    /// Remove the object of this name from the repository, for good.
    Retire(&'a RepoName, &'a Oid),
}

impl Task<'_> {
    /// Does what the operator asks for, and writes what the command prints. `docs/COMMANDS.md` has the lines. The
    /// destination is what the output writes to: on a terminal, control characters of paths are escaped.
    ///
    /// It takes at most one step of the definitions, and none but its own: a token is issued, the expired ones are removed,
    /// or one object is. It succeeds or fails as the definitions say: if Git may begin, each path may be pushed, or a reply
    /// is foreseen. A repair leaves the tables as they are: each object of a world has the bytes of its name. After an error
    /// the world is the same, but for an `Output` after tokens or an object were removed. A question or a list leaves the
    /// tables as they are, whatever becomes of it. After a check that succeeds, each object has the bytes of its name,
    /// whatever the tables hold. `Ok` means that all output was written: the text that the definitions
    /// have for the command, of the world before it. After a `Reported` of a world the same was written.
    ///
    /// # Errors
    ///
    /// `Store`, `Token`, `NoCaller`, `NoObject` and `Memory`; `Output` if a line could not be written; and `Reported` if
    /// Git may not begin, a path may not be pushed, or an object is damaged.
    pub fn run<S: Store, K: Sink>(
        &self,
        alloc: Global,
        store: &mut S,
        destination: Destination,
        output: &mut K,
    ) -> Result<(), TaskFault>
        ensures world { From S.State store.old store.new (λ world.
            Ran S.State store.old store.new world self.now result) }
        ensures printed { From S.State store.old store.new (λ world. IfWritten result
            (AppendsOutput S.State store.old store.new world destination self.now
            (K.taken output.old) (K.taken output.new))) }
        ensures tables { IsQuestion self.now → KeepsTables S.State store.old store.new }
        ensures sound { OnOk result (IsCheck self.now → FindsSound S.State store.old store.new) }
        ensures good { OnOk result (K.failed output.new ≡ K.failed output.old) }
    {
        match self {
            Task::Issue(policy, asked) => grant(alloc, store, policy, asked, output),
            Task::Prune(now) => prune(store, *now, output),
            Task::May(asked) => print_access(asked, output),
            Task::CheckPush(push) => check_push(alloc, store, push, destination, output),
            Task::Foresee(asked) => print_foreseen(alloc, store, asked, destination, output),
            Task::ListLocks(repo) => list_locks(alloc, store, repo, destination, output),
            Task::ListObjects(repo) => list_objects(alloc, store, repo, output),
            Task::ListTokens(repo, now) => {
                list_tokens(alloc, store, repo, *now, destination, output)
            }
            Task::Usage(policy, now) => list_usage(alloc, store, policy, *now, output),
            Task::CheckObjects(terminal) => {
                inspect_all(alloc, store, Purpose::Check, *terminal, output)
            }
            Task::Repair(terminal) => inspect_all(alloc, store, Purpose::Repair, *terminal, output),
            Task::Sweep => sweep(alloc, store, output),
            Task::Retire(repo, oid) => retire(alloc, store, repo, oid, output),
        }
    }
}
