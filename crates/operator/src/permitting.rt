//! Says whether Git may begin for a user.

ghost use Rattle.std.specs.Prelude.{◌≡◌, codes, true, if◌then◌else◌, OnOk, MatchResult};
ghost use Rattle.std.specs.Io.KnownBytes.{Appends};
ghost use Rattle.operator.specs.Listed.{line};
ghost use Rattle.operator.specs.Printed.{IfWritten};
ghost use Rattle.operator.specs.Tasks.{IsAccessFault, may_begin};

use crate::faults::TaskFault;
use crate::output::print;
use names::{RepoName, Sink, UserName};
use policy::{Access, Policy};

/// What Git asks before it begins.
#[derive(Clone, Copy, Debug)]
pub struct AccessQuestion<'a> {
    /// The policy that has the rows.
    pub policy: &'a Policy,
    /// The user who runs Git.
    pub user: &'a UserName,
    /// The repository.
    pub repo: &'a RepoName,
    /// Whether it is to pull or to push.
    pub access: Access,
}

impl AccessQuestion<'_> {
    /// Whether Git may begin.
    fn may_begin(&self) -> bool
        ensures { result ≡ may_begin self.now }
    {
        self.policy.may(self.access, self.user, self.repo)
    }
}

/// Prints `yes` if Git may begin, else `no`. It needs no memory.
///
/// # Errors
///
/// `Output` if the line could not be written, and `Reported` if Git may not begin.
pub(crate) fn print_access<K: Sink>(
    asked: &AccessQuestion<'_>,
    output: &mut K,
) -> Result<(), TaskFault>
    ensures may { MatchResult result (λ _. may_begin asked.now ≡ true) (IsAccessFault asked.now) }
    ensures text { IfWritten result (Appends (K.taken output.old) (K.taken output.new)
        (line (if may_begin asked.now then codes "yes" else codes "no"))) }
    ensures good { OnOk result (K.failed output.new ≡ K.failed output.old) }
{
    if asked.may_begin() {
        return print(output, b"yes\n");
    }
    print(output, b"no\n")?;
    Err(TaskFault::Reported)
}
