//! What a command makes of the server that runs it.

ghost use Rattle.std.specs.Prelude.{◌≡◌};
ghost use Rattle.server.specs.Commands.{is_begun};

use operator::Inspection;
use policy::Policy;

/// What a command of an operator makes of the server.
#[derive(Drop)]
pub enum Outcome {
    /// It goes on as before.
    Unchanged,
    /// It ends.
    Stopped,
    /// It goes on with another policy.
    Reloaded(Policy),
    /// It goes on with an inspection, whose end the operator waits for.
    Began(Inspection),
}

impl Outcome {
    /// Whether an inspection was begun.
    pub(crate) fn is_begun(&self) -> bool
        ensures { result ≡ is_begun self.now }
    {
        matches!(self, Outcome::Began(_))
    }
}
