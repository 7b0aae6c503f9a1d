//! The message whose reply the command `foresee` prints.

ghost use Rattle.std.specs.Prelude.{◌≡◌, IfOk};
ghost use Rattle.server.specs.Commands.{IsForesightOf};
ghost use Rattle.operator.specs.declared.foreseeing.Foresight.{Foresight};
ghost use Rattle.server.specs.Given.{IsGiven};

use command_line::ForeseeArgs;
use faults::Fault;
use forms::Request;
use names::{Moment, RepoName, Rule};
use operator::{Foresight, Task};
use policy::Policy;
use service::{Asked, Message, Routes, read_message};
use std::alloc::Global;

/// A message about the repository that was asked for.
#[derive(Drop)]
pub struct GivenMessage<'a> {
    /// Its head.
    pub asked: Asked,
    /// What it asks for.
    pub request: Result<Request, Rule>,
    /// Its body.
    pub body: &'a [u8],
}

/// Reads the message of the input.
///
/// # Errors
///
/// `NoMessage` if the input ends before the message does, if a rule refuses it before its token is looked at, or if it
/// asks about another repository; and `Memory`.
pub fn message_in<'a>(
    alloc: Global,
    repo: &RepoName,
    input: &'a [u8],
) -> Result<GivenMessage<'a>, Fault>
    ensures { IfOk result (IsGiven input.now repo.now) }
{
    let routes = Routes::new(alloc)?;
    let Message {
        asked,
        request,
        body,
    } = read_message(alloc, &routes, input)?;
    if asked.repo.as_str() != repo.as_str() {
        return Err(Fault::NoMessage);
    }
    Ok(GivenMessage {
        asked,
        request: Ok(request),
        body,
    })
}

impl GivenMessage<'_> {
    /// Returns the task that foresees the reply to the message, by this policy, at this moment.
    pub fn task<'t>(&'t self, policy: &'t Policy, args: &'t ForeseeArgs, now: Moment) -> Task<'t>
        ensures { (f : Foresight) × (result ≡ Task.Foresee f)
            × IsForesightOf policy.entry.now args.entry.now now self.now f }
    {
        Task::Foresee(Foresight {
            policy,
            user: &args.user,
            repo: &args.repo,
            now,
            request: self.asked.to_desk(&self.request),
            body: self.body,
        })
    }
}
