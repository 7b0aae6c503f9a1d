//! The commands of an operator, over files that are opened for them.

ghost use Rattle.std.specs.Prelude.{◌≡◌, OnOk};
ghost use Rattle.server.specs.Commands.{RunsAs};

use crate::inputs::read_input;
use crate::opening::{Work, open_for};
use crate::starts::Starts;
use command_line::{Files, ForeseeArgs, OperatorCommand, PushArgs, TokenArgs};
use faults::Fault;
use machine::{moment, read_policy, read_random};
use names::{Sink, Source};
use operator::{Destination, LONGEST_PATHS, Task, repo_at};
use server::{access_question, message_in, plain_task, push_of, token_request};
use service::LONGEST_MESSAGE;
use std::alloc::Global;
use std::io::IsTerminal;
use std::rt::HostRuntime;
use store::Store;

/// A task over the database.
#[derive(Drop)]
struct OperatorTask<'a> {
    alloc: Global,
    task: &'a Task<'a>,
    destination: Destination,
}

impl Work for OperatorTask<'_> {
    ghost leads = { λ work g old new world ended. RunsAs g old new world work.task.now ended };

    fn closes(&self) -> bool {
        false
    }

    fn run<S: Store, K: Sink>(self, store: &mut S, output: &mut K) -> Result<(), Fault> {
        self.task.run(self.alloc, store, self.destination, output)?;
        Ok(())
    }
}

/// Opens the database, and runs the task over it.
fn run_task<S: Starts, K: Sink>(
    rt: &HostRuntime,
    db: &str,
    task: &Task<'_>,
    destination: Destination,
    output: &mut K,
    start: S,
) -> Result<(), Fault>
    ensures { OnOk result (K.failed output.new ≡ K.failed output.old) }
{
    let alloc = rt.alloc();
    let task = OperatorTask {
        alloc,
        task,
        destination,
    };
    open_for(rt, db, start, task, output)
}

/// Issues a token to the user, and prints the line that the client needs.
fn authenticate<S: Starts, K: Sink>(
    rt: &HostRuntime,
    files: &Files<'_>,
    asked: &TokenArgs<'_>,
    output: &mut K,
    start: S,
) -> Result<(), Fault>
    ensures { OnOk result (K.failed output.new ≡ K.failed output.old) }
{
    let now = moment(rt, asked.now)?;
    let policy = read_policy(rt, files.policy)?;
    let repo = repo_at(&policy, asked.path).ok_or(Fault::Repository)?;
    let random = read_random(rt, files.random)?;
    let request = token_request(asked, repo, now, policy.token_seconds(), &random);
    let task = Task::Issue(&policy, request);
    // The line has nothing that a terminal acts on.
    run_task(rt, files.db, &task, Destination::Other, output, start)
}

/// Checks the paths of the input, and prints a verdict for each.
fn push_check<S: Starts, R: Source, K: Sink>(
    rt: &HostRuntime,
    files: &Files<'_>,
    asked: &PushArgs,
    input: &mut R,
    destination: Destination,
    output: &mut K,
    start: S,
) -> Result<(), Fault>
    ensures { OnOk result (K.failed output.new ≡ K.failed output.old) }
{
    let alloc = rt.alloc();
    let policy = read_policy(rt, files.policy)?;
    // The limit is one byte more than a push check takes, so a longer input is refused and not cut.
    let lines = read_input(alloc, input, LONGEST_PATHS as usize)?;
    let push = push_of(alloc, &policy, asked, lines.as_slice())?;
    let task = Task::CheckPush(push);
    run_task(rt, files.db, &task, destination, output, start)
}

/// Prints the reply that the user would get to the message of the input.
fn foresee<S: Starts, R: Source, K: Sink>(
    rt: &HostRuntime,
    files: &Files<'_>,
    asked: &ForeseeArgs,
    input: &mut R,
    destination: Destination,
    output: &mut K,
    start: S,
) -> Result<(), Fault>
    ensures { OnOk result (K.failed output.new ≡ K.failed output.old) }
{
    let alloc = rt.alloc();
    let now = moment(rt, asked.now)?;
    let policy = read_policy(rt, files.policy)?;
    let bytes = read_input(alloc, input, LONGEST_MESSAGE as usize)?;
    let message = message_in(alloc, &asked.repo, bytes.as_slice())?;
    let task = message.task(&policy, asked, now);
    run_task(rt, files.db, &task, destination, output, start)
}

/// Runs a command of an operator over the files, and writes what it prints.
///
/// # Errors
///
/// `Clock`, `PolicyFile`, `Policy`, `Repository`, `Random`, `BadPath`, `TooManyPaths` and `NoMessage`, which leave the
/// database unopened; `Store`, `Token` (K1, K2), `NoCaller`, `NoObject` and `Memory`; `Output` if the input could not
/// be read, or a line not be written; and `Reported` if Git may not begin, a path may not be pushed, or an object is
/// damaged. After any of them the world is as before, but for `Output` after tokens were pruned or an object was
/// retired, and except perhaps if the database failed within the change.
pub(crate) fn operate<S: Starts, R: Source, K: Sink>(
    rt: &HostRuntime,
    files: &Files<'_>,
    command: &OperatorCommand<'_>,
    input: &mut R,
    destination: Destination,
    output: &mut K,
    start: S,
) -> Result<(), Fault>
    ensures { OnOk result (K.failed output.new ≡ K.failed output.old) }
{
    let errors = rt.stderr();
    let terminal = errors.is_terminal().then_some(&errors);
    if let Some(task) = plain_task(command, terminal) {
        return run_task(rt, files.db, &task, destination, output, start);
    }
    match command {
        OperatorCommand::Authenticate(asked) => authenticate(rt, files, asked, output, start),
        OperatorCommand::May(asked) => {
            let policy = read_policy(rt, files.policy)?;
            let task = Task::May(access_question(&policy, asked)?);
            run_task(rt, files.db, &task, destination, output, start)
        }
        OperatorCommand::PushCheck(asked) => {
            push_check(rt, files, asked, input, destination, output, start)
        }
        OperatorCommand::Foresee(asked) => {
            foresee(rt, files, asked, input, destination, output, start)
        }
        OperatorCommand::Prune(named) => {
            let task = Task::Prune(moment(rt, *named)?);
            run_task(rt, files.db, &task, destination, output, start)
        }
        OperatorCommand::Tokens(asked) => {
            let task = Task::ListTokens(&asked.repo, moment(rt, asked.now)?);
            run_task(rt, files.db, &task, destination, output, start)
        }
        OperatorCommand::Usage(named) => {
            let now = moment(rt, *named)?;
            let policy = read_policy(rt, files.policy)?;
            let task = Task::Usage(&policy, now);
            run_task(rt, files.db, &task, destination, output, start)
        }
        // The other commands have a plain task, or are for a server.
        _ => Err(Fault::Request),
    }
}
