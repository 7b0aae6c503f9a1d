//! Answers operators, who call a server on its control socket.

ghost use Rattle.std.specs.Prelude.{◌≡◌, [], ℕ, List, IfOk, OnErr, OnOk, ⊤};
ghost use Rattle.command_line.specs.declared.args.OperatorCommand.TheVariants.{Authenticate, Foresee, Hold, Reload, Status as GetStatus};
ghost use Rattle.refinement.specs.Left.{From, Reads};
ghost use Rattle.server.specs.Commands.{AreReadings, HasEndedSo, IsAnswered, IsDone, IsMomentOf, IsReceived, IsEnded, IsInspection, IsRequestDone, IsSilent, Obeys, RunsAs, became_of};
ghost use Rattle.server.specs.Jobs.{Call, Calls, Helps, seen_in};
ghost use Rattle.metrics.specs.Stored.{IsStored};
ghost use Rattle.policy.specs.Values.{policy_view, repo_view};
ghost use Rattle.server.specs.Numbers.{AllStored};

use crate::foreseeing::message_in;
use crate::outcomes::Outcome;
use crate::pieces::Pieces;
use crate::reply::Reply;
use crate::requests::{access_question, plain_task, push_of, token_request};
use command_line::{ForeseeArgs, OperatorCommand, TokenArgs};
use control::{PrefixFault, Request, VERSION, read_request, refusal_bytes, request_size};
use faults::Fault;
use machine::{Machine, policy_line};
use metrics::{Counts, Stored, status_text};
use names::{Moment, Sink};
use operator::{Destination, Inspection, Purpose, Task, print, repo_at};
use outbox::OperatorStream;
use policy::{Policy, Repo};
use std::alloc::Global;
use std::io::Write;
use std::time::{Clock, Instant};
use store::Store;
use tables::StoreFault;

/// What the command of an operator is run with.
#[derive(Clone, Copy)]
pub(crate) struct OperatorContext<'a> {
    pub alloc: Global,
    pub policy: &'a Policy,
    pub counts: &'a Counts,
    /// Whether an operator waits for the rest of an inspection.
    pub is_busy: bool,
    /// Where the operator is.
    pub stream: &'a OperatorStream,
}

/// Sends to a program of another version that it is one. That program may be gone. What it still sends is dropped.
fn refuse_version<M: Machine>(machine: &mut M, stream: &OperatorStream)
    ensures { (calls : List Call) × Calls M.Machine machine.old calls machine.new
        × IsSilent (seen_in calls) }
{
    let _ = machine.send(stream, refusal_bytes());
    machine.drop_rest(stream);
}

/// Reads the bytes of a request; their number is received before them. A request of another version is refused.
///
/// # Errors
///
/// `Operator` if they did not arrive in time, are too many, or are of another version; and `Memory`.
fn read_body<M: Machine>(
    alloc: Global,
    machine: &mut M,
    stream: &OperatorStream,
    start: Instant,
) -> Result<Vec<u8>, Fault>
    ensures ok { IfOk result (λ body. (calls : List Call)
        × Calls M.Machine machine.old calls machine.new × IsReceived stream.now body.items (seen_in calls)) }
    ensures err { OnErr result ((calls : List Call)
        × Calls M.Machine machine.old calls machine.new × IsSilent (seen_in calls)) }
{
    let mut prefix = [0; 5];
    machine.receive(stream, start, &mut prefix)?;
    let size = match request_size(prefix) {
        Ok(size) => size,
        Err(PrefixFault::OtherVersion) => {
            refuse_version(machine, stream);
            return Err(Fault::Operator);
        }
        Err(PrefixFault::TooLong) => return Err(Fault::Operator),
    };
    let mut body = vec![in alloc; 0; size]?;
    machine.receive(stream, start, &mut body)?;
    Ok(body)
}

/// The given moment, else the machine's.
///
/// # Errors
///
/// `Clock` if none was given and the machine's is out of range.
fn moment_of<M: Machine>(machine: &mut M, given: Option<Moment>) -> Result<Moment, Fault>
    ensures ok { IfOk result (λ now. (calls : List Call)
        × Calls M.Machine machine.old calls machine.new × IsMomentOf given now (seen_in calls)) }
    ensures err { OnErr result ((calls : List Call)
        × Calls M.Machine machine.old calls machine.new × (seen_in calls ≡ [])) }
{
    match given {
        Some(moment) => Ok(moment),
        None => machine.moment(),
    }
}

/// What the repository stores.
fn stored_in<'r, S: Store>(store: &mut S, repo: &'r Repo) -> Result<Stored<'r>, StoreFault>
    ensures { Reads S.State store.old store.new (λ world.
        IfOk result (IsStored world (repo_view repo.entry.now).name)) }
{
    let used = uploads::used(store, repo.name())?;
    let locks_made = locks::made(store, repo.name())?;
    Ok(Stored {
        repo,
        used,
        locks_made,
    })
}

impl OperatorContext<'_> {
    /// Runs a task over the server's store. The program that prints the reply escapes what it prints on a terminal.
    fn work<S: Store, K: Sink>(
        &self,
        store: &mut S,
        task: &Task<'_>,
        output: &mut K,
    ) -> Result<(), Fault>
        ensures done { From S.State store.old store.new (λ world.
            RunsAs S.State store.old store.new world task.now result) }
        ensures good { OnOk result (K.failed output.new ≡ K.failed output.old) }
    {
        task.run(self.alloc, store, Destination::Other, output)?;
        Ok(())
    }

    /// Issues a token by the server's policy.
    fn issue<S: Store, M: Machine, K: Sink>(
        &self,
        store: &mut S,
        machine: &mut M,
        asked: &TokenArgs<'_>,
        output: &mut K,
    ) -> Result<(), Fault>
        ensures done { (input : List ℕ) → From S.State store.old store.new (λ world.
            Helps M.Machine S.State (IsDone self.now.policy.now (Authenticate asked.entry.now) input result)
            store.old store.new machine.old machine.new world) }
        ensures good { OnOk result (K.failed output.new ≡ K.failed output.old) }
    {
        let now = moment_of(machine, asked.now)?;
        let Some(repo) = repo_at(self.policy, asked.path) else {
            return Err(Fault::Repository);
        };
        let random = machine.random()?;
        let request = token_request(asked, repo, now, self.policy.token_seconds(), &random);
        self.work(store, &Task::Issue(self.policy, request), output)
    }

    /// Foresees a reply by the server's policy.
    fn foresee<S: Store, M: Machine, K: Sink>(
        &self,
        store: &mut S,
        machine: &mut M,
        asked: &ForeseeArgs,
        input: &[u8],
        output: &mut K,
    ) -> Result<(), Fault>
        ensures done { From S.State store.old store.new (λ world.
            Helps M.Machine S.State (IsDone self.now.policy.now (Foresee asked.entry.now) input.now result)
            store.old store.new machine.old machine.new world) }
        ensures good { OnOk result (K.failed output.new ≡ K.failed output.old) }
    {
        let now = moment_of(machine, asked.now)?;
        let message = message_in(self.alloc, &asked.repo, input)?;
        self.work(store, &message.task(self.policy, asked, now), output)
    }

    /// Runs a command over the server's store.
    fn run<S: Store, M: Machine, K: Sink>(
        &self,
        store: &mut S,
        machine: &mut M,
        command: &OperatorCommand<'_>,
        input: &[u8],
        output: &mut K,
    ) -> Result<(), Fault>
        ensures done { From S.State store.old store.new (λ world.
            Helps M.Machine S.State (IsDone self.now.policy.now command.now input.now result)
            store.old store.new machine.old machine.new world) }
        ensures good { OnOk result (K.failed output.new ≡ K.failed output.old) }
    {
        if let Some(task) = plain_task(command, None) {
            return self.work(store, &task, output);
        }
        match command {
            OperatorCommand::Authenticate(asked) => self.issue(store, machine, asked, output),
            OperatorCommand::Foresee(asked) => self.foresee(store, machine, asked, input, output),
            OperatorCommand::Prune(named) => {
                let now = moment_of(machine, *named)?;
                self.work(store, &Task::Prune(now), output)
            }
            OperatorCommand::May(asked) => {
                let question = access_question(self.policy, asked)?;
                self.work(store, &Task::May(question), output)
            }
            OperatorCommand::PushCheck(asked) => {
                let push = push_of(self.alloc, self.policy, asked, input)?;
                self.work(store, &Task::CheckPush(push), output)
            }
            OperatorCommand::Tokens(asked) => {
                let now = moment_of(machine, asked.now)?;
                self.work(store, &Task::ListTokens(&asked.repo, now), output)
            }
            OperatorCommand::Usage(named) => {
                let now = moment_of(machine, *named)?;
                self.work(store, &Task::Usage(self.policy, now), output)
            }
            // The other commands have a plain task, or none.
            _ => Err(Fault::Request),
        }
    }

    /// Holds the store still until the operator closes his side, for at most this many seconds. Nobody is served
    /// meanwhile, and the store is not used: its files stay what a stop at that moment leaves.
    ///
    /// # Errors
    ///
    /// `HoldOver` if the time was over before; `Output` and `Operator` if it could not be said that it began, and then it did
    /// not.
    fn hold<M: Machine>(
        &self,
        machine: &mut M,
        seconds: u64,
        output: &mut Pieces,
    ) -> Result<Outcome, Fault>
        ensures done { (calls : List Call) × Calls M.Machine machine.old calls machine.new
            × Obeys self.now.is_busy self.now.stream.now (Hold seconds) result (seen_in calls) }
        ensures good { OnOk result (output.new.failures ≡ output.old.failures) }
    {
        print(output, b"held\n")?;
        output.send(machine, self.stream)?;
        if machine.wait_for(self.stream, seconds) {
            Ok(Outcome::Unchanged)
        } else {
            Err(Fault::HoldOver)
        }
    }

    /// Reads the policy file again.
    ///
    /// # Errors
    ///
    /// `PolicyFile`, `PolicyDescribed` and `Memory`; `Output` and `Operator` if what was read could not be reported. The
    /// policy stays as it was then.
    fn reload<M: Machine>(&self, machine: &mut M, output: &mut Pieces) -> Result<Outcome, Fault>
        ensures done { (calls : List Call) × Calls M.Machine machine.old calls machine.new
            × Obeys self.now.is_busy self.now.stream.now Reload result (seen_in calls) }
        ensures good { OnOk result (output.new.failures ≡ output.old.failures) }
    {
        let policy = machine.policy()?;
        let mut line = policy_line(self.alloc, &policy)?;
        line.push('\n')?;
        print(output, line.as_bytes())?;
        output.send(machine, self.stream)?;
        Ok(Outcome::Reloaded(policy))
    }

    /// What the repositories of the policy store, in their order.
    fn stored<S: Store>(&self, store: &mut S) -> Result<Vec<Stored<'_>>, Fault>
        ensures { Reads S.State store.old store.new (λ world. IfOk result (λ all.
            AllStored world (policy_view self.now.policy.now).repos all.items)) }
    {
        let mut all = Vec::new(self.alloc);
        for repo in self.policy.repos() {
            if all.push(stored_in(store, repo)?).is_err() {
                return Err(Fault::Memory);
            }
        }
        Ok(all)
    }

    /// Prints how the server is, in the text format that Prometheus reads.
    ///
    /// # Errors
    ///
    /// `Store`, `Memory` and `Output`.
    fn print_status<S: Store, M: Machine, K: Sink>(
        &self,
        store: &mut S,
        machine: &mut M,
        output: &mut K,
    ) -> Result<Outcome, Fault>
        ensures done { (input : List ℕ) → From S.State store.old store.new (λ world.
            Helps M.Machine S.State (HasEndedSo self.now.policy.now self.now.is_busy
            self.now.stream.now GetStatus input result)
            store.old store.new machine.old machine.new world) }
        ensures good { OnOk result (K.failed output.new ≡ K.failed output.old) }
    {
        let gauges = machine.gauges();
        let stored = self.stored(store)?;
        let room = store.room()?;
        let text = status_text(self.alloc, self.counts, &gauges, room, stored.as_slice())?;
        print(output, text.as_bytes())?;
        Ok(Outcome::Unchanged)
    }

    /// Begins a check or a repair of all objects. The server goes on with it between the turns of others.
    ///
    /// # Errors
    ///
    /// `Busy` if an operator waits for another one; `Store` and `Memory`.
    fn inspect<S: Store>(&self, store: &mut S, purpose: Purpose) -> Result<Outcome, Fault>
        ensures reads { Reads S.State store.old store.new (λ _. ⊤) }
        ensures ok { IfOk result (λ outcome. IsInspection purpose self.now.is_busy outcome) }
    {
        if self.is_busy {
            return Err(Fault::Busy);
        }
        let inspection = Inspection::begin(self.alloc, store, purpose, true)?;
        Ok(Outcome::Began(inspection))
    }

    /// Obeys a command for the server itself, or runs a command over the server's store.
    fn obey<S: Store, M: Machine>(
        &self,
        store: &mut S,
        machine: &mut M,
        command: &OperatorCommand<'_>,
        input: &[u8],
        output: &mut Pieces,
    ) -> Result<Outcome, Fault>
        ensures done { From S.State store.old store.new (λ world.
            Helps M.Machine S.State (HasEndedSo self.now.policy.now self.now.is_busy
            self.now.stream.now command.now input.now result)
            store.old store.new machine.old machine.new world) }
        ensures good { OnOk result (output.new.failures ≡ output.old.failures) }
    {
        match command {
            OperatorCommand::Check => self.inspect(store, Purpose::Check),
            OperatorCommand::Repair => self.inspect(store, Purpose::Repair),
            OperatorCommand::Hold(seconds) => self.hold(machine, *seconds, output),
            OperatorCommand::Stop => Ok(Outcome::Stopped),
            OperatorCommand::Reload => self.reload(machine, output),
            OperatorCommand::Status => self.print_status(store, machine, output),
            _ => {
                self.run(store, machine, command, input, output)?;
                Ok(Outcome::Unchanged)
            }
        }
    }

    /// Runs the command of a request.
    fn answer<S: Store, M: Machine>(
        &self,
        store: &mut S,
        machine: &mut M,
        body: &[u8],
        output: &mut Pieces,
    ) -> Result<Outcome, Fault>
        ensures done { From S.State store.old store.new (λ world.
            Helps M.Machine S.State (IsRequestDone self.now.policy.now self.now.is_busy
            self.now.stream.now body.now result)
            store.old store.new machine.old machine.new world) }
        ensures good { OnOk result (output.new.failures ≡ output.old.failures) }
    {
        let alloc = self.alloc;
        let Some(Request { input, words }) = read_request(alloc, body)? else {
            return Err(Fault::Request);
        };
        let command = OperatorCommand::read(alloc, words.as_slice())?;
        self.obey(store, machine, &command, input, output)
    }

    /// Ends the reply to a request that ended so, unless an inspection was begun, and reports if that failed. Returns what
    /// becomes of the server.
    fn end<M: Machine, E: Write>(
        &self,
        machine: &mut M,
        ended: Result<Outcome, Fault>,
        pieces: Pieces,
        errors: &mut E,
    ) -> Outcome
        ensures made { result ≡ became_of ended }
        ensures ended { (calls : List Call) × Calls M.Machine machine.old calls machine.new
            × IsEnded self.now.stream.now ended (seen_in calls) }
    {
        let reply = Reply {
            alloc: self.alloc,
            stream: self.stream,
        };
        let outcome = match ended {
            Ok(outcome) => outcome,
            Err(fault) => {
                reply.end(machine, Err(fault), pieces, errors);
                return Outcome::Unchanged;
            }
        };
        if outcome.is_begun() {
            return outcome;
        }
        reply.end(machine, Ok(()), pieces, errors);
        outcome
    }

    /// Answers one request of an operator over the server's store: what the command prints and its status are those that
    /// it has over files. Returns what becomes of the server.
    ///
    /// # Errors
    ///
    /// `Operator` if the request did not arrive in time or is too long, or the reply could not be begun, and `Memory`.
    /// They leave the store. A reply that could not be ended is reported.
    pub fn serve<S: Store, M: Machine, C: Clock, E: Write>(
        &self,
        store: &mut S,
        machine: &mut M,
        clock: &C,
        errors: &mut E,
    ) -> Result<Outcome, Fault>
        ensures { From S.State store.old store.new (λ world.
            Helps M.Machine S.State (IsAnswered self.now.policy.now self.now.is_busy
            self.now.stream.now (became_of result))
            store.old store.new machine.old machine.new world) }
    {
        let start = Instant::now(clock).map_err(|_| Fault::Operator)?;
        let body = read_body(self.alloc, machine, self.stream, start)?;
        machine.send(self.stream, &[VERSION])?;
        let mut pieces = Pieces::new(self.alloc);
        let ended = self.answer(store, machine, body.as_slice(), &mut pieces);
        Ok(self.end(machine, ended, pieces, errors))
    }
}
