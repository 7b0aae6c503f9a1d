//! The command `session`: one connection over the program's own input and output.

ghost use Rattle.std.specs.Prelude.{◌≡◌, OnOk};
ghost use Rattle.desk.specs.Asking.{setting_of};
ghost use Rattle.cli.specs.Sessions.{IsSession, session_ended};

use crate::opening::{Work, open_for};
use crate::starts::Starts;
use command_line::SessionArgs;
use faults::{Fault, is_good};
use machine::{moment, read_policy};
use names::{Moment, Sink, Source};
use policy::Policy;
use service::{End, Routes, serve};
use std::alloc::Global;
use std::rt::HostRuntime;
use store::Store;

/// What a session is served with.
#[derive(Clone, Copy)]
struct SessionContext<'a> {
    policy: &'a Policy,
    routes: &'a Routes,
    now: Moment,
}

/// How the command ends after the connection has.
fn ending(end: End) -> Result<(), Fault>
    ensures { result ≡ session_ended end }
{
    if is_good(end) {
        Ok(())
    } else {
        Err(Fault::Session(end))
    }
}

/// The connection over the program's streams.
#[derive(Drop)]
struct Connection<'a, R> {
    alloc: Global,
    context: &'a SessionContext<'a>,
    input: &'a mut R,
}

impl<R: Source> Work for Connection<'_, R> {
    ghost leads = { λ work g old new world ended. IsSession g
        (setting_of work.context.now.policy.now work.context.now.now) (R.left work.input.now) old new world ended };

    fn closes(&self) -> bool {
        false
    }

    fn run<S: Store, K: Sink>(self, store: &mut S, output: &mut K) -> Result<(), Fault> {
        let Connection {
            alloc,
            context,
            input,
        } = self;
        let (policy, routes) = (context.policy, context.routes);
        let served = serve(alloc, store, policy, routes, context.now, input, output);
        ending(served.end)
    }
}

/// Answers the requests of the input.
///
/// # Errors
///
/// `Clock`, `PolicyFile` and `Policy`, which leave the database unopened; `Store` and `Memory` if it
/// could not be opened; and `Session` if reading or writing failed, or the store within the content of an
/// object: what was answered before remains valid.
pub(crate) fn session<S: Starts, R: Source, K: Sink>(
    rt: &HostRuntime,
    args: &SessionArgs<'_>,
    input: &mut R,
    output: &mut K,
    start: S,
) -> Result<(), Fault>
    ensures { OnOk result (K.failed output.new ≡ K.failed output.old) }
{
    let alloc = rt.alloc();
    let now = moment(rt, args.now)?;
    let policy = read_policy(rt, args.policy)?;
    let routes = Routes::new(alloc)?;
    let context = SessionContext {
        policy: &policy,
        routes: &routes,
        now,
    };
    let connection = Connection {
        alloc,
        context: &context,
        input,
    };
    open_for(rt, args.db, start, connection, output)
}
