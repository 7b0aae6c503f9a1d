//! The command `serve`: connections of a TCP socket, whose messages are served one after the other.

ghost use Rattle.std.specs.Prelude.{◌≡◌, ◌≤◌, OnOk};
ghost use Rattle.refinement.specs.Left.{From};
ghost use Rattle.server.specs.Jobs.{ServesAll};

use crate::opening::{Work, open_for};
use crate::reading::show_start;
use crate::starts::Starts;
use causes::Refusals;
use command_line::ServeArgs;
use faults::{Fault, status_after};
use machine::{ControlSocket, Sockets, read_policy};
use names::Sink;
use operator::print;
use outbox::OperatorStream;
use policy::Policy;
use server::Server;
use service::Routes;
use sockets::{Limits, Queue, listen};
use std::alloc::Global;
use std::io::Write;
use std::net::TcpListener;
use std::os::unix::net::UnixListener;
use std::rt::HostRuntime;
use std::time::{Clock, Duration};
use store::Store;
use tables::Layout;

/// The most connections of clients at a time. With those of operators and the files they fit the 1,024 files that a
/// system usually allows a process.
const CONNECTIONS: usize = 960;

/// Where the callers of a server connect.
#[derive(Clone, Copy)]
pub struct Listeners<'a> {
    /// Clients.
    pub clients: &'a TcpListener,
    /// Operators; `None` for a server without a control socket.
    pub operators: Option<&'a UnixListener>,
}

/// The listeners of a server with a control socket.
fn listeners_of<'x>(clients: &'x TcpListener, operators: &'x UnixListener) -> Listeners<'x> {
    Listeners {
        clients,
        operators: Some(operators),
    }
}

/// Prints that the address is bound and the store is open.
fn print_start<K: Sink>(alloc: Global, address: &str, output: &mut K) -> Result<(), Fault>
    ensures { OnOk result (K.failed output.new ≡ K.failed output.old) }
{
    let line = format!(in alloc; "listening on {address}\n")?;
    print(output, line.as_bytes())?;
    Ok(())
}

/// Prints how many connections were served.
fn print_count<K: Sink>(alloc: Global, served: u64, output: &mut K) -> Result<(), Fault>
    ensures { OnOk result (K.failed output.new ≡ K.failed output.old) }
{
    let line = format!(in alloc; "served {served} connections\n")?;
    print(output, line.as_bytes())?;
    Ok(())
}

/// What the command serves with.
#[derive(Drop)]
struct ServeContext<'a, C> {
    rt: &'a HostRuntime,
    server: &'a Server<'a, C>,
    args: &'a ServeArgs<'a>,
    /// Whether it is reported why the store refuses requests.
    explains: bool,
}

impl<C: Clock> ServeContext<'_, C> {
    /// Serves those who connect at the listeners, first under this policy. Returns the operator who has stopped the server.
    fn serve<S: Store, K: Sink, E: Write>(
        &self,
        store: &mut S,
        policy: Policy,
        listeners: Listeners<'_>,
        output: &mut K,
        errors: &mut E,
    ) -> Result<Option<OperatorStream>, Fault>
        ensures world { From S.State store.old store.new (λ world.
            ServesAll S.State policy store.old store.new world) }
        ensures good { OnOk result (K.failed output.new ≡ K.failed output.old) }
    {
        let limits = Limits {
            idle: Duration::from_secs(self.args.idle),
            connections: CONNECTIONS,
        };
        let Ok(queue) = Queue::new(self.rt, listeners.clients, listeners.operators, limits) else {
            return Err(Fault::Network);
        };
        let mut machine = Sockets {
            rt: self.rt,
            clock: self.server.clock,
            policy: self.args.policy,
            db: self.args.db,
            queue,
            refusals: Refusals::new(self.explains),
        };
        let alloc = self.server.alloc;
        print_start(alloc, self.args.listen, output)?;
        let most = self.args.requests.unwrap_or(u64::MAX);
        let finish = self.server.run(store, &mut machine, policy, most, errors)?;
        print_count(alloc, finish.connections, output)?;
        Ok(finish.stopped_by)
    }

    /// The same with a control socket at the path, which is removed in the end.
    fn serve_controlled<S: Store, K: Sink, E: Write>(
        &self,
        store: &mut S,
        policy: Policy,
        clients: &TcpListener,
        path: &str,
        output: &mut K,
        errors: &mut E,
    ) -> Result<Option<OperatorStream>, Fault>
        ensures world { From S.State store.old store.new (λ world.
            ServesAll S.State policy store.old store.new world) }
        ensures good { OnOk result (K.failed output.new ≡ K.failed output.old) }
    {
        let Ok(control) = ControlSocket::bind(self.rt, path) else {
            return Err(Fault::Control);
        };
        let listeners = listeners_of(clients, control.listener());
        let served = self.serve(store, policy, listeners, output, errors);
        control.remove(self.rt);
        served
    }

    /// Serves with the control socket that the arguments name, if they name one.
    fn serve_at<S: Store, K: Sink, E: Write>(
        &self,
        store: &mut S,
        policy: Policy,
        listeners: Listeners<'_>,
        output: &mut K,
        errors: &mut E,
    ) -> Result<Option<OperatorStream>, Fault>
        ensures world { From S.State store.old store.new (λ world.
            ServesAll S.State policy store.old store.new world) }
        ensures good { OnOk result (K.failed output.new ≡ K.failed output.old) }
    {
        let Some(path) = self.args.control else {
            return self.serve(store, policy, listeners, output, errors);
        };
        self.serve_controlled(store, policy, listeners.clients, path, output, errors)
    }
}

/// The work of the command.
#[derive(Drop)]
struct ServeWork<'a, C, E> {
    context: &'a ServeContext<'a, C>,
    policy: Policy,
    listeners: Listeners<'a>,
    errors: &'a mut E,
    /// The operator who has stopped the server. He waits until the database is closed.
    stopped_by: &'a mut Option<OperatorStream>,
}

impl<C: Clock, E: Write> Work for ServeWork<'_, C, E> {
    ghost leads = { λ work g old new world ended. ServesAll g work.policy old new world };

    fn layout(&self) -> Layout {
        if self.context.args.contents {
            Layout::Places
        } else {
            Layout::Rows
        }
    }

    fn closes(&self) -> bool {
        true
    }

    fn run<S: Store, K: Sink>(self, store: &mut S, output: &mut K) -> Result<(), Fault> {
        let ServeWork {
            context,
            policy,
            listeners,
            errors,
            stopped_by,
        } = self;
        *stopped_by = context.serve_at(store, policy, listeners, output, errors)?;
        Ok(())
    }
}

/// Serves those who connect at the listeners, as [`serve`] does after it has read the policy and bound the address.
fn serve_bound<C: Clock, S: Starts, K: Sink, E: Write>(
    rt: &HostRuntime,
    clock: &C,
    args: &ServeArgs<'_>,
    explains: bool,
    policy: Policy,
    listeners: Listeners<'_>,
    output: &mut K,
    errors: &mut E,
    start: S,
) -> Result<(), Fault>
    ensures { OnOk result (K.failed output.new ≡ K.failed output.old) }
{
    let routes = Routes::new(rt.alloc())?;
    let server = Server {
        alloc: rt.alloc(),
        routes: &routes,
        clock,
    };
    let context = ServeContext {
        rt,
        server: &server,
        args,
        explains,
    };
    let mut operator = None;
    let serving = ServeWork {
        context: &context,
        policy,
        listeners,
        errors,
        stopped_by: &mut operator,
    };
    open_for(rt, args.db, start, serving, output)
}

/// Serves connections to the address, one message after the other. If it explains, it writes on the error stream what it reads
/// at the start, and why the store refuses requests.
///
/// # Errors
///
/// `PolicyFile` and `Policy`, `Network` if the address could not be bound, `Store` and `Memory`, `Control` if the control
/// socket could not be made; then, after some connections, `Network` if no connection could be accepted, and `Clock`; and
/// `Output` if a line could not be written. What was answered before remains valid.
pub(crate) fn serve<S: Starts, K: Sink, E: Write>(
    rt: &HostRuntime,
    args: &ServeArgs<'_>,
    explains: bool,
    output: &mut K,
    errors: &mut E,
    start: S,
) -> Result<(), Fault>
    ensures { OnOk result (K.failed output.new ≡ K.failed output.old) }
{
    let policy = read_policy(rt, args.policy)?;
    let Ok(listener) = listen(rt, args.listen) else {
        return Err(Fault::Network);
    };
    let listeners = Listeners {
        clients: &listener,
        operators: None,
    };
    if explains {
        show_start(rt, &policy, args.db, errors);
    }
    serve_bound(
        rt, rt, args, explains, policy, listeners, output, errors, start,
    )
}

/// Runs the command `serve` over listeners that are bound already, at the moments of a clock, and returns the exit status.
/// `args.listen` is only printed, and `args.control` names a socket in place of that of the listeners.
///
/// The lines are those of [`run`](crate::run).
pub fn serve_listeners<C: Clock, S: Starts, K: Sink, E: Write>(
    rt: &HostRuntime,
    clock: &C,
    args: &ServeArgs<'_>,
    listeners: Listeners<'_>,
    output: &mut K,
    errors: &mut E,
    start: S,
) -> u8
    ensures status { result ≤ 2 }
    ensures good { result ≡ 0 → K.failed output.new ≡ K.failed output.old }
{
    let served = match read_policy(rt, args.policy) {
        Ok(policy) => serve_bound(
            rt, clock, args, false, policy, listeners, output, errors, start,
        ),
        Err(fault) => Err(fault),
    };
    status_after(served, errors).code()
}
