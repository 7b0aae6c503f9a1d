//! Where a server is reached.

ghost use Rattle.std.specs.Prelude.{◌≡◌, ℕ, List, Option, ⊤, IfErr, IfOk};

use faults::Fault;
use names::{Counted, DeviceFault, Sink, Source};
use std::io;
use std::net::Shutdown;
use std::os::unix::net::UnixStream;
use std::rt::HostRuntime;

/// What is written to a server.
pub trait Outlet: Sink {
    /// Closes the connection for writing: the server reads its end.
    ///
    /// # Errors
    ///
    /// `Control` if the connection is lost.
    fn close(&mut self) -> Result<(), Fault>
        ensures same { Self.taken self.new ≡ Self.taken self.old }
        ensures err { IfErr result (λ fault. fault ≡ Fault.Control) };
}

/// A connection to a server.
#[derive(Drop)]
pub struct ServerConnection<W, R> {
    /// What is written to the server.
    pub to: W,
    /// What it sends.
    pub from: R,
}

/// Where a server is reached: at a control socket, or in a test.
///
/// What a connection takes and sends is known only of what `connect` returns. So a function whose result is that of a reply
/// has connected to the server, sent it a request, and read the reply.
pub trait ServerAddress {
    /// What is written to it.
    type To: Outlet + Drop;
    /// What it sends.
    type From: Source + Drop;

    /// A connection to the server begins with these bytes taken, and is to send these, if they are known.
    ghost connects: { Self → (taken left : Option (List ℕ)) → Type 0 };

    /// Connects to the server.
    ///
    /// # Errors
    ///
    /// `Control` if it cannot be reached.
    fn connect(&self) -> Result<ServerConnection<Self::To, Self::From>, Fault>
        ensures ok { IfOk result (λ made.
            connects self.now (Self.To.taken made.to) (Self.From.left made.from)) }
        ensures err { IfErr result (λ fault. fault ≡ Fault.Control) };
}

/// The side of a socket that is written to.
#[derive(Drop)]
pub struct SocketOutlet {
    bytes: Counted<UnixStream>,
    /// The same socket.
    stream: UnixStream,
}

impl Sink for SocketOutlet {
    ghost taken = { λ s. ⟦<Counted<UnixStream> as Sink>⟧.taken s.bytes };

    ghost failed = { λ s. ⟦<Counted<UnixStream> as Sink>⟧.failed s.bytes };

    fn write(&mut self, piece: &[u8]) -> Result<usize, DeviceFault> {
        self.bytes.write(piece)
    }

    fn failures(&self) -> u64 {
        Sink::failures(&self.bytes)
    }
}

impl Outlet for SocketOutlet {
    fn close(&mut self) -> Result<(), Fault> {
        self.stream
            .shutdown(Shutdown::Write)
            .map_err(|_| Fault::Control)
    }
}

/// The control socket of a server.
#[derive(Clone, Copy)]
pub struct ServerSocket<'a> {
    /// For the connection.
    pub rt: &'a HostRuntime,
    /// Its path.
    pub path: &'a str,
}

/// Connects to the socket.
fn connected(
    socket: ServerSocket<'_>,
) -> io::Result<ServerConnection<SocketOutlet, Counted<UnixStream>>> {
    let stream = UnixStream::connect(socket.rt, socket.path)?;
    let to = SocketOutlet {
        bytes: Counted::new(stream.try_clone()?),
        stream: stream.try_clone()?,
    };
    Ok(ServerConnection {
        to,
        from: Counted::new(stream),
    })
}

impl ServerAddress for ServerSocket<'_> {
    type To = SocketOutlet;

    type From = Counted<UnixStream>;

    // No contract says what a socket takes and sends.
    ghost connects = { λ _ _ _. ⊤ };

    fn connect(&self) -> Result<ServerConnection<SocketOutlet, Counted<UnixStream>>, Fault> {
        connected(*self).map_err(|_| Fault::Control)
    }
}
