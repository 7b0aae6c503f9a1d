//! A message that is being read.

ghost use Rattle.std.specs.Prelude.{◌≡◌, ◌≢◌, ℕ, List, [], ◌+◌, ◌<◌, ◌≤◌, length, take, IfOk, IfErr, OnOk, OnErr, Err};
ghost use Rattle.std.specs.Borrow.{sem};
ghost use Rattle.std.specs.Io.KnownBytes.{IsAtEnd};
ghost use Rattle.httparse.specs.Grammar.{RequestHead};
ghost use Rattle.names.specs.Streams.{HasGrown};
ghost use Rattle.wire.specs.Connections.{waiting, IsAt, Moves, SameHead};
ghost use Rattle.wire.specs.Fields.{Shows};

use crate::connection::{Conn, Stop};
use crate::head::Head;
use names::{Body, BodyFault, Source};
use std::alloc::Global;
use thiserror::Error;

/// Why the rest of a body was not read.
#[derive(Clone, Copy, Debug, PartialEq, Eq, Error)]
pub enum WholeFault {
    /// The source ended, or a read failed.
    #[error("{0}")]
    Body(BodyFault),
    /// There is no memory for the body. Nothing was read.
    #[error("no memory")]
    Memory,
}

/// A message whose head was read, and whose body is read through it.
///
/// The part of the body that is not read before this value is dropped stays unread, and
/// [`Conn::next_head`] then returns [`Stop::Unread`].
pub struct Inflow<'c, R: Source + Drop> {
    conn: &'c mut Conn<R>,
}

impl<R: Source + Drop> Drop for Inflow<'_, R> {
    fn drop(self)
        ensures { self.exit.0.now ≡ self.entry.conn.now }
    {
        let Inflow { conn: _ } = self;
    }
}

impl<R: Source + Drop> Conn<R> {
    ghost use Rattle.wire.specs.Lending.{conn_rests};
    ghost use Rattle.wire.specs.Connections.{HasHead, IsStopped};

    /// Reads the head of the next message.
    ///
    /// If the bytes that wait do not decide whether they begin with a head, the source is read until they
    /// do. Nothing is read after that, so bytes that follow the head in the same read wait.
    ///
    /// # Errors
    ///
    /// The [`Stop`]. No byte is handed out, and those that were read wait. After [`Stop::End`] and [`Stop::Rule`] each
    /// further call returns the same and reads nothing. After [`Stop::Device`] a further call reads on.
    pub fn next_head(&mut self) -> Result<Inflow<'_, R>, Stop>
        ensures* stopped { sem 𝓛 (conn_rests R.row R.Source self.entry result
            (λ last. IfErr result (λ stop. IsStopped self.old stop last))) }
        ensures same_reference { IfOk result (λ inflow. inflow.conn.ghost_name ≡ self.entry.ghost_name) }
        ensures head { IfOk result (λ inflow. HasHead self.old inflow.conn.now) }
    {
        self.advance()?;
        Ok(Inflow::new(self))
    }
}

impl<'c, R: Source + Drop> Inflow<'c, R> {
    fn new(conn: &'c mut Conn<R>) -> Inflow<'c, R>
        ensures same_reference { result.conn.ghost_name ≡ conn.entry.ghost_name }
        ensures same { result.conn.now ≡ conn.old }
    {
        Inflow { conn }
    }

    /// Returns the head of the message. It is the same before and after bytes of the body are read.
    pub fn head(&self) -> Head<'_>
        ensures { (head : RequestHead) → IsAt self.now.conn.now head → Shows result head }
    {
        self.conn.head()
    }

    /// Returns the number of bytes of the body that were not read.
    pub fn body_left(&self) -> u64
        ensures { result ≡ self.now.conn.now.left }
    {
        self.conn.body_left()
    }

    /// Reads some bytes of the body into the front of `piece`, and returns how many.
    ///
    /// 0 for a piece with room is the end of the body. The rest of `piece` is unspecified.
    ///
    /// # Errors
    ///
    /// - [`BodyFault::Ended`]: the source ended before the body did.
    /// - [`BodyFault::Device`]: a read failed, and is counted once.
    ///
    /// In both cases no byte was read, and a further call reads on.
    pub fn body_piece(&mut self, piece: &mut [u8]) -> Result<usize, BodyFault>
        ensures same_reference { self.new.conn.ghost_name ≡ self.old.conn.ghost_name }
        ensures within { IfOk result (λ n. (n ≤ length piece.new)
            × (n + self.new.conn.now.left ≡ self.old.conn.now.left)) }
        ensures bytes { IfOk result (λ n. (read : List ℕ)
            × Moves self.old.conn.now self.new.conn.now read (take n piece.new)) }
        ensures some { IfOk result (λ n. n ≡ 0 → 0 < length piece.new → self.old.conn.now.left ≡ 0) }
        ensures err { OnErr result (Moves self.old.conn.now self.new.conn.now [] []
            × (self.new.conn.now.left ≡ self.old.conn.now.left) × (0 < self.old.conn.now.left)
            × (waiting self.new.conn.now ≡ [])) }
        ensures ended { result ≡ Err BodyFault.Ended → IsAtEnd (R.left self.new.conn.now.source) }
        ensures good { result ≢ Err BodyFault.Device
            → R.failed self.new.conn.now.source ≡ R.failed self.old.conn.now.source }
        ensures fault { result ≡ Err BodyFault.Device
            → HasGrown (R.failed self.old.conn.now.source) (R.failed self.new.conn.now.source) }
        ensures same_head { SameHead self.old.conn.now self.new.conn.now }
    {
        self.conn.take_body(piece)
    }

    /// Reads the rest of the body into one vector of its size. An empty rest needs no memory.
    ///
    /// # Errors
    ///
    /// - [`WholeFault::Memory`]: there is no memory for the rest. Nothing was read.
    /// - [`WholeFault::Body`]: the source ended, or a read failed. The bytes that were read are lost,
    ///   and [`Inflow::body_left`] counts those that were not.
    pub fn body_whole(&mut self, alloc: Global) -> Result<Vec<u8>, WholeFault>
        ensures same_reference { self.new.conn.ghost_name ≡ self.old.conn.ghost_name }
        ensures bytes { (read : List ℕ) × (part : List ℕ)
            × Moves self.old.conn.now self.new.conn.now read part
            × (length part + self.new.conn.now.left ≡ self.old.conn.now.left)
            × IfOk result (λ body. part ≡ body.items) }
        ensures whole { OnOk result (self.new.conn.now.left ≡ 0) }
        ensures refused { result ≡ Err WholeFault.Memory → self.new.conn.now ≡ self.old.conn.now }
        ensures err { IfErr result (λ fault. fault ≢ WholeFault.Memory
            → (0 < self.new.conn.now.left) × (waiting self.new.conn.now ≡ [])) }
        ensures ended { result ≡ Err (WholeFault.Body BodyFault.Ended)
            → IsAtEnd (R.left self.new.conn.now.source) }
        ensures good { result ≢ Err (WholeFault.Body BodyFault.Device)
            → R.failed self.new.conn.now.source ≡ R.failed self.old.conn.now.source }
        ensures fault { result ≡ Err (WholeFault.Body BodyFault.Device)
            → HasGrown (R.failed self.old.conn.now.source) (R.failed self.new.conn.now.source) }
        ensures same_head { SameHead self.old.conn.now self.new.conn.now }
    {
        let Ok(mut body) = vec![in alloc; 0; self.body_left() as usize] else {
            return Err(WholeFault::Memory);
        };
        match self.conn.fill_body(&mut body) {
            Ok(()) => Ok(body),
            Err(fault) => Err(WholeFault::Body(fault)),
        }
    }
}

/// The rest of the body, as it arrives.
impl<R: Source + Drop> Body for Inflow<'_, R> {
    ghost use Rattle.std.proofs.Common.{refl, ◌∙◌};
    ghost use Rattle.wire.specs.States.{Hands, by_none, by_both};

    ghost size = { λ i. i.conn.now.left };

    ghost failed = { λ i. R.failed i.conn.now.source };

    ghost moves = { λ old new bytes. (new.conn.ghost_name ≡ old.conn.ghost_name)
        × Hands old.conn.now new.conn.now bytes };

    ghost is_drained = { λ i. waiting i.conn.now ≡ [] };

    ghost is_ended = { λ i. IsAtEnd (R.left i.conn.now.source) };

    fn left(&self) -> u64 {
        self.body_left()
    }

    fn piece(&mut self, piece: &mut [u8]) -> Result<usize, BodyFault> {
        self.body_piece(piece)
    }

    fn failures(&self) -> u64 {
        self.conn.failures()
    }

    ghost moves_none = { λ i. (refl, by_none i.conn.now) };

    ghost moves_on = { λ a b c x y p q. (q.0 ∙ p.0, by_both a.conn.now b.conn.now c.conn.now x y p.1 q.1) };
}
