//! The turn of a client: his message is read, and the reply is sent to him.

ghost use Rattle.store.specs.declared.state.State.{Ghosts};
ghost use Rattle.model.specs.World.{World};
ghost use Rattle.refinement.specs.Left.{From};
ghost use Rattle.std.specs.Prelude.{Option};
ghost use Rattle.downloads.specs.declared.download.Download.{Download};
ghost use Rattle.service.specs.declared.ends.Served.{Served};
ghost use Rattle.machine.specs.Observations.{Talk};

use metrics::Turn;
use names::{Sink, Source};
use service::{Begun, Download};
use sockets::Front;
use store::Store;

/// What is done in the turn of a client.
pub trait Conversation {
    /// In this talk, which ended so, and after which the content of this object is left to be sent, the store that held this world was led to the other one.
    ghost leads: { Self → {S : Type 0} → Ghosts S → Talk → Served → Option Download → (old new : S) → World → Type 0 };

    /// Reads what the client sends, and writes what is sent to him.
    fn hold<S: Store, R: Source, K: Sink>(
        &self,
        store: &mut S,
        source: &mut R,
        sink: &mut K,
    ) -> Begun
        ensures { From S.State store.old store.new (λ world. leads self.now S.State
            (record {
              left = R.left source.old;
              rest = R.left source.new;
              was = K.taken sink.old;
              is = K.taken sink.new;
            }) result.served result.later store.old store.new world) };
}

/// What came of the turn of a client.
#[derive(Drop)]
pub struct Talked {
    /// What was done, and how many bytes went each way.
    pub turn: Turn,
    /// What had arrived, and was not read.
    pub front: Front,
    /// The object whose content is left to be sent.
    pub later: Option<Download>,
}
