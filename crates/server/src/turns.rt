//! What is done in the turn of a client.

ghost use Rattle.desk.specs.Asking.{setting_of};
ghost use Rattle.server.specs.Jobs.{Converses};

use machine::Conversation;
use names::{Moment, Sink, Source};
use policy::Policy;
use service::{Begun, Routes};
use std::alloc::Global;
use store::Store;

/// Serves the message of a client, by a policy and at a moment.
#[derive(Clone, Copy)]
pub(crate) struct TurnContext<'a> {
    pub alloc: Global,
    pub routes: &'a Routes,
    pub policy: &'a Policy,
    pub now: Moment,
}

impl Conversation for TurnContext<'_> {
    ghost leads = { λ context g talk served later old new world.
        Converses g (setting_of context.policy.now context.now) talk served later old new world };

    fn hold<S: Store, R: Source, K: Sink>(
        &self,
        store: &mut S,
        source: &mut R,
        sink: &mut K,
    ) -> Begun {
        service::begin(
            self.alloc,
            store,
            self.policy,
            self.routes,
            self.now,
            source,
            sink,
        )
    }
}
