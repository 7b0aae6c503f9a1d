//! What becomes of a request, and the reply to it.

ghost use Rattle.std.specs.Prelude.{◌≡◌, true, Err};
ghost use Rattle.desk.specs.declared.outcomes.NotGranted.TheVariants as not_granted;
ghost use Rattle.tables.specs.declared.fault.StoreFault.TheVariants as store;
ghost use Rattle.desk.specs.declared.cases.Denial.TheVariants.{Rule as by_rule};
ghost use Rattle.desk.specs.Done.{RepliesOrDenies};
ghost use Rattle.desk.specs.Receiving.{RefusesUpload, uncalled};
ghost use Rattle.desk.specs.Replies.{ShowsIf};
ghost use Rattle.desk.specs.Rights.{denial_view};

use crate::cases::Denial;
use crate::replies::Reply;
use crate::rights::denial_reply;
use names::Rule;
use std::alloc::{AllocError, Global};
use tables::StoreFault;
use tokens::CallerFault;

/// Why a request is not granted.
#[derive(Clone, Copy, Debug, PartialEq, Eq)]
pub(crate) enum NotGranted {
    /// It is denied.
    Denied(Denial),
    /// The store refused, or memory ran out.
    Store(StoreFault),
}

impl From<Denial> for NotGranted {
    ghost from_gives = { λ denial result. result ≡ not_granted.Denied denial };

    fn from(denial: Denial) -> NotGranted {
        NotGranted::Denied(denial)
    }
}

impl From<Rule> for NotGranted {
    ghost from_gives = { λ rule result. result ≡ not_granted.Denied (by_rule rule) };

    fn from(rule: Rule) -> NotGranted {
        NotGranted::Denied(Denial::Rule(rule))
    }
}

impl From<CallerFault> for NotGranted {
    ghost from_gives = { λ fault result. result ≡ uncalled fault };

    fn from(fault: CallerFault) -> NotGranted {
        match fault {
            CallerFault::Rule(rule) => NotGranted::Denied(Denial::Rule(rule)),
            CallerFault::Store(fault) => NotGranted::Store(fault),
        }
    }
}

impl From<StoreFault> for NotGranted {
    ghost from_gives = { λ refused result. result ≡ not_granted.Store refused };

    fn from(fault: StoreFault) -> NotGranted {
        NotGranted::Store(fault)
    }
}

impl From<AllocError> for NotGranted {
    ghost from_gives = { λ _ result. result ≡ not_granted.Store store.Memory };

    fn from(_error: AllocError) -> NotGranted {
        NotGranted::Store(StoreFault::Memory)
    }
}

/// The reply to a request that is denied; the store refusal if memory runs out for it.
pub(crate) fn denied(alloc: Global, denial: Denial) -> Reply
    ensures shows { ShowsIf (Err (denial_view denial)) result }
    ensures read { result.body_read ≡ true }
{
    match denial_reply(alloc, denial) {
        Ok(reply) => reply.with_body_read(true),
        Err(_) => Reply::store_refused(),
    }
}

/// The reply to a request whose body was read: its own, or that to its denial; the store refusal if the store refused or
/// memory ran out.
pub(crate) fn reply_or_denial(alloc: Global, done: Result<Reply, NotGranted>) -> Reply
    ensures shows { RepliesOrDenies done result }
    ensures read { result.body_read ≡ true }
{
    match done {
        Ok(reply) => reply.with_body_read(true),
        Err(NotGranted::Denied(denial)) => denied(alloc, denial),
        Err(NotGranted::Store(_)) => Reply::store_refused(),
    }
}

/// The reply to an upload that is not granted, whose content is not read; the store refusal if the store refused or memory
/// ran out.
pub(crate) fn refused_upload(alloc: Global, refused: NotGranted) -> Reply
    ensures { RefusesUpload refused result }
{
    match refused {
        NotGranted::Denied(denial) => denied(alloc, denial).with_body_read(false),
        NotGranted::Store(_) => Reply::store_refused(),
    }
}
