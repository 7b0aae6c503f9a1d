//! Operators who wait for the end of a check or a repair, while others are served.

ghost use Rattle.std.specs.Prelude.{◌≡◌, ◌≤◌, ⊤, true, vec_len, IfErr, IfOk, List};
ghost use Rattle.refinement.specs.Left.{From, Reads};
ghost use Rattle.server.specs.Commands.{IsClean, IsGoneOn, IsInspectionFault, IsSentOn, operator_in};
ghost use Rattle.server.specs.Jobs.{Call, Calls, Helps, seen_in};

use crate::pieces::Pieces;
use crate::reply::Reply;
use faults::{Fault, print_fault};
use machine::Machine;
use operator::{Advance, Inspection, print};
use outbox::OperatorStream;
use std::alloc::Global;
use std::io::Write;
use store::Store;

/// An operator who waits for the rest of an inspection.
#[derive(Drop)]
pub(crate) struct Waiting {
    pub stream: OperatorStream,
    pub inspection: Inspection,
}

/// Goes on with an inspection, and adds what it prints to the pieces, and how far it is. Returns whether it is done.
fn advance<S: Store>(
    alloc: Global,
    store: &mut S,
    inspection: &mut Inspection,
    pieces: &mut Pieces,
) -> Result<bool, Fault>
    ensures world { From S.State store.old store.new (λ _. Reads S.State store.old store.new (λ _. ⊤)
        × (inspection.old.damaged ≡ 0
        → (inspection.new.damaged ≡ 0) × IfErr result IsInspectionFault)) }
    ensures rows { inspection.new.rows ≡ inspection.old.rows }
    ensures done { IfOk result (λ is_done. is_done ≡ true
        → vec_len inspection.new.rows ≤ inspection.new.next) }
{
    match inspection.advance(alloc, store)? {
        Advance::More => {}
        Advance::Damaged(line) | Advance::Unreadable(line) => print(pieces, line.as_bytes())?,
        Advance::Done => {
            inspection.finish(pieces)?;
            return Ok(true);
        }
    }
    let text = inspection.progress(alloc)?;
    pieces.push_progress(text.as_bytes())?;
    Ok(false)
}

/// Sends the operator the pieces of his reply, and reports if that failed. Returns him if he waits for the rest.
fn send_on<M: Machine, E: Write>(
    machine: &mut M,
    stream: OperatorStream,
    inspection: Inspection,
    mut pieces: Pieces,
    errors: &mut E,
) -> Option<Waiting>
    ensures sent { (calls : List Call) × Calls M.Machine machine.old calls machine.new
        × IsSentOn stream result (seen_in calls) }
    ensures clean { inspection.damaged ≡ 0 → IsClean result }
{
    if let Err(fault) = pieces.send(machine, &stream) {
        let _ = print_fault(&fault, errors);
        return None;
    }
    Some(Waiting { stream, inspection })
}

impl Waiting {
    /// Goes on with the inspection: about 1 MiB, or 64 objects. If it has ended, so does the reply, and nobody waits; and
    /// nobody waits if the operator has gone.
    pub(crate) fn go_on<S: Store, M: Machine, E: Write>(
        self,
        alloc: Global,
        store: &mut S,
        machine: &mut M,
        errors: &mut E,
    ) -> Option<Waiting>
        ensures { From S.State store.old store.new (λ world. self.inspection.damaged ≡ 0
            → Helps M.Machine S.State (IsGoneOn self.stream (operator_in result))
            store.old store.new machine.old machine.new world × IsClean result) }
    {
        let Waiting {
            stream,
            mut inspection,
        } = self;
        let mut pieces = Pieces::new(alloc);
        let advanced = advance(alloc, store, &mut inspection, &mut pieces);
        let ended = match advanced {
            Ok(false) => return send_on(machine, stream, inspection, pieces, errors),
            Ok(true) => Ok(()),
            Err(fault) => Err(fault),
        };
        let reply = Reply {
            alloc,
            stream: &stream,
        };
        reply.end(machine, ended, pieces, errors);
        None
    }
}
