//! The end of a reply to an operator.

ghost use Rattle.std.specs.Prelude.{◌≡◌, List};
ghost use Rattle.server.specs.Commands.{IsReplied};
ghost use Rattle.server.specs.Jobs.{Call, Calls, seen_in};
ghost use Rattle.faults.specs.Statuses.{status_of_end};

use crate::pieces::Pieces;
use control::Status;
use faults::{Fault, print_fault, refuse};
use machine::Machine;
use outbox::OperatorStream;
use std::alloc::Global;
use std::io::Write;

/// A reply to an operator, which was begun.
#[derive(Clone, Copy)]
pub(crate) struct Reply<'a> {
    pub alloc: Global,
    /// Where the operator is.
    pub stream: &'a OperatorStream,
}

/// The status of a request that ended so. What is said of a fault is added to the text.
fn status_of(ended: Result<(), Fault>, text: &mut Vec<u8>) -> Status
    ensures { result ≡ status_of_end ended }
{
    match ended {
        Ok(()) => Status::Good,
        Err(fault) => refuse(&fault, text),
    }
}

impl Reply<'_> {
    /// Sends the pieces, what a command wrote to its error stream, and then the end of the reply.
    ///
    /// # Errors
    ///
    /// `Operator` if the operator has gone, or if the system has no room for what he has not taken; and `Memory`.
    fn send_end<M: Machine>(
        &self,
        machine: &mut M,
        status: Status,
        text: &[u8],
        mut pieces: Pieces,
    ) -> Result<(), Fault>
        ensures { (calls : List Call) × Calls M.Machine machine.old calls machine.new
            × IsReplied self.now.stream.now status (seen_in calls) }
    {
        pieces.push_errors(text)?;
        pieces.send(machine, self.stream)?;
        machine.end_reply(self.stream, &[status.code()])
    }

    /// Ends the reply to a request that ended so, and reports if that failed.
    pub(crate) fn end<M: Machine, E: Write>(
        &self,
        machine: &mut M,
        ended: Result<(), Fault>,
        pieces: Pieces,
        errors: &mut E,
    )
        ensures { (calls : List Call) × Calls M.Machine machine.old calls machine.new
            × IsReplied self.now.stream.now (status_of_end ended) (seen_in calls) }
    {
        let mut text = Vec::new(self.alloc);
        let status = status_of(ended, &mut text);
        if let Err(fault) = self.send_end(machine, status, text.as_slice(), pieces) {
            let _ = print_fault(&fault, errors);
        }
    }
}
