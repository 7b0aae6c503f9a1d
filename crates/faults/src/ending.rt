//! How a command or a connection ends, and what is then printed.

ghost use Rattle.std.specs.Prelude.{◌≡◌};
ghost use Rattle.faults.specs.Statuses.{is_good, status_of, status_of_end};

use crate::faults::Fault;
use control::Status;
use service::End;
use std::io::{self, Write};

/// Prints why a command failed, unless that was reported already.
///
/// # Errors
///
/// That of the error stream.
pub fn print_fault<E: Write>(fault: &Fault, errors: &mut E) -> io::Result<()> {
    match fault {
        Fault::Arguments(text) => write!(errors, "{text}")?,
        Fault::Reported | Fault::ReportedInvalid => {}
        _ => writeln!(errors, "{fault}")?,
    }
    errors.flush()
}

/// Prints the fault, and returns its exit status. A failed print does not change the status.
pub fn refuse<E: Write>(fault: &Fault, errors: &mut E) -> Status
    ensures { result ≡ status_of fault.now }
{
    let _ = print_fault(fault, errors);
    fault.status()
}

/// Returns the exit status of a command that ended, and prints its fault, if there is one. A failed print does not change
/// the status.
pub fn status_after<E: Write>(ended: Result<(), Fault>, errors: &mut E) -> Status
    ensures { result ≡ status_of_end ended }
{
    match ended {
        Ok(()) => Status::Good,
        Err(fault) => refuse(&fault, errors),
    }
}

/// Returns whether a connection ended well.
pub fn is_good(end: End) -> bool
    ensures { result ≡ is_good end }
{
    match end {
        End::InputEnded | End::Closed | End::StoreRefused => true,
        End::ReadFailed | End::WriteFailed | End::StoreFailed => false,
    }
}
