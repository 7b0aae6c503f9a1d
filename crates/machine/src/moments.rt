//! The moment at which a command works.

ghost use Rattle.std.specs.Prelude.{◌≡◌, IfSome, Ok};
ghost use Rattle.std.specs.Time.{system_time_nanos};
ghost use Rattle.machine.specs.Clocks.{moment_at};

use faults::Fault;
use names::Moment;
use std::rt::Clock;
use std::time::{SystemTime, UNIX_EPOCH};

/// The time, rounded down to whole seconds; `None` if it is past the last moment.
fn moment_at(time: SystemTime) -> Option<Moment>
    ensures { result ≡ moment_at (system_time_nanos time) }
{
    Moment::read(time.duration_since(UNIX_EPOCH).ok()?.as_secs())
}

/// Returns the given moment, else the clock's.
///
/// # Errors
///
/// `Clock` if none was given and the clock's is out of range.
pub fn moment(clock: &impl Clock, given: Option<Moment>) -> Result<Moment, Fault>
    ensures { IfSome given (λ named. result ≡ Ok named) }
{
    match given {
        Some(moment) => Ok(moment),
        None => moment_at(SystemTime::now(clock).map_err(|_| Fault::Clock)?).ok_or(Fault::Clock),
    }
}
