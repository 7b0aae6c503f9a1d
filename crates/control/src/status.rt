//! The exit status of a command.

ghost use Rattle.std.specs.Prelude.{◌≡◌, ◌≢◌, IfSome, IfNone};
ghost use Rattle.control.specs.Replies.{status_code};

/// How a command ended: its exit status.
#[derive(Clone, Copy, Debug, PartialEq, Eq)]
pub enum Status {
    /// 0: success.
    Good,
    /// 1: something was refused, or failed.
    Refused,
    /// 2: the words are not a command, or a value is out of range.
    Invalid,
}

impl Status {
    /// Returns the exit status as a number: 0, 1 or 2.
    pub fn code(self) -> u8
        ensures { result ≡ status_code self }
    {
        match self {
            Status::Good => 0,
            Status::Refused => 1,
            Status::Invalid => 2,
        }
    }

    /// The status of a number; `None` above 2.
    pub(crate) fn of_code(code: u8) -> Option<Status>
        ensures some { IfSome result (λ status. status_code status ≡ code) }
        ensures none { IfNone result ((status : Status) → status_code status ≢ code) }
    {
        match code {
            0 => Some(Status::Good),
            1 => Some(Status::Refused),
            2 => Some(Status::Invalid),
            _ => None,
        }
    }
}
