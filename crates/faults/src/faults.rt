//! Why the program ends with a status other than 0, and what it then prints.

ghost use Rattle.std.specs.Prelude.{◌≡◌};
ghost use Rattle.faults.specs.Statuses.{status_of};

use crate::contents_cause::ContentsCause;
use command_line::ArgsFault;
use control::{RequestFault, Status};
use operator::{PathsFault, TaskFault};
use policy::PolicyFault;
use policy_review::Problem;
use service::{End, MessageFault};
use std::alloc::AllocError;
use tables::{OpenFault, StoreFault};
use thiserror::Error;
use tokens::TokenFault;

/// Why the program ends with a status other than 0. Each prints one line; the first prints the text of `clap`,
/// `PolicyDescribed` two lines, and the last two none.
#[derive(Debug, Drop, Error)]
pub enum Fault {
    /// The arguments are not a command. The text is `clap`'s, with its own line ends.
    #[error("{0}")]
    Arguments(clap::Error),
    /// A value is not valid for its option; this is the option's name.
    #[error("custody: bad value for {0}")]
    Value(&'static str),
    /// The line of the input with this number is not a path.
    #[error("custody: bad path in line {0}")]
    BadPath(usize),
    /// The input has more lines than a push check takes.
    #[error("custody: too many paths")]
    TooManyPaths,
    /// The input is longer than what a server takes from an operator.
    #[error("custody: input too long: --via takes at most 16 MiB")]
    InputTooLong,
    /// The input does not begin with a whole message about the repository, or a rule from H1 to J4 refuses that.
    #[error("no message")]
    NoMessage,
    /// The message presents no valid token of the user for the repository.
    #[error("no caller")]
    NoCaller,
    /// The repository has no object of the name, and had none that was removed for good.
    #[error("custody: no such object")]
    NoObject,
    /// The machine's clock is out of range.
    #[error("custody: no moment")]
    Clock,
    /// The policy file could not be read.
    #[error("custody: policy not read")]
    PolicyFile,
    /// The file is not a policy.
    #[error("custody: policy {0}")]
    Policy(policy::Fault),
    /// The same of the command `policy`, which adds a line that says where the fault is and how to correct it.
    #[error("custody: policy {0}\n{1}")]
    PolicyDescribed(policy::Fault, Problem),
    /// The policy has no such repository.
    #[error("custody: R1: no such repository")]
    Repository,
    /// The file has fewer random bytes than a token needs, or could not be read.
    #[error("custody: random bytes not read")]
    Random,
    /// The address could not be bound, or no connection could be accepted.
    #[error("custody: network")]
    Network,
    /// The database has tables, and they are not this program's.
    #[error("custody: store G1")]
    UnknownSchema,
    /// The database refused.
    #[error("custody: {0}")]
    Store(StoreFault),
    /// The file of contents is not the one that the database needs.
    #[error("custody: store G2")]
    Contents(ContentsCause),
    /// No token was issued.
    #[error("custody: {0}")]
    Token(TokenFault),
    /// Memory ran out.
    #[error("custody: no memory")]
    Memory,
    /// The input could not be read, or the output not be written completely.
    #[error("custody: input or output")]
    Output,
    /// The session failed.
    #[error("custody: session {0:?}")]
    Session(End),
    /// The control socket could not be made, or not be used.
    #[error("custody: control socket")]
    Control,
    /// An operator's request did not arrive in time, or is too long; or the reply could not be written.
    #[error("custody: operator not answered")]
    Operator,
    /// The server is of another version than the program that asks it.
    #[error("custody: the server has another version")]
    Version,
    /// The time was over for which a server was held.
    #[error("custody: the time of the hold is over")]
    HoldOver,
    /// The server goes on with a check or a repair of another operator.
    #[error("custody: another check or repair runs")]
    Busy,
    /// The server was asked for something that is not a command, or a command that it does not do.
    #[error("custody: bad request")]
    Request,
    /// What is wrong was reported already.
    #[error("reported")]
    Reported,
    /// The server reported that the words or the input are invalid.
    #[error("reported as invalid")]
    ReportedInvalid,
}

impl Fault {
    /// The exit status: `Invalid` for arguments, their values and the lines of the input, here or at the server, and else
    /// `Refused`.
    pub fn status(&self) -> Status
        ensures { result ≡ status_of self.now }
    {
        match self {
            Fault::Arguments(_) | Fault::Value(_) => Status::Invalid,
            Fault::BadPath(_) | Fault::TooManyPaths => Status::Invalid,
            Fault::Request | Fault::InputTooLong => Status::Invalid,
            Fault::NoMessage | Fault::NoCaller | Fault::NoObject => Status::Refused,
            Fault::Clock => Status::Refused,
            Fault::PolicyFile => Status::Refused,
            Fault::Policy(_) | Fault::PolicyDescribed(_, _) => Status::Refused,
            Fault::Repository => Status::Refused,
            Fault::Random => Status::Refused,
            Fault::Network => Status::Refused,
            Fault::UnknownSchema => Status::Refused,
            Fault::Store(_) => Status::Refused,
            Fault::Token(_) => Status::Refused,
            Fault::Contents(_) => Status::Refused,
            Fault::Memory => Status::Refused,
            Fault::Output => Status::Refused,
            Fault::Session(_) => Status::Refused,
            Fault::Control => Status::Refused,
            Fault::Operator => Status::Refused,
            Fault::Version => Status::Refused,
            Fault::HoldOver => Status::Refused,
            Fault::Busy => Status::Refused,
            Fault::Reported => Status::Refused,
            Fault::ReportedInvalid => Status::Invalid,
        }
    }
}

impl From<ArgsFault> for Fault {
    ghost use Rattle.faults.specs.Statuses.{of_args};

    ghost from_gives = { λ fault gives. gives ≡ of_args fault };

    fn from(fault: ArgsFault) -> Fault {
        match fault {
            ArgsFault::Rejected(text) => Fault::Arguments(text),
            ArgsFault::Value(name) => Fault::Value(name),
            ArgsFault::NoCommand => Fault::Request,
            ArgsFault::Memory => Fault::Memory,
        }
    }
}

impl From<PolicyFault> for Fault {
    ghost use Rattle.faults.specs.Statuses.{of_policy};

    ghost from_gives = { λ fault gives. gives ≡ of_policy fault };

    fn from(fault: PolicyFault) -> Fault {
        match fault {
            PolicyFault::Refused(fault) => Fault::Policy(fault),
            PolicyFault::Memory => Fault::Memory,
        }
    }
}

impl From<StoreFault> for Fault {
    ghost use Rattle.faults.specs.Statuses.{of_store};

    ghost from_gives = { λ fault gives. gives ≡ of_store fault };

    fn from(fault: StoreFault) -> Fault {
        match fault {
            StoreFault::Memory => Fault::Memory,
            StoreFault::Refused => Fault::Store(fault),
        }
    }
}

impl From<OpenFault> for Fault {
    ghost use Rattle.faults.specs.Statuses.{of_open};

    ghost from_gives = { λ fault gives. gives ≡ of_open fault };

    fn from(fault: OpenFault) -> Fault {
        match fault {
            OpenFault::UnknownSchema => Fault::UnknownSchema,
            OpenFault::Store(fault) => Fault::from(fault),
        }
    }
}

impl From<TaskFault> for Fault {
    ghost use Rattle.faults.specs.Statuses.{of_task};

    ghost from_gives = { λ fault gives. gives ≡ of_task fault };

    fn from(fault: TaskFault) -> Fault {
        match fault {
            TaskFault::Store(fault) => Fault::Store(fault),
            TaskFault::Token(fault) => Fault::Token(fault),
            TaskFault::NoCaller => Fault::NoCaller,
            TaskFault::NoObject => Fault::NoObject,
            TaskFault::Memory => Fault::Memory,
            TaskFault::Output => Fault::Output,
            TaskFault::Reported => Fault::Reported,
        }
    }
}

impl From<PathsFault> for Fault {
    ghost use Rattle.faults.specs.Statuses.{of_paths};

    ghost from_gives = { λ fault gives. gives ≡ of_paths fault };

    fn from(fault: PathsFault) -> Fault {
        match fault {
            PathsFault::BadPath(line) => Fault::BadPath(line),
            PathsFault::TooMany => Fault::TooManyPaths,
            PathsFault::Memory => Fault::Memory,
        }
    }
}

impl From<MessageFault> for Fault {
    ghost use Rattle.faults.specs.Statuses.{of_message};

    ghost from_gives = { λ fault gives. gives ≡ of_message fault };

    fn from(fault: MessageFault) -> Fault {
        match fault {
            MessageFault::Cut | MessageFault::Refused(_) => Fault::NoMessage,
            MessageFault::Memory => Fault::Memory,
        }
    }
}

impl From<RequestFault> for Fault {
    ghost use Rattle.faults.specs.Statuses.{of_request};

    ghost from_gives = { λ fault gives. gives ≡ of_request fault };

    fn from(fault: RequestFault) -> Fault {
        match fault {
            RequestFault::TooLong => Fault::InputTooLong,
            RequestFault::TooManyWords => Fault::Request,
            RequestFault::Memory => Fault::Memory,
        }
    }
}

impl From<AllocError> for Fault {
    ghost use Rattle.faults.specs.declared.faults.Fault.TheVariants.{Memory};

    ghost from_gives = { λ _ gives. gives ≡ Memory };

    fn from(_refused: AllocError) -> Fault {
        Fault::Memory
    }
}
