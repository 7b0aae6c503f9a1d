//! The faults of a policy file: what is wrong, and where.

ghost use Rattle.std.specs.Prelude.{◌≡◌, Some};

use crate::keys::Key;
use std::alloc::{AllocError, AllocFailed};
use std::fmt;
use thiserror::Error;

/// What is wrong.
#[derive(Clone, Copy, Debug, PartialEq, Eq)]
pub enum FaultCode {
    /// The file is not TOML in UTF-8.
    Y1,
    /// A key is unknown or missing, or its value is of the wrong kind.
    Y2,
    /// A value is out of range.
    Y3,
    /// A repository has the name of an earlier one.
    Y4,
    /// The file is too long, or has too many repositories or rows.
    Y5,
}

/// The place of a fault. Repositories and rows count from 1.
#[derive(Clone, Copy, Debug, PartialEq, Eq)]
pub enum Place {
    /// The file as a whole.
    File,
    /// The keys at its top.
    Top,
    /// The repository of this number.
    Repo(u32),
    /// The row of this number.
    Row(u32),
}

/// The first fault of a text that is not a policy.
///
/// Faults are searched in this order: the length of the file, whether it is TOML, the keys at the top,
/// each repository, each row. For a table, its keys and their kinds (Y2) come first, then the ranges of
/// the values (Y3, or Y5 for a count), then the name of a repository (Y4).
#[derive(Clone, Copy, Debug, PartialEq, Eq)]
pub struct Fault {
    /// What is wrong.
    pub code: FaultCode,
    /// The place.
    pub place: Place,
    /// The key; `None` if the fault is not at one of the place's keys.
    pub key: Option<Key>,
}

/// Why a policy was not read.
#[derive(Clone, Copy, Debug, PartialEq, Eq, Error)]
pub enum PolicyFault {
    /// The text is not a policy.
    Refused(Fault),
    /// Memory ran out.
    Memory,
}

/// Writes only the code.
impl fmt::Display for FaultCode {
    ghost use Rattle.policy.specs.Lines.{code_text};

    ghost output = { λ code. Some (code_text code) };

    fn fmt<W: fmt::Write>(&self, f: &mut fmt::Formatter<W>) -> fmt::Result {
        f.write_str(match self {
            FaultCode::Y1 => "Y1",
            FaultCode::Y2 => "Y2",
            FaultCode::Y3 => "Y3",
            FaultCode::Y4 => "Y4",
            FaultCode::Y5 => "Y5",
        })
    }
}

/// Writes the code and the place, as `Y2 at top`, `Y4 at repo 2` and `Y3 at row 1`; only the code if
/// the fault is one of the whole file.
impl fmt::Display for Fault {
    ghost use Rattle.policy.specs.Lines.{fault_text};

    ghost output = { λ fault. Some (fault_text fault) };

    fn fmt<W: fmt::Write>(&self, f: &mut fmt::Formatter<W>) -> fmt::Result {
        let code = self.code;
        match self.place {
            Place::File => write!(f, "{code}"),
            Place::Top => write!(f, "{code} at top"),
            Place::Repo(number) => write!(f, "{code} at repo {number}"),
            Place::Row(number) => write!(f, "{code} at row {number}"),
        }
    }
}

/// Writes the fault, or `no memory`.
impl fmt::Display for PolicyFault {
    ghost use Rattle.policy.specs.Lines.{policy_fault_text};

    ghost output = { λ fault. Some (policy_fault_text fault) };

    fn fmt<W: fmt::Write>(&self, f: &mut fmt::Formatter<W>) -> fmt::Result {
        match self {
            PolicyFault::Refused(fault) => write!(f, "{fault}"),
            PolicyFault::Memory => write!(f, "no memory"),
        }
    }
}

impl From<Fault> for PolicyFault {
    ghost use Rattle.policy.specs.declared.faults.PolicyFault.TheVariants.{Refused};

    ghost from_gives = { λ fault result. result ≡ Refused fault };

    fn from(fault: Fault) -> PolicyFault {
        PolicyFault::Refused(fault)
    }
}

impl From<AllocError> for PolicyFault {
    ghost use Rattle.policy.specs.declared.faults.PolicyFault.TheVariants.{Memory};

    ghost from_gives = { λ _ result. result ≡ Memory };

    fn from(_refused: AllocError) -> PolicyFault {
        PolicyFault::Memory
    }
}

impl<T: Drop> From<AllocFailed<T>> for PolicyFault {
    ghost use Rattle.policy.specs.declared.faults.PolicyFault.TheVariants.{Memory};

    ghost from_gives = { λ _ result. result ≡ Memory };

    fn from(_refused: AllocFailed<T>) -> PolicyFault {
        PolicyFault::Memory
    }
}
