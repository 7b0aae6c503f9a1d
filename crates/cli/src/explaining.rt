//! Explains why a command failed.

ghost use Rattle.std.specs.Prelude.{◌≡◌};
ghost use Rattle.faults.specs.Statuses.{status_of, status_of_end};

use causes::{Named, explanation};
use control::Status;
use faults::{Fault, refuse};
use machine::{read_described, read_policy};
use std::io::{self, Write};
use std::rt::HostRuntime;

/// Explains why a command failed, if that is wanted.
#[derive(Clone, Copy)]
pub(crate) struct Explaining<'a> {
    pub rt: &'a HostRuntime,
    /// Whether it is wanted.
    pub is_on: bool,
}

/// Writes a line at once.
pub(crate) fn write_line<E: Write>(errors: &mut E, line: &str) -> io::Result<()> {
    writeln!(errors, "{line}")?;
    errors.flush()
}

impl Explaining<'_> {
    /// What is wrong with the policy that the command names; `None` if that is not the cause, or if there is no memory.
    fn policy_line(&self, fault: &Fault, named: &Named<'_>) -> Option<String> {
        let (rt, path) = (self.rt, named.policy?);
        match fault {
            Fault::Policy(_) => match read_described(rt, path) {
                Err(Fault::PolicyDescribed(_, problem)) => {
                    format!(in rt.alloc(); "{path}: {problem}").ok()
                }
                _ => None,
            },
            Fault::Reported | Fault::NoCaller | Fault::NoMessage => {
                let (repo, policy) = (named.repo?, read_policy(rt, path).ok()?);
                match policy.repo(repo) {
                    Some(_) => None,
                    None => format!(in rt.alloc(); "{path} has no repository {repo}").ok(),
                }
            }
            _ => None,
        }
    }

    /// The line about the cause of a fault; `None` if there is none, or if there is no memory.
    fn line(&self, fault: &Fault, named: &Named<'_>) -> Option<String> {
        if let Some(line) = self.policy_line(fault, named) {
            return Some(line);
        }
        match explanation(self.rt, fault, named) {
            Ok(line) => line,
            Err(_) => None,
        }
    }

    /// Prints a fault and, if that is wanted, a line about its cause. Returns the exit status. A failed print does not
    /// change it.
    pub(crate) fn refuse<E: Write>(
        &self,
        fault: &Fault,
        named: &Named<'_>,
        errors: &mut E,
    ) -> Status
        ensures { result ≡ status_of fault.now }
    {
        let status = refuse(fault, errors);
        if self.is_on
            && let Some(line) = self.line(fault, named)
        {
            let _ = write_line(errors, line.as_str());
        }
        status
    }

    /// Returns the exit status of a command that ended, and prints its fault, if there is one, as [`refuse`](Self::refuse) does.
    pub(crate) fn status_after<E: Write>(
        &self,
        ended: Result<(), Fault>,
        named: &Named<'_>,
        errors: &mut E,
    ) -> Status
        ensures { result ≡ status_of_end ended }
    {
        match ended {
            Ok(()) => Status::Good,
            Err(fault) => self.refuse(&fault, named, errors),
        }
    }
}
