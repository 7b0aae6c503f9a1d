//! Writes what the commands print.

ghost use Rattle.std.specs.Prelude.{◌≡◌, ◌++◌, [], ◌∷◌, IfErr, OnOk};
ghost use Rattle.std.specs.Io.KnownBytes.{Appends};
ghost use Rattle.operator.specs.Lines.{count_line};
ghost use Rattle.operator.specs.Listed.{line};
ghost use Rattle.operator.specs.Texts.{text_of};
ghost use Rattle.operator.specs.declared.faults.TaskFault.TheVariants.{Output};

use crate::faults::TaskFault;
use arrayvec::ArrayString;
use names::{Sink, write_whole};
use std::alloc::{AllocError, Global};
use std::fmt::Write;

/// Writes a text.
///
/// # Errors
///
/// `Output` if it could not be written completely.
pub fn print<K: Sink>(output: &mut K, text: &[u8]) -> Result<(), TaskFault>
    ensures text { OnOk result (Appends (K.taken output.old) (K.taken output.new) text.now) }
    ensures good { OnOk result (K.failed output.new ≡ K.failed output.old) }
    ensures err { IfErr result (λ fault. fault ≡ Output) }
{
    match write_whole(output, text) {
        Ok(()) => Ok(()),
        Err(_) => Err(TaskFault::Output),
    }
}

/// Writes a line of a verb, a number and what is counted, of at most 32 bytes without the number. It needs no memory, so
/// it can be written after a change.
///
/// # Errors
///
/// `Output` if it could not be written completely.
pub(crate) fn print_count<K: Sink>(
    output: &mut K,
    verb: &str,
    count: u64,
    noun: &str,
) -> Result<(), TaskFault>
    ensures text { OnOk result (Appends (K.taken output.old) (K.taken output.new)
        (line (count_line verb.now count noun.now))) }
    ensures good { OnOk result (K.failed output.new ≡ K.failed output.old) }
    ensures err { IfErr result (λ fault. fault ≡ Output) }
{
    let mut line = ArrayString::<64>::new();
    match writeln!(line, "{verb} {count} {noun}") {
        Ok(()) => print(output, line.as_bytes()),
        Err(_) => Err(TaskFault::Output),
    }
}

/// Lines of output, which are written together.
#[derive(Drop)]
pub struct Lines {
    text: Vec<u8>,
}

impl Lines {
    /// No lines.
    pub fn new(alloc: Global) -> Lines
        ensures { text_of result ≡ [] }
    {
        Lines {
            text: Vec::new(alloc),
        }
    }

    /// Adds a line, and its end.
    ///
    /// # Errors
    ///
    /// Memory ran out.
    pub fn push(&mut self, line: &[u8]) -> Result<(), AllocError>
        ensures { OnOk result (text_of self.new ≡ text_of self.old ++ line.now ++ 10 ∷ []) }
    {
        self.text.extend_from_slice(line)?;
        self.text.push(b'\n')?;
        Ok(())
    }

    /// Writes the lines.
    ///
    /// # Errors
    ///
    /// `Output` if they could not be written completely.
    pub fn write<K: Sink>(&self, output: &mut K) -> Result<(), TaskFault>
        ensures text { OnOk result
            (Appends (K.taken output.old) (K.taken output.new) (text_of self.now)) }
        ensures good { OnOk result (K.failed output.new ≡ K.failed output.old) }
        ensures err { IfErr result (λ fault. fault ≡ Output) }
    {
        print(output, self.text.as_slice())
    }
}
