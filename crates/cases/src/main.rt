//! The cases of the server: scripts of messages, and of the replies and rows that they have to lead to.
//!
//! The first argument is the form of the databases, `rows`, `file`, or `both` for one after the other. The others are
//! the names of files, `data/` has them, and docs/developing/cases.md describes how they are written. The steps before
//! the first case of the first file begin each case of all files. What differs is printed, and for each form how many
//! cases there were; a row of a table counts as a case.
#![tactic(auto)]

mod connections;
mod copies;
mod databases;
mod files;
mod judging;
mod restarting;
mod running;
mod scene;
mod script;
mod steps;
mod stopping;
mod texts;
mod trying;
mod turns;

use calls::{Fault, number};
use databases::Form;
use running::{Located, Setting, located, run_steps};
use script::{Case, Script, Step, read_script};
use std::alloc::Global;
use std::io::{self, Write};
use std::process::ExitCode;
use std::rt::HostRuntime;
use std::{env, fs};
use texts::Names;

/// How many cases there were, and how many differ.
#[derive(Clone, Copy)]
struct Tally {
    cases: u64,
    differing: u64,
}

/// The limits, in bytes, of a read and of a write with which a case is run, unless it says others.
const PIECES: &str = "1 7 all";

/// The text of the case's step of this word, if it has one.
fn text_of<'c>(case: &'c Case, word: &str) -> Option<&'c str> {
    let step = case.steps.iter().find(|step| step.is(word))?;
    Some(step.rest.as_str())
}

/// The limit of this word.
fn limit(word: &str) -> Result<usize, Fault> {
    match word {
        "all" => Ok(usize::MAX),
        _ => Ok(number(word)? as usize),
    }
}

/// Runs the case with each of its limits. Returns the number of messages that it judges.
fn run_with_limits(
    alloc: Global,
    form: Form,
    names: &mut Names,
    start: &[Step],
    case: &Case,
) -> Result<u64, Located> {
    let mut judged = 0;
    for word in text_of(case, "pieces").unwrap_or(PIECES).split_whitespace() {
        let most = located(0, limit(word))?;
        let steps = case.steps.as_slice();
        let is_fresh = steps.first().is_some_and(|step| step.is("fresh"));
        let start = if is_fresh { &[] } else { start };
        let setting = Setting {
            alloc,
            form,
            start,
            most,
        };
        judged = run_steps(setting, names, steps)?;
    }
    Ok(judged)
}

/// The numbers for which a case is run: those below one that its step `each` has.
fn numbers_of(case: &Case) -> Result<u64, Fault> {
    match text_of(case, "each") {
        Some(text) => number(text),
        None => Ok(1),
    }
}

/// Runs the case for each of its numbers, for which `n` stands. Returns the number of messages that it judges.
fn run_case(
    alloc: Global,
    form: Form,
    names: &mut Names,
    start: &[Step],
    case: &Case,
) -> Result<u64, Located> {
    let numbers = located(0, numbers_of(case))?;
    let mut judged = 0;
    for number in 0..numbers {
        located(0, names.define_number("n", number))?;
        judged = run_with_limits(alloc, form, names, start, case)?;
    }
    Ok(judged)
}

/// Reads the script of this file, for databases of this form.
fn script_of(rt: &HostRuntime, form: Form, file: &str) -> Result<Script, Fault> {
    match fs::read_to_string(rt, file) {
        Ok(text) => read_script(rt.alloc(), form, text.as_str()),
        Err(_) => Err(Fault::Script("the file cannot be read")),
    }
}

/// The scripts that were read for databases of one form: the values of their names, the steps that begin each case, and
/// the tally.
#[derive(Drop)]
struct Run {
    form: Form,
    names: Names,
    start: Option<Vec<Step>>,
    tally: Tally,
}

impl Run {
    /// No script was read.
    fn new(alloc: Global, form: Form) -> Run {
        Run {
            form,
            names: Names::new(alloc),
            start: None,
            tally: Tally {
                cases: 0,
                differing: 0,
            },
        }
    }

    /// Prints why a part of a file is not as it has to be.
    fn differ(&mut self, rt: &HostRuntime, file: &str, title: &str, (line, fault): &Located) {
        self.tally.differing = self.tally.differing.saturating_add(1);
        let form = self.form.word();
        let _ = println!(rt; "{file}:{line}: {form}: {title}: {fault}");
    }

    /// Defines the names of the steps before the first case. The other steps are those that begin each case: the first
    /// file alone has some.
    fn begin(&mut self, mut front: Vec<Step>) -> Result<(), Located> {
        for step in front.iter().filter(|step| step.is("let")) {
            located(step.line, self.names.define_by(step))?;
        }
        front.retain(|step| !step.is("let"));
        match (front.first(), &self.start) {
            (Some(step), Some(_)) => {
                Err((
                    step.line,
                    Fault::Script("only the first file has steps before its cases"),
                ))
            }
            (_, None) => {
                self.start = Some(front);
                Ok(())
            }
            (None, Some(_)) => Ok(()),
        }
    }

    /// Runs the cases.
    fn run(&mut self, rt: &HostRuntime, file: &str, cases: &[Case]) {
        let start = self.start.take().unwrap_or(Vec::new(rt.alloc()));
        for case in cases {
            match run_case(
                rt.alloc(),
                self.form,
                &mut self.names,
                start.as_slice(),
                case,
            ) {
                Ok(judged) => self.tally.cases = self.tally.cases.saturating_add(judged),
                Err(located) => self.differ(rt, file, case.title.as_str(), &located),
            }
            self.tally.cases = self.tally.cases.saturating_add(1);
        }
        self.start = Some(start);
    }

    /// Runs the cases of a file.
    fn run_file(&mut self, rt: &HostRuntime, file: &str) {
        let script = match script_of(rt, self.form, file) {
            Ok(script) => script,
            Err(fault) => return self.differ(rt, file, "the script", &(0, fault)),
        };
        let Script { front, cases } = script;
        match self.begin(front) {
            Ok(()) => self.run(rt, file, cases.as_slice()),
            Err(located) => self.differ(rt, file, "the names", &located),
        }
    }
}

/// Runs the cases of the files over databases of this form, and prints how many there were. Returns whether none
/// differs.
fn run_files(rt: &HostRuntime, form: Form, files: &[String]) -> io::Result<bool> {
    let mut run = Run::new(rt.alloc(), form);
    for file in files {
        run.run_file(rt, file.as_str());
    }
    let Tally { cases, differing } = run.tally;
    let form = form.word();
    println!(rt; "{form}: {cases} cases, {differing} differ")?;
    Ok(differing == 0)
}

/// Runs the cases over databases of the forms of this word. Returns whether none differs.
fn run_forms(rt: &HostRuntime, word: &str, files: &[String]) -> io::Result<bool> {
    if word == "both" {
        let is_same = run_files(rt, Form::Rows, files)?;
        return Ok(run_files(rt, Form::File, files)? && is_same);
    }
    match Form::read(word) {
        Some(form) => run_files(rt, form, files),
        None => {
            println!(rt; "no such form: {word}")?;
            Ok(false)
        }
    }
}

fn main(rt: HostRuntime) -> io::Result<ExitCode> {
    let words: Vec<String> = env::args(&rt)?.skip(1).collect(rt.alloc())?;
    let is_same = match words.as_slice().split_first() {
        Some((word, files)) => run_forms(&rt, word.as_str(), files)?,
        None => false,
    };
    Ok(ExitCode::from(u8::from(!is_same)))
}
