//! The lines of a script, as its cases and their steps, for databases of one form.

use crate::databases::Form;
use calls::Fault;
use std::alloc::{AllocError, Global};

/// A step: a word, the text after it, and the lines of its block and of its rows.
#[derive(Drop)]
pub(crate) struct Step {
    /// The number of its line, from 1 on.
    pub line: usize,
    pub word: String,
    pub rest: String,
    pub block: Vec<String>,
    pub rows: Vec<String>,
}

impl Step {
    /// The step of a line.
    fn new(alloc: Global, line: usize, text: &str) -> Result<Step, AllocError> {
        let (word, rest) = text.split_once(' ').unwrap_or((text, ""));
        Ok(Step {
            line,
            word: word.to_owned(alloc)?,
            rest: rest.to_owned(alloc)?,
            block: Vec::new(alloc),
            rows: Vec::new(alloc),
        })
    }

    /// Adds a line of the block or of the rows, which begins with this mark.
    fn add(&mut self, alloc: Global, mark: char, text: &str) -> Result<(), AllocError> {
        let text = text.strip_prefix(' ').unwrap_or(text).to_owned(alloc)?;
        if mark == '|' {
            self.block.push(text)?;
        } else {
            self.rows.push(text)?;
        }
        Ok(())
    }

    pub fn is(&self, word: &str) -> bool {
        self.word.as_str() == word
    }
}

/// A case: its title, its steps in order, and whether it is one for the other form alone.
#[derive(Drop)]
pub(crate) struct Case {
    pub title: String,
    pub steps: Vec<Step>,
    is_other: bool,
}

/// A script: the steps before its first case, and its cases.
#[derive(Drop)]
pub(crate) struct Script {
    pub front: Vec<Step>,
    pub cases: Vec<Case>,
}

impl Script {
    /// The steps of the last case; those before the first, if there is none yet.
    fn last_steps(&mut self) -> &mut Vec<Step> {
        match self.cases.last_mut() {
            Some(case) => &mut case.steps,
            None => &mut self.front,
        }
    }

    /// Begins a case.
    fn begin(&mut self, alloc: Global, title: &str) -> Result<(), AllocError> {
        self.cases.push(Case {
            title: title.to_owned(alloc)?,
            steps: Vec::new(alloc),
            is_other: false,
        })?;
        Ok(())
    }

    /// The last case is one for this form alone.
    fn confine(&mut self, form: Form, word: &str) -> Result<(), Fault> {
        match self.cases.last_mut() {
            Some(case) => case.is_other = form_of(word)? != form,
            None => return Err(Fault::Script("only a case is of one form")),
        }
        Ok(())
    }

    /// Adds a line that begins a case or is a step. Returns whether it is one for this form.
    fn add(&mut self, alloc: Global, form: Form, line: usize, text: &str) -> Result<bool, Fault> {
        let (word, rest) = text.split_once(' ').unwrap_or((text, ""));
        match word {
            "case" => self.begin(alloc, rest)?,
            "only" => self.confine(form, rest)?,
            "in" => {
                let (word, step) = rest.split_once(' ').unwrap_or((rest, ""));
                if form_of(word)? != form {
                    return Ok(false);
                }
                self.last_steps().push(Step::new(alloc, line, step)?)?;
            }
            _ => self.last_steps().push(Step::new(alloc, line, text)?)?,
        }
        Ok(true)
    }
}

/// The form of this word.
fn form_of(word: &str) -> Result<Form, Fault> {
    Form::read(word).ok_or(Fault::Script("no such form"))
}

/// The mark of a line that belongs to the step above it, and the text after the mark.
fn marked(line: &str) -> Option<(char, &str)> {
    let mark = line.chars().next()?;
    let rest = line.strip_prefix(mark)?;
    let is_row = mark == '-' && (rest.is_empty() || rest.starts_with(' '));
    (mark == '|' || is_row).then_some((mark, rest))
}

/// The cases of a script for databases of this form. Empty lines and those that begin with `#` say nothing.
///
/// # Errors
///
/// A line of a block or of rows has no step above it, a form has another word, or there is no memory.
pub(crate) fn read_script(alloc: Global, form: Form, text: &str) -> Result<Script, Fault> {
    let mut script = Script {
        front: Vec::new(alloc),
        cases: Vec::new(alloc),
    };
    let mut is_taken = true;
    for (index, line) in text.lines().enumerate() {
        if line.is_empty() || line.starts_with('#') {
            continue;
        }
        match marked(line) {
            Some(_) if !is_taken => {}
            Some((mark, rest)) => match script.last_steps().last_mut() {
                Some(step) => step.add(alloc, mark, rest)?,
                None => return Err(Fault::Script(
                    "a line of a block or of rows has no step above it",
                )),
            },
            None => is_taken = script.add(alloc, form, index.saturating_add(1), line)?,
        }
    }
    script.cases.retain(|case| !case.is_other);
    Ok(script)
}
