//! The order in which the steps of a case are taken.

use crate::running::{Located, located};
use crate::script::Step;
use calls::{Fault, number};
use std::alloc::Global;

/// A step, and the value of the name `i` in it.
#[derive(Clone, Copy)]
pub(crate) struct Turn<'s> {
    pub step: &'s Step,
    pub number: Option<u64>,
}

/// The first and the last number of a repetition.
fn bounds(step: &Step) -> Result<(u64, u64), Fault> {
    let Some((first, last)) = step.rest.as_str().split_once(' ') else {
        return Err(Fault::Script("a repetition has a first and a last number"));
    };
    let (first, last) = (number(first)?, number(last)?);
    if first > last {
        return Err(Fault::Script("a repetition ends before it begins"));
    }
    Ok((first, last))
}

/// Appends the steps for one number.
fn push_steps<'s>(turns: &mut Vec<Turn<'s>>, steps: &'s [Step], number: u64) -> Result<(), Fault> {
    for step in steps.iter() {
        turns.push(Turn {
            step,
            number: Some(number),
        })?;
    }
    Ok(())
}

/// Appends the steps, for each of the numbers.
fn push_repeated<'s>(
    turns: &mut Vec<Turn<'s>>,
    repeat: &Step,
    steps: &'s [Step],
) -> Result<(), Fault> {
    let (first, last) = bounds(repeat)?;
    for number in first..=last {
        push_steps(turns, steps, number)?;
    }
    Ok(())
}

/// The steps in the order in which they are taken: those between `repeat FIRST LAST` and `again` once for each number.
pub(crate) fn turns(alloc: Global, steps: &[Step]) -> Result<Vec<Turn<'_>>, Located> {
    let mut turns = Vec::new(alloc);
    let mut rest = steps;
    for _ in 0..steps.len() {
        let Some((step, after)) = rest.split_first() else {
            break;
        };
        let at = if step.is("repeat") {
            after.iter().position(|step| step.is("again"))
        } else {
            None
        };
        let Some(at) = at else {
            let turn = Turn { step, number: None };
            located(step.line, turns.push(turn).map_err(Fault::from))?;
            rest = after;
            continue;
        };
        let (steps, next) = after.split_at(at);
        located(step.line, push_repeated(&mut turns, step, steps))?;
        rest = next.get(1..).unwrap_or(&[]);
    }
    Ok(turns)
}
