//! A case: its steps, taken over a store in memory.

use crate::databases::{Database, Form, InMemory};
use crate::judging::judge;
use crate::restarting::{is_restart, run_over_files};
use crate::scene::Scene;
use crate::script::Step;
use crate::steps::take_turn;
use crate::stopping::stop;
use crate::texts::Names;
use crate::trying::try_work;
use crate::turns::{Turn, turns};
use calls::Fault;
use placed::Placed;
use sqlite::MemStore;
use sqlite_disk::Memory;
use std::alloc::Global;
use tables::Store;

/// The line of a step, and why it is not as it has to be.
pub(crate) type Located = (usize, Fault);

/// The answer to what a line asks.
pub(crate) fn located<T>(line: usize, answer: Result<T, Fault>) -> Result<T, Located> {
    match answer {
        Ok(value) => Ok(value),
        Err(fault) => Err((line, fault)),
    }
}

/// The form of the databases, the steps with which each case begins, and the most bytes of a read and of a write.
#[derive(Clone, Copy)]
pub(crate) struct Setting<'s> {
    pub alloc: Global,
    pub form: Form,
    pub start: &'s [Step],
    pub most: usize,
}

/// A store in memory, and what a case has beside it.
#[derive(Drop)]
pub(crate) struct World<S> {
    pub store: S,
    pub scene: Scene,
}

impl<S: Database + InMemory> World<S> {
    /// A world without tables.
    fn new(alloc: Global, most: usize) -> Result<World<S>, Fault> {
        Ok(World {
            store: S::new(alloc)?,
            scene: Scene::new(alloc, most)?,
        })
    }

    /// Takes the step of a turn.
    fn take(self, alloc: Global, names: &mut Names, turn: &Turn<'_>) -> Result<World<S>, Located> {
        let World { store, mut scene } = self;
        let (store, taken) = take_turn(alloc, store, &mut scene, names, turn);
        located(turn.step.line, taken)?;
        match store {
            Some(store) => Ok(World { store, scene }),
            None => Err((turn.step.line, Fault::Script("the store is closed"))),
        }
    }

    /// Takes the steps, but those that judge messages.
    fn take_all(
        mut self,
        alloc: Global,
        names: &mut Names,
        steps: &[Step],
    ) -> Result<World<S>, Located> {
        for turn in turns(alloc, steps)?.iter() {
            if !turn.step.is("judge") {
                self = self.take(alloc, names, turn)?;
            }
        }
        Ok(self)
    }
}

/// The world after these steps, all of which are calls or connections.
pub(crate) fn world_after<S: Database + InMemory>(
    setting: Setting<'_>,
    names: &mut Names,
    steps: &[Step],
) -> Result<World<S>, Located> {
    let world: World<S> = located(0, World::new(setting.alloc, setting.most))?;
    let world = world.take_all(setting.alloc, names, setting.start)?;
    world.take_all(setting.alloc, names, steps)
}

/// Takes the steps of a case over files in memory, if it has a step that needs them.
fn run_with_work(
    setting: Setting<'_>,
    names: &mut Names,
    steps: &[Step],
) -> Option<Result<(), Located>> {
    let is_special = |step: &Step| step.is("stop") || step.is("try") || is_restart(step);
    let (first, rest) = steps.split_at(steps.iter().position(is_special)?);
    let (step, rest) = rest.split_first()?;
    Some(match step.word.as_str() {
        "stop" => stop(setting, names, first, step, rest),
        "try" => try_work(setting, names, first, step, rest),
        _ => run_over_files(setting, names, steps),
    })
}

/// Takes the steps of a case over a store in memory. Returns the number of messages that it judges.
fn run_in_memory<S: Database + InMemory>(
    setting: Setting<'_>,
    names: &mut Names,
    steps: &[Step],
) -> Result<u64, Located> {
    let mut judged = 0u64;
    for (at, step) in steps.iter().enumerate() {
        if step.is("judge") {
            let before = steps.get(..at).unwrap_or(&[]);
            judged = judged.saturating_add(judge::<S>(setting, names, before, step)?);
        }
    }
    let world = world_after::<S>(setting, names, steps)?;
    located(0, world.scene.expect_ended())?;
    Ok(judged)
}

/// Takes the steps of a case. Returns the number of messages that it judges.
pub(crate) fn run_steps(
    setting: Setting<'_>,
    names: &mut Names,
    steps: &[Step],
) -> Result<u64, Located> {
    if let Some(taken) = run_with_work(setting, names, steps) {
        taken?;
        return Ok(0);
    }
    match setting.form {
        Form::Rows => run_in_memory::<Store<MemStore>>(setting, names, steps),
        Form::File => run_in_memory::<Placed<Store<MemStore>, Memory>>(setting, names, steps),
    }
}
