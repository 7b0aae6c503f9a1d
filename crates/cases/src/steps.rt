//! The steps of a case over a store.

use crate::connections::{end, expect_text};
use crate::databases::{Database, With};
use crate::scene::Scene;
use crate::script::Step;
use crate::texts::Names;
use crate::turns::Turn;
use calls::{Fault, Given, call};
use sqlite::Row;
use sqlite_value::value::ValueRef;
use std::alloc::Global;
use store::Store;

/// A store after a step, which is gone if it had to be closed; and what became of the step.
pub(crate) type Left<S> = With<S, ()>;

/// Compares the lines that a call returned with the step's rows; the row `refused` is wanted if the store refuses.
fn expect_lines(
    alloc: Global,
    names: &Names,
    step: &Step,
    found: Result<String, Fault>,
) -> Result<(), Fault> {
    let wanted = names.lines(step.rows.as_slice())?;
    match found {
        Ok(lines) => expect_text(alloc, wanted.as_slice(), lines.as_bytes()),
        Err(Fault::Store(_)) if wanted.as_slice() == b"refused\n".as_slice() => Ok(()),
        Err(fault) => Err(fault),
    }
}

/// Makes the call of the step, and compares. Returns whether the step is a call.
fn make_call<S: Store>(
    alloc: Global,
    store: &mut S,
    scene: &mut Scene,
    names: &Names,
    step: &Step,
    text: &str,
) -> Result<bool, Fault> {
    let Scene {
        policy,
        now,
        most,
        writes,
        hands,
        ..
    } = scene;
    let given = Given {
        alloc,
        now: *now,
        policy: &*policy,
        most: *most,
        writes: *writes,
    };
    let found = match call(&given, store, hands, step.word.as_str(), text) {
        Ok(Some(lines)) => Ok(lines),
        Ok(None) => return Ok(false),
        Err(fault) => Err(fault),
    };
    expect_lines(alloc, names, step, found)?;
    scene.writes = u64::MAX;
    Ok(true)
}

/// Takes a step that is one of the scene or a call of the store.
fn take<S: Store>(
    alloc: Global,
    store: &mut S,
    scene: &mut Scene,
    names: &mut Names,
    step: &Step,
) -> Result<(), Fault> {
    if scene.add(alloc, names, step)? {
        return Ok(());
    }
    let text = names.line(step.rest.as_str())?;
    let text = text.as_str();
    if make_call(alloc, store, scene, names, step, text)? {
        return Ok(());
    }
    match step.word.as_str() {
        "end" => end(alloc, store, scene, names, text),
        word => scene.set(alloc, word, text),
    }
}

/// Appends a value of a row, as a person reads it.
fn push_value(alloc: Global, text: &mut Vec<u8>, value: ValueRef<'_>) -> Result<(), Fault> {
    match value {
        ValueRef::Null => text.extend_from_slice(b"null")?,
        ValueRef::Int(number) => {
            text.extend_from_slice(format!(in alloc; "{number}")?.as_bytes())?;
        }
        ValueRef::Real(_) => text.extend_from_slice(b"a real number")?,
        ValueRef::Text(bytes) | ValueRef::Blob(bytes) => text.extend_from_slice(bytes)?,
    }
    Ok(())
}

/// Appends the values of a row, with `|` between them, and a line end.
fn push_row(alloc: Global, text: &mut Vec<u8>, row: &Row) -> Result<(), Fault> {
    for at in 0..row.column_count() {
        if at > 0 {
            text.extend_from_slice(b"|")?;
        }
        match row.get_ref(at) {
            Ok(value) => push_value(alloc, text, value)?,
            Err(_) => return Err(Fault::Script("a row lacks a value")),
        }
    }
    text.extend_from_slice(b"\n")?;
    Ok(())
}

/// Compares the rows that a query found with those of the step.
fn expect_rows(
    alloc: Global,
    names: &Names,
    step: &Step,
    found: Result<Vec<Row>, Fault>,
) -> Result<(), Fault> {
    let mut text = Vec::new(alloc);
    for row in found?.iter() {
        push_row(alloc, &mut text, row)?;
    }
    let wanted = names.lines(step.rows.as_slice())?;
    expect_text(alloc, wanted.as_slice(), text.as_slice())
}

/// The text of the step's block, or of its line.
fn text_of(names: &mut Names, step: &Step) -> Result<String, Fault> {
    match String::from_utf8(names.of(step, step.rest.as_str())?) {
        Ok(text) => Ok(text),
        Err(_) => Err(Fault::Script("a statement is no text")),
    }
}

/// Takes a step of which the database is asked as a whole: its tables, or a statement.
fn take_whole<S: Database>(
    alloc: Global,
    store: S,
    names: &Names,
    step: &Step,
    text: &str,
) -> Left<S> {
    match step.word.as_str() {
        "tables" => {
            let (store, made) = store.with_tables(alloc);
            (store, expect_lines(alloc, names, step, made))
        }
        "migrate" => {
            let (store, made) = store.migrated(alloc);
            (store, expect_lines(alloc, names, step, made))
        }
        "sql" => store.changed(alloc, text),
        _ => {
            let (store, found) = store.rows(alloc, text);
            (store, expect_rows(alloc, names, step, found))
        }
    }
}

/// The words of the steps of which the database is asked as a whole.
const WHOLE: &[&str] = &["tables", "migrate", "sql", "rows"];

/// Takes the step of a turn.
pub(crate) fn take_turn<S: Database>(
    alloc: Global,
    mut store: S,
    scene: &mut Scene,
    names: &mut Names,
    turn: &Turn<'_>,
) -> Left<S> {
    if let Some(number) = turn.number {
        if let Err(fault) = names.define_number("i", number) {
            return (Some(store), Err(fault));
        }
    }
    let step = turn.step;
    if !WHOLE.iter().any(|word| step.is(word)) {
        let taken = take(alloc, &mut store, scene, names, step);
        return (Some(store), taken);
    }
    match text_of(names, step) {
        Ok(text) => take_whole(alloc, store, names, step, text.as_str()),
        Err(fault) => (Some(store), Err(fault)),
    }
}
