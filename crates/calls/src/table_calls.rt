//! Calls about the tables of a database as a whole.

use crate::fault::Fault;
use std::alloc::Global;
use tables::{Layout, Migrated, OpenFault, Storage, Store};

/// The line of a schema that is not ours.
fn line(alloc: Global, fault: OpenFault) -> Result<String, Fault> {
    match fault {
        OpenFault::UnknownSchema => Ok(format!(in alloc; "{fault}\n")?),
        OpenFault::Store(fault) => Err(fault.into()),
    }
}

/// Creates or checks the tables of this layout.
///
/// # Errors
///
/// `Store` and `Memory`.
pub fn create<S: Storage>(
    alloc: Global,
    store: &mut Store<S>,
    layout: Layout,
) -> Result<String, Fault> {
    match store.create_or_check(alloc, layout) {
        Ok(()) => Ok(String::new(alloc)),
        Err(fault) => line(alloc, fault),
    }
}

/// Gives tables of version 1 those of version 2.
///
/// # Errors
///
/// `Store` and `Memory`.
pub fn migrate<S: Storage>(alloc: Global, store: &mut Store<S>) -> Result<String, Fault> {
    match store.migrate(alloc) {
        Ok(Migrated::From1) => Ok("from 1\n".to_owned(alloc)?),
        Ok(Migrated::Already) => Ok("already\n".to_owned(alloc)?),
        Err(fault) => line(alloc, fault),
    }
}
