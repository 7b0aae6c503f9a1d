//! Which database has the tables of which version: gives them to one that has none, migrates one of version 1, and
//! detects any other schema. Other tables do not matter.

ghost use Rattle.std.specs.Prelude.{false, ◌≡◌, ◌↔◌, pos, [], ◌∷◌, map, None, IfOk, IsSome, OnErr, OnOk, IsTrue};
ghost use Rattle.sqlite.specs.State.{HasCleanDisk, Survives};
ghost use Rattle.sqlite.specs.Held.{state};
ghost use Rattle.sqlite_catalog.specs.Listing.{IsSound};
ghost use Rattle.sqlite_trees.specs.Objects.{catalog_tree};
ghost use Rattle.tables.specs.Rows as part;
ghost use Rattle.tables.specs.Rows.{Part, name_of};
ghost use Rattle.tables.specs.Layout.{version_of};
ghost use Rattle.tables.specs.Schemas.{HasSome, IsShared, HasAll, HasFirst, is_parent, counts_name};
ghost use Rattle.typed_rows.specs.Queries.{IsFree};
ghost use Rattle.sqlite_schema.specs.Names.{table_named, index_named, view_named};
ghost use Rattle.tables.specs.Statements.{show_meta};
ghost use Rattle.tables.specs.Runs.{HasNoTable, IsForeign, IsUnknown, HasOurs, IsReady, IsOld, current_meta, meta_of, tables_in, LeadsIfBlank, LeadsIfAny, LeavesOurs, LeavesOnly, LeavesMigrated, MakesOrKeeps, Migrates};
ghost use Rattle.typed_rows.specs.Transactions.{Keeps};
ghost use Rattle.tables.specs.Calls.{LooksAtMeta};

use crate::fault::{OpenFault, StoreFault};
use crate::layout::Layout;
use crate::making::{create, create_first, upgrade};
use crate::read::read_meta;
use crate::rows::Migrated;
use crate::storage::Storage;
use schema_compare::{is_referred, same_definition};
use sqlite::{Alter, Connection, Row};
use sqlite_schema::schema::Schema;
use std::alloc::Global;

/// Whether nothing has the name, and no foreign key refers to a table of the name.
fn is_free(schema: &Schema, name: &[u8]) -> bool
    ensures { IsTrue result ↔ (IsFree schema.now name.now × (is_parent schema.now name.now ≡ false)) }
{
    schema.table_named(name).is_none()
        && schema.index_named(name).is_none()
        && schema.view_named(name).is_none()
        && !is_referred(schema.tables.as_slice(), name)
}

/// Whether the schema has none of our tables.
fn has_none(schema: &Schema) -> bool
    ensures meta { IsTrue result → IsFree schema.now (name_of part.meta)
        × (is_parent schema.now (name_of part.meta) ≡ false) }
    ensures repos { IsTrue result → IsFree schema.now (name_of part.repos)
        × (is_parent schema.now (name_of part.repos) ≡ false) }
    ensures tokens { IsTrue result → IsFree schema.now (name_of part.tokens)
        × (is_parent schema.now (name_of part.tokens) ≡ false) }
    ensures uploads { IsTrue result → IsFree schema.now (name_of part.uploads)
        × (is_parent schema.now (name_of part.uploads) ≡ false) }
    ensures chunks { IsTrue result → IsFree schema.now (name_of part.chunks)
        × (is_parent schema.now (name_of part.chunks) ≡ false) }
    ensures locks { IsTrue result → IsFree schema.now (name_of part.locks)
        × (is_parent schema.now (name_of part.locks) ≡ false) }
    ensures retired { IsTrue result → IsFree schema.now (name_of part.retired)
        × (is_parent schema.now (name_of part.retired) ≡ false) }
    ensures unreferred { IsTrue result → is_parent schema.now counts_name ≡ false }
    ensures complete { IsFree schema.now (name_of part.meta) × (is_parent schema.now (name_of part.meta) ≡ false)
        → IsFree schema.now (name_of part.repos) × (is_parent schema.now (name_of part.repos) ≡ false)
        → IsFree schema.now (name_of part.tokens) × (is_parent schema.now (name_of part.tokens) ≡ false)
        → IsFree schema.now (name_of part.uploads) × (is_parent schema.now (name_of part.uploads) ≡ false)
        → IsFree schema.now (name_of part.chunks) × (is_parent schema.now (name_of part.chunks) ≡ false)
        → IsFree schema.now (name_of part.locks) × (is_parent schema.now (name_of part.locks) ≡ false)
        → IsFree schema.now (name_of part.retired) × (is_parent schema.now (name_of part.retired) ≡ false)
        → is_parent schema.now counts_name ≡ false → IsTrue result }
{
    is_free(schema, b"meta")
        && is_free(schema, b"repos")
        && is_free(schema, b"tokens")
        && is_free(schema, b"uploads")
        && is_free(schema, b"chunks")
        && is_free(schema, b"locks")
        && is_free(schema, b"retired")
        && !is_referred(schema.tables.as_slice(), b"sqlite_sequence")
}

/// Whether both schemas have a table of the name, with one definition, and no foreign key of the first refers to it.
#[tactic(auto, using(crate::proofs::Growing::there_in))]
fn has_part(schema: &Schema, ours: &Schema, name: &[u8]) -> bool
    ensures { (part : Part) → name.now ≡ name_of part → HasSome ours.now part
        → IsTrue result ↔ IsShared schema.now ours.now part }
{
    let (Some(at), Some(own)) = (schema.table_named(name), ours.table_named(name)) else {
        return false;
    };
    match (schema.tables.get(at), ours.tables.get(own)) {
        (Some(table), Some(wanted)) => {
            same_definition(wanted, table) && !is_referred(schema.tables.as_slice(), name)
        }
        _ => false,
    }
}

/// Whether the schema has the six tables that all versions have, as the other schema has them.
fn has_six(schema: &Schema, ours: &Schema) -> bool
    ensures meta { HasSome ours.now part.meta → IsTrue result → IsShared schema.now ours.now part.meta }
    ensures repos { HasSome ours.now part.repos → IsTrue result → IsShared schema.now ours.now part.repos }
    ensures tokens { HasSome ours.now part.tokens → IsTrue result → IsShared schema.now ours.now part.tokens }
    ensures uploads { HasSome ours.now part.uploads → IsTrue result → IsShared schema.now ours.now part.uploads }
    ensures chunks { HasSome ours.now part.chunks → IsTrue result → IsShared schema.now ours.now part.chunks }
    ensures locks { HasSome ours.now part.locks → IsTrue result → IsShared schema.now ours.now part.locks }
    ensures counted { IsTrue result → IsSome (table_named schema.now counts_name) }
    ensures unreferred { IsTrue result → is_parent schema.now counts_name ≡ false }
    ensures complete { HasSome ours.now part.meta → IsShared schema.now ours.now part.meta
        → HasSome ours.now part.repos → IsShared schema.now ours.now part.repos
        → HasSome ours.now part.tokens → IsShared schema.now ours.now part.tokens
        → HasSome ours.now part.uploads → IsShared schema.now ours.now part.uploads
        → HasSome ours.now part.chunks → IsShared schema.now ours.now part.chunks
        → HasSome ours.now part.locks → IsShared schema.now ours.now part.locks
        → IsSome (table_named schema.now counts_name)
        → is_parent schema.now counts_name ≡ false → IsTrue result }
{
    has_part(schema, ours, b"meta")
        && has_part(schema, ours, b"repos")
        && has_part(schema, ours, b"tokens")
        && has_part(schema, ours, b"uploads")
        && has_part(schema, ours, b"chunks")
        && has_part(schema, ours, b"locks")
        && schema.table_named(b"sqlite_sequence").is_some()
        && !is_referred(schema.tables.as_slice(), b"sqlite_sequence")
}

/// Whether the name of `retired` is free, and nothing but a table has the name of `meta`, which is made anew.
fn is_clear(schema: &Schema) -> bool
    ensures { IsTrue result ↔ ((IsFree schema.now (name_of part.retired)
        × (is_parent schema.now (name_of part.retired) ≡ false))
        × (index_named schema.now (name_of part.meta) ≡ None)
        × (view_named schema.now (name_of part.meta) ≡ None)) }
{
    is_free(schema, b"retired")
        && schema.index_named(b"meta").is_none()
        && schema.view_named(b"meta").is_none()
}

/// Whether the schema has the tables of version 1, as `create_first` makes them, and can be migrated.
fn has_first(alloc: Global, schema: &Schema) -> Result<bool, StoreFault>
    ensures { IfOk result (λ first. IsTrue first ↔ HasFirst schema.now) }
{
    let Ok(mut made) = Connection::open_in_memory(alloc) else {
        return Err(StoreFault::Memory);
    };
    create_first(&mut made)?;
    if !is_clear(schema) {
        return Ok(false);
    }
    Ok(has_six(schema, made.schema()))
}

/// Whether the schema has the tables of the layout, as `create` makes them.
fn has_all(alloc: Global, schema: &Schema, layout: Layout) -> Result<bool, StoreFault>
    ensures { IfOk result (λ all. IsTrue all ↔ HasAll (version_of layout) schema.now) }
{
    let Ok(mut made) = Connection::open_in_memory(alloc) else {
        return Err(StoreFault::Memory);
    };
    create(&mut made, layout)?;
    let ours = made.schema();
    if !has_part(schema, ours, b"retired") {
        return Ok(false);
    }
    Ok(has_six(schema, ours))
}

/// Whether `meta` has exactly one row, with this number.
fn is_numbered(rows: &[Row], number: u32) -> Result<bool, StoreFault>
    ensures { (metas : _) → rows.now ≡ map show_meta metas → IfOk result
        (λ is. IsTrue is ↔ (metas ≡ record { one = pos 1; version = pos number } ∷ [])) }
{
    let [row] = rows else {
        return Ok(false);
    };
    let one: u32 = row.get(0)?;
    let version: u32 = row.get(1)?;
    Ok(one == 1 && version == number)
}

/// Whether the number of the version in the database is this one.
fn has_number<S: Alter>(conn: &mut Connection<S>, number: u32) -> Result<bool, StoreFault>
    ensures { LooksAtMeta S.Store conn.old conn.new result
        (λ metas is. IsTrue is ↔ (metas ≡ record { one = pos 1; version = pos number } ∷ [])) }
{
    let rows = read_meta(conn)?;
    is_numbered(rows.as_slice(), number)
}

/// Whether the database has none of our tables.
pub(crate) fn is_new<S: Storage>(conn: &Connection<S>) -> bool
    ensures { IsTrue result ↔ HasNoTable (state S.Store conn.now) }
{
    has_none(conn.schema())
}

/// Whether the database has the tables of the layout.
fn has_our_tables<S: Storage>(
    alloc: Global,
    conn: &Connection<S>,
    layout: Layout,
) -> Result<bool, StoreFault>
    requires { IsTrue (state S.Store conn.now).is_open
        → (state S.Store conn.now).now ≡ (state S.Store conn.now).committed }
    ensures ready { IfOk result (λ found. IsTrue found → IsReady (state S.Store conn.now)) }
    ensures same { IfOk result
        (λ found. IsTrue found ↔ HasAll (version_of layout) (state S.Store conn.now).now.schema) }
{
    has_all(alloc, conn.schema(), layout)
}

/// Whether the database has the tables of version 1.
fn has_first_tables<S: Storage>(alloc: Global, conn: &Connection<S>) -> Result<bool, StoreFault>
    requires { IsTrue (state S.Store conn.now).is_open
        → (state S.Store conn.now).now ≡ (state S.Store conn.now).committed }
    ensures ready { IfOk result (λ found. IsTrue found
        → IsTrue (state S.Store conn.now).is_open → IsOld (state S.Store conn.now).now) }
    ensures same { IfOk result
        (λ found. IsTrue found ↔ HasFirst (state S.Store conn.now).now.schema) }
{
    has_first(alloc, conn.schema())
}

/// Gives a database that has none of our tables those of the layout, leaves one that has them, and refuses any other.
pub(crate) fn create_or_check<S: Storage>(
    alloc: Global,
    conn: &mut Connection<S>,
    layout: Layout,
) -> Result<(), OpenFault>
    ensures ready { OnOk result (IsReady (state S.Store conn.new)) }
    ensures version { HasCleanDisk (state S.Store conn.new)
        → OnOk result (IsTrue (state S.Store conn.new).is_open
        → (tables_in (state S.Store conn.new)).meta ≡ meta_of (version_of layout) ∷ []) }
    ensures ok { HasCleanDisk (state S.Store conn.new)
        → OnOk result (MakesOrKeeps (version_of layout) (state S.Store conn.old) (state S.Store conn.new)) }
    ensures err { HasCleanDisk (state S.Store conn.new)
        → OnErr result (Keeps (state S.Store conn.old) (state S.Store conn.new)) }
    ensures unknown { HasCleanDisk (state S.Store conn.new) → result ≡ Err OpenFault.UnknownSchema
        → IsForeign (version_of layout) (state S.Store conn.old) }
    ensures safe { HasCleanDisk (state S.Store conn.new)
        → OnOk result (LeavesOurs (state S.Store conn.new)) }
    ensures only { HasCleanDisk (state S.Store conn.new)
        → OnOk result (LeavesOnly (version_of layout) (state S.Store conn.old) (state S.Store conn.new)) }
    ensures ours { HasCleanDisk (state S.Store conn.new)
        → (schema : _) → HasAll (version_of layout) schema
        → IsSound schema (state S.Store conn.old).committed.trees
        → OnOk result (HasOurs (version_of layout) (state S.Store conn.old)) }
    ensures empty { HasCleanDisk (state S.Store conn.new)
        → (state S.Store conn.old).committed.trees catalog_tree ≡ []
        → OnOk result (HasNoTable (state S.Store conn.old)) }
    ensures survives { Survives (state S.Store conn.old) (state S.Store conn.new)
        (LeadsIfBlank (version_of layout) (state S.Store conn.old)) }
{
    if !conn.is_autocommit() {
        return Err(StoreFault::Refused.into());
    }
    if has_none(conn.schema()) {
        return Ok(create(conn, layout)?);
    }
    if has_our_tables(alloc, conn, layout)? && has_number(conn, layout.number())? {
        Ok(())
    } else {
        Err(OpenFault::UnknownSchema)
    }
}

/// Gives a database of version 1 the tables of version 2, and does to any other what `create_or_check` does.
pub(crate) fn migrate<S: Storage>(
    alloc: Global,
    conn: &mut Connection<S>,
) -> Result<Migrated, OpenFault>
    ensures ready { OnOk result (IsReady (state S.Store conn.new)) }
    ensures version { HasCleanDisk (state S.Store conn.new)
        → OnOk result (IsTrue (state S.Store conn.new).is_open
        → (tables_in (state S.Store conn.new)).meta ≡ current_meta ∷ []) }
    ensures ok { HasCleanDisk (state S.Store conn.new)
        → IfOk result (Migrates (state S.Store conn.old) (state S.Store conn.new)) }
    ensures err { HasCleanDisk (state S.Store conn.new)
        → OnErr result (Keeps (state S.Store conn.old) (state S.Store conn.new)) }
    ensures unknown { HasCleanDisk (state S.Store conn.new) → result ≡ Err OpenFault.UnknownSchema
        → IsUnknown (state S.Store conn.old) }
    ensures safe { HasCleanDisk (state S.Store conn.new)
        → OnOk result (LeavesOurs (state S.Store conn.new)) }
    ensures only { HasCleanDisk (state S.Store conn.new)
        → IfOk result (LeavesMigrated (state S.Store conn.old) (state S.Store conn.new)) }
    ensures survives { Survives (state S.Store conn.old) (state S.Store conn.new)
        (LeadsIfAny (state S.Store conn.old)) }
{
    if !conn.is_autocommit() {
        return Err(StoreFault::Refused.into());
    }
    if !has_first_tables(alloc, conn)? {
        create_or_check(alloc, conn, Layout::Rows)?;
        return Ok(Migrated::Already);
    }
    if !has_number(conn, 1)? {
        return Err(OpenFault::UnknownSchema);
    }
    upgrade(conn)?;
    Ok(Migrated::From1)
}
