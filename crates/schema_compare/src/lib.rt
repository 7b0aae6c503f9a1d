//! Compares the tables of two databases.
//!
//! A custody server keeps a studio's locks, tokens and large files in one database file, which may have tables of other
//! programs too. Before it uses a file that it did not make itself, it compares the definitions of its tables with its
//! own: names, columns and their types, keys, unique constraints and checks. A file in which another program, or
//! another version, has defined one of them is then refused before anything is read from it or written to it.
//!
//! If the result is that two definitions are the same, they are equal in every part but the number of the tree that has
//! the table's rows. If they are, that is the result, unless they have floats, foreign keys or defaults that read the
//! time, which never count as the same.
#![tactic(auto)]

ghost use Rattle.std.specs.Prelude.{◌≡◌, ◌↔◌, ◌-◌, true, IsTrue};
ghost use Rattle.std.specs.List.{list_all, list_any};
ghost use Rattle.sqlite_schema.specs.Names.{same_name as same_name'};
ghost use Rattle.sqlite_value.specs.declared.value.Value.TheVariants.{Null};
ghost use Rattle.sqlite_schema.specs.Code.{op_term, term_to, terms_in};
ghost use Rattle.schema_compare.specs.Plain.{is_plain_value, is_plain_term, is_plain_column, is_plain_stamps, is_plain_table};

use sqlite_items::Items;
use sqlite_schema::code::{Op, Terms};
use sqlite_schema::names::same_name;
use sqlite_schema::schema::{Column, Reference, Stamps, Table};
use sqlite_value::keys::Order;
use sqlite_value::value::Value;

/// Whether the values are equal. Floats never count as the same.
fn same_value(a: &Value, b: &Value) -> bool
    ensures same { IsTrue result → a.now ≡ b.now }
    ensures complete { is_plain_value a.now ≡ true → a.now ≡ b.now → IsTrue result }
{
    match a {
        Value::Null => matches!(b, Value::Null),
        Value::Int(m) => match b {
            Value::Int(n) => *m == *n,
            _ => false,
        },
        Value::Real(_) => false,
        Value::Text(s) => match b {
            Value::Text(t) => s.as_slice() == t.as_slice(),
            _ => false,
        },
        Value::Blob(s) => match b {
            Value::Blob(t) => s.as_slice() == t.as_slice(),
            _ => false,
        },
    }
}

/// The node at a place of a term that is read to a depth. Past the end it is NULL.
fn node_at<'a>(nodes: &'a [Op], null: &'a Op, depth: usize, at: usize) -> &'a Op
    requires { null.now ≡ Op.Literal Null }
    ensures { term_to nodes.now depth at ≡ op_term (term_to nodes.now (depth - 1)) result.now }
{
    if depth == 0 {
        return null;
    }
    match nodes.get(at) {
        Some(node) => node,
        None => null,
    }
}

fn is_null(node: &Op) -> bool
    ensures { IsTrue result ↔ (node.now ≡ Op.Literal Null) }
{
    match node {
        Op::Literal(Value::Null) => true,
        _ => false,
    }
}

/// Whether two expressions are the same. Each is given by its nodes, the depth to which it is read, and its place.
fn same_term(
    a: &[Op],
    b: &[Op],
    null: &Op,
    depth: usize,
    other: usize,
    at: usize,
    place: usize,
) -> bool
    requires { null.now ≡ Op.Literal Null }
    ensures same { IsTrue result → term_to a.now depth at ≡ term_to b.now other place }
    ensures complete { is_plain_term (term_to a.now depth at) ≡ true → term_to a.now depth at
        ≡ term_to b.now other place → IsTrue result }
{
    let node = node_at(a, null, depth, at);
    let peer = node_at(b, null, other, place);
    if depth == 0 || other == 0 {
        return is_null(node) && is_null(peer);
    }
    match node {
        Op::Literal(v) => match peer {
            Op::Literal(w) => same_value(v, w),
            _ => false,
        },
        Op::Column(slot, column) => match peer {
            Op::Column(s, c) => *slot == *s && *column == *c,
            _ => false,
        },
        Op::Unary(op, x) => match peer {
            Op::Unary(o, y) => *op == *o && same_term(a, b, null, depth - 1, other - 1, *x, *y),
            _ => false,
        },
        Op::Binary(op, x, y) => match peer {
            Op::Binary(o, u, v) => {
                *op == *o
                    && same_term(a, b, null, depth - 1, other - 1, *x, *u)
                    && same_term(a, b, null, depth - 1, other - 1, *y, *v)
            }
            _ => false,
        },
        Op::Case(t, x, y) => match peer {
            Op::Case(u, v, w) => {
                same_term(a, b, null, depth - 1, other - 1, *t, *u)
                    && same_term(a, b, null, depth - 1, other - 1, *x, *v)
                    && same_term(a, b, null, depth - 1, other - 1, *y, *w)
            }
            _ => false,
        },
    }
}

fn same_terms_at(a: &[Op], b: &[Op], null: &Op, places: &[usize], others: &[usize]) -> bool
    requires { null.now ≡ Op.Literal Null }
    ensures same { IsTrue result → terms_in a.now places.now ≡ terms_in b.now others.now }
    ensures complete { list_all is_plain_term (terms_in a.now places.now) ≡ true
        → terms_in a.now places.now ≡ terms_in b.now others.now → IsTrue result }
{
    match (places, others) {
        ([], []) => true,
        ([x, xs @ ..], [y, ys @ ..]) => {
            same_term(a, b, null, a.len(), b.len(), *x, *y) && same_terms_at(a, b, null, xs, ys)
        }
        _ => false,
    }
}

fn same_terms(a: &Terms, b: &Terms) -> bool
    ensures same { IsTrue result → a.now ≡ b.now }
    ensures complete { list_all is_plain_term a.now ≡ true → a.now ≡ b.now → IsTrue result }
{
    let null = Op::Literal(Value::Null);
    same_terms_at(
        a.nodes.as_slice(),
        b.nodes.as_slice(),
        &null,
        a.roots.as_slice(),
        b.roots.as_slice(),
    )
}

fn same_column(a: &Column, b: &Column) -> bool
    ensures same { IsTrue result → a.now ≡ b.now }
    ensures complete { is_plain_column a.now ≡ true → a.now ≡ b.now → IsTrue result }
{
    a.name.as_slice() == b.name.as_slice()
        && a.kind == b.kind
        && a.is_strict == b.is_strict
        && a.not_null == b.not_null
        && same_value(&a.default, &b.default)
        && a.collation == b.collation
}

fn same_columns(a: &[Column], b: &[Column]) -> bool
    ensures same { IsTrue result → a.now ≡ b.now }
    ensures complete { list_all is_plain_column a.now ≡ true → a.now ≡ b.now → IsTrue result }
{
    match (a, b) {
        ([], []) => true,
        ([x, xs @ ..], [y, ys @ ..]) => same_column(x, y) && same_columns(xs, ys),
        _ => false,
    }
}

fn same_numbers(a: &Items<usize>, b: &Items<usize>) -> bool
    ensures same { IsTrue result → a.now ≡ b.now }
    ensures complete { a.now ≡ b.now → IsTrue result }
{
    a.as_slice() == b.as_slice()
}

fn same_places(a: &[Items<usize>], b: &[Items<usize>]) -> bool
    ensures same { IsTrue result → a.now ≡ b.now }
    ensures complete { a.now ≡ b.now → IsTrue result }
{
    match (a, b) {
        ([], []) => true,
        ([x, xs @ ..], [y, ys @ ..]) => same_numbers(x, y) && same_places(xs, ys),
        _ => false,
    }
}

/// Whether the defaults agree. Defaults that read the time never count as the same.
fn same_stamps(a: &Stamps, b: &Stamps) -> bool
    ensures same { IsTrue result → a.now ≡ b.now }
    ensures complete { is_plain_stamps a.now ≡ true → a.now ≡ b.now → IsTrue result }
{
    a.places.as_slice() == b.places.as_slice()
        && same_terms(&a.terms, &b.terms)
        && a.formats.is_empty()
        && b.formats.is_empty()
}

fn same_orders(a: &[Order], b: &[Order]) -> bool
    ensures same { IsTrue result → a.now ≡ b.now }
    ensures complete { a.now ≡ b.now → IsTrue result }
{
    match (a, b) {
        ([], []) => true,
        ([x, xs @ ..], [y, ys @ ..]) => x.digits == y.digits && same_orders(xs, ys),
        _ => false,
    }
}

fn same_head(a: &Table, b: &Table) -> bool
    ensures name { IsTrue result → a.now.name ≡ b.now.name }
    ensures columns { IsTrue result → a.now.columns ≡ b.now.columns }
    ensures key { IsTrue result → a.now.key ≡ b.now.key }
    ensures complete { list_all is_plain_column a.now.columns ≡ true → record a.now { tree = b.now.tree } ≡ b.now
        → IsTrue result }
{
    a.name.as_slice() == b.name.as_slice()
        && same_columns(a.columns.as_slice(), b.columns.as_slice())
        && a.key == b.key
}

fn same_keys(a: &Table, b: &Table) -> bool
    ensures primary { IsTrue result → a.now.primary ≡ b.now.primary }
    ensures uniques { IsTrue result → a.now.uniques ≡ b.now.uniques }
    ensures orders { IsTrue result → a.now.orders ≡ b.now.orders }
    ensures complete { record a.now { tree = b.now.tree } ≡ b.now → IsTrue result }
{
    same_numbers(&a.primary, &b.primary)
        && same_places(a.uniques.as_slice(), b.uniques.as_slice())
        && same_orders(a.orders.as_slice(), b.orders.as_slice())
}

/// Whether the rules of the tables agree. Tables with foreign keys never count as the same.
fn same_rules(a: &Table, b: &Table) -> bool
    ensures checks { IsTrue result → a.now.checks ≡ b.now.checks }
    ensures references { IsTrue result → a.now.references ≡ b.now.references }
    ensures computed { IsTrue result → a.now.computed ≡ b.now.computed }
    ensures stamps { IsTrue result → a.now.stamps ≡ b.now.stamps }
    ensures is_counted { IsTrue result → a.now.is_counted ≡ b.now.is_counted }
    ensures complete { is_plain_table a.now ≡ true → record a.now { tree = b.now.tree } ≡ b.now
        → IsTrue result }
{
    same_terms(&a.checks, &b.checks)
        && a.references.is_empty()
        && b.references.is_empty()
        && same_numbers(&a.computed, &b.computed)
        && same_stamps(&a.stamps, &b.stamps)
        && a.is_counted == b.is_counted
}

/// Whether the tables are equal but for the trees that have their rows.
pub fn same_definition(a: &Table, b: &Table) -> bool
    ensures same { IsTrue result → record a.now { tree = b.now.tree } ≡ b.now }
    ensures complete { is_plain_table a.now ≡ true → record a.now { tree = b.now.tree } ≡ b.now
        → IsTrue result }
{
    same_head(a, b) && same_keys(a, b) && same_rules(a, b)
}

fn refers(references: &[Reference], name: &[u8]) -> bool
    ensures { result ≡ list_any (λ r. same_name' name.now r.parent) references.now }
{
    match references {
        [] => false,
        [reference, rest @ ..] => {
            same_name(name, reference.parent.as_slice()) || refers(rest, name)
        }
    }
}

/// Whether some foreign key of the tables refers to a table of this name.
pub fn is_referred(tables: &[Table], name: &[u8]) -> bool
    ensures { result ≡ list_any (λ t. list_any (λ r. same_name' name.now r.parent) t.references) tables.now }
{
    match tables {
        [] => false,
        [table, rest @ ..] => {
            refers(table.references.as_slice(), name) || is_referred(rest, name)
        }
    }
}
