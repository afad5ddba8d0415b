//! Which databases have no tables, and which have exactly those of a layout.

ghost use Rattle.std.specs.Prelude.{◌≡◌, ◌↔◌, [], ◌∷◌, map, pos, IsTrue, IfOk};
ghost use Rattle.sqlite.specs.declared.types.Value.TheVariants.{Int};
ghost use Rattle.sqlite_sql.specs.Syntax.{term_of, term_at};
ghost use Rattle.sqlite_sql.specs.Term.{lit, col};
ghost use Rattle.sqlite_value.specs.Keys.{plain};
ghost use Rattle.fax_layout.specs.Tables.{column_of, no_tables};
ghost use Rattle.fax_layout.specs.Shape.{HasColumns, HasRules, Passes, PassesAll, PassesIndex, checks_of, first_is_one, indexed_as, laid_out, no_stamps, shaped, tabled};

use crate::shape::{IndexShape, Layout, PLAIN, Part, Shape};
use sqlite_items::Items;
use sqlite_schema::code::Terms;
use sqlite_schema::schema::{Column, Index, Kind, Schema, Stamps, Table};
use sqlite_sql::expr::{Node, open};
use sqlite_sql::ops::{BinaryOp, CompareOp};
use sqlite_value::keys::{Collation, Order};
use sqlite_value::value::{Value, ValueRef};
use std::alloc::{AllocError, Global};

/// Whether a column is NOT NULL in a strict table, with this name and type, and has no other rule.
fn is_column(column: &Column, name: &str, kind: Kind) -> bool
    ensures { IsTrue result ↔ (column.now ≡ column_of name.now kind) }
{
    column.name.as_slice() == name.as_bytes()
        && column.kind == kind
        && column.is_strict
        && column.not_null
        && matches!(column.default, Value::Null)
        && column.collation == Collation::Binary
}

/// Whether these are the columns of these names and types.
fn are_columns(columns: &[Column], names: &[(&str, Kind)]) -> bool
    ensures { IsTrue result ↔ (columns.now ≡ map (λ n. column_of n.0.now n.1) names.now) }
{
    if columns.len() != names.len() {
        return false;
    }
    for (at, column) in columns.iter().enumerate() {
        if !is_column(column, names[at].0, names[at].1) {
            return false;
        }
    }
    true
}

/// Whether these are these places.
fn are_places(places: &Items<usize>, expected: &[usize]) -> bool
    ensures { IsTrue result ↔ (places.now ≡ expected.now) }
{
    places.as_slice() == expected
}

/// Whether an index ascends by the bytes of its columns.
fn is_plain(order: &Order) -> bool
    ensures { IsTrue result ↔ (order.now ≡ plain) }
{
    *order == PLAIN
}

/// Whether the index of each of these keys ascends by bytes.
fn are_plain(orders: &[Order], keys: &[&[usize]]) -> bool
    ensures { IsTrue result ↔ (orders.now ≡ map (λ _. plain) keys.now) }
{
    if orders.len() != keys.len() {
        return false;
    }
    for order in orders {
        if !is_plain(order) {
            return false;
        }
    }
    true
}

/// Whether these keys are of these places.
fn are_keys(keys: &[Items<usize>], places: &[&[usize]]) -> bool
    ensures { IsTrue result ↔ (keys.now ≡ map (λ p. p.now) places.now) }
{
    if keys.len() != places.len() {
        return false;
    }
    for (at, key) in keys.iter().enumerate() {
        if !are_places(key, places[at]) {
            return false;
        }
    }
    true
}

/// Whether a table has this name, tree and key, and these columns.
fn has_columns(table: &Table, shape: &Shape, tree: u64) -> bool
    ensures { IsTrue result ↔ HasColumns table.now shape.now tree }
{
    table.name.as_slice() == shape.name.as_bytes()
        && u64::from(table.tree) == tree
        && are_columns(table.columns.as_slice(), shape.columns)
        && table.key == shape.key
        && are_places(&table.primary, shape.primary)
}

/// Whether a table has these keys and no rule beside them and its checks.
fn has_rules(table: &Table, shape: &Shape) -> bool
    ensures { IsTrue result ↔ HasRules table.now shape.now }
{
    are_keys(table.uniques.as_slice(), shape.uniques)
        && are_plain(table.orders.as_slice(), shape.uniques)
        && table.references.is_empty()
        && table.computed.is_empty()
        && !table.is_counted
}

/// Whether there are no terms.
fn has_no_terms(alloc: Global, terms: &Terms) -> Result<bool, AllocError>
    ensures { IfOk result (λ none. IsTrue none ↔ (terms.now ≡ [])) }
{
    let lent = terms.lend(alloc)?;
    Ok(lent.roots.is_empty())
}

/// Whether no default of a table reads the time.
fn has_no_stamps(alloc: Global, stamps: &Stamps) -> Result<bool, AllocError>
    ensures { IfOk result (λ none. IsTrue none ↔ (stamps.now ≡ no_stamps)) }
{
    let none = has_no_terms(alloc, &stamps.terms)?;
    Ok(none && stamps.places.is_empty() && stamps.formats.is_empty())
}

/// Whether a table has this shape, whatever its checks are.
fn is_shaped(alloc: Global, table: &Table, shape: &Shape, tree: u64) -> Result<bool, AllocError>
    ensures { IfOk result (λ same. IsTrue same ↔ (table.now ≡ shaped shape.now tree table.now.checks)) }
{
    let unstamped = has_no_stamps(alloc, &table.stamps)?;
    Ok(unstamped && has_columns(table, shape, tree) && has_rules(table, shape))
}

/// Whether a node is the first column of a row in slot 1.
fn is_first_column(nodes: &[Node], depth: usize, at: usize) -> bool
    ensures { IsTrue result ↔ (term_at nodes.now depth at ≡ col 1 0) }
{
    match open(nodes, depth, at).0 {
        Node::Column(slot, at) => slot == 1 && at == 0,
        _ => false,
    }
}

/// Whether a node is the literal 1.
fn is_one(nodes: &[Node], depth: usize, at: usize) -> bool
    ensures { IsTrue result ↔ (term_at nodes.now depth at ≡ lit (Int (pos 1))) }
{
    match open(nodes, depth, at).0 {
        Node::Literal(ValueRef::Int(value)) => value == 1,
        _ => false,
    }
}

/// Whether a node says that the first column is 1.
fn is_one_check(nodes: &[Node], at: usize) -> bool
    ensures { IsTrue result ↔ (term_of nodes.now at ≡ first_is_one) }
{
    let (node, depth) = open(nodes, nodes.len(), at);
    match node {
        Node::Binary(BinaryOp::Compare(CompareOp::Eq, Collation::Binary), column, one) => {
            is_first_column(nodes, depth, column) && is_one(nodes, depth, one)
        }
        _ => false,
    }
}

/// Whether the one check of a table is that its first column is 1.
fn has_one_check(alloc: Global, checks: &Terms) -> Result<bool, AllocError>
    ensures { IfOk result (λ one. IsTrue one ↔ (checks.now ≡ first_is_one ∷ [])) }
{
    let lent = checks.lend(alloc)?;
    match lent.roots {
        [root] => Ok(is_one_check(lent.nodes.as_slice(), *root)),
        _ => Ok(false),
    }
}

/// Whether a table has the checks of a shape.
fn has_checks(alloc: Global, checks: &Terms, has_one_row: bool) -> Result<bool, AllocError>
    ensures { IfOk result (λ same. IsTrue same ↔ (checks.now ≡ checks_of has_one_row)) }
{
    if has_one_row {
        has_one_check(alloc, checks)
    } else {
        has_no_terms(alloc, checks)
    }
}

/// Whether a table has this shape, and this tree.
fn is_table(alloc: Global, table: &Table, shape: &Shape, tree: u64) -> Result<bool, AllocError>
    ensures { IfOk result (λ same. IsTrue same ↔ (table.now ≡ tabled shape.now tree)) }
{
    let checked = has_checks(alloc, &table.checks, shape.has_one_row)?;
    let same = is_shaped(alloc, table, shape, tree)?;
    Ok(checked && same)
}

/// Whether an index has this shape, this tree and the table of that tree, and whether it is of a key.
fn is_index(index: &Index, shape: &IndexShape, tree: u64, table: u64, is_key: bool) -> bool
    ensures { IsTrue result ↔ (index.now ≡ indexed_as shape.now tree table is_key) }
{
    index.name.as_slice() == shape.name.as_bytes()
        && u64::from(index.tree) == tree
        && u64::from(index.table) == table
        && are_places(&index.columns, shape.places)
        && is_plain(&index.order)
        && index.is_unique == is_key
}

/// What a look at a database has left: its tables and indexes from this tree on, and the tree of the last table before.
#[derive(Clone, Copy)]
struct Left<'s> {
    tables: &'s [Table],
    indexes: &'s [Index],
    tree: u64,
    table: u64,
}

/// What is left behind a table of this shape, if that comes next.
fn behind_table<'s>(
    alloc: Global,
    left: Left<'s>,
    shape: &Shape,
) -> Result<Option<Left<'s>>, AllocError>
    ensures { IfOk result (λ behind. Passes left.entry (Part.Table shape.now) behind) }
{
    let [table, tables @ ..] = left.tables else {
        return Ok(None);
    };
    if !is_table(alloc, table, shape, left.tree)? {
        return Ok(None);
    }
    Ok(Some(Left {
        tables,
        indexes: left.indexes,
        tree: u64::from(table.tree) + 1,
        table: left.tree,
    }))
}

/// What is left behind an index of this shape and table, if that comes next.
fn behind_index<'s>(
    left: Left<'s>,
    shape: &IndexShape,
    table: u64,
    is_key: bool,
) -> Option<Left<'s>>
    ensures { PassesIndex left.entry (indexed_as shape.now left.entry.tree table is_key) result }
{
    let [index, indexes @ ..] = left.indexes else {
        return None;
    };
    if !is_index(index, shape, left.tree, table, is_key) {
        return None;
    }
    Some(Left {
        tables: left.tables,
        indexes,
        tree: u64::from(index.tree) + 1,
        table: left.table,
    })
}

/// What is left behind this part, if that comes next.
fn behind<'s>(alloc: Global, left: Left<'s>, part: &Part) -> Result<Option<Left<'s>>, AllocError>
    ensures { IfOk result (λ behind. Passes left.entry part.now behind) }
{
    match part {
        Part::Table(shape) => behind_table(alloc, left, shape),
        Part::Key(shape) => Ok(behind_index(left, shape, left.table, true)),
        Part::Index(shape, table) => Ok(behind_index(left, shape, *table, false)),
    }
}

/// What is left behind these parts, if they come next.
fn behind_all<'s>(
    alloc: Global,
    mut left: Left<'s>,
    mut parts: &[Part],
) -> Result<Option<Left<'s>>, AllocError>
    ensures { IfOk result (λ behind. PassesAll left.entry parts.entry.now behind) }
{
    while let [part, rest @ ..] = parts {
        let Some(next) = behind(alloc, left, part)? else {
            return Ok(None);
        };
        left = next;
        parts = rest;
    }
    Ok(Some(left))
}

/// Whether a database has exactly the tables and indexes of this layout.
pub fn has_layout(alloc: Global, schema: &Schema, mut layout: Layout) -> Result<bool, AllocError>
    ensures { IfOk result (λ same. IsTrue same ↔ (schema.now ≡ laid_out (map (λ p. p.now) layout.entry.now))) }
{
    let mut left = Left {
        tables: schema.tables.as_slice(),
        indexes: schema.indexes.as_slice(),
        tree: 0,
        table: 0,
    };
    while let [parts, rest @ ..] = layout {
        let Some(next) = behind_all(alloc, left, parts)? else {
            return Ok(false);
        };
        left = next;
        layout = rest;
    }
    Ok(left.tables.is_empty() && left.indexes.is_empty() && schema.views.is_empty())
}

/// Whether a database has no tables.
pub fn has_no_tables(schema: &Schema) -> bool
    ensures { IsTrue result ↔ (schema.now ≡ no_tables) }
{
    schema.tables.is_empty() && schema.indexes.is_empty() && schema.views.is_empty()
}
