//! Whether the schema of a database is that of a desk.
ghost use Rattle.std.specs.Prelude.{◌≡◌, ◌↔◌, [], map, IsTrue};
ghost use Rattle.sqlite_value.specs.Keys.{plain};
ghost use Rattle.contest_store_tables.specs.Forms.{column_in, table_in, index_in};
ghost use Rattle.contest_store_tables.specs.Schema.{no_stamps, celless_schema, desk_schema};
ghost use Rattle.contest_store_tables.specs.Schema.{moved_index, moved_notices, schema_before};

use crate::LaterTable;
use crate::forms::{ColumnForm, INDEX_FORMS, IndexForm, TABLE_FORMS, TableForm};
use sqlite_schema::code::Terms;
use sqlite_schema::schema::{Column, Index, Kind, Schema, Stamps, Table};
use sqlite_value::keys::{Collation, Order};
use sqlite_value::value::Value;

impl ColumnForm {
    fn name(&self) -> &'static [u8]
        ensures { result.now ≡ (column_in self.now).name }
    {
        match self {
            ColumnForm::Number(name)
            | ColumnForm::NumberOrNone(name)
            | ColumnForm::Text(name)
            | ColumnForm::TextOrNone(name)
            | ColumnForm::Bytes(name) => name,
        }
    }

    fn kind(&self) -> Kind
        ensures { result ≡ (column_in self.now).kind }
    {
        match self {
            ColumnForm::Number(_) | ColumnForm::NumberOrNone(_) => Kind::Integer,
            ColumnForm::Text(_) | ColumnForm::TextOrNone(_) => Kind::Text,
            ColumnForm::Bytes(_) => Kind::Blob,
        }
    }

    fn not_null(&self) -> bool
        ensures { result ≡ (column_in self.now).not_null }
    {
        match self {
            ColumnForm::Number(_) | ColumnForm::Text(_) | ColumnForm::Bytes(_) => true,
            ColumnForm::NumberOrNone(_) | ColumnForm::TextOrNone(_) => false,
        }
    }
}

fn is_column(column: &Column, form: &ColumnForm) -> bool
    ensures { IsTrue result ↔ (column.now ≡ column_in form.now) }
{
    column.name.as_slice() == form.name()
        && column.kind == form.kind()
        && column.is_strict
        && column.not_null == form.not_null()
        && matches!(column.default, Value::Null)
        && column.collation == Collation::Binary
}

fn are_columns(columns: &[Column], forms: &[ColumnForm]) -> bool
    ensures { IsTrue result ↔ (columns.now ≡ map column_in forms.now) }
{
    columns.len() == forms.len()
        && columns
            .iter()
            .zip(forms)
            .all(|(column, form)| is_column(column, form))
}

fn has_keys(table: &Table, keys: &[&[usize]]) -> bool
    ensures { IsTrue result ↔ (table.now.uniques ≡ map (λ places. places.now) keys.now) }
{
    table.uniques.len() == keys.len()
        && table
            .uniques
            .as_slice()
            .iter()
            .zip(keys)
            .all(|(places, key)| places.as_slice() == *key)
}

// A plain order for each key.
fn are_plain(orders: &[Order], keys: &[&[usize]]) -> bool
    ensures { IsTrue result ↔ (orders.now ≡ map (λ _. plain) keys.now) }
{
    orders.len() == keys.len()
        && orders
            .iter()
            .zip(keys)
            .all(|(order, _)| *order == Order::PLAIN)
}

fn has_no_term(terms: &Terms) -> bool
    ensures { IsTrue result ↔ (terms.now ≡ []) }
{
    terms.roots.is_empty()
}

fn has_no_stamp(stamps: &Stamps) -> bool
    ensures { IsTrue result ↔ (stamps.now ≡ no_stamps) }
{
    stamps.places.is_empty() && has_no_term(&stamps.terms) && stamps.formats.is_empty()
}

fn is_table(table: &Table, form: &TableForm) -> bool
    ensures { IsTrue result ↔ (table.now ≡ table_in form.now) }
{
    is_table_at(table, form, form.tree)
}

// Whether it is that table, but in that tree.
fn is_table_at(table: &Table, form: &TableForm, tree: u32) -> bool
    ensures { IsTrue result ↔ (table.now ≡ record (table_in form.now) { tree = tree }) }
{
    table.name.as_slice() == form.name
        && table.tree == tree
        && are_columns(table.columns.as_slice(), form.columns)
        && table.key == form.key
        && table.primary.as_slice() == form.primary
        && has_keys(table, form.uniques)
        && are_plain(table.orders.as_slice(), form.uniques)
        && has_no_term(&table.checks)
        && table.references.is_empty()
        && table.computed.is_empty()
        && has_no_stamp(&table.stamps)
        && !table.is_counted
}

fn are_tables(tables: &[Table], forms: &[TableForm]) -> bool
    ensures { IsTrue result ↔ (tables.now ≡ map table_in forms.now) }
{
    tables.len() == forms.len()
        && tables
            .iter()
            .zip(forms)
            .all(|(table, form)| is_table(table, form))
}

fn is_index(index: &Index, form: &IndexForm) -> bool
    ensures { IsTrue result ↔ (index.now ≡ index_in form.now) }
{
    is_index_at(index, form, form.tree, form.table)
}

// Whether it is that index, but in that tree, and its table in that one.
fn is_index_at(index: &Index, form: &IndexForm, tree: u32, table: u32) -> bool
    ensures { IsTrue result ↔ (index.now ≡ record (index_in form.now) { tree = tree; table = table }) }
{
    index.name.as_slice() == form.name
        && index.tree == tree
        && index.table == table
        && index.columns.as_slice() == form.columns
        && index.order == Order::PLAIN
        && index.is_unique
}

fn are_indexes(indexes: &[Index], forms: &[IndexForm]) -> bool
    ensures { IsTrue result ↔ (indexes.now ≡ map index_in forms.now) }
{
    indexes.len() == forms.len()
        && indexes
            .iter()
            .zip(forms)
            .all(|(index, form)| is_index(index, form))
}

fn has_only(schema: &Schema, tables: &[TableForm], indexes: &[IndexForm]) -> bool
    ensures { IsTrue result ↔ (schema.now ≡ record { tables = map table_in tables.now; indexes = map index_in indexes.now; views = [] }) }
{
    are_tables(schema.tables.as_slice(), tables)
        && are_indexes(schema.indexes.as_slice(), indexes)
        && schema.views.is_empty()
}

/// Whether the tables of a desk stand, and no others.
pub(crate) fn is_of_desk(schema: &Schema) -> bool
    ensures { IsTrue result ↔ (schema.now ≡ desk_schema) }
{
    has_only(schema, &TABLE_FORMS, &INDEX_FORMS)
}

/// Whether those tables of a desk stand that are made before this one, and no others.
pub(crate) fn is_lacking(schema: &Schema, table: LaterTable) -> bool
    ensures { IsTrue result ↔ (schema.now ≡ schema_before table) }
{
    match table {
        LaterTable::Cells => has_only(schema, &TABLE_FORMS[..10], &INDEX_FORMS[..9]),
        LaterTable::Notices => has_only(schema, &TABLE_FORMS[..11], &INDEX_FORMS[..10]),
    }
}

/// Whether the tables of a desk stand but for that of the cells, which was taken out, and no
/// others; that of the notices in this place.
pub(crate) fn is_celless(schema: &Schema, place: LaterTable) -> bool
    ensures { IsTrue result ↔ (schema.now ≡ celless_schema place) }
{
    are_celless_tables(schema.tables.as_slice(), place)
        && are_celless_indexes(schema.indexes.as_slice(), place)
        && schema.views.is_empty()
}

fn are_celless_tables(tables: &[Table], place: LaterTable) -> bool
    ensures { IsTrue result ↔ (tables.now ≡ (celless_schema place).tables) }
{
    if tables.len() != 11 || !are_tables(&tables[..10], &TABLE_FORMS[..10]) {
        return false;
    }
    is_table_at(&tables[10], &TABLE_FORMS[11], tree_of(place))
}

fn are_celless_indexes(indexes: &[Index], place: LaterTable) -> bool
    ensures { IsTrue result ↔ (indexes.now ≡ (celless_schema place).indexes) }
{
    if indexes.len() != 10 || !are_indexes(&indexes[..9], &INDEX_FORMS[..9]) {
        return false;
    }
    is_index_at(
        &indexes[9],
        &INDEX_FORMS[10],
        index_tree_of(place),
        tree_of(place),
    )
}

// The tree of the rows in that place.
fn tree_of(place: LaterTable) -> u32
    ensures { result ≡ (moved_notices place).tree }
{
    match place {
        LaterTable::Cells => TABLE_FORMS[10].tree,
        LaterTable::Notices => TABLE_FORMS[11].tree,
    }
}

// And that of the index.
fn index_tree_of(place: LaterTable) -> u32
    ensures { result ≡ (moved_index place).tree }
{
    match place {
        LaterTable::Cells => INDEX_FORMS[9].tree,
        LaterTable::Notices => INDEX_FORMS[10].tree,
    }
}

/// Whether no table stands.
pub(crate) fn is_bare(schema: &Schema) -> bool
    ensures { IsTrue result ↔ (schema.now ≡ record { tables = []; indexes = []; views = [] }) }
{
    schema.tables.is_empty() && schema.indexes.is_empty() && schema.views.is_empty()
}
