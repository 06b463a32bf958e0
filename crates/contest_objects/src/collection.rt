//! Collections as they are served: listed in an order, and looked up by id, whatever they hold.
ghost use Rattle.std.specs.Prelude.{◌≡◌, ◌++◌, ℕ, List, Option, Some, slice_get, IfOk, OnOk};
ghost use Rattle.std.specs.Prelude.{IfSome, map, find, option_map};
ghost use Rattle.std.specs.Cmp.{IsTotalOrder};
ghost use Rattle.std.specs.List.{filter_map, flat_map};
ghost use Rattle.std.specs.Option.{option_to_list};
ghost use Rattle.std.specs.declared.cmp.Ordering.{Ordering as TheOrdering};
ghost use Rattle.serde_json.specs.Written.{compact_text};
ghost use Rattle.contest_objects.specs.CollectionObjects.{collection_of, item_of};
ghost use Rattle.contest_objects.specs.Items.{Item, IsListed, IsOrderOf, array_of, found_in};
ghost use Rattle.contest_objects.specs.Items.{has_this_id, object_in};
ghost use Rattle.contest_objects.specs.JsonTokens.{Wrote, value_tokens};

use crate::collection_object::CollectionObject;
use crate::json_text::{Served, begin_array, end_array};
use json::Writer;
use std::alloc::{AllocError, Global};
use std::cmp::Ordering;

/// A collection as one audience is served it at a moment (Contest API 2023-06: a collection is an
/// array, and one object of it is asked for by its id).
pub trait Collection {
    /// What a row of it is in the contest.
    type Row;

    /// A row as it is served; none where it isn't.
    ghost item: { Self → Self.Row → Option Item };

    /// Its name.
    ghost name: { List ℕ };

    /// The object of a row, where it is served.
    fn object<'r>(&'r self, row: &'r Self::Row) -> Option<CollectionObject<'r>>
        ensures item { option_map item_of result ≡ item self.now row.now }
        ensures name { IfSome result (λ o. collection_of o ≡ name) };
}

/// A collection that is listed in an order of its own.
pub trait Ordered: Collection {
    /// The order in which rows are listed.
    ghost cmp: { Self → Self.Row → Self.Row → TheOrdering };

    /// Which of two rows is listed first.
    fn compare(&self, first: &Self::Row, second: &Self::Row) -> Ordering
        ensures { result ≡ cmp self.now first.now second.now };

    /// The order is one.
    ghost total: { (c : Self) → IsTotalOrder (cmp c) };
}

/// A collection that is served whole, in the order in which its rows stand.
pub trait Whole: Collection {
    /// A row as it is served.
    ghost whole: { Self → Self.Row → Item };

    /// All rows are.
    ghost all: { (c : Self) (row : Self.Row) → Self.item c row ≡ Some (whole c row) };
}

/// The text of the array of the rows that are served, in their order. The rows come in any order.
///
/// # Errors
///
/// Want of memory alone.
pub fn list<C: Ordered>(
    alloc: Global,
    collection: &C,
    rows: &[C::Row],
) -> Result<Vec<u8>, AllocError>
    ensures { IfOk result (λ text. IsListed (C.item collection.now) (C.cmp collection.now) rows.now text.items) }
{
    let rows = sorted(alloc, collection, rows)?;
    array(alloc, collection, &rows)
}

/// The text of the array of all rows, as they stand.
///
/// # Errors
///
/// Want of memory alone.
pub fn list_whole<C: Whole>(
    alloc: Global,
    collection: &C,
    rows: &[C::Row],
) -> Result<Vec<u8>, AllocError>
    ensures { IfOk result (λ text. text.items ≡ compact_text (array_of (map (C.whole collection.now) rows.now))) }
{
    let rows = refs(alloc, rows)?;
    let text = array(alloc, collection, &rows)?;
    Ok(text)
}

/// The text of the array of the rows at these places.
///
/// # Errors
///
/// Want of memory alone.
pub(crate) fn list_at<C: Whole>(
    alloc: Global,
    collection: &C,
    rows: &[C::Row],
    places: &[usize],
) -> Result<Vec<u8>, AllocError>
    ensures { IfOk result (λ text. text.items ≡ compact_text (array_of (map (C.whole collection.now) (filter_map (slice_get rows.now) places.now)))) }
{
    let rows = refs_at(alloc, rows, places)?;
    let text = array(alloc, collection, &rows)?;
    Ok(text)
}

/// The text of the object with an id, if a row has it.
///
/// # Errors
///
/// Want of memory alone.
pub fn get_whole<C: Whole>(
    alloc: Global,
    collection: &C,
    rows: &[C::Row],
    id: &[u8],
) -> Result<Option<Vec<u8>>, AllocError>
    ensures { IfOk result (λ found. option_map (λ text. text.items) found ≡ option_map compact_text (found_in (map (C.whole collection.now) rows.now) id.now)) }
{
    let found = get(alloc, collection, rows, id)?;
    Ok(found)
}

/// References to the rows, in their order.
///
/// # Errors
///
/// Want of memory alone.
pub fn sorted<'r, C: Ordered>(
    alloc: Global,
    collection: &C,
    rows: &'r [C::Row],
) -> Result<Vec<&'r C::Row>, AllocError>
    ensures { IfOk result (λ refs. IsOrderOf (C.cmp collection.now) rows.now (map (λ r. r.now) refs.items)) }
{
    let mut refs = refs(alloc, rows)?;
    refs.sort_unstable_by(|first, second| collection.compare(*first, *second));
    Ok(refs)
}

/// References to all rows, in their order.
///
/// # Errors
///
/// Want of memory alone.
pub fn refs<T>(alloc: Global, rows: &[T]) -> Result<Vec<&T>, AllocError>
    ensures { IfOk result (λ refs. map (λ r. r.now) refs.items ≡ rows.now) }
{
    let mut refs = Vec::new(alloc);
    for row in rows {
        refs.push(row)?;
    }
    Ok(refs)
}

/// References to the rows at these places.
///
/// # Errors
///
/// Want of memory alone.
pub(crate) fn refs_at<'r, T>(
    alloc: Global,
    rows: &'r [T],
    places: &[usize],
) -> Result<Vec<&'r T>, AllocError>
    ensures { IfOk result (λ refs. map (λ r. r.now) refs.items ≡ filter_map (slice_get rows.now) places.now) }
{
    let mut refs = Vec::new(alloc);
    for place in places {
        let row = row_at(rows, *place);
        push_ref(&mut refs, row)?;
    }
    Ok(refs)
}

fn row_at<T>(rows: &[T], place: usize) -> Option<&T>
    ensures { option_map (λ r. r.now) result ≡ slice_get rows.now place }
{
    rows.get(place)
}

fn push_ref<'r, T>(refs: &mut Vec<&'r T>, row: Option<&'r T>) -> Result<(), AllocError>
    ensures { OnOk result (map (λ r. r.now) refs.new.items ≡ map (λ r. r.now) refs.old.items ++ option_to_list (option_map (λ r. r.now) row.entry)) }
{
    match row {
        Some(row) => refs.push(row)?,
        None => {}
    }
    Ok(())
}

// The text of the array of these rows, as far as they are served.
fn array<C: Collection>(
    alloc: Global,
    collection: &C,
    rows: &[&C::Row],
) -> Result<Vec<u8>, AllocError>
    ensures { IfOk result (λ text. text.items ≡ compact_text (array_of (filter_map (C.item collection.now) (map (λ r. r.now) rows.now)))) }
{
    let mut out = Writer::new(Vec::new(alloc));
    begin_array(&mut out)?;
    write_each(&mut out, collection, rows)?;
    end_array(&mut out)?;
    Ok(out.into_inner())
}

fn write_each<C: Collection>(
    out: &mut Writer,
    collection: &C,
    rows: &[&C::Row],
) -> Result<(), AllocError>
    ensures { OnOk result (Wrote out.old out.new (flat_map (λ r. value_tokens (object_in (C.item collection.now r.now))) rows.now)) }
{
    for row in rows {
        write_row(out, collection, *row)?;
    }
    Ok(())
}

// Writes the object of a row, where it is served.
fn write_row<C: Collection>(
    out: &mut Writer,
    collection: &C,
    row: &C::Row,
) -> Result<(), AllocError>
    ensures { OnOk result (Wrote out.old out.new (value_tokens (object_in (C.item collection.now row.now)))) }
{
    match collection.object(row) {
        Some(object) => object.write(out),
        None => Ok(()),
    }
}

// Whether a row is served, and a text is its id, byte for byte.
fn has_id<C: Collection>(collection: &C, row: &C::Row, id: &[u8]) -> bool
    ensures { result ≡ has_this_id id.now (C.item collection.now row.now) }
{
    match collection.object(row) {
        Some(object) => object.has_id(id),
        None => false,
    }
}

/// The text of the object with an id, if one of these rows is served under it: what isn't served is as what
/// isn't there.
///
/// # Errors
///
/// Want of memory alone.
pub fn get<C: Collection>(
    alloc: Global,
    collection: &C,
    rows: &[C::Row],
    id: &[u8],
) -> Result<Option<Vec<u8>>, AllocError>
    ensures { IfOk result (λ found. option_map (λ text. text.items) found ≡ option_map compact_text (found_in (filter_map (C.item collection.now) rows.now) id.now)) }
{
    match with_id(collection, rows, id) {
        Some(row) => {
            let text = row_text(alloc, collection, row)?;
            Ok(Some(text))
        }
        None => Ok(None),
    }
}

// The text of the object of a row that is served.
fn row_text<C: Collection>(
    alloc: Global,
    collection: &C,
    row: &C::Row,
) -> Result<Vec<u8>, AllocError>
    ensures { (i : Item) → C.item collection.now row.now ≡ Some i → IfOk result (λ text. text.items ≡ compact_text i.object) }
{
    let mut out = Writer::new(Vec::new(alloc));
    write_row(&mut out, collection, row)?;
    Ok(out.into_inner())
}

fn with_id<'r, C: Collection>(collection: &C, rows: &'r [C::Row], id: &[u8]) -> Option<&'r C::Row>
    ensures { option_map (λ r. r.now) result ≡ find (λ r. has_this_id id.now (C.item collection.now r)) rows.now }
{
    rows.iter().find(|row| has_id(collection, row, id))
}
