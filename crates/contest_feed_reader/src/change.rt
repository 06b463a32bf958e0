//! What an event does to the collection of its type.
ghost use Rattle.std.specs.Prelude.{◌≡◌, ℕ, List, [], Ok, IfOk, IfErr, OnOk, map, option_map};
ghost use Rattle.std.specs.Prelude.{IsOkAnd, Err};
ghost use Rattle.serde_json.specs.View.{view};
ghost use Rattle.contest_types.specs.Additions.{IsFaultOf};
ghost use Rattle.contest_types.specs.Options.{all_some};
ghost use Rattle.contest_feed_reader.specs.Collections.{anew_by, change_in, item_in, name_of, named};
ghost use Rattle.contest_feed_reader.specs.Collections.{put_by, row_at, rows_after, taken, taken_by};
ghost use Rattle.contest_feed_reader.specs.PutRows.{put_all, put_found};
ghost use Rattle.contest_feed_reader.specs.ShownEvents.{shown};

use crate::collection::Collection;
use crate::event::Event;
use crate::feed_object::FeedObject;
use crate::row::Row;
use contest_files::{items_of, present_in, text_in};
use contest_types::{Cause, Id, Refusal, RowFault, is_id};
use serde_json::Value;
use std::alloc::Global;

/// An event that is off its form.
pub(crate) const MALFORMED: RowFault = RowFault::Fault(Cause::Malformed);

/// Takes the event of a line into the collection of its type.
///
/// # Errors
///
/// `Malformed` where the event is off its form, or want of memory.
pub(crate) fn take_change<T: FeedObject + Drop>(
    alloc: Global,
    collection: &mut Collection<T>,
    line: u64,
    event: &Event<'_>,
) -> Result<(), RowFault>
    ensures ok { OnOk result (rows_after line collection.old (change_in T.members (shown event.now)) ≡ Ok collection.new) }
    ensures err { IfErr result (λ e. IsFaultOf e (rows_after line collection.old (change_in T.members (shown event.now)))) }
{
    if event.deletes {
        return take_away(alloc, collection, line, event);
    }
    match items_of(event.body) {
        Some(items) => put_anew(alloc, collection, line, event.id, items),
        None => put_one(alloc, collection, line, event),
    }
}

// Takes away the object that an event names, or all if it names none.
fn take_away<T: Drop>(
    alloc: Global,
    collection: &mut Collection<T>,
    line: u64,
    event: &Event<'_>,
) -> Result<(), RowFault>
    ensures ok { OnOk result (rows_after line collection.old (taken_by (shown event.now)) ≡ Ok collection.new) }
    ensures err { IfErr result (λ e. IsFaultOf e (rows_after line collection.old (taken_by (shown event.now)))) }
{
    if event.body.is_array() {
        return Err(MALFORMED);
    }
    match name_of(event) {
        Some(name) => take_named(alloc, collection, line, name),
        None => Err(MALFORMED),
    }
}

fn take_named<T: Drop>(
    alloc: Global,
    collection: &mut Collection<T>,
    line: u64,
    name: Option<&str>,
) -> Result<(), RowFault>
    ensures ok { OnOk result (rows_after line collection.old (taken (option_map (λ s. s.now) name.entry)) ≡ Ok collection.new) }
    ensures err { IfErr result (λ e. IsFaultOf e (rows_after line collection.old (taken (option_map (λ s. s.now) name.entry)))) }
{
    match name {
        None => {
            *collection = Collection::new(alloc);
            Ok(())
        }
        Some(name) => {
            if !is_id(name.as_bytes()) {
                return Err(MALFORMED);
            }
            collection.take(name.as_bytes());
            Ok(())
        }
    }
}

// What names the object of an event: its own id, if there is one, else the event's.
fn name_of<'v>(event: &Event<'v>) -> Option<Option<&'v str>>
    ensures { option_map (option_map (λ s. s.now)) result ≡ name_of (shown event.now) }
{
    match present_in(event.body, "id") {
        Some(own) => Some(Some(own.as_str()?)),
        None => Some(event.id),
    }
}

// Puts the object of an event.
fn put_one<T: FeedObject + Drop>(
    alloc: Global,
    collection: &mut Collection<T>,
    line: u64,
    event: &Event<'_>,
) -> Result<(), RowFault>
    ensures ok { OnOk result (rows_after line collection.old (put_by T.members (shown event.now)) ≡ Ok collection.new) }
    ensures err { IfErr result (λ e. IsFaultOf e (rows_after line collection.old (put_by T.members (shown event.now)))) }
{
    match name_of(event) {
        Some(Some(name)) => put_named(alloc, collection, name, line, event.body),
        _ => Err(MALFORMED),
    }
}

// Puts the object that has this name.
fn put_named<T: FeedObject + Drop>(
    alloc: Global,
    collection: &mut Collection<T>,
    name: &str,
    line: u64,
    object: &Value,
) -> Result<(), RowFault>
    ensures ok { OnOk result (put_found line collection.old (named T.members name.now (view object.now)) ≡ Ok collection.new) }
    ensures err { IfErr result (λ e. IsFaultOf e (put_found line collection.old (named T.members name.now (view object.now)))) }
{
    match read_row(alloc, name, line, object) {
        Ok(Some(row)) => Ok(collection.put(alloc, row)?),
        Ok(None) => Err(MALFORMED),
        Err(refusal) => Err(memory_of(refusal)),
    }
}

// The row of the object that has this name, if both are on their form.
fn read_row<T: FeedObject + Drop>(
    alloc: Global,
    name: &str,
    line: u64,
    object: &Value,
) -> Result<Option<Row<T>>, Refusal>
    ensures value { IfOk result (λ found. found ≡ option_map (row_at line) (named T.members name.now (view object.now))) }
    ensures err { IfErr result (λ e. e ≡ Refusal.Memory) }
{
    let Some(id) = Id::parse(alloc, name)? else {
        return Ok(None);
    };
    match T::read(alloc, object)? {
        Some(object) => Ok(Some(Row { id, line, object })),
        None => Ok(None),
    }
}

// Puts the objects of an array alone, which comes under no id.
fn put_anew<T: FeedObject + Drop>(
    alloc: Global,
    collection: &mut Collection<T>,
    line: u64,
    id: Option<&str>,
    items: &[Value],
) -> Result<(), RowFault>
    ensures ok { OnOk result (rows_after line collection.old (anew_by T.members (option_map (λ s. s.now) id.entry) (map view items.now)) ≡ Ok collection.new) }
    ensures err { IfErr result (λ e. IsFaultOf e (rows_after line collection.old (anew_by T.members (option_map (λ s. s.now) id.entry) (map view items.now)))) }
{
    match id {
        Some(_) => Err(MALFORMED),
        None => replace(collection, rows_of(alloc, line, items)),
    }
}

// Puts what was made in the place of what stands.
fn replace<T: Drop>(place: &mut T, made: Result<T, RowFault>) -> Result<(), RowFault>
    ensures ok { OnOk result (IsOkAnd made (λ made. place.new ≡ made)) }
    ensures err { IfErr result (λ e. made ≡ Err e) }
{
    *place = made?;
    Ok(())
}

// The collection of the objects of an array.
fn rows_of<T: FeedObject + Drop>(
    alloc: Global,
    line: u64,
    items: &[Value],
) -> Result<Collection<T>, RowFault>
    ensures ok { IfOk result (λ rows. put_all line [] (all_some (map (item_in T.members) (map view items.now))) ≡ Ok rows) }
    ensures err { IfErr result (λ e. IsFaultOf e (put_all line [] (all_some (map (item_in T.members) (map view items.now))))) }
{
    let mut rows = Collection::new(alloc);
    for item in items {
        put_item(alloc, &mut rows, line, item)?;
    }
    Ok(rows)
}

// Puts an item of an array, which is named by its own id.
fn put_item<T: FeedObject + Drop>(
    alloc: Global,
    rows: &mut Collection<T>,
    line: u64,
    item: &Value,
) -> Result<(), RowFault>
    ensures ok { OnOk result (put_found line rows.old (item_in T.members (view item.now)) ≡ Ok rows.new) }
    ensures err { IfErr result (λ e. IsFaultOf e (put_found line rows.old (item_in T.members (view item.now)))) }
{
    match text_in(item, "id") {
        Some(name) => put_named(alloc, rows, name, line, item),
        None => Err(MALFORMED),
    }
}

/// Want of memory, as a row's fault.
pub(crate) fn memory_of(refusal: Refusal) -> RowFault
    requires { refusal ≡ Refusal.Memory }
    ensures { result ≡ RowFault.Memory }
{
    match refusal {
        Refusal::Memory => RowFault::Memory,
        _ => unreachable!(),
    }
}
