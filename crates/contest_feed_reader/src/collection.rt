//! A collection of a feed: its objects in order, found by their ids.
ghost use Rattle.std.specs.Prelude.{◌≡◌, ◌<◌, ◌++◌, ◌∷◌, [], Some, None, IfOk, OnOk};
ghost use Rattle.std.specs.Prelude.{length, map, slice_set, true};
ghost use Rattle.contest_types.specs.Places.{are_different};
ghost use Rattle.contest_feed_reader.specs.Collections.{put, without};
ghost use Rattle.contest_feed_reader.specs.Slots.{IsSlotted, slot_of, standing};

use crate::row::Row;
use std::alloc::{AllocError, Global};
use std::collections::HashMap;
use std::marker::Model;

/// Objects in order, no two with one id. A slot stays empty once its object is taken away, so that
/// the others stay where they are. Contracts see the rows that stand.
#[derive(Drop)]
pub(crate) struct Collection<T> {
    slots: Vec<Option<Row<T>>>,
    places: HashMap<Vec<u8>, usize>,
}

impl<T> Model for Collection<T> {
    ghost use Rattle.std.specs.Prelude.{List};
    ghost use Rattle.contest_feed_reader.specs.declared.row.Row.{Row};
    ghost use Rattle.contest_feed_reader.specs.Slots.{IsSlotted, standing};

    ghost Value = { List (Row T) };

    ghost view = { λ c. standing c.slots.items };

    ghost invariant = { λ c. IsSlotted c.slots.items c.places };
}

impl<T: Drop> Collection<T> {
    /// No objects.
    pub(crate) fn new(alloc: Global) -> Self
        ensures { result ≡ [] }
    {
        Collection {
            slots: Vec::new(alloc),
            places: HashMap::new(alloc),
        }
    }

    /// Puts a row in the place of the one with its id, or behind all others.
    ///
    /// # Errors
    ///
    /// Want of memory alone.
    pub(crate) fn put(&mut self, alloc: Global, row: Row<T>) -> Result<(), AllocError>
        ensures { OnOk result (self.new ≡ put self.old row) }
    {
        match self.places.get(row.id.as_bytes()).copied() {
            Some(place) => {
                set_row(&mut self.slots, &self.places, place, row);
                Ok(())
            }
            None => push_row(alloc, &mut self.slots, &mut self.places, row),
        }
    }

    /// Takes away the row with this id, if there is one.
    pub(crate) fn take(&mut self, id: &[u8])
        ensures { self.new ≡ without id.now self.old }
    {
        match self.places.remove(id) {
            Some(place) => set_slot(&mut self.slots, place, None),
            None => (),
        }
    }

    /// The rows in their order.
    ///
    /// # Errors
    ///
    /// Want of memory alone.
    pub(crate) fn into_rows(self, alloc: Global) -> Result<Vec<Row<T>>, AllocError>
        ensures rows { IfOk result (λ rows. rows.items ≡ self) }
        ensures different { IfOk result (λ rows. are_different (map (λ row. row.id) rows.items) ≡ true) }
    {
        standing(alloc, self.slots)
    }
}

// What stands in the slots that aren't empty.
fn standing<T: Drop>(alloc: Global, slots: Vec<Option<T>>) -> Result<Vec<T>, AllocError>
    ensures { IfOk result (λ rows. rows.items ≡ standing slots.items) }
{
    let mut rows = Vec::new(alloc);
    for slot in slots {
        keep(&mut rows, slot)?;
    }
    Ok(rows)
}

fn keep<T: Drop>(rows: &mut Vec<T>, slot: Option<T>) -> Result<(), AllocError>
    ensures { OnOk result (rows.new.items ≡ rows.old.items ++ standing (slot ∷ [])) }
{
    if let Some(row) = slot {
        rows.push(row)?;
    }
    Ok(())
}

fn set_slot<T: Drop>(slots: &mut Vec<Option<T>>, place: usize, slot: Option<T>)
    requires { place < length slots.old.items }
    ensures { slots.new.items ≡ slice_set slots.old.items place slot }
{
    slots[place] = slot;
}

// Puts a row in the place of the one with its id.
fn set_row<T: Drop>(
    slots: &mut Vec<Option<Row<T>>>,
    places: &HashMap<Vec<u8>, usize>,
    place: usize,
    row: Row<T>,
)
    requires slotted { IsSlotted slots.old.items places.now }
    requires there { slot_of row.id places.now ≡ Some place }
    ensures rows { standing slots.new.items ≡ put (standing slots.old.items) row }
    ensures slotted { IsSlotted slots.new.items places.now }
{
    set_slot(slots, place, Some(row));
}

// Puts a row behind all others, where none has its id.
fn push_row<T: Drop>(
    alloc: Global,
    slots: &mut Vec<Option<Row<T>>>,
    places: &mut HashMap<Vec<u8>, usize>,
    row: Row<T>,
) -> Result<(), AllocError>
    requires slotted { IsSlotted slots.old.items places.old }
    requires new { slot_of row.id places.old ≡ None }
    ensures rows { OnOk result (standing slots.new.items ≡ put (standing slots.old.items) row) }
    ensures slotted { IsSlotted slots.new.items places.new }
{
    let key = Vec::from_slice(alloc, row.id.as_bytes())?;
    slots.reserve(1)?;
    places.insert(key, slots.len())?;
    match slots.push(Some(row)) {
        Ok(()) => Ok(()),
        Err(_) => unreachable!(),
    }
}
