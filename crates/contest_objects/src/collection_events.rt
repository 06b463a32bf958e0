//! The objects of collections one behind the other, as a feed has their events.
ghost use Rattle.std.specs.Prelude.{◌≡◌, ◌++◌, OnOk, codes, map, option_map};
ghost use Rattle.std.specs.List.{filter_map};
ghost use Rattle.std.specs.Option.{option_to_list};
ghost use Rattle.contest_objects.specs.CollectionObjects.{event_of};
ghost use Rattle.contest_objects.specs.EventFeed.{item_event};
ghost use Rattle.contest_objects.specs.SettingsObjects.{problem_items};

use crate::collection::{Collection, Whole, refs, refs_at};
use crate::collection_object::CollectionObject;
use crate::settings_objects::Problems;
use contest_types::{Settings, problem_order};
use std::alloc::{AllocError, Global};

/// Adds the objects of the rows that are served, in the order of the rows.
///
/// # Errors
///
/// Want of memory alone: a front of them is added then.
pub fn push_objects<'r, C: Collection>(
    objects: &mut Vec<CollectionObject<'r>>,
    collection: &'r C,
    rows: &[&'r C::Row],
) -> Result<(), AllocError>
    ensures { OnOk result (map event_of objects.new.items ≡ map event_of objects.old.items ++ map (item_event C.name) (filter_map (C.item collection.now) (map (λ r. r.now) rows.now))) }
{
    for row in rows {
        push_object(objects, collection.object(*row))?;
    }
    Ok(())
}

fn push_object<'r>(
    objects: &mut Vec<CollectionObject<'r>>,
    object: Option<CollectionObject<'r>>,
) -> Result<(), AllocError>
    ensures { OnOk result (map event_of objects.new.items ≡ map event_of objects.old.items ++ option_to_list (option_map event_of object.entry)) }
{
    match object {
        Some(object) => objects.push(object)?,
        None => {}
    }
    Ok(())
}

/// Adds the objects of all rows, as they stand.
///
/// # Errors
///
/// Want of memory alone: a front of them is added then.
pub fn push_whole<'r, C: Whole>(
    alloc: Global,
    objects: &mut Vec<CollectionObject<'r>>,
    collection: &'r C,
    rows: &'r [C::Row],
) -> Result<(), AllocError>
    ensures { OnOk result (map event_of objects.new.items ≡ map event_of objects.old.items ++ map (item_event C.name) (map (C.whole collection.now) rows.now)) }
{
    let rows = refs(alloc, rows)?;
    push_objects(objects, collection, &rows)
}

/// Adds the problems, by ordinal, then id.
///
/// # Errors
///
/// Want of memory alone: a front of them is added then.
pub fn push_problems<'r>(
    alloc: Global,
    objects: &mut Vec<CollectionObject<'r>>,
    collection: &'r Problems,
    settings: &'r Settings,
) -> Result<(), AllocError>
    ensures { OnOk result (map event_of objects.new.items ≡ map event_of objects.old.items ++ map (item_event (codes "problems")) (problem_items settings.now)) }
{
    let places = problem_order(alloc, settings)?;
    let rows = refs_at(alloc, settings.problems(), &places)?;
    push_objects(objects, collection, &rows)
}
