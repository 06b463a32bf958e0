//! Rejudgings as the jury sees them: all of them, and one by its number.
ghost use Rattle.std.specs.Prelude.{◌≡◌, IfOk, OnOk, option_map};
ghost use Rattle.std.specs.List.{enumerate_from, flat_map};
ghost use Rattle.serde_json.specs.Written.{compact_text};
ghost use Rattle.contest_types.specs.State.{ContestState};
ghost use Rattle.contest_objects.specs.JsonTokens.{Wrote, data_tokens};
ghost use Rattle.contest_view.specs.Rejudgings.{numbered_data, rejudging_found, rejudgings_data};
ghost use Rattle.contest_view.specs.SeenLists.{Shows};

use crate::Seen;
use crate::named::named_rejudging;
use crate::seen::{empty_array, is_jury};
use contest_objects::{RejudgingObject, Served, begin_array, end_array, text_of};
use contest_types::{Rejudging, Settings};
use json::Writer;
use std::alloc::{AllocError, Global};

/// The text of the array of the rejudgings, by number (own). Who isn't of the jury sees none.
///
/// # Errors
///
/// Want of memory alone.
pub fn rejudgings_text(alloc: Global, seen: &Seen<'_>) -> Result<Vec<u8>, AllocError>
    ensures { (x : ContestState) → Shows seen.entry.now x → IfOk result (λ text. text.items ≡ compact_text (rejudgings_data seen.entry.now.audience x)) }
{
    if !is_jury(seen.audience) {
        return empty_array(alloc);
    }
    let all = Rejudgings {
        settings: &seen.lists.fixed().settings,
        rejudgings: seen.lists.rejudgings(),
    };
    text_of(alloc, &all)
}

/// Rejudgings as the jury sees them, numbered from 1.
#[derive(Clone, Copy)]
struct Rejudgings<'a> {
    settings: &'a Settings,
    rejudgings: &'a [Rejudging],
}

impl<'a> Served for Rejudgings<'a> {
    ghost use Rattle.std.specs.Prelude.{map};
    ghost use Rattle.std.specs.List.{enumerate_from};
    ghost use Rattle.serde_json.specs.Data.{array};
    ghost use Rattle.serde_json.specs.View.{items_of};
    ghost use Rattle.contest_view.specs.Rejudgings.{numbered_data};

    ghost value = { λ o. array (items_of (map (numbered_data o.settings.now) (enumerate_from 1 o.rejudgings.now))) };

    fn write(&self, out: &mut Writer) -> Result<(), AllocError> {
        begin_array(out)?;
        write_numbered(out, self.settings, self.rejudgings)?;
        end_array(out)
    }
}

fn write_numbered(
    out: &mut Writer,
    settings: &Settings,
    rejudgings: &[Rejudging],
) -> Result<(), AllocError>
    ensures { OnOk result (Wrote out.old out.new (flat_map (λ p. data_tokens (numbered_data settings.now p)) (enumerate_from 1 rejudgings.now))) }
{
    for place in 0..rejudgings.len() {
        let object = RejudgingObject {
            settings,
            number: place + 1,
            rejudging: &rejudgings[place],
        };
        object.write(out)?;
    }
    Ok(())
}

/// The text of the rejudging whose number an id is, for the jury: for who isn't of it there is none.
///
/// # Errors
///
/// Want of memory alone.
pub fn rejudging_by_id(
    alloc: Global,
    seen: &Seen<'_>,
    id: &[u8],
) -> Result<Option<Vec<u8>>, AllocError>
    ensures { (x : ContestState) → Shows seen.entry.now x → IfOk result (λ found. option_map (λ text. text.items) found ≡ option_map compact_text (rejudging_found seen.entry.now.audience x id.now)) }
{
    if !is_jury(seen.audience) {
        return Ok(None);
    }
    let Some(named) = named_rejudging(seen.lists, id) else {
        return Ok(None);
    };
    let object = RejudgingObject {
        settings: &seen.lists.fixed().settings,
        number: named.number,
        rejudging: named.rejudging,
    };
    let text = text_of(alloc, &object)?;
    Ok(Some(text))
}
