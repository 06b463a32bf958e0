//! The settings that the rows of their table are.
ghost use Rattle.std.specs.Prelude.{◌≡◌, Some, None, true, false, IfOk};
ghost use Rattle.contest_store_reading.specs.Items.{is_in_order, items_in, with_item_in};

use crate::items::{add_group_in, add_language_in, add_problem_in, add_type_in};
use crate::team_items::add_team_in;
use contest_store_rows::number_at;
use contest_types::Settings;
use sqlite::Row;
use std::alloc::{AllocError, Global};

/// Adds what the rows are, one after the other, and answers whether they come kind by kind and each
/// is the next of its kind and may be added. Where one isn't, the settings are of no use any more.
///
/// # Errors
///
/// Want of memory alone.
pub fn add_items_in(
    alloc: Global,
    settings: &mut Settings,
    rows: &[Row],
) -> Result<bool, AllocError>
    ensures added { IfOk result (λ added. added ≡ true → items_in settings.old rows.now ≡ Some settings.new) }
    ensures other { IfOk result (λ added. added ≡ false → items_in settings.old rows.now ≡ None) }
{
    for row in rows {
        if !add_item_in(alloc, settings, row)? {
            return Ok(false);
        }
    }
    Ok(true)
}

fn add_item_in(alloc: Global, settings: &mut Settings, row: &Row) -> Result<bool, AllocError>
    ensures added { IfOk result (λ added. added ≡ true → with_item_in settings.old row.now ≡ Some settings.new) }
    ensures other { IfOk result (λ added. added ≡ false → with_item_in settings.old row.now ≡ None) }
{
    let kind = number_at(row, 0);
    if !is_in_order(settings, kind) {
        return Ok(false);
    }
    match kind {
        0 => add_type_in(alloc, settings, row),
        1 => add_language_in(alloc, settings, row),
        2 => add_group_in(alloc, settings, row),
        3 => add_problem_in(alloc, settings, row),
        4 => add_team_in(alloc, settings, row),
        _ => Ok(false),
    }
}

// Whether nothing of a later kind stands yet.
fn is_in_order(settings: &Settings, kind: u64) -> bool
    ensures { result ≡ is_in_order kind settings.now }
{
    (kind > 0 || settings.languages().is_empty())
        && (kind > 1 || settings.groups().is_empty())
        && (kind > 2 || settings.problems().is_empty())
        && (kind > 3 || settings.teams().is_empty())
}
