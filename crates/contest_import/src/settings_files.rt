//! Settings as JSON files: arrays of objects.
ghost use Rattle.std.specs.Prelude.{◌≡◌, ◌+◌, ◌∷◌, List, Ok, OnOk, IfOk, IfErr, map};
ghost use Rattle.serde_json.specs.Data.{Data};
ghost use Rattle.serde_json.specs.View.{view};
ghost use Rattle.contest_types.specs.Additions.{IsFaultOf};
ghost use Rattle.contest_files.specs.Refused.{Refuses};
ghost use Rattle.contest_import.specs.Files.{settings_rows};
ghost use Rattle.contest_import.specs.RowAdditions.{after_record, after_records, none_yet, rows_of};
ghost use Rattle.contest_import.specs.RowAdditions.{rows_or_refusal};
ghost use Rattle.contest_import.specs.SettingsObjects.{object_row};

use crate::additions::RowAdditions;
use crate::record_fault::refusal_at;
use crate::settings_objects::object_row;
use contest_files::{items_of, value_of};
use contest_types::{Entry, Fixed, Refusal, RowFault, Rows, SettingsKind};
use serde_json::Value;
use std::alloc::Global;

/// The rows that a JSON file of settings adds to what stands, in its order (Contest API 2023-06).
///
/// # Errors
///
/// `Malformed` where the file isn't an array; else its first object at fault, with its number, from
/// 1, and the cause (`ImportRow`); or want of memory.
pub fn read_settings_json(
    alloc: Global,
    kind: SettingsKind,
    bytes: &[u8],
    fixed: &Fixed,
) -> Result<Rows<Entry>, Refusal>
    ensures ok { IfOk result (λ rows. settings_rows kind fixed.now bytes.now ≡ Ok rows) }
    ensures err { IfErr result (λ e. Refuses e (settings_rows kind fixed.now bytes.now)) }
{
    let value = value_of(alloc, bytes)?;
    match items_of(&value) {
        Some(objects) => rows_of(alloc, kind, objects, fixed),
        None => Err(Refusal::Malformed),
    }
}

// The rows that objects add to what stands.
fn rows_of(
    alloc: Global,
    kind: SettingsKind,
    objects: &[Value],
    fixed: &Fixed,
) -> Result<Rows<Entry>, Refusal>
    ensures ok { IfOk result (λ rows. rows_of (object_row kind) fixed.now (map view objects.now) ≡ Ok rows) }
    ensures err { IfErr result (λ e. Refuses e (rows_of (object_row kind) fixed.now (map view objects.now))) }
{
    let mut additions = RowAdditions::new(alloc, fixed)?;
    let taken = take_all(alloc, kind, &mut additions, objects);
    additions.rows_if(taken)
}

// Takes the rows of objects, which are numbered from 1.
fn take_all(
    alloc: Global,
    kind: SettingsKind,
    additions: &mut RowAdditions,
    objects: &[Value],
) -> Result<(), Refusal>
    ensures ok { OnOk result (after_records (object_row kind) additions.old 1 (map view objects.now) ≡ Ok additions.new) }
    ensures err { IfErr result (λ e. Refuses e (rows_or_refusal (after_records (object_row kind) additions.old 1 (map view objects.now)))) }
{
    let mut rest = objects;
    let mut number = 1;
    while let Some((object, others)) = rest.split_first() {
        take_numbered(alloc, kind, additions, number, object)?;
        rest = others;
        number += 1;
    }
    Ok(())
}

fn take_numbered(
    alloc: Global,
    kind: SettingsKind,
    additions: &mut RowAdditions,
    number: u64,
    object: &Value,
) -> Result<(), Refusal>
    ensures ok { OnOk result ((rest : List Data) → after_records (object_row kind) additions.old number (view object.now ∷ rest) ≡ after_records (object_row kind) additions.new (number + 1) rest) }
    ensures err { IfErr result (λ e. (rest : List Data) → Refuses e (rows_or_refusal (after_records (object_row kind) additions.old number (view object.now ∷ rest)))) }
{
    match take(alloc, kind, additions, object) {
        Ok(()) => Ok(()),
        Err(fault) => Err(refusal_at(number, fault)),
    }
}

fn take(
    alloc: Global,
    kind: SettingsKind,
    additions: &mut RowAdditions,
    object: &Value,
) -> Result<(), RowFault>
    ensures ok { OnOk result (after_record additions.old (object_row kind additions.old.fixed (view object.now)) ≡ Ok additions.new) }
    ensures err { IfErr result (λ e. IsFaultOf e (after_record additions.old (object_row kind additions.old.fixed (view object.now)))) }
{
    let row = object_row(alloc, kind, additions.fixed(), object)?;
    additions.take(alloc, row)
}
