//! The teams that the records of CSV files tell of.
ghost use Rattle.std.specs.Prelude.{◌≡◌, ◌<◌, ◌==◌, ◌∷◌, [], Ok, IfOk, IfErr, IfSome, length, map};
ghost use Rattle.std.specs.List.{position};
ghost use Rattle.std.specs.Option.{option_and_then, option_map_or};
ghost use Rattle.csv.specs.Records.{fields_of};
ghost use Rattle.contest_types.specs.Options.{all_some};
ghost use Rattle.contest_types.specs.Additions.{IsFaultOf};
ghost use Rattle.contest_types.specs.IdText.{id_of};
ghost use Rattle.contest_import.specs.CsvFiles.{four_of, ids_of, team_fields, team_record};
ghost use Rattle.contest_types.specs.Words.{words};

use crate::TeamRow;
use crate::csv_record::{CsvRecord, four_fields};
use crate::record_fault::memory_of;
use crate::teams::team_or_malformed;
use contest_files::flag_or_empty;
use contest_types::{Entry, Fixed, Id, Name, Refusal, RowFault, Rows};
use csv::ByteRecord;
use std::alloc::Global;

/// The row of the team that a record tells of.
///
/// # Errors
///
/// A record that tells of none (`Malformed`), a group that isn't there (`UnknownReference`), or
/// want of memory.
pub(crate) fn team_record(alloc: Global, fixed: &Fixed, row: &ByteRecord) -> Result<Entry, RowFault>
    ensures ok { IfOk result (λ entry. team_record fixed.now (fields_of row.now) ≡ Ok entry) }
    ensures err { IfErr result (λ e. IsFaultOf e (team_record fixed.now (fields_of row.now))) }
{
    match team_told(alloc, row) {
        Ok(told) => team_or_malformed(alloc, &fixed.settings, told),
        Err(refusal) => Err(memory_of(refusal)),
    }
}

fn team_told(alloc: Global, row: &ByteRecord) -> Result<Option<TeamRow>, Refusal>
    ensures value { IfOk result (λ found. found ≡ option_and_then team_fields (four_of (fields_of row.now))) }
    ensures err { IfErr result (λ e. e ≡ Refusal.Memory) }
{
    match four_fields(row) {
        Some(fields) => team_fields(alloc, &fields),
        None => Ok(None),
    }
}

fn team_fields(alloc: Global, fields: &CsvRecord<'_>) -> Result<Option<TeamRow>, Refusal>
    ensures value { IfOk result (λ found. found ≡ team_fields fields.now) }
    ensures err { IfErr result (λ e. e ≡ Refusal.Memory) }
{
    let Some(id) = Id::from_bytes(alloc, fields.first)? else {
        return Ok(None);
    };
    let Some(name) = Name::from_bytes(alloc, fields.second)? else {
        return Ok(None);
    };
    let Some(groups) = ids_of(alloc, fields.third)? else {
        return Ok(None);
    };
    let Some(hidden) = flag_or_empty(fields.fourth) else {
        return Ok(None);
    };
    Ok(Some(TeamRow {
        id,
        name,
        groups,
        hidden,
    }))
}

// The ids in a text, one space between each two; an empty text has none.
fn ids_of(alloc: Global, text: &[u8]) -> Result<Option<Rows<Id>>, Refusal>
    ensures value { IfOk result (λ found. found ≡ ids_of text.now) }
    ensures err { IfErr result (λ e. e ≡ Refusal.Memory) }
{
    if text.is_empty() {
        return Ok(Some(Rows::new(alloc)));
    }
    ids_named(alloc, text)
}

fn ids_named(alloc: Global, text: &[u8]) -> Result<Option<Rows<Id>>, Refusal>
    ensures value { IfOk result (λ found. found ≡ all_some (map id_of (words text.now))) }
    ensures err { IfErr result (λ e. e ≡ Refusal.Memory) }
{
    let mut ids = Rows::new(alloc);
    let mut rest = Some(text);
    while let Some(text) = rest {
        let (word, more) = cut(text);
        match Id::from_bytes(alloc, word)? {
            Some(id) => ids.push(id)?,
            None => return Ok(None),
        }
        rest = more;
    }
    Ok(Some(ids))
}

// The text before the first space, and the one after it.
#[tactic(auto, using(contest_types::proofs::WordLemmas::cut_there, contest_types::proofs::WordLemmas::cut_nowhere))]
fn cut(text: &[u8]) -> (&[u8], Option<&[u8]>)
    ensures parts { words text.now ≡ result.0.now ∷ option_map_or (λ rest. words rest.now) result.1 [] }
    ensures shorter { IfSome result.1 (λ rest. length rest.now < length text.now) }
{
    match space_at(text) {
        Some(at) => (text.split_at(at).0, Some(text.split_at(at + 1).1)),
        None => (text, None),
    }
}

fn space_at(text: &[u8]) -> Option<usize>
    ensures place { result ≡ position (λ c. c == 32) text.now }
    ensures within { IfSome result (λ at. at < length text.now) }
{
    text.iter().position(|byte| *byte == b' ')
}
