//! Clarifications as rows, and the clarification that a row is.
ghost use Rattle.std.specs.Prelude.{◌≡◌, ◌<◌, ◌+◌, ◌^◌, IfOk, IfSome, map};
ghost use Rattle.std.specs.Option.{option_map};
ghost use Rattle.sqlite_value.specs.Order.{column};
ghost use Rattle.sqlite_value.specs.Value.{owned};
ghost use Rattle.sqlite_value.specs.declared.value.Value.TheVariants.{Text as TextCell};
ghost use Rattle.sqlite.specs.Values.{or_null};
ghost use Rattle.contest_types.specs.ClarificationText.{text_from};
ghost use Rattle.contest_types.specs.IdText.{id_of};
ghost use Rattle.contest_types.specs.ProblemPlaces.{problem_id_at};
ghost use Rattle.contest_types.specs.declared.objects.Problem.{Problem as TheProblem};
ghost use Rattle.contest_store_rows.specs.Cells.{lent, number_of, same_row, text_of};
ghost use Rattle.contest_store_rows.specs.Clarifications.{addressee_of, clarification_in};
ghost use Rattle.contest_store_rows.specs.Clarifications.{clarification_said, reply_if_any};
ghost use Rattle.contest_store_rows.specs.ListRows.{audience_kind, audience_number};
ghost use Rattle.contest_store_rows.specs.ListRows.{clarification_row, reference_id};
ghost use Rattle.contest_store_rows.specs.Readings.{if_its_row, place_if_any};

use crate::cells::{id_if_any, id_or_null, is_null, is_row, number, number_at, text_at};
use crate::lists::Listed;
use crate::references::{ReplyId, reference_of};
use contest_types::{Addressee, Clarification, Id, Moment, Reference, Settings, Text};
use sqlite::Row;
use sqlite::types::ValueRef;
use std::alloc::{AllocError, Global};

/// The cells of the row with a number, from 1, that keeps a clarification. The id of the one that
/// it answers is made before.
pub fn clarification_cells<'a>(
    settings: &'a Settings,
    row: u64,
    clarification: &'a Clarification,
    reply: &'a ReplyId,
) -> [ValueRef<'a>; 11]
    requires row { row < 2 ^ 63 }
    requires audience { audience_number clarification.now.addressee < 2 ^ 63 }
    requires number { clarification.now.number < 2 ^ 63 }
    requires reply { reply.now ≡ option_map reference_id clarification.now.reply }
    ensures { lent result ≡ clarification_row settings.now row clarification.now }
{
    [
        number(row),
        number(audience_kind(clarification.addressee)),
        number(audience_number(clarification.addressee)),
        number(clarification.number as u64),
        number(clarification.from_jury as u64),
        ValueRef::Text(clarification.account.as_bytes()),
        problem_cell(settings, clarification.problem),
        reply.cell(),
        ValueRef::Text(clarification.text.as_str().as_bytes()),
        number(clarification.time.milliseconds()),
        id_or_null(&clarification.key),
    ]
}

fn audience_kind(addressee: Addressee) -> u64
    ensures { result ≡ audience_kind addressee }
{
    match addressee {
        Addressee::All => 0,
        Addressee::Team(_) => 1,
        Addressee::Group(_) => 2,
    }
}

fn audience_number(addressee: Addressee) -> u64
    requires { audience_number addressee < 2 ^ 63 }
    ensures { result ≡ audience_number addressee }
{
    match addressee {
        Addressee::All => 0,
        Addressee::Team(place) | Addressee::Group(place) => place as u64 + 1,
    }
}

fn problem_cell(settings: &Settings, problem: Option<usize>) -> ValueRef<'_>
    ensures { owned result ≡ or_null TextCell (option_map (problem_id_at settings.now.problems) problem) }
{
    match problem {
        Some(problem) => ValueRef::Text(settings.problem_id(problem).as_bytes()),
        None => ValueRef::Null,
    }
}

fn addressee_of(kind: u64, number: u64) -> Addressee
    ensures { result ≡ addressee_of kind number }
{
    let place = (number as usize).saturating_sub(1);
    match kind {
        0 => Addressee::All,
        1 => Addressee::Team(place),
        _ => Addressee::Group(place),
    }
}

fn problem_if_any(settings: &Settings, row: &Row, at: usize) -> Option<usize>
    ensures { result ≡ place_if_any (map (λ (p : TheProblem). p.id) settings.now.problems) (column row.now at) }
{
    if is_null(row, at) {
        return None;
    }
    Some(settings.problem_place(text_at(row, at)).unwrap_or(0))
}

// The clarification that one answers, or NULL; none where the cell holds something else.
fn reply_if_any(row: &Row, at: usize) -> Option<Option<Reference>>
    ensures { result ≡ reply_if_any (column row.now at) }
{
    if is_null(row, at) {
        return Some(None);
    }
    match reference_of(text_at(row, at)) {
        Some(reference) => Some(Some(reference)),
        None => None,
    }
}

fn id_at(alloc: Global, row: &Row, at: usize) -> Result<Option<Id>, AllocError>
    ensures { IfOk result (λ found. found ≡ id_of (text_of (column row.now at))) }
{
    match Id::from_bytes(alloc, text_at(row, at)) {
        Ok(id) => Ok(id),
        Err(_) => Err(AllocError),
    }
}

fn message_at(alloc: Global, row: &Row, at: usize) -> Result<Option<Text>, AllocError>
    ensures { IfOk result (λ found. found ≡ text_from (text_of (column row.now at))) }
{
    match Text::from_bytes(alloc, text_at(row, at)) {
        Ok(text) => Ok(text),
        Err(_) => Err(AllocError),
    }
}

// What the cells say, if the texts, the reply and the time are some.
fn clarification_said(
    alloc: Global,
    settings: &Settings,
    row: &Row,
) -> Result<Option<Clarification>, AllocError>
    ensures said { IfOk result (λ found. found ≡ clarification_said settings.now row.now) }
    ensures fits { IfOk result (λ found. IfSome found (λ c. (audience_number c.addressee < 2 ^ 63) × (c.number < 2 ^ 63))) }
{
    let Some(time) = Moment::from_milliseconds(number_at(row, 9)) else {
        return Ok(None);
    };
    let Some(account) = id_at(alloc, row, 5)? else {
        return Ok(None);
    };
    let Some(key) = id_if_any(alloc, row, 10)? else {
        return Ok(None);
    };
    let Some(reply) = reply_if_any(row, 7) else {
        return Ok(None);
    };
    let Some(text) = message_at(alloc, row, 8)? else {
        return Ok(None);
    };
    Ok(Some(Clarification {
        addressee: addressee_of(number_at(row, 1), number_at(row, 2)),
        number: number_at(row, 3) as usize,
        from_jury: number_at(row, 4) == 1,
        account,
        problem: problem_if_any(settings, row, 6),
        reply,
        text,
        time,
        key,
    }))
}

fn is_its_row(
    settings: &Settings,
    row_number: u64,
    row: &Row,
    clarification: &Clarification,
) -> bool
    requires row { row_number < 2 ^ 63 }
    requires audience { audience_number clarification.now.addressee < 2 ^ 63 }
    requires number { clarification.now.number < 2 ^ 63 }
    ensures { result ≡ same_row row.now (clarification_row settings.now row_number clarification.now) }
{
    let reply = ReplyId::of(clarification.reply);
    is_row(
        row,
        &clarification_cells(settings, row_number, clarification, &reply),
    )
}

impl Listed for Clarification {
    ghost row_in = { clarification_in };

    fn read(
        alloc: Global,
        settings: &Settings,
        number: u64,
        row: &Row,
    ) -> Result<Option<Clarification>, AllocError> {
        let Some(clarification) = clarification_said(alloc, settings, row)? else {
            return Ok(None);
        };
        let its = is_its_row(settings, number, row, &clarification);
        Ok(its.then_some(clarification))
    }
}
