//! What is told of a field of a record.

use crate::form::{Form, Syntax};
use crate::probe::is_field_off_form;
use crate::reader::FileReader;
use crate::record::Record;
use crate::report::Report;
use contest_types::FixedKind;
use contest_types::limits::SHORTEST_TOKEN;
use std::alloc::{AllocError, Global};

/// The place of the token among the fields of an account.
const TOKEN: usize = 3;

/// Tells of each field that is at fault by itself, and answers whether one is.
pub(crate) fn tell_field_faults(
    alloc: Global,
    form: &Form,
    record: &Record,
    report: &mut Report,
) -> Result<bool, AllocError> {
    let mut is_any = false;
    for place in 0..form.fields.len() {
        let value = record.field(place);
        if is_field_off_form(alloc, form, place, value)? {
            tell_fault(form, place, value, report)?;
            is_any = true;
        }
    }
    Ok(is_any)
}

// Tells of a field, and what would be right.
fn tell_fault(
    form: &Form,
    place: usize,
    value: Option<&[u8]>,
    report: &mut Report,
) -> Result<(), AllocError> {
    let Some(field) = form.fields.get(place) else {
        return Ok(());
    };
    report.begin()?;
    say_field(form, place, value, report)?;
    report.say(". Right would be: ")?;
    report.say(field.right)?;
    report.say(".")?;
    report.end()
}

/// Says in a line what a field is.
pub(crate) fn say_field(
    form: &Form,
    place: usize,
    value: Option<&[u8]>,
    report: &mut Report,
) -> Result<(), AllocError> {
    if let Some(field) = form.fields.get(place) {
        report.say(field.name)?;
    }
    match value {
        None => report.say(" is missing"),
        Some(value) => say_value(form, place, value, report),
    }
}

fn say_value(
    form: &Form,
    place: usize,
    value: &[u8],
    report: &mut Report,
) -> Result<(), AllocError> {
    if may_be_token(form, place, value) {
        return report.say(if place == TOKEN {
            " isn't shown"
        } else {
            " isn't shown, since it may be a token"
        });
    }
    report.say(" is ")?;
    match form.syntax {
        Syntax::Csv => report.quoted(value),
        Syntax::Json => report.plain(value),
    }
}

// Whether a value may be a token: in a file of accounts each that is long enough for one, since it
// may stand in the wrong column.
fn may_be_token(form: &Form, place: usize, value: &[u8]) -> bool {
    match form.reader {
        FileReader::Import(FixedKind::AccountsCsv) => {
            place == TOKEN || value.len() >= SHORTEST_TOKEN
        }
        _ => false,
    }
}
