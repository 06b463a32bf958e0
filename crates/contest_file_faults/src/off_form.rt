//! What is told of a file that is off its form as a whole.

use crate::csv_file::row_at;
use crate::csv_forms::{ACCOUNTS_CSV, TEAMS_CSV, VERDICTS_CSV};
use crate::form::Form;
use crate::json_file::{JsonFault, Parsed, kind_of, read_json};
use crate::json_forms::CONTEST;
use crate::record::Record;
use crate::replay_forms::replay_form;
use crate::report::Report;
use crate::row_fault::tell_form;
use contest_types::{FixedKind, ImportKind};
use csv::ByteRecord;
use serde_json::Value;
use std::alloc::{AllocError, Global};

/// Tells of an imported file. The error is want of memory.
pub fn tell_imported_file(
    alloc: Global,
    kind: ImportKind,
    source: &str,
    file: &[u8],
    report: &mut Report,
) -> Result<(), AllocError> {
    match kind {
        ImportKind::Fixed(FixedKind::Settings(_)) => tell_array(alloc, source, file, report),
        ImportKind::Fixed(FixedKind::TeamsCsv) => {
            tell_header(alloc, &TEAMS_CSV, source, file, report)
        }
        ImportKind::Fixed(FixedKind::AccountsCsv) => {
            tell_header(alloc, &ACCOUNTS_CSV, source, file, report)
        }
        ImportKind::VerdictsCsv => tell_header(alloc, &VERDICTS_CSV, source, file, report),
    }
}

/// Tells of a replay file. The error is want of memory.
pub fn tell_replay_file(
    alloc: Global,
    source: &str,
    file: &[u8],
    report: &mut Report,
) -> Result<(), AllocError> {
    let form = replay_form(b"contest");
    match row_at(alloc, file, 0)? {
        Some(row) if is_header(form, &row.fields) => {
            report.line("No record of five fields has contest as its first field.")
        }
        _ => tell_header(alloc, form, source, file, report),
    }
}

/// Tells of a file with the contest that is to be set up. The error is want of memory.
pub fn tell_contest(
    alloc: Global,
    source: &str,
    file: &[u8],
    report: &mut Report,
) -> Result<(), AllocError> {
    match read_json(alloc, file)? {
        Parsed::Fault(fault) => tell_json_fault(source, fault, report),
        Parsed::Value(value) => {
            if !value.is_object() {
                return tell_kind(source, &value, "an object", report);
            }
            let record = Record::of_object(alloc, &CONTEST, &value)?;
            tell_source(source, report)?;
            tell_form(alloc, &CONTEST, &record, report)
        }
    }
}

// Tells of a file that has to be an array.
fn tell_array(
    alloc: Global,
    source: &str,
    file: &[u8],
    report: &mut Report,
) -> Result<(), AllocError> {
    match read_json(alloc, file)? {
        Parsed::Fault(fault) => tell_json_fault(source, fault, report),
        Parsed::Value(value) => tell_kind(source, &value, "an array of objects", report),
    }
}

/// Tells where a text is no JSON any more.
pub(crate) fn tell_json_fault(
    source: &str,
    fault: JsonFault,
    report: &mut Report,
) -> Result<(), AllocError> {
    report.begin()?;
    report.path(source)?;
    if fault.is_cut {
        report.say(" has no whole JSON: it is cut off")?;
    } else {
        report.say(" is no JSON (RFC 8259, in UTF-8 without a byte order mark) from byte ")?;
        report.number(fault.column)?;
        report.say(" on")?;
    }
    report.say(" in line ")?;
    report.number(fault.line)?;
    report.say(".")?;
    report.end()
}

/// Tells what a JSON text is that has to be something else.
pub(crate) fn tell_kind(
    source: &str,
    value: &Value,
    right: &str,
    report: &mut Report,
) -> Result<(), AllocError> {
    report.begin()?;
    report.path(source)?;
    report.say(" is ")?;
    report.say(kind_of(value))?;
    report.say(". Right would be: ")?;
    report.say(right)?;
    report.say(".")?;
    report.end()
}

/// Tells which file it is.
pub(crate) fn tell_source(source: &str, report: &mut Report) -> Result<(), AllocError> {
    report.begin()?;
    report.path(source)?;
    report.say(":")?;
    report.end()
}

// Whether a record has the names of the columns.
fn is_header(form: &Form, fields: &ByteRecord) -> bool {
    fields.len() == form.columns.split(',').count()
        && fields
            .iter()
            .zip(form.columns.split(','))
            .all(|(field, name)| field == name.as_bytes())
}

// Tells of a first record that isn't the header.
fn tell_header(
    alloc: Global,
    form: &Form,
    source: &str,
    file: &[u8],
    report: &mut Report,
) -> Result<(), AllocError> {
    report.begin()?;
    report.say("The first record of ")?;
    report.path(source)?;
    report.say(" isn't the header. Right would be: ")?;
    report.say(form.columns)?;
    report.end()?;
    match habit_of(alloc, file)? {
        Some(habit) => report.line(habit),
        None => Ok(()),
    }
}

// What a spreadsheet often does to a file of CSV, if it did that here.
fn habit_of(alloc: Global, file: &[u8]) -> Result<Option<&'static str>, AllocError> {
    if file.starts_with(&[255, 254]) || file.starts_with(&[254, 255]) {
        return Ok(Some("The file is UTF-16. Save it as UTF-8."));
    }
    match row_at(alloc, file, 0)? {
        None => Ok(Some("The file has no record.")),
        Some(row) => Ok(separator_of(&row.fields)),
    }
}

fn separator_of(fields: &ByteRecord) -> Option<&'static str> {
    let only = match fields.get(0) {
        Some(only) if fields.len() == 1 => only,
        _ => return None,
    };
    if only.contains(&b';') {
        Some("It has semicolons between its fields. Save it with commas.")
    } else if only.contains(&b'\t') {
        Some("It has tabs between its fields. Save it with commas.")
    } else {
        None
    }
}
