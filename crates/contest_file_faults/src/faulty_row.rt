//! The record of a file that is at fault.

use crate::csv_file::{Row, row_at};
use crate::csv_forms::{ACCOUNTS_CSV, TEAMS_CSV, VERDICTS_CSV};
use crate::earlier::Earlier;
use crate::form::Form;
use crate::json_file::{Parsed, kind_of, read_json};
use crate::json_forms::settings_form;
use crate::json_lines::line_of_item;
use crate::record::Record;
use crate::replay_forms::replay_form;
use crate::report::Report;
use crate::row_fault::tell_cause;
use contest_types::{Cause, FixedKind, ImportKind};
use serde_json::Value;
use std::alloc::{AllocError, Global};

/// A file with a record at fault.
#[derive(Clone, Copy)]
pub struct Faulty<'a> {
    /// What the file is called.
    pub source: &'a str,
    /// Its bytes.
    pub file: &'a [u8],
    /// The number of the record, from 1.
    pub number: u64,
    /// Why it is at fault.
    pub cause: Cause,
}

/// Tells of the record of an imported file. The error is want of memory.
pub fn tell_imported_row(
    alloc: Global,
    kind: ImportKind,
    faulty: &Faulty<'_>,
    report: &mut Report,
) -> Result<(), AllocError> {
    match kind {
        ImportKind::Fixed(FixedKind::Settings(kind)) => {
            tell_object(alloc, settings_form(kind), faulty, report)
        }
        ImportKind::Fixed(FixedKind::TeamsCsv) => tell_row(alloc, &TEAMS_CSV, faulty, report),
        ImportKind::Fixed(FixedKind::AccountsCsv) => tell_row(alloc, &ACCOUNTS_CSV, faulty, report),
        ImportKind::VerdictsCsv => tell_row(alloc, &VERDICTS_CSV, faulty, report),
    }
}

/// Tells of the record of a replay file. The error is want of memory.
pub fn tell_replay_row(
    alloc: Global,
    faulty: &Faulty<'_>,
    report: &mut Report,
) -> Result<(), AllocError> {
    match row_at(alloc, faulty.file, faulty.number)? {
        Some(row) => {
            let form = replay_form(row.fields.get(0).unwrap_or(b""));
            tell_found_row(alloc, form, faulty, &row, report)
        }
        None => tell_gone(report),
    }
}

fn tell_row(
    alloc: Global,
    form: &Form,
    faulty: &Faulty<'_>,
    report: &mut Report,
) -> Result<(), AllocError> {
    match row_at(alloc, faulty.file, faulty.number)? {
        Some(row) => tell_found_row(alloc, form, faulty, &row, report),
        None => tell_gone(report),
    }
}

fn tell_found_row(
    alloc: Global,
    form: &Form,
    faulty: &Faulty<'_>,
    row: &Row,
    report: &mut Report,
) -> Result<(), AllocError> {
    tell_place(faulty, row.line, report)?;
    let columns = form.columns.split(',').count();
    if row.fields.len() != columns {
        return tell_width(form, row.fields.len(), columns, report);
    }
    let record = Record::of_row(alloc, form, &row.fields)?;
    let earlier = Earlier {
        file: faulty.file,
        objects: &[],
        number: faulty.number,
    };
    tell_cause(alloc, form, &record, faulty.cause, earlier, report)
}

// Tells of the object in an array.
fn tell_object(
    alloc: Global,
    form: &Form,
    faulty: &Faulty<'_>,
    report: &mut Report,
) -> Result<(), AllocError> {
    match read_json(alloc, faulty.file)? {
        Parsed::Value(value) => tell_item(alloc, form, faulty, items(&value), report),
        Parsed::Fault(_) => tell_gone(report),
    }
}

fn items(value: &Value) -> &[Value] {
    match value.as_array() {
        Some(items) => items.as_slice(),
        None => &[],
    }
}

fn tell_item(
    alloc: Global,
    form: &Form,
    faulty: &Faulty<'_>,
    items: &[Value],
    report: &mut Report,
) -> Result<(), AllocError> {
    let before = faulty.number.saturating_sub(1) as usize;
    let (Some(object), Some(objects)) = (items.get(before), items.get(..before)) else {
        return tell_gone(report);
    };
    tell_place(faulty, line_of_item(faulty.file, faulty.number), report)?;
    if !object.is_object() {
        report.begin()?;
        report.say("It is ")?;
        report.say(kind_of(object))?;
        report.say(". Right would be: an object.")?;
        return report.end();
    }
    let record = Record::of_object(alloc, form, object)?;
    let earlier = Earlier {
        file: faulty.file,
        objects,
        number: faulty.number,
    };
    tell_cause(alloc, form, &record, faulty.cause, earlier, report)
}

// Tells in which line a record begins.
fn tell_place(faulty: &Faulty<'_>, line: u64, report: &mut Report) -> Result<(), AllocError> {
    report.begin()?;
    report.say("Record ")?;
    report.number(faulty.number)?;
    report.say(" begins in line ")?;
    report.number(line)?;
    report.say(" of ")?;
    report.path(faulty.source)?;
    report.say(".")?;
    report.end()
}

fn tell_width(
    form: &Form,
    width: usize,
    columns: usize,
    report: &mut Report,
) -> Result<(), AllocError> {
    report.begin()?;
    report.say("The number of its fields is ")?;
    report.number(width as u64)?;
    report.say(". Right would be: ")?;
    report.number(columns as u64)?;
    report.say(", as in ")?;
    report.say(form.columns)?;
    report.say(".")?;
    report.end()
}

fn tell_gone(report: &mut Report) -> Result<(), AllocError> {
    report.line("The file has no such record now: it was changed meanwhile.")
}
