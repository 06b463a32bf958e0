//! The line of an event feed that is at fault.

use crate::earlier::Earlier;
use crate::faulty_row::Faulty;
use crate::feed_forms::{EVENT, feed_form};
use crate::field_faults::tell_field_faults;
use crate::form::Form;
use crate::json_file::{JsonFault, Parsed, kind_of, read_json};
use crate::off_form::tell_json_fault;
use crate::record::Record;
use crate::report::Report;
use crate::row_fault::tell_cause;
use contest_files::text_in;
use contest_types::Cause;
use serde_json::Value;
use std::alloc::{AllocError, Global};

/// Tells of a feed in which no contest stands at the end. The error is want of memory.
pub fn tell_no_contest(report: &mut Report) -> Result<(), AllocError> {
    report.line("At the feed's end there is no object of the type contest or contests.")
}

/// Tells of the line of a feed, whose bytes are as far as they were kept. The error is want of memory.
pub fn tell_event(
    alloc: Global,
    faulty: &Faulty<'_>,
    report: &mut Report,
) -> Result<(), AllocError> {
    let before = faulty.number.saturating_sub(1) as usize;
    match faulty.file.split(|byte| *byte == b'\n').nth(before) {
        Some(line) => tell_line(alloc, line, faulty, report),
        None => report.line("The line is behind the first 64 MiB, which alone are looked at."),
    }
}

fn tell_line(
    alloc: Global,
    line: &[u8],
    faulty: &Faulty<'_>,
    report: &mut Report,
) -> Result<(), AllocError> {
    match read_json(alloc, line)? {
        Parsed::Fault(fault) => {
            let fault = JsonFault {
                line: faulty.number,
                ..fault
            };
            tell_json_fault(faulty.source, fault, report)
        }
        Parsed::Value(value) => {
            tell_number(faulty, report)?;
            tell_value(alloc, &value, faulty.cause, report)
        }
    }
}

fn tell_number(faulty: &Faulty<'_>, report: &mut Report) -> Result<(), AllocError> {
    report.begin()?;
    report.say("It is line ")?;
    report.number(faulty.number)?;
    report.say(" of ")?;
    report.path(faulty.source)?;
    report.say(".")?;
    report.end()
}

fn tell_value(
    alloc: Global,
    value: &Value,
    cause: Cause,
    report: &mut Report,
) -> Result<(), AllocError> {
    if !value.is_object() {
        report.begin()?;
        report.say("It is ")?;
        report.say(kind_of(value))?;
        report.say(". Right would be: an object.")?;
        return report.end();
    }
    let event = Record::of_object(alloc, &EVENT, value)?;
    if cause == Cause::Malformed && tell_field_faults(alloc, &EVENT, &event, report)? {
        return Ok(());
    }
    match (
        text_in(value, "type").and_then(feed_form),
        value.get("data"),
    ) {
        (Some(form), Some(data)) => tell_data(alloc, form, data, cause, report),
        _ => report.line(EVENT.together),
    }
}

// Tells of the data of an event of a type that is read.
fn tell_data(
    alloc: Global,
    form: &Form,
    data: &Value,
    cause: Cause,
    report: &mut Report,
) -> Result<(), AllocError> {
    match data.as_array() {
        Some(items) => tell_items(alloc, form, items.as_slice(), cause, report),
        None => {
            if data.is_object() {
                tell_object(alloc, form, data, cause, report)
            } else {
                report.line(EVENT.together)
            }
        }
    }
}

fn tell_object(
    alloc: Global,
    form: &Form,
    object: &Value,
    cause: Cause,
    report: &mut Report,
) -> Result<(), AllocError> {
    let record = Record::of_object(alloc, form, object)?;
    let earlier = Earlier {
        file: &[],
        objects: &[],
        number: 0,
    };
    tell_cause(alloc, form, &record, cause, earlier, report)
}

// Tells of the first object of an array that is off its form. Of another cause no line says which
// object it is.
fn tell_items(
    alloc: Global,
    form: &Form,
    items: &[Value],
    cause: Cause,
    report: &mut Report,
) -> Result<(), AllocError> {
    if cause != Cause::Malformed {
        return report.line("It is one of the objects in the array.");
    }
    for place in 0..items.len() {
        if tell_item(alloc, form, &items[place], place, report)? {
            return Ok(());
        }
    }
    report.line(form.together)
}

// Tells of an object of an array, if a field of it is off its form; answers whether one is.
fn tell_item(
    alloc: Global,
    form: &Form,
    object: &Value,
    place: usize,
    report: &mut Report,
) -> Result<bool, AllocError> {
    let record = Record::of_object(alloc, form, object)?;
    if !tell_field_faults(alloc, form, &record, report)? {
        return Ok(false);
    }
    report.begin()?;
    report.say("So it is in object ")?;
    report.number(place.saturating_add(1) as u64)?;
    report.say(" of the array.")?;
    report.end()?;
    Ok(true)
}
