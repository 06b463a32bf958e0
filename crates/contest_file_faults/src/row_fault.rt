//! What is told of a record that is at fault, by the cause.

use crate::earlier::{Earlier, Place};
use crate::field_faults::{say_field, tell_field_faults};
use crate::form::{Form, Reference};
use crate::reader::FileReader;
use crate::record::Record;
use crate::report::Report;
use contest_types::Cause;
use std::alloc::{AllocError, Global};

/// The place of the time among the fields of a submission in a replay file.
const TIME: usize = 3;

/// Tells why a record is at fault.
pub(crate) fn tell_cause(
    alloc: Global,
    form: &Form,
    record: &Record,
    cause: Cause,
    earlier: Earlier<'_>,
    report: &mut Report,
) -> Result<(), AllocError> {
    match cause {
        Cause::Malformed => tell_form(alloc, form, record, report),
        Cause::UnknownReference => tell_references(alloc, form, record, earlier, report),
        Cause::KeyReused => tell_keys(alloc, form, record, earlier, report),
        Cause::TableFull => report.line(form.full),
        Cause::AlreadyReleased => report.line(
            "The submission has a judgement that was given here. A rejudging can change it.",
        ),
        Cause::NotOpen => tell_time(form, record, report),
    }
}

/// Tells which fields are off their form.
pub(crate) fn tell_form(
    alloc: Global,
    form: &Form,
    record: &Record,
    report: &mut Report,
) -> Result<(), AllocError> {
    if tell_field_faults(alloc, form, record, report)? {
        Ok(())
    } else {
        report.line(if form.together.is_empty() {
            "Each of its fields is right. It was changed meanwhile."
        } else {
            form.together
        })
    }
}

fn tell_time(form: &Form, record: &Record, report: &mut Report) -> Result<(), AllocError> {
    report.begin()?;
    say_field(form, TIME, record.field(TIME), report)?;
    report.say(". Right would be: from 0:00:00 on, and before the contest's duration is over.")?;
    report.end()
}

// Tells of what a record names, as far as that is known not to be there.
fn tell_references(
    alloc: Global,
    form: &Form,
    record: &Record,
    earlier: Earlier<'_>,
    report: &mut Report,
) -> Result<(), AllocError> {
    for reference in form.references {
        tell_reference(alloc, form, reference, record, earlier, report)?;
    }
    match form.reader {
        FileReader::Verdicts => report.line("One of the two at least isn't there."),
        _ => Ok(()),
    }
}

fn tell_reference(
    alloc: Global,
    form: &Form,
    reference: &Reference,
    record: &Record,
    earlier: Earlier<'_>,
    report: &mut Report,
) -> Result<(), AllocError> {
    let Some(value) = record.field(reference.place) else {
        return Ok(());
    };
    if value.is_empty() || earlier.has_named(alloc, reference, value)? {
        return Ok(());
    }
    report.begin()?;
    say_field(form, reference.place, Some(value), report)?;
    report.say(". Right would be: ")?;
    report.say(reference.right)?;
    report.say(".")?;
    report.end()
}

// Tells of what a record has in common with an earlier one.
fn tell_keys(
    alloc: Global,
    form: &Form,
    record: &Record,
    earlier: Earlier<'_>,
    report: &mut Report,
) -> Result<(), AllocError> {
    let mut is_any = false;
    for place in form.keys {
        if tell_shared(alloc, form, *place, record, earlier, report)? {
            is_any = true;
        }
    }
    if is_any {
        report.line("Two records that aren't equal may not have this in common.")
    } else {
        tell_standing(form, record, report)
    }
}

// Tells of an earlier record that has the same in a field, and answers whether there is one.
fn tell_shared(
    alloc: Global,
    form: &Form,
    place: usize,
    record: &Record,
    earlier: Earlier<'_>,
    report: &mut Report,
) -> Result<bool, AllocError> {
    let Some(value) = record.field(place) else {
        return Ok(false);
    };
    match earlier.same(alloc, form, record, place, value)? {
        Some(found) => {
            tell_both(form, place, value, found, report)?;
            Ok(true)
        }
        None => Ok(false),
    }
}

fn tell_both(
    form: &Form,
    place: usize,
    value: &[u8],
    found: Place,
    report: &mut Report,
) -> Result<(), AllocError> {
    report.begin()?;
    say_field(form, place, Some(value), report)?;
    report.say("; record ")?;
    report.number(found.number)?;
    report.say(" in line ")?;
    report.number(found.line)?;
    report.say(" has the same.")?;
    report.end()
}

// Tells of what a record may have in common with what stands in the contest.
fn tell_standing(form: &Form, record: &Record, report: &mut Report) -> Result<(), AllocError> {
    for place in form.keys {
        report.begin()?;
        say_field(form, *place, record.field(*place), report)?;
        report.say(".")?;
        report.end()?;
    }
    report.line(match form.reader {
        FileReader::Feed => "At the feed's end another one that came first has the same.",
        _ => "The contest has this already, with other content beside it.",
    })
}
