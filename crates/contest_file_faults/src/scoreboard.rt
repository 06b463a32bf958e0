//! Another system's scoreboard that is off its form.

use crate::field_faults::tell_field_faults;
use crate::form::{Field, Form, ID_TEXT, Syntax};
use crate::json_file::{Parsed, read_json};
use crate::off_form::{tell_json_fault, tell_kind};
use crate::reader::{FileReader, is_off_form};
use crate::record::Record;
use crate::report::Report;
use serde_json::Value;
use std::alloc::{AllocError, Global};

/// A row.
static ROW: Form = Form {
    syntax: Syntax::Json,
    reader: FileReader::Scoreboard,
    columns: "",
    before: r#"{"rows":[{"#,
    after: "}]}",
    fields: &[
        Field {
            name: "team_id",
            samples: [r#""x""#, r#""x""#],
            right: ID_TEXT,
        },
        Field {
            name: "rank",
            samples: ["0", "0"],
            right: "a whole number from 0 to 4294967295",
        },
        Field {
            name: "score",
            samples: [
                r#"{"num_solved":0,"total_time":0}"#,
                r#"{"num_solved":0,"total_time":0}"#,
            ],
            right: "an object with num_solved, a whole number, and total_time, whole minutes or h:mm:ss",
        },
        Field {
            name: "problems",
            samples: ["", ""],
            right: "an array of cells, each with its own problem_id, and with num_judged, num_pending, \
             solved and time, which may be left out",
        },
    ],
    together: "",
    references: &[],
    keys: &[],
    full: "",
};

/// Tells of a file with a scoreboard. The error is want of memory.
pub fn tell_scoreboard(
    alloc: Global,
    source: &str,
    file: &[u8],
    report: &mut Report,
) -> Result<(), AllocError> {
    match read_json(alloc, file)? {
        Parsed::Fault(fault) => tell_json_fault(source, fault, report),
        Parsed::Value(value) => match value.get("rows").and_then(Value::as_array) {
            Some(rows) => tell_rows(alloc, source, rows.as_slice(), report),
            None => tell_kind(
                source,
                &value,
                "an object whose member rows is an array",
                report,
            ),
        },
    }
}

// Tells of the first row that is off its form.
fn tell_rows(
    alloc: Global,
    source: &str,
    rows: &[Value],
    report: &mut Report,
) -> Result<(), AllocError> {
    for place in 0..rows.len() {
        if is_row_off_form(alloc, &rows[place])? {
            return tell_row(alloc, source, &rows[place], place, report);
        }
    }
    report.line("Two of its rows have one team_id.")
}

// Whether a row is none, whatever is beside it.
fn is_row_off_form(alloc: Global, row: &Value) -> Result<bool, AllocError> {
    let text = row.to_string(alloc)?;
    let mut board = Vec::from_slice(alloc, br#"{"rows":["#)?;
    board.extend_from_slice(text.as_bytes())?;
    board.extend_from_slice(b"]}")?;
    is_off_form(alloc, FileReader::Scoreboard, &board)
}

fn tell_row(
    alloc: Global,
    source: &str,
    row: &Value,
    place: usize,
    report: &mut Report,
) -> Result<(), AllocError> {
    report.begin()?;
    report.say("Row ")?;
    report.number(place.saturating_add(1) as u64)?;
    report.say(" of ")?;
    report.path(source)?;
    report.say(":")?;
    report.end()?;
    if row.is_object() {
        let record = Record::of_object(alloc, &ROW, row)?;
        tell_field_faults(alloc, &ROW, &record, report)?;
        Ok(())
    } else {
        report.line("It is no object.")
    }
}
