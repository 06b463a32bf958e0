//! The board as CSV.
ghost use Rattle.std.specs.Prelude.{◌≡◌, ◌++◌, OnOk, IfOk, [], map, string_bytes};
ghost use Rattle.std.specs.List.{flat_map};
ghost use Rattle.csv.specs.Records.{fields_of, partial_of};
ghost use Rattle.contest_types.specs.ProblemPlaces.{label_at};
ghost use Rattle.contest_text.specs.BoardCsv.{board_csv, header_fields, last_text, row_fields};
ghost use Rattle.contest_text.specs.BoardCsv.{row_record};
ghost use Rattle.contest_text.specs.CellText.{cell_text};

use crate::board::number_text;
use crate::cell_text::write_cell;
use crate::csv_record::{push_fields, record_text};
use contest_score::{Board, Cell, Row};
use contest_types::{Minute, Settings};
use csv::ByteRecord;
use std::alloc::{AllocError, Global};

/// The CSV of a board of these settings: the header `rank,team_id,team,solved,time,last` with the
/// labels of the board's columns, and a record for each of its rows. `last` is empty if nothing is
/// solved.
///
/// # Errors
///
/// Want of memory alone.
pub fn board_csv(alloc: Global, settings: &Settings, board: &Board) -> Result<Vec<u8>, AllocError>
    ensures { IfOk result (λ text. text.items ≡ board_csv settings.now board.now) }
{
    let header = header_fields(alloc, settings, board.columns())?;
    let mut text = record_text(alloc, &header)?;
    push_rows(alloc, &mut text, settings, board.rows())?;
    Ok(text)
}

fn header_fields(
    alloc: Global,
    settings: &Settings,
    columns: &[usize],
) -> Result<ByteRecord, AllocError>
    ensures { IfOk result (λ r. fields_of r ≡ header_fields settings.now columns.now) }
{
    let mut fields = ByteRecord::new(alloc);
    let names = ["rank", "team_id", "team", "solved", "time", "last"];
    push_fields(&mut fields, &names)?;
    push_labels(&mut fields, settings, columns)?;
    Ok(fields)
}

fn push_labels(
    fields: &mut ByteRecord,
    settings: &Settings,
    columns: &[usize],
) -> Result<(), AllocError>
    requires { partial_of fields.old ≡ [] }
    ensures fields { OnOk result (fields_of fields.new ≡ fields_of fields.old ++ map (label_at settings.now) columns.now) }
    ensures whole { OnOk result (partial_of fields.new ≡ []) }
{
    for place in columns {
        fields.push_field(settings.problem_label(*place).as_bytes())?;
    }
    Ok(())
}

/// Pushes a record for each row.
fn push_rows(
    alloc: Global,
    text: &mut Vec<u8>,
    settings: &Settings,
    rows: &[Row],
) -> Result<(), AllocError>
    ensures { OnOk result (text.new.items ≡ text.old.items ++ flat_map (row_record settings.now) rows.now) }
{
    for row in rows {
        push_row(alloc, text, settings, row)?;
    }
    Ok(())
}

fn push_row(
    alloc: Global,
    text: &mut Vec<u8>,
    settings: &Settings,
    row: &Row,
) -> Result<(), AllocError>
    ensures { OnOk result (text.new.items ≡ text.old.items ++ row_record settings.now row.now) }
{
    let fields = row_fields(alloc, settings, row)?;
    let record = record_text(alloc, &fields)?;
    text.extend_from_slice(&record)
}

/// A team's rank, id, name, problems solved, total time, last minute and cells.
fn row_fields(alloc: Global, settings: &Settings, row: &Row) -> Result<ByteRecord, AllocError>
    ensures { IfOk result (λ r. fields_of r ≡ row_fields settings.now row.now) }
{
    let rank = number_text(alloc, u64::from(row.rank))?;
    let solved = number_text(alloc, u64::from(row.score.solved))?;
    let time = number_text(alloc, row.score.total)?;
    let last = last_text(alloc, row.score.last)?;
    let texts = [
        rank.as_str(),
        settings.team_id(row.team),
        settings.team_name(row.team),
        solved.as_str(),
        time.as_str(),
        last.as_str(),
    ];
    let mut fields = ByteRecord::new(alloc);
    push_fields(&mut fields, &texts)?;
    push_cells(alloc, &mut fields, row.cells.as_slice())?;
    Ok(fields)
}

fn push_cells(alloc: Global, fields: &mut ByteRecord, cells: &[Cell]) -> Result<(), AllocError>
    requires { partial_of fields.old ≡ [] }
    ensures fields { OnOk result (fields_of fields.new ≡ fields_of fields.old ++ map cell_text cells.now) }
    ensures whole { OnOk result (partial_of fields.new ≡ []) }
{
    let mut scratch = String::new(alloc);
    for cell in cells {
        write_cell(&mut scratch, cell)?;
        fields.push_field(scratch.as_bytes())?;
    }
    Ok(())
}

/// The last minute at which a problem was solved; nothing if none was.
fn last_text(alloc: Global, last: Option<Minute>) -> Result<String, AllocError>
    ensures { IfOk result (λ text. string_bytes text ≡ last_text last) }
{
    match last {
        Some(minute) => number_text(alloc, u64::from(minute.0)),
        None => Ok(String::new(alloc)),
    }
}
