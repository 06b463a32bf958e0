//! The lines of values that aren't the same there.
ghost use Rattle.std.specs.Prelude.{◌≡◌, ◌++◌, IfOk, OnOk, false, string_bytes};
ghost use Rattle.contest_comparison.specs.Differences.{cell_lines, number_line, row_lines, same_time};
ghost use Rattle.contest_comparison.specs.Differences.{solved_line, time_line, time_text, truth_text};
ghost use Rattle.contest_comparison.specs.Differences.{value_line};

use crate::values::{CellValues, RowValues};
use contest_types::Minute;
use std::alloc::{AllocError, Global};

/// Pushes how two rows differ beside their cells.
pub(crate) fn push_row_lines(
    alloc: Global,
    out: &mut String,
    of: &str,
    ours: RowValues,
    theirs: RowValues,
) -> Result<(), AllocError>
    ensures { OnOk result (string_bytes out.new ≡ string_bytes out.old ++ row_lines of.now ours theirs) }
{
    push_number(
        alloc,
        out,
        of,
        "rank",
        u64::from(ours.rank),
        u64::from(theirs.rank),
    )?;
    push_number(
        alloc,
        out,
        of,
        "solved",
        u64::from(ours.solved),
        u64::from(theirs.solved),
    )?;
    push_number(alloc, out, of, "time", ours.total, theirs.total)
}

/// Pushes how two cells differ.
pub(crate) fn push_cell_lines(
    alloc: Global,
    out: &mut String,
    of: &str,
    ours: CellValues,
    theirs: CellValues,
) -> Result<(), AllocError>
    ensures { OnOk result (string_bytes out.new ≡ string_bytes out.old ++ cell_lines of.now ours theirs) }
{
    push_solved(out, of, ours.solved, theirs.solved)?;
    push_time(alloc, out, of, ours.time, theirs.time)?;
    push_number(
        alloc,
        out,
        of,
        "judged",
        u64::from(ours.judged),
        u64::from(theirs.judged),
    )?;
    push_number(
        alloc,
        out,
        of,
        "pending",
        u64::from(ours.pending),
        u64::from(theirs.pending),
    )
}

// Pushes the line of a number, unless it is the same there.
fn push_number(
    alloc: Global,
    out: &mut String,
    of: &str,
    name: &str,
    ours: u64,
    theirs: u64,
) -> Result<(), AllocError>
    ensures { OnOk result (string_bytes out.new ≡ string_bytes out.old ++ number_line of.now name.now ours theirs) }
{
    if ours == theirs {
        return Ok(());
    }
    let ours = format!(in alloc; "{ours}")?;
    let theirs = format!(in alloc; "{theirs}")?;
    push_line(out, of, name, ours.as_str(), theirs.as_str())
}

// Pushes the line of a time, unless it is the same there.
fn push_time(
    alloc: Global,
    out: &mut String,
    of: &str,
    ours: Option<Minute>,
    theirs: Option<Minute>,
) -> Result<(), AllocError>
    ensures { OnOk result (string_bytes out.new ≡ string_bytes out.old ++ time_line of.now ours theirs) }
{
    if is_same_time(ours, theirs) {
        return Ok(());
    }
    let ours = time_text(alloc, ours)?;
    let theirs = time_text(alloc, theirs)?;
    push_line(out, of, "time", ours.as_str(), theirs.as_str())
}

fn is_same_time(ours: Option<Minute>, theirs: Option<Minute>) -> bool
    ensures { result ≡ same_time ours theirs }
{
    match (ours, theirs) {
        (None, None) => true,
        (Some(ours), Some(theirs)) => ours.0 == theirs.0,
        _ => false,
    }
}

// A time in minutes, or none.
fn time_text(alloc: Global, time: Option<Minute>) -> Result<String, AllocError>
    ensures { IfOk result (λ text. string_bytes text ≡ time_text time) }
{
    match time {
        Some(minute) => {
            let minute = minute.0;
            format!(in alloc; "{minute}")
        }
        None => String::from_str(alloc, "none"),
    }
}

// Pushes the line of whether a problem is solved, unless it is the same there.
fn push_solved(out: &mut String, of: &str, ours: bool, theirs: bool) -> Result<(), AllocError>
    ensures { OnOk result (string_bytes out.new ≡ string_bytes out.old ++ solved_line of.now ours theirs) }
{
    if ours == theirs {
        return Ok(());
    }
    push_line(out, of, "solved", truth_text(ours), truth_text(theirs))
}

fn truth_text(truth: bool) -> &'static str
    ensures { result.now ≡ truth_text truth }
{
    if truth { "true" } else { "false" }
}

// Pushes the line of a value that isn't the same there.
fn push_line(
    out: &mut String,
    of: &str,
    name: &str,
    ours: &str,
    theirs: &str,
) -> Result<(), AllocError>
    ensures { OnOk result (string_bytes out.new ≡ string_bytes out.old ++ value_line false of.now name.now ours.now theirs.now) }
{
    write!(out, "{of}: {name} {ours}, there {theirs}\n")
}
