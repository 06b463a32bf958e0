//! How a board differs from another system's scoreboard, line by line.
ghost use Rattle.std.specs.Prelude.{◌≡◌, ◌++◌, ℕ, IfOk, OnOk, Some, option_map, string_bytes};
ghost use Rattle.std.specs.List.{flat_map, list_any, zip};
ghost use Rattle.std.specs.Str.{bytes_eq};
ghost use Rattle.contest_score.specs.declared.cell.Cell.{Cell as TheCell};
ghost use Rattle.contest_types.specs.TeamPlaces.{team_id_at};
ghost use Rattle.contest_comparison.specs.Differences.{cell_there, differences, here_alone};
ghost use Rattle.contest_comparison.specs.Differences.{lone_cell_line, lone_row_line};
ghost use Rattle.contest_comparison.specs.Differences.{problem_lines, row_beside, row_difference};
ghost use Rattle.contest_comparison.specs.Differences.{row_there, values_there};

use crate::other_row::{OtherCell, OtherRow};
use crate::value_lines::{push_cell_lines, push_row_lines};
use crate::values::{CellValues, RowValues};
use contest_score::{Board, Cell, Row};
use contest_types::Settings;
use std::alloc::{AllocError, Global};

/// The lines of a board's differences from the rows of a scoreboard.
pub(crate) fn differences(
    alloc: Global,
    settings: &Settings,
    board: &Board,
    there: &[OtherRow],
) -> Result<String, AllocError>
    ensures { IfOk result (λ text. string_bytes text ≡ differences settings.now board.now there.now) }
{
    let mut out = String::new(alloc);
    push_rows(alloc, &mut out, settings, board, there)?;
    push_lone_rows(&mut out, settings, board.rows(), there)?;
    Ok(out)
}

// Pushes how each row of the board differs.
fn push_rows(
    alloc: Global,
    out: &mut String,
    settings: &Settings,
    board: &Board,
    there: &[OtherRow],
) -> Result<(), AllocError>
    ensures { OnOk result (string_bytes out.new ≡ string_bytes out.old ++ flat_map (row_difference settings.now board.now.columns there.now) board.now.rows) }
{
    let columns = board.columns();
    for row in board.rows() {
        push_row(alloc, out, settings, columns, there, row)?;
    }
    Ok(())
}

fn push_row(
    alloc: Global,
    out: &mut String,
    settings: &Settings,
    columns: &[usize],
    there: &[OtherRow],
    row: &Row,
) -> Result<(), AllocError>
    ensures { OnOk result (string_bytes out.new ≡ string_bytes out.old ++ row_difference settings.now columns.now there.now row.now) }
{
    let team = settings.team_id(row.team);
    let of = format!(in alloc; "team {team}")?;
    match row_there(team, there) {
        Some(other) => push_row_beside(alloc, out, settings, columns, of.as_str(), row, other),
        None => push_here_alone(out, of.as_str()),
    }
}

// Pushes that a row isn't there.
fn push_here_alone(out: &mut String, of: &str) -> Result<(), AllocError>
    ensures { OnOk result (string_bytes out.new ≡ string_bytes out.old ++ here_alone of.now) }
{
    write!(out, "{of}: here alone\n")
}

// The row there of a team.
fn row_there<'t>(team: &str, there: &'t [OtherRow]) -> Option<&'t OtherRow>
    ensures { option_map (λ r. r.now) result ≡ row_there team.now there.now }
{
    there.iter().find(|other| other.team.as_str() == team)
}

// Pushes how a row differs from the one there.
fn push_row_beside(
    alloc: Global,
    out: &mut String,
    settings: &Settings,
    columns: &[usize],
    of: &str,
    row: &Row,
    other: &OtherRow,
) -> Result<(), AllocError>
    ensures { OnOk result (string_bytes out.new ≡ string_bytes out.old ++ row_beside settings.now columns.now of.now row.now (Some other.now)) }
{
    push_row_lines(alloc, out, of, RowValues::of(row), other.values)?;
    push_cells(
        alloc,
        out,
        settings,
        columns,
        of,
        row.cells.as_slice(),
        other.cells.as_slice(),
    )?;
    push_lone_cells(out, settings, of, other.cells.as_slice())
}

// Pushes how each cell of a row differs.
fn push_cells(
    alloc: Global,
    out: &mut String,
    settings: &Settings,
    columns: &[usize],
    of: &str,
    cells: &[Cell],
    there: &[OtherCell],
) -> Result<(), AllocError>
    ensures { OnOk result (string_bytes out.new ≡ string_bytes out.old ++ flat_map (λ (p : ℕ × TheCell). problem_lines settings.now of.now there.now p.0 p.1) (zip columns.now cells.now)) }
{
    for (problem, cell) in columns.iter().zip(cells) {
        push_cell(alloc, out, settings, of, there, *problem, cell)?;
    }
    Ok(())
}

fn push_cell(
    alloc: Global,
    out: &mut String,
    settings: &Settings,
    of: &str,
    there: &[OtherCell],
    problem: usize,
    cell: &Cell,
) -> Result<(), AllocError>
    ensures { OnOk result (string_bytes out.new ≡ string_bytes out.old ++ problem_lines settings.now of.now there.now problem cell.now) }
{
    let label = settings.problem_label(problem);
    let of = format!(in alloc; "{of}: problem {label}")?;
    let theirs = values_there(settings.problem_id(problem), there);
    push_cell_lines(alloc, out, of.as_str(), CellValues::of(cell), theirs)
}

// What the cell there of a problem says; what one of zeros does where there is none.
fn values_there(problem: &str, there: &[OtherCell]) -> CellValues
    ensures { result ≡ values_there problem.now there.now }
{
    match cell_there(problem, there) {
        Some(cell) => cell.values,
        None => CellValues::none(),
    }
}

// The cell there of a problem.
fn cell_there<'t>(problem: &str, there: &'t [OtherCell]) -> Option<&'t OtherCell>
    ensures { option_map (λ c. c.now) result ≡ cell_there problem.now there.now }
{
    there.iter().find(|cell| cell.problem.as_str() == problem)
}

// Pushes the cells there of problems that the contest hasn't.
fn push_lone_cells(
    out: &mut String,
    settings: &Settings,
    of: &str,
    there: &[OtherCell],
) -> Result<(), AllocError>
    ensures { OnOk result (string_bytes out.new ≡ string_bytes out.old ++ flat_map (lone_cell_line settings.now of.now) there.now) }
{
    for cell in there {
        push_lone_cell(out, settings, of, cell)?;
    }
    Ok(())
}

fn push_lone_cell(
    out: &mut String,
    settings: &Settings,
    of: &str,
    cell: &OtherCell,
) -> Result<(), AllocError>
    ensures { OnOk result (string_bytes out.new ≡ string_bytes out.old ++ lone_cell_line settings.now of.now cell.now) }
{
    if settings.problem_place(cell.problem.as_bytes()).is_some() {
        return Ok(());
    }
    let problem = cell.problem.as_str();
    write!(out, "{of}: problem {problem}: there alone\n")
}

// Pushes the rows there that the board hasn't.
fn push_lone_rows(
    out: &mut String,
    settings: &Settings,
    rows: &[Row],
    there: &[OtherRow],
) -> Result<(), AllocError>
    ensures { OnOk result (string_bytes out.new ≡ string_bytes out.old ++ flat_map (lone_row_line settings.now rows.now) there.now) }
{
    for other in there {
        push_lone_row(out, settings, rows, other)?;
    }
    Ok(())
}

fn push_lone_row(
    out: &mut String,
    settings: &Settings,
    rows: &[Row],
    other: &OtherRow,
) -> Result<(), AllocError>
    ensures { OnOk result (string_bytes out.new ≡ string_bytes out.old ++ lone_row_line settings.now rows.now other.now) }
{
    let team = other.team.as_str();
    if has_team(settings, rows, team) {
        return Ok(());
    }
    write!(out, "team {team}: there alone\n")
}

// Whether a row is the team's.
fn has_team(settings: &Settings, rows: &[Row], team: &str) -> bool
    ensures { result ≡ list_any (λ row. bytes_eq (team_id_at settings.now row.team) team.now) rows.now }
{
    rows.iter().any(|row| settings.team_id(row.team) == team)
}
