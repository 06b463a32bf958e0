//! The scoreboard object, written straight from a board into its text: a board has many cells.
ghost use Rattle.std.specs.Prelude.{◌≡◌, ℕ, IfOk, OnOk, Some};
ghost use Rattle.std.specs.Option.{option_map};
ghost use Rattle.std.specs.List.{flat_map, zip};
ghost use Rattle.serde_json.specs.Written.{compact_text};
ghost use Rattle.contest_types.specs.State.{ContestState};
ghost use Rattle.contest_objects.specs.ContestObjects.{whole_data};
ghost use Rattle.contest_objects.specs.declared.contest_objects.ContestEndpoint.TheVariants.{State};
ghost use Rattle.contest_objects.specs.JsonTokens.{Wrote, data_tokens};
ghost use Rattle.contest_objects.specs.Members.{number_or_null, shown};
ghost use Rattle.contest_score.specs.declared.cell.Cell.{Cell as TheCell};
ghost use Rattle.contest_view.specs.SeenLists.{Shows};
ghost use Rattle.contest_view.specs.Scoreboards.{cell_data, cells_data, group_scoreboard_found};
ghost use Rattle.contest_view.specs.Scoreboards.{minute_data, minute_number, row_data, rows_data};
ghost use Rattle.contest_view.specs.Scoreboards.{score_data, scoreboard_data};

use crate::Seen;
use crate::cells::board_for;
use contest_objects::{
    Member, Served, StateObject, begin_array, begin_object, end_array, end_object, text_of,
    write_member, write_name, write_number, write_object, write_string,
};
use contest_score::{Board, Cell, Row, Score};
use contest_types::{Fixed, Minute, Moment, Settings};
use json::Writer;
use std::alloc::{AllocError, Global};

/// The text of the scoreboard as an audience is served it at a moment (Contest API 2023-06,
/// scoreboard): an object of `contest_time`, `rows`, `state` and `time`. It is the whole one, or
/// that of the group at a place in the settings, from 0.
///
/// # Errors
///
/// Want of memory alone.
pub fn scoreboard_text(
    alloc: Global,
    seen: &Seen<'_>,
    group: Option<usize>,
) -> Result<Vec<u8>, AllocError>
    ensures { (x : ContestState) → Shows seen.entry.now x → IfOk result (λ text. text.items ≡ compact_text (scoreboard_data seen.entry.now.audience seen.entry.now.now group x)) }
{
    let board = board_for(alloc, seen, group)?;
    let object = BoardObject {
        fixed: seen.lists.fixed(),
        now: seen.now,
        board: &board,
    };
    let text = text_of(alloc, &object)?;
    Ok(text)
}

/// The text of the scoreboard of the group with an id, if there is one (own).
///
/// # Errors
///
/// Want of memory alone.
pub fn group_scoreboard_text(
    alloc: Global,
    seen: &Seen<'_>,
    id: &[u8],
) -> Result<Option<Vec<u8>>, AllocError>
    ensures { (x : ContestState) → Shows seen.entry.now x → IfOk result (λ found. option_map (λ text. text.items) found ≡ option_map compact_text (group_scoreboard_found seen.entry.now.audience seen.entry.now.now x id.now)) }
{
    match seen.lists.fixed().settings.group_place(id) {
        Some(group) => {
            let text = scoreboard_text(alloc, seen, Some(group))?;
            Ok(Some(text))
        }
        None => Ok(None),
    }
}

/// A board of a contest as it is served at a moment.
#[derive(Clone, Copy)]
struct BoardObject<'a> {
    fixed: &'a Fixed,
    now: Moment,
    board: &'a Board,
}

impl<'a> Served for BoardObject<'a> {
    ghost use Rattle.contest_view.specs.Scoreboards.{board_data};

    ghost value = { λ o. board_data o.fixed.now o.now o.board.now };

    fn write(&self, out: &mut Writer) -> Result<(), AllocError> {
        let (settings, marks) = (&self.fixed.settings, &self.fixed.marks);
        let contest_time = Member::ContestTime(&marks.start, &self.now);
        let time = Member::Time(&self.now);
        begin_object(out)?;
        write_member(out, "contest_time", contest_time)?;
        write_name(out, "rows")?;
        write_rows(out, settings, self.board.columns(), self.board.rows())?;
        write_name(out, "state")?;
        write_state(out, self.fixed, self.now)?;
        write_member(out, "time", time)?;
        end_object(out)
    }
}

fn write_state(out: &mut Writer, fixed: &Fixed, now: Moment) -> Result<(), AllocError>
    ensures { OnOk result (Wrote out.old out.new (data_tokens (whole_data State fixed.now now))) }
{
    let state = StateObject {
        settings: &fixed.settings,
        marks: &fixed.marks,
        now,
    };
    state.write(out)
}

fn write_rows(
    out: &mut Writer,
    settings: &Settings,
    columns: &[usize],
    rows: &[Row],
) -> Result<(), AllocError>
    ensures { OnOk result (Wrote out.old out.new (data_tokens (rows_data settings.now columns.now rows.now))) }
{
    begin_array(out)?;
    write_each_row(out, settings, columns, rows)?;
    end_array(out)
}

fn write_each_row(
    out: &mut Writer,
    settings: &Settings,
    columns: &[usize],
    rows: &[Row],
) -> Result<(), AllocError>
    ensures { OnOk result (Wrote out.old out.new (flat_map (λ row. data_tokens (row_data settings.now columns.now row)) rows.now)) }
{
    for row in rows {
        write_row(out, settings, columns, row)?;
    }
    Ok(())
}

// A row: `problems`, `rank`, `score` and `team_id`.
fn write_row(
    out: &mut Writer,
    settings: &Settings,
    columns: &[usize],
    row: &Row,
) -> Result<(), AllocError>
    ensures { OnOk result (Wrote out.old out.new (data_tokens (row_data settings.now columns.now row.now))) }
{
    begin_object(out)?;
    write_name(out, "problems")?;
    write_cells(out, settings, columns, row.cells.as_slice())?;
    write_name(out, "rank")?;
    write_number(out, u64::from(row.rank))?;
    write_name(out, "score")?;
    write_score(out, &row.score)?;
    write_name(out, "team_id")?;
    write_string(out, settings.team_id(row.team))?;
    end_object(out)
}

// How a team stands: `num_solved`, `time` and `total_time`.
fn write_score(out: &mut Writer, score: &Score) -> Result<(), AllocError>
    ensures { OnOk result (Wrote out.old out.new (data_tokens (score_data score.now))) }
{
    write_object(
        out,
        &[
            ("num_solved", Member::Number(u64::from(score.solved))),
            ("time", minute_or_null(score.last)),
            ("total_time", Member::Number(score.total)),
        ],
    )
}

fn write_cells(
    out: &mut Writer,
    settings: &Settings,
    columns: &[usize],
    cells: &[Cell],
) -> Result<(), AllocError>
    ensures { OnOk result (Wrote out.old out.new (data_tokens (cells_data settings.now columns.now cells.now))) }
{
    begin_array(out)?;
    write_each_cell(out, settings, columns, cells)?;
    end_array(out)
}

fn write_each_cell(
    out: &mut Writer,
    settings: &Settings,
    columns: &[usize],
    cells: &[Cell],
) -> Result<(), AllocError>
    ensures { OnOk result (Wrote out.old out.new (flat_map (λ (p : ℕ × TheCell). data_tokens (cell_data settings.now p.0 p.1)) (zip columns.now cells.now))) }
{
    for (problem, cell) in columns.iter().zip(cells) {
        write_cell(out, settings, *problem, cell)?;
    }
    Ok(())
}

// A cell: `num_judged`, `num_pending`, `problem_id` and `solved`, and `time` where it is solved.
fn write_cell(
    out: &mut Writer,
    settings: &Settings,
    problem: usize,
    cell: &Cell,
) -> Result<(), AllocError>
    ensures { OnOk result (Wrote out.old out.new (data_tokens (cell_data settings.now problem cell.now))) }
{
    let problem = Member::Text(settings.problem_id(problem));
    begin_object(out)?;
    write_member(out, "num_judged", Member::Number(u64::from(cell.judged)))?;
    write_member(out, "num_pending", Member::Number(u64::from(cell.pending)))?;
    write_member(out, "problem_id", problem)?;
    write_member(out, "solved", Member::Flag(cell.solved.is_some()))?;
    write_member(out, "time", minute_where(cell.solved))?;
    end_object(out)
}

fn minute_or_null(minute: Option<Minute>) -> Member<'static>
    ensures { shown result ≡ Some (number_or_null (minute_number minute)) }
{
    match minute {
        Some(minute) => Member::NumberOrNull(Some(u64::from(minute.0))),
        None => Member::NumberOrNull(None),
    }
}

#[inline]
fn minute_where(minute: Option<Minute>) -> Member<'static>
    ensures { shown result ≡ minute_data minute }
{
    match minute {
        Some(minute) => Member::Number(u64::from(minute.0)),
        None => Member::Absent,
    }
}
