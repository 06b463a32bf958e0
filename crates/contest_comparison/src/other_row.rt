//! The rows and cells of another system's scoreboard.
ghost use Rattle.std.specs.Prelude.{◌≡◌, ◌≤◌, [], IfErr, IfOk, IfSome, codes, option_and_then};
ghost use Rattle.serde_json.specs.Find.{as_str};
ghost use Rattle.serde_json.specs.View.{view};
ghost use Rattle.contest_files.specs.FieldTexts.{span_of};
ghost use Rattle.contest_files.specs.JsonMembers.{number_in, number_or, optional, or_usual};
ghost use Rattle.contest_files.specs.JsonMembers.{present_in};
ghost use Rattle.contest_comparison.specs.Scoreboards.{cell_id, cell_members, cell_values_in, listed};
ghost use Rattle.contest_comparison.specs.Scoreboards.{minute_of, minutes_of, most_number};
ghost use Rattle.contest_comparison.specs.Scoreboards.{optional_minute, row_values_in, score_values};

use crate::listed::{ListedRow, listed};
use crate::values::{CellValues, RowValues};
use contest_files::{
    flag_or_false, id_member, number_in, number_or, number_to, present_in, time_span,
};
use contest_types::{Id, Minute, Refusal, Rows, TimeSpan};
use serde_json::Value;
use std::alloc::Global;

/// The largest number that is read.
const NUMBER: u64 = 4_294_967_295;

/// The milliseconds of a minute.
const MINUTE: u64 = 60_000;

/// A cell there (Contest API 2023-06, scoreboard).
#[derive(Drop)]
pub struct OtherCell {
    /// The problem's id.
    pub problem: Id,
    /// What the cell says.
    pub values: CellValues,
}

/// A row there (Contest API 2023-06, scoreboard).
#[derive(Drop)]
pub struct OtherRow {
    /// The team's id.
    pub team: Id,
    /// What the row says.
    pub values: RowValues,
    /// The cells, in the order of the file, no two of one problem.
    pub cells: Rows<OtherCell>,
}

impl ListedRow for OtherCell {
    ghost use Rattle.contest_comparison.specs.Scoreboards.{cell_id, cell_members};

    ghost members = { cell_members };

    ghost id = { cell_id };

    fn read(alloc: Global, object: &Value) -> Result<Option<OtherCell>, Refusal> {
        let Some(values) = cell_values_in(object) else {
            return Ok(None);
        };
        match id_member(alloc, object, "problem_id")? {
            Some(problem) => Ok(Some(OtherCell { problem, values })),
            None => Ok(None),
        }
    }

    fn id(&self) -> &Id {
        &self.problem
    }
}

impl ListedRow for OtherRow {
    ghost use Rattle.contest_comparison.specs.Scoreboards.{row_id, row_members};

    ghost members = { row_members };

    ghost id = { row_id };

    fn read(alloc: Global, object: &Value) -> Result<Option<OtherRow>, Refusal> {
        let Some(values) = row_values_in(object) else {
            return Ok(None);
        };
        let Some(team) = id_member(alloc, object, "team_id")? else {
            return Ok(None);
        };
        match cells_in(alloc, object)? {
            Some(cells) => Ok(Some(OtherRow {
                team,
                values,
                cells,
            })),
            None => Ok(None),
        }
    }

    fn id(&self) -> &Id {
        &self.team
    }
}

// The cells of a row; none where they aren't there.
fn cells_in(alloc: Global, row: &Value) -> Result<Option<Rows<OtherCell>>, Refusal>
    ensures value { IfOk result (λ found. found ≡ or_usual [] (listed cell_members cell_id) (present_in (codes "problems") (view row.now))) }
    ensures err { IfErr result (λ e. e ≡ Refusal.Memory) }
{
    match present_in(row, "problems") {
        Some(cells) => listed(alloc, cells),
        None => Ok(Some(Rows::new(alloc))),
    }
}

// What a cell says, if that is on its form.
fn cell_values_in(cell: &Value) -> Option<CellValues>
    ensures { result ≡ cell_values_in (view cell.now) }
{
    Some(CellValues {
        solved: flag_or_false(cell, "solved")?,
        time: time_in(cell)?,
        judged: count_in(cell, "num_judged")?,
        pending: count_in(cell, "num_pending")?,
    })
}

// What a row says beside its cells, if that is on its form.
fn row_values_in(row: &Value) -> Option<RowValues>
    ensures { result ≡ row_values_in (view row.now) }
{
    let rank = whole_in(row, "rank")?;
    score_values(rank, row.get("score")?)
}

// The same, of a row's score.
fn score_values(rank: u32, score: &Value) -> Option<RowValues>
    ensures { result ≡ score_values rank (view score.now) }
{
    Some(RowValues {
        rank,
        solved: whole_in(score, "num_solved")?,
        total: minutes_of(score.get("total_time")?)?,
    })
}

// A member that is a number.
fn whole_in(object: &Value, name: &str) -> Option<u32>
    ensures { result ≡ number_in most_number name.now (view object.now) }
{
    let number = number_in(object, name, NUMBER)?;
    Some(number as u32)
}

// A number that is 0 if it isn't there.
fn count_in(cell: &Value, name: &str) -> Option<u32>
    ensures { result ≡ number_or 0 most_number name.now (view cell.now) }
{
    let number = number_or(cell, name, 0, NUMBER)?;
    Some(number as u32)
}

// A cell's time, which need not be there.
fn time_in(cell: &Value) -> Option<Option<Minute>>
    ensures { result ≡ optional optional_minute (present_in (codes "time") (view cell.now)) }
{
    match present_in(cell, "time") {
        Some(member) => Some(Some(minute_of(member)?)),
        None => Some(None),
    }
}

// A time in minutes that a cell's minutes can count.
fn minute_of(value: &Value) -> Option<Minute>
    ensures { result ≡ minute_of (view value.now) }
{
    let minutes = minutes_of(value)?;
    Some(Minute(minutes as u32))
}

// Whole minutes of a time: a number of them, or a relative time, which is cut.
fn minutes_of(value: &Value) -> Option<u64>
    ensures value { result ≡ minutes_of (view value.now) }
    ensures bound { IfSome result (λ minutes. minutes ≤ most_number) }
{
    if value.is_number() {
        number_to(value, NUMBER)
    } else {
        let span = span_of(value)?;
        Some(span.milliseconds() / MINUTE)
    }
}

// A relative time that isn't below zero.
fn span_of(value: &Value) -> Option<TimeSpan>
    ensures { result ≡ option_and_then span_of (as_str (view value.now)) }
{
    time_span(value.as_str()?.as_bytes())
}
