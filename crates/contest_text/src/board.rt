//! The text board.
ghost use Rattle.std.specs.Prelude.{◌≡◌, ◌++◌, OnOk, IfOk, IfErr, string_bytes};
ghost use Rattle.std.specs.Fmt.{decimal};
ghost use Rattle.std.specs.List.{flat_map};
ghost use Rattle.contest_types.specs.RelTimeText.{rel_time_text};
ghost use Rattle.contest_text.specs.CellText.{cell_text};
ghost use Rattle.contest_types.specs.ProblemPlaces.{label_at};
ghost use Rattle.contest_text.specs.BoardText.{numbered_id, who_text, of_group_text, time_text};
ghost use Rattle.contest_text.specs.BoardText.{contest_time, word_of, word_at, title_end};
ghost use Rattle.contest_text.specs.BoardText.{title_line, name_width, right_field, front};
ghost use Rattle.contest_text.specs.BoardText.{heading_line, row_line, board_text};

use crate::cell_text::write_cell;
use crate::padding::{push_left, push_right};
use contest_score::{Board, Cell, Row, is_final};
use contest_types::{
    Audience, Marks, Moment, Phase, Refusal, RelTime, Settings, is_freezing, phase, print_reltime,
};
use std::alloc::{AllocError, Global};
use unicode_width::UnicodeWidthStr;

/// Columns of a cell and of a problem's label.
const CELL_COLUMNS: usize = 9;

/// The text of a board of these settings for a caller at a moment: the contest's name, a title
/// line, the heading with the labels of the board's columns, and a line for each of its rows. The
/// title names the group whose board it is, if it is one, by its place in the settings, from 0.
///
/// # Errors
///
/// Want of memory alone.
pub fn board_text(
    alloc: Global,
    settings: &Settings,
    marks: &Marks,
    now: Moment,
    audience: Audience,
    group: Option<usize>,
    board: &Board,
) -> Result<String, Refusal>
    ensures text { IfOk result (λ text. string_bytes text ≡ board_text settings.now marks.now now audience group board.now) }
    ensures err { IfErr result (λ e. e ≡ Refusal.Memory) }
{
    let mut out = String::new(alloc);
    out.push_str(settings.head().name.as_str())?;
    out.push_str("\n")?;
    push_title(&mut out, settings, marks, now, audience, group)?;
    let width = name_width(settings, board.rows());
    push_heading(&mut out, settings, width, board.columns())?;
    push_rows(alloc, &mut out, settings, width, board.rows())?;
    Ok(out)
}

/// Pushes whose board it is, the contest time, and the word that says where the contest stands.
fn push_title(
    out: &mut String,
    settings: &Settings,
    marks: &Marks,
    now: Moment,
    audience: Audience,
    group: Option<usize>,
) -> Result<(), AllocError>
    ensures { OnOk result (string_bytes out.new ≡ string_bytes out.old ++ title_line settings.now marks.now now audience group) }
{
    push_who(out, settings, audience)?;
    out.push_str(" board")?;
    push_group(out, settings, group)?;
    push_time(out, marks.start, now)?;
    push_title_end(out, settings, marks, now)
}

/// Pushes which group's board it is, if it is one.
fn push_group(out: &mut String, settings: &Settings, group: Option<usize>) -> Result<(), AllocError>
    ensures { OnOk result (string_bytes out.new ≡ string_bytes out.old ++ of_group_text settings.now group) }
{
    match group {
        Some(group) => {
            out.push_str(" of ")?;
            out.push_str(settings.group_name(group))
        }
        None => Ok(()),
    }
}

/// Pushes the contest time behind its words.
fn push_time(out: &mut String, start: Option<Moment>, now: Moment) -> Result<(), AllocError>
    ensures { OnOk result (string_bytes out.new ≡ string_bytes out.old ++ time_text start now) }
{
    out.push_str(", contest time ")?;
    push_contest_time(out, start, now)
}

/// Pushes the word that says where the contest stands, and the line's end.
fn push_title_end(
    out: &mut String,
    settings: &Settings,
    marks: &Marks,
    now: Moment,
) -> Result<(), AllocError>
    ensures { OnOk result (string_bytes out.new ≡ string_bytes out.old ++ title_end settings.now marks.now now) }
{
    out.push_str(", ")?;
    out.push_str(word_at(settings, marks, now))?;
    out.push_str("\n")
}

fn push_who(out: &mut String, settings: &Settings, audience: Audience) -> Result<(), AllocError>
    ensures { OnOk result (string_bytes out.new ≡ string_bytes out.old ++ who_text settings.now audience) }
{
    match audience {
        Audience::Public => out.push_str("Public"),
        Audience::Team(number) => {
            out.push_str("Team ")?;
            out.push_str(numbered_id(settings, number))
        }
        Audience::Jury => out.push_str("Jury"),
    }
}

/// The id of the team with a number, counted from 1; nothing where there is none.
fn numbered_id(settings: &Settings, number: usize) -> &str
    ensures { result.now ≡ numbered_id settings.now number }
{
    if number == 0 {
        return "";
    }
    settings.team_id(number - 1)
}

/// Pushes the contest time, or a dash where no start is set.
fn push_contest_time(out: &mut String, start: Option<Moment>, now: Moment) -> Result<(), AllocError>
    ensures { OnOk result (string_bytes out.new ≡ string_bytes out.old ++ contest_time start now) }
{
    match start {
        Some(start) => push_reltime(out, RelTime::between(start, now)),
        None => out.push_str("-"),
    }
}

fn push_reltime(out: &mut String, time: RelTime) -> Result<(), AllocError>
    ensures { OnOk result (string_bytes out.new ≡ string_bytes out.old ++ rel_time_text time) }
{
    let mut buffer = [0; 24];
    let length = print_reltime(time, &mut buffer);
    match std::str::from_utf8(&buffer[..length]) {
        Ok(text) => out.push_str(text),
        Err(_) => unreachable!(),
    }
}

/// The word that says where the contest stands: the first that holds of `before`, `final`,
/// `frozen`, `ended` and `running`.
fn word_at(settings: &Settings, marks: &Marks, now: Moment) -> &'static str
    ensures { result.now ≡ word_at settings.now marks.now now }
{
    let final_now = is_final(settings, marks, now);
    let freezing = is_freezing(settings, marks, now);
    word_of(phase(marks, settings, now), final_now, freezing)
}

fn word_of(phase: Phase, final_now: bool, freezing: bool) -> &'static str
    ensures { result.now ≡ word_of phase final_now freezing }
{
    match phase {
        Phase::Before => "before",
        _ if final_now => "final",
        _ if freezing => "frozen",
        Phase::Running => "running",
        Phase::Ended => "ended",
    }
}

/// The columns of the widest name in the rows, at least four.
fn name_width(settings: &Settings, rows: &[Row]) -> usize
    ensures { result ≡ name_width settings.now rows.now }
{
    let mut width = 4;
    for row in rows {
        width = width.max(settings.team_name(row.team).width());
    }
    width
}

/// Pushes two spaces, and a text at the right of so many columns.
fn push_field(out: &mut String, columns: usize, text: &str) -> Result<(), AllocError>
    ensures { OnOk result (string_bytes out.new ≡ string_bytes out.old ++ right_field columns text.now) }
{
    out.push_str("  ")?;
    push_right(out, columns, text)
}

/// Pushes the first four fields of a line.
fn push_front(
    out: &mut String,
    width: usize,
    rank: &str,
    team: &str,
    solved: &str,
    time: &str,
) -> Result<(), AllocError>
    ensures { OnOk result (string_bytes out.new ≡ string_bytes out.old ++ front width rank.now team.now solved.now time.now) }
{
    push_right(out, 4, rank)?;
    out.push_str("  ")?;
    push_left(out, width, team)?;
    push_field(out, 6, solved)?;
    push_field(out, 6, time)
}

/// Pushes the heading: the fields' names and the problems' labels.
fn push_heading(
    out: &mut String,
    settings: &Settings,
    width: usize,
    columns: &[usize],
) -> Result<(), AllocError>
    ensures { OnOk result (string_bytes out.new ≡ string_bytes out.old ++ heading_line settings.now width columns.now) }
{
    push_front(out, width, "Rank", "Team", "Solved", "Time")?;
    push_labels(out, settings, columns)?;
    out.push_str("\n")
}

fn push_labels(out: &mut String, settings: &Settings, columns: &[usize]) -> Result<(), AllocError>
    ensures { OnOk result (string_bytes out.new ≡ string_bytes out.old ++ flat_map (λ p. right_field 9 (label_at settings.now p)) columns.now) }
{
    for place in columns {
        push_field(out, CELL_COLUMNS, settings.problem_label(*place))?;
    }
    Ok(())
}

/// Pushes a line for each row.
fn push_rows(
    alloc: Global,
    out: &mut String,
    settings: &Settings,
    width: usize,
    rows: &[Row],
) -> Result<(), AllocError>
    ensures { OnOk result (string_bytes out.new ≡ string_bytes out.old ++ flat_map (row_line settings.now width) rows.now) }
{
    let mut scratch = String::new(alloc);
    for row in rows {
        push_row(alloc, out, &mut scratch, settings, width, row)?;
    }
    Ok(())
}

/// Pushes a team's rank, name, problems solved, total time and cells.
fn push_row(
    alloc: Global,
    out: &mut String,
    scratch: &mut String,
    settings: &Settings,
    width: usize,
    row: &Row,
) -> Result<(), AllocError>
    ensures { OnOk result (string_bytes out.new ≡ string_bytes out.old ++ row_line settings.now width row.now) }
{
    let rank = number_text(alloc, u64::from(row.rank))?;
    let solved = number_text(alloc, u64::from(row.score.solved))?;
    let time = number_text(alloc, row.score.total)?;
    let name = settings.team_name(row.team);
    push_front(
        out,
        width,
        rank.as_str(),
        name,
        solved.as_str(),
        time.as_str(),
    )?;
    push_cells(out, scratch, row.cells.as_slice())?;
    out.push_str("\n")
}

/// A number in decimal digits.
///
/// # Errors
///
/// Want of memory alone.
pub fn number_text(alloc: Global, number: u64) -> Result<String, AllocError>
    ensures { IfOk result (λ text. string_bytes text ≡ decimal number) }
{
    format!(in alloc; "{number}")
}

fn push_cells(out: &mut String, scratch: &mut String, cells: &[Cell]) -> Result<(), AllocError>
    ensures { OnOk result (string_bytes out.new ≡ string_bytes out.old ++ flat_map (λ c. right_field 9 (cell_text c)) cells.now) }
{
    for cell in cells {
        write_cell(scratch, cell)?;
        push_field(out, CELL_COLUMNS, scratch.as_str())?;
    }
    Ok(())
}
