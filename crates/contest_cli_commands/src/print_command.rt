//! The commands `board` and `awards`: a text of the contest that a connection holds, as somebody
//! sees it.
ghost use Rattle.std.specs.Prelude.{◌≡◌, Some, IfErr, IfOk, true};
ghost use Rattle.std.specs.Option.{option_map};
ghost use Rattle.sqlite.specs.Held.{state};
ghost use Rattle.contest_types.specs.State.{ContestState};
ghost use Rattle.contest_text.specs.AwardsText.{awards_text};
ghost use Rattle.contest_view.specs.Awards.{audience_awards};
ghost use Rattle.contest_view.specs.Scoreboards.{board_found};
ghost use Rattle.contest_view.specs.SeenLists.{Shows};
ghost use Rattle.contest_streams.specs.Streams.{stream};
ghost use Rattle.contest_store_tables.specs.Numbered.{IsNumbered};
ghost use Rattle.contest_cli_commands.specs.Looking.{is_there};
ghost use Rattle.contest_cli_commands.specs.Printing.{Prints, text_seen, written};

use crate::look::{Look, look_of};
use crate::shown::{Shown, run_shown};
use contest_cli_words::{AskedText, BoardFormat, CommandError};
use contest_lists::Lists;
use contest_score::{Board, CachedCells};
use contest_streams::Counted;
use contest_text::{awards_text, board_csv, board_text};
use contest_types::{Moment, Refusal};
use contest_view::{Seen, audience_awards, board_found};
use sqlite::{Alter, Connection};
use std::alloc::Global;
use std::io::Write;

/// Runs `board` or `awards`: opens the desk of a contest, and writes what somebody sees at a
/// moment. Answers the exit status: 0 where all of it is on `out`, 2 where no team or no group has
/// the id that is asked for, 1 where something else was refused or `out` failed; where it isn't 0,
/// `err` is told why. And the connection, on which nothing was changed.
pub fn run_print<S: Alter, O: Write, E: Write>(
    alloc: Global,
    conn: Connection<S>,
    now: Moment,
    asked: AskedText<'_>,
    out: &mut Counted<O>,
    err: &mut Counted<E>,
) -> (u8, Connection<S>)
    requires { IsNumbered (state S.Store conn) }
    ensures { Prints now asked.entry (stream O.contents out.old) (stream O.contents out.new)
        (stream E.contents err.old) (stream E.contents err.new) (state S.Store conn) (state S.Store result.1) result.0 }
{
    run_shown(alloc, conn, &TextAt { now, asked }, out, err)
}

/// A board or the awards, as somebody is shown them at a moment.
#[derive(Clone, Copy)]
struct TextAt<'a> {
    /// The moment.
    now: Moment,
    /// What is asked for.
    asked: AskedText<'a>,
}

impl Shown for TextAt<'_> {
    ghost use Rattle.contest_cli_commands.specs.Printing.{GivesText, LacksText, SaysAny};

    ghost gives = { λ it. GivesText it.now it.asked };

    ghost lacks = { λ it. LacksText it.asked };

    ghost says = { SaysAny };

    fn text(
        &self,
        alloc: Global,
        lists: &Lists,
        cells: &CachedCells,
    ) -> Result<Vec<u8>, CommandError> {
        let look = look_of(alloc, &lists.fixed().settings, self.asked)?;
        let seen = Seen {
            lists,
            cells,
            audience: look.audience,
            now: self.now,
        };
        match text_seen(alloc, &seen, look, self.asked) {
            Ok(text) => Ok(text),
            Err(refusal) => Err(CommandError::Refused(refusal)),
        }
    }
}

// What is written for who looks. The error is want of memory, where they and their group are there.
fn text_seen(
    alloc: Global,
    seen: &Seen<'_>,
    look: Look,
    asked: AskedText<'_>,
) -> Result<Vec<u8>, Refusal>
    ensures text { (x : ContestState) → Shows seen.entry.now x → seen.entry.now.audience ≡ look.audience → IfOk result (λ text. text_seen seen.entry.now.now asked.entry x look ≡ Some text.items) }
    ensures err { (x : ContestState) → Shows seen.entry.now x → seen.entry.now.audience ≡ look.audience → is_there x.fixed.settings look ≡ true → IfErr result (λ e. e ≡ Refusal.Memory) }
{
    match asked {
        AskedText::Board(asked) => board_seen(alloc, seen, look, asked.format),
        AskedText::Awards(_) => awards_seen(alloc, seen),
    }
}

fn board_seen(
    alloc: Global,
    seen: &Seen<'_>,
    look: Look,
    format: BoardFormat,
) -> Result<Vec<u8>, Refusal>
    ensures text { (x : ContestState) → Shows seen.entry.now x → IfOk result (λ text. option_map (written format x.fixed.settings x.fixed.marks seen.entry.now.now look) (board_found seen.entry.now.audience seen.entry.now.now look.group x) ≡ Some text.items) }
    ensures err { (x : ContestState) → Shows seen.entry.now x → seen.entry.now.audience ≡ look.audience → is_there x.fixed.settings look ≡ true → IfErr result (λ e. e ≡ Refusal.Memory) }
{
    match board_found(alloc, seen, look.group)? {
        Some(board) => written(alloc, format, seen, look, &board),
        None => Err(Refusal::NotFound),
    }
}

fn awards_seen(alloc: Global, seen: &Seen<'_>) -> Result<Vec<u8>, Refusal>
    ensures text { (x : ContestState) → Shows seen.entry.now x → IfOk result (λ text. option_map (awards_text x.fixed.settings) (audience_awards seen.entry.now.audience seen.entry.now.now x) ≡ Some text.items) }
    ensures err { (x : ContestState) → Shows seen.entry.now x → (look : Look) → seen.entry.now.audience ≡ look.audience → is_there x.fixed.settings look ≡ true → IfErr result (λ e. e ≡ Refusal.Memory) }
{
    let Some(awards) = audience_awards(alloc, seen)? else {
        return Err(Refusal::NotFound);
    };
    let text = awards_text(alloc, &seen.lists.fixed().settings, awards.as_slice())?;
    Ok(text.into_bytes())
}

// A board, as it is asked for. The error is want of memory.
fn written(
    alloc: Global,
    format: BoardFormat,
    seen: &Seen<'_>,
    look: Look,
    board: &Board,
) -> Result<Vec<u8>, Refusal>
    ensures text { (x : ContestState) → Shows seen.entry.now x → IfOk result (λ text. text.items ≡ written format x.fixed.settings x.fixed.marks seen.entry.now.now look board.now) }
    ensures err { IfErr result (λ e. e ≡ Refusal.Memory) }
{
    let fixed = seen.lists.fixed();
    match format {
        BoardFormat::Text => {
            let text = board_text(
                alloc,
                &fixed.settings,
                &fixed.marks,
                seen.now,
                look.audience,
                look.group,
                board,
            )?;
            Ok(text.into_bytes())
        }
        BoardFormat::Csv => {
            let text = board_csv(alloc, &fixed.settings, board)?;
            Ok(text)
        }
    }
}
