//! The command `export` where the final results are asked for: those of the contest that a
//! connection holds, as ICPC's systems take them.
ghost use Rattle.std.specs.Prelude.{◌≡◌, IfErr, IfOk};
ghost use Rattle.sqlite.specs.Held.{state};
ghost use Rattle.contest_types.specs.State.{ContestState};
ghost use Rattle.contest_streams.specs.Streams.{stream};
ghost use Rattle.contest_store_tables.specs.Numbered.{IsNumbered};
ghost use Rattle.contest_view.specs.SeenLists.{Shows};
ghost use Rattle.contest_cli_commands.specs.ExportingResults.{ExportsResults, results_at};

use crate::shown::{Shown, run_shown};
use contest_cli_words::CommandError;
use contest_exports::results_tsv;
use contest_lists::Lists;
use contest_score::CachedCells;
use contest_streams::Counted;
use contest_types::{Audience, Refusal};
use contest_view::{Seen, audience_awards, board_for};
use sqlite::{Alter, Connection};
use std::alloc::Global;
use std::io::Write;

/// Runs `export` for the final results: opens the desk of a contest, and writes its results as
/// ICPC's systems take them, by the jury's board and its awards as of the moment at which they were
/// made final. Answers the exit status: 0 where all of it is on `out`, 1 where something was
/// refused, as `NotOpen` where the results weren't made final, or `out` failed; then `err` is told
/// why. And the connection, on which nothing was changed.
pub fn run_results<S: Alter, O: Write, E: Write>(
    alloc: Global,
    conn: Connection<S>,
    out: &mut Counted<O>,
    err: &mut Counted<E>,
) -> (u8, Connection<S>)
    requires { IsNumbered (state S.Store conn) }
    ensures { ExportsResults (stream O.contents out.old) (stream O.contents out.new)
        (stream E.contents err.old) (stream E.contents err.new) (state S.Store conn) (state S.Store result.1) result.0 }
{
    run_shown(alloc, conn, &Results, out, err)
}

// The final results.
struct Results;

impl Shown for Results {
    ghost use Rattle.contest_cli_commands.specs.ExportingResults.{GivesResults, LacksResults};
    ghost use Rattle.contest_cli_commands.specs.ExportingResults.{SaysNothingElse};

    ghost gives = { λ _. GivesResults };

    ghost lacks = { λ _. LacksResults };

    ghost says = { SaysNothingElse };

    fn text(
        &self,
        alloc: Global,
        lists: &Lists,
        cells: &CachedCells,
    ) -> Result<Vec<u8>, CommandError> {
        let Some(now) = lists.fixed().marks.finalized else {
            return Err(CommandError::Refused(Refusal::NotOpen));
        };
        let audience = Audience::Jury;
        let seen = Seen {
            lists,
            cells,
            audience,
            now,
        };
        match results_seen(alloc, &seen) {
            Ok(text) => Ok(text),
            Err(refusal) => Err(CommandError::Refused(refusal)),
        }
    }
}

// The results by the board and the awards of the jury, which looks. The error is want of memory: the
// jury is there.
fn results_seen(alloc: Global, seen: &Seen<'_>) -> Result<Vec<u8>, Refusal>
    ensures text { (x : ContestState) → Shows seen.entry.now x → seen.entry.now.audience ≡ Audience.Jury → IfOk result (λ text. text.items ≡ results_at x seen.entry.now.now) }
    ensures err { (x : ContestState) → Shows seen.entry.now x → seen.entry.now.audience ≡ Audience.Jury → IfErr result (λ e. e ≡ Refusal.Memory) }
{
    let board = board_for(alloc, seen, None)?;
    let Some(awards) = audience_awards(alloc, seen)? else {
        return Err(Refusal::NotFound);
    };
    let settings = &seen.lists.fixed().settings;
    let text = results_tsv(alloc, settings, &board, awards.as_slice())?;
    Ok(text.into_bytes())
}
