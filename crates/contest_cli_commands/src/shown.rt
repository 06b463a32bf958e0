//! A text of the contest that a connection holds: one way to open it, to read it, to write the text
//! and to end.
ghost use Rattle.std.specs.Prelude.{◌≡◌, ◌⊎◌, List, ℕ, IfErr, IfOk};
ghost use Rattle.sqlite.specs.Held.{state};
ghost use Rattle.contest_types.specs.State.{ContestState};
ghost use Rattle.contest_streams.specs.Streams.{stream};
ghost use Rattle.contest_store.specs.Keeping.{LeavesNoMore};
ghost use Rattle.contest_store_tables.specs.Numbered.{IsNumbered};
ghost use Rattle.contest_desk.specs.Serving.{IsSettled};
ghost use Rattle.contest_cli_words.specs.CommandErrors.{IsMemory, exit_status_of};
ghost use Rattle.contest_cli_words.specs.declared.command_error.CommandError.{CommandError as TheError};
ghost use Rattle.contest_cli_commands.specs.Printing.{IsStoreStop};
ghost use Rattle.contest_cli_commands.specs.Showing.{IsShown, ShowsKept, ShowsText};

use crate::opening::open_desk;
use contest_cli_words::{CommandError, show};
use contest_lists::Lists;
use contest_score::CachedCells;
use contest_store::ContestStore;
use contest_streams::Counted;
use sqlite::{Alter, Connection};
use std::alloc::Global;
use std::io::Write;

/// A text of a contest, which is made of its lists and its cells.
pub(crate) trait Shown {
    /// A contest has this text.
    ghost gives: { Self → ContestState → List ℕ → Type 0 };

    /// A contest has none, for such a cause.
    ghost lacks: { Self → ContestState → TheError → Type 0 };

    /// What may be told of that, with another status than 1.
    ghost says: { TheError → Type 0 };

    /// The text. The error is that there is none, or want of memory.
    fn text(
        &self,
        alloc: Global,
        lists: &Lists,
        cells: &CachedCells,
    ) -> Result<Vec<u8>, CommandError>
        ensures text { (x : ContestState) → IsShown lists.now cells.now x → IfOk result (λ text. gives self.now x text.items) }
        ensures err { (x : ContestState) → IsShown lists.now cells.now x → IfErr result (λ stop. IsMemory stop ⊎ lacks self.now x stop) }
        ensures says { IfErr result (λ stop. (exit_status_of stop ≡ 1) ⊎ says stop) };
}

/// Opens the desk of a contest, and writes a text of it. Answers the exit status: 0 where all of it
/// is on `out`, else that of what stops it, of which `err` is told. And the connection, on which
/// nothing was changed.
pub(crate) fn run_shown<S: Alter, T: Shown, O: Write, E: Write>(
    alloc: Global,
    conn: Connection<S>,
    shown: &T,
    out: &mut Counted<O>,
    err: &mut Counted<E>,
) -> (u8, Connection<S>)
    requires { IsNumbered (state S.Store conn) }
    ensures { ShowsText (T.gives shown.now) (T.lacks shown.now) T.says (stream O.contents out.old) (stream O.contents out.new)
        (stream E.contents err.old) (stream E.contents err.new) (state S.Store conn) (state S.Store result.1) result.0 }
{
    match open_desk(alloc, conn) {
        Ok(desk) => {
            let mut store = desk.into_store();
            let status = show_from(alloc, &mut store, shown, out, err);
            (status, store.into_connection())
        }
        Err((error, conn)) => (CommandError::Refused(error.refusal()).refuse(err), conn),
    }
}

// The same of a store that is open.
fn show_from<S: ContestStore, T: Shown, O: Write, E: Write>(
    alloc: Global,
    store: &mut S,
    shown: &T,
    out: &mut Counted<O>,
    err: &mut Counted<E>,
) -> u8
    requires { IsSettled (S.kept store.old) }
    ensures told { ShowsKept (T.gives shown.now) (T.lacks shown.now) T.says (stream O.contents out.old) (stream O.contents out.new)
        (stream E.contents err.old) (stream E.contents err.new) (S.kept store.old) (S.kept store.new) result }
    ensures settled { IsSettled (S.kept store.new) }
{
    match text_from(alloc, store, shown) {
        Ok(text) => show(&text, out, err),
        Err(stop) => stop.refuse(err),
    }
}

// The text of the contest that a store keeps.
fn text_from<S: ContestStore, T: Shown>(
    alloc: Global,
    store: &mut S,
    shown: &T,
) -> Result<Vec<u8>, CommandError>
    requires { IsSettled (S.kept store.old) }
    ensures text { (S.kept store.new).is_clean → IfOk result (λ text. T.gives shown.now (S.kept store.old).contest text.items) }
    ensures stops { (S.kept store.new).is_clean → IfErr result (λ stop. IsStoreStop stop ⊎ T.lacks shown.now (S.kept store.old).contest stop) }
    ensures says { IfErr result (λ stop. (exit_status_of stop ≡ 1) ⊎ T.says stop) }
    ensures crash { (S.kept store.new).is_clean → LeavesNoMore (S.kept store.old).may_leave (S.kept store.new).may_leave }
    ensures clean { (S.kept store.new).is_clean → (S.kept store.old).is_clean }
    ensures settled { IsSettled (S.kept store.new) }
{
    match store.load(alloc) {
        Ok(()) => shown.text(alloc, store.lists(), store.cells()),
        Err(error) => Err(CommandError::Refused(error.refusal())),
    }
}
