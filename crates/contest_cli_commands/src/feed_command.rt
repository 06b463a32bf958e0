//! The command `feed`: the event feed of the contest that a connection holds, as somebody is served
//! it.
ghost use Rattle.std.specs.Prelude.{◌≡◌};
ghost use Rattle.sqlite.specs.Held.{state};
ghost use Rattle.contest_types.specs.State.{ContestState};
ghost use Rattle.contest_streams.specs.Streams.{stream};
ghost use Rattle.contest_store_tables.specs.Numbered.{IsNumbered};
ghost use Rattle.contest_desk.specs.Serving.{IsSettled};
ghost use Rattle.contest_cli_words.specs.CommandErrors.{IsMemory};
ghost use Rattle.contest_cli_commands.specs.Feeding.{Feeds, FeedsKept, TellsFeed};
ghost use Rattle.contest_cli_commands.specs.Showing.{IsShown};

use crate::look::audience_of;
use crate::opening::open_desk;
use contest_cli_words::{CommandError, Who};
use contest_lists::Lists;
use contest_score::CachedCells;
use contest_store::ContestStore;
use contest_streams::Counted;
use contest_types::{Moment, Refusal};
use contest_view::{FeedFault, Seen, write_feed};
use sqlite::{Alter, Connection};
use std::alloc::Global;
use std::io::Write;

/// Runs `feed`: opens the desk of a contest, and writes the event feed that somebody is served at a
/// moment, one event after the other. Answers the exit status: 0 where all of it is on `out`, 2
/// where no team has the id that is asked for, 1 where something else was refused or `out` failed;
/// where it isn't 0, `err` is told why, and a front of the feed may be out. And the connection, on
/// which nothing was changed.
pub fn run_feed<S: Alter, O: Write, E: Write>(
    alloc: Global,
    conn: Connection<S>,
    now: Moment,
    who: Who<'_>,
    out: &mut Counted<O>,
    err: &mut Counted<E>,
) -> (u8, Connection<S>)
    requires { IsNumbered (state S.Store conn) }
    ensures { Feeds now who.entry (stream O.contents out.old) (stream O.contents out.new)
        (stream E.contents err.old) (stream E.contents err.new) (state S.Store conn) (state S.Store result.1) result.0 }
{
    match open_desk(alloc, conn) {
        Ok(desk) => {
            let mut store = desk.into_store();
            let status = feed_from(alloc, &mut store, now, who, out, err);
            (status, store.into_connection())
        }
        Err((error, conn)) => (CommandError::Refused(error.refusal()).refuse(err), conn),
    }
}

// The same of a store that is open.
fn feed_from<S: ContestStore, O: Write, E: Write>(
    alloc: Global,
    store: &mut S,
    now: Moment,
    who: Who<'_>,
    out: &mut Counted<O>,
    err: &mut Counted<E>,
) -> u8
    requires { IsSettled (S.kept store.old) }
    ensures told { FeedsKept now who.entry (stream O.contents out.old) (stream O.contents out.new)
        (stream E.contents err.old) (stream E.contents err.new) (S.kept store.old) (S.kept store.new) result }
    ensures settled { IsSettled (S.kept store.new) }
{
    match store.load(alloc) {
        Ok(()) => feed_of(alloc, store.lists(), store.cells(), now, who, out, err),
        Err(error) => CommandError::Refused(error.refusal()).refuse(err),
    }
}

// The same of a contest's lists and cells.
fn feed_of<O: Write, E: Write>(
    alloc: Global,
    lists: &Lists,
    cells: &CachedCells,
    now: Moment,
    who: Who<'_>,
    out: &mut Counted<O>,
    err: &mut Counted<E>,
) -> u8
    ensures { (x : ContestState) → TellsFeed (IsShown lists.now cells.now x) (λ y. y ≡ x) IsMemory now who.entry (stream O.contents out.old) (stream O.contents out.new)
        (stream E.contents err.old) (stream E.contents err.new) result }
{
    match audience_of(alloc, &lists.fixed().settings, who) {
        Ok(audience) => {
            let seen = Seen {
                lists,
                cells,
                audience,
                now,
            };
            match write_feed(alloc, &seen, out) {
                Ok(()) => 0,
                Err(FeedFault::Write) => CommandError::File.refuse(err),
                Err(FeedFault::Memory) => CommandError::Refused(Refusal::Memory).refuse(err),
            }
        }
        Err(stop) => stop.refuse(err),
    }
}
