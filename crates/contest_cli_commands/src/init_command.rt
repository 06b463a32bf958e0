//! The command `init`: a contest read from a stream, and set up on a connection.
ghost use Rattle.std.specs.Prelude.{◌≡◌, IfOk, IfErr, MatchResult, true};
ghost use Rattle.sqlite.specs.Held.{state};
ghost use Rattle.sqlite.specs.State.{HasCleanDisk};
ghost use Rattle.contest_types.specs.State.{new_contest};
ghost use Rattle.contest_streams.specs.Streams.{stream};
ghost use Rattle.contest_types.specs.Valid.{is_valid};
ghost use Rattle.contest_store_tables.specs.Numbered.{IsNumbered};
ghost use Rattle.contest_cli_commands.specs.Init.{Inits, LeavesContest, LeavesNew, ReadsContest};
ghost use Rattle.contest_cli_commands.specs.Init.{Sets, SetsFile, StopsContest, StopsFile};
ghost use Rattle.contest_cli_commands.specs.Init.{StopsInit};

use contest_cli_words::CommandError;
use contest_import::read_contest_json;
use contest_store_sqlite::Store;
use contest_streams::{Counted, read_limited};
use contest_types::Contest;
use contest_types::limits::IMPORTED_FILE;
use sqlite::{Alter, Connection};
use std::alloc::Global;
use std::io::{Read, Write};

/// Runs `init`: reads a contest as JSON and sets it up where no table stands, in one commit. Where
/// a contest with an equal head stands nothing is changed; its start isn't compared. Answers the
/// exit status, 0 where the contest stands and 1 where `err` is told why it doesn't, and the
/// connection.
pub fn run_init<S: Alter, R: Read, E: Write>(
    alloc: Global,
    conn: Connection<S>,
    reader: &mut Counted<R>,
    err: &mut Counted<E>,
) -> (u8, Connection<S>)
    requires { IsNumbered (state S.Store conn) }
    ensures { Inits (stream R.remaining reader.old) (stream R.remaining reader.new)
        (stream E.contents err.old) (stream E.contents err.new)
        (state S.Store conn) (state S.Store result.1) result.0 }
{
    match init(alloc, conn, reader) {
        Ok(conn) => (0, conn),
        Err((stop, conn)) => (stop.refuse(err), conn),
    }
}

// The connection on which the contest stands, or why it doesn't stand there.
fn init<S: Alter, R: Read>(
    alloc: Global,
    conn: Connection<S>,
    reader: &mut Counted<R>,
) -> Result<Connection<S>, (CommandError, Connection<S>)>
    requires { IsNumbered (state S.Store conn) }
    ensures ok { IfOk result (λ after. SetsFile (stream R.remaining reader.old) (state S.Store conn) (state S.Store after)) }
    ensures err { IfErr result (λ e. StopsInit (stream R.remaining reader.old) (stream R.remaining reader.new) (state S.Store conn) (state S.Store e.1) e.0) }
    ensures leaves { MatchResult result (λ after. LeavesContest (stream R.remaining reader.old) (state S.Store conn) (state S.Store after)) (λ e. LeavesContest (stream R.remaining reader.old) (state S.Store conn) (state S.Store e.1)) }
{
    match contest_from(alloc, reader) {
        Ok(contest) => set_up(alloc, conn, contest),
        Err(stop) => Err((stop, conn)),
    }
}

// The contest that a file says.
fn contest_from<R: Read>(alloc: Global, reader: &mut Counted<R>) -> Result<Contest, CommandError>
    ensures ok { IfOk result (ReadsContest (stream R.remaining reader.old)) }
    ensures err { IfErr result (StopsFile (stream R.remaining reader.old) (stream R.remaining reader.new)) }
{
    let bytes = read_limited(alloc, reader, IMPORTED_FILE)?;
    let contest = read_contest_json(alloc, &bytes)?;
    Ok(contest)
}

// The connection on which a valid contest is set up.
fn set_up<S: Alter>(
    alloc: Global,
    conn: Connection<S>,
    contest: Contest,
) -> Result<Connection<S>, (CommandError, Connection<S>)>
    requires numbered { IsNumbered (state S.Store conn) }
    requires valid { is_valid (new_contest contest) ≡ true }
    ensures ok { IfOk result (λ after. HasCleanDisk (state S.Store after) → Sets contest (state S.Store conn) (state S.Store after)) }
    ensures err { IfErr result (λ e. StopsContest contest (state S.Store conn) (state S.Store e.1) e.0) }
    ensures leaves { MatchResult result (λ after. LeavesNew contest (state S.Store conn) (state S.Store after)) (λ e. LeavesNew contest (state S.Store conn) (state S.Store e.1)) }
{
    match Store::create(alloc, conn, contest) {
        Ok(store) => Ok(store.into_connection()),
        Err((refusal, conn)) => Err((CommandError::Refused(refusal), conn)),
    }
}
