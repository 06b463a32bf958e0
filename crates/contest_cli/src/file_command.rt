//! A command that keeps a contest in a file: its words, what these name on the machine, then the
//! command. Faults are found in this order: the words, the clock, the file that keeps the contest,
//! the file that is read or the port. A file that keeps the contest is made only once the one that
//! is read was had. At its end a command parts from the file that keeps the contest; what it did
//! stands whether or not that succeeds.
ghost use Rattle.std.specs.Prelude.{◌≡◌, ◌⊎◌, ℕ, Ok, Err, Some, IfErr, IfOk, List, Result, false};
ghost use Rattle.std.specs.Prelude.{map, true};
ghost use Rattle.sqlite_trees.specs.declared.store.Store.{Ghosts};
ghost use Rattle.sqlite.specs.Held.{Held, state};
ghost use Rattle.contest_streams.specs.Streams.{Stream, stream};
ghost use Rattle.contest_store_tables.specs.Numbered.{IsNumbered};
ghost use Rattle.contest_cli.specs.FileCommand.{RunsByWords, StandsThere, StopsEarly, Unopened};
ghost use Rattle.contest_cli_machine.specs.Unopened.{IsNoStore};
ghost use Rattle.contest_cli_machine.specs.declared.opening.Opening.{Opening as TheOpening};
ghost use Rattle.contest_cli_words.specs.CommandTable.{Names};
ghost use Rattle.contest_cli_words.specs.declared.command_error.CommandError.{CommandError as TheError};

use contest_cli_machine::{Machine, MachineClock, Opening, Outside};
use contest_cli_words::{CommandError, CommandWords, read_words};
use contest_streams::Counted;
use sqlite::{Alter, Connection};
use std::alloc::Global;
use std::io::Write;

/// A command that keeps a contest in a file, by what its words name.
pub(crate) trait FileCommand<W: Outside>: Drop {
    /// The moment at which it runs, if it needs one.
    type Now: Drop;
    /// What it asks of the machine beside the file that keeps the contest.
    type Input: Drop;

    /// The words leave the moment to the clock.
    ghost looks: { Self → Type 0 };

    /// The words let it run at this moment, where the clock shows what it does.
    ghost fits: { (shows : Result ℕ TheError → Type 0) → Self → Self.Now → Type 0 };

    /// Why what it asks of the machine can't be had.
    ghost lacks: { Self → TheError → Type 0 };

    /// This is what it asks of the machine.
    ghost has: { Self → Self.Input → Type 0 };

    /// The path of the file that keeps the contest.
    ghost path: { Self → List ℕ };

    /// Whether the file that keeps the contest is made where it isn't there.
    ghost way: { TheOpening };

    /// How it ends.
    ghost ends: { {S : Type 0} → Ghosts S → Self → Self.Now → Self.Input → (out_old out_new err_old err_new : Stream) → (old new : Held S) → (status : ℕ) → Type 0 };

    /// The path of the file that keeps the contest.
    fn file(&self) -> &str
        ensures { result.now ≡ path self.now };

    /// Whether that file is made where it isn't there.
    fn opening(&self) -> Opening
        ensures { result ≡ way };

    /// The moment at which it runs.
    fn moment<C: MachineClock>(&self, clock: &C) -> Result<Self::Now, CommandError>
        ensures ok { IfOk result (fits (C.shows clock.now) self.now) }
        ensures err { IfErr result (λ stop. looks self.now × (stop ≡ CommandError.Clock) × C.shows clock.now (Err stop)) };

    /// What it asks of the machine.
    fn input(&self, alloc: Global, outside: W) -> Result<Self::Input, CommandError>
        ensures ok { IfOk result (has self.now) }
        ensures err { IfErr result (lacks self.now) };

    /// Runs it. Answers the exit status, and the connection.
    fn run<S: Alter, O: Write, E: Write>(
        &self,
        alloc: Global,
        conn: Connection<S>,
        now: Self::Now,
        input: Self::Input,
        out: &mut Counted<O>,
        err: &mut Counted<E>,
    ) -> (u8, Connection<S>)
        requires { IsNumbered (state S.Store conn) }
        ensures { ends S.Store self.now now input (stream O.contents out.old) (stream O.contents out.new)
            (stream E.contents err.old) (stream E.contents err.new) conn result.1 result.0 };
}

/// A command that is begun.
#[derive(Drop)]
struct Begun<S: Alter + Drop, C: Drop, N: Drop, I: Drop> {
    /// What its words name.
    asked: C,
    /// The SQLite file that keeps the contest.
    conn: Connection<S>,
    /// The moment at which it runs.
    now: N,
    /// What else it asked of the machine.
    input: I,
}

/// Runs a command by its words, of which the first is the command's own. Answers the exit status: 2
/// where the words have a fault, 1 where something can't be had of the machine, else the command's
/// own. Where the command isn't begun, `err` is told why.
pub(crate) fn run_by_words<
    'a,
    M: Machine,
    C: CommandWords<'a> + FileCommand<M::Outside>,
    O: Write,
    E: Write,
>(alloc: Global, machine: M, words: &'a [&'a str], out: &mut Counted<O>, err: &mut Counted<E>) -> u8
    ensures { RunsByWords C.app C.names C.path C.looks C.lacks (M.shows machine) (M.there machine) (M.found C.way) (C.fits (M.shows machine)) C.has M.Disk.Store M.left (C.ends M.Disk.Store) (map (λ s. s.now) words.entry.now)
        (stream O.contents out.old) (stream O.contents out.new)
        (stream E.contents err.old) (stream E.contents err.new) result }
{
    match open::<M, C>(alloc, machine, words) {
        Ok(it) => {
            let Begun {
                asked,
                conn,
                now,
                input,
            } = it;
            let (status, conn) = asked.run(alloc, conn, now, input, out, err);
            part::<M>(conn.into_store());
            status
        }
        Err(stop) => stop.refuse(err),
    }
}

// Parts from the file that keeps the contest; what the command did stands whether or not that
// succeeds.
fn part<M: Machine>(store: M::Disk)
    ensures { M.left store }
{
    M::close(store);
}

// What the words ask for, and what was had of the machine for it; or the first fault.
fn open<'a, M: Machine, C: CommandWords<'a> + FileCommand<M::Outside>>(
    alloc: Global,
    machine: M,
    words: &'a [&'a str],
) -> Result<Begun<M::Disk, C, C::Now, C::Input>, CommandError>
    ensures named { IfOk result (λ it. Names C.names C.app (map (λ s. s.now) words.entry.now) it.asked) }
    ensures found { IfOk result (λ it. M.found C.way (C.path it.asked) (Ok it.conn)) }
    ensures numbered { IfOk result (λ it. IsNumbered (state M.Disk.Store it.conn)) }
    ensures fits { IfOk result (λ it. C.fits (M.shows machine) it.asked it.now) }
    ensures has { IfOk result (λ it. C.has it.asked it.input) }
    ensures stops { IfErr result (StopsEarly C.app C.names C.path C.looks C.lacks (M.shows machine) (M.there machine) (M.found C.way) (map (λ s. s.now) words.entry.now)) }
{
    let asked = read_words::<C>(alloc, words)?;
    let now = asked.moment(&machine)?;
    match had_for(alloc, machine, &asked) {
        Ok((conn, input)) => Ok(Begun {
            asked,
            conn,
            now,
            input,
        }),
        Err((stop, _)) => Err(stop),
    }
}

// The file that keeps the contest, and what else a command asks of the machine. A file is made
// last, so that none is left where something else can't be had: the machine is handed back where
// nothing was opened on it.
fn had_for<M: Machine, C: FileCommand<M::Outside>>(
    alloc: Global,
    machine: M,
    asked: &C,
) -> Result<(Connection<M::Disk>, C::Input), (CommandError, Option<M>)>
    ensures found { IfOk result (λ had. M.found C.way (C.path asked.now) (Ok had.0)) }
    ensures numbered { IfOk result (λ had. IsNumbered (state M.Disk.Store had.0)) }
    ensures has { IfOk result (λ had. C.has asked.now had.1) }
    ensures unmet { IfErr result (λ e. Unopened C.path (M.there machine) (M.found C.way) asked.now e.0 ⊎ C.lacks asked.now e.0) }
    ensures unmade { IfErr result (λ e. (e.1 ≡ Some machine) ⊎ (StandsThere C.way (M.there machine) (C.path asked.now) ⊎ M.found C.way (C.path asked.now) (Err e.0))) }
{
    let outside = machine.outside();
    match is_made(&machine, asked) {
        Ok(true) => match asked.input(alloc, outside) {
            Ok(input) => match file_for(machine, asked) {
                Ok(conn) => Ok((conn, input)),
                Err(stop) => Err((stop, None)),
            },
            Err(stop) => Err((stop, Some(machine))),
        },
        Ok(false) => match file_for(machine, asked) {
            Ok(conn) => match asked.input(alloc, outside) {
                Ok(input) => Ok((conn, input)),
                Err(stop) => Err((stop, None)),
            },
            Err(stop) => Err((stop, None)),
        },
        Err(stop) => Err((stop, Some(machine))),
    }
}

// The file that keeps the contest, which is made only by a command that makes it.
fn file_for<M: Machine, C: FileCommand<M::Outside>>(
    machine: M,
    asked: &C,
) -> Result<Connection<M::Disk>, CommandError>
    ensures found { M.found C.way (C.path asked.now) result }
    ensures numbered { IfOk result (λ conn. IsNumbered (state M.Disk.Store conn)) }
    ensures refused { IfErr result IsNoStore }
{
    machine.open(asked.file(), asked.opening())
}

// Whether the file that keeps the contest isn't there, and is to be made.
fn is_made<M: Machine, C: FileCommand<M::Outside>>(
    machine: &M,
    asked: &C,
) -> Result<bool, CommandError>
    ensures stands { result ≡ Ok false → StandsThere C.way (M.there machine.now) (C.path asked.now) }
    ensures there { IfErr result (λ stop. M.there machine.now (C.path asked.now) (Err stop)) }
    ensures refused { IfErr result IsNoStore }
{
    match asked.opening() {
        Opening::Existing => Ok(false),
        Opening::New => match machine.has(asked.file()) {
            Ok(true) => Ok(false),
            Ok(false) => Ok(true),
            Err(stop) => Err(stop),
        },
    }
}
