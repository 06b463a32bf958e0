//! The commands that make a file, add to it or serve it.
ghost use Rattle.std.specs.Prelude.{◌≡◌, Err, IfErr, IfOk, None};
ghost use Rattle.sqlite.specs.Held.{state};
ghost use Rattle.contest_streams.specs.Streams.{ReadsAll, stream};
ghost use Rattle.contest_store_tables.specs.Numbered.{IsNumbered};
ghost use Rattle.contest_cli.specs.FileCommands.{ImportsOn, InitsOn, IsUnread};
ghost use Rattle.contest_cli.specs.FileCommands.{ServesOnce, UpgradesOn};
ghost use Rattle.contest_cli_commands.specs.Serve.{ServesOn};

use crate::file_command::FileCommand;
use contest_cli_commands::{run_import, run_init, run_serve, run_upgrade};
use contest_cli_machine::{MachineClock, Opening, Outside};
use contest_cli_words::{CommandError, ImportWords, InitWords, ServeWords, UpgradeWords};
use contest_streams::{Counted, read_limited};
use contest_types::limits::IMPORTED_FILE;
use contest_types::{Moment, Rows};
use sqlite::{Alter, Connection};
use std::alloc::Global;
use std::io::{Read, Write};

impl<W: Outside> FileCommand<W> for InitWords<'_> {
    ghost use Rattle.contest_cli.specs.FileCommands.{FitsAny, HasContest, InitsOn, LacksContest};
    ghost use Rattle.contest_cli.specs.FileCommands.{LooksNever};
    ghost use Rattle.contest_cli_machine.specs.declared.opening.Opening.TheVariants.{New};

    type Now = ();

    type Input = Rows<u8>;

    ghost looks = { LooksNever };

    ghost fits = { λ _. FitsAny };

    ghost lacks = { LacksContest W.File.remaining W.reads };

    ghost has = { HasContest W.File.remaining W.reads };

    ghost path = { λ asked. asked.file.now };

    ghost way = { New };

    ghost ends = { λ g. InitsOn g };

    fn file(&self) -> &str {
        self.file
    }

    fn opening(&self) -> Opening {
        Opening::New
    }

    fn moment<C: MachineClock>(&self, _: &C) -> Result<(), CommandError> {
        Ok(())
    }

    // All bytes are read here, so that no file is made where that fails.
    fn input(&self, alloc: Global, outside: W) -> Result<Rows<u8>, CommandError> {
        let mut reader = outside.read(self.contest)?;
        let bytes = whole_file(alloc, &mut reader)?;
        Ok(Rows::from_vec(bytes))
    }

    fn run<S: Alter, O: Write, E: Write>(
        &self,
        alloc: Global,
        conn: Connection<S>,
        now: (),
        input: Rows<u8>,
        out: &mut Counted<O>,
        err: &mut Counted<E>,
    ) -> (u8, Connection<S>)
        requires { IsNumbered (state S.Store conn) }
        ensures { InitsOn S.Store self.now now input (stream O.contents out.old) (stream O.contents out.new)
            (stream E.contents err.old) (stream E.contents err.new) conn result.1 result.0 }
    {
        run_init(alloc, conn, &mut Counted::new(input.as_slice()), err)
    }
}

// The bytes of a file, which is read to its end.
#[tactic(auto, using(crate::proofs::CommandLemmas::is_unread))]
fn whole_file<R: Read>(alloc: Global, reader: &mut Counted<R>) -> Result<Vec<u8>, CommandError>
    ensures ok { IfOk result (λ bytes. ReadsAll (R.remaining reader.old.inner) (R.remaining reader.new.inner) IMPORTED_FILE bytes.items) }
    ensures err { IfErr result (IsUnread (stream R.remaining reader.old) (stream R.remaining reader.new)) }
{
    match read_limited(alloc, reader, IMPORTED_FILE) {
        Ok(bytes) => Ok(bytes),
        Err(fault) => Err(CommandError::from(fault)),
    }
}

impl<W: Outside> FileCommand<W> for ImportWords<'_> {
    ghost use Rattle.contest_cli.specs.FileCommands.{FitsClock, HasPath, ImportsOn, LacksPath};
    ghost use Rattle.contest_cli.specs.FileCommands.{LooksAlways};
    ghost use Rattle.contest_cli_machine.specs.declared.opening.Opening.TheVariants.{Existing};

    type Now = Moment;

    type Input = Counted<W::File>;

    ghost looks = { LooksAlways };

    ghost fits = { λ shows. FitsClock shows };

    ghost lacks = { LacksPath W.File.remaining W.reads };

    ghost has = { HasPath W.File.remaining W.reads };

    ghost path = { λ asked. asked.file.now };

    ghost way = { Existing };

    ghost ends = { λ g. ImportsOn g W.File.remaining };

    fn file(&self) -> &str {
        self.file
    }

    fn opening(&self) -> Opening {
        Opening::Existing
    }

    fn moment<C: MachineClock>(&self, clock: &C) -> Result<Moment, CommandError> {
        clock.now()
    }

    fn input(&self, _: Global, outside: W) -> Result<Counted<W::File>, CommandError> {
        outside.read(self.path)
    }

    fn run<S: Alter, O: Write, E: Write>(
        &self,
        alloc: Global,
        conn: Connection<S>,
        now: Moment,
        mut input: Counted<W::File>,
        out: &mut Counted<O>,
        err: &mut Counted<E>,
    ) -> (u8, Connection<S>)
        requires { IsNumbered (state S.Store conn) }
        ensures { ImportsOn S.Store W.File.remaining self.now now input (stream O.contents out.old) (stream O.contents out.new)
            (stream E.contents err.old) (stream E.contents err.new) conn result.1 result.0 }
    {
        run_import(alloc, conn, now, self.kind, &mut input, out, err)
    }
}

impl<W: Outside> FileCommand<W> for ServeWords<'_> {
    ghost use Rattle.contest_cli.specs.FileCommands.{FitsClock, HasAny, LacksNothing, LooksAlways};
    ghost use Rattle.contest_cli.specs.FileCommands.{ServesOnce};
    ghost use Rattle.contest_cli_machine.specs.declared.opening.Opening.TheVariants.{Existing};
    ghost use Rattle.contest_cli_commands.specs.Serve.{ServesOn};

    type Now = Moment;

    type Input = W;

    ghost looks = { LooksAlways };

    ghost fits = { λ shows. FitsClock shows };

    ghost lacks = { LacksNothing };

    ghost has = { HasAny };

    ghost path = { λ asked. asked.file.now };

    ghost way = { Existing };

    ghost ends = { λ g. ServesOnce g (ServesOn g W.Listener.port_of W.Listener.gives W.Listener.parts W.shows W.Listener.Reader.remaining W.Listener.Writer.contents) };

    fn file(&self) -> &str {
        self.file
    }

    fn opening(&self) -> Opening {
        Opening::Existing
    }

    // Each request needs a moment, so a clock that shows none is told before anything is opened.
    fn moment<C: MachineClock>(&self, clock: &C) -> Result<Moment, CommandError> {
        clock.now()
    }

    fn input(&self, _: Global, outside: W) -> Result<W, CommandError> {
        Ok(outside)
    }

    fn run<S: Alter, O: Write, E: Write>(
        &self,
        alloc: Global,
        conn: Connection<S>,
        now: Moment,
        input: W,
        out: &mut Counted<O>,
        err: &mut Counted<E>,
    ) -> (u8, Connection<S>)
        requires { IsNumbered (state S.Store conn) }
        ensures { ServesOnce S.Store (ServesOn S.Store W.Listener.port_of W.Listener.gives W.Listener.parts W.shows W.Listener.Reader.remaining W.Listener.Writer.contents) self.now now input (stream O.contents out.old) (stream O.contents out.new)
            (stream E.contents err.old) (stream E.contents err.new) conn result.1 result.0 }
    {
        run_serve(alloc, conn, &input, self.port, self.requests, out, err)
    }
}

impl<W: Outside> FileCommand<W> for UpgradeWords<'_> {
    ghost use Rattle.contest_cli.specs.FileCommands.{FitsAny, HasAny, LacksNothing, LooksNever};
    ghost use Rattle.contest_cli.specs.FileCommands.{UpgradesOn};
    ghost use Rattle.contest_cli_machine.specs.declared.opening.Opening.TheVariants.{Existing};

    type Now = ();

    type Input = ();

    ghost looks = { LooksNever };

    ghost fits = { λ _. FitsAny };

    ghost lacks = { LacksNothing };

    ghost has = { HasAny };

    ghost path = { λ asked. asked.file.now };

    ghost way = { Existing };

    ghost ends = { λ g. UpgradesOn g };

    fn file(&self) -> &str {
        self.file
    }

    fn opening(&self) -> Opening {
        Opening::Existing
    }

    fn moment<C: MachineClock>(&self, _: &C) -> Result<(), CommandError> {
        Ok(())
    }

    fn input(&self, _: Global, _: W) -> Result<(), CommandError> {
        Ok(())
    }

    fn run<S: Alter, O: Write, E: Write>(
        &self,
        alloc: Global,
        conn: Connection<S>,
        now: (),
        input: (),
        out: &mut Counted<O>,
        err: &mut Counted<E>,
    ) -> (u8, Connection<S>)
        requires { IsNumbered (state S.Store conn) }
        ensures { UpgradesOn S.Store self.now now input (stream O.contents out.old) (stream O.contents out.new)
            (stream E.contents err.old) (stream E.contents err.new) conn result.1 result.0 }
    {
        run_upgrade(alloc, conn, out, err)
    }
}
