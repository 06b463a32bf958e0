//! The commands that show what a file keeps.
ghost use Rattle.std.specs.Prelude.{◌≡◌, Err, IfErr, IfOk, None};
ghost use Rattle.sqlite.specs.Held.{state};
ghost use Rattle.contest_streams.specs.Streams.{stream};
ghost use Rattle.contest_store_tables.specs.Numbered.{IsNumbered};
ghost use Rattle.contest_cli.specs.FileCommands.{AwardsOn, BoardsOn, ExportsOn, FeedsOn};
ghost use Rattle.contest_cli.specs.FileCommands.{IsAskedMoment, viewer};

use crate::file_command::FileCommand;
use contest_cli_commands::{run_export, run_feed, run_print, run_results};
use contest_cli_machine::{MachineClock, Opening, Outside};
use contest_cli_words::{
    AskedText, AwardsWords, BoardWords, CommandError, ExportFormat, ExportWords, FeedWords, Who,
};
use contest_streams::Counted;
use contest_types::Moment;
use sqlite::{Alter, Connection};
use std::alloc::Global;
use std::io::Write;

impl<W: Outside> FileCommand<W> for BoardWords<'_> {
    ghost use Rattle.contest_cli.specs.FileCommands.{BoardLooks, BoardsOn, FitsBoard, HasAny};
    ghost use Rattle.contest_cli.specs.FileCommands.{LacksNothing};
    ghost use Rattle.contest_cli_machine.specs.declared.opening.Opening.TheVariants.{Existing};

    type Now = Moment;

    type Input = ();

    ghost looks = { BoardLooks };

    ghost fits = { λ shows. FitsBoard shows };

    ghost lacks = { LacksNothing };

    ghost has = { HasAny };

    ghost path = { λ asked. asked.file.now };

    ghost way = { Existing };

    ghost ends = { λ g. BoardsOn g };

    fn file(&self) -> &str {
        self.file
    }

    fn opening(&self) -> Opening {
        Opening::Existing
    }

    fn moment<C: MachineClock>(&self, clock: &C) -> Result<Moment, CommandError> {
        asked_moment(self.at, clock)
    }

    fn input(&self, _: Global, _: W) -> Result<(), CommandError> {
        Ok(())
    }

    fn run<S: Alter, O: Write, E: Write>(
        &self,
        alloc: Global,
        conn: Connection<S>,
        now: Moment,
        input: (),
        out: &mut Counted<O>,
        err: &mut Counted<E>,
    ) -> (u8, Connection<S>)
        requires { IsNumbered (state S.Store conn) }
        ensures { BoardsOn S.Store self.now now input (stream O.contents out.old) (stream O.contents out.new)
            (stream E.contents err.old) (stream E.contents err.new) conn result.1 result.0 }
    {
        run_print(alloc, conn, now, AskedText::Board(self.asked), out, err)
    }
}

impl<W: Outside> FileCommand<W> for AwardsWords<'_> {
    ghost use Rattle.contest_cli.specs.FileCommands.{AwardsLooks, AwardsOn, FitsAwards, HasAny};
    ghost use Rattle.contest_cli.specs.FileCommands.{LacksNothing};
    ghost use Rattle.contest_cli_machine.specs.declared.opening.Opening.TheVariants.{Existing};

    type Now = Moment;

    type Input = ();

    ghost looks = { AwardsLooks };

    ghost fits = { λ shows. FitsAwards shows };

    ghost lacks = { LacksNothing };

    ghost has = { HasAny };

    ghost path = { λ asked. asked.file.now };

    ghost way = { Existing };

    ghost ends = { λ g. AwardsOn g };

    fn file(&self) -> &str {
        self.file
    }

    fn opening(&self) -> Opening {
        Opening::Existing
    }

    fn moment<C: MachineClock>(&self, clock: &C) -> Result<Moment, CommandError> {
        asked_moment(self.at, clock)
    }

    fn input(&self, _: Global, _: W) -> Result<(), CommandError> {
        Ok(())
    }

    fn run<S: Alter, O: Write, E: Write>(
        &self,
        alloc: Global,
        conn: Connection<S>,
        now: Moment,
        input: (),
        out: &mut Counted<O>,
        err: &mut Counted<E>,
    ) -> (u8, Connection<S>)
        requires { IsNumbered (state S.Store conn) }
        ensures { AwardsOn S.Store self.now now input (stream O.contents out.old) (stream O.contents out.new)
            (stream E.contents err.old) (stream E.contents err.new) conn result.1 result.0 }
    {
        let asked = AskedText::Awards(viewer(self.jury));
        run_print(alloc, conn, now, asked, out, err)
    }
}

impl<W: Outside> FileCommand<W> for ExportWords<'_> {
    ghost use Rattle.contest_cli.specs.FileCommands.{ExportsOn, FitsAny, HasAny, LacksNothing};
    ghost use Rattle.contest_cli.specs.FileCommands.{LooksNever};
    ghost use Rattle.contest_cli_machine.specs.declared.opening.Opening.TheVariants.{Existing};

    type Now = ();

    type Input = ();

    ghost looks = { LooksNever };

    ghost fits = { λ _. FitsAny };

    ghost lacks = { LacksNothing };

    ghost has = { HasAny };

    ghost path = { λ asked. asked.file.now };

    ghost way = { Existing };

    ghost ends = { λ g. ExportsOn g };

    fn file(&self) -> &str {
        self.file
    }

    fn opening(&self) -> Opening {
        Opening::Existing
    }

    fn moment<C: MachineClock>(&self, _: &C) -> Result<(), CommandError> {
        Ok(())
    }

    fn input(&self, _: Global, _: W) -> Result<(), CommandError> {
        Ok(())
    }

    fn run<S: Alter, O: Write, E: Write>(
        &self,
        alloc: Global,
        conn: Connection<S>,
        now: (),
        input: (),
        out: &mut Counted<O>,
        err: &mut Counted<E>,
    ) -> (u8, Connection<S>)
        requires { IsNumbered (state S.Store conn) }
        ensures { ExportsOn S.Store self.now now input (stream O.contents out.old) (stream O.contents out.new)
            (stream E.contents err.old) (stream E.contents err.new) conn result.1 result.0 }
    {
        match self.format {
            ExportFormat::Csv => run_export(alloc, conn, out, err),
            ExportFormat::Icpc => run_results(alloc, conn, out, err),
        }
    }
}

impl<W: Outside> FileCommand<W> for FeedWords<'_> {
    ghost use Rattle.contest_cli.specs.FileCommands.{FeedLooks, FeedsOn, FitsFeed, HasAny};
    ghost use Rattle.contest_cli.specs.FileCommands.{LacksNothing};
    ghost use Rattle.contest_cli_machine.specs.declared.opening.Opening.TheVariants.{Existing};

    type Now = Moment;

    type Input = ();

    ghost looks = { FeedLooks };

    ghost fits = { λ shows. FitsFeed shows };

    ghost lacks = { LacksNothing };

    ghost has = { HasAny };

    ghost path = { λ asked. asked.file.now };

    ghost way = { Existing };

    ghost ends = { λ g. FeedsOn g };

    fn file(&self) -> &str {
        self.file
    }

    fn opening(&self) -> Opening {
        Opening::Existing
    }

    fn moment<C: MachineClock>(&self, clock: &C) -> Result<Moment, CommandError> {
        asked_moment(self.at, clock)
    }

    fn input(&self, _: Global, _: W) -> Result<(), CommandError> {
        Ok(())
    }

    fn run<S: Alter, O: Write, E: Write>(
        &self,
        alloc: Global,
        conn: Connection<S>,
        now: Moment,
        input: (),
        out: &mut Counted<O>,
        err: &mut Counted<E>,
    ) -> (u8, Connection<S>)
        requires { IsNumbered (state S.Store conn) }
        ensures { FeedsOn S.Store self.now now input (stream O.contents out.old) (stream O.contents out.new)
            (stream E.contents err.old) (stream E.contents err.new) conn result.1 result.0 }
    {
        run_feed(alloc, conn, now, self.who, out, err)
    }
}

// The moment that is asked for; the clock's where none is.
fn asked_moment<C: MachineClock>(at: Option<Moment>, clock: &C) -> Result<Moment, CommandError>
    ensures ok { IfOk result (IsAskedMoment (C.shows clock.now) at) }
    ensures err { IfErr result (λ stop. (at ≡ None) × (stop ≡ CommandError.Clock) × C.shows clock.now (Err stop)) }
{
    match at {
        Some(moment) => Ok(moment),
        None => clock.now(),
    }
}

// Who looks.
fn viewer(jury: bool) -> Who<'static>
    ensures { result ≡ viewer jury }
{
    if jury { Who::Jury } else { Who::Public }
}
