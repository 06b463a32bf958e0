//! The program's commands, run by the words of its command line.
ghost use Rattle.std.specs.Prelude.{◌≡◌, ◌≤◌, codes, map, string_bytes, IfErr, IfOk};
ghost use Rattle.sqlite.specs.Files.{over_files};
ghost use Rattle.contest_streams.specs.Streams.{stream};
ghost use Rattle.contest_cli_audit.specs.Audit.{Audits};
ghost use Rattle.contest_cli_words.specs.Endings.{Shows, ShowsSome, TellsWords};
ghost use Rattle.contest_cli.specs.Commands.{AsksHelp, NamesNone, TellsNone, TellsUnknown};
ghost use Rattle.contest_cli.specs.Commands.{first_word, invocation_of, unknown_command, version_text};
ghost use Rattle.contest_cli.specs.Runs.{Runs};
ghost use Rattle.contest_cli_commands.specs.Serve.{ServesOn};
ghost use Rattle.contest_cli.specs.declared.invocation.CommandName.{CommandName};

use crate::explained::{Input, explain_refusal};
use crate::file_command::run_by_words;
use crate::help::{HELP, VERSION, show_help_of};
use crate::invocation::{CommandName, Invocation, invocation_of};
use contest_cli_audit::audit;
use contest_cli_explain::{Kept, LastLine, take_explain};
use contest_cli_machine::{
    ClientReader, ClientWriter, Host, HostListener, HostNetwork, Listen, Machine, MachineClock,
    Network, Outside,
};
use contest_cli_replay::replay;
use contest_cli_words::{
    AwardsWords, BoardWords, CommandError, ExportWords, FeedWords, ImportWords, InitWords,
    ServeWords, UpgradeWords, borrowed, refuse_arguments, show, tell,
};
use contest_streams::Counted;
use contest_types::Refusal;
use sqlite::{Start, Unknown};
use std::alloc::{AllocError, Global};
use std::env::Args;
use std::fs::File;
use std::io::{self, Read, Write};

/// Runs the program by its arguments, of which the first is its own name. Answers the exit status.
/// With `--explain` among the words of a command, a refusal is explained on `err`, behind its line.
pub fn start<R: Read + Drop, O: Write + Drop, E: Write + Drop>(
    rt: &HostRuntime,
    args: io::Result<Args>,
    reader: R,
    out: O,
    err: E,
) -> u8
    ensures statuses { result ≤ 3 }
    ensures unread { IfErr args (λ _. 1 ≤ result) }
{
    match args {
        Ok(args) => match args.skip(1).collect::<Vec<String>>(rt.alloc()) {
            Ok(words) => run_words(rt, words, reader, out, err),
            Err(AllocError) => CommandError::Refused(Refusal::Memory).refuse(&mut Counted::new(
                err,
            )),
        },
        Err(error) => refuse_arguments(&error, &mut Counted::new(err)),
    }
}

// Runs the program by words of its own.
fn run_words<R: Read + Drop, O: Write + Drop, E: Write + Drop>(
    rt: &HostRuntime,
    words: Vec<String>,
    reader: R,
    out: O,
    err: E,
) -> u8
    ensures { result ≤ 3 }
{
    let mut words = words;
    let mut out = Counted::new(out);
    if take_explain(&mut words) {
        return run_explained(rt, &words, reader, &mut out, err);
    }
    let mut reader = Counted::new(reader);
    let mut err = Counted::new(err);
    run_on_host(rt, Unknown, &words, &mut reader, &mut out, &mut err)
}

// The same, where a refusal is explained.
fn run_explained<R: Read + Drop, O: Write, E: Write + Drop>(
    rt: &HostRuntime,
    words: &[String],
    reader: R,
    out: &mut Counted<O>,
    err: E,
) -> u8
    ensures { result ≤ 3 }
{
    let mut reader = Counted::new(Kept::new(rt.alloc(), reader));
    let mut err = Counted::new(LastLine::new(err));
    let status = run_on_host(rt, Unknown, words, &mut reader, out, &mut err);
    if status == 1 {
        let failed = reader.faults() > 0;
        let kept = reader.into_inner();
        let input = Input {
            bytes: kept.so_far(),
            was_read: kept.was_read(),
            failed,
        };
        explain_refusal(rt, words, &input, out.faults() > 0, err.into_inner());
    }
    status
}

// The same, where `disk` stands for what the files hold that keep a contest.
fn run_on_host<D: Start, R: Read, O: Write, E: Write>(
    rt: &HostRuntime,
    disk: D,
    words: &[String],
    reader: &mut Counted<R>,
    out: &mut Counted<O>,
    err: &mut Counted<E>,
) -> u8
    ensures statuses { result ≤ 3 }
    ensures differs { result ≡ 3 → invocation_of (map string_bytes words.now) ≡ Invocation.To CommandName.Audit }
    ensures command { (command : CommandName) → invocation_of (map string_bytes words.now) ≡ Invocation.To command
        → Runs over_files ⟦<File as Read>⟧.remaining (⟦<Host<'static, D> as MachineClock>⟧.shows (record { rt = rt.entry; disk = disk })) (⟦<Host<'static, D> as Machine>⟧.there (record { rt = rt.entry; disk = disk })) ⟦<Host<'static, D> as Machine>⟧.found ⟦<HostNetwork<'static> as Outside>⟧.reads ⟦<Host<'static, D> as Machine>⟧.left (ServesOn over_files ⟦<HostListener<'static> as Listen>⟧.port_of ⟦<HostListener<'static> as Listen>⟧.gives ⟦<HostListener<'static> as Listen>⟧.parts ⟦<HostNetwork<'static> as Network>⟧.shows ⟦<ClientReader<'static> as Read>⟧.remaining ⟦<ClientWriter<'static> as Write>⟧.contents) command (map string_bytes words.now)
        (stream R.remaining reader.old) (stream R.remaining reader.new)
        (stream O.contents out.old) (stream O.contents out.new)
        (stream E.contents err.old) (stream E.contents err.new) result }
    ensures unknown { NamesNone (map string_bytes words.now) → 1 ≤ result }
{
    run_owned(rt.alloc(), Host { rt, disk }, words, reader, out, err)
}

// The same on any machine.
fn run_owned<M: Machine, R: Read, O: Write, E: Write>(
    alloc: Global,
    machine: M,
    words: &[String],
    reader: &mut Counted<R>,
    out: &mut Counted<O>,
    err: &mut Counted<E>,
) -> u8
    ensures statuses { result ≤ 3 }
    ensures differs { result ≡ 3 → invocation_of (map string_bytes words.now) ≡ Invocation.To CommandName.Audit }
    ensures command { (command : CommandName) → invocation_of (map string_bytes words.now) ≡ Invocation.To command
        → Runs M.Disk.Store M.Outside.File.remaining (M.shows machine) (M.there machine) M.found M.Outside.reads M.left (ServesOn M.Disk.Store M.Outside.Listener.port_of M.Outside.Listener.gives M.Outside.Listener.parts M.Outside.shows M.Outside.Listener.Reader.remaining M.Outside.Listener.Writer.contents) command (map string_bytes words.now)
        (stream R.remaining reader.old) (stream R.remaining reader.new)
        (stream O.contents out.old) (stream O.contents out.new)
        (stream E.contents err.old) (stream E.contents err.new) result }
    ensures unknown { NamesNone (map string_bytes words.now) → 1 ≤ result }
{
    match borrowed(alloc, words) {
        Ok(words) => run(alloc, machine, &words, reader, out, err),
        Err(AllocError) => CommandError::Refused(Refusal::Memory).refuse(err),
    }
}

/// Runs the command that the words name; the program's own name isn't among them. Answers the exit
/// status: 0 where it did what was asked, 1 where that was refused or a stream failed, 2 where the
/// words have a fault or name no command, and of `audit` alone 3 where a board differs from another.
/// Help and the version that are asked for go to `out`.
pub fn run<M: Machine, R: Read, O: Write, E: Write>(
    alloc: Global,
    machine: M,
    words: &[&str],
    reader: &mut Counted<R>,
    out: &mut Counted<O>,
    err: &mut Counted<E>,
) -> u8
    ensures statuses { result ≤ 3 }
    ensures differs { result ≡ 3 → invocation_of (map (λ s. s.now) words.now) ≡ Invocation.To CommandName.Audit }
    ensures command { (command : CommandName) → invocation_of (map (λ s. s.now) words.now) ≡ Invocation.To command
        → Runs M.Disk.Store M.Outside.File.remaining (M.shows machine) (M.there machine) M.found M.Outside.reads M.left (ServesOn M.Disk.Store M.Outside.Listener.port_of M.Outside.Listener.gives M.Outside.Listener.parts M.Outside.shows M.Outside.Listener.Reader.remaining M.Outside.Listener.Writer.contents) command (map (λ s. s.now) words.now)
        (stream R.remaining reader.old) (stream R.remaining reader.new)
        (stream O.contents out.old) (stream O.contents out.new)
        (stream E.contents err.old) (stream E.contents err.new) result }
    ensures help { AsksHelp (map (λ s. s.now) words.now)
        → ShowsSome (stream O.contents out.old) (stream O.contents out.new)
        (stream E.contents err.old) (stream E.contents err.new) result }
    ensures version { invocation_of (map (λ s. s.now) words.now) ≡ Invocation.Version
        → Shows version_text (stream O.contents out.old) (stream O.contents out.new)
        (stream E.contents err.old) (stream E.contents err.new) result }
    ensures nothing { invocation_of (map (λ s. s.now) words.now) ≡ Invocation.Nothing
        → TellsNone (stream O.contents out.old) (stream O.contents out.new)
        (stream E.contents err.old) (stream E.contents err.new) result }
    ensures unknown { invocation_of (map (λ s. s.now) words.now) ≡ Invocation.Unknown
        → TellsUnknown (map (λ s. s.now) words.now)
        (stream O.contents out.old) (stream O.contents out.new)
        (stream E.contents err.old) (stream E.contents err.new) result }
{
    match invocation_of(words) {
        Invocation::Nothing => {
            tell(HELP.as_bytes(), err);
            2
        }
        Invocation::Help => show(HELP.as_bytes(), out, err),
        Invocation::Version => show(VERSION.as_bytes(), out, err),
        Invocation::To(command) => run_command(alloc, machine, command, words, reader, out, err),
        Invocation::HelpOf(command) => show_help_of(alloc, command, out, err),
        Invocation::Unknown => refuse_command(alloc, first_of(words), err),
    }
}

// Runs a command by its words.
fn run_command<M: Machine, R: Read, O: Write, E: Write>(
    alloc: Global,
    machine: M,
    command: CommandName,
    words: &[&str],
    reader: &mut Counted<R>,
    out: &mut Counted<O>,
    err: &mut Counted<E>,
) -> u8
    ensures statuses { result ≤ 3 }
    ensures differs { result ≡ 3 → command ≡ CommandName.Audit }
    ensures runs { Runs M.Disk.Store M.Outside.File.remaining (M.shows machine) (M.there machine) M.found M.Outside.reads M.left (ServesOn M.Disk.Store M.Outside.Listener.port_of M.Outside.Listener.gives M.Outside.Listener.parts M.Outside.shows M.Outside.Listener.Reader.remaining M.Outside.Listener.Writer.contents) command (map (λ s. s.now) words.now)
        (stream R.remaining reader.old) (stream R.remaining reader.new)
        (stream O.contents out.old) (stream O.contents out.new)
        (stream E.contents err.old) (stream E.contents err.new) result }
{
    match command {
        CommandName::Replay => replay(alloc, words, reader, out, err),
        CommandName::Audit => run_audit(alloc, &machine, words, reader, out, err),
        CommandName::Init => run_by_words::<M, InitWords, O, E>(alloc, machine, words, out, err),
        CommandName::Import => run_by_words::<M, ImportWords, O, E>(
            alloc, machine, words, out, err,
        ),
        CommandName::Board => run_by_words::<M, BoardWords, O, E>(alloc, machine, words, out, err),
        CommandName::Awards => run_by_words::<M, AwardsWords, O, E>(
            alloc, machine, words, out, err,
        ),
        CommandName::Export => run_by_words::<M, ExportWords, O, E>(
            alloc, machine, words, out, err,
        ),
        CommandName::Feed => run_by_words::<M, FeedWords, O, E>(alloc, machine, words, out, err),
        CommandName::Serve => run_by_words::<M, ServeWords, O, E>(alloc, machine, words, out, err),
        CommandName::Upgrade => run_by_words::<M, UpgradeWords, O, E>(
            alloc, machine, words, out, err,
        ),
    }
}

// Runs `audit` on a machine.
fn run_audit<M: Machine, R: Read, O: Write, E: Write>(
    alloc: Global,
    machine: &M,
    words: &[&str],
    reader: &mut Counted<R>,
    out: &mut Counted<O>,
    err: &mut Counted<E>,
) -> u8
    ensures { Audits M.Outside.File.remaining M.Outside.reads (map (λ s. s.now) words.now)
        (stream R.remaining reader.old) (stream R.remaining reader.new)
        (stream O.contents out.old) (stream O.contents out.new)
        (stream E.contents err.old) (stream E.contents err.new) result }
{
    let outside = machine.outside();
    audit(alloc, &outside, words, reader, out, err)
}

// The first word, empty where there is none.
fn first_of<'a>(words: &[&'a str]) -> &'a str
    ensures { result.now ≡ first_word (map (λ s. s.now) words.now) }
{
    match words.first() {
        Some(word) => word,
        None => "",
    }
}

fn unknown_command(alloc: Global, name: &str) -> Result<String, AllocError>
    ensures { IfOk result (λ text. string_bytes text ≡ unknown_command name.now) }
{
    format!(in alloc;
        "error: unknown command '{name}'; the commands are replay, audit, init, import, board, awards, export, feed, serve, upgrade and help\n"
    )
}

// What is said of a command that there isn't.
fn refuse_command<E: Write>(alloc: Global, name: &str, err: &mut Counted<E>) -> u8
    ensures { TellsWords (unknown_command name.now) (stream E.contents err.old) (stream E.contents err.new) result }
{
    match unknown_command(alloc, name) {
        Ok(text) => {
            tell(text.as_bytes(), err);
            2
        }
        Err(AllocError) => CommandError::Refused(Refusal::Memory).refuse(err),
    }
}
