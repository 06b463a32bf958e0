//! The command `replay` of `desk` as a program of its own, whose words are the command's. It stands
//! on few crates, so that `./desk replay` soon has it proved, and `./desk --quick` compiled.
#![tactic(auto)]

ghost use Rattle.std.specs.Prelude.{◌≡◌, map, true, false};
ghost use Rattle.std.specs.List.{list_any};
ghost use Rattle.contest_streams.specs.Streams.{stream};
ghost use Rattle.contest_cli_words.specs.Endings.{ShowsSome};
ghost use Rattle.contest_cli_words.specs.Help.{is_help};
ghost use Rattle.contest_cli_replay.specs.Replay.{Replays};

use contest_cli_replay::{ReplayWords, replay};
use contest_cli_words::{
    CommandError, CommandWords, asks_help, borrowed, command_of, refuse_arguments, show_help,
};
use contest_streams::Counted;
use contest_types::Refusal;
use std::alloc::{AllocError, Global};
use std::env;
use std::io::{Read, Write};
use std::process::ExitCode;

fn main(rt: HostRuntime) -> ExitCode {
    let mut err = Counted::new(rt.stderr());
    let status = match env::args(&rt) {
        Ok(args) => match args.collect::<Vec<String>>(rt.alloc()) {
            Ok(words) => run_owned(&rt, &words, &mut err),
            Err(AllocError) => CommandError::Refused(Refusal::Memory).refuse(&mut err),
        },
        Err(error) => refuse_arguments(&error, &mut err),
    };
    ExitCode::from(status)
}

// Runs the command on the machine's streams. The first of its words is the program's own name.
fn run_owned<E: Write>(rt: &HostRuntime, words: &[String], err: &mut Counted<E>) -> u8 {
    let mut reader = Counted::new(rt.stdin());
    let mut out = Counted::new(rt.stdout());
    match borrowed(rt.alloc(), words) {
        Ok(words) => run(rt.alloc(), &words, &mut reader, &mut out, err),
        Err(AllocError) => CommandError::Refused(Refusal::Memory).refuse(err),
    }
}

// Prints the board that the words ask for, or the command's help. Answers the exit status.
fn run<R: Read, O: Write, E: Write>(
    alloc: Global,
    words: &[&str],
    reader: &mut Counted<R>,
    out: &mut Counted<O>,
    err: &mut Counted<E>,
) -> u8
    ensures board { list_any (λ s. is_help s.now) words.now ≡ false
        → Replays (map (λ s. s.now) words.now)
        (stream R.remaining reader.old) (stream R.remaining reader.new)
        (stream O.contents out.old) (stream O.contents out.new)
        (stream E.contents err.old) (stream E.contents err.new) result }
    ensures help { list_any (λ s. is_help s.now) words.now ≡ true
        → ShowsSome (stream O.contents out.old) (stream O.contents out.new)
        (stream E.contents err.old) (stream E.contents err.new) result }
{
    if !asks_help(words) {
        return replay(alloc, words, reader, out, err);
    }
    match command_of(alloc, &ReplayWords::command()) {
        Ok(app) => show_help(app, out, err),
        Err(AllocError) => CommandError::Refused(Refusal::Memory).refuse(err),
    }
}
