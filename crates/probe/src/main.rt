//! The program `probe`, for tests from outside: opens the file of a contest as the store does, and
//! tells what it found or why it was refused.
//!
//! - `probe open FILE` prints how many rows there are of each kind.
//! - `probe thaw FILE MILLISECONDS` sets the thaw, so long after 1970, and commits it.
//! - `probe walk FILE MILLISECONDS MILLISECONDS` reads the lists and a file, sets the thaw and
//!   commits it, several times, and prints what came of each call and how many failed by then.
//! - `probe demo FILE TEAMS PROBLEMS` makes the demo contest with the first so many of each.
#![tactic(auto)]

ghost use Rattle.sqlite.specs.Held.{state};
ghost use Rattle.contest_store_tables.specs.Connected.{IsBare};
ghost use Rattle.contest_store_sqlite.specs.Opening.{IsNew};

mod demo_file;
mod files;
mod tasks;
mod walk;
mod words;

use crate::demo_file::make_demo;
use crate::files::{open_bare, open_store};
use crate::tasks::{counts_of, thaw};
use crate::walk::walk;
use crate::words::{Task, Work, task_of};
use contest_cli_machine::{Host, Machine};
use contest_store::ContestStore;
use contest_store_sqlite::Store;
use contest_types::Refusal;
use sqlite::{Alter, Connection, Start, Unknown};
use std::alloc::{AllocError, Global};
use std::process::ExitCode;
use std::{env, io};

/// What was done.
#[derive(Drop)]
enum Done {
    /// The file is a contest's, with so many rows of each kind.
    Opened([usize; 11]),
    /// What was asked for is committed, or was told of step by step.
    All,
}

fn main(rt: HostRuntime) -> ExitCode {
    let said = match words_of(&rt) {
        Ok(words) => match task_of(&words) {
            Some(Task { path, work }) => tell(&rt, &answer_on_host(&rt, Unknown, path, work)),
            None => tell_usage(&rt),
        },
        Err(refusal) => tell(&rt, &Err(refusal)),
    };
    ExitCode::from(said.unwrap_or(3))
}

fn words_of(rt: &HostRuntime) -> Result<Vec<String>, Refusal> {
    match env::args(rt) {
        Ok(args) => match args.skip(1).collect::<Vec<String>>(rt.alloc()) {
            Ok(words) => Ok(words),
            Err(AllocError) => Err(Refusal::Memory),
        },
        Err(error) if error.kind() == io::ErrorKind::OutOfMemory => Err(Refusal::Memory),
        Err(_) => Err(Refusal::Malformed),
    }
}

// What is asked on the program's machine, where `disk` stands for what the files hold.
fn answer_on_host<D: Start>(
    rt: &HostRuntime,
    disk: D,
    path: &str,
    work: Work,
) -> Result<Done, Refusal> {
    answer(rt, Host { rt, disk }, path, work)
}

fn answer<M: Machine>(
    rt: &HostRuntime,
    machine: M,
    path: &str,
    work: Work,
) -> Result<Done, Refusal> {
    if let Work::Demo(teams, problems) = work {
        let conn = open_bare(machine, path)?;
        return demo_in(rt.alloc(), conn, teams, problems);
    }
    let mut store = open_store(rt.alloc(), machine, path)?;
    answer_of(rt, &mut store, work)
}

// What is asked of a store that stands; a demo contest isn't made over one.
fn answer_of<S: Alter>(rt: &HostRuntime, store: &mut Store<S>, work: Work) -> Result<Done, Refusal>
    requires { IsNew store.old }
{
    match work {
        Work::Count => Ok(Done::Opened(counts_of(store.lists()))),
        Work::Thaw(moment) => match thaw(rt.alloc(), store, moment) {
            Ok(()) => Ok(Done::All),
            Err(refusal) => Err(refusal),
        },
        Work::Walk(first, second) => {
            walk(rt, store, first, second);
            Ok(Done::All)
        }
        Work::Demo(_, _) => Err(Refusal::KeyReused),
    }
}

fn demo_in<S: Alter + Drop>(
    alloc: Global,
    conn: Connection<S>,
    teams: usize,
    problems: usize,
) -> Result<Done, Refusal>
    requires { IsBare (state S.Store conn) }
{
    match make_demo(alloc, conn, teams, problems) {
        Ok(()) => Ok(Done::All),
        Err(refusal) => Err(refusal),
    }
}

fn tell(rt: &HostRuntime, done: &Result<Done, Refusal>) -> io::Result<u8> {
    match done {
        Ok(Done::Opened(counts)) => {
            print!(rt; "open:")?;
            for count in counts {
                print!(rt; " {count}")?;
            }
            println!(rt; "")?;
            Ok(0)
        }
        Ok(Done::All) => {
            println!(rt; "done")?;
            Ok(0)
        }
        Err(refusal) => {
            let row = refusal.row();
            println!(rt; "refused: E{} {}", row.number, row.name)?;
            Ok(1)
        }
    }
}

fn tell_usage(rt: &HostRuntime) -> io::Result<u8> {
    eprintln!(rt;
        "usage: probe open FILE | thaw FILE MILLISECONDS | walk FILE MILLISECONDS MILLISECONDS | demo FILE TEAMS PROBLEMS"
    )?;
    Ok(2)
}
