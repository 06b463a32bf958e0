//! What is done with the tables of a connection, and what is told of it.

ghost use Rattle.std.specs.Prelude.{IfOk};
ghost use Rattle.sqlite.specs.Held.{state};
ghost use Rattle.contest_desk.specs.Serving.{IsSettled};
ghost use Rattle.contest_store_sqlite.specs.Value.{stored};
ghost use Rattle.contest_store_tables.specs.Numbered.{IsNumbered};

use crate::script::{FileWork, Script};
use crate::session::{go, tell_end, tell_refusal};
use contest_desk::Desk;
use contest_import::read_contest_json;
use contest_store_sqlite::Store;
use contest_types::Refusal;
use sqlite::{Alter, Connection};
use std::alloc::Global;
use std::io;

/// Does what is asked with the tables of a connection, up to the next beginning.
pub fn at_tables<S: Alter + Drop>(
    rt: &HostRuntime,
    script: &mut Script<'_>,
    work: FileWork<'_>,
    conn: Connection<S>,
    taken: &mut Vec<u8>,
) -> (io::Result<()>, Connection<S>)
    requires { IsNumbered (state S.Store conn) }
{
    match work {
        FileWork::Create(file) => at_desk(
            rt,
            script,
            "made",
            create(rt.alloc(), conn, file),
            taken,
        ),
        FileWork::Open => at_desk(rt, script, "opened", open(rt.alloc(), conn), taken),
        FileWork::Upgrade => upgrade(rt, conn),
        FileWork::Run(sql) => run(rt, conn, sql),
    }
}

/// The desk of the contest that a file says.
fn create<S: Alter + Drop>(
    alloc: Global,
    conn: Connection<S>,
    file: &[u8],
) -> Result<Desk<Store<S>>, (Refusal, Connection<S>)>
    requires { IsNumbered (state S.Store conn) }
{
    match read_contest_json(alloc, file) {
        Ok(contest) => match Store::create(alloc, conn, contest) {
            Ok(store) => desk_over(alloc, store),
            Err((refusal, conn)) => Err((refusal, conn)),
        },
        Err(refusal) => Err((refusal, conn)),
    }
}

/// The desk of the contest that stands.
fn open<S: Alter + Drop>(
    alloc: Global,
    conn: Connection<S>,
) -> Result<Desk<Store<S>>, (Refusal, Connection<S>)>
    requires { IsNumbered (state S.Store conn) }
{
    match Store::open(alloc, conn) {
        Ok(store) => desk_over(alloc, store),
        Err((error, conn)) => Err((error.refusal(), conn)),
    }
}

fn desk_over<S: Alter + Drop>(
    alloc: Global,
    store: Store<S>,
) -> Result<Desk<Store<S>>, (Refusal, Connection<S>)>
    requires { IsSettled (stored S.Store store) }
{
    match Desk::new(alloc, store) {
        Ok(desk) => Ok(desk),
        Err((refusal, store)) => Err((refusal, store.into_connection())),
    }
}

fn at_desk<S: Alter + Drop>(
    rt: &HostRuntime,
    script: &mut Script<'_>,
    how: &str,
    desk: Result<Desk<Store<S>>, (Refusal, Connection<S>)>,
    taken: &mut Vec<u8>,
) -> (io::Result<()>, Connection<S>) {
    match desk {
        Ok(mut desk) => {
            let gone = go_from(rt, &mut desk, script, how, taken);
            let store = desk.into_store();
            let told = tell_store(rt, &store, gone);
            (told, store.into_connection())
        }
        Err((refusal, conn)) => (tell_refusal(rt, refusal), conn),
    }
}

fn go_from<S: Alter + Drop>(
    rt: &HostRuntime,
    desk: &mut Desk<Store<S>>,
    script: &mut Script<'_>,
    how: &str,
    taken: &mut Vec<u8>,
) -> io::Result<()> {
    println!(rt; "{how}")?;
    go(rt, desk, script, taken)
}

fn tell_store<S: Alter>(
    rt: &HostRuntime,
    store: &Store<S>,
    gone: io::Result<()>,
) -> io::Result<()> {
    gone?;
    tell_end(rt, store.faults(), store.refusals(), store.commits())
}

fn upgrade<S: Alter + Drop>(
    rt: &HostRuntime,
    conn: Connection<S>,
) -> (io::Result<()>, Connection<S>)
    requires { IsNumbered (state S.Store conn) }
{
    let (done, conn) = Store::upgrade(rt.alloc(), conn);
    (tell_upgrade(rt, done), conn)
}

fn tell_upgrade(rt: &HostRuntime, done: Result<bool, Refusal>) -> io::Result<()> {
    match done {
        Ok(true) => println!(rt; "upgraded"),
        Ok(false) => println!(rt; "stands"),
        Err(refusal) => tell_refusal(rt, refusal),
    }
}

fn run<S: Alter + Drop>(
    rt: &HostRuntime,
    conn: Connection<S>,
    sql: &[u8],
) -> (io::Result<()>, Connection<S>) {
    let mut conn = conn;
    let has_run = run_text(&mut conn, sql);
    (tell_run(rt, has_run), conn)
}

fn tell_run(rt: &HostRuntime, has_run: bool) -> io::Result<()> {
    if has_run {
        println!(rt; "ran")
    } else {
        println!(rt; "failed")
    }
}

/// Whether all of it could be run.
fn run_text<S: Alter>(conn: &mut Connection<S>, sql: &[u8]) -> bool {
    match std::str::from_utf8(sql) {
        Ok(sql) => conn.execute_batch(sql).is_ok(),
        Err(_) => false,
    }
}
