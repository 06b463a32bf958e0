//! The command `serve`: the contest that a connection holds, served to clients.
ghost use Rattle.std.specs.Prelude.{◌≡◌, OnErr, OnOk, ℕ};
ghost use Rattle.std.specs.Io.KnownBytes.{Appends};
ghost use Rattle.sqlite.specs.Held.{state};
ghost use Rattle.contest_streams.specs.Streams.{AppendsFront, Fails, stream};
ghost use Rattle.contest_store_tables.specs.Numbered.{IsNumbered};
ghost use Rattle.contest_store_sqlite.specs.Value.{stored};
ghost use Rattle.contest_cli_commands.specs.Clients.{ServesClients};
ghost use Rattle.contest_cli_machine.specs.Ports.{IsPort};
ghost use Rattle.contest_cli_commands.specs.Serve.{Serves, ServesAll, ServesHere, StopsNone};
ghost use Rattle.contest_cli_commands.specs.Serve.{TellsServing, listening_line};
ghost use Rattle.contest_cli_commands.specs.Served.{ServesSome};

use crate::listening_line::listening_line;
use crate::opening::open_desk;
use crate::serving::serve;
use contest_cli_machine::{Listen, Network};
use contest_cli_words::CommandError;
use contest_desk::Desk;
use contest_store::ContestStore;
use contest_streams::{Counted, OutputFault, write_all};
use sqlite::{Alter, Connection};
use std::alloc::Global;
use std::io::Write;

/// Runs `serve`: opens the desk of a contest, listens on a port of this machine, tells `out` which,
/// and serves so many clients. Answers the exit status: 0 where all were served, 1 where `err` is
/// told why not; and the connection.
pub fn run_serve<S: Alter, N: Network, O: Write, E: Write>(
    alloc: Global,
    conn: Connection<S>,
    network: &N,
    port: u16,
    requests: u64,
    out: &mut Counted<O>,
    err: &mut Counted<E>,
) -> (u8, Connection<S>)
    requires { IsNumbered (state S.Store conn) }
    ensures serves { Serves port requests (stream O.contents out.old) (stream O.contents out.new)
        (stream E.contents err.old) (stream E.contents err.new) (state S.Store conn) (state S.Store result.1) result.0 }
    ensures clients { result.0 ≡ 0 → ServesAll S.Store N.Listener.port_of (ServesClients N.Listener.gives N.Listener.parts (N.shows network.now) N.Listener.Reader.remaining N.Listener.Writer.contents (stored S.Store))
        port requests (stream O.contents out.old) (stream O.contents out.new) conn result.1 }
{
    match open_desk(alloc, conn) {
        Ok(mut desk) => {
            let status = serve_desk(alloc, &mut desk, network, port, requests, out, err);
            (status, desk.into_store().into_connection())
        }
        Err((error, conn)) => (CommandError::Refused(error.refusal()).refuse(err), conn),
    }
}

// The same of a desk that is open.
fn serve_desk<S: ContestStore, N: Network, O: Write, E: Write>(
    alloc: Global,
    desk: &mut Desk<S>,
    network: &N,
    port: u16,
    requests: u64,
    out: &mut Counted<O>,
    err: &mut Counted<E>,
) -> u8
    ensures told { TellsServing StopsNone port (stream O.contents out.old) (stream O.contents out.new)
        (stream E.contents err.old) (stream E.contents err.new) result }
    ensures clients { result ≡ 0 → ServesHere N.Listener.port_of (ServesClients N.Listener.gives N.Listener.parts (N.shows network.now) N.Listener.Reader.remaining N.Listener.Writer.contents S.kept)
        port requests (stream O.contents out.old) (stream O.contents out.new) desk.old desk.new }
    ensures served { (S.kept desk.new).is_clean → ServesSome requests (S.kept desk.old) (S.kept desk.new) }
    ensures clean { (S.kept desk.new).is_clean → (S.kept desk.old).is_clean }
{
    match network.listen(port) {
        Ok(mut listener) => serve_from(alloc, desk, network, &mut listener, requests, out, err),
        Err(stop) => stop.refuse(err),
    }
}

// The same where clients can connect.
fn serve_from<S: ContestStore, N: Network, O: Write, E: Write>(
    alloc: Global,
    desk: &mut Desk<S>,
    network: &N,
    listener: &mut N::Listener,
    requests: u64,
    out: &mut Counted<O>,
    err: &mut Counted<E>,
) -> u8
    ensures told { (asked : ℕ) → IsPort asked (N.Listener.port_of listener.old)
        → TellsServing StopsNone asked (stream O.contents out.old) (stream O.contents out.new)
        (stream E.contents err.old) (stream E.contents err.new) result }
    ensures line { result ≡ 0 → Appends (O.contents out.old.inner) (O.contents out.new.inner) (listening_line (N.Listener.port_of listener.old)) }
    ensures clients { result ≡ 0 → ServesClients N.Listener.gives N.Listener.parts (N.shows network.now) N.Listener.Reader.remaining N.Listener.Writer.contents S.kept requests listener.old listener.new desk.old desk.new }
    ensures served { (S.kept desk.new).is_clean → ServesSome requests (S.kept desk.old) (S.kept desk.new) }
    ensures clean { (S.kept desk.new).is_clean → (S.kept desk.old).is_clean }
{
    match tell_port(listener.port(), out) {
        Ok(()) => match serve(alloc, desk, network, listener, requests) {
            Ok(()) => 0,
            Err(stop) => stop.refuse(err),
        },
        Err(OutputFault) => CommandError::File.refuse(err),
    }
}

// Tells which port clients can connect to.
fn tell_port<O: Write>(port: u16, out: &mut Counted<O>) -> Result<(), OutputFault>
    ensures ok { OnOk result (Appends (O.contents out.old.inner) (O.contents out.new.inner) (listening_line port)) }
    ensures err { OnErr result (AppendsFront (O.contents out.old.inner) (O.contents out.new.inner) (listening_line port)) }
    ensures fault { OnErr result (Fails (stream O.contents out.old) (stream O.contents out.new)) }
{
    let line = listening_line(port);
    write_all(out, line.as_str().as_bytes())
}
