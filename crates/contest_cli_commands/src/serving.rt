//! Clients served, one after the other.
ghost use Rattle.std.specs.Prelude.{◌≡◌, IfErr, IfOk, IsTrue};
ghost use Rattle.contest_cli_commands.specs.Clients.{ServesClients, ServesFewer, ServesNext, Stops};
ghost use Rattle.contest_cli_commands.specs.Served.{HandlesAny, ServesSome, StopsServing};

use contest_cli_machine::{Connected, Listen, Network};
use contest_cli_words::CommandError;
use contest_desk::Desk;
use contest_http::serve_one;
use contest_store::ContestStore;
use contest_streams::Counted;
use std::alloc::Global;

/// Serves so many clients, one after the other, by one request each. One whose connection fails
/// counts as served, and stops nothing.
///
/// # Errors
///
/// `Net` where no client can connect any more, and `Clock` where there is no moment for a request.
/// What was answered until then stands.
pub fn serve<S: ContestStore, N: Network>(
    alloc: Global,
    desk: &mut Desk<S>,
    network: &N,
    listener: &mut N::Listener,
    requests: u64,
) -> Result<(), CommandError>
    ensures clients { IfOk result (λ _. ServesClients N.Listener.gives N.Listener.parts (N.shows network.now) N.Listener.Reader.remaining N.Listener.Writer.contents S.kept requests listener.old listener.new desk.old desk.new) }
    ensures fewer { IfErr result (λ stop. ServesFewer N.Listener.gives N.Listener.parts (N.shows network.now) N.Listener.Reader.remaining N.Listener.Writer.contents S.kept N.Listener.breaks requests listener.old listener.new stop desk.old desk.new) }
    ensures served { (S.kept desk.new).is_clean → ServesSome requests (S.kept desk.old) (S.kept desk.new) }
    ensures clean { (S.kept desk.new).is_clean → (S.kept desk.old).is_clean }
    ensures up { (S.kept desk.new).is_clean → IsTrue (S.kept desk.new).is_open → IsTrue (S.kept desk.old).is_open }
    ensures err { IfErr result StopsServing }
{
    for _ in 0..requests {
        serve_next(alloc, desk, network, listener)?;
    }
    Ok(())
}

// Serves the next client.
fn serve_next<S: ContestStore, N: Network>(
    alloc: Global,
    desk: &mut Desk<S>,
    network: &N,
    listener: &mut N::Listener,
) -> Result<(), CommandError>
    ensures next { IfOk result (λ _. ServesNext N.Listener.gives N.Listener.parts (N.shows network.now) N.Listener.Reader.remaining N.Listener.Writer.contents S.kept listener.old listener.new desk.old desk.new) }
    ensures unserved { IfErr result (λ _. desk.new ≡ desk.old) }
    ensures stops { IfErr result (λ stop. Stops N.Listener.gives N.Listener.parts (N.shows network.now) N.Listener.Reader.remaining N.Listener.Writer.contents S.kept N.Listener.breaks listener.old listener.new stop) }
    ensures handled { HandlesAny S.kept desk.old desk.new }
    ensures clean { (S.kept desk.new).is_clean → (S.kept desk.old).is_clean }
    ensures up { (S.kept desk.new).is_clean → IsTrue (S.kept desk.new).is_open → IsTrue (S.kept desk.old).is_open }
    ensures err { IfErr result StopsServing }
{
    let Some(connected) = listener.accept()? else {
        return Ok(());
    };
    let now = network.now(listener)?;
    let Connected { reader, writer } = connected;
    let mut reader = Counted::new(reader);
    let mut writer = Counted::new(writer);
    let _ = serve_one(alloc, &mut reader, &mut writer, desk, now);
    listener.part(reader, writer);
    Ok(())
}
