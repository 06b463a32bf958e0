//! What is outside of the file that keeps a contest, on the program's machine: its clock, its other
//! files, and its loopback address alone.
ghost use Rattle.std.specs.Prelude.{◌≡◌, ◌⊎◌, ◌↔◌, IfErr, IfOk, IsTrue};
ghost use Rattle.contest_cli_machine.specs.Ports.{IsPort};
ghost use Rattle.contest_streams.specs.Streams.{one_more};

use crate::client_stream::{ClientReader, ClientWriter, directions, part_from};
use crate::host::{moment_now, open_file};
use crate::machine::Outside;
use crate::network::{Connected, Listen, Network};
use contest_cli_words::CommandError;
use contest_streams::Counted;
use contest_types::Moment;
use std::fs::File;
use std::io::{self, ErrorKind};
use std::net::{Ipv4Addr, TcpListener};

/// The clock, the files that are read, and the loopback address.
#[derive(Drop)]
pub struct HostNetwork<'a> {
    pub(crate) rt: &'a HostRuntime,
}

impl Outside for HostNetwork<'_> {
    type File = File;

    ghost reads = { λ path answer. Unit {0} };

    fn read(&self, path: &str) -> Result<Counted<File>, CommandError> {
        open_file(self.rt, path)
    }
}

impl<'a> Network for HostNetwork<'a> {
    type Listener = HostListener<'a>;

    ghost shows = { λ network listener answer. Unit {0} };

    fn now(&self, _: &HostListener<'a>) -> Result<Moment, CommandError> {
        moment_now(self.rt)
    }

    fn listen(&self, port: u16) -> Result<HostListener<'a>, CommandError> {
        listen_on(self.rt, port)
    }
}

/// A port of the loopback address, and how many clients were waited for. The count stays at
/// `u64::MAX` once it is there.
#[derive(Drop)]
pub struct HostListener<'a> {
    rt: &'a HostRuntime,
    listener: TcpListener,
    port: u16,
    clients: u64,
}

impl<'a> Listen for HostListener<'a> {
    type Reader = ClientReader<'a>;

    type Writer = ClientWriter<'a>;

    ghost port_of = { λ listener. listener.port };

    ghost gives = { λ old client new. new.clients ≡ one_more old.clients };

    ghost breaks = { λ old new. Unit {0} };

    ghost parts = { λ listener reader writer. Unit {0} };

    fn port(&self) -> u16 {
        self.port
    }

    fn accept(
        &mut self,
    ) -> Result<Option<Connected<ClientReader<'a>, ClientWriter<'a>>>, CommandError> {
        self.clients = self.clients.saturating_add(1);
        accept_from(self.rt, &self.listener)
    }

    fn part(&self, reader: Counted<ClientReader<'a>>, writer: Counted<ClientWriter<'a>>)
        ensures { Unit {0} }
    {
        part_from(reader.into_inner(), writer.into_inner());
    }
}

fn listen_on(rt: &HostRuntime, port: u16) -> Result<HostListener<'_>, CommandError>
    ensures ok { IfOk result (λ listener. IsPort port listener.port) }
    ensures err { IfErr result (λ stop. stop ≡ CommandError.Net) }
{
    match bound_to(rt, port) {
        Ok(listener) => Ok(listener),
        Err(_) => Err(CommandError::Net),
    }
}

fn bound_to(rt: &HostRuntime, port: u16) -> io::Result<HostListener<'_>>
    ensures { IfOk result (λ listener. IsPort port listener.port) }
{
    let listener = TcpListener::bind(rt, (Ipv4Addr::LOCALHOST, port))?;
    let port = if port == 0 {
        listener.local_addr()?.port()
    } else {
        port
    };
    Ok(HostListener {
        rt,
        listener,
        port,
        clients: 0,
    })
}

fn accept_from<'a>(
    rt: &'a HostRuntime,
    listener: &TcpListener,
) -> Result<Option<Connected<ClientReader<'a>, ClientWriter<'a>>>, CommandError>
    ensures { IfErr result (λ stop. stop ≡ CommandError.Net) }
{
    match listener.accept() {
        Ok((stream, _)) => match directions(rt, stream) {
            Ok((reader, writer)) => Ok(Some(Connected { reader, writer })),
            Err(_) => Ok(None),
        },
        Err(error) => {
            if is_of_client(error.kind()) {
                Ok(None)
            } else {
                Err(CommandError::Net)
            }
        }
    }
}

// A client that went before it was had, or a signal: the listener itself is well.
fn is_of_client(kind: ErrorKind) -> bool
    ensures { IsTrue result ↔ ((kind ≡ ErrorKind.ConnectionAborted) ⊎ (kind ≡ ErrorKind.Interrupted)) }
{
    kind == ErrorKind::ConnectionAborted || kind == ErrorKind::Interrupted
}
