//! The two directions of a connection. A client is waited for so long in all, however its bytes
//! come and go.
ghost use Rattle.std.specs.Prelude.{◌≡◌};

use crate::patience::Patience;
use std::io::{self, Read, Write};
use std::net::{Shutdown, TcpStream};
use std::time::{Duration, Instant};

/// How long the head of a request may be waited for, in seconds.
const HEAD: u64 = 10;

/// How long its body may.
const BODY: u64 = 10;

/// How long a client may take to take its reply.
const REPLY: u64 = 30;

/// How long a client that was answered may take to close its side.
const FAREWELL: u64 = 1;

/// How many pieces of what such a client still sends are taken, so that its reply isn't lost, and
/// the bytes of one.
const LEFTOVERS: u32 = 64;

const PIECE: usize = 65_536;

/// What a client sends. A head is read byte by byte, so a read that asks for more is one of the
/// body.
#[derive(Drop)]
pub struct ClientReader<'a> {
    rt: &'a HostRuntime,
    stream: TcpStream,
    patience: Patience,
    is_in_head: bool,
}

/// What a client is sent.
#[derive(Drop)]
pub struct ClientWriter<'a> {
    rt: &'a HostRuntime,
    stream: TcpStream,
    patience: Patience,
}

/// The two directions of a connection.
pub(crate) fn directions(
    rt: &HostRuntime,
    stream: TcpStream,
) -> io::Result<(ClientReader<'_>, ClientWriter<'_>)> {
    let other = stream.try_clone()?;
    let reader = ClientReader {
        rt,
        stream,
        patience: Patience::new(HEAD),
        is_in_head: true,
    };
    let writer = ClientWriter {
        rt,
        stream: other,
        patience: Patience::new(REPLY),
    };
    Ok((reader, writer))
}

impl Read for ClientReader<'_> {
    fn read(&mut self, buf: &mut [u8]) -> io::Result<usize> {
        if self.is_in_head && buf.len() > 1 {
            self.leave_head(BODY);
        }
        let timeout = self.patience.timeout()?;
        if self.patience.is_new(timeout) {
            self.stream.set_read_timeout(Some(timeout))?;
            self.patience.has_set(timeout);
        }
        let begun = Instant::now(self.rt)?;
        let result = self.stream.read(buf);
        self.patience.spend(begun.elapsed(self.rt)?);
        result
    }
}

impl ClientReader<'_> {
    // What comes from now on is waited for so long.
    fn leave_head(&mut self, seconds: u64) {
        self.is_in_head = false;
        self.patience.renew(seconds);
    }

    // A connection that is closed while bytes of the client are unread takes back what it was sent.
    fn take_leftovers(&mut self) {
        let mut piece = [0u8; PIECE];
        for _ in 0..LEFTOVERS {
            match self.read(&mut piece) {
                Ok(0) => return,
                Ok(_) => {}
                Err(_) => return,
            }
        }
    }
}

impl Write for ClientWriter<'_> {
    fn write(&mut self, buf: &[u8]) -> io::Result<usize> {
        let timeout = self.patience.timeout()?;
        if self.patience.is_new(timeout) {
            self.stream.set_write_timeout(Some(timeout))?;
            self.patience.has_set(timeout);
        }
        let begun = Instant::now(self.rt)?;
        let result = self.stream.write(buf);
        self.patience.spend(begun.elapsed(self.rt)?);
        result
    }

    fn flush(&mut self) -> io::Result<()> {
        self.stream.flush()
    }
}

/// Tells a client that no more comes, and takes what it still sends.
pub(crate) fn part_from(mut reader: ClientReader<'_>, writer: ClientWriter<'_>) {
    if writer.stream.shutdown(Shutdown::Write).is_ok() {
        reader.leave_head(FAREWELL);
        reader.take_leftovers();
    }
}
