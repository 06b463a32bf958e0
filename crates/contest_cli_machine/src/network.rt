//! What a desk that serves asks of the machine: who connects, one after the other, and the time.
ghost use Rattle.std.specs.Prelude.{◌≡◌, ℕ, Option, Some, None, Result, IfErr, IfOk, IfSome};
ghost use Rattle.contest_streams.specs.Streams.{Counting};
ghost use Rattle.contest_cli_machine.specs.Ports.{IsPort};
ghost use Rattle.contest_cli_words.specs.declared.command_error.CommandError.{CommandError as TheError};

use contest_cli_words::CommandError;
use contest_streams::Counted;
use contest_types::Moment;
use std::io::{Read, Write};

/// The clock, and the place where clients connect.
pub trait Network: Drop {
    /// What listens for clients.
    type Listener: Listen + Drop;

    /// This is what the clock shows while something listens that has come so far: a moment, or
    /// none.
    ghost shows: { Self → Self.Listener → Result ℕ TheError → Type 0 };

    /// The moment that the clock shows. The error is `Clock`.
    fn now(&self, listener: &Self::Listener) -> Result<Moment, CommandError>
        ensures shown { shows self.now listener.now result }
        ensures err { IfErr result (λ stop. stop ≡ CommandError.Clock) };

    /// Listens on a port of this machine alone, on one that the system chooses where it is 0. The
    /// error is `Net`.
    fn listen(&self, port: u16) -> Result<Self::Listener, CommandError>
        ensures ok { IfOk result (λ listener. IsPort port (Self.Listener.port_of listener)) }
        ensures err { IfErr result (λ stop. stop ≡ CommandError.Net) };
}

/// What listens for clients.
pub trait Listen {
    /// The bytes that come from a client.
    type Reader: Read + Drop;
    /// The bytes that go to it.
    type Writer: Write + Drop;

    /// The port that it listens on.
    ghost port_of: { Self → ℕ };

    /// The next client comes by this reader and this writer, or by none where its connection fails;
    /// and what listens from then on.
    ghost gives: { Self → Option (Self.Reader × Self.Writer) → Self → Type 0 };

    /// No client can connect any more.
    ghost breaks: { Self → Self → Type 0 };

    /// It has parted from the client of this reader and this writer, whose failed calls were
    /// counted.
    ghost parts: { Self → Counting Self.Reader → Counting Self.Writer → Type 0 };

    /// The port that it listens on.
    fn port(&self) -> u16
        ensures { result ≡ port_of self.now };

    /// Waits for the next client; none where its connection failed before it could be had. The
    /// error is `Net`: no client can connect any more.
    fn accept(&mut self) -> Result<Option<Connected<Self::Reader, Self::Writer>>, CommandError>
        ensures none { IfOk result (λ client. client ≡ None → gives self.old None self.new) }
        ensures some { IfOk result (λ client. IfSome client (λ c. gives self.old (Some (c.reader, c.writer)) self.new)) }
        ensures err { IfErr result (λ stop. (stop ≡ CommandError.Net) × breaks self.old self.new) };

    /// Parts from a client that was answered: it is told that no more comes, and what is still on
    /// its way is let go, so that it doesn't lose the reply.
    fn part(&self, reader: Counted<Self::Reader>, writer: Counted<Self::Writer>)
        ensures { parts self.now reader writer };
}

/// A client that is connected.
#[derive(Drop)]
pub struct Connected<R: Read + Drop, W: Write + Drop> {
    /// The bytes that come from it.
    pub reader: R,
    /// The bytes that go to it.
    pub writer: W,
}
