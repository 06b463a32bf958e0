//! How much longer a client is waited for.
ghost use Rattle.std.specs.Prelude.{◌≡◌, ◌≢◌, ◌<◌, ◌≤◌, ◌+◌, ◌-◌, ◌*◌, IfErr, IfOk, IsTrue, IsOk};
ghost use Rattle.std.specs.Prelude.{◌↔◌};
ghost use Rattle.std.specs.Duration.{as_nanos};
ghost use Rattle.std.specs.IoError.{error_kind};

use std::io::{self, ErrorKind};
use std::time::Duration;

/// By how much a wait may take longer, in nanoseconds, so that a timeout isn't set anew for each
/// byte.
const SLACK: u128 = 100_000_000;

/// The time that a client is still waited for, and the timeout that its stream has; zero is none.
#[derive(Clone, Copy)]
pub(crate) struct Patience {
    left: Duration,
    timeout: Duration,
}

impl Patience {
    /// So many seconds, on a stream that has no timeout.
    pub(crate) fn new(seconds: u64) -> Patience
        ensures { as_nanos result.left ≡ seconds * 1_000_000_000 }
    {
        Patience {
            left: Duration::from_secs(seconds),
            timeout: Duration::ZERO,
        }
    }

    /// Begins anew, with so many seconds.
    pub(crate) fn renew(&mut self, seconds: u64)
        ensures { as_nanos self.new.left ≡ seconds * 1_000_000_000 }
    {
        self.left = Duration::from_secs(seconds);
    }

    /// Some of it went by.
    pub(crate) fn spend(&mut self, waited: Duration)
        ensures { as_nanos self.new.left ≡ as_nanos self.old.left - as_nanos waited }
    {
        self.left = self.left.saturating_sub(waited);
    }

    /// The timeout for the next wait, which is what is left or a little more. The error is
    /// `TimedOut`: nothing is left.
    pub(crate) fn timeout(&self) -> io::Result<Duration>
        ensures some { IsOk result ↔ (as_nanos self.now.left ≢ 0) }
        ensures least { IfOk result (λ timeout. as_nanos self.now.left ≤ as_nanos timeout) }
        ensures most { IfOk result (λ timeout. as_nanos timeout ≤ as_nanos self.now.left + 100_000_000) }
        ensures err { IfErr result (λ error. error_kind error ≡ ErrorKind.TimedOut) }
    {
        if self.left.is_zero() {
            return Err(io::Error::from(ErrorKind::TimedOut));
        }
        if fits(self.timeout, self.left) {
            Ok(self.timeout)
        } else {
            Ok(self.left)
        }
    }

    /// Whether the stream has another timeout.
    pub(crate) fn is_new(&self, timeout: Duration) -> bool
        ensures { IsTrue result ↔ (self.now.timeout ≢ timeout) }
    {
        self.timeout != timeout
    }

    /// The stream has this timeout now.
    pub(crate) fn has_set(&mut self, timeout: Duration)
        ensures left { self.new.left ≡ self.old.left }
        ensures timeout { self.new.timeout ≡ timeout }
    {
        self.timeout = timeout;
    }
}

// Whether a wait with this timeout ends when so much has gone by, or a little later.
fn fits(timeout: Duration, left: Duration) -> bool
    ensures { IsTrue result ↔ ((as_nanos left ≤ as_nanos timeout) × (as_nanos timeout < as_nanos left + 100_000_000)) }
{
    left.as_nanos() <= timeout.as_nanos() && timeout.saturating_sub(left).as_nanos() < SLACK
}
