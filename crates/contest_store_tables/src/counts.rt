//! How many calls failed.
ghost use Rattle.std.specs.Prelude.{◌≡◌};
ghost use Rattle.contest_store_tables.specs.Counts.{cause_of, counted};
ghost use Rattle.contest_streams.specs.Streams.{one_more};

use contest_store::StoreError;
use sqlite::{Error, ErrorCode};

/// How many calls failed. A count stays at its greatest number.
#[derive(Clone, Copy, Debug, PartialEq, Eq)]
pub struct Counts {
    /// For another cause than memory.
    pub faults: u64,
    /// For want of memory.
    pub refusals: u64,
}

impl Counts {
    /// One more that failed.
    pub(crate) fn count(&mut self, error: StoreError)
        ensures { self.new ≡ counted error self.old }
    {
        match error {
            StoreError::Fault => self.faults = one_more(self.faults),
            StoreError::Memory => self.refusals = one_more(self.refusals),
        }
    }
}

/// A count with one more, which stays at its greatest number.
pub fn one_more(count: u64) -> u64
    ensures { result ≡ one_more count }
{
    if count < u64::MAX { count + 1 } else { count }
}

/// What an error of the connection comes to.
pub(crate) fn cause_of(error: &Error) -> StoreError
    ensures { result ≡ cause_of error.now }
{
    match error {
        Error::SqliteFailure(ErrorCode::OutOfMemory) => StoreError::Memory,
        _ => StoreError::Fault,
    }
}
