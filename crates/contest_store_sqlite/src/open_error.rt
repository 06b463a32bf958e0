//! Why no contest is opened.
ghost use Rattle.std.specs.Prelude.{◌≡◌};
ghost use Rattle.contest_store_sqlite.specs.Creation.{IsOfOpen, open_refusal};

use contest_store::StoreError;
use contest_types::Refusal;

/// Why the tables of a connection aren't opened.
#[derive(Clone, Copy, Debug, PartialEq, Eq)]
pub enum OpenError {
    /// The store failed. `Fault` where the tables aren't exactly those of a desk, show no valid
    /// contest, or have cells that aren't exactly those of its lists, where a transaction stands,
    /// or where the connection failed; `Memory` where a growth was refused.
    Store(StoreError),
    /// The tables are those of the first schema: they have to be upgraded.
    OldSchema,
}

impl OpenError {
    /// The refusal that it is answered with.
    pub fn refusal(self) -> Refusal
        ensures value { result ≡ open_refusal self }
        ensures kinds { IsOfOpen result }
    {
        match self {
            OpenError::Store(error) => error.refusal(),
            OpenError::OldSchema => Refusal::OldSchema,
        }
    }
}
