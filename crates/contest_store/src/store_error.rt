//! Why a call of a store fails.
ghost use Rattle.std.specs.Prelude.{◌≡◌};
ghost use Rattle.contest_store.specs.StoreErrors.{refusal_of};

use contest_types::Refusal;
use std::alloc::AllocError;

/// Why a call of a store fails. `ContestStore` says what is left then.
#[derive(Clone, Copy, Debug, PartialEq, Eq)]
pub enum StoreError {
    /// What lies under the store failed, or what it holds isn't what was written.
    Fault,
    /// A growth of memory was refused.
    Memory,
}

impl StoreError {
    /// The refusal that it is answered with: `StoreFault` or `Memory`.
    pub fn refusal(self) -> Refusal
        ensures { result ≡ refusal_of self }
    {
        match self {
            StoreError::Fault => Refusal::StoreFault,
            StoreError::Memory => Refusal::Memory,
        }
    }
}

impl From<AllocError> for StoreError {
    ghost use Rattle.std.specs.Prelude.{◌≡◌};
    ghost use Rattle.contest_store.specs.declared.store_error.StoreError.TheVariants.{Memory};

    ghost from_gives = { λ _ e. e ≡ Memory };

    fn from(_error: AllocError) -> StoreError {
        StoreError::Memory
    }
}
