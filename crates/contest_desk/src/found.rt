//! How what is asked for, and may not be there, is told.
ghost use Rattle.std.specs.Prelude.{◌≡◌};
ghost use Rattle.contest_desk.specs.Boards.{found_told};

use contest_store::StoreError;
use contest_types::Refusal;

/// What was found, or why nothing was: `NotFound` where it isn't there.
pub(crate) fn found_told<T: Drop>(found: Result<Option<T>, StoreError>) -> Result<T, Refusal>
    ensures { result ≡ found_told found }
{
    match found {
        Ok(found) => found.ok_or(Refusal::NotFound),
        Err(error) => Err(error.refusal()),
    }
}
