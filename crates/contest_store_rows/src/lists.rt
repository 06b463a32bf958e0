//! A list of a contest from the rows of its table.
ghost use Rattle.std.specs.Prelude.{◌≡◌, ◌<◌, ◌^◌, IfOk, length};
ghost use Rattle.contest_store_rows.specs.Lists.{list_in};

use contest_types::{Rows, Settings};
use sqlite::Row;
use std::alloc::{AllocError, Global};

/// What stands in a list whose rows are counted from 1.
pub trait Listed {
    ghost use Rattle.std.specs.Prelude.{ℕ, Option};
    ghost use Rattle.sqlite_value.specs.Order.{Row as Cells};
    ghost use Rattle.contest_types.specs.Setup.{Setup};

    ghost row_in: { Setup → ℕ → Cells → Option Self };

    /// What the loaded row with a number is; none where it is no row of such a thing.
    ///
    /// # Errors
    ///
    /// Want of memory alone.
    fn read(
        alloc: Global,
        settings: &Settings,
        number: u64,
        row: &Row,
    ) -> Result<Option<Self>, AllocError>
        requires { number < 2 ^ 63 }
        ensures { IfOk result (λ found. found ≡ row_in settings.now number row.now) };
}

/// The list that the rows of its table are, in their order; none as soon as a row is none.
///
/// # Errors
///
/// Want of memory alone.
pub fn read_list<T: Listed + Drop>(
    alloc: Global,
    settings: &Settings,
    rows: &[Row],
) -> Result<Option<Rows<T>>, AllocError>
    ensures { IfOk result (λ found. found ≡ list_in (T.row_in settings.now) rows.now) }
{
    let mut list = Rows::new(alloc);
    for at in 0..rows.len() {
        let Some(found) = T::read(alloc, settings, at as u64 + 1, &rows[at])? else {
            return Ok(None);
        };
        list.push(found)?;
    }
    Ok(Some(list))
}
