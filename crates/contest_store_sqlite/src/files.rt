//! The file of one submission, read from its row.
ghost use Rattle.std.specs.Prelude.{◌≡◌, IfOk, slice_get};
ghost use Rattle.std.specs.Option.{option_map};
ghost use Rattle.sqlite.specs.Order.{column};
ghost use Rattle.sqlite.specs.State.{HasCleanDisk};
ghost use Rattle.contest_types.specs.Loads.{file_of};
ghost use Rattle.contest_types.specs.State.{ContestState};
ghost use Rattle.contest_store_tables.specs.Connected.{shown_by, counts_of};
ghost use Rattle.contest_store_tables.specs.Steps.{Call, Step, Content, Full, Holds, MakesNone};
ghost use Rattle.contest_store_tables.specs.Steps.{Showing, Within};
ghost use Rattle.contest_store_changes.specs.ContestTables.{bytes_of, table_rows};
ghost use Rattle.contest_store_changes.specs.Sound.{IsSound};
ghost use Rattle.contest_store_sqlite.specs.Steps.{HoldsDesk};

use contest_store::StoreError;
use contest_store_rows::cell;
use contest_store_tables::Tables;
use contest_types::Rows;
use sqlite::types::ValueRef;
use sqlite::{Alter, Row};
use std::alloc::{AllocError, Global};

/// The file of the submission with a number, from 1, of the team at a place, from 0, in a
/// transaction, which is begun where there is none; none where there is no such submission.
///
/// # Errors
///
/// `Memory` where a growth was refused, and `Fault` where the connection failed for another cause.
pub(crate) fn load_file<S: Alter>(
    tables: &mut Tables<S>,
    alloc: Global,
    team: usize,
    number: usize,
) -> Result<Option<Rows<u8>>, StoreError>
    ensures value { HasCleanDisk (shown_by S.Store tables.new) → (x : ContestState) (kept : Content) → IsSound x → Holds (shown_by S.Store tables.old) (Showing (table_rows x)) kept → IfOk result (λ found. found ≡ file_of x team number) }
    ensures call { Call result (shown_by S.Store tables.old) (shown_by S.Store tables.new) (counts_of tables.old) (counts_of tables.new) HoldsDesk Full (MakesNone (shown_by S.Store tables.old) HoldsDesk) }
{
    match tables.begin() {
        Ok(()) => file_within(tables, alloc, team, number),
        Err(error) => Err(error),
    }
}

fn file_within<S: Alter>(
    tables: &mut Tables<S>,
    alloc: Global,
    team: usize,
    number: usize,
) -> Result<Option<Rows<u8>>, StoreError>
    ensures value { HasCleanDisk (shown_by S.Store tables.new) → (x : ContestState) (kept : Content) → IsSound x → Within (shown_by S.Store tables.old) (Showing (table_rows x)) kept → IfOk result (λ found. found ≡ file_of x team number) }
    ensures step { Step result (shown_by S.Store tables.old) (shown_by S.Store tables.new) (counts_of tables.old) (counts_of tables.new) Full Full (MakesNone (shown_by S.Store tables.old) Full) }
{
    // no submission of a contest has a number that is too large for a cell
    if team >= i64::MAX as usize || number > i64::MAX as usize {
        return Ok(None);
    }
    let place = [ValueRef::Int(team as i64 + 1), ValueRef::Int(number as i64)];
    match tables.files(&place) {
        Ok(rows) => match first_file(alloc, &rows) {
            Ok(file) => Ok(file),
            Err(AllocError) => Err(tables.out_of_memory()),
        },
        Err(error) => Err(error),
    }
}

// The bytes in the first row, if there is one.
fn first_file(alloc: Global, rows: &[Row]) -> Result<Option<Rows<u8>>, AllocError>
    ensures { IfOk result (λ found. found ≡ option_map (λ r. bytes_of (column r 0)) (slice_get rows.now 0)) }
{
    match rows.first() {
        Some(row) => Ok(Some(bytes_in(alloc, row)?)),
        None => Ok(None),
    }
}

fn bytes_in(alloc: Global, row: &Row) -> Result<Rows<u8>, AllocError>
    ensures { IfOk result (λ bytes. bytes ≡ bytes_of (column row.now 0)) }
{
    match cell(row, 0) {
        ValueRef::Blob(bytes) => copied_bytes(alloc, bytes),
        _ => Ok(Rows::new(alloc)),
    }
}

fn copied_bytes(alloc: Global, bytes: &[u8]) -> Result<Rows<u8>, AllocError>
    ensures { IfOk result (λ rows. rows ≡ bytes.now) }
{
    Ok(Rows::from_vec(Vec::from_slice(alloc, bytes)?))
}
