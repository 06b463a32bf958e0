//! What a file adds to a contest at a moment, before any of it is kept.
ghost use Rattle.std.specs.Prelude.{◌≡◌, ◌≢◌, true, IfErr, IfOk, Ok, length, nat_lt};
ghost use Rattle.contest_types.specs.State.{ContestState};
ghost use Rattle.contest_types.specs.Valid.{is_valid};
ghost use Rattle.contest_lists.specs.Lists.{loaded};
ghost use Rattle.contest_files.specs.Refused.{Refuses};
ghost use Rattle.contest_desk.specs.Imports.{are_closed, count_of, file_rows, imported};
ghost use Rattle.contest_desk.specs.Imports.{is_of_settings, unless_closed};
ghost use Rattle.contest_desk.specs.Items.{HasStoreError};

use contest_import::read_import;
use contest_import_verdicts::read_verdicts_csv;
use contest_lists::Lists;
use contest_types::limits::IMPORTED_FILE;
use contest_types::{Entry, FixedKind, ImportKind, Moment, Refusal, Rows, has_come};
use std::alloc::{AllocError, Global};

/// What a file adds at a moment, or why it is refused: its size first, then its form, then its
/// first record at fault, then settings that are closed.
///
/// # Errors
///
/// Want of memory alone.
pub fn imported(
    alloc: Global,
    lists: &Lists,
    now: Moment,
    kind: ImportKind,
    file: &[u8],
) -> Result<Result<Rows<Entry>, Refusal>, AllocError>
    ensures rows { IfOk result (λ rows. (x : ContestState) → is_valid x ≡ true → lists.now ≡ loaded x → rows ≡ imported x now kind file.now) }
    ensures ordinary { IfOk result (λ rows. HasStoreError (count_of rows) → ⊥) }
{
    if is_too_large(file) {
        return Ok(Err(Refusal::BodyTooLarge));
    }
    match file_rows(alloc, lists, now, kind, file) {
        Ok(rows) => Ok(unless_closed(is_of_settings(kind) && are_closed(lists, now), rows)),
        Err(Refusal::Memory) => Err(AllocError),
        Err(refusal) => Ok(Err(refusal)),
    }
}

// What a file adds to what stands. The error is the file's fault, or want of memory.
fn file_rows(
    alloc: Global,
    lists: &Lists,
    now: Moment,
    kind: ImportKind,
    file: &[u8],
) -> Result<Rows<Entry>, Refusal>
    ensures ok { IfOk result (λ rows. (x : ContestState) → is_valid x ≡ true → lists.now ≡ loaded x → file_rows x now kind file.now ≡ Ok rows) }
    ensures err { IfErr result (λ e. (x : ContestState) → is_valid x ≡ true → lists.now ≡ loaded x → Refuses e (file_rows x now kind file.now)) }
    ensures ordinary { IfErr result (λ e. e ≢ Refusal.StoreFault) }
{
    match kind {
        ImportKind::Fixed(kind) => read_import(alloc, kind, file, lists.fixed()),
        ImportKind::VerdictsCsv => read_verdicts_csv(alloc, file, lists, now),
    }
}

// Whether a file is over its limit.
fn is_too_large(file: &[u8]) -> bool
    ensures { result ≡ nat_lt IMPORTED_FILE (length file.now) }
{
    file.len() > IMPORTED_FILE
}

// Accounts and verdicts may be imported at any time, all else is settings.
fn is_of_settings(kind: ImportKind) -> bool
    ensures { result ≡ is_of_settings kind }
{
    match kind {
        ImportKind::Fixed(FixedKind::Settings(_) | FixedKind::TeamsCsv) => true,
        ImportKind::Fixed(FixedKind::AccountsCsv) | ImportKind::VerdictsCsv => false,
    }
}

// Whether no more settings are taken: the contest has started, or a submission stands.
fn are_closed(lists: &Lists, now: Moment) -> bool
    ensures { result ≡ are_closed lists.now now }
{
    has_come(lists.fixed().marks.start, now) || !lists.submissions().is_empty()
}

// What would add a row where none is taken is refused.
fn unless_closed(closed: bool, rows: Rows<Entry>) -> Result<Rows<Entry>, Refusal>
    ensures { result ≡ unless_closed closed (Ok rows) }
{
    if closed && !rows.as_slice().is_empty() {
        Err(Refusal::SettingsClosed)
    } else {
        Ok(rows)
    }
}
