//! A file of whichever kind is read.
ghost use Rattle.std.specs.Prelude.{◌≡◌, Ok, IfOk, IfErr};
ghost use Rattle.contest_files.specs.Refused.{Refuses};
ghost use Rattle.contest_import.specs.Files.{rows_in};

use crate::{read_accounts_csv, read_settings_json, read_teams_csv};
use contest_types::{Entry, Fixed, FixedKind, Refusal, Rows};
use std::alloc::Global;

/// The rows that a file adds to what stands, in its order; an equal row that stands adds nothing.
///
/// # Errors
///
/// `Malformed` where the file as a whole is off its form; else its first record at fault, with its
/// number, from 1, and the cause (`ImportRow`); or want of memory.
pub fn read_import(
    alloc: Global,
    kind: FixedKind,
    bytes: &[u8],
    fixed: &Fixed,
) -> Result<Rows<Entry>, Refusal>
    ensures ok { IfOk result (λ rows. rows_in kind fixed.now bytes.now ≡ Ok rows) }
    ensures err { IfErr result (λ e. Refuses e (rows_in kind fixed.now bytes.now)) }
{
    match kind {
        FixedKind::Settings(settings) => read_settings_json(alloc, settings, bytes, fixed),
        FixedKind::TeamsCsv => read_teams_csv(alloc, bytes, fixed),
        FixedKind::AccountsCsv => read_accounts_csv(alloc, bytes, fixed),
    }
}
