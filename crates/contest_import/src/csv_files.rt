//! Teams and accounts as CSV files.
ghost use Rattle.std.specs.Prelude.{◌≡◌, ◌≤◌, ◌+◌, ◌∷◌, ◌^◌, ℕ, List, true, false, None, Some, Ok};
ghost use Rattle.std.specs.Prelude.{IfOk, IfErr, OnOk, length};
ghost use Rattle.csv.specs.Records.{fields_of};
ghost use Rattle.contest_types.specs.Additions.{IsFaultOf};
ghost use Rattle.contest_files.specs.Refused.{Refuses};
ghost use Rattle.contest_import.specs.CsvFiles.{account_names, team_names};
ghost use Rattle.contest_import.specs.Files.{account_rows, or_off_form, records_under, team_rows};
ghost use Rattle.contest_import.specs.RowAdditions.{after_record, after_records, none_yet, rows_of};
ghost use Rattle.contest_import.specs.RowAdditions.{rows_or_refusal};
ghost use Rattle.contest_import.specs.declared.csv_files.CsvKind.{CsvKind};
ghost use Rattle.contest_import.specs.CsvKinds.{kind_rows, names_of, record_row};

use crate::account_record::account_record;
use crate::additions::RowAdditions;
use crate::csv_record::{CsvRecord, is_header};
use crate::team_record::team_record;
use contest_files::CsvRecords;
use contest_types::{Entry, Fixed, Refusal, RowFault, Rows};
use csv::ByteRecord;
use std::alloc::Global;

/// What the records of a CSV file are.
#[derive(Clone, Copy)]
pub(crate) enum CsvKind {
    /// Teams.
    Teams,
    /// Accounts.
    Accounts,
}

/// The teams that a CSV file adds to what stands, in its order: `id,name,group_ids,hidden`.
///
/// # Errors
///
/// `Malformed` where the header is missing; else the first record at fault, with its number, from
/// 1, and the cause (`ImportRow`); or want of memory.
pub fn read_teams_csv(alloc: Global, bytes: &[u8], fixed: &Fixed) -> Result<Rows<Entry>, Refusal>
    ensures ok { IfOk result (λ rows. team_rows fixed.now bytes.now ≡ Ok rows) }
    ensures err { IfErr result (λ e. Refuses e (team_rows fixed.now bytes.now)) }
{
    read_csv(alloc, CsvKind::Teams, bytes, fixed)
}

/// The accounts that a CSV file adds to what stands, in its order: `id,role,team_id,token`. Of a
/// token its digest alone is kept.
///
/// # Errors
///
/// As `read_teams_csv` says.
pub fn read_accounts_csv(alloc: Global, bytes: &[u8], fixed: &Fixed) -> Result<Rows<Entry>, Refusal>
    ensures ok { IfOk result (λ rows. account_rows fixed.now bytes.now ≡ Ok rows) }
    ensures err { IfErr result (λ e. Refuses e (account_rows fixed.now bytes.now)) }
{
    read_csv(alloc, CsvKind::Accounts, bytes, fixed)
}

// The rows of a file below its header.
fn read_csv(
    alloc: Global,
    kind: CsvKind,
    bytes: &[u8],
    fixed: &Fixed,
) -> Result<Rows<Entry>, Refusal>
    ensures ok { IfOk result (λ rows. kind_rows kind fixed.now bytes.now ≡ Ok rows) }
    ensures err { IfErr result (λ e. Refuses e (kind_rows kind fixed.now bytes.now)) }
{
    let mut records = CsvRecords::new(alloc, bytes);
    let mut row = ByteRecord::new(alloc);
    read_rows(alloc, kind, &mut records, &mut row, fixed)
}

// Whether the first record is the header, which is taken.
fn has_header(
    kind: CsvKind,
    records: &mut CsvRecords<'_>,
    row: &mut ByteRecord,
) -> Result<bool, Refusal>
    requires { length records.old ≤ 2 ^ 63 }
    ensures yes { result ≡ Ok true → records_under (names_of kind) records.old ≡ Some records.new }
    ensures no { result ≡ Ok false → records_under (names_of kind) records.old ≡ None }
    ensures few { result ≡ Ok true → length records.new ≤ 2 ^ 63 }
    ensures err { IfErr result (λ e. e ≡ Refusal.Memory) }
{
    Ok(records.next(row)? && is_header(&names_of(kind), row))
}

// What the header of a file names.
fn names_of(kind: CsvKind) -> CsvRecord<'static>
    ensures { result ≡ names_of kind }
{
    match kind {
        CsvKind::Teams => CsvRecord {
            first: b"id",
            second: b"name",
            third: b"group_ids",
            fourth: b"hidden",
        },
        CsvKind::Accounts => CsvRecord {
            first: b"id",
            second: b"role",
            third: b"team_id",
            fourth: b"token",
        },
    }
}

// The rows of the records below the header.
fn read_rows(
    alloc: Global,
    kind: CsvKind,
    records: &mut CsvRecords<'_>,
    row: &mut ByteRecord,
    fixed: &Fixed,
) -> Result<Rows<Entry>, Refusal>
    requires { length records.old ≤ 2 ^ 63 }
    ensures ok { IfOk result (λ rows. or_off_form (rows_of (record_row kind) fixed.now) (records_under (names_of kind) records.old) ≡ Ok rows) }
    ensures err { IfErr result (λ e. Refuses e (or_off_form (rows_of (record_row kind) fixed.now) (records_under (names_of kind) records.old))) }
{
    if !has_header(kind, records, row)? {
        return Err(Refusal::Malformed);
    }
    rows_of(alloc, kind, records, row, fixed)
}

// The rows of the records to come.
fn rows_of(
    alloc: Global,
    kind: CsvKind,
    records: &mut CsvRecords<'_>,
    row: &mut ByteRecord,
    fixed: &Fixed,
) -> Result<Rows<Entry>, Refusal>
    requires { length records.old ≤ 2 ^ 63 }
    ensures ok { IfOk result (λ rows. rows_of (record_row kind) fixed.now records.old ≡ Ok rows) }
    ensures err { IfErr result (λ e. Refuses e (rows_of (record_row kind) fixed.now records.old)) }
{
    let mut additions = RowAdditions::new(alloc, fixed)?;
    let taken = take_all(alloc, kind, &mut additions, records, row);
    additions.rows_if(taken)
}

// Takes the records to come, which are numbered from 1. The first at fault ends the reading.
fn take_all(
    alloc: Global,
    kind: CsvKind,
    additions: &mut RowAdditions,
    records: &mut CsvRecords<'_>,
    row: &mut ByteRecord,
) -> Result<(), Refusal>
    requires { length records.old ≤ 2 ^ 63 }
    ensures ok { OnOk result (after_records (record_row kind) additions.old 1 records.old ≡ Ok additions.new) }
    ensures err { IfErr result (λ e. Refuses e (rows_or_refusal (after_records (record_row kind) additions.old 1 records.old))) }
{
    for n in 1..u64::MAX {
        if !records.next(row)? {
            break;
        }
        take(alloc, kind, n, additions, row)?;
    }
    Ok(())
}

// Record n.
fn take(
    alloc: Global,
    kind: CsvKind,
    n: u64,
    additions: &mut RowAdditions,
    row: &ByteRecord,
) -> Result<(), Refusal>
    ensures ok { OnOk result ((rest : List (List (List ℕ)))
        → after_records (record_row kind) additions.old n (fields_of row.now ∷ rest) ≡ after_records (record_row kind) additions.new (n + 1) rest) }
    ensures err { IfErr result (λ e. (rest : List (List (List ℕ)))
        → Refuses e (rows_or_refusal (after_records (record_row kind) additions.old n (fields_of row.now ∷ rest)))) }
{
    match add(alloc, kind, additions, row) {
        Ok(()) => Ok(()),
        Err(RowFault::Fault(cause)) => Err(Refusal::ImportRow(n, cause)),
        Err(RowFault::Memory) => Err(Refusal::Memory),
    }
}

// The row of one more record.
fn add(
    alloc: Global,
    kind: CsvKind,
    additions: &mut RowAdditions,
    row: &ByteRecord,
) -> Result<(), RowFault>
    ensures ok { OnOk result (after_record additions.old (record_row kind additions.old.fixed (fields_of row.now)) ≡ Ok additions.new) }
    ensures err { IfErr result (λ e. IsFaultOf e (after_record additions.old (record_row kind additions.old.fixed (fields_of row.now)))) }
{
    let entry = record_row(alloc, kind, additions.fixed(), row)?;
    additions.take(alloc, entry)
}

// The row that a record says.
fn record_row(
    alloc: Global,
    kind: CsvKind,
    fixed: &Fixed,
    row: &ByteRecord,
) -> Result<Entry, RowFault>
    ensures ok { IfOk result (λ entry. record_row kind fixed.now (fields_of row.now) ≡ Ok entry) }
    ensures err { IfErr result (λ e. IsFaultOf e (record_row kind fixed.now (fields_of row.now))) }
{
    match kind {
        CsvKind::Teams => team_record(alloc, fixed, row),
        CsvKind::Accounts => account_record(alloc, fixed, row),
    }
}
