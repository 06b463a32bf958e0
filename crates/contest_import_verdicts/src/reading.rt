//! A CSV file of verdicts.
ghost use Rattle.std.specs.Prelude.{◌≡◌, ◌≢◌, ◌≤◌, ◌+◌, ◌∷◌, ◌^◌, [], ℕ, List, true, false, None};
ghost use Rattle.std.specs.Prelude.{Some, Ok, IfOk, IfErr, OnOk, length};
ghost use Rattle.std.specs.List.{flat_map};
ghost use Rattle.csv.specs.Records.{fields_of};
ghost use Rattle.contest_types.specs.State.{ContestState};
ghost use Rattle.contest_types.specs.Valid.{is_valid};
ghost use Rattle.contest_files.specs.Refused.{Refuses};
ghost use Rattle.contest_lists.specs.Lists.{loaded};
ghost use Rattle.contest_rules.specs.Proposing.{entries_of};
ghost use Rattle.contest_import_verdicts.specs.SoFar.{SoFar};
ghost use Rattle.contest_import_verdicts.specs.VerdictFiles.{after_records, below_header};
ghost use Rattle.contest_import_verdicts.specs.VerdictFiles.{verdict_rows, verdicts_in};

use crate::record::is_header;
use crate::verdicts::VerdictsSoFar;
use contest_files::CsvRecords;
use contest_lists::Lists;
use contest_rules::NewVerdict;
use contest_types::{Entry, Moment, Refusal, RowFault, Rows};
use csv::ByteRecord;
use std::alloc::{AllocError, Global};

/// What a CSV file of verdicts adds at a moment to the contest with these lists, in its order:
/// `submission_id,judgement_type_id`. A verdict is proposed by the reserved account `import`. Where
/// the contest asks for no verification its release comes after it. A record whose submission has
/// an equal imported verdict adds nothing.
///
/// # Errors
///
/// `Malformed` where the header is missing; else the first record at fault, with its number, from
/// 1, and the cause (`ImportRow`); or want of memory. The causes: a field that is no id
/// (`Malformed`), a submission or a judgement type that isn't there (`UnknownReference`), a
/// submission with an imported verdict of another type (`KeyReused`), one for which 1,000 verdicts
/// were proposed (`TableFull`), and one that has a release (`AlreadyReleased`).
pub fn read_verdicts_csv(
    alloc: Global,
    bytes: &[u8],
    lists: &Lists,
    now: Moment,
) -> Result<Rows<Entry>, Refusal>
    ensures ok { IfOk result (λ rows. (x : ContestState) → is_valid x ≡ true → lists.now ≡ loaded x → verdict_rows x now bytes.now ≡ Ok rows) }
    ensures err { IfErr result (λ e. (x : ContestState) → is_valid x ≡ true → lists.now ≡ loaded x → Refuses e (verdict_rows x now bytes.now)) }
    ensures ordinary { IfErr result (λ e. e ≢ Refusal.StoreFault) }
{
    let mut records = CsvRecords::new(alloc, bytes);
    let verdicts = read_verdicts(alloc, &mut records, lists, now)?;
    let entries = entries_of(alloc, verdicts)?;
    Ok(entries)
}

// The verdicts that the records add.
fn read_verdicts(
    alloc: Global,
    records: &mut CsvRecords<'_>,
    lists: &Lists,
    now: Moment,
) -> Result<Rows<NewVerdict>, Refusal>
    requires { length records.old ≤ 2 ^ 63 }
    ensures ok { IfOk result (λ verdicts. (x : ContestState) → is_valid x ≡ true → lists.now ≡ loaded x → verdicts_in x now (below_header records.old) ≡ Ok verdicts) }
    ensures err { IfErr result (λ e. (x : ContestState) → is_valid x ≡ true → lists.now ≡ loaded x → Refuses e (verdicts_in x now (below_header records.old))) }
    ensures ordinary { IfErr result (λ e. e ≢ Refusal.StoreFault) }
{
    let mut row = ByteRecord::new(alloc);
    if !has_header(records, &mut row)? {
        return Err(Refusal::Malformed);
    }
    let mut so_far = VerdictsSoFar::new(alloc, lists)?;
    take_all(alloc, &mut so_far, records, &mut row, lists, now)?;
    Ok(so_far.verdicts)
}

// Whether the first record is the header, which is taken.
fn has_header(records: &mut CsvRecords<'_>, row: &mut ByteRecord) -> Result<bool, Refusal>
    requires { length records.old ≤ 2 ^ 63 }
    ensures yes { result ≡ Ok true → below_header records.old ≡ Some records.new }
    ensures no { result ≡ Ok false → below_header records.old ≡ None }
    ensures few { result ≡ Ok true → length records.new ≤ 2 ^ 63 }
    ensures err { IfErr result (λ e. e ≡ Refusal.Memory) }
{
    Ok(records.next(row)? && is_header(row))
}

// Takes the records to come, which are numbered from 1. The first at fault ends the reading.
fn take_all(
    alloc: Global,
    so_far: &mut VerdictsSoFar,
    records: &mut CsvRecords<'_>,
    row: &mut ByteRecord,
    lists: &Lists,
    now: Moment,
) -> Result<(), Refusal>
    requires { length records.old ≤ 2 ^ 63 }
    ensures ok { OnOk result ((x : ContestState) → SoFar x lists.now so_far.old.imported so_far.old.verdicts
        → after_records x now so_far.old.verdicts 1 records.old ≡ Ok so_far.new.verdicts) }
    ensures err { IfErr result (λ e. (x : ContestState) → SoFar x lists.now so_far.old.imported so_far.old.verdicts
        → Refuses e (after_records x now so_far.old.verdicts 1 records.old)) }
    ensures ordinary { IfErr result (λ e. e ≢ Refusal.StoreFault) }
{
    for n in 1..u64::MAX {
        if !records.next(row)? {
            break;
        }
        take(alloc, n, so_far, row, lists, now)?;
    }
    Ok(())
}

// Record n.
fn take(
    alloc: Global,
    n: u64,
    so_far: &mut VerdictsSoFar,
    row: &ByteRecord,
    lists: &Lists,
    now: Moment,
) -> Result<(), Refusal>
    ensures ok { OnOk result ((x : ContestState) → SoFar x lists.now so_far.old.imported so_far.old.verdicts
        → SoFar x lists.now so_far.new.imported so_far.new.verdicts
        × ((rest : List (List (List ℕ))) → after_records x now so_far.old.verdicts n (fields_of row.now ∷ rest) ≡ after_records x now so_far.new.verdicts (n + 1) rest)) }
    ensures err { IfErr result (λ e. (x : ContestState) → SoFar x lists.now so_far.old.imported so_far.old.verdicts
        → (rest : List (List (List ℕ))) → Refuses e (after_records x now so_far.old.verdicts n (fields_of row.now ∷ rest))) }
    ensures ordinary { IfErr result (λ e. e ≢ Refusal.StoreFault) }
{
    match so_far.take(alloc, lists, now, row) {
        Ok(()) => Ok(()),
        Err(RowFault::Fault(cause)) => Err(Refusal::ImportRow(n, cause)),
        Err(RowFault::Memory) => Err(Refusal::Memory),
    }
}

// Each verdict, and its release after it, if it has one.
fn entries_of(alloc: Global, verdicts: Rows<NewVerdict>) -> Result<Rows<Entry>, AllocError>
    ensures { IfOk result (λ entries. entries ≡ flat_map entries_of verdicts) }
{
    let mut entries = Rows::new(alloc);
    for verdict in verdicts.into_vec() {
        verdict.push_into(&mut entries)?;
    }
    Ok(entries)
}
