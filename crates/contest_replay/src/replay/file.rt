//! A replay file, judged as it is read.
ghost use Rattle.std.specs.Prelude.{◌≡◌, ◌≤◌, ◌+◌, ◌∷◌, ◌^◌, ◌||◌, ℕ, Bool, true, false, List, []};
ghost use Rattle.std.specs.Prelude.{None, Ok, Err, OnOk, IfOk, IfErr, IsSome, length};
ghost use Rattle.csv.specs.Reading.{records};
ghost use Rattle.csv.specs.Records.{fields_of};
ghost use Rattle.contest_types.specs.Valid.{is_valid};
ghost use Rattle.contest_replay.specs.ReplayContest.{replay_contest, marks_for};
ghost use Rattle.contest_replay.specs.ReplayRecord.{five_of};
ghost use Rattle.contest_files.specs.Refused.{Refuses};
ghost use Rattle.contest_replay.specs.ReplayFile.{contest_in_file, contest_of_records};
ghost use Rattle.contest_replay.specs.ReplayFile.{contest_under, ended, result_from, names_contest};
ghost use Rattle.contest_replay.specs.ReplayFile.{is_header, is_header_text};

use super::builder::ReplayBuilder;
use super::contest::ReplayContest;
use super::next_record::take_record;
use super::record::{ReplayRecord, five_fields};
use contest_files::CsvRecords;
use contest_types::{Cause, Refusal, RowFault};
use csv::ByteRecord;
use std::alloc::Global;

/// What was read so far: the contest up to the first fault, that fault, and whether a record named
/// a contest.
#[derive(Drop)]
struct Reading {
    so_far: Option<ReplayBuilder>,
    fault: Option<(u64, Cause)>,
    named: bool,
}

impl Reading {
    /// Judges record n, where no earlier one was at fault. A record that can't be read never comes
    /// to want of memory.
    fn judge(&mut self, alloc: Global, n: u64, row: &ByteRecord) -> Result<(), Refusal>
        ensures ok { OnOk result ((named : Bool) (rest : List (List (List ℕ)))
            → result_from self.old.so_far self.old.fault named n (fields_of row.now ∷ rest) ≡ result_from self.new.so_far self.new.fault (named || names_contest (fields_of row.now)) (n + 1) rest) }
        ensures err { IfErr result (λ e. e ≡ Refusal.Memory) }
        ensures readable { IfErr result (λ e. IsSome (five_of (fields_of row.now))) }
        ensures named { self.new.named ≡ self.old.named }
    {
        if self.fault.is_some() {
            return Ok(());
        }
        let taken = match five_fields(row) {
            Some(fields) => take_record(&mut self.so_far, alloc, &fields),
            None => Err(RowFault::Fault(Cause::Malformed)),
        };
        match taken {
            Ok(()) => Ok(()),
            Err(RowFault::Fault(cause)) => {
                self.fault = Some((n, cause));
                Ok(())
            }
            Err(RowFault::Memory) => Err(Refusal::Memory),
        }
    }

    /// Judges record n, and notes whether it names a contest.
    fn take(&mut self, alloc: Global, n: u64, row: &ByteRecord) -> Result<(), Refusal>
        ensures ok { OnOk result ((rest : List (List (List ℕ)))
            → result_from self.old.so_far self.old.fault self.old.named n (fields_of row.now ∷ rest) ≡ result_from self.new.so_far self.new.fault self.new.named (n + 1) rest) }
        ensures err { IfErr result (λ e. e ≡ Refusal.Memory) }
    {
        self.judge(alloc, n, row)?;
        self.named = self.named || names_contest(row);
        Ok(())
    }

    /// Judges the records to come, which are numbered from 1.
    fn take_all(
        &mut self,
        alloc: Global,
        records: &mut CsvRecords<'_>,
        row: &mut ByteRecord,
    ) -> Result<(), Refusal>
        requires { length records.old ≤ 2 ^ 63 }
        ensures ok { OnOk result ((n : ℕ) → result_from self.new.so_far self.new.fault self.new.named n [] ≡ result_from self.old.so_far self.old.fault self.old.named 1 records.old) }
        ensures err { IfErr result (λ e. e ≡ Refusal.Memory) }
    {
        for n in 1..u64::MAX {
            if !records.next(row)? {
                break;
            }
            self.take(alloc, n, row)?;
        }
        Ok(())
    }

    /// What a file comes to, once it has ended.
    fn finish(self) -> Result<ReplayBuilder, Refusal>
        ensures ok { (n : ℕ) → IfOk result (λ r. result_from self.so_far self.fault self.named n [] ≡ Ok r) }
        ensures err { (n : ℕ) → IfErr result (λ e. result_from self.so_far self.fault self.named n [] ≡ Err e) }
    {
        ended(self.named, self.fault, self.so_far)
    }
}

/// What a file comes to where this was read of it.
fn ended<T: Drop>(named: bool, fault: Option<(u64, Cause)>, so_far: Option<T>) -> Result<T, Refusal>
    ensures { result ≡ ended named fault so_far }
{
    match (named, fault, so_far) {
        (true, Some((n, cause)), _) => Err(Refusal::ImportRow(n, cause)),
        (true, None, Some(read)) => Ok(read),
        _ => Err(Refusal::Malformed),
    }
}

/// Whether a record that can be read has `contest` as its first field.
fn names_contest(row: &ByteRecord) -> bool
    ensures { result ≡ names_contest (fields_of row.now) }
{
    match five_fields(row) {
        Some(fields) => fields.kind == b"contest".as_slice(),
        None => false,
    }
}

/// Whether a record is the header.
fn is_header(row: &ByteRecord) -> bool
    ensures { result ≡ is_header (fields_of row.now) }
{
    match five_fields(row) {
        Some(fields) => is_header_text(&fields),
        None => false,
    }
}

fn is_header_text(fields: &ReplayRecord<'_>) -> bool
    ensures { result ≡ is_header_text fields.now }
{
    fields.kind == b"kind".as_slice()
        && fields.id == b"id".as_slice()
        && fields.f1 == b"f1".as_slice()
        && fields.f2 == b"f2".as_slice()
        && fields.f3 == b"f3".as_slice()
}

/// The contest of the records to come, which are numbered from 1.
fn judge_all(
    alloc: Global,
    records: &mut CsvRecords<'_>,
    row: &mut ByteRecord,
) -> Result<ReplayBuilder, Refusal>
    requires { length records.old ≤ 2 ^ 63 }
    ensures ok { IfOk result (λ r. result_from None None false 1 records.old ≡ Ok r) }
    ensures err { IfErr result (λ e. Refuses e (result_from None None false 1 records.old)) }
{
    let mut reading = Reading {
        so_far: None,
        fault: None,
        named: false,
    };
    let taken = reading.take_all(alloc, records, row);
    taken.and(reading.finish())
}

/// Whether the first record is the header, which is taken.
fn has_header(records: &mut CsvRecords<'_>, row: &mut ByteRecord) -> Result<bool, Refusal>
    requires { length records.old ≤ 2 ^ 63 }
    ensures yes { result ≡ Ok true → contest_of_records records.old ≡ contest_under records.new }
    ensures no { result ≡ Ok false → contest_of_records records.old ≡ Err Refusal.Malformed }
    ensures few { result ≡ Ok true → length records.new ≤ 2 ^ 63 }
    ensures err { IfErr result (λ e. e ≡ Refusal.Memory) }
{
    Ok(records.next(row)? && is_header(row))
}

/// The contest of a file's records.
fn contest_of_records(
    alloc: Global,
    records: &mut CsvRecords<'_>,
    row: &mut ByteRecord,
) -> Result<ReplayContest, Refusal>
    requires { length records.old ≤ 2 ^ 63 }
    ensures ok { IfOk result (λ r. contest_of_records records.old ≡ Ok r) }
    ensures err { IfErr result (λ e. Refuses e (contest_of_records records.old)) }
    ensures valid { (thawed : Bool) → IfOk result (λ r. is_valid (replay_contest r.settings (marks_for r.settings thawed) r.submissions) ≡ true) }
{
    if !has_header(records, row)? {
        return Err(Refusal::Malformed);
    }
    let builder = judge_all(alloc, records, row)?;
    Ok(builder.into_contest())
}

/// The contest of a replay file, which is a valid one.
///
/// # Errors
///
/// `Malformed` where the header or a contest record is missing, else the first record at fault with
/// its number and cause (`ImportRow`), or want of memory.
pub fn read_replay_csv(alloc: Global, bytes: &[u8]) -> Result<ReplayContest, Refusal>
    ensures ok { IfOk result (λ r. contest_in_file bytes.now ≡ Ok r) }
    ensures err { IfErr result (λ e. Refuses e (contest_in_file bytes.now)) }
    ensures valid { (thawed : Bool) → IfOk result (λ r. is_valid (replay_contest r.settings (marks_for r.settings thawed) r.submissions) ≡ true) }
{
    let mut records = CsvRecords::new(alloc, bytes);
    let mut row = ByteRecord::new(alloc);
    contest_of_records(alloc, &mut records, &mut row)
}
