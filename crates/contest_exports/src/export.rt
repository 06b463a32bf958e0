//! The export of all submissions.
ghost use Rattle.std.specs.Prelude.{◌≡◌, IfErr, IfOk, IsTrue, Ok, OnOk, length};
ghost use Rattle.std.specs.List.{flat_map};
ghost use Rattle.contest_types.specs.State.{ContestState};
ghost use Rattle.contest_streams.specs.Streams.{stream};
ghost use Rattle.contest_lists.specs.Lists.{loaded};
ghost use Rattle.contest_desk.specs.Serving.{IsReady, IsSettled, OnlyReads};
ghost use Rattle.contest_exports.specs.Exports.{FailsIfWrite, Writes, next_record, of_store};
ghost use Rattle.contest_exports.specs.SubmissionsCsv.{header, last_type, record_of};
ghost use Rattle.contest_exports.specs.SubmissionsCsv.{submissions_csv};
ghost use Rattle.contest_exports.specs.Walks.{IsOver, all_in_order, given_by, order_in, stepped};

use crate::Walk;
use crate::record::{header, submission_record};
use contest_lists::Lists;
use contest_store::{ContestStore, StoreError};
use contest_streams::{Counted, write_all};
use contest_types::Submission;
use std::alloc::{AllocError, Global};
use std::io::Write;

/// Why not all of an export is out.
#[derive(Clone, Copy, PartialEq, Eq)]
pub enum ExportFault {
    /// The stream took not all of it.
    Write,
    /// The store failed, or memory was refused.
    Store(StoreError),
}

/// Writes the submissions of all teams as CSV, by time, team id and number: `id`, `team_id`,
/// `problem_id`, `language_id`, `time`, `contest_time`, the `judgement_type_id` of the last
/// release, which is empty where there is none, and the SHA-256 digest of the file in hexadecimal
/// (own). One file is in memory at a time.
///
/// # Errors
///
/// `Write` where the stream failed, and `Store` where the store failed or memory was refused: a
/// front of the text is out then. The contest is as before.
pub fn submissions_csv<S: ContestStore, W: Write>(
    alloc: Global,
    store: &mut S,
    out: &mut Counted<W>,
) -> Result<(), ExportFault>
    requires { IsSettled (S.kept store.old) }
    ensures written { (S.kept store.new).is_clean → Writes result (stream W.contents out.old) (stream W.contents out.new) (submissions_csv (S.kept store.old).contest) }
    ensures fault { FailsIfWrite result (stream W.contents out.old) (stream W.contents out.new) }
    ensures leaves { OnlyReads (of_store result) (S.kept store.old) (S.kept store.new) }
{
    match Walk::begin(alloc, store) {
        Ok(mut walk) => write_walk(alloc, store, &mut walk, out),
        Err(error) => Err(ExportFault::Store(error)),
    }
}

fn write_walk<S: ContestStore, W: Write>(
    alloc: Global,
    store: &mut S,
    walk: &mut Walk,
    out: &mut Counted<W>,
) -> Result<(), ExportFault>
    requires loaded { IsTrue (S.kept store.old).is_loaded }
    requires ready { (S.kept store.old).is_clean → IsReady (S.kept store.old) }
    requires over { (S.kept store.old).is_clean → IsOver walk.old (S.kept store.old).contest }
    requires first { given_by walk.old ≡ 0 }
    ensures written { (S.kept store.new).is_clean → Writes result (stream W.contents out.old) (stream W.contents out.new) (submissions_csv (S.kept store.old).contest) }
    ensures fault { FailsIfWrite result (stream W.contents out.old) (stream W.contents out.new) }
    ensures leaves { OnlyReads (of_store result) (S.kept store.old) (S.kept store.new) }
{
    write_header(alloc, out)?;
    write_rows(alloc, store, walk, out)
}

fn write_header<W: Write>(alloc: Global, out: &mut Counted<W>) -> Result<(), ExportFault>
    ensures written { Writes result (stream W.contents out.old) (stream W.contents out.new) header }
    ensures fault { FailsIfWrite result (stream W.contents out.old) (stream W.contents out.new) }
    ensures calm { OnOk result (out.new.faults ≡ out.old.faults) }
    ensures memory { IfErr (of_store result) (λ e. e ≡ StoreError.Memory) }
{
    match header(alloc) {
        Ok(text) => send(out, &text),
        Err(AllocError) => Err(ExportFault::Store(StoreError::Memory)),
    }
}

// All that the walk gives from its beginning. The lists are in memory (`loaded`), so no row loads
// any: each asks the store for one file.
fn write_rows<S: ContestStore, W: Write>(
    alloc: Global,
    store: &mut S,
    walk: &mut Walk,
    out: &mut Counted<W>,
) -> Result<(), ExportFault>
    requires loaded { IsTrue (S.kept store.old).is_loaded }
    requires ready { (S.kept store.old).is_clean → IsReady (S.kept store.old) }
    requires over { (S.kept store.old).is_clean → IsOver walk.old (S.kept store.old).contest }
    requires first { given_by walk.old ≡ 0 }
    ensures written { (S.kept store.new).is_clean → Writes result (stream W.contents out.old) (stream W.contents out.new) (flat_map (record_of (S.kept store.old).contest) (all_in_order (S.kept store.old).contest)) }
    ensures fault { FailsIfWrite result (stream W.contents out.old) (stream W.contents out.new) }
    ensures leaves { OnlyReads (of_store result) (S.kept store.old) (S.kept store.new) }
{
    for _ in 0..walk.len() {
        write_next(alloc, store, walk, out)?;
    }
    Ok(())
}

// The next that the walk gives.
fn write_next<S: ContestStore, W: Write>(
    alloc: Global,
    store: &mut S,
    walk: &mut Walk,
    out: &mut Counted<W>,
) -> Result<(), ExportFault>
    requires loaded { IsTrue (S.kept store.old).is_loaded }
    requires ready { (S.kept store.old).is_clean → IsReady (S.kept store.old) }
    requires over { (S.kept store.old).is_clean → IsOver walk.old (S.kept store.old).contest }
    ensures written { (S.kept store.new).is_clean → Writes result (stream W.contents out.old) (stream W.contents out.new) (next_record (S.kept store.old).contest (given_by walk.old)) }
    ensures order { order_in walk.new ≡ order_in walk.old }
    ensures counts { OnOk result (given_by walk.new ≡ stepped (length (order_in walk.old)) (given_by walk.old)) }
    ensures fault { FailsIfWrite result (stream W.contents out.old) (stream W.contents out.new) }
    ensures calm { OnOk result (out.new.faults ≡ out.old.faults) }
    ensures leaves { OnlyReads (of_store result) (S.kept store.old) (S.kept store.new) }
{
    match walk.next(alloc, store) {
        Ok(Some(submission)) => write_row(alloc, store.lists(), &submission, out),
        Ok(None) => Ok(()),
        Err(error) => Err(ExportFault::Store(error)),
    }
}

fn write_row<W: Write>(
    alloc: Global,
    lists: &Lists,
    submission: &Submission,
    out: &mut Counted<W>,
) -> Result<(), ExportFault>
    ensures written { (x : ContestState) → lists.now ≡ loaded x → Writes result (stream W.contents out.old) (stream W.contents out.new) (record_of x submission.now) }
    ensures fault { FailsIfWrite result (stream W.contents out.old) (stream W.contents out.new) }
    ensures calm { OnOk result (out.new.faults ≡ out.old.faults) }
    ensures memory { IfErr (of_store result) (λ e. e ≡ StoreError.Memory) }
{
    let released = last_type(lists, submission);
    match submission_record(alloc, lists.fixed(), released, submission) {
        Ok(row) => send(out, &row),
        Err(AllocError) => Err(ExportFault::Store(StoreError::Memory)),
    }
}

// Writes bytes. The error is the stream's.
fn send<W: Write>(out: &mut Counted<W>, bytes: &[u8]) -> Result<(), ExportFault>
    ensures written { Writes result (stream W.contents out.old) (stream W.contents out.new) bytes.now }
    ensures fault { FailsIfWrite result (stream W.contents out.old) (stream W.contents out.new) }
    ensures calm { OnOk result (out.new.faults ≡ out.old.faults) }
    ensures store { of_store result ≡ Ok tt }
{
    match write_all(out, bytes) {
        Ok(()) => Ok(()),
        Err(_) => Err(ExportFault::Write),
    }
}

// The judgement type of the last release on a submission, by its place, if it has one.
fn last_type(lists: &Lists, submission: &Submission) -> Option<usize>
    ensures { result ≡ last_type lists.now.releases submission.now.team submission.now.number }
{
    let release = lists.last_release(submission.team, submission.number)?;
    Some(release.verdict)
}
