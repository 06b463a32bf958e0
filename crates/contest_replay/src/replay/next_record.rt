//! One record of a replay, taken into the contest that was read before it.
ghost use Rattle.std.specs.Prelude.{◌≡◌, Ok, Err, Some, OnOk, IfOk, IfErr, IsOkAnd};
ghost use Rattle.contest_types.specs.Additions.{IsFaultOf};
ghost use Rattle.contest_replay.specs.ReplayLists.{first_lists, lists_with, lists_after};
ghost use Rattle.contest_replay.specs.ReplayLists.{or_malformed, with_type_row, with_problem_row};
ghost use Rattle.contest_replay.specs.ReplayLists.{with_team_row};
ghost use Rattle.contest_replay.specs.ReplayRows.{type_row, problem_row, team_row};
ghost use Rattle.contest_replay.specs.ReplayFile.{as_some};

use super::builder::{ReplayBuilder, memory_of};
use super::record::ReplayRecord;
use super::settings_row::{head_in, problem_in, team_in, type_in};
use contest_types::{Cause, RowFault};
use std::alloc::Global;

/// A record that is off its form.
const MALFORMED: RowFault = RowFault::Fault(Cause::Malformed);

/// Takes a record into what was read before it: the first is the contest.
///
/// # Errors
///
/// The record's fault, or want of memory.
pub(crate) fn take_record(
    so_far: &mut Option<ReplayBuilder>,
    alloc: Global,
    fields: &ReplayRecord<'_>,
) -> Result<(), RowFault>
    ensures ok { OnOk result (as_some (lists_after so_far.old fields.now) ≡ Ok so_far.new) }
    ensures err { IfErr result (λ e. IsFaultOf e (lists_after so_far.old fields.now)) }
{
    match so_far {
        None => start(so_far, alloc, fields),
        Some(replayed) => grow(replayed, alloc, fields),
    }
}

// Nearly all records are submissions. The functions of the other kinds aren't made part of their
// caller, where their locals would be cleared at each record.

/// Takes the first record.
#[inline(never)]
fn start(
    so_far: &mut Option<ReplayBuilder>,
    alloc: Global,
    fields: &ReplayRecord<'_>,
) -> Result<(), RowFault>
    ensures ok { OnOk result (as_some (first_lists fields.now) ≡ Ok so_far.new) }
    ensures err { IfErr result (λ e. IsFaultOf e (first_lists fields.now)) }
{
    keep(so_far, begin(alloc, fields))
}

/// Keeps what was begun.
fn keep<T: Drop>(so_far: &mut Option<T>, begun: Result<T, RowFault>) -> Result<(), RowFault>
    ensures ok { OnOk result (IsOkAnd begun (λ kept. so_far.new ≡ Some kept)) }
    ensures err { IfErr result (λ e. begun ≡ Err e) }
{
    *so_far = Some(begun?);
    Ok(())
}

/// The contest of the first record.
fn begin(alloc: Global, fields: &ReplayRecord<'_>) -> Result<ReplayBuilder, RowFault>
    ensures ok { IfOk result (λ r. first_lists fields.now ≡ Ok r) }
    ensures err { IfErr result (λ e. IsFaultOf e (first_lists fields.now)) }
{
    if fields.kind != b"contest".as_slice() {
        return Err(MALFORMED);
    }
    match head_in(alloc, fields) {
        Ok(Some(head)) => ReplayBuilder::new(alloc, head),
        Ok(None) => Err(MALFORMED),
        Err(refusal) => Err(memory_of(refusal)),
    }
}

/// Takes a record that follows the contest's.
fn grow(
    replayed: &mut ReplayBuilder,
    alloc: Global,
    fields: &ReplayRecord<'_>,
) -> Result<(), RowFault>
    ensures ok { OnOk result (lists_with replayed.old fields.now ≡ Ok replayed.new) }
    ensures err { IfErr result (λ e. IsFaultOf e (lists_with replayed.old fields.now)) }
{
    if fields.kind == b"submission".as_slice() {
        replayed.add_submission(fields)
    } else if fields.kind == b"team".as_slice() {
        add_team(replayed, alloc, fields)
    } else if fields.kind == b"problem".as_slice() {
        add_problem(replayed, alloc, fields)
    } else if fields.kind == b"type".as_slice() {
        add_type(replayed, alloc, fields)
    } else {
        Err(MALFORMED)
    }
}

/// Adds the team of a record.
#[inline(never)]
fn add_team(
    replayed: &mut ReplayBuilder,
    alloc: Global,
    fields: &ReplayRecord<'_>,
) -> Result<(), RowFault>
    ensures ok { OnOk result (or_malformed (with_team_row replayed.old) (team_row fields.now) ≡ Ok replayed.new) }
    ensures err { IfErr result (λ e. IsFaultOf e (or_malformed (with_team_row replayed.old) (team_row fields.now))) }
{
    match team_in(alloc, fields) {
        Ok(Some(row)) => replayed.add_team(alloc, row),
        Ok(None) => Err(MALFORMED),
        Err(refusal) => Err(memory_of(refusal)),
    }
}

/// Adds the problem of a record.
#[inline(never)]
fn add_problem(
    replayed: &mut ReplayBuilder,
    alloc: Global,
    fields: &ReplayRecord<'_>,
) -> Result<(), RowFault>
    ensures ok { OnOk result (or_malformed (with_problem_row replayed.old) (problem_row fields.now) ≡ Ok replayed.new) }
    ensures err { IfErr result (λ e. IsFaultOf e (or_malformed (with_problem_row replayed.old) (problem_row fields.now))) }
{
    match problem_in(alloc, fields) {
        Ok(Some(row)) => replayed.add_problem(alloc, row),
        Ok(None) => Err(MALFORMED),
        Err(refusal) => Err(memory_of(refusal)),
    }
}

/// Adds the judgement type of a record.
#[inline(never)]
fn add_type(
    replayed: &mut ReplayBuilder,
    alloc: Global,
    fields: &ReplayRecord<'_>,
) -> Result<(), RowFault>
    ensures ok { OnOk result (or_malformed (with_type_row replayed.old) (type_row fields.now) ≡ Ok replayed.new) }
    ensures err { IfErr result (λ e. IsFaultOf e (or_malformed (with_type_row replayed.old) (type_row fields.now))) }
{
    match type_in(alloc, fields) {
        Ok(Some(row)) => replayed.add_type(alloc, row),
        Ok(None) => Err(MALFORMED),
        Err(refusal) => Err(memory_of(refusal)),
    }
}
