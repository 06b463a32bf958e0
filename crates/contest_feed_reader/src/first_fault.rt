//! What of a feed is at fault once it has ended.
ghost use Rattle.std.specs.Prelude.{◌≡◌, ◌&&◌, [], List, ℕ, IfOk, OnOk, fold, nat_le, nat_lt};
ghost use Rattle.std.specs.Prelude.{option_map};
ghost use Rattle.std.specs.List.{list_any};
ghost use Rattle.std.specs.Str.{bytes_eq};
ghost use Rattle.contest_feed_reader.specs.EndedFeeds.{is_earlier, tables_of};
ghost use Rattle.contest_feed_reader.specs.IdSets.{IsIdSet};
ghost use Rattle.contest_feed_reader.specs.References.{earlier, faults_at, first_fault, full_faults};
ghost use Rattle.contest_feed_reader.specs.References.{is_reused, judgement_faults, problem_fault};
ghost use Rattle.contest_feed_reader.specs.References.{problem_faults, verdict_fault};

use crate::feed_rows::FeedRows;
use crate::full_teams::note_submissions;
use crate::id_set::{IdSet, ids_of, stands};
use crate::objects::FeedProblem;
use crate::row::Row;
use crate::submissions::FeedJudgement;
use contest_types::{Cause, Id, TimeSpan, limits};
use std::alloc::{AllocError, Global};

/// The line that named an object last, from 1, and why the object is at fault.
pub(crate) type Fault = (u64, Cause);

// Of two faults the one of the earlier line; in one line the first.
fn note(first: &mut Option<Fault>, line: u64, cause: Cause)
    ensures { first.new ≡ earlier first.old (line, cause) }
{
    if is_earlier(first, line) {
        *first = Some((line, cause));
    }
}

// Whether a fault in a line would be the first.
fn is_earlier(first: &Option<Fault>, line: u64) -> bool
    ensures { result ≡ is_earlier first.now line }
{
    match first {
        Some((earliest, _)) => line < *earliest,
        None => true,
    }
}

/// Notes the fault of an object that a line named last, if it has one.
pub(crate) fn note_if(first: &mut Option<Fault>, line: u64, cause: Option<Cause>)
    ensures { first.new ≡ fold earlier first.old (faults_at line cause) }
{
    if let Some(cause) = cause {
        note(first, line, cause);
    }
}

// The rows for which a table has no place.
fn note_full<T>(first: &mut Option<Fault>, most: usize, rows: &[Row<T>])
    ensures { first.new ≡ fold earlier first.old (full_faults most rows.now) }
{
    if rows.len() > most {
        note_all(first, &rows[most..]);
    }
}

// All of these.
fn note_all<T>(first: &mut Option<Fault>, rows: &[Row<T>])
    ensures { first.new ≡ fold earlier first.old (full_faults 0 rows.now) }
{
    for row in rows {
        note(first, row.line, Cause::TableFull);
    }
}

// The problems whose label stands already, or for which there is no place.
fn note_problems(first: &mut Option<Fault>, problems: &[Row<FeedProblem>])
    ensures { first.new ≡ fold earlier first.old (problem_faults [] problems.now) }
{
    for place in 0..problems.len() {
        let row = &problems[place];
        note_problem(first, &problems[..place], row, &problems[place + 1..]);
    }
}

// A problem between others. Most are named after the first fault, if there is one: nothing is
// compared then.
fn note_problem(
    first: &mut Option<Fault>,
    before: &[Row<FeedProblem>],
    row: &Row<FeedProblem>,
    after: &[Row<FeedProblem>],
)
    ensures { first.new ≡ fold earlier first.old (faults_at row.now.line (problem_fault before.now row.now after.now)) }
{
    if is_earlier(first, row.line) {
        note_if(first, row.line, problem_fault(before, row, after));
    }
}

fn problem_fault(
    before: &[Row<FeedProblem>],
    row: &Row<FeedProblem>,
    after: &[Row<FeedProblem>],
) -> Option<Cause>
    ensures { result ≡ problem_fault before.now row.now after.now }
{
    if is_reused(before, row, after) {
        Some(Cause::KeyReused)
    } else if before.len() >= limits::PROBLEMS {
        Some(Cause::TableFull)
    } else {
        None
    }
}

// Whether another problem has the label that was named before.
fn is_reused(
    before: &[Row<FeedProblem>],
    row: &Row<FeedProblem>,
    after: &[Row<FeedProblem>],
) -> bool
    ensures { result ≡ is_reused before.now row.now after.now }
{
    stands_up_to(before, row) || stands_before(after, row)
}

// Whether one of these has the label, and was named in a line up to the problem's.
fn stands_up_to(others: &[Row<FeedProblem>], row: &Row<FeedProblem>) -> bool
    ensures { result ≡ list_any (λ other. bytes_eq other.object.label row.now.object.label && nat_le other.line row.now.line) others.now }
{
    others.iter().any(|other| other.object.label == row.object.label && other.line <= row.line)
}

// Whether one of these has the label, and was named in a line before the problem's.
fn stands_before(others: &[Row<FeedProblem>], row: &Row<FeedProblem>) -> bool
    ensures { result ≡ list_any (λ other. bytes_eq other.object.label row.now.object.label && nat_lt other.line row.now.line) others.now }
{
    others.iter().any(|other| other.object.label == row.object.label && other.line < row.line)
}

// The judgements whose type doesn't stand.
fn note_judgements(first: &mut Option<Fault>, types: &IdSet<'_>, judgements: &[Row<FeedJudgement>])
    ensures { (ids : List (List ℕ)) → IsIdSet types.now ids → first.new ≡ fold earlier first.old (judgement_faults ids judgements.now) }
{
    for row in judgements {
        note_if(
            first,
            row.line,
            verdict_fault(types, row.object.verdict.as_ref()),
        );
    }
}

fn verdict_fault(types: &IdSet<'_>, verdict: Option<&Id>) -> Option<Cause>
    ensures { (ids : List (List ℕ)) → IsIdSet types.now ids → result ≡ verdict_fault ids (option_map (λ id. id.now) verdict.entry) }
{
    match verdict {
        Some(id) if !stands(types, id) => Some(Cause::UnknownReference),
        _ => None,
    }
}

/// The first object that is at fault in a contest of this duration, by the line that named it last.
///
/// # Errors
///
/// Want of memory alone.
pub(crate) fn first_fault(
    alloc: Global,
    duration: TimeSpan,
    rows: &FeedRows,
) -> Result<Option<Fault>, AllocError>
    ensures { IfOk result (λ fault. fault ≡ first_fault duration (tables_of rows.now)) }
{
    let types = ids_of(alloc, &rows.types)?;
    let problems = ids_of(alloc, &rows.problems)?;
    let teams = ids_of(alloc, &rows.teams)?;
    let mut first = None;
    note_full(&mut first, limits::JUDGEMENT_TYPES, &rows.types);
    note_problems(&mut first, &rows.problems);
    note_full(&mut first, limits::GROUPS, &rows.groups);
    note_full(&mut first, limits::TEAMS, &rows.teams);
    note_submissions(
        alloc,
        &mut first,
        duration,
        &teams,
        &problems,
        &rows.submissions,
    )?;
    note_judgements(&mut first, &types, &rows.judgements);
    Ok(first)
}
