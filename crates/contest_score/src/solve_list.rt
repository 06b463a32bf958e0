//! The solves of a contest, of its own lists of submissions and releases.
ghost use Rattle.std.specs.Prelude.{◌≡◌, ℕ, ◌++◌, [], IfOk, OnOk, map};
ghost use Rattle.std.specs.List.{cons_option, flat_map};
ghost use Rattle.contest_types.specs.Loads.{without_file};
ghost use Rattle.contest_types.specs.State.{ContestState};
ghost use Rattle.contest_score.specs.Contest.{solves_of};
ghost use Rattle.contest_score.specs.Lists.{CanBeScored};
ghost use Rattle.contest_score.specs.MaskedCells.{verdict_of};
ghost use Rattle.contest_score.specs.Ranking.{is_public, shown_teams};
ghost use Rattle.contest_score.specs.Scoring.{solves_by};
ghost use Rattle.contest_score.specs.SolveSteps.{first_time, solve_at, team_solves, time_in};
ghost use Rattle.contest_score.specs.SolveSteps.{timed_with};

use crate::last_verdicts::judged_submissions;
use crate::solve::Solve;
use crate::submission::JudgedSubmission;
use contest_types::{
    Fixed, JudgementType, Moment, Release, Settings, Submission, is_public, problem_order,
};
use std::alloc::{AllocError, Global};
use std::collections::HashMap;

/// When each team first solved each problem, by the places of both.
type FirstTimes = HashMap<(usize, usize), Moment>;

/// Each problem that a team solved which isn't hidden, with the time of its first submission that
/// solves it, by all verdicts (Contest Control System Requirements, "Scoring"). The lists are those
/// that `contest_cells` takes; no file is read.
///
/// # Errors
///
/// Want of memory alone.
pub fn contest_solves(
    alloc: Global,
    fixed: &Fixed,
    submissions: &[Submission],
    releases: &[Release],
) -> Result<Vec<Solve>, AllocError>
    requires { CanBeScored fixed.now submissions.now releases.now }
    ensures { IfOk result (λ v. (x : ContestState) → x.fixed ≡ fixed.now → map without_file x.submissions ≡ submissions.now → x.releases ≡ releases.now → v.items ≡ solves_of x) }
{
    let settings = &fixed.settings;
    let judged = judged_submissions(alloc, settings, submissions, releases)?;
    let times = first_times(alloc, fixed, &judged)?;
    let order = problem_order(alloc, settings)?;
    let solves = solves_in(alloc, settings, &times, &order)?;
    Ok(solves)
}

/// When each team first solved each problem, in one pass over the submissions.
fn first_times(
    alloc: Global,
    fixed: &Fixed,
    submissions: &[JudgedSubmission],
) -> Result<FirstTimes, AllocError>
    ensures { IfOk result (λ times. (team problem : ℕ) → time_in times team problem ≡ first_time fixed.now.settings fixed.now.marks submissions.now team problem) }
{
    let types = fixed.settings.judgement_types();
    let mut times = HashMap::new(alloc);
    for submission in submissions {
        if is_solving(types, submission.verdict) {
            take_first(&mut times, submission)?;
        }
    }
    Ok(times)
}

/// Whether a judgement type, by its place, solves a problem.
fn is_solving(types: &[JudgementType], verdict: Option<u32>) -> bool
    ensures { result ≡ solves_by (verdict_of types.now verdict) }
{
    let Some(place) = verdict else {
        return false;
    };
    match types.get(place as usize) {
        Some(judgement_type) => judgement_type.solved,
        None => false,
    }
}

/// Takes one more submission that solves its problem, unless an earlier one of its team does.
fn take_first(times: &mut FirstTimes, submission: &JudgedSubmission) -> Result<(), AllocError>
    ensures { OnOk result ((team problem : ℕ) → time_in times.new team problem ≡ timed_with (time_in times.old) submission.now team problem) }
{
    let solved = (submission.team as usize, submission.problem as usize);
    if times.contains_key(&solved) {
        return Ok(());
    }
    times.insert(solved, submission.time)?;
    Ok(())
}

/// The solves of the teams that aren't hidden, team by team, each in this order of the problems.
fn solves_in(
    alloc: Global,
    settings: &Settings,
    times: &FirstTimes,
    order: &[usize],
) -> Result<Vec<Solve>, AllocError>
    ensures { IfOk result (λ v. v.items ≡ flat_map (team_solves (time_in times.now) order.now) (shown_teams settings.now (is_public settings.now))) }
{
    let mut solves = Vec::new(alloc);
    for team in 0..settings.teams().len() {
        if is_public(settings, team) {
            push_solves(&mut solves, times, order, team)?;
        }
    }
    Ok(solves)
}

/// Pushes the solves of a team, in this order of the problems.
fn push_solves(
    solves: &mut Vec<Solve>,
    times: &FirstTimes,
    order: &[usize],
    team: usize,
) -> Result<(), AllocError>
    ensures { OnOk result (solves.new.items ≡ solves.old.items ++ team_solves (time_in times.now) order.now team) }
{
    for problem in order {
        push_where(solves, solve_at(times, team, *problem))?;
    }
    Ok(())
}

/// Pushes a solve, where there is one.
fn push_where(solves: &mut Vec<Solve>, solve: Option<Solve>) -> Result<(), AllocError>
    ensures { OnOk result (solves.new.items ≡ solves.old.items ++ cons_option solve []) }
{
    match solve {
        Some(solve) => solves.push(solve)?,
        None => {}
    }
    Ok(())
}

/// The solve of a team at a problem, if the team solved it.
fn solve_at(times: &FirstTimes, team: usize, problem: usize) -> Option<Solve>
    ensures { result ≡ solve_at (time_in times.now) team problem }
{
    let time = *times.get(&(team, problem))?;
    Some(Solve {
        team,
        problem,
        time,
    })
}
