//! Who solved a problem first.
ghost use Rattle.std.specs.Prelude.{◌≡◌, ◌==◌, ◌<◌, ◌++◌, [], IfOk, OnOk, codes, map};
ghost use Rattle.std.specs.List.{range_with_len};
ghost use Rattle.contest_score.specs.declared.solve.Solve.{Solve};
ghost use Rattle.contest_score.specs.Ranking.{problem_order as problems_in_order};
ghost use Rattle.contest_score.specs.Awards.{award_to, first_solves, first_to_solve, listed};
ghost use Rattle.contest_score.specs.AwardSteps.{has_solve, with_solve};

use crate::award::{Award, AwardText};
use crate::award_list::{Awards, add};
use crate::criterion::{Criterion, award_to};
use crate::row::Row;
use crate::solve::Solve;
use contest_types::{Problem, Rows, Settings, problem_order};
use std::alloc::{AllocError, Global};

/// Takes one more solve into the first ones of its problem: an earlier one takes their place, and
/// one of the same millisecond joins them.
fn take_in(alloc: Global, firsts: &mut Rows<Solve>, solve: Solve) -> Result<(), AllocError>
    ensures { OnOk result (firsts.new ≡ with_solve firsts.old solve) }
{
    if let Some(first) = firsts.as_slice().first() {
        let earliest = first.time;
        if earliest.milliseconds() < solve.time.milliseconds() {
            return Ok(());
        }
        if solve.time.milliseconds() < earliest.milliseconds() {
            *firsts = Rows::new(alloc);
        }
    }
    firsts.push(solve)
}

/// No solves yet, of any of so many problems.
fn no_solves(alloc: Global, problems: usize) -> Result<Vec<Rows<Solve>>, AllocError>
    ensures { IfOk result (λ v. v.items ≡ map (λ _. []) (range_with_len 0 problems)) }
{
    let mut firsts = Vec::new(alloc);
    for _ in 0..problems {
        firsts.push(Rows::new(alloc))?;
    }
    Ok(firsts)
}

/// The first solves of each problem, in one pass.
fn first_solves(
    alloc: Global,
    problems: usize,
    solves: &[Solve],
) -> Result<Vec<Rows<Solve>>, AllocError>
    ensures { IfOk result (λ v. v.items ≡ map (λ problem. first_solves problem solves.now) (range_with_len 0 problems)) }
{
    let mut firsts = no_solves(alloc, problems)?;
    for solve in solves {
        if solve.problem < problems {
            take_in(alloc, &mut firsts[solve.problem], *solve)?;
        }
    }
    Ok(firsts)
}

/// One of these solves.
#[derive(Drop)]
struct HasSolve<'a> {
    solves: &'a [Solve],
}

impl Criterion for HasSolve<'_> {
    ghost is_met = { λ t. has_solve t.solves.now };

    fn is_met(&self, row: &Row) -> bool {
        self.solves.iter().any(|solve| solve.team == row.team)
    }
}

/// The award for a problem, by its first solves.
fn first_to_solve(
    alloc: Global,
    problem: &Problem,
    firsts: &[Solve],
    rows: &[Row],
) -> Result<Award, AllocError>
    ensures { IfOk result (λ w. w ≡ award_to (codes "first-to-solve-" ++ problem.now.id) (codes "First to solve problem " ++ problem.now.label) (has_solve firsts.now) rows.now) }
{
    let id = AwardText::joined(alloc, "first-to-solve-", problem.id.as_str())?;
    let citation = AwardText::joined(alloc, "First to solve problem ", problem.label.as_str())?;
    award_to(alloc, id, citation, rows, &HasSolve { solves: firsts })
}

/// Adds the awards for the problems, in the order of the board.
pub fn add_first_to_solve(
    alloc: Global,
    settings: &Settings,
    rows: &[Row],
    solves: &[Solve],
    awards: &mut Awards,
) -> Result<(), AllocError>
    ensures { OnOk result (awards.new ≡ awards.old ++ listed (map (first_to_solve settings.now rows.now solves.now) (problems_in_order settings.now))) }
{
    let problems = settings.problems();
    let order = problem_order(alloc, settings)?;
    let firsts = first_solves(alloc, problems.len(), solves)?;
    for place in &order {
        let firsts = firsts[*place].as_slice();
        add(
            awards,
            first_to_solve(alloc, &problems[*place], firsts, rows)?,
        )?;
    }
    Ok(())
}
