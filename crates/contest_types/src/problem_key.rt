//! The problems in the order in which they are listed.
ghost use Rattle.std.specs.Prelude.{◌≡◌, ◌<◌, ◌≤◌, length, IfOk, map, All};
ghost use Rattle.std.specs.List.{range_with_len};
ghost use Rattle.contest_types.specs.declared.limits.TheConstants.{PROBLEMS};
ghost use Rattle.contest_types.specs.ProblemPlaces.{problem_order as problems_in_order};
ghost use Rattle.contest_types.specs.ProblemKeys.{TellsProblem};

use crate::{Problem, Settings};
use std::alloc::{AllocError, Global};

/// What a problem is ordered by: its ordinal, and then its id. The place comes last and decides
/// nothing, since ids differ.
#[derive(PartialEq, Eq, PartialOrd, Ord, Drop)]
struct ProblemKey<'a> {
    ordinal: u16,
    id: &'a str,
    place: usize,
}

fn problem_key(problems: &[Problem], place: usize) -> ProblemKey<'_>
    requires { place < length problems.now }
    ensures place { result.place ≡ place }
    ensures told { TellsProblem problems.now result }
{
    let problem = &problems[place];
    ProblemKey {
        ordinal: problem.ordinal,
        id: problem.id.as_str(),
        place,
    }
}

fn problem_keys<'a>(
    alloc: Global,
    problems: &'a [Problem],
) -> Result<Vec<ProblemKey<'a>>, AllocError>
    ensures places { IfOk result (λ v. map (λ k. k.place) v.items ≡ range_with_len 0 (length problems.now)) }
    ensures told { IfOk result (λ v. All (TellsProblem problems.now) v.items) }
{
    let mut keys = Vec::new(alloc);
    for place in 0..problems.len() {
        keys.push(problem_key(problems, place))?;
    }
    Ok(keys)
}

/// The places of the problems, from 0, in the order in which they are listed, and in which a
/// board's cells stand: by ordinal, and then by id (Contest API 2023-06, problems).
pub fn problem_order(alloc: Global, settings: &Settings) -> Result<Vec<usize>, AllocError>
    ensures order { IfOk result (λ v. v.items ≡ problems_in_order settings.now) }
    ensures few { IfOk result (λ v. length v.items ≤ PROBLEMS) }
    ensures there { IfOk result (λ v. All (λ place. place < length settings.now.problems) v.items) }
{
    let mut keys = problem_keys(alloc, settings.problems())?;
    keys.sort_unstable();
    let mut order = Vec::new(alloc);
    for key in &keys {
        order.push(key.place)?;
    }
    Ok(order)
}
