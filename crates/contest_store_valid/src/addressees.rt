//! Whether the clarifications of each addressee count up and aren't too many.
ghost use Rattle.std.specs.Prelude.{◌≡◌, nat_le, count_by, filter, IfOk, map};
ghost use Rattle.contest_types.specs.Series.{in_each, count_up};
ghost use Rattle.contest_types.specs.ValidClarifications.{to_one_addressee};
ghost use Rattle.contest_types.specs.ValidClarifications.{are_valid_clarifications};
ghost use Rattle.contest_types.specs.declared.clarification.Clarification.{Clarification as TheClarification};
ghost use Rattle.contest_store_valid.specs.Talk.{addressee_of, is_of};

use crate::numbering::{are_at_most, are_numbered};
use contest_types::limits::{JURY_CLARIFICATIONS, TEAM_REQUESTS};
use contest_types::{Addressee, Clarification};
use std::alloc::{AllocError, Global};

/// Whether each addressee's clarifications count up over both directions, and neither direction has
/// too many.
///
/// # Errors
///
/// Want of memory alone.
#[tactic(auto, using(crate::proofs::TalkLemmas::by_addressee))]
pub(crate) fn are_valid_by_addressee(
    alloc: Global,
    clarifications: &[Clarification],
) -> Result<bool, AllocError>
    ensures { IfOk result (λ answer. answer ≡ in_each to_one_addressee are_valid_clarifications clarifications.now) }
{
    let counted = are_numbered_by_addressee(alloc, clarifications)?;
    let few_requests = are_few(alloc, TEAM_REQUESTS, false, clarifications)?;
    let few_by_jury = are_few(alloc, JURY_CLARIFICATIONS, true, clarifications)?;
    Ok(counted && few_requests && few_by_jury)
}

fn are_numbered_by_addressee(
    alloc: Global,
    clarifications: &[Clarification],
) -> Result<bool, AllocError>
    ensures { IfOk result (λ answer. answer ≡ in_each to_one_addressee (λ cs. count_up (map (λ (c : TheClarification). c.number) cs)) clarifications.now) }
{
    let addressees = addressees_of(alloc, clarifications)?;
    let numbers = numbers_of(alloc, clarifications)?;
    are_numbered(alloc, &addressees, &numbers)
}

// Whether no addressee has more than so many of one direction.
fn are_few(
    alloc: Global,
    most: usize,
    from_jury: bool,
    clarifications: &[Clarification],
) -> Result<bool, AllocError>
    ensures { IfOk result (λ answer. answer ≡ in_each to_one_addressee (λ cs. nat_le (count_by (is_of from_jury) cs) most) clarifications.now) }
{
    let addressees = addressees_of_direction(alloc, from_jury, clarifications)?;
    are_at_most(alloc, most, &addressees)
}

fn addressees_of(
    alloc: Global,
    clarifications: &[Clarification],
) -> Result<Vec<Addressee>, AllocError>
    ensures { IfOk result (λ addressees. addressees.items ≡ map addressee_of clarifications.now) }
{
    clarifications
        .iter()
        .map(|clarification| clarification.addressee)
        .collect(alloc)
}

fn numbers_of(alloc: Global, clarifications: &[Clarification]) -> Result<Vec<usize>, AllocError>
    ensures { IfOk result (λ numbers. numbers.items ≡ map (λ (c : TheClarification). c.number) clarifications.now) }
{
    clarifications
        .iter()
        .map(|clarification| clarification.number)
        .collect(alloc)
}

fn addressees_of_direction(
    alloc: Global,
    from_jury: bool,
    clarifications: &[Clarification],
) -> Result<Vec<Addressee>, AllocError>
    ensures { IfOk result (λ addressees. addressees.items ≡ map addressee_of (filter (is_of from_jury) clarifications.now)) }
{
    clarifications
        .iter()
        .filter(|clarification| is_of(from_jury, clarification))
        .map(|clarification| clarification.addressee)
        .collect(alloc)
}

fn is_of(from_jury: bool, clarification: &Clarification) -> bool
    ensures { result ≡ is_of from_jury clarification.now }
{
    clarification.from_jury == from_jury
}
