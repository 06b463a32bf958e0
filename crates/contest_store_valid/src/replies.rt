//! Whether the clarifications that others answer stand.
ghost use Rattle.std.specs.Prelude.{◌≡◌, true, IfOk, map};
ghost use Rattle.std.specs.List.{list_all, filter_map};
ghost use Rattle.std.specs.Option.{option_map_or};
ghost use Rattle.contest_types.specs.declared.clarification.Clarification.{Clarification as TheClarification};
ghost use Rattle.contest_store_valid.specs.Talk.{has_one, reference_to};

use crate::standing::all_stand;
use contest_types::{Clarification, Reference};
use std::alloc::{AllocError, Global};

/// Whether each clarification that another one answers stands.
///
/// # Errors
///
/// Want of memory alone.
pub(crate) fn replies_stand(
    alloc: Global,
    clarifications: &[Clarification],
) -> Result<bool, AllocError>
    ensures { IfOk result (λ answer. answer ≡ list_all (λ (c : TheClarification). option_map_or (has_one clarifications.now) c.reply true) clarifications.now) }
{
    let standing = references_to(alloc, clarifications)?;
    let named = replies_of(alloc, clarifications)?;
    all_stand(alloc, &standing, &named)
}

fn references_to(
    alloc: Global,
    clarifications: &[Clarification],
) -> Result<Vec<Reference>, AllocError>
    ensures { IfOk result (λ references. references.items ≡ map reference_to clarifications.now) }
{
    clarifications
        .iter()
        .map(|clarification| Reference {
            addressee: clarification.addressee,
            number: clarification.number,
        })
        .collect(alloc)
}

// What the clarifications answer.
fn replies_of(alloc: Global, clarifications: &[Clarification]) -> Result<Vec<Reference>, AllocError>
    ensures { IfOk result (λ references. references.items ≡ filter_map (λ (c : TheClarification). c.reply) clarifications.now) }
{
    clarifications
        .iter()
        .filter_map(|clarification| clarification.reply)
        .collect(alloc)
}
