//! The clarifications that an audience hears: all of them, and one by its id.
ghost use Rattle.std.specs.Prelude.{◌≡◌, ℕ, IfOk, option_map};
ghost use Rattle.serde_json.specs.Written.{compact_text};
ghost use Rattle.contest_types.specs.State.{ContestState};
ghost use Rattle.contest_view.specs.Clarifications.{clarification_found, clarifications_data};
ghost use Rattle.contest_view.specs.SeenLists.{Shows};

use crate::seen::Seen;
use contest_objects::{
    ClarificationObject, Collection, CollectionObject, Ordered, clarification_id, get, list,
};
use contest_types::{Clarification, sees_clarification};
use std::alloc::{AllocError, Global};
use std::cmp::Ordering;

/// Clarifications as an audience is served them.
#[derive(Clone, Copy)]
pub(crate) struct Clarifications<'a> {
    pub seen: &'a Seen<'a>,
}

impl<'a> Collection for Clarifications<'a> {
    ghost use Rattle.std.specs.Prelude.{codes};
    ghost use Rattle.contest_view.specs.Clarifications.{heard_row};

    type Row = Clarification;

    ghost item = { λ c. heard_row c.seen.now.lists.now.fixed c.seen.now.audience };

    ghost name = { codes "clarifications" };

    fn object<'r>(&'r self, row: &'r Clarification) -> Option<CollectionObject<'r>> {
        let fixed = self.seen.lists.fixed();
        if !sees_clarification(self.seen.audience, &fixed.settings, row) {
            return None;
        }
        let object = ClarificationObject {
            fixed,
            audience: self.seen.audience,
            clarification: row,
        };
        Some(CollectionObject::Clarification(object))
    }
}

impl<'a> Ordered for Clarifications<'a> {
    ghost use Rattle.contest_view.specs.Clarifications.{heard_cmp, heard_total};

    ghost cmp = { λ c. heard_cmp };

    fn compare(&self, first: &Clarification, second: &Clarification) -> Ordering {
        let one = clarification_id(first.addressee, first.number);
        let other = clarification_id(second.addressee, second.number);
        let times = first.time.milliseconds().cmp(&second.time.milliseconds());
        times.then(one.cmp(&other))
    }

    ghost total = { λ c. heard_total };
}

/// The text of the array of the clarifications that an audience hears, by time and id (Contest API 2023-06,
/// clarifications).
///
/// # Errors
///
/// Want of memory alone.
pub fn clarifications_text(alloc: Global, seen: &Seen<'_>) -> Result<Vec<u8>, AllocError>
    ensures { (x : ContestState) → Shows seen.entry.now x → IfOk result (λ text. text.items ≡ compact_text (clarifications_data seen.entry.now.audience x)) }
{
    let rows = seen.lists.clarifications();
    let text = list(alloc, &Clarifications { seen }, rows)?;
    Ok(text)
}

/// The text of the clarification with an id, if the audience hears it: one that it doesn't hear is as one that
/// isn't there.
///
/// # Errors
///
/// Want of memory alone.
pub fn clarification_by_id(
    alloc: Global,
    seen: &Seen<'_>,
    id: &[u8],
) -> Result<Option<Vec<u8>>, AllocError>
    ensures { (x : ContestState) → Shows seen.entry.now x → IfOk result (λ found. option_map (λ text. text.items) found ≡ option_map compact_text (clarification_found seen.entry.now.audience x id.now)) }
{
    let rows = seen.lists.clarifications();
    let found = get(alloc, &Clarifications { seen }, rows, id)?;
    Ok(found)
}
