//! Reading the ids in a JSON array.
ghost use Rattle.std.specs.Prelude.{◌≡◌, ℕ, List, false, IfOk, IfErr, map};
ghost use Rattle.std.specs.Borrow.{Bor};
ghost use Rattle.std.specs.Option.{option_map};
ghost use Rattle.serde_json.specs.Find.{as_array};
ghost use Rattle.serde_json.specs.View.{view};
ghost use Rattle.contest_types.specs.Places.{are_different};
ghost use Rattle.contest_types.specs.Options.{all_some};
ghost use Rattle.contest_files.specs.IdArrays.{id_item, ids_in, is_seen};
ghost use Rattle.contest_files.specs.JsonMembers.{list_of};

use contest_types::{Id, Refusal, Rows};
use serde_json::Value;
use std::alloc::{AllocError, Global};
use std::collections::HashSet;

/// The ids in an array, in its order, if all its items are ids.
///
/// # Errors
///
/// Want of memory alone.
pub fn ids_in(alloc: Global, value: &Value) -> Result<Option<Rows<Id>>, Refusal>
    ensures value { IfOk result (λ found. found ≡ ids_in (view value.now)) }
    ensures err { IfErr result (λ e. e ≡ Refusal.Memory) }
{
    match items_of(value) {
        Some(items) => ids_of(alloc, items),
        None => Ok(None),
    }
}

/// The items of an array; none of any other value.
#[tactic(auto, using(crate::proofs::ArrayLemmas::items_listed))]
pub fn items_of(value: &Value) -> Option<&[Value]>
    ensures { option_map (λ vs. map view vs.now) result ≡ option_map list_of (as_array (view value.now)) }
{
    match value.as_array() {
        Some(items) => Some(items.as_slice()),
        None => None,
    }
}

fn ids_of(alloc: Global, items: &[Value]) -> Result<Option<Rows<Id>>, Refusal>
    ensures value { IfOk result (λ found. found ≡ all_some (map id_item (map view items.now))) }
    ensures err { IfErr result (λ e. e ≡ Refusal.Memory) }
{
    let mut ids = Rows::new(alloc);
    for item in items {
        match id_item(alloc, item)? {
            Some(id) => ids.push(id)?,
            None => return Ok(None),
        }
    }
    Ok(Some(ids))
}

fn id_item(alloc: Global, item: &Value) -> Result<Option<Id>, Refusal>
    ensures value { IfOk result (λ found. found ≡ id_item (view item.now)) }
    ensures err { IfErr result (λ e. e ≡ Refusal.Memory) }
{
    match item.as_str() {
        Some(text) => Id::parse(alloc, text),
        None => Ok(None),
    }
}

/// Whether no two of these ids are equal.
///
/// # Errors
///
/// Want of memory alone.
pub fn are_different(alloc: Global, ids: &[Id]) -> Result<bool, AllocError>
    ensures { IfOk result (λ answer. answer ≡ are_different ids.now) }
{
    let mut seen = HashSet::new(alloc);
    is_each_new(&mut seen, ids)
}

// Whether no id was seen before, where none is yet.
fn is_each_new<'a>(seen: &mut HashSet<&'a str>, ids: &'a [Id]) -> Result<bool, AllocError>
    requires { (id : Bor (List ℕ)) → is_seen seen.old id ≡ false }
    ensures { IfOk result (λ answer. answer ≡ are_different ids.now) }
{
    for id in ids {
        if !seen.insert(id.as_str())? {
            return Ok(false);
        }
    }
    Ok(true)
}
