//! What a request gives as the ids of submissions.
ghost use Rattle.std.specs.Prelude.{◌≡◌, ℕ, List, false, IfOk, IfErr, map};
ghost use Rattle.std.specs.Borrow.{Bor};
ghost use Rattle.serde_json.specs.Find.{as_str};
ghost use Rattle.serde_json.specs.View.{view};
ghost use Rattle.contest_types.specs.Options.{all_some};
ghost use Rattle.contest_types.specs.Places.{are_different};
ghost use Rattle.contest_files.specs.IdArrays.{is_seen};
ghost use Rattle.contest_requests.specs.RejudgingBodies.{texts_in};

use contest_files::items_of;
use contest_rules::WantedId;
use contest_types::{Refusal, Rows};
use serde_json::Value;
use std::alloc::{AllocError, Global};
use std::collections::HashSet;

/// The texts in an array, in its order, if all its items are texts.
///
/// # Errors
///
/// Want of memory alone.
pub(crate) fn texts_in(alloc: Global, value: &Value) -> Result<Option<Rows<WantedId>>, Refusal>
    ensures value { IfOk result (λ found. found ≡ texts_in (view value.now)) }
    ensures err { IfErr result (λ e. e ≡ Refusal.Memory) }
{
    match items_of(value) {
        Some(items) => texts_of(alloc, items),
        None => Ok(None),
    }
}

fn texts_of(alloc: Global, items: &[Value]) -> Result<Option<Rows<WantedId>>, Refusal>
    ensures value { IfOk result (λ found. found ≡ all_some (map as_str (map view items.now))) }
    ensures err { IfErr result (λ e. e ≡ Refusal.Memory) }
{
    let mut texts = Rows::new(alloc);
    for item in items {
        match item.as_str() {
            Some(text) => texts.push(WantedId::new(alloc, text)?)?,
            None => return Ok(None),
        }
    }
    Ok(Some(texts))
}

/// Whether no two of these texts are equal.
///
/// # Errors
///
/// Want of memory alone.
pub(crate) fn are_different(alloc: Global, ids: &[WantedId]) -> Result<bool, AllocError>
    ensures { IfOk result (λ answer. answer ≡ are_different ids.now) }
{
    let mut seen = HashSet::new(alloc);
    is_each_new(&mut seen, ids)
}

// Whether no text was seen before, where none is yet.
fn is_each_new<'a>(seen: &mut HashSet<&'a str>, ids: &'a [WantedId]) -> Result<bool, AllocError>
    requires { (id : Bor (List ℕ)) → is_seen seen.old id ≡ false }
    ensures { IfOk result (λ answer. answer ≡ are_different ids.now) }
{
    for id in ids {
        if !seen.insert(id.as_str())? {
            return Ok(false);
        }
    }
    Ok(true)
}
