//! The rows of an array, each with an id of its own.
ghost use Rattle.std.specs.Prelude.{◌≡◌, ℕ, List, IfErr, IfOk, false, map};
ghost use Rattle.std.specs.Borrow.{Bor};
ghost use Rattle.serde_json.specs.View.{view};
ghost use Rattle.contest_types.specs.Options.{all_some};
ghost use Rattle.contest_types.specs.Places.{are_different};
ghost use Rattle.contest_files.specs.IdArrays.{is_seen};
ghost use Rattle.contest_comparison.specs.Scoreboards.{listed};

use contest_files::items_of;
use contest_types::{Id, Refusal, Rows};
use serde_json::Value;
use std::alloc::{AllocError, Global};
use std::collections::HashSet;

/// A row of an array in which no two have one id.
pub(crate) trait ListedRow {
    ghost use Rattle.std.specs.Prelude.{◌≡◌, ℕ, IfErr, IfOk, List, Option};
    ghost use Rattle.serde_json.specs.Data.{Data};
    ghost use Rattle.serde_json.specs.View.{view};

    /// What the members of an object say, if they are on their form.
    ghost members: { Data → Option Self };

    /// The bytes of its id.
    ghost id: { Self → List ℕ };

    /// What an object says, if it is on its form.
    ///
    /// # Errors
    ///
    /// Want of memory alone.
    fn read(alloc: Global, object: &Value) -> Result<Option<Self>, Refusal>
        ensures value { IfOk result (λ found. found ≡ members (view object.now)) }
        ensures err { IfErr result (λ e. e ≡ Refusal.Memory) };

    /// Its id.
    fn id(&self) -> &Id
        ensures { result.now ≡ id self.now };
}

/// The rows of an array, if each item is one and no two have one id.
///
/// # Errors
///
/// Want of memory alone.
pub(crate) fn listed<T: ListedRow + Drop>(
    alloc: Global,
    value: &Value,
) -> Result<Option<Rows<T>>, Refusal>
    ensures value { IfOk result (λ found. found ≡ listed T.members T.id (view value.now)) }
    ensures err { IfErr result (λ e. e ≡ Refusal.Memory) }
{
    let Some(items) = items_of(value) else {
        return Ok(None);
    };
    match rows_of::<T>(alloc, items)? {
        Some(rows) => {
            if are_different(alloc, rows.as_slice())? {
                Ok(Some(rows))
            } else {
                Ok(None)
            }
        }
        None => Ok(None),
    }
}

// The rows of items, if each is one.
fn rows_of<T: ListedRow + Drop>(alloc: Global, items: &[Value]) -> Result<Option<Rows<T>>, Refusal>
    ensures value { IfOk result (λ found. found ≡ all_some (map T.members (map view items.now))) }
    ensures err { IfErr result (λ e. e ≡ Refusal.Memory) }
{
    let mut rows = Rows::new(alloc);
    for item in items {
        match T::read(alloc, item)? {
            Some(row) => rows.push(row)?,
            None => return Ok(None),
        }
    }
    Ok(Some(rows))
}

// Whether no two rows have one id.
fn are_different<T: ListedRow>(alloc: Global, rows: &[T]) -> Result<bool, AllocError>
    ensures { IfOk result (λ answer. answer ≡ are_different (map T.id rows.now)) }
{
    let mut seen = HashSet::new(alloc);
    is_each_new(&mut seen, rows)
}

// Whether no id was seen before, where none is yet.
fn is_each_new<'a, T: ListedRow>(
    seen: &mut HashSet<&'a str>,
    rows: &'a [T],
) -> Result<bool, AllocError>
    requires { (id : Bor (List ℕ)) → is_seen seen.old id ≡ false }
    ensures { IfOk result (λ answer. answer ≡ are_different (map T.id rows.now)) }
{
    for row in rows {
        let id = row.id();
        if !seen.insert(id.as_str())? {
            return Ok(false);
        }
    }
    Ok(true)
}
