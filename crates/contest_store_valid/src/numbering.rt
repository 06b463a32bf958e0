//! Which of those equal to it each key of a list is.
ghost use Rattle.std.specs.Prelude.{◌≡◌, ◌+◌, ◌<◌, ℕ, nat_eq, nat_le, IfOk, OnOk, cond, count_by};
ghost use Rattle.std.specs.Cmp.Lexicographic.{pointwise};
ghost use Rattle.std.specs.List.{list_all};
ghost use Rattle.std.specs.HashMap.{get};
ghost use Rattle.std.specs.Map.{count_at};
ghost use Rattle.contest_store_valid.specs.Numbering.{numbered};

use std::alloc::{AllocError, Global};
use std::collections::HashMap;
use std::hash::Hash;

/// Whether each number is which of those equal to it its key is, counted from 1.
///
/// # Errors
///
/// Want of memory alone.
pub(crate) fn are_numbered<K: Eq + Hash + Copy>(
    alloc: Global,
    keys: &[K],
    numbers: &[usize],
) -> Result<bool, AllocError>
    ensures { IfOk result (λ answer. answer ≡ pointwise nat_eq numbers.now (numbered K.eq keys.now)) }
{
    let own = numbered(alloc, keys)?;
    Ok(numbers == own.as_slice())
}

/// Whether no more than so many keys are equal.
///
/// # Errors
///
/// Want of memory alone.
pub(crate) fn are_at_most<K: Eq + Hash + Copy>(
    alloc: Global,
    most: usize,
    keys: &[K],
) -> Result<bool, AllocError>
    ensures { IfOk result (λ answer. answer ≡ list_all (λ n. nat_le n most) (numbered K.eq keys.now)) }
{
    let own = numbered(alloc, keys)?;
    Ok(own.iter().all(|number| *number <= most))
}

/// For each key which of those equal to it it is, counted from 1.
///
/// # Errors
///
/// Want of memory alone.
fn numbered<K: Eq + Hash + Copy>(alloc: Global, keys: &[K]) -> Result<Vec<usize>, AllocError>
    ensures { IfOk result (λ numbers. numbers.items ≡ numbered K.eq keys.now) }
{
    let mut counts = HashMap::new(alloc);
    let mut numbers = Vec::new(alloc);
    for key in keys {
        let number = next_number(&mut counts, *key)?;
        numbers.push(number)?;
    }
    Ok(numbers)
}

/// The number of one more key, which is counted with the others.
fn next_number<K: Eq + Hash + Copy>(
    counts: &mut HashMap<K, usize>,
    key: K,
) -> Result<usize, AllocError>
    requires { count_at (get K.eq counts.old) key < usize.MAX }
    ensures number { IfOk result (λ number. number ≡ count_at (get K.eq counts.old) key + 1) }
    ensures counts { OnOk result ((other : K) → count_at (get K.eq counts.new) other ≡ count_at (get K.eq counts.old) other + cond (K.eq key other) 1 0) }
{
    let number = match counts.get(&key) {
        Some(count) => *count + 1,
        None => 1,
    };
    counts.insert(key, number)?;
    Ok(number)
}
