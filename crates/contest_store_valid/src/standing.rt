//! Whether all keys of one list are among those of another.
ghost use Rattle.std.specs.Prelude.{◌≡◌, IfOk};
ghost use Rattle.std.specs.HashSet.{contains};
ghost use Rattle.std.specs.List.{list_all, list_any};

use std::alloc::{AllocError, Global};
use std::collections::HashSet;
use std::hash::Hash;

/// Whether each of the keys equals one of those that stand.
///
/// # Errors
///
/// Want of memory alone.
pub(crate) fn all_stand<K: Eq + Hash + Copy>(
    alloc: Global,
    standing: &[K],
    keys: &[K],
) -> Result<bool, AllocError>
    ensures { IfOk result (λ all. all ≡ list_all (λ k. list_any (λ j. K.eq j k) standing.now) keys.now) }
{
    let set = set_of(alloc, standing)?;
    Ok(keys.iter().all(|key| set.contains(key)))
}

fn set_of<K: Eq + Hash + Copy>(alloc: Global, keys: &[K]) -> Result<HashSet<K>, AllocError>
    ensures { IfOk result (λ set. (k : K) → contains K.eq set k ≡ list_any (λ j. K.eq j k) keys.now) }
{
    let mut set = HashSet::new(alloc);
    for key in keys {
        set.insert(*key)?;
    }
    Ok(set)
}
