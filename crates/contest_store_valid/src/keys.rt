//! Idempotency keys, each with whose it is.
ghost use Rattle.std.specs.Prelude.{◌≡◌, ◌++◌, OnOk, [], ◌∷◌, map};
ghost use Rattle.std.specs.List.{filter_map};
ghost use Rattle.std.specs.Option.{option_map};
ghost use Rattle.contest_store_valid.specs.Keys.{read};

use contest_types::Id;
use std::alloc::AllocError;

/// Adds a key, if there is one, with whose it is.
pub(crate) fn push_key<'a, S: Copy>(
    keys: &mut Vec<(S, &'a str)>,
    whose: S,
    key: &'a Option<Id>,
) -> Result<(), AllocError>
    ensures { OnOk result (map read keys.new.items ≡ map read keys.old.items ++ filter_map (option_map (λ k. (whose, k))) (key.now ∷ [])) }
{
    if let Some(key) = key {
        keys.push((whose, key.as_str()))?;
    }
    Ok(())
}
