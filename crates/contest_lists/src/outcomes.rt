//! Outcomes of two steps as one. To give back an owned value at an early return is a step of the
//! proof for each of its fields; that of a type parameter is one step, so such returns stand here.
ghost use Rattle.std.specs.Prelude.{◌≡◌, Ok, IfOk, is_ok, true};

use std::alloc::AllocError;

/// A value where something was done.
///
/// # Errors
///
/// Want of memory alone, where it wasn't done.
pub(crate) fn value_if<T: Drop>(done: Result<(), AllocError>, value: T) -> Result<T, AllocError>
    ensures done { IfOk result (λ _. is_ok done ≡ true) }
    ensures value { IfOk result (λ given. given ≡ value) }
{
    done?;
    Ok(value)
}

/// Both values.
///
/// # Errors
///
/// Want of memory alone, where either was refused.
pub(crate) fn both<A: Drop, B: Drop>(
    first: Result<A, AllocError>,
    second: Result<B, AllocError>,
) -> Result<(A, B), AllocError>
    ensures first { IfOk result (λ values. first ≡ Ok values.0) }
    ensures second { IfOk result (λ values. second ≡ Ok values.1) }
{
    let first = first?;
    let second = second?;
    Ok((first, second))
}
