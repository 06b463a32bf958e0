//! What is served, written straight into its JSON text.
ghost use Rattle.std.specs.Prelude.{◌≡◌, ◌∷◌, [], IfOk, OnOk};
ghost use Rattle.json.specs.Token.{begin_array, begin_object, end_array, end_object, key};
ghost use Rattle.serde_json.specs.Data.{Data, boolean, null, number, string, unsigned};
ghost use Rattle.serde_json.specs.Written.{compact_text};
ghost use Rattle.contest_objects.specs.JsonTokens.{Wrote, data_tokens};

use json::Writer;
use std::alloc::{AllocError, Global};

/// What is served as one JSON value.
pub trait Served {
    /// Its value.
    ghost value: { Self → Data };

    /// Writes it behind what stands in a text.
    ///
    /// # Errors
    ///
    /// Want of memory alone.
    fn write(&self, out: &mut Writer) -> Result<(), AllocError>
        ensures { OnOk result (Wrote out.old out.new (data_tokens (value self.now))) };
}

/// The text of what is served, without spaces.
///
/// # Errors
///
/// Want of memory alone.
pub fn text_of<S: Served>(alloc: Global, served: &S) -> Result<Vec<u8>, AllocError>
    ensures { IfOk result (λ text. text.items ≡ compact_text (S.value served.now)) }
{
    let mut out = Writer::new(Vec::new(alloc));
    served.write(&mut out)?;
    Ok(out.into_inner())
}

/// Writes what stands before the members of an object.
///
/// # Errors
///
/// Want of memory alone.
#[inline]
pub fn begin_object(out: &mut Writer) -> Result<(), AllocError>
    ensures { OnOk result (Wrote out.old out.new (begin_object ∷ [])) }
{
    out.begin_object()
}

/// Writes what stands behind them.
///
/// # Errors
///
/// Want of memory alone.
#[inline]
pub fn end_object(out: &mut Writer) -> Result<(), AllocError>
    ensures { OnOk result (Wrote out.old out.new (end_object ∷ [])) }
{
    out.end_object()
}

/// Writes what stands before the values of an array.
///
/// # Errors
///
/// Want of memory alone.
#[inline]
pub fn begin_array(out: &mut Writer) -> Result<(), AllocError>
    ensures { OnOk result (Wrote out.old out.new (begin_array ∷ [])) }
{
    out.begin_array()
}

/// Writes what stands behind them.
///
/// # Errors
///
/// Want of memory alone.
#[inline]
pub fn end_array(out: &mut Writer) -> Result<(), AllocError>
    ensures { OnOk result (Wrote out.old out.new (end_array ∷ [])) }
{
    out.end_array()
}

/// Writes the name of a member, whose value comes next.
///
/// # Errors
///
/// Want of memory alone.
#[inline]
pub fn write_name(out: &mut Writer, name: &str) -> Result<(), AllocError>
    ensures { OnOk result (Wrote out.old out.new (key name.now ∷ [])) }
{
    out.key(name)
}

/// Writes a text.
///
/// # Errors
///
/// Want of memory alone.
#[tactic(auto, unfolding(crate::specs::JsonTokens::data_tokens))]
#[inline]
pub fn write_string(out: &mut Writer, text: &str) -> Result<(), AllocError>
    ensures { OnOk result (Wrote out.old out.new (data_tokens (string text.now))) }
{
    out.string(text)
}

/// Writes a whole number.
///
/// # Errors
///
/// Want of memory alone.
#[tactic(auto, unfolding(crate::specs::JsonTokens::data_tokens))]
#[inline]
pub fn write_number(out: &mut Writer, value: u64) -> Result<(), AllocError>
    ensures { OnOk result (Wrote out.old out.new (data_tokens (number (unsigned value)))) }
{
    out.u64(value)
}

/// Writes a truth value.
///
/// # Errors
///
/// Want of memory alone.
#[tactic(auto, unfolding(crate::specs::JsonTokens::data_tokens))]
#[inline]
pub fn write_flag(out: &mut Writer, flag: bool) -> Result<(), AllocError>
    ensures { OnOk result (Wrote out.old out.new (data_tokens (boolean flag))) }
{
    out.boolean(flag)
}

/// Writes null, which stands where there is no value.
///
/// # Errors
///
/// Want of memory alone.
#[tactic(auto, unfolding(crate::specs::JsonTokens::data_tokens))]
#[inline]
pub fn write_null(out: &mut Writer) -> Result<(), AllocError>
    ensures { OnOk result (Wrote out.old out.new (data_tokens null)) }
{
    out.null()
}
