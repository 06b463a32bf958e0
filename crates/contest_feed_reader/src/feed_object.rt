//! An object of a feed, and how one is read.
ghost use Rattle.std.specs.Prelude.{◌≡◌, IfOk, IfErr};
ghost use Rattle.serde_json.specs.View.{view};
ghost use Rattle.contest_feed_reader.specs.Objects.{first_name, flag_or_true, optional_time_in, time_in};

use contest_files::{name_in, present_in, text_in};
use contest_types::{Name, Refusal, RelTime};
use serde_json::Value;
use std::alloc::Global;

/// What an object of a collection says beside its id.
pub(crate) trait FeedObject {
    ghost use Rattle.std.specs.Prelude.{◌≡◌, IfOk, IfErr, Option};
    ghost use Rattle.serde_json.specs.Data.{Data};
    ghost use Rattle.serde_json.specs.View.{view};

    /// What the members of an object say, if they are on their form.
    ghost members: { Data → Option Self };

    /// What an object says, if it is on its form.
    ///
    /// # Errors
    ///
    /// Want of memory alone.
    fn read(alloc: Global, object: &Value) -> Result<Option<Self>, Refusal>
        ensures value { IfOk result (λ found. found ≡ members (view object.now)) }
        ensures err { IfErr result (λ e. e ≡ Refusal.Memory) };
}

/// The name that a member says; where that isn't there another does.
///
/// # Errors
///
/// Want of memory alone.
pub(crate) fn first_name(
    alloc: Global,
    object: &Value,
    first: &str,
    other: &str,
) -> Result<Option<Name>, Refusal>
    ensures value { IfOk result (λ found. found ≡ first_name first.now other.now (view object.now)) }
    ensures err { IfErr result (λ e. e ≡ Refusal.Memory) }
{
    match present_in(object, first) {
        None => name_in(alloc, object, other),
        Some(member) => match member.as_str() {
            Some(text) => Name::parse(alloc, text),
            None => Ok(None),
        },
    }
}

/// A member that is true or false, if it is either; true if it isn't there or is null.
pub(crate) fn flag_or_true(object: &Value, name: &str) -> Option<bool>
    ensures { result ≡ flag_or_true name.now (view object.now) }
{
    match present_in(object, name) {
        Some(member) => member.as_bool(),
        None => Some(true),
    }
}

/// A member that is a relative time, if it is one.
pub(crate) fn time_in(object: &Value, name: &str) -> Option<RelTime>
    ensures { result ≡ time_in name.now (view object.now) }
{
    RelTime::parse(text_in(object, name)?)
}

/// A relative time that need not be there.
pub(crate) fn optional_time_in(object: &Value, name: &str) -> Option<Option<RelTime>>
    ensures { result ≡ optional_time_in name.now (view object.now) }
{
    match present_in(object, name) {
        Some(member) => Some(Some(RelTime::parse(member.as_str()?)?)),
        None => Some(None),
    }
}
