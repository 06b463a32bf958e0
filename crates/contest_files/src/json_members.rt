//! Reading the members of a JSON object.
ghost use Rattle.std.specs.Prelude.{◌≡◌, ◌<◌, Some, true, IfOk, IfErr, is_some, length, option_map};
ghost use Rattle.std.specs.Prelude.{option_and_then};
ghost use Rattle.serde_json.specs.Find.{as_array};
ghost use Rattle.serde_json.specs.View.{view};
ghost use Rattle.contest_files.specs.JsonMembers.{data_of, flag_in, flag_or_false, id_in, name_in};
ghost use Rattle.contest_files.specs.JsonMembers.{number_in, number_or, number_to, only_item};
ghost use Rattle.contest_files.specs.JsonMembers.{optional_id_in, present_in, text_in};
ghost use Rattle.contest_files.specs.Refused.{IsRefused};

use contest_types::{Id, Name, Refusal};
use serde_json::Value;
use std::alloc::Global;

/// The value that bytes are the text of. Of two members of one name the last counts.
///
/// # Errors
///
/// `Malformed` where the bytes aren't the text of a value; else want of memory.
#[tactic(auto, using(crate::proofs::JsonLemmas::data_of_text, crate::proofs::JsonLemmas::data_of_none))]
pub fn value_of(alloc: Global, bytes: &[u8]) -> Result<Value, Refusal>
    ensures ok { IfOk result (λ v. data_of bytes.now ≡ Some (view v)) }
    ensures err { IfErr result (λ e. IsRefused e (data_of bytes.now)) }
    ensures memory { IfErr result (λ e. e ≡ Refusal.Memory → 0 < length bytes.now) }
{
    match Value::from_slice(alloc, bytes) {
        Ok(value) => Ok(value),
        Err(error) if error.is_memory() => Err(Refusal::Memory),
        Err(_) => Err(Refusal::Malformed),
    }
}

/// A member that is a text.
pub fn text_in<'v>(value: &'v Value, name: &str) -> Option<&'v str>
    ensures { option_map (λ s. s.now) result ≡ text_in name.now (view value.now) }
{
    value.get(name).and_then(Value::as_str)
}

/// A member that is there and not null.
pub fn present_in<'v>(value: &'v Value, name: &str) -> Option<&'v Value>
    ensures { option_map (λ v. view v.now) result ≡ present_in name.now (view value.now) }
{
    match value.get(name) {
        Some(member) => { if member.is_null() { None } else { Some(member) } }
        None => None,
    }
}

/// A member that is an id, if it is one.
///
/// # Errors
///
/// Want of memory alone.
pub fn id_member(alloc: Global, value: &Value, name: &str) -> Result<Option<Id>, Refusal>
    ensures value { IfOk result (λ found. found ≡ id_in name.now (view value.now)) }
    ensures err { IfErr result (λ e. e ≡ Refusal.Memory) }
    ensures memory { IfErr result (λ e. is_some (id_in name.now (view value.now)) ≡ true) }
{
    match text_in(value, name) {
        Some(text) => Id::parse(alloc, text),
        None => Ok(None),
    }
}

/// A member that has to be an id.
///
/// # Errors
///
/// `Malformed` where there is no such member; else want of memory.
pub fn id_in(alloc: Global, value: &Value, name: &str) -> Result<Id, Refusal>
    ensures ok { IfOk result (λ id. id_in name.now (view value.now) ≡ Some id) }
    ensures err { IfErr result (λ e. IsRefused e (id_in name.now (view value.now))) }
    ensures memory { IfErr result (λ e. e ≡ Refusal.Memory → is_some (id_in name.now (view value.now)) ≡ true) }
{
    match id_member(alloc, value, name)? {
        Some(id) => Ok(id),
        None => Err(Refusal::Malformed),
    }
}

/// An id that need not be there.
///
/// # Errors
///
/// `Malformed` where the member is there and is no id; else want of memory.
pub fn optional_id_in(alloc: Global, value: &Value, name: &str) -> Result<Option<Id>, Refusal>
    ensures ok { IfOk result (λ id. optional_id_in name.now (view value.now) ≡ Some id) }
    ensures err { IfErr result (λ e. IsRefused e (optional_id_in name.now (view value.now))) }
    ensures memory { IfErr result (λ e. e ≡ Refusal.Memory → is_some (optional_id_in name.now (view value.now)) ≡ true) }
{
    let Some(member) = present_in(value, name) else {
        return Ok(None);
    };
    let Some(text) = member.as_str() else {
        return Err(Refusal::Malformed);
    };
    match Id::parse(alloc, text)? {
        Some(id) => Ok(Some(id)),
        None => Err(Refusal::Malformed),
    }
}

/// A member that is a name, if it is one.
///
/// # Errors
///
/// Want of memory alone.
pub fn name_in(alloc: Global, value: &Value, name: &str) -> Result<Option<Name>, Refusal>
    ensures value { IfOk result (λ found. found ≡ name_in name.now (view value.now)) }
    ensures err { IfErr result (λ e. e ≡ Refusal.Memory) }
{
    match text_in(value, name) {
        Some(text) => Name::parse(alloc, text),
        None => Ok(None),
    }
}

/// A member that is true or false, if it is either.
pub fn flag_in(value: &Value, name: &str) -> Option<bool>
    ensures { result ≡ flag_in name.now (view value.now) }
{
    value.get(name).and_then(Value::as_bool)
}

/// A member that is true or false, if it is either; false if it isn't there or is null.
pub fn flag_or_false(value: &Value, name: &str) -> Option<bool>
    ensures { result ≡ flag_or_false name.now (view value.now) }
{
    match present_in(value, name) {
        Some(member) => member.as_bool(),
        None => Some(false),
    }
}

/// A whole number up to a limit, if a value is one.
pub fn number_to(value: &Value, most: u64) -> Option<u64>
    ensures { result ≡ number_to most (view value.now) }
{
    let number = value.as_u64()?;
    if number <= most { Some(number) } else { None }
}

/// A member that is a whole number up to a limit, if it is one.
pub fn number_in(value: &Value, name: &str, most: u64) -> Option<u64>
    ensures { result ≡ number_in most name.now (view value.now) }
{
    number_to(value.get(name)?, most)
}

/// A member that is a whole number up to a limit, if it is one; a usual value if it isn't there or
/// is null.
pub fn number_or(value: &Value, name: &str, usual: u64, most: u64) -> Option<u64>
    ensures { result ≡ number_or usual most name.now (view value.now) }
{
    match present_in(value, name) {
        Some(member) => number_to(member, most),
        None => Some(usual),
    }
}

/// The one item of an array.
pub fn only_item(value: &Value) -> Option<&Value>
    ensures { option_map (λ v. view v.now) result ≡ option_and_then only_item (as_array (view value.now)) }
{
    match value.as_array() {
        Some(items) => {
            if items.len() == 1 {
                Some(&items[0])
            } else {
                None
            }
        }
        None => None,
    }
}
