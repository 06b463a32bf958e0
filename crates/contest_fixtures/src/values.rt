//! The small values, from texts and numbers that are of their form.

use contest_types::{Id, Moment, Name, TimeSpan};
use std::alloc::Global;
use std::test::Fail;

pub fn id(alloc: Global, text: &str) -> Result<Id, Fail> {
    Ok(Id::parse(alloc, text)?.ok_or("no id")?)
}

pub fn name(alloc: Global, text: &str) -> Result<Name, Fail> {
    Ok(Name::parse(alloc, text)?.ok_or("no name")?)
}

pub fn span(milliseconds: u64) -> Result<TimeSpan, Fail> {
    Ok(TimeSpan::new(milliseconds).ok_or("no length of time")?)
}

/// So many milliseconds after the start of 1970.
pub fn moment(milliseconds: u64) -> Result<Moment, Fail> {
    Ok(Moment::from_milliseconds(milliseconds).ok_or("no moment")?)
}

/// The bytes as a text, for messages that can be read.
pub fn text_of(bytes: &[u8]) -> &str {
    std::str::from_utf8(bytes).unwrap_or("(not UTF-8)")
}
