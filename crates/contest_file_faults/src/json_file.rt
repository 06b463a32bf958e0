//! The value of a JSON text, or where the text has a fault.

use serde_json::{Error, Value};
use std::alloc::{AllocError, Global};

/// What a text is.
#[derive(Drop)]
pub(crate) enum Parsed {
    /// The text of this value.
    Value(Value),
    /// No text of a value.
    Fault(JsonFault),
}

/// Where a text is no JSON any more.
#[derive(Clone, Copy)]
pub(crate) struct JsonFault {
    /// The line, from 1.
    pub(crate) line: u64,
    /// The byte in that line, from 1.
    pub(crate) column: u64,
    /// Whether the text ends before it is whole.
    pub(crate) is_cut: bool,
}

/// What a text is. The error is want of memory.
pub(crate) fn read_json(alloc: Global, text: &[u8]) -> Result<Parsed, AllocError> {
    match Value::from_slice(alloc, text) {
        Ok(value) => Ok(Parsed::Value(value)),
        Err(error) if error.is_memory() => Err(AllocError),
        Err(error) => Ok(Parsed::Fault(fault_of(&error))),
    }
}

fn fault_of(error: &Error) -> JsonFault {
    JsonFault {
        line: error.line() as u64,
        column: error.column() as u64,
        is_cut: error.is_eof(),
    }
}

/// What kind of value it is, in words.
pub(crate) fn kind_of(value: &Value) -> &'static str {
    if value.is_object() {
        "an object"
    } else if value.is_array() {
        "an array"
    } else if value.is_string() {
        "a text"
    } else if value.is_number() {
        "a number"
    } else if value.is_boolean() {
        "a truth"
    } else {
        "null"
    }
}
