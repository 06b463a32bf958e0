//! The values that the fields of a file's record spell.
ghost use Rattle.std.specs.Prelude.{◌≡◌};
ghost use Rattle.contest_files.specs.FieldTexts.{is_empty, flag_of, flag_or_empty, span_of};
ghost use Rattle.contest_files.specs.FieldTexts.{span_or_empty, ordinal_of};

use contest_types::{RelTime, TimeSpan, decimal_number};

/// `true` or `false`.
pub fn flag(field: &[u8]) -> Option<bool>
    ensures { result ≡ flag_of field.now }
{
    if field == b"true".as_slice() {
        Some(true)
    } else if field == b"false".as_slice() {
        Some(false)
    } else {
        None
    }
}

/// `true`, `false`, or nothing for false.
pub fn flag_or_empty(field: &[u8]) -> Option<bool>
    ensures { result ≡ flag_or_empty field.now }
{
    if field.is_empty() {
        Some(false)
    } else {
        flag(field)
    }
}

/// A relative time that isn't below zero.
pub fn time_span(field: &[u8]) -> Option<TimeSpan>
    ensures { result ≡ span_of field.now }
{
    match RelTime::from_bytes(field) {
        Some(time) => TimeSpan::from_reltime(time),
        None => None,
    }
}

/// A relative time that isn't below zero, or nothing.
pub fn time_span_or_empty(field: &[u8]) -> Option<Option<TimeSpan>>
    ensures { result ≡ span_or_empty field.now }
{
    if field.is_empty() {
        return Some(None);
    }
    match time_span(field) {
        Some(span) => Some(Some(span)),
        None => None,
    }
}

/// One or more decimal digits that write a number up to 65535.
pub fn ordinal(field: &[u8]) -> Option<u16>
    ensures { result ≡ ordinal_of field.now }
{
    match decimal_number(field, 65_535) {
        Some(number) => Some(number as u16),
        None => None,
    }
}
