//! Whether a field of a record is at fault by itself: the reader is given a record that is right but
//! for this field.

use crate::form::{Form, Syntax};
use crate::reader::is_off_form;
use crate::record::sample;
use std::alloc::{AllocError, Global};

/// Whether a value is none that may stand in a field, whatever is beside it. The error is want of
/// memory.
pub(crate) fn is_field_off_form(
    alloc: Global,
    form: &Form,
    place: usize,
    value: Option<&[u8]>,
) -> Result<bool, AllocError> {
    Ok(is_off_beside(alloc, form, 0, place, value)? && is_off_beside(alloc, form, 1, place, value)?)
}

// The same beside the other fields of one sample.
fn is_off_beside(
    alloc: Global,
    form: &Form,
    beside: usize,
    place: usize,
    value: Option<&[u8]>,
) -> Result<bool, AllocError> {
    let text = file_with(alloc, form, beside, place, value)?;
    is_off_form(alloc, form.reader, &text)
}

// A file of one record that has this value in a field, and else what a sample has.
fn file_with(
    alloc: Global,
    form: &Form,
    beside: usize,
    place: usize,
    value: Option<&[u8]>,
) -> Result<Vec<u8>, AllocError> {
    let mut text = Vec::from_slice(alloc, form.before.as_bytes())?;
    for at in 0..form.fields.len() {
        let value = if at == place {
            value
        } else {
            sample(form, beside, at)
        };
        push_field(&mut text, form, at, value)?;
    }
    text.extend_from_slice(form.after.as_bytes())?;
    Ok(text)
}

fn push_field(
    text: &mut Vec<u8>,
    form: &Form,
    place: usize,
    value: Option<&[u8]>,
) -> Result<(), AllocError> {
    match (form.syntax, value) {
        (Syntax::Csv, Some(value)) => push_column(text, place, value),
        (Syntax::Csv, None) => push_column(text, place, &[]),
        (Syntax::Json, Some(value)) => push_member(text, form, place, value),
        (Syntax::Json, None) => Ok(()),
    }
}

// A field of CSV, in quotation marks.
fn push_column(text: &mut Vec<u8>, place: usize, value: &[u8]) -> Result<(), AllocError> {
    if place > 0 {
        text.extend_from_slice(b",")?;
    }
    text.extend_from_slice(b"\"")?;
    for byte in value {
        push_byte(text, *byte)?;
    }
    text.extend_from_slice(b"\"")
}

fn push_byte(text: &mut Vec<u8>, byte: u8) -> Result<(), AllocError> {
    if byte == b'"' {
        text.extend_from_slice(b"\"\"")
    } else {
        text.extend_from_slice(&[byte])
    }
}

// A member of an object of JSON, which is the object's first if the object has just begun.
fn push_member(
    text: &mut Vec<u8>,
    form: &Form,
    place: usize,
    value: &[u8],
) -> Result<(), AllocError> {
    let Some(field) = form.fields.get(place) else {
        return Ok(());
    };
    if text.last() != Some(&b'{') {
        text.extend_from_slice(b",")?;
    }
    text.extend_from_slice(b"\"")?;
    text.extend_from_slice(field.name.as_bytes())?;
    text.extend_from_slice(b"\":")?;
    text.extend_from_slice(value)
}
