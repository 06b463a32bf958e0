//! A record of a file: what it has in each field.

use crate::form::{Form, Syntax};
use csv::ByteRecord;
use serde_json::Value;
use std::alloc::{AllocError, Global};

/// What a record has in each of a form's fields, as the file would have it; none of a member that
/// isn't there.
#[derive(Drop)]
pub(crate) struct Record {
    fields: Vec<Option<Vec<u8>>>,
}

impl Record {
    /// What stands in a field.
    pub(crate) fn field(&self, place: usize) -> Option<&[u8]> {
        match self.fields.get(place) {
            Some(Some(field)) => Some(field.as_slice()),
            _ => None,
        }
    }

    /// A record of CSV.
    pub(crate) fn of_row(
        alloc: Global,
        form: &Form,
        row: &ByteRecord,
    ) -> Result<Record, AllocError> {
        let mut fields = Vec::new(alloc);
        for place in 0..form.fields.len() {
            fields.push(copied(alloc, row.get(place))?)?;
        }
        Ok(Record { fields })
    }

    /// An object of JSON.
    pub(crate) fn of_object(
        alloc: Global,
        form: &Form,
        object: &Value,
    ) -> Result<Record, AllocError> {
        let mut fields = Vec::new(alloc);
        for field in form.fields {
            fields.push(text_of(alloc, object.get(field.name))?)?;
        }
        Ok(Record { fields })
    }
}

/// A record that is right, by the samples of its form.
pub(crate) fn sample(form: &Form, record: usize, place: usize) -> Option<&'static [u8]> {
    let text = form.fields.get(place)?.samples.get(record)?;
    match form.syntax {
        Syntax::Json if text.is_empty() => None,
        _ => Some(text.as_bytes()),
    }
}

fn copied(alloc: Global, field: Option<&[u8]>) -> Result<Option<Vec<u8>>, AllocError> {
    match field {
        Some(field) => Ok(Some(Vec::from_slice(alloc, field)?)),
        None => Ok(None),
    }
}

// The text of a member.
fn text_of(alloc: Global, member: Option<&Value>) -> Result<Option<Vec<u8>>, AllocError> {
    match member {
        Some(member) => Ok(Some(member.to_string(alloc)?.into_bytes())),
        None => Ok(None),
    }
}
