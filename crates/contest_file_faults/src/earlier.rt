//! The records of a file before the one at fault.

use crate::csv_file::{Row, Sought, find_row};
use crate::form::{Form, Reference, Syntax};
use crate::json_lines::line_of_item;
use crate::reader::FileReader;
use crate::record::Record;
use serde_json::Value;
use std::alloc::{AllocError, Global};

/// Where a record stands.
#[derive(Clone, Copy)]
pub(crate) struct Place {
    /// Its number, from 1.
    pub(crate) number: u64,
    /// The line in which it begins, from 1.
    pub(crate) line: u64,
}

/// The records of a file before one.
#[derive(Clone, Copy)]
pub(crate) struct Earlier<'a> {
    /// The file.
    pub(crate) file: &'a [u8],
    /// The objects of a JSON file before that one; none of a CSV file.
    pub(crate) objects: &'a [Value],
    /// The number of that record, from 1.
    pub(crate) number: u64,
}

impl Earlier<'_> {
    /// Where the first one is that has the same in a field, and is of the same kind in a replay
    /// file.
    pub(crate) fn same(
        &self,
        alloc: Global,
        form: &Form,
        record: &Record,
        place: usize,
        value: &[u8],
    ) -> Result<Option<Place>, AllocError> {
        let kind = match form.reader {
            FileReader::Replay => record.field(0),
            _ => None,
        };
        match form.syntax {
            Syntax::Csv => self.row(alloc, Sought { kind, place, value }),
            Syntax::Json => self.object(alloc, form, place, value),
        }
    }

    /// Whether one of them is what a field names. Only a replay file has what it names in itself.
    pub(crate) fn has_named(
        &self,
        alloc: Global,
        reference: &Reference,
        value: &[u8],
    ) -> Result<bool, AllocError> {
        match reference.kind {
            Some(kind) => {
                let sought = Sought {
                    kind: Some(kind.as_bytes()),
                    place: 1,
                    value,
                };
                Ok(self.row(alloc, sought)?.is_some())
            }
            None => Ok(false),
        }
    }

    fn row(&self, alloc: Global, sought: Sought<'_>) -> Result<Option<Place>, AllocError> {
        match find_row(alloc, self.file, self.number, sought)? {
            Some(row) => Ok(Some(place_of(&row))),
            None => Ok(None),
        }
    }

    fn object(
        &self,
        alloc: Global,
        form: &Form,
        place: usize,
        value: &[u8],
    ) -> Result<Option<Place>, AllocError> {
        let mut number = 1;
        for object in self.objects {
            let other = Record::of_object(alloc, form, object)?;
            if other.field(place) == Some(value) {
                let line = line_of_item(self.file, number);
                return Ok(Some(Place { number, line }));
            }
            number = number.saturating_add(1);
        }
        Ok(None)
    }
}

fn place_of(row: &Row) -> Place {
    Place {
        number: row.number,
        line: row.line,
    }
}
