//! The records of a CSV file, and the lines in which they begin.

use contest_files::CsvRecords;
use csv::ByteRecord;
use std::alloc::{AllocError, Global};

/// A record of a CSV file.
#[derive(Drop)]
pub(crate) struct Row {
    /// Its number, from 1; the header is 0.
    pub(crate) number: u64,
    /// The line in which it begins, from 1.
    pub(crate) line: u64,
    /// Its fields.
    pub(crate) fields: ByteRecord,
}

/// A record that is looked for.
#[derive(Clone, Copy)]
pub(crate) struct Sought<'a> {
    /// What its first field has to be, if that matters.
    pub(crate) kind: Option<&'a [u8]>,
    /// The place of the field by which it is known.
    pub(crate) place: usize,
    /// What that field has to be.
    pub(crate) value: &'a [u8],
}

impl Sought<'_> {
    // Whether a record is it.
    fn is(&self, fields: &ByteRecord) -> bool {
        let is_of_kind = match self.kind {
            Some(kind) => fields.get(0) == Some(kind),
            None => true,
        };
        is_of_kind && fields.get(self.place) == Some(self.value)
    }
}

/// The record with a number; none if there are fewer. The error is want of memory.
pub(crate) fn row_at(alloc: Global, file: &[u8], number: u64) -> Result<Option<Row>, AllocError> {
    let mut records = CsvRecords::new(alloc, file);
    let mut fields = ByteRecord::new(alloc);
    for at in 0..u64::MAX {
        if !next(&mut records, &mut fields)? {
            break;
        }
        if at == number {
            return Ok(Some(row_of(file, at, fields)));
        }
    }
    Ok(None)
}

/// The first record below the header and before a number that is looked for. The error is want of
/// memory.
pub(crate) fn find_row(
    alloc: Global,
    file: &[u8],
    before: u64,
    sought: Sought<'_>,
) -> Result<Option<Row>, AllocError> {
    let mut records = CsvRecords::new(alloc, file);
    let mut fields = ByteRecord::new(alloc);
    for at in 0..before {
        if !next(&mut records, &mut fields)? {
            break;
        }
        if at > 0 && sought.is(&fields) {
            return Ok(Some(row_of(file, at, fields)));
        }
    }
    Ok(None)
}

fn next(records: &mut CsvRecords<'_>, fields: &mut ByteRecord) -> Result<bool, AllocError> {
    match records.next(fields) {
        Ok(found) => Ok(found),
        Err(_) => Err(AllocError),
    }
}

fn row_of(file: &[u8], number: u64, fields: ByteRecord) -> Row {
    let begins = match fields.position() {
        Some(position) => position.byte(),
        None => 0,
    };
    Row {
        number,
        line: line_at(file, begins),
        fields,
    }
}

// The line of the first byte from a place on that is no end of a line. A line ends with a line feed,
// a carriage return, or both together.
fn line_at(file: &[u8], begins: u64) -> u64 {
    let mut line = 1u64;
    let mut was_return = false;
    for at in 0..file.len() {
        let byte = file[at];
        let is_end = byte == b'\n' || byte == b'\r';
        if at as u64 >= begins && !is_end {
            break;
        }
        if is_end && !(was_return && byte == b'\n') {
            line = line.saturating_add(1);
        }
        was_return = byte == b'\r';
    }
    line
}
