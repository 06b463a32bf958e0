//! Records of CSV, written in memory (RFC 4180, as the crate csv writes them).
ghost use Rattle.std.specs.Prelude.{◌≡◌, ◌++◌, OnOk, IfOk, [], map};
ghost use Rattle.csv.specs.Records.{fields_of, partial_of};
ghost use Rattle.csv.specs.Writing.{default_writer, row_text};

use csv::{ByteRecord, Error, WriterBuilder};
use std::alloc::{AllocError, Global};

/// Pushes texts as fields of a record.
///
/// # Errors
///
/// Want of memory alone.
pub fn push_fields(fields: &mut ByteRecord, texts: &[&str]) -> Result<(), AllocError>
    requires { partial_of fields.old ≡ [] }
    ensures fields { OnOk result (fields_of fields.new ≡ fields_of fields.old ++ map (λ t. t.now) texts.now) }
    ensures whole { OnOk result (partial_of fields.new ≡ []) }
{
    for text in texts {
        fields.push_field(text.as_bytes())?;
    }
    Ok(())
}

/// The text of a record, with the end of its line: a field is between quotes if it holds a quote, a
/// comma or an end of line, and a quote in it stands twice.
///
/// # Errors
///
/// Want of memory alone: a vector takes all that there is memory for.
pub fn record_text(alloc: Global, fields: &ByteRecord) -> Result<Vec<u8>, AllocError>
    ensures { IfOk result (λ text. text.items ≡ row_text default_writer (fields_of fields.now)) }
{
    match written(alloc, fields) {
        Ok(text) => Ok(text),
        Err(_) => Err(AllocError),
    }
}

// One record by a writer of its own, which has no other record's length to compare with.
fn written(alloc: Global, fields: &ByteRecord) -> Result<Vec<u8>, Error>
    ensures { IfOk result (λ text. text.items ≡ row_text default_writer (fields_of fields.now)) }
{
    let mut writer = WriterBuilder::new().from_writer(Vec::new(alloc));
    writer.write_byte_record(fields)?;
    match writer.into_inner() {
        Ok(text) => Ok(text),
        Err(error) => Err(error.into_error()),
    }
}
