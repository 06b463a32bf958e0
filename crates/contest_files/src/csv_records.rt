//! The records of a CSV file, one after the other (RFC 4180 as the crate csv reads it).
ghost use Rattle.std.specs.Prelude.{◌≡◌, ◌≤◌, ◌<◌, ◌^◌, ◌∷◌, [], Ok, Some, true, false, IfErr};
ghost use Rattle.std.specs.Prelude.{length};
ghost use Rattle.csv.specs.Reading.{default_config, records, stops_reader, strip_bom};
ghost use Rattle.csv.specs.Records.{field_at, fields_of};

use contest_types::Refusal;
use csv::{ByteRecord, ErrorKind, Reader, ReaderBuilder};
use std::alloc::Global;
use std::marker::Model;

/// The records of a file that are still to come.
#[derive(Drop)]
pub struct CsvRecords<'a> {
    reader: Reader<&'a [u8]>,
}

impl<'a> Model for CsvRecords<'a> {
    ghost use Rattle.std.specs.Prelude.{List, ℕ};
    ghost use Rattle.contest_files.specs.CsvRecords.{IsReading, rows_left};

    ghost Value = { List (List (List ℕ)) };

    ghost view = { λ r. rows_left r.reader };

    ghost invariant = { λ r. IsReading r.reader };
}

impl<'a> CsvRecords<'a> {
    pub fn new(alloc: Global, file: &'a [u8]) -> CsvRecords<'a>
        ensures all { result ≡ records default_config (strip_bom file.now) }
        ensures few { length result ≤ 2 ^ 63 }
    {
        prove!(file.len() <= 9_223_372_036_854_775_807);
        let reader = ReaderBuilder::new()
            .has_headers(false)
            .flexible(true)
            .from_reader(alloc, file);
        CsvRecords { reader }
    }

    /// The next record into `row`, and whether there was one.
    pub fn next(&mut self, row: &mut ByteRecord) -> Result<bool, Refusal>
        ensures more { result ≡ Ok true → self.old ≡ fields_of row.new ∷ self.new }
        ensures end { result ≡ Ok false → self.old ≡ [] }
        ensures err { IfErr result (λ e. e ≡ Refusal.Memory) }
    {
        match self.reader.read_byte_record(row) {
            Ok(found) => Ok(found),
            Err(error) => Err(stopped(error.into_kind())),
        }
    }
}

/// The refusal for an error that stops a reader.
fn stopped(kind: ErrorKind) -> Refusal
    requires { stops_reader kind ≡ true }
    ensures { result ≡ Refusal.Memory }
{
    match kind {
        ErrorKind::Io(_) => Refusal::Memory,
        ErrorKind::OutOfMemory => Refusal::Memory,
        _ => unreachable!(),
    }
}

/// The field at a place that is there.
pub fn field(row: &ByteRecord, place: usize) -> &[u8]
    requires { place < length (fields_of row.now) }
    ensures { field_at (fields_of row.now) place ≡ Some result.now }
{
    match row.get(place) {
        Some(field) => field,
        None => unreachable!(),
    }
}
