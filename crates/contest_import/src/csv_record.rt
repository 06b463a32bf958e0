//! The fields of a CSV record that has four.
ghost use Rattle.std.specs.Prelude.{◌≡◌, Some};
ghost use Rattle.csv.specs.Records.{fields_of};
ghost use Rattle.contest_import.specs.CsvFiles.{four_of, holds_by, is_header};

use contest_files::field;
use csv::ByteRecord;
use std::marker::Model;

/// The fields of a record, in its order.
#[derive(Drop)]
pub(crate) struct CsvRecord<'a> {
    pub(crate) first: &'a [u8],
    pub(crate) second: &'a [u8],
    pub(crate) third: &'a [u8],
    pub(crate) fourth: &'a [u8],
}

impl<'a> Model for CsvRecord<'a> {
    ghost use Rattle.contest_import.specs.CsvFiles.{FourFields};

    ghost Value = { FourFields };

    ghost view = { λ f. record { first = f.first.now; second = f.second.now; third = f.third.now; fourth = f.fourth.now } };
}

/// The fields of a record that has four.
pub(crate) fn four_fields(row: &ByteRecord) -> Option<CsvRecord<'_>>
    ensures { result ≡ four_of (fields_of row.now) }
{
    if row.len() != 4 {
        return None;
    }
    Some(CsvRecord {
        first: field(row, 0),
        second: field(row, 1),
        third: field(row, 2),
        fourth: field(row, 3),
    })
}

/// Whether a record holds these four names.
pub(crate) fn is_header(names: &CsvRecord<'_>, row: &ByteRecord) -> bool
    ensures { result ≡ is_header names.now (fields_of row.now) }
{
    match four_fields(row) {
        Some(fields) => holds(names, &fields),
        None => false,
    }
}

fn holds(names: &CsvRecord<'_>, fields: &CsvRecord<'_>) -> bool
    ensures { result ≡ holds_by names.now (Some fields.now) }
{
    fields.first == names.first
        && fields.second == names.second
        && fields.third == names.third
        && fields.fourth == names.fourth
}
