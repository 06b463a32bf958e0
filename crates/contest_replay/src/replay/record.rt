//! The five fields of a replay's record.
ghost use Rattle.std.specs.Prelude.{◌≡◌};
ghost use Rattle.csv.specs.Records.{fields_of};
ghost use Rattle.contest_replay.specs.ReplayRecord.{five_of};

use contest_files::field;
use csv::ByteRecord;
use std::marker::Model;

/// The fields of a record, in the order of the header `kind,id,f1,f2,f3`.
#[derive(Drop)]
pub(crate) struct ReplayRecord<'a> {
    pub(crate) kind: &'a [u8],
    pub(crate) id: &'a [u8],
    pub(crate) f1: &'a [u8],
    pub(crate) f2: &'a [u8],
    pub(crate) f3: &'a [u8],
}

impl<'a> Model for ReplayRecord<'a> {
    ghost use Rattle.contest_replay.specs.ReplayRecord.{FiveFields};

    ghost Value = { FiveFields };

    ghost view = { λ f. record { kind = f.kind.now; id = f.id.now; f1 = f.f1.now; f2 = f.f2.now; f3 = f.f3.now } };
}

/// The fields of a record that has five.
pub(crate) fn five_fields(row: &ByteRecord) -> Option<ReplayRecord<'_>>
    ensures { result ≡ five_of (fields_of row.now) }
{
    if row.len() != 5 {
        return None;
    }
    Some(ReplayRecord {
        kind: field(row, 0),
        id: field(row, 1),
        f1: field(row, 2),
        f2: field(row, 3),
        f3: field(row, 4),
    })
}
