//! A record of a file of verdicts.
ghost use Rattle.std.specs.Prelude.{◌≡◌, IfOk, IfErr};
ghost use Rattle.csv.specs.Records.{fields_of};
ghost use Rattle.contest_import_verdicts.specs.VerdictFiles.{are_names, is_header, two_of};
ghost use Rattle.contest_import_verdicts.specs.VerdictFiles.{wanted_by, wanted_in};

use contest_files::field;
use contest_rules::WantedVerdict;
use contest_types::{Id, Refusal};
use csv::ByteRecord;
use std::alloc::Global;
use std::marker::Model;

/// The fields of a record, in its order.
#[derive(Drop)]
struct Fields<'a> {
    submission: &'a [u8],
    judgement_type: &'a [u8],
}

impl<'a> Model for Fields<'a> {
    ghost use Rattle.contest_import_verdicts.specs.VerdictFiles.{TwoFields};

    ghost Value = { TwoFields };

    ghost view = { λ f. record { first = f.submission.now; second = f.judgement_type.now } };
}

// The fields of a record that has two.
fn fields_in(row: &ByteRecord) -> Option<Fields<'_>>
    ensures { result ≡ two_of (fields_of row.now) }
{
    if row.len() != 2 {
        return None;
    }
    Some(Fields {
        submission: field(row, 0),
        judgement_type: field(row, 1),
    })
}

/// Whether a record is the header: `submission_id,judgement_type_id`.
pub(crate) fn is_header(row: &ByteRecord) -> bool
    ensures { result ≡ is_header (fields_of row.now) }
{
    match fields_in(row) {
        Some(fields) => are_names(&fields),
        None => false,
    }
}

fn are_names(fields: &Fields<'_>) -> bool
    ensures { result ≡ are_names fields.now }
{
    fields.submission == b"submission_id".as_slice()
        && fields.judgement_type == b"judgement_type_id".as_slice()
}

/// The verdict that a record says, if both of its fields are ids.
///
/// # Errors
///
/// Want of memory alone.
pub(crate) fn wanted_in(alloc: Global, row: &ByteRecord) -> Result<Option<WantedVerdict>, Refusal>
    ensures value { IfOk result (λ found. found ≡ wanted_in (fields_of row.now)) }
    ensures err { IfErr result (λ e. e ≡ Refusal.Memory) }
{
    match fields_in(row) {
        Some(fields) => wanted_by(alloc, &fields),
        None => Ok(None),
    }
}

fn wanted_by(alloc: Global, fields: &Fields<'_>) -> Result<Option<WantedVerdict>, Refusal>
    ensures value { IfOk result (λ found. found ≡ wanted_by fields.now) }
    ensures err { IfErr result (λ e. e ≡ Refusal.Memory) }
{
    let Some(submission) = Id::from_bytes(alloc, fields.submission)? else {
        return Ok(None);
    };
    let Some(judgement_type) = Id::from_bytes(alloc, fields.judgement_type)? else {
        return Ok(None);
    };
    Ok(Some(WantedVerdict {
        submission,
        judgement_type,
    }))
}
