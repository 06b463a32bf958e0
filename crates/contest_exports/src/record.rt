//! What is written of a submission.
ghost use Rattle.std.specs.Prelude.{◌≡◌, ◌++◌, ◌∷◌, ◌-ℤ◌, [], ℤ, IfOk, OnOk, pos};
ghost use Rattle.csv.specs.Records.{fields_of, partial_of};
ghost use Rattle.csv.specs.Writing.{default_writer, row_text};
ghost use Rattle.contest_types.specs.MomentText.{moment_text};
ghost use Rattle.contest_types.specs.ProblemPlaces.{problem_id_at};
ghost use Rattle.contest_types.specs.RelTimeText.{rel_time_text};
ghost use Rattle.contest_types.specs.SettingsNames.{language_id_at};
ghost use Rattle.contest_types.specs.TeamPlaces.{team_id_at};
ghost use Rattle.contest_types.specs.VisibleIds.{submission_id};
ghost use Rattle.contest_exports.specs.SubmissionsCsv.{contest_time_text, header, header_fields};
ghost use Rattle.contest_exports.specs.SubmissionsCsv.{submission_record, type_text};

use contest_objects::submission_id;
use contest_text::{push_fields, record_text};
use contest_types::{Fixed, Moment, RelTime, Settings, Submission, print_reltime, print_time};
use csv::ByteRecord;
use sha2::{Digest, Sha256};
use std::alloc::{AllocError, Global};

/// The names of the fields, as a record.
///
/// # Errors
///
/// Want of memory alone.
pub(crate) fn header(alloc: Global) -> Result<Vec<u8>, AllocError>
    ensures { IfOk result (λ text. text.items ≡ header) }
{
    let fields = header_fields(alloc)?;
    record_text(alloc, &fields)
}

fn header_fields(alloc: Global) -> Result<ByteRecord, AllocError>
    ensures { IfOk result (λ fields. fields_of fields ≡ header_fields) }
{
    let names = [
        "id",
        "team_id",
        "problem_id",
        "language_id",
        "time",
        "contest_time",
        "judgement_type_id",
        "sha256",
    ];
    let mut fields = ByteRecord::new(alloc);
    push_fields(&mut fields, &names)?;
    Ok(fields)
}

/// The record of a submission whose last release has the judgement type at a place, from 0, if it
/// has a release.
///
/// # Errors
///
/// Want of memory alone.
pub(crate) fn submission_record(
    alloc: Global,
    fixed: &Fixed,
    released: Option<usize>,
    submission: &Submission,
) -> Result<Vec<u8>, AllocError>
    ensures { IfOk result (λ text. text.items ≡ submission_record fixed.now released submission.now) }
{
    let digest = hex::encode(alloc, Sha256::digest(submission.file.as_slice()))?;
    let verdict = [type_text(&fixed.settings, released), digest.as_str()];
    let mut fields = ByteRecord::new(alloc);
    push_names(&mut fields, &fixed.settings, submission)?;
    push_times(&mut fields, fixed.marks.start, submission.time)?;
    push_fields(&mut fields, &verdict)?;
    record_text(alloc, &fields)
}

// Its id, and those of its team, problem and language.
fn push_names(
    fields: &mut ByteRecord,
    settings: &Settings,
    submission: &Submission,
) -> Result<(), AllocError>
    requires { partial_of fields.old ≡ [] }
    ensures fields { OnOk result (fields_of fields.new ≡ fields_of fields.old ++ submission_id submission.now.team submission.now.number ∷ team_id_at settings.now submission.now.team
        ∷ problem_id_at settings.now.problems submission.now.problem ∷ language_id_at settings.now submission.now.language ∷ []) }
    ensures whole { OnOk result (partial_of fields.new ≡ []) }
{
    let id = submission_id(submission.team, submission.number);
    let names = [
        id.as_str(),
        settings.team_id(submission.team),
        settings.problem_id(submission.problem),
        settings.language_id(submission.language),
    ];
    push_fields(fields, &names)
}

// Its time, and that since the start.
fn push_times(
    fields: &mut ByteRecord,
    start: Option<Moment>,
    time: Moment,
) -> Result<(), AllocError>
    requires { partial_of fields.old ≡ [] }
    ensures fields { OnOk result (fields_of fields.new ≡ fields_of fields.old ++ moment_text time ∷ contest_time_text start time ∷ []) }
    ensures whole { OnOk result (partial_of fields.new ≡ []) }
{
    fields.push_field(print_time(time).as_slice())?;
    match start {
        Some(start) => push_span(fields, RelTime::between(start, time)),
        None => fields.push_field(b""),
    }
}

fn push_span(fields: &mut ByteRecord, span: RelTime) -> Result<(), AllocError>
    requires { partial_of fields.old ≡ [] }
    ensures fields { OnOk result (fields_of fields.new ≡ fields_of fields.old ++ rel_time_text span ∷ []) }
    ensures whole { OnOk result (partial_of fields.new ≡ []) }
{
    let mut text = [0; 24];
    let length = print_reltime(span, &mut text);
    fields.push_field(&text[..length])
}

// The id of a judgement type; nothing where there is none.
fn type_text(settings: &Settings, released: Option<usize>) -> &str
    ensures { result.now ≡ type_text settings.now released }
{
    match released {
        Some(place) => settings.judgement_type_id(place),
        None => "",
    }
}
