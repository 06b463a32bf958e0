//! Submissions as rows, and the submission that a loaded row is.
ghost use Rattle.std.specs.Prelude.{◌≡◌, ◌<◌, ◌+◌, ◌^◌, IfOk, IfSome, codes};
ghost use Rattle.sqlite_value.specs.Order.{column};
ghost use Rattle.sqlite_value.specs.Value.{owned};
ghost use Rattle.sqlite_value.specs.declared.value.Value.TheVariants.{Text};
ghost use Rattle.contest_types.specs.declared.objects.Language.{Language as TheLanguage};
ghost use Rattle.contest_types.specs.declared.objects.Problem.{Problem as TheProblem};
ghost use Rattle.contest_store_rows.specs.Cells.{lent, number_of};
ghost use Rattle.contest_store_rows.specs.Readings.{place_in};
ghost use Rattle.contest_store_rows.specs.ListRows.{loaded_submission_row, submission_row};
ghost use Rattle.contest_store_rows.specs.Submissions.{is_submission_row, submission_if};
ghost use Rattle.contest_store_rows.specs.Submissions.{submission_in, submission_said};

use crate::cells::{
    id_if_any, id_or_null, is_row, name_if_any, name_or_null, number, number_at, text_at,
};
use crate::lists::Listed;
use contest_types::limits::POSTED_FILE;
use contest_types::{Moment, Rows, Settings, Submission};
use sqlite::Row;
use sqlite::types::ValueRef;
use std::alloc::{AllocError, Global};

/// The cells of the row with a number, from 1, that keeps a submission.
pub fn submission_cells<'a>(
    settings: &'a Settings,
    row: u64,
    submission: &'a Submission,
) -> [ValueRef<'a>; 9]
    requires row { row < 2 ^ 63 }
    requires team { submission.now.team + 1 < 2 ^ 63 }
    requires number { submission.now.number < 2 ^ 63 }
    ensures { lent result ≡ submission_row settings.now row submission.now }
{
    [
        number(row),
        number(submission.team as u64 + 1),
        number(submission.number as u64),
        number(submission.time.milliseconds()),
        ValueRef::Text(settings.problem_id(submission.problem).as_bytes()),
        ValueRef::Text(settings.language_id(submission.language).as_bytes()),
        name_or_null(&submission.entry_point),
        ValueRef::Blob(submission.file.as_slice()),
        id_or_null(&submission.key),
    ]
}

// The cells of what a load shows of it: of the file, which has this size, its type and its length
// alone.
fn loaded_cells<'a>(
    settings: &'a Settings,
    row: u64,
    size: u64,
    submission: &'a Submission,
) -> [ValueRef<'a>; 10]
    requires row { row < 2 ^ 63 }
    requires size { size < 2 ^ 63 }
    requires team { submission.now.team + 1 < 2 ^ 63 }
    requires number { submission.now.number < 2 ^ 63 }
    ensures { lent result ≡ loaded_submission_row settings.now row size submission.now }
{
    [
        number(row),
        number(submission.team as u64 + 1),
        number(submission.number as u64),
        number(submission.time.milliseconds()),
        ValueRef::Text(settings.problem_id(submission.problem).as_bytes()),
        ValueRef::Text(settings.language_id(submission.language).as_bytes()),
        name_or_null(&submission.entry_point),
        blob_type(),
        number(size),
        id_or_null(&submission.key),
    ]
}

// What a load shows of a file's type.
fn blob_type<'a>() -> ValueRef<'a>
    ensures { owned result ≡ Text (codes "blob") }
{
    ValueRef::Text("blob".as_bytes())
}

impl Listed for Submission {
    ghost row_in = { submission_in };

    // Without its file, which a load doesn't show; none where that is too large.
    fn read(
        alloc: Global,
        settings: &Settings,
        number: u64,
        row: &Row,
    ) -> Result<Option<Submission>, AllocError> {
        let Some(submission) = submission_said(alloc, settings, row)? else {
            return Ok(None);
        };
        Ok(if_its_row(settings, number, row, submission))
    }
}

// The submission, if the row is its and its file isn't too large.
fn if_its_row(
    settings: &Settings,
    row_number: u64,
    row: &Row,
    submission: Submission,
) -> Option<Submission>
    requires row { row_number < 2 ^ 63 }
    requires team { submission.team + 1 < 2 ^ 63 }
    requires number { submission.number < 2 ^ 63 }
    ensures { result ≡ submission_if settings.now row_number row.now submission }
{
    if is_its_row(settings, row_number, row, &submission) {
        Some(submission)
    } else {
        None
    }
}

fn is_its_row(settings: &Settings, row_number: u64, row: &Row, submission: &Submission) -> bool
    requires row { row_number < 2 ^ 63 }
    requires team { submission.now.team + 1 < 2 ^ 63 }
    requires number { submission.now.number < 2 ^ 63 }
    ensures { result ≡ is_submission_row settings.now row_number row.now submission.now }
{
    let size = number_at(row, 8);
    size <= POSTED_FILE as u64 && is_row(row, &loaded_cells(settings, row_number, size, submission))
}

// What the cells say, if the texts and the time are some.
fn submission_said(
    alloc: Global,
    settings: &Settings,
    row: &Row,
) -> Result<Option<Submission>, AllocError>
    ensures said { IfOk result (λ found. found ≡ submission_said settings.now row.now) }
    ensures fits { IfOk result (λ found. IfSome found (λ x. (x.team + 1 < 2 ^ 63) × (x.number < 2 ^ 63))) }
{
    let Some(time) = Moment::from_milliseconds(number_at(row, 3)) else {
        return Ok(None);
    };
    let Some(entry_point) = name_if_any(alloc, row, 6)? else {
        return Ok(None);
    };
    let Some(key) = id_if_any(alloc, row, 9)? else {
        return Ok(None);
    };
    Ok(Some(Submission {
        team: (number_at(row, 1) as usize).saturating_sub(1),
        number: number_at(row, 2) as usize,
        time,
        problem: settings.problem_place(text_at(row, 4)).unwrap_or(0),
        language: settings.language_place(text_at(row, 5)).unwrap_or(0),
        entry_point,
        file: Rows::new(alloc),
        key,
    }))
}
