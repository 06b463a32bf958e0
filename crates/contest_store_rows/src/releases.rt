//! Releases as rows, and the release that a row is.
ghost use Rattle.std.specs.Prelude.{◌≡◌, ◌<◌, ◌+◌, ◌^◌, IfSome};
ghost use Rattle.contest_types.specs.declared.objects.JudgementType.{JudgementType as TheType};
ghost use Rattle.contest_store_rows.specs.Cells.{lent, number_of};
ghost use Rattle.contest_store_rows.specs.ListRows.{release_row};
ghost use Rattle.contest_store_rows.specs.Readings.{if_its_row, place_in};
ghost use Rattle.contest_store_rows.specs.Releases.{release_in, release_said};

use crate::cells::{is_row, number, number_at, text_at};
use crate::lists::Listed;
use contest_types::{Moment, Release, Settings};
use sqlite::Row;
use sqlite::types::ValueRef;
use std::alloc::{AllocError, Global};

/// The cells of the row with a number, from 1, that keeps a release.
pub fn release_cells<'a>(settings: &'a Settings, row: u64, release: &Release) -> [ValueRef<'a>; 6]
    requires row { row < 2 ^ 63 }
    requires team { release.now.team + 1 < 2 ^ 63 }
    requires number { release.now.number < 2 ^ 63 }
    requires round { release.now.round < 2 ^ 63 }
    ensures { lent result ≡ release_row settings.now row release.now }
{
    [
        number(row),
        number(release.team as u64 + 1),
        number(release.number as u64),
        number(release.round as u64),
        ValueRef::Text(settings.judgement_type_id(release.verdict).as_bytes()),
        number(release.time.milliseconds()),
    ]
}

// What the cells say, if the time is a moment.
fn release_said(settings: &Settings, row: &Row) -> Option<Release>
    ensures said { result ≡ release_said settings.now row.now }
    ensures fits { IfSome result (λ v. (v.team + 1 < 2 ^ 63) × (v.number < 2 ^ 63) × (v.round < 2 ^ 63)) }
{
    let time = Moment::from_milliseconds(number_at(row, 5))?;
    Some(Release {
        team: (number_at(row, 1) as usize).saturating_sub(1),
        number: number_at(row, 2) as usize,
        round: number_at(row, 3) as usize,
        verdict: settings.judgement_type_place(text_at(row, 4)).unwrap_or(0),
        time,
    })
}

impl Listed for Release {
    ghost row_in = { release_in };

    fn read(
        _alloc: Global,
        settings: &Settings,
        number: u64,
        row: &Row,
    ) -> Result<Option<Release>, AllocError> {
        let Some(release) = release_said(settings, row) else {
            return Ok(None);
        };
        Ok(is_row(row, &release_cells(settings, number, &release)).then_some(release))
    }
}
