//! The cells that a store keeps, beside those that its lists come to, counted anew.
use contest_score::{Cells, SeenCells, can_be_scored, contest_cells};
use contest_store::{ContestStore, MemoryStore};
use contest_types::{Audience, Moment, Settings, TimeSpan};
use std::alloc::{AllocError, Global};

/// Who looks: the public, a team and the jury.
static AUDIENCES: [Audience; 3] = [Audience::Public, Audience::Team(1), Audience::Jury];

/// Whether each audience sees the cells that the store keeps as they are counted anew, before any
/// thaw.
///
/// # Errors
///
/// Want of memory alone.
pub fn are_as_counted(alloc: Global, store: &MemoryStore) -> Result<bool, AllocError> {
    let now = Moment::from_time_span(TimeSpan::ZERO);
    for audience in &AUDIENCES {
        if !are_seen_as_counted(alloc, store, *audience, now)? {
            return Ok(false);
        }
    }
    Ok(true)
}

fn are_seen_as_counted(
    alloc: Global,
    store: &MemoryStore,
    audience: Audience,
    now: Moment,
) -> Result<bool, AllocError> {
    let lists = store.lists();
    let (fixed, submissions, releases) = (lists.fixed(), lists.submissions(), lists.releases());
    if !can_be_scored(fixed, submissions, releases) {
        return Ok(false);
    }
    let kept = SeenCells {
        cells: store.cells(),
        marks: &fixed.marks,
        audience,
        now,
    };
    match contest_cells(alloc, fixed, audience, now, submissions, releases) {
        Ok(counted) => Ok(are_same(&fixed.settings, &kept, &counted)),
        Err(_) => Err(AllocError),
    }
}

fn are_same<A: Cells, B: Cells>(settings: &Settings, kept: &A, counted: &B) -> bool {
    for team in 0..settings.teams().len() {
        if !has_same_row(settings, kept, counted, team) {
            return false;
        }
    }
    true
}

fn has_same_row<A: Cells, B: Cells>(
    settings: &Settings,
    kept: &A,
    counted: &B,
    team: usize,
) -> bool {
    for problem in 0..settings.problems().len() {
        if kept.cell(team, problem) != counted.cell(team, problem) {
            return false;
        }
    }
    true
}
