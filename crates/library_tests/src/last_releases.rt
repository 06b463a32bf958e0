//! Cells of a contest's own lists: which release on a submission counts.

use contest_fixtures::{SettingRow, after, rehearsal};
use contest_score::{Cell, Cells, can_be_scored, contest_cells};
use contest_types::{Audience, Fixed, Minute, Release, Rows, Submission};
use std::alloc::Global;
use std::process::Abort;
use std::test::Fail;

static ROWS: [SettingRow; 5] = [
    SettingRow::Type("AC", true, false),
    SettingRow::Type("WA", false, true),
    SettingRow::Problem("a", "A", 1),
    SettingRow::Team("t1", "Alpha", None, false),
    SettingRow::Team("t2", "Beta", None, false),
];

/// Team, number and milliseconds of each submission, all at the first problem.
static SENT: [(usize, usize, u32); 4] = [
    (0, 1, 60_000),
    (1, 1, 120_000),
    (0, 2, 300_000),
    (1, 2, 660_000),
];

/// What was released, and the cells of the two teams that come of it.
struct Case {
    name: &'static str,
    /// Team, number, round and judgement type: 0 is accepted, 1 wrong.
    released: [(usize, usize, usize, usize); 2],
    cells: [Cell; 2],
}

const PENDING: Cell = Cell {
    judged: 0,
    pending: 2,
    solved: None,
    penalties: 0,
};

const WRONG_AND_PENDING: Cell = Cell {
    judged: 1,
    pending: 1,
    solved: None,
    penalties: 1,
};

const ACCEPTED_AT_1: Cell = Cell {
    judged: 1,
    pending: 0,
    solved: Some(Minute(1)),
    penalties: 0,
};

const ACCEPTED_AT_2: Cell = Cell {
    judged: 1,
    pending: 0,
    solved: Some(Minute(2)),
    penalties: 0,
};

const WRONG_AND_ACCEPTED_AT_11: Cell = Cell {
    judged: 2,
    pending: 0,
    solved: Some(Minute(11)),
    penalties: 1,
};

static CASES: [Case; 4] = [
    Case {
        name: "wrong, then accepted",
        released: [(0, 1, 1, 1), (0, 1, 2, 0)],
        cells: [ACCEPTED_AT_1, PENDING],
    },
    Case {
        name: "accepted, then wrong",
        released: [(0, 1, 1, 0), (0, 1, 2, 1)],
        cells: [WRONG_AND_PENDING, PENDING],
    },
    Case {
        name: "two teams with the same numbers",
        released: [(0, 1, 1, 1), (1, 1, 1, 0)],
        cells: [WRONG_AND_PENDING, ACCEPTED_AT_2],
    },
    Case {
        name: "the later submission is judged first",
        released: [(1, 2, 1, 0), (1, 1, 1, 1)],
        cells: [PENDING, WRONG_AND_ACCEPTED_AT_11],
    },
];

fn sent(alloc: Global) -> Result<Vec<Submission>, Fail> {
    let mut submissions = Vec::new(alloc);
    for (team, number, milliseconds) in &SENT {
        let time = after(*milliseconds)?;
        submissions.push(Submission::new(alloc, *team, *number, time, 0, 0))?;
    }
    Ok(submissions)
}

fn released(alloc: Global, rows: &[(usize, usize, usize, usize)]) -> Result<Vec<Release>, Fail> {
    let mut releases = Vec::new(alloc);
    for (team, number, round, verdict) in rows {
        releases.push(Release {
            team: *team,
            number: *number,
            round: *round,
            verdict: *verdict,
            time: after(700_000)?,
        })?;
    }
    Ok(releases)
}

/// The two teams' cells, to the public.
fn cells_of(alloc: Global, fixed: &Fixed, case: &Case) -> Result<[Cell; 2], Fail> {
    let submissions = sent(alloc)?;
    let releases = released(alloc, &case.released)?;
    if !can_be_scored(fixed, &submissions, &releases) {
        return Err(Fail::from("can't be scored"));
    }
    let now = after(700_000)?;
    let cells = contest_cells(alloc, fixed, Audience::Public, now, &submissions, &releases)?;
    Ok([cells.cell(0, 0), cells.cell(1, 0)])
}

fn assert_counts(rt: &(impl Abort + AllocGlobal), fixed: &Fixed, case: &Case) -> Result<(), Fail> {
    let cells = cells_of(rt.alloc(), fixed, case)?;
    assert!(rt; cells == case.cells, "{}", case.name);
    Ok(())
}

fn assert_all_count(rt: &(impl Abort + AllocGlobal), fixed: &Fixed) -> Result<(), Fail> {
    for case in &CASES {
        assert_counts(rt, fixed, case)?;
    }
    Ok(())
}

#[test]
fn the_last_release_counts(rt: HostRuntime) -> Result<(), Fail> {
    let fixed = rehearsal(rt.alloc(), &ROWS, Rows::new(rt.alloc()))?;
    assert_all_count(&rt, &fixed)
}
