//! Awards of small boards, as they are listed.

use contest_fixtures::{SettingRow, moment, rehearsal_settings};
use contest_score::{Awards, Board, CellRow, Row, Score, Solve, awards};
use contest_types::{Medals, Minute, Settings};
use std::alloc::Global;
use std::process::Abort;
use std::test::Fail;

/// Two problems, of which the second stands first; three groups, imported from the last to the
/// first; the first and the third team are of group north, the second of south, the fourth of west.
static ROWS: [SettingRow; 9] = [
    SettingRow::Problem("A", "A", 2),
    SettingRow::Problem("B", "B", 1),
    SettingRow::Group("south", "South"),
    SettingRow::Group("west", "West"),
    SettingRow::Group("north", "North"),
    SettingRow::Team("t1", "t1", Some(2), false),
    SettingRow::Team("t2", "t2", Some(0), false),
    SettingRow::Team("t3", "t3", Some(2), false),
    SettingRow::Team("t4", "t4", Some(1), false),
];

/// A board and its solves, and a line for each award that comes of them.
struct Awarded {
    shows: &'static str,
    medals: Medals,
    /// Team, rank and number of solved problems of each row.
    board: &'static [(usize, u32, u32)],
    /// Team, problem and milliseconds.
    solves: &'static [(usize, usize, u64)],
    listing: &'static str,
}

static AWARDED: [Awarded; 3] = [
    Awarded {
        shows: "the first two tie, and first solved the first problem in the same millisecond, after a solve that is listed before and was later; the fourth team solved nothing",
        medals: Medals {
            gold: 1,
            silver: 1,
            bronze: 1,
        },
        board: &[(0, 1, 1), (1, 1, 1), (2, 3, 1), (3, 4, 0)],
        solves: &[(2, 0, 1_800_001), (0, 0, 1_800_000), (1, 0, 1_800_000)],
        listing: "winner: Contest winner [0, 1]
gold-medal: Gold medal [0, 1]
bronze-medal: Bronze medal [2]
first-to-solve-A: First to solve problem A [0, 1]
group-winner-north: Winner of group North [0]
group-winner-south: Winner of group South [1]
",
    },
    Awarded {
        shows: "each of three teams has its own rank, and a problem of its own or two",
        medals: Medals {
            gold: 1,
            silver: 4,
            bronze: 4,
        },
        board: &[(3, 1, 2), (1, 2, 1), (2, 3, 1), (0, 4, 0)],
        solves: &[
            (3, 0, 60_000),
            (3, 1, 180_000),
            (1, 1, 120_000),
            (2, 1, 179_999),
        ],
        listing: "winner: Contest winner [3]
gold-medal: Gold medal [3]
silver-medal: Silver medal [1, 2]
first-to-solve-B: First to solve problem B [1]
first-to-solve-A: First to solve problem A [3]
group-winner-north: Winner of group North [2]
group-winner-south: Winner of group South [1]
group-winner-west: Winner of group West [3]
",
    },
    Awarded {
        shows: "nobody on the board",
        medals: Medals {
            gold: 1,
            silver: 1,
            bronze: 1,
        },
        board: &[],
        solves: &[(0, 0, 60_000)],
        listing: "",
    },
];

fn row(alloc: Global, team: usize, rank: u32, solved: u32) -> Row {
    Row {
        team,
        rank,
        score: Score {
            solved,
            total: u64::from(solved) * 30,
            last: Some(Minute(30)),
        },
        cells: CellRow::from_vec(Vec::new(alloc)),
    }
}

fn board_of(alloc: Global, rows: &[(usize, u32, u32)]) -> Result<Board, Fail> {
    let mut board = Vec::new(alloc);
    for (team, rank, solved) in rows {
        board.push(row(alloc, *team, *rank, *solved))?;
    }
    Ok(Board::new(Vec::new(alloc), board))
}

fn solves_of(alloc: Global, rows: &[(usize, usize, u64)]) -> Result<Vec<Solve>, Fail> {
    let mut solves = Vec::new(alloc);
    for (team, problem, milliseconds) in rows {
        solves.push(Solve {
            team: *team,
            problem: *problem,
            time: moment(*milliseconds)?,
        })?;
    }
    Ok(solves)
}

/// A line for each award.
fn listing(alloc: Global, awards: &Awards) -> Result<String, Fail> {
    let mut text = String::new(alloc);
    for award in awards.as_slice() {
        let id = award.id.as_str();
        let citation = award.citation.as_str();
        let teams = award.teams.as_slice();
        let line = format!(in alloc; "{id}: {citation} {teams:?}\n")?;
        text.push_str(line.as_str())?;
    }
    Ok(text)
}

fn listed_in(alloc: Global, settings: &Settings, awarded: &Awarded) -> Result<String, Fail> {
    let board = board_of(alloc, awarded.board)?;
    let solves = solves_of(alloc, awarded.solves)?;
    let awards = awards(alloc, settings, &board, &solves)?;
    listing(alloc, &awards)
}

fn listed(alloc: Global, awarded: &Awarded) -> Result<String, Fail> {
    let settings = rehearsal_settings(alloc, awarded.medals, &ROWS)?;
    listed_in(alloc, &settings, awarded)
}

fn assert_lists(rt: &(impl Abort + AllocGlobal), awarded: &Awarded) -> Result<(), Fail> {
    let text = listed(rt.alloc(), awarded)?;
    assert_eq!(rt; text.as_str(), awarded.listing, "{}", awarded.shows);
    Ok(())
}

#[test]
fn awards_go_by_rank(rt: HostRuntime) -> Result<(), Fail> {
    for awarded in &AWARDED {
        assert_lists(&rt, awarded)?;
    }
    Ok(())
}
