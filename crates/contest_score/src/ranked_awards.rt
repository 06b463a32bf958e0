//! The awards by rank: the winner and the medals.
ghost use Rattle.std.specs.Prelude.{◌≡◌, ◌==◌, ◌≤◌, ◌++◌, IfOk, OnOk};
ghost use Rattle.contest_types.specs.declared.limits.TheConstants.{MEDAL_PLACES};
ghost use Rattle.contest_score.specs.Awards.{award_to, listed, medals, ranks_after, winner};

use crate::award::{Award, AwardText};
use crate::award_list::{Awards, add};
use crate::criterion::{Criterion, award_to};
use crate::row::Row;
use contest_types::{Medals, Settings};
use std::alloc::{AllocError, Global};

/// The first rank.
#[derive(Drop)]
struct FirstRank;

impl Criterion for FirstRank {
    ghost is_met = { λ _ r. r.rank == 1 };

    fn is_met(&self, row: &Row) -> bool {
        row.rank == 1
    }
}

/// So many ranks after the first ones.
#[derive(Drop)]
struct RanksAfter {
    before: u32,
    count: u32,
}

impl Criterion for RanksAfter {
    ghost is_met = { λ t. ranks_after t.before t.count };

    fn is_met(&self, row: &Row) -> bool {
        self.before < row.rank && row.rank - self.before <= self.count
    }
}

/// The award of the teams of the first rank.
pub fn winner(alloc: Global, rows: &[Row]) -> Result<Award, AllocError>
    ensures { IfOk result (λ w. w ≡ winner rows.now) }
{
    let id = AwardText::new(alloc, "winner")?;
    let citation = AwardText::new(alloc, "Contest winner")?;
    award_to(alloc, id, citation, rows, &FirstRank)
}

/// A medal for the teams of these ranks.
fn medal(
    alloc: Global,
    id: &str,
    citation: &str,
    ranks: RanksAfter,
    rows: &[Row],
) -> Result<Award, AllocError>
    ensures { IfOk result (λ w. w ≡ award_to id.now citation.now (ranks_after ranks.before ranks.count) rows.now) }
{
    let id = AwardText::new(alloc, id)?;
    let citation = AwardText::new(alloc, citation)?;
    award_to(alloc, id, citation, rows, &ranks)
}

/// How many places each kind of medal has, within their limit.
fn medal_places(settings: &Settings) -> Medals
    ensures value { result ≡ settings.now.head.medals }
    ensures gold { result.gold ≤ MEDAL_PLACES }
    ensures silver { result.silver ≤ MEDAL_PLACES }
{
    settings.head().medals
}

/// Adds the medals: gold for the first ranks, silver for the next, bronze for those after them.
pub fn add_medals(
    alloc: Global,
    settings: &Settings,
    rows: &[Row],
    awards: &mut Awards,
) -> Result<(), AllocError>
    ensures { OnOk result (awards.new ≡ awards.old ++ listed (medals settings.now rows.now)) }
{
    let places = medal_places(settings);
    let gold = RanksAfter {
        before: 0,
        count: places.gold,
    };
    let silver = RanksAfter {
        before: places.gold,
        count: places.silver,
    };
    let bronze = RanksAfter {
        before: places.gold + places.silver,
        count: places.bronze,
    };
    add(
        awards,
        medal(alloc, "gold-medal", "Gold medal", gold, rows)?,
    )?;
    add(
        awards,
        medal(alloc, "silver-medal", "Silver medal", silver, rows)?,
    )?;
    add(
        awards,
        medal(alloc, "bronze-medal", "Bronze medal", bronze, rows)?,
    )
}
