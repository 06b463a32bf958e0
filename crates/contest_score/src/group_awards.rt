//! Who won each group.
ghost use Rattle.std.specs.Prelude.{◌≡◌, ℕ, ◌<◌, ◌&&◌, ◌++◌, IfOk, OnOk, All, filter, length, map};
ghost use Rattle.std.specs.Prelude.{nat_le, nat_lt};
ghost use Rattle.std.specs.List.{list_all, range_with_len};
ghost use Rattle.contest_score.specs.declared.row.Row.{Row};
ghost use Rattle.contest_score.specs.Awards.{award_to, group_order, group_winner, is_in_group};
ghost use Rattle.contest_score.specs.Awards.{listed, winners};
ghost use Rattle.contest_score.specs.AwardSteps.{is_within, lesser};
ghost use Rattle.contest_score.specs.Keys.{TellsGroup};

use crate::award::{Award, AwardText};
use crate::award_list::{Awards, add};
use crate::criterion::{Criterion, award_to};
use crate::row::Row;
use contest_types::{Group, Settings, is_of_group};
use std::alloc::{AllocError, Global};

/// What a group is ordered by: its id. The place comes last and decides nothing, since ids differ.
#[derive(PartialEq, Eq, PartialOrd, Ord, Drop)]
struct GroupKey<'a> {
    id: &'a str,
    place: usize,
}

fn group_key(groups: &[Group], place: usize) -> GroupKey<'_>
    requires { place < length groups.now }
    ensures place { result.place ≡ place }
    ensures told { TellsGroup groups.now result }
{
    GroupKey {
        id: groups[place].id.as_str(),
        place,
    }
}

fn group_keys<'a>(alloc: Global, groups: &'a [Group]) -> Result<Vec<GroupKey<'a>>, AllocError>
    ensures places { IfOk result (λ v. map (λ k. k.place) v.items ≡ range_with_len 0 (length groups.now)) }
    ensures told { IfOk result (λ v. All (TellsGroup groups.now) v.items) }
{
    let mut keys = Vec::new(alloc);
    for place in 0..groups.len() {
        keys.push(group_key(groups, place))?;
    }
    Ok(keys)
}

/// The places of the groups, from 0, by id.
fn group_order(alloc: Global, settings: &Settings) -> Result<Vec<usize>, AllocError>
    ensures order { IfOk result (λ v. v.items ≡ group_order settings.now) }
    ensures there { IfOk result (λ v. All (λ place. place < length settings.now.groups) v.items) }
{
    let mut keys = group_keys(alloc, settings.groups())?;
    keys.sort_unstable();
    let mut order = Vec::new(alloc);
    for key in &keys {
        order.push(key.place)?;
    }
    Ok(order)
}

fn is_in_group(settings: &Settings, group: usize, row: &Row) -> bool
    ensures { result ≡ is_in_group settings.now group row.now }
{
    is_of_group(settings, group, row.team)
}

/// Whether a rank isn't greater than the least one, where there is one.
fn is_within(least: Option<u32>, rank: u32) -> bool
    ensures { result ≡ is_within least rank }
{
    match least {
        None => true,
        Some(least) => rank <= least,
    }
}

/// The lesser of a rank and the least one, where there is one.
fn lesser(least: Option<u32>, rank: u32) -> u32
    ensures { result ≡ lesser least rank }
{
    match least {
        None => rank,
        Some(least) => { if least < rank { least } else { rank } }
    }
}

/// Whether a row's team is in a group and solved a problem.
fn may_lead(settings: &Settings, group: usize, row: &Row) -> bool
    ensures { result ≡ (nat_lt 0 row.now.score.solved && is_in_group settings.now group row.now) }
{
    row.score.solved > 0 && is_in_group(settings, group, row)
}

/// The least rank of the group's teams that solved a problem.
fn least_rank(settings: &Settings, rows: &[Row], group: usize) -> Option<u32>
    ensures { (rank : ℕ) → is_within result rank ≡ list_all (λ (w : Row). nat_le rank w.rank) (filter (is_in_group settings.now group) (winners rows.now)) }
{
    let mut least = None;
    for row in rows {
        if may_lead(settings, group, row) {
            least = Some(lesser(least, row.rank));
        }
    }
    least
}

/// The least rank of a group.
#[derive(Drop)]
struct LeadsGroup<'a> {
    settings: &'a Settings,
    group: usize,
    least: Option<u32>,
}

impl Criterion for LeadsGroup<'_> {
    ghost is_met = { λ t r. is_in_group t.settings.now t.group r && is_within t.least r.rank };

    fn is_met(&self, row: &Row) -> bool {
        is_in_group(self.settings, self.group, row) && is_within(self.least, row.rank)
    }
}

/// The award of the group at a place.
fn group_winner(
    alloc: Global,
    settings: &Settings,
    rows: &[Row],
    place: usize,
) -> Result<Award, AllocError>
    requires { place < length settings.now.groups }
    ensures { IfOk result (λ w. w ≡ group_winner settings.now rows.now place) }
{
    let group = &settings.groups()[place];
    let id = AwardText::joined(alloc, "group-winner-", group.id.as_str())?;
    let citation = AwardText::joined(alloc, "Winner of group ", group.name.as_str())?;
    let leads = LeadsGroup {
        settings,
        group: place,
        least: least_rank(settings, rows, place),
    };
    award_to(alloc, id, citation, rows, &leads)
}

/// Adds the awards of the groups, by id.
pub fn add_group_winners(
    alloc: Global,
    settings: &Settings,
    rows: &[Row],
    awards: &mut Awards,
) -> Result<(), AllocError>
    ensures { OnOk result (awards.new ≡ awards.old ++ listed (map (group_winner settings.now rows.now) (group_order settings.now))) }
{
    let order = group_order(alloc, settings)?;
    for place in &order {
        add(awards, group_winner(alloc, settings, rows, *place)?)?;
    }
    Ok(())
}
