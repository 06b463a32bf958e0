//! A contest's results as ICPC's systems take them.
ghost use Rattle.std.specs.Prelude.{◌≡◌, ◌++◌, None, OnOk, IfOk, if◌then◌else◌, map, string_bytes};
ghost use Rattle.std.specs.List.{flat_map};
ghost use Rattle.contest_score.specs.AwardLaws.{has_award};
ghost use Rattle.contest_exports.specs.ResultsTsv.{group_of_award, group_text, has_named};
ghost use Rattle.contest_exports.specs.ResultsTsv.{last_solve_text, medal_text, next_field};
ghost use Rattle.contest_exports.specs.ResultsTsv.{result_line, results_tsv, tab_line};

use contest_score::{Award, Board, Row};
use contest_text::number_text;
use contest_types::{Minute, Settings};
use std::alloc::{AllocError, Global};

/// The file `results.tsv` of the Contest Control System Requirements, of a board of these settings
/// and of its awards: the line `results` with the version 1, and for each row of the board the
/// team's id, rank and medal, how many problems it solved, its total time and the last minute at
/// which it solved one, and the name of the first group that it won, in the order of the awards.
/// Fields have a tab between them. A team without a medal is `Ranked`, the last minute of one that
/// solved nothing is -1, and the group of one that won none is empty.
///
/// # Errors
///
/// Want of memory alone.
pub fn results_tsv(
    alloc: Global,
    settings: &Settings,
    board: &Board,
    awards: &[Award],
) -> Result<String, AllocError>
    ensures { IfOk result (λ text. string_bytes text ≡ results_tsv settings.now board.now.rows awards.now) }
{
    let mut out = String::from_str(alloc, "results\t1\n")?;
    push_results(alloc, &mut out, settings, board.rows(), awards)?;
    Ok(out)
}

/// Pushes a line for each row.
fn push_results(
    alloc: Global,
    out: &mut String,
    settings: &Settings,
    rows: &[Row],
    awards: &[Award],
) -> Result<(), AllocError>
    ensures { OnOk result (string_bytes out.new ≡ string_bytes out.old ++ flat_map (result_line settings.now awards.now) rows.now) }
{
    for row in rows {
        push_result(alloc, out, settings, row, awards)?;
    }
    Ok(())
}

fn push_result(
    alloc: Global,
    out: &mut String,
    settings: &Settings,
    row: &Row,
    awards: &[Award],
) -> Result<(), AllocError>
    ensures { OnOk result (string_bytes out.new ≡ string_bytes out.old ++ result_line settings.now awards.now row.now) }
{
    let rank = number_text(alloc, u64::from(row.rank))?;
    let solved = number_text(alloc, u64::from(row.score.solved))?;
    let time = number_text(alloc, row.score.total)?;
    let last = last_solve_text(alloc, row.score.last)?;
    let others = [
        rank.as_str(),
        medal_text(awards, row.team),
        solved.as_str(),
        time.as_str(),
        last.as_str(),
        group_text(settings, awards, row.team),
    ];
    push_line(out, settings.team_id(row.team), &others)
}

/// Pushes a line of fields.
fn push_line(out: &mut String, first: &str, others: &[&str]) -> Result<(), AllocError>
    ensures { OnOk result (string_bytes out.new ≡ string_bytes out.old ++ tab_line first.now (map (λ t. t.now) others.now)) }
{
    out.push_str(first)?;
    push_others(out, others)?;
    out.push_str("\n")
}

fn push_others(out: &mut String, others: &[&str]) -> Result<(), AllocError>
    ensures { OnOk result (string_bytes out.new ≡ string_bytes out.old ++ flat_map next_field (map (λ t. t.now) others.now)) }
{
    for text in others {
        out.push_str("\t")?;
        out.push_str(text)?;
    }
    Ok(())
}

/// The last minute at which a problem was solved, and -1 if none was.
fn last_solve_text(alloc: Global, last: Option<Minute>) -> Result<String, AllocError>
    ensures { IfOk result (λ text. string_bytes text ≡ last_solve_text last) }
{
    match last {
        Some(minute) => number_text(alloc, u64::from(minute.0)),
        None => String::from_str(alloc, "-1"),
    }
}

/// A team's medal; who has none is ranked.
fn medal_text(awards: &[Award], team: usize) -> &str
    ensures { result.now ≡ medal_text awards.now team }
{
    if has_named("gold-medal", awards, team) {
        "Gold Medal"
    } else if has_named("silver-medal", awards, team) {
        "Silver Medal"
    } else if has_named("bronze-medal", awards, team) {
        "Bronze Medal"
    } else {
        "Ranked"
    }
}

/// Whether a team has the award with an id.
fn has_named(id: &str, awards: &[Award], team: usize) -> bool
    ensures { result ≡ has_named id.now awards.now team }
{
    awards
        .iter()
        .any(|award| award.id.as_str() == id && has_award(award, team))
}

fn has_award(award: &Award, team: usize) -> bool
    ensures { result ≡ has_award team award.now }
{
    award.teams.as_slice().contains(&team)
}

/// The name of the first group that a team won, in the order of the awards; nothing if it won none.
fn group_text<'a>(settings: &'a Settings, awards: &[Award], team: usize) -> &'a str
    ensures { result.now ≡ group_text settings.now awards.now team }
{
    for award in awards {
        if let Some(group) = group_won(settings, award, team) {
            return settings.group_name(group);
        }
    }
    ""
}

/// The place of the group whose winner an award is for, if the team has it.
fn group_won(settings: &Settings, award: &Award, team: usize) -> Option<usize>
    ensures { result ≡ (if has_award team award.now then group_of_award settings.now award.now else None) }
{
    if has_award(award, team) {
        group_of_award(settings, award)
    } else {
        None
    }
}

/// The place of the group whose winner an award is for.
fn group_of_award(settings: &Settings, award: &Award) -> Option<usize>
    ensures { result ≡ group_of_award settings.now award.now }
{
    let id = award.id.as_str().as_bytes();
    match id.strip_prefix(b"group-winner-") {
        Some(group) => settings.group_place(group),
        None => None,
    }
}
