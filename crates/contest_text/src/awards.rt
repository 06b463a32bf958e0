//! The awards as text.
ghost use Rattle.std.specs.Prelude.{◌≡◌, ◌++◌, OnOk, IfOk, codes, string_bytes};
ghost use Rattle.std.specs.List.{flat_map};
ghost use Rattle.contest_text.specs.AwardsText.{award_line, awards_text, names_text, next_name};

use contest_score::Award;
use contest_types::Settings;
use std::alloc::{AllocError, Global};

/// The text of awards to teams of these settings: for each a line with its id, its citation and the
/// names of its teams.
///
/// # Errors
///
/// Want of memory alone.
pub fn awards_text(
    alloc: Global,
    settings: &Settings,
    awards: &[Award],
) -> Result<String, AllocError>
    ensures { IfOk result (λ text. string_bytes text ≡ awards_text settings.now awards.now) }
{
    let mut out = String::new(alloc);
    for award in awards {
        push_award(&mut out, settings, award)?;
    }
    Ok(out)
}

fn push_award(out: &mut String, settings: &Settings, award: &Award) -> Result<(), AllocError>
    ensures { OnOk result (string_bytes out.new ≡ string_bytes out.old ++ award_line settings.now award.now) }
{
    out.push_str(award.id.as_str())?;
    out.push_str(": ")?;
    out.push_str(award.citation.as_str())?;
    out.push_str(": ")?;
    push_names(out, settings, award.teams.as_slice())?;
    out.push_str("\n")
}

/// Pushes the names of the teams at these places, with commas between them.
fn push_names(out: &mut String, settings: &Settings, teams: &[usize]) -> Result<(), AllocError>
    ensures { OnOk result (string_bytes out.new ≡ string_bytes out.old ++ names_text settings.now teams.now) }
{
    match teams.split_first() {
        Some((first, others)) => {
            out.push_str(settings.team_name(*first))?;
            push_next_names(out, settings, others)
        }
        None => Ok(()),
    }
}

fn push_next_names(out: &mut String, settings: &Settings, teams: &[usize]) -> Result<(), AllocError>
    ensures { OnOk result (string_bytes out.new ≡ string_bytes out.old ++ flat_map (next_name settings.now) teams.now) }
{
    for team in teams {
        push_next_name(out, settings.team_name(*team))?;
    }
    Ok(())
}

fn push_next_name(out: &mut String, name: &str) -> Result<(), AllocError>
    ensures { OnOk result (string_bytes out.new ≡ string_bytes out.old ++ (codes ", " ++ name.now)) }
{
    out.push_str(", ")?;
    out.push_str(name)
}
