//! Who looks at a text of a contest, and at the board of which group.
ghost use Rattle.std.specs.Prelude.{◌≡◌, ◌⊎◌, Some, None, IfErr, IfOk, true};
ghost use Rattle.std.specs.Option.{option_map};
ghost use Rattle.contest_types.specs.Masks.{is_audience};
ghost use Rattle.contest_view.specs.Scoreboards.{has_group};
ghost use Rattle.contest_cli_words.specs.CommandErrors.{IsMemory, IsWords, IsWordsOrMemory};
ghost use Rattle.contest_cli_words.specs.CommandErrors.{SaysOrMemory};
ghost use Rattle.contest_cli_commands.specs.Looking.{audience_of, group_id_of, group_of, is_there};
ghost use Rattle.contest_cli_commands.specs.Looking.{look_of, no_group, no_team, who_of};

use contest_cli_words::{AskedText, CommandError, Who};
use contest_types::{Audience, Settings};
use std::alloc::{AllocError, Global};

/// Who looks, and at what.
#[derive(Clone, Copy)]
pub struct Look {
    /// Who looks.
    pub audience: Audience,
    /// The place in the settings, from 0, of the group whose board it is; none for all teams.
    pub group: Option<usize>,
}

/// Who looks, and at which group's board. The error is that no team or no group has the id, or want
/// of memory.
pub(crate) fn look_of(
    alloc: Global,
    settings: &Settings,
    asked: AskedText<'_>,
) -> Result<Look, CommandError>
    ensures ok { IfOk result (λ l. look_of settings.now asked.entry ≡ Some l) }
    ensures there { IfOk result (λ l. is_there settings.now l ≡ true) }
    ensures err { IfErr result (λ stop. IsMemory stop ⊎ (IsWords stop × (look_of settings.now asked.entry ≡ None))) }
{
    let audience = audience_of(alloc, settings, who_of(asked))?;
    let group = group_of(alloc, settings, group_id_of(asked))?;
    Ok(Look { audience, group })
}

fn who_of(asked: AskedText<'_>) -> Who<'_>
    ensures { result ≡ who_of asked.entry }
{
    match asked {
        AskedText::Board(asked) => asked.who,
        AskedText::Awards(who) => who,
    }
}

/// The audience that looks. The error is that no team has the id, or want of memory.
pub(crate) fn audience_of(
    alloc: Global,
    settings: &Settings,
    who: Who<'_>,
) -> Result<Audience, CommandError>
    ensures ok { IfOk result (λ audience. audience_of settings.now who.entry ≡ Some audience) }
    ensures there { IfOk result (λ audience. is_audience settings.now audience ≡ true) }
    ensures err { IfErr result (λ stop. IsMemory stop ⊎ (IsWords stop × (audience_of settings.now who.entry ≡ None))) }
{
    match who {
        Who::Public => Ok(Audience::Public),
        Who::Jury => Ok(Audience::Jury),
        Who::Team(id) => match settings.team_place(id.as_bytes()) {
            Some(place) => Ok(Audience::Team(place + 1)),
            None => Err(no_team(alloc, id)),
        },
    }
}

// What is said of an id that no team has.
fn no_team(alloc: Global, id: &str) -> CommandError
    ensures words { IsWordsOrMemory result }
    ensures said { SaysOrMemory (no_team id.now) result }
{
    match format!(in alloc; "error: '{id}' of '--audience' is no team's id\n") {
        Ok(message) => CommandError::Usage(message),
        Err(AllocError) => CommandError::from(AllocError),
    }
}

fn group_id_of(asked: AskedText<'_>) -> Option<&str>
    ensures { option_map (λ id. id.now) result ≡ group_id_of asked.entry }
{
    match asked {
        AskedText::Board(asked) => asked.group,
        AskedText::Awards(_) => None,
    }
}

// The place of the group with an id, where one is given. The error is that no group has it, or want
// of memory.
fn group_of(
    alloc: Global,
    settings: &Settings,
    id: Option<&str>,
) -> Result<Option<usize>, CommandError>
    ensures ok { IfOk result (λ group. group_of settings.now (option_map (λ s. s.now) id.entry) ≡ Some group) }
    ensures there { IfOk result (λ group. has_group settings.now group ≡ true) }
    ensures err { IfErr result (λ stop. IsMemory stop ⊎ (IsWords stop × (group_of settings.now (option_map (λ s. s.now) id.entry) ≡ None))) }
{
    let Some(id) = id else {
        return Ok(None);
    };
    match settings.group_place(id.as_bytes()) {
        Some(place) => Ok(Some(place)),
        None => Err(no_group(alloc, id)),
    }
}

// What is said of an id that no group has.
fn no_group(alloc: Global, id: &str) -> CommandError
    ensures words { IsWordsOrMemory result }
    ensures said { SaysOrMemory (no_group id.now) result }
{
    match format!(in alloc; "error: '{id}' of '--group' is no group's id\n") {
        Ok(message) => CommandError::Usage(message),
        Err(AllocError) => CommandError::from(AllocError),
    }
}
