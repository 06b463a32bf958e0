//! The moment that a command is asked for.
ghost use Rattle.std.specs.Prelude.{◌⊎◌, IfErr, IfOk};
ghost use Rattle.std.specs.Option.{option_map};
ghost use Rattle.contest_cli_words.specs.AskedMoment.{NamesMoment, NamesNoMoment, no_moment};
ghost use Rattle.contest_cli_words.specs.CommandErrors.{IsMemory, IsWords, IsWordsOrMemory};
ghost use Rattle.contest_cli_words.specs.CommandErrors.{SaysOrMemory};

use crate::CommandError;
use contest_types::Moment;
use std::alloc::{AllocError, Global};

/// The moment that is named, if one is. The error is what is said of a text that shows none, or
/// want of memory.
pub(crate) fn moment_in(alloc: Global, text: Option<&str>) -> Result<Option<Moment>, CommandError>
    ensures ok { IfOk result (NamesMoment (option_map (λ s. s.now) text.entry)) }
    ensures err { IfErr result (λ stop. IsMemory stop ⊎ (IsWords stop × NamesNoMoment (option_map (λ s. s.now) text.entry))) }
{
    let Some(text) = text else {
        return Ok(None);
    };
    match Moment::parse(text)? {
        Some(moment) => Ok(Some(moment)),
        None => Err(no_moment(alloc, text)),
    }
}

// What is said of a text that shows no moment.
fn no_moment(alloc: Global, text: &str) -> CommandError
    ensures words { IsWordsOrMemory result }
    ensures said { SaysOrMemory (no_moment text.now) result }
{
    match format!(in alloc; "error: '{text}' of '--at' is no moment, as 2024-03-02T10:30:00Z\n") {
        Ok(message) => CommandError::Usage(message),
        Err(AllocError) => CommandError::from(AllocError),
    }
}
