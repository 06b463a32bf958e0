//! The words of `replay`.
ghost use Rattle.std.specs.Prelude.{◌≡◌, ◌⊎◌, [], ℤ, IfErr, IfNone, IfOk, IfSome, option_map, true};
ghost use Rattle.contest_cli_replay.specs.Asked.{IsContestTime, ShowsNone, ShowsTime, replay_app};
ghost use Rattle.contest_cli_words.specs.CommandErrors.{IsMemory, IsWords};
ghost use Rattle.contest_cli_words.specs.CommandTable.{app_in, wants_words};

use clap::ArgMatches;
use contest_cli_words::{
    CommandError, CommandTable, CommandWords, WordKind, WordRow, has_flag, value_in,
};
use contest_types::RelTime;
use std::alloc::{AllocError, Global};

/// What the words of `replay` ask for.
#[derive(Clone, Copy)]
pub struct ReplayWords {
    /// The jury's board, in place of the public's.
    pub jury: bool,
    /// The board as it is after the thaw.
    pub thawed: bool,
    /// The contest time of the board; none is the end.
    pub at: Option<RelTime>,
}

static ROWS: [WordRow; 3] = [
    WordRow {
        name: "jury",
        kind: WordKind::Flag,
        help: "Shows the jury's board in place of the public's",
    },
    WordRow {
        name: "thawed",
        kind: WordKind::Flag,
        help: "Shows the board as it is after the thaw",
    },
    WordRow {
        name: "at",
        kind: WordKind::Option("RELTIME"),
        help: "Shows the board at this contest time, h:mm:ss or h:mm:ss.uuu [default: the end]",
    },
];

impl<'a> CommandWords<'a> for ReplayWords {
    ghost use Rattle.std.specs.Prelude.{[]};
    ghost use Rattle.contest_cli_replay.specs.Asked.{NamesReplay, replay_app};

    ghost app = { replay_app };

    ghost wanted = { [] };

    ghost names = { NamesReplay };

    #[tactic(auto, using(crate::proofs::ReplayWordLemmas::replay_wants), unfolding(crate::specs::Asked::replay_app))]
    fn command() -> CommandTable<'a>
        ensures table { app_in result ≡ replay_app }
        ensures wants { wants_words [] replay_app ≡ true }
    {
        CommandTable {
            name: "replay",
            called: "desk replay",
            about: "Reads a contest as CSV on standard input and prints its board",
            rows: &ROWS,
        }
    }

    fn named(alloc: Global, values: &ArgMatches<'a>) -> Result<ReplayWords, CommandError> {
        let at = time_in(alloc, value_in(values, "at"))?;
        Ok(ReplayWords {
            jury: has_flag(values, "jury"),
            thawed: has_flag(values, "thawed"),
            at,
        })
    }
}

// The contest time that the words ask for.
fn time_in(alloc: Global, text: Option<&str>) -> Result<Option<RelTime>, CommandError>
    ensures ok { IfOk result (ShowsTime (option_map (λ s. s.now) text.entry)) }
    ensures err { IfErr result (λ stop. IsMemory stop ⊎ (IsWords stop × ShowsNone (option_map (λ s. s.now) text.entry))) }
{
    let Some(text) = text else {
        return Ok(None);
    };
    match contest_time(text) {
        Some(time) => Ok(Some(time)),
        None => Err(no_time(alloc, text)),
    }
}

// The contest time that a text shows; none below zero.
fn contest_time(text: &str) -> Option<RelTime>
    ensures found { IfSome result (IsContestTime text.now) }
    ensures none { IfNone result ((time : ℤ) → IsContestTime text.now time → ⊥) }
{
    match RelTime::parse(text) {
        Some(time) => {
            if time.milliseconds() < 0 {
                return None;
            }
            Some(time)
        }
        None => None,
    }
}

// What is said of a text that shows no contest time.
fn no_time(alloc: Global, text: &str) -> CommandError
    ensures { IsMemory result ⊎ IsWords result }
{
    match format!(in alloc;
        "error: '{text}' of '--at' is no contest time: h:mm:ss or h:mm:ss.uuu, zero or more\n"
    ) {
        Ok(message) => CommandError::Usage(message),
        Err(AllocError) => CommandError::from(AllocError),
    }
}
