//! The words of `awards`.
ghost use Rattle.std.specs.Prelude.{◌≡◌, true};
ghost use Rattle.contest_cli_words.specs.AwardsWords.{awards_app};
ghost use Rattle.contest_cli_words.specs.CommandTable.{app_in, only_file, wants_words};

use crate::asked_moment::moment_in;
use crate::command_table::{CommandTable, WordKind, WordRow};
use crate::{CommandError, CommandWords, has_flag, value_in, word_in};
use clap::ArgMatches;
use contest_types::Moment;
use std::alloc::Global;

/// What the words of `awards` name.
#[derive(Clone, Copy)]
pub struct AwardsWords<'a> {
    /// The file that keeps the contest.
    pub file: &'a str,
    /// The awards that the jury is shown, in place of those that anyone is.
    pub jury: bool,
    /// The moment that is asked for; none leaves it to the clock.
    pub at: Option<Moment>,
}

static ROWS: [WordRow; 3] = [
    WordRow {
        name: "FILE",
        kind: WordKind::Word,
        help: "Keeps the contest, as 'desk init' made it",
    },
    WordRow {
        name: "jury",
        kind: WordKind::Flag,
        help: "Prints what the jury is shown in place of anyone",
    },
    WordRow {
        name: "at",
        kind: WordKind::Option("TIME"),
        help: "Prints them as of this moment, as 2024-03-02T10:30:00Z [default: now]",
    },
];

impl<'a> CommandWords<'a> for AwardsWords<'a> {
    ghost use Rattle.contest_cli_words.specs.AwardsWords.{NamesAwards, awards_app};
    ghost use Rattle.contest_cli_words.specs.CommandTable.{only_file};

    ghost app = { awards_app };

    ghost wanted = { only_file };

    ghost names = { NamesAwards };

    #[tactic(auto, using(crate::proofs::CommandLemmas::awards_wants), unfolding(crate::specs::AwardsWords::awards_app))]
    fn command() -> CommandTable<'a>
        ensures table { app_in result ≡ awards_app }
        ensures wants { wants_words only_file awards_app ≡ true }
    {
        CommandTable {
            name: "awards",
            called: "desk awards",
            about: "Prints the awards of a contest, once somebody is shown them",
            rows: &ROWS,
        }
    }

    fn named(alloc: Global, values: &ArgMatches<'a>) -> Result<AwardsWords<'a>, CommandError> {
        let at = moment_in(alloc, value_in(values, "at"))?;
        Ok(AwardsWords {
            file: word_in(values, "FILE"),
            jury: has_flag(values, "jury"),
            at,
        })
    }
}
