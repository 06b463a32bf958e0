//! The words of `upgrade`.
ghost use Rattle.std.specs.Prelude.{◌≡◌, true};
ghost use Rattle.contest_cli_words.specs.CommandTable.{app_in, only_file, wants_words};
ghost use Rattle.contest_cli_words.specs.UpgradeWords.{upgrade_app};

use crate::command_table::{CommandTable, WordKind, WordRow};
use crate::{CommandError, CommandWords, word_in};
use clap::ArgMatches;
use std::alloc::Global;

/// What the words of `upgrade` name.
#[derive(Clone, Copy)]
pub struct UpgradeWords<'a> {
    /// The file that keeps the contest.
    pub file: &'a str,
}

static ROWS: [WordRow; 1] = [WordRow {
    name: "FILE",
    kind: WordKind::Word,
    help: "Keeps the contest, as 'desk init' made it",
}];

impl<'a> CommandWords<'a> for UpgradeWords<'a> {
    ghost use Rattle.contest_cli_words.specs.CommandTable.{only_file};
    ghost use Rattle.contest_cli_words.specs.UpgradeWords.{NamesUpgrade, upgrade_app};

    ghost app = { upgrade_app };

    ghost wanted = { only_file };

    ghost names = { NamesUpgrade };

    #[tactic(auto, using(crate::proofs::CommandLemmas::upgrade_wants), unfolding(crate::specs::UpgradeWords::upgrade_app))]
    fn command() -> CommandTable<'a>
        ensures table { app_in result ≡ upgrade_app }
        ensures wants { wants_words only_file upgrade_app ≡ true }
    {
        CommandTable {
            name: "upgrade",
            called: "desk upgrade",
            about: "Makes a file of the first schema one of the schema of today",
            rows: &ROWS,
        }
    }

    fn named(_: Global, values: &ArgMatches<'a>) -> Result<UpgradeWords<'a>, CommandError> {
        Ok(UpgradeWords {
            file: word_in(values, "FILE"),
        })
    }
}
