//! The words of `import`.
ghost use Rattle.std.specs.Prelude.{◌≡◌, true};
ghost use Rattle.contest_cli_words.specs.CommandErrors.{IsWordsOrMemory, SaysOrMemory};
ghost use Rattle.contest_cli_words.specs.CommandTable.{app_in, wants_words};
ghost use Rattle.contest_cli_words.specs.ImportWords.{import_app, import_wanted, no_kind};

use crate::command_table::{CommandTable, WordKind, WordRow};
use crate::{CommandError, CommandWords, word_in};
use clap::ArgMatches;
use contest_types::ImportKind;
use std::alloc::{AllocError, Global};

/// What the words of `import` name.
#[derive(Clone, Copy)]
pub struct ImportWords<'a> {
    /// The file that keeps the contest.
    pub file: &'a str,
    /// What is imported.
    pub kind: ImportKind,
    /// The file that is imported.
    pub path: &'a str,
}

static ROWS: [WordRow; 3] = [
    WordRow {
        name: "FILE",
        kind: WordKind::Word,
        help: "Keeps the contest, as 'desk init' made it",
    },
    WordRow {
        name: "KIND",
        kind: WordKind::Word,
        help: "Says what PATH holds: judgement-types, languages, problems, groups or teams as JSON, \
         teams-csv, accounts-csv or verdicts-csv",
    },
    WordRow {
        name: "PATH",
        kind: WordKind::Word,
        help: "Holds the rows to add",
    },
];

impl<'a> CommandWords<'a> for ImportWords<'a> {
    ghost use Rattle.contest_cli_words.specs.ImportWords.{NamesImport, import_app, import_wanted};

    ghost app = { import_app };

    ghost wanted = { import_wanted };

    ghost names = { NamesImport };

    #[tactic(auto, using(crate::proofs::CommandLemmas::import_wants), unfolding(crate::specs::ImportWords::import_app))]
    fn command() -> CommandTable<'a>
        ensures table { app_in result ≡ import_app }
        ensures wants { wants_words import_wanted import_app ≡ true }
    {
        CommandTable {
            name: "import",
            called: "desk import",
            about: "Adds all rows of a file to a contest, or none, and prints how many they are",
            rows: &ROWS,
        }
    }

    fn named(alloc: Global, values: &ArgMatches<'a>) -> Result<ImportWords<'a>, CommandError> {
        let name = word_in(values, "KIND");
        match ImportKind::named(name) {
            Some(kind) => Ok(ImportWords {
                file: word_in(values, "FILE"),
                kind,
                path: word_in(values, "PATH"),
            }),
            None => Err(no_kind(alloc, name)),
        }
    }
}

// What is said of a word that names no kind.
fn no_kind(alloc: Global, name: &str) -> CommandError
    ensures words { IsWordsOrMemory result }
    ensures said { SaysOrMemory (no_kind name.now) result }
{
    match format!(in alloc;
        "error: '{name}' of '<KIND>' is no kind of file: judgement-types, languages, problems, groups, \
         teams, teams-csv, accounts-csv or verdicts-csv\n"
    ) {
        Ok(message) => CommandError::Usage(message),
        Err(AllocError) => CommandError::from(AllocError),
    }
}
