//! The words of `export`.
ghost use Rattle.std.specs.Prelude.{◌≡◌, IfNone, IfSome, true};
ghost use Rattle.std.specs.Option.{option_map};
ghost use Rattle.contest_cli_words.specs.CommandErrors.{IsWordsOrMemory, SaysOrMemory};
ghost use Rattle.contest_cli_words.specs.CommandTable.{app_in, only_file, wants_words};
ghost use Rattle.contest_cli_words.specs.ExportWords.{NamesExportFormat, export_app};
ghost use Rattle.contest_cli_words.specs.ExportWords.{no_export_format};
ghost use Rattle.contest_cli_words.specs.declared.export_words.ExportFormat.{ExportFormat as TheFormat};

use crate::command_table::{CommandTable, WordKind, WordRow};
use crate::{CommandError, CommandWords, value_in, word_in};
use clap::ArgMatches;
use std::alloc::{AllocError, Global};

/// What is exported, and how it is written.
#[derive(Clone, Copy)]
pub enum ExportFormat {
    /// All submissions, as CSV.
    Csv,
    /// The final results, as ICPC's systems take them.
    Icpc,
}

/// What the words of `export` name.
#[derive(Clone, Copy)]
pub struct ExportWords<'a> {
    /// The file that keeps the contest.
    pub file: &'a str,
    /// What is exported.
    pub format: ExportFormat,
}

static ROWS: [WordRow; 2] = [
    WordRow {
        name: "FILE",
        kind: WordKind::Word,
        help: "Keeps the contest, as 'desk init' made it",
    },
    WordRow {
        name: "format",
        kind: WordKind::Option("FORMAT"),
        help: "Writes all submissions as csv, or the final results as icpc [default: csv]",
    },
];

impl<'a> CommandWords<'a> for ExportWords<'a> {
    ghost use Rattle.contest_cli_words.specs.CommandTable.{only_file};
    ghost use Rattle.contest_cli_words.specs.ExportWords.{NamesExport, export_app};

    ghost app = { export_app };

    ghost wanted = { only_file };

    ghost names = { NamesExport };

    #[tactic(auto, using(crate::proofs::CommandLemmas::export_wants), unfolding(crate::specs::ExportWords::export_app))]
    fn command() -> CommandTable<'a>
        ensures table { app_in result ≡ export_app }
        ensures wants { wants_words only_file export_app ≡ true }
    {
        CommandTable {
            name: "export",
            called: "desk export",
            about: "Prints all submissions of a contest with their last verdicts, or its final results",
            rows: &ROWS,
        }
    }

    fn named(alloc: Global, values: &ArgMatches<'a>) -> Result<ExportWords<'a>, CommandError> {
        let file = word_in(values, "FILE");
        let Some(format) = format_in(value_in(values, "format")) else {
            return Err(no_format(alloc));
        };
        Ok(ExportWords { file, format })
    }
}

// The form that is named; CSV where none is.
fn format_in(text: Option<&str>) -> Option<ExportFormat>
    ensures found { IfSome result (NamesExportFormat (option_map (λ s. s.now) text.entry)) }
    ensures none { IfNone result ((format : TheFormat) → NamesExportFormat (option_map (λ s. s.now) text.entry) format → ⊥) }
{
    match text {
        None => Some(ExportFormat::Csv),
        Some("csv") => Some(ExportFormat::Csv),
        Some("icpc") => Some(ExportFormat::Icpc),
        Some(_) => None,
    }
}

// What is said of a form that there isn't.
fn no_format(alloc: Global) -> CommandError
    ensures words { IsWordsOrMemory result }
    ensures said { SaysOrMemory no_export_format result }
{
    match format!(in alloc; "error: '--format <FORMAT>' is csv or icpc\n") {
        Ok(message) => CommandError::Usage(message),
        Err(AllocError) => CommandError::from(AllocError),
    }
}
