//! The words of `board`.
ghost use Rattle.std.specs.Prelude.{◌≡◌, IfNone, IfSome, true};
ghost use Rattle.std.specs.Option.{option_map};
ghost use Rattle.contest_cli_words.specs.BoardWords.{NamesFormat, board_app, no_format};
ghost use Rattle.contest_cli_words.specs.CommandErrors.{IsWordsOrMemory, SaysOrMemory};
ghost use Rattle.contest_cli_words.specs.CommandTable.{app_in, only_file, wants_words};
ghost use Rattle.contest_cli_words.specs.declared.asked_board.BoardFormat.{BoardFormat as TheFormat};

use crate::asked_board::{AskedBoard, BoardFormat, who_in};
use crate::asked_moment::moment_in;
use crate::command_table::{CommandTable, WordKind, WordRow};
use crate::{CommandError, CommandWords, value_in, word_in};
use clap::ArgMatches;
use contest_types::Moment;
use std::alloc::{AllocError, Global};

/// What the words of `board` name.
#[derive(Clone, Copy)]
pub struct BoardWords<'a> {
    /// The file that keeps the contest.
    pub file: &'a str,
    /// The board that is asked for.
    pub asked: AskedBoard<'a>,
    /// The moment that is asked for; none leaves it to the clock.
    pub at: Option<Moment>,
}

static ROWS: [WordRow; 5] = [
    WordRow {
        name: "FILE",
        kind: WordKind::Word,
        help: "Keeps the contest, as 'desk init' made it",
    },
    WordRow {
        name: "audience",
        kind: WordKind::Option("WHO"),
        help: "Shows what they see: public, jury or a team's id [default: public]",
    },
    WordRow {
        name: "group",
        kind: WordKind::Option("GROUP"),
        help: "Shows the teams of the group with this id, ranked among each other",
    },
    WordRow {
        name: "at",
        kind: WordKind::Option("TIME"),
        help: "Shows it at this moment, as 2024-03-02T10:30:00Z [default: now]",
    },
    WordRow {
        name: "format",
        kind: WordKind::Option("FORMAT"),
        help: "Writes it as text or as csv [default: text]",
    },
];

impl<'a> CommandWords<'a> for BoardWords<'a> {
    ghost use Rattle.contest_cli_words.specs.BoardWords.{NamesBoard, board_app};
    ghost use Rattle.contest_cli_words.specs.CommandTable.{only_file};

    ghost app = { board_app };

    ghost wanted = { only_file };

    ghost names = { NamesBoard };

    #[tactic(auto, using(crate::proofs::CommandLemmas::board_wants), unfolding(crate::specs::BoardWords::board_app))]
    fn command() -> CommandTable<'a>
        ensures table { app_in result ≡ board_app }
        ensures wants { wants_words only_file board_app ≡ true }
    {
        CommandTable {
            name: "board",
            called: "desk board",
            about: "Prints the board of a contest as somebody sees it",
            rows: &ROWS,
        }
    }

    fn named(alloc: Global, values: &ArgMatches<'a>) -> Result<BoardWords<'a>, CommandError> {
        let file = word_in(values, "FILE");
        let who = who_in(value_in(values, "audience"));
        let group = value_in(values, "group");
        let at = moment_in(alloc, value_in(values, "at"))?;
        let Some(format) = format_in(value_in(values, "format")) else {
            return Err(no_format(alloc));
        };
        Ok(BoardWords {
            file,
            asked: AskedBoard { who, group, format },
            at,
        })
    }
}

// The form that is named; text where none is.
fn format_in(text: Option<&str>) -> Option<BoardFormat>
    ensures found { IfSome result (NamesFormat (option_map (λ s. s.now) text.entry)) }
    ensures none { IfNone result ((format : TheFormat) → NamesFormat (option_map (λ s. s.now) text.entry) format → ⊥) }
{
    match text {
        None => Some(BoardFormat::Text),
        Some("text") => Some(BoardFormat::Text),
        Some("csv") => Some(BoardFormat::Csv),
        Some(_) => None,
    }
}

// What is said of a form that there isn't.
fn no_format(alloc: Global) -> CommandError
    ensures words { IsWordsOrMemory result }
    ensures said { SaysOrMemory no_format result }
{
    match format!(in alloc; "error: '--format <FORMAT>' is text or csv\n") {
        Ok(message) => CommandError::Usage(message),
        Err(AllocError) => CommandError::from(AllocError),
    }
}
