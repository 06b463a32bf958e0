//! The words of `feed`.
ghost use Rattle.std.specs.Prelude.{◌≡◌, true};
ghost use Rattle.contest_cli_words.specs.CommandTable.{app_in, only_file, wants_words};
ghost use Rattle.contest_cli_words.specs.FeedWords.{feed_app};

use crate::asked_board::{Who, who_in};
use crate::asked_moment::moment_in;
use crate::command_table::{CommandTable, WordKind, WordRow};
use crate::{CommandError, CommandWords, value_in, word_in};
use clap::ArgMatches;
use contest_types::Moment;
use std::alloc::Global;

/// What the words of `feed` name.
#[derive(Clone, Copy)]
pub struct FeedWords<'a> {
    /// The file that keeps the contest.
    pub file: &'a str,
    /// Who is served the feed.
    pub who: Who<'a>,
    /// The moment that is asked for; none leaves it to the clock.
    pub at: Option<Moment>,
}

static ROWS: [WordRow; 3] = [
    WordRow {
        name: "FILE",
        kind: WordKind::Word,
        help: "Keeps the contest, as 'desk init' made it",
    },
    WordRow {
        name: "audience",
        kind: WordKind::Option("WHO"),
        help: "Writes what they are served: public, jury or a team's id [default: public]",
    },
    WordRow {
        name: "at",
        kind: WordKind::Option("TIME"),
        help: "Writes it as of this moment, as 2024-03-02T10:30:00Z [default: now]",
    },
];

impl<'a> CommandWords<'a> for FeedWords<'a> {
    ghost use Rattle.contest_cli_words.specs.CommandTable.{only_file};
    ghost use Rattle.contest_cli_words.specs.FeedWords.{NamesFeed, feed_app};

    ghost app = { feed_app };

    ghost wanted = { only_file };

    ghost names = { NamesFeed };

    #[tactic(auto, using(crate::proofs::CommandLemmas::feed_wants), unfolding(crate::specs::FeedWords::feed_app))]
    fn command() -> CommandTable<'a>
        ensures table { app_in result ≡ feed_app }
        ensures wants { wants_words only_file feed_app ≡ true }
    {
        CommandTable {
            name: "feed",
            called: "desk feed",
            about: "Writes the event feed of a contest as somebody is served it",
            rows: &ROWS,
        }
    }

    fn named(alloc: Global, values: &ArgMatches<'a>) -> Result<FeedWords<'a>, CommandError> {
        let who = who_in(value_in(values, "audience"));
        let at = moment_in(alloc, value_in(values, "at"))?;
        Ok(FeedWords {
            file: word_in(values, "FILE"),
            who,
            at,
        })
    }
}
