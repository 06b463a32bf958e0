//! The words of `audit`.
ghost use Rattle.std.specs.Prelude.{◌≡◌, [], true};
ghost use Rattle.contest_cli_audit.specs.Asked.{audit_app};
ghost use Rattle.contest_cli_words.specs.CommandTable.{app_in, wants_words};

use clap::ArgMatches;
use contest_cli_replay::ReplayWords;
use contest_cli_words::{CommandError, CommandTable, CommandWords, WordKind, WordRow, value_in};
use std::alloc::Global;

/// What the words of `audit` ask for.
#[derive(Clone, Copy)]
pub struct AuditWords<'a> {
    /// The board, as `replay` is asked for one.
    pub board: ReplayWords,
    /// The file with the scoreboard that it is held beside; none is to print the board.
    pub against: Option<&'a str>,
}

static ROWS: [WordRow; 4] = [
    WordRow {
        name: "jury",
        kind: WordKind::Flag,
        help: "Shows the jury's board in place of the public's",
    },
    WordRow {
        name: "thawed",
        kind: WordKind::Flag,
        help: "Shows the board as it is after the thaw",
    },
    WordRow {
        name: "at",
        kind: WordKind::Option("RELTIME"),
        help: "Shows the board at this contest time, h:mm:ss or h:mm:ss.uuu [default: the end]",
    },
    WordRow {
        name: "against",
        kind: WordKind::Option("PATH"),
        help: "Prints in place of the board how it differs from the scoreboard of the Contest API in \
         this file; where it does, the status is 3",
    },
];

impl<'a> CommandWords<'a> for AuditWords<'a> {
    ghost use Rattle.std.specs.Prelude.{[]};
    ghost use Rattle.contest_cli_audit.specs.Asked.{NamesAudit, audit_app};

    ghost app = { audit_app };

    ghost wanted = { [] };

    ghost names = { NamesAudit };

    #[tactic(auto, using(crate::proofs::AuditWordLemmas::audit_wants), unfolding(crate::specs::Asked::audit_app))]
    fn command() -> CommandTable<'a>
        ensures table { app_in result ≡ audit_app }
        ensures wants { wants_words [] audit_app ≡ true }
    {
        CommandTable {
            name: "audit",
            called: "desk audit",
            about: "Reads a contest's event feed on standard input and prints its board",
            rows: &ROWS,
        }
    }

    fn named(alloc: Global, values: &ArgMatches<'a>) -> Result<AuditWords<'a>, CommandError> {
        match ReplayWords::named(alloc, values) {
            Ok(board) => Ok(AuditWords {
                board,
                against: value_in(values, "against"),
            }),
            Err(stop) => Err(stop),
        }
    }
}
