//! What a command was asked for that was refused.

use contest_types::ImportKind;

/// A command, by the files that its words name.
#[derive(Clone, Copy)]
pub enum Asked<'a> {
    /// `replay`, of standard input.
    Replay,
    /// `audit`, of standard input.
    Audit {
        /// The file with another system's scoreboard, if one is named.
        against: Option<&'a str>,
    },
    /// `init`.
    Init {
        /// The file that is to keep the contest.
        file: &'a str,
        /// The file with the contest.
        contest: &'a str,
    },
    /// `import`.
    Import {
        /// The file that keeps the contest.
        file: &'a str,
        /// What is imported.
        kind: ImportKind,
        /// The file that is imported.
        path: &'a str,
    },
    /// Another command on a file that keeps a contest.
    Kept {
        /// That file.
        file: &'a str,
    },
}
