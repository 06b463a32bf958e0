//! The files that the words of a command name, for who explains its refusal.

use contest_cli_audit::AuditWords;
use contest_cli_explain::Asked;
use contest_cli_words::{
    AwardsWords, BoardWords, CommandWords, ExportWords, FeedWords, ImportWords, InitWords,
    ServeWords, UpgradeWords,
};

/// What the words of a command name.
pub(crate) trait AskedWords<'a>: CommandWords<'a> {
    /// The command, by its files.
    fn asked(&self) -> Asked<'_>;
}

impl<'a> AskedWords<'a> for AuditWords<'a> {
    fn asked(&self) -> Asked<'_> {
        Asked::Audit {
            against: self.against,
        }
    }
}

impl<'a> AskedWords<'a> for InitWords<'a> {
    fn asked(&self) -> Asked<'_> {
        Asked::Init {
            file: self.file,
            contest: self.contest,
        }
    }
}

impl<'a> AskedWords<'a> for ImportWords<'a> {
    fn asked(&self) -> Asked<'_> {
        Asked::Import {
            file: self.file,
            kind: self.kind,
            path: self.path,
        }
    }
}

impl<'a> AskedWords<'a> for BoardWords<'a> {
    fn asked(&self) -> Asked<'_> {
        Asked::Kept { file: self.file }
    }
}

impl<'a> AskedWords<'a> for AwardsWords<'a> {
    fn asked(&self) -> Asked<'_> {
        Asked::Kept { file: self.file }
    }
}

impl<'a> AskedWords<'a> for ExportWords<'a> {
    fn asked(&self) -> Asked<'_> {
        Asked::Kept { file: self.file }
    }
}

impl<'a> AskedWords<'a> for FeedWords<'a> {
    fn asked(&self) -> Asked<'_> {
        Asked::Kept { file: self.file }
    }
}

impl<'a> AskedWords<'a> for ServeWords<'a> {
    fn asked(&self) -> Asked<'_> {
        Asked::Kept { file: self.file }
    }
}

impl<'a> AskedWords<'a> for UpgradeWords<'a> {
    fn asked(&self) -> Asked<'_> {
        Asked::Kept { file: self.file }
    }
}
