//! The kinds of files that are imported.
ghost use Rattle.std.specs.Prelude.{◌≡◌};
ghost use Rattle.contest_types.specs.ImportKinds.{kind_named};
ghost use Rattle.contest_types.specs.declared.import_kind.FixedKind.TheVariants.{Settings};
ghost use Rattle.contest_types.specs.declared.import_kind.ImportKind.TheVariants.{Fixed};

/// What a JSON file of settings lists.
#[derive(Clone, Copy, PartialEq, Eq)]
pub enum SettingsKind {
    /// Judgement types.
    JudgementTypes,
    /// Languages.
    Languages,
    /// Problems.
    Problems,
    /// Groups.
    Groups,
    /// Teams.
    Teams,
}

/// What a file of the contest's fixed part holds, and in which form.
#[derive(Clone, Copy, PartialEq, Eq)]
pub enum FixedKind {
    /// Settings, as JSON.
    Settings(SettingsKind),
    /// Teams, as CSV.
    TeamsCsv,
    /// Accounts, as CSV.
    AccountsCsv,
}

/// What a file holds, and in which form.
#[derive(Clone, Copy, PartialEq, Eq)]
pub enum ImportKind {
    /// Rows of the fixed part: settings or accounts.
    Fixed(FixedKind),
    /// Verdicts, as CSV.
    VerdictsCsv,
}

impl ImportKind {
    /// The kind that a word names, as `teams-csv` does.
    pub fn named(word: &str) -> Option<ImportKind>
        ensures { result ≡ kind_named word.now }
    {
        match word {
            "judgement-types" => Some(settings(SettingsKind::JudgementTypes)),
            "languages" => Some(settings(SettingsKind::Languages)),
            "problems" => Some(settings(SettingsKind::Problems)),
            "groups" => Some(settings(SettingsKind::Groups)),
            "teams" => Some(settings(SettingsKind::Teams)),
            "teams-csv" => Some(ImportKind::Fixed(FixedKind::TeamsCsv)),
            "accounts-csv" => Some(ImportKind::Fixed(FixedKind::AccountsCsv)),
            "verdicts-csv" => Some(ImportKind::VerdictsCsv),
            _ => None,
        }
    }
}

// A JSON file of settings.
fn settings(kind: SettingsKind) -> ImportKind
    ensures { result ≡ Fixed (Settings kind) }
{
    ImportKind::Fixed(FixedKind::Settings(kind))
}
