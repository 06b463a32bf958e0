//! Laws of what a change of a contest does to its tables: functions that do nothing.
ghost use Rattle.contest_store_changes.specs.Upgraded.{FirstContestsAreSound, FirstRowsAreUpgraded};
ghost use Rattle.contest_store_changes.specs.Upgraded.{FirstRowsReadBack};
ghost use Rattle.contest_store_changes.specs.Laws.{AdditionsStaySound, SoundContestsReadBack};
ghost use Rattle.contest_store_changes.specs.Laws.{ListedContestsAreSound, RowsAreTheirContests, ValidContestsAreSound};
ghost use Rattle.contest_store_changes.specs.Laws.{SubmissionIsAdded, ProposalIsAdded};
ghost use Rattle.contest_store_changes.specs.Laws.{ReleaseIsAdded, ClarificationIsAdded};
ghost use Rattle.contest_store_changes.specs.Laws.{RejudgingIsAdded, MemberIsAdded, AccountIsAdded};
ghost use Rattle.contest_store_changes.specs.Laws.{TypeIsAdded, LanguageIsAdded, GroupIsAdded};
ghost use Rattle.contest_store_changes.specs.Laws.{ProblemIsAdded, TeamIsAdded, MarksAreChanged};
ghost use Rattle.contest_store_changes.specs.Laws.{DurationIsChanged, TeamNameIsChanged};
ghost use Rattle.contest_store_changes.specs.Laws.{DigestIsChanged, RejudgingIsChanged};
ghost use Rattle.contest_store_changes.specs.Laws.{MemberIsChanged};

/// What may be added to a sound contest leaves a sound one.
pub fn additions_stay_sound()
    ensures { AdditionsStaySound }
{}

/// A sound contest is the valid one that its rows are.
pub fn sound_contests_are_read()
    ensures { SoundContestsReadBack }
{}

/// A valid contest that rows are is sound, and these are its rows; if only its lists are, the
/// cells may be any. The rows of any contest that is read are its own.
pub fn valid_contests_are_sound()
    ensures rows { RowsAreTheirContests }
    ensures whole { ValidContestsAreSound }
    ensures listed { ListedContestsAreSound }
{}

/// A new element of a list is one row.
pub fn list_additions_are_rows()
    ensures submission { SubmissionIsAdded }
    ensures proposal { ProposalIsAdded }
    ensures release { ReleaseIsAdded }
    ensures clarification { ClarificationIsAdded }
    ensures rejudging { RejudgingIsAdded }
    ensures member { MemberIsAdded }
{}

/// A new account is one row.
pub fn new_accounts_are_rows()
    ensures { AccountIsAdded }
{}

/// A new setting is one row.
pub fn new_settings_are_rows()
    ensures judgement_type { TypeIsAdded }
    ensures language { LanguageIsAdded }
    ensures group { GroupIsAdded }
    ensures problem { ProblemIsAdded }
    ensures team { TeamIsAdded }
{}

/// A change of what stands is one changed row.
pub fn changes_are_rows()
    ensures marks { MarksAreChanged }
    ensures duration { DurationIsChanged }
    ensures team_name { TeamNameIsChanged }
    ensures digest { DigestIsChanged }
    ensures rejudging { RejudgingIsChanged }
    ensures member { MemberIsChanged }
{}

/// In the first schema, too, a sound contest is the one that its rows are.
pub fn first_contests_are_read()
    ensures read { FirstRowsReadBack }
    ensures sound { FirstContestsAreSound }
{}

/// The rows that the first schema has of a contest are upgraded to those of today's.
pub fn first_rows_are_upgraded()
    ensures { FirstRowsAreUpgraded }
{}
