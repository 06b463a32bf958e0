//! Laws of rows: functions that do nothing, and whose contracts say that a contest and its tables
//! are one to one.
ghost use Rattle.contest_store_rows.specs.Clarifications.{clarification_in};
ghost use Rattle.contest_store_rows.specs.Laws.{IsWritableClarification, IsWritableProposal};
ghost use Rattle.contest_store_rows.specs.Laws.{IsWritableRelease, ListsReadBack, ListsWriteBack};
ghost use Rattle.contest_store_rows.specs.Laws.{ReadsBack, RejudgingsReadBack, RejudgingsWriteBack};
ghost use Rattle.contest_store_rows.specs.Laws.{SubmissionsReadBack, SubmissionsWriteBack};
ghost use Rattle.contest_store_rows.specs.Laws.{WritesBack};
ghost use Rattle.contest_store_rows.specs.ListRows.{clarification_row, proposal_row, release_row};
ghost use Rattle.contest_store_rows.specs.Proposals.{proposal_in};
ghost use Rattle.contest_store_rows.specs.Releases.{release_in};
ghost use Rattle.contest_store_rows.specs.Tables.{ClarificationIsOneRow, FinalizedIsOneCell};
ghost use Rattle.contest_store_rows.specs.Tables.{ProposalIsOneRow, RejudgingIsItsRows};
ghost use Rattle.contest_store_rows.specs.Tables.{ReleaseIsOneRow, StartIsOneCell, StateIsOneCell};
ghost use Rattle.contest_store_rows.specs.Tables.{SubmissionIsOneRow, ThawIsOneCell};

/// A release is read of its own row, and of no other.
pub fn releases_are_their_rows()
    ensures read { ReadsBack IsWritableRelease release_row release_in }
    ensures written { WritesBack release_row release_in }
{}

/// A proposal is read of its own row, and of no other.
pub fn proposals_are_their_rows()
    ensures read { ReadsBack IsWritableProposal proposal_row proposal_in }
    ensures written { WritesBack proposal_row proposal_in }
{}

/// A submission, without its file, is read of its own loaded row, and of no other.
pub fn submissions_are_their_rows()
    ensures read { SubmissionsReadBack }
    ensures written { SubmissionsWriteBack }
{}

/// A clarification is read of its own row, and of no other.
pub fn clarifications_are_their_rows()
    ensures read { ReadsBack IsWritableClarification clarification_row clarification_in }
    ensures written { WritesBack clarification_row clarification_in }
{}

/// Rejudgings are read of the rows of their two tables, and of no others.
pub fn rejudgings_are_their_rows()
    ensures read { RejudgingsReadBack }
    ensures written { RejudgingsWriteBack }
{}

/// A list is read of its rows, counted from 1, and of no others, where each of its elements is.
pub fn lists_are_their_rows<T>()
    ensures read { ListsReadBack T }
    ensures written { ListsWriteBack T }
{}

/// What is added to a list of a contest is one more row at the end of its table; a rejudging has
/// one more for each of its members, in theirs.
pub fn additions_are_rows()
    ensures submission { SubmissionIsOneRow }
    ensures proposal { ProposalIsOneRow }
    ensures release { ReleaseIsOneRow }
    ensures clarification { ClarificationIsOneRow }
    ensures rejudging { RejudgingIsItsRows }
{}

/// A rejudging's state and the marks of the clock are each one cell of a row that stands.
pub fn changes_are_cells()
    ensures state { StateIsOneCell }
    ensures start { StartIsOneCell }
    ensures thaw { ThawIsOneCell }
    ensures finalized { FinalizedIsOneCell }
{}
