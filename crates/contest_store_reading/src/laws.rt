//! Laws of the rows of a contest: functions that do nothing, and whose contracts say that its fixed
//! part, and the whole of it, and their rows are one to one.
ghost use Rattle.contest_store_reading.specs.Laws.{AccountsReadBack, AccountsWriteBack};
ghost use Rattle.contest_store_reading.specs.Laws.{FixedReadsBack, FixedWritesBack};
ghost use Rattle.contest_store_reading.specs.SpellingLaws.{ContestsReadBack, ContestsWriteBack};
ghost use Rattle.contest_store_reading.specs.SpellingLaws.{FirstContestsReadBack};

/// Accounts are read of their own rows, and of no others.
pub fn accounts_are_their_rows()
    ensures read { AccountsReadBack }
    ensures written { AccountsWriteBack }
{}

/// The settings, the accounts and the marks are read of their own rows, and of no others.
pub fn fixed_parts_are_their_rows()
    ensures read { FixedReadsBack }
    ensures written { FixedWritesBack }
{}

/// A contest is read of its own rows, and of no others, in either version of the schema.
pub fn contests_are_their_rows()
    ensures read { ContestsReadBack }
    ensures first { FirstContestsReadBack }
    ensures written { ContestsWriteBack }
{}
