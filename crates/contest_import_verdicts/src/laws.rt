//! Laws of imported verdicts: functions that do nothing, and whose contracts say what holds of
//! every file.
ghost use Rattle.contest_import_verdicts.specs.Laws.{VerdictsAddNothingAgain, VerdictsAreAddable};

/// The rows that a file of verdicts adds may be added to a valid contest, one after the other.
pub fn verdicts_are_addable()
    ensures { VerdictsAreAddable }
{}

/// A file of verdicts that was imported adds nothing to the contest then, whenever it is imported
/// again.
pub fn verdicts_add_nothing_again()
    ensures { VerdictsAddNothingAgain }
{}
