//! Laws of imported verdicts: functions that do nothing, and whose contracts say what holds of
//! every contest.
ghost use Rattle.contest_desk.specs.VerdictLaws.{ImportedVerdictsAreUnseen};
ghost use Rattle.contest_desk.specs.VerdictLaws.{PendingVerdictsAreUnseen};

/// An audience can't notice that verdicts are imported for others' frozen submissions, or for those
/// of hidden teams.
pub fn imported_verdicts_are_unseen()
    ensures { ImportedVerdictsAreUnseen }
{}

/// An audience can't notice that verdicts are imported which somebody has to verify first.
pub fn pending_verdicts_are_unseen()
    ensures { PendingVerdictsAreUnseen }
{}
