//! Laws of rejudgings: functions that do nothing, and whose contracts say what holds of every
//! contest.
ghost use Rattle.contest_desk.specs.RejudgingLaws.{AppliedIsUnseen, AppliedWhole};
ghost use Rattle.contest_desk.specs.RejudgingLaws.{UnappliedIsUnseen};

/// A rejudging is applied in one step: one release for each of its members, and its state; or
/// nothing is added. So every read before it is of a contest without them, and every read after it
/// of one with all.
pub fn applied_whole()
    ensures { AppliedWhole }
{}

/// While a rejudging isn't applied no audience can notice it: not that it is opened, judged or
/// cancelled.
pub fn unapplied_is_unseen()
    ensures { UnappliedIsUnseen }
{}

/// An audience can't notice that a rejudging is applied whose members are other teams' submissions,
/// if each of them is frozen or its team is hidden.
pub fn applied_is_unseen()
    ensures { AppliedIsUnseen }
{}
