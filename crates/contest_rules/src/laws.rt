//! Laws of the decisions: functions that do nothing, and whose contracts say what holds of every
//! contest.
ghost use Rattle.contest_rules.specs.Laws.{AlikeClarifyAlike, AlikeSubmitAlike, AppliedIsAddable};
ghost use Rattle.contest_rules.specs.Laws.{ClarifiedIsAddable, ClockIsAddable, ComeStays};
ghost use Rattle.contest_rules.specs.Laws.{FinalIsAddable, OpenedIsAddable, ProposedIsAddable};
ghost use Rattle.contest_rules.specs.Laws.{RejudgedIsAddable, SubmittedIsAddable};
ghost use Rattle.contest_rules.specs.Laws.{VerifiedIsAddable};

/// A submission that is taken keeps a valid contest valid.
pub fn submitted_is_addable()
    ensures { SubmittedIsAddable }
{}

/// Nothing that a team can't learn decides what becomes of its submissions.
pub fn alike_submit_alike()
    ensures { AlikeSubmitAlike }
{}

/// A verdict that is proposed, and its release, keep a valid contest valid.
pub fn proposed_is_addable()
    ensures { ProposedIsAddable }
{}

/// The release of a verdict that is verified keeps a valid contest valid.
pub fn verified_is_addable()
    ensures { VerifiedIsAddable }
{}

/// A clarification that is taken keeps a valid contest valid.
pub fn clarified_is_addable()
    ensures { ClarifiedIsAddable }
{}

/// Nothing that a team can't learn decides what becomes of what it asks: not what others ask and
/// are told, and not under which keys.
pub fn alike_clarify_alike()
    ensures { AlikeClarifyAlike }
{}

/// A rejudging that is opened keeps a valid contest valid.
pub fn opened_is_addable()
    ensures { OpenedIsAddable }
{}

/// A state that a verdict gives to a member of a rejudging keeps a valid contest valid.
pub fn rejudged_is_addable()
    ensures { RejudgedIsAddable }
{}

/// The releases of a rejudging that is applied, and its state, keep a valid contest valid.
pub fn applied_is_addable()
    ensures { AppliedIsAddable }
{}

/// A change of the clock that is taken keeps a valid contest valid, and its marks are those of the
/// contest then.
pub fn clock_is_addable()
    ensures { ClockIsAddable }
{}

/// Final results that are taken keep a valid contest valid, and the marks of this change are those
/// of the contest then.
pub fn final_is_addable()
    ensures { FinalIsAddable }
{}

/// Nobody moves a start or a thaw that has come.
pub fn come_stays()
    ensures { ComeStays }
{}
