//! What becomes of a verdict that was released, and whose it takes.
ghost use Rattle.contest_laws.specs.Finals.{FinalResultsStay};
ghost use Rattle.contest_laws.specs.Standing.{ClosedRejudgingsStay};
ghost use Rattle.contest_laws.specs.Verdicts.{OnlyRejudgingsRevise, TwoJudgesRejudge, TwoJudgesRelease};

/// A verdict that is out is changed only by a rejudging that is applied.
pub fn only_rejudgings_revise()
    ensures { OnlyRejudgingsRevise }
{}

/// Where verification is asked for, a first verdict is released only by a judge who verifies the
/// type that another account or a file of verdicts proposed last.
pub fn two_judges_release()
    ensures { TwoJudgesRelease }
{}

/// Where verification is asked for, a member of a rejudging gets a verdict that stands only by a
/// judge who names the verdict that another account proposed for it.
pub fn two_judges_rejudge()
    ensures { TwoJudgesRejudge }
{}

/// A rejudging that was applied or cancelled stays so, with its reason and its members.
pub fn closed_rejudgings_stay()
    ensures { ClosedRejudgingsStay }
{}

/// Final results are final. Once they were made final, submissions, releases, clarifications,
/// rejudgings, start, end and the mark stay as they are, whatever is asked and imported
/// afterwards; and so do the rows of the jury's boards and the awards, unless settings were added
/// or a name was corrected.
pub fn final_results_stay()
    ensures { FinalResultsStay }
{}
