//! Laws of the desk's steps: functions that do nothing, and whose contracts say what holds of every
//! contest.
ghost use Rattle.contest_operations.specs.Laws.{HeadIsGet, PostsAlike, ReadsAlike, RoutesRead};
ghost use Rattle.contest_operations.specs.Laws.{StepAlike, StepsKeepValid, StepsNeverFail};

/// Until the thaw, valid contests with equal settings, accounts and marks that agree on all that a
/// caller may learn answer each of its requests byte for byte alike, and agree on it afterwards.
pub fn step_alike()
    ensures { StepAlike }
{}

/// Until the thaw, what an audience reads tells nothing that it may not learn: what it doesn't see
/// is as what isn't there.
pub fn reads_alike()
    ensures { ReadsAlike }
{}

/// What becomes of what a team posts tells nothing that the team may not learn: of all submissions,
/// its own alone decide the number, the time, the repeats and the refusals of one that it posts.
pub fn posts_alike()
    ensures { PostsAlike }
{}

/// HEAD is answered as GET is; who writes the reply leaves out the body's bytes.
pub fn head_is_get()
    ensures { HeadIsGet }
{}

/// A step leaves a valid contest valid.
pub fn steps_keep_valid()
    ensures { StepsKeepValid }
{}

/// No step answers that the store failed or that memory was refused: those answers are the desk's
/// own, and say that nothing was done.
pub fn steps_never_fail()
    ensures { StepsNeverFail }
{}

/// A path is offered what the row of the table of routes offers by which it goes, piece by piece
/// between its slashes: a name in braces stands for any piece that isn't empty, every other piece
/// for itself. By no row nothing is offered.
pub fn routes_read()
    ensures { RoutesRead }
{}
