//! Laws of two contests side by side: functions that do nothing, and whose contracts say what holds
//! of any two.
ghost use Rattle.contest_desk.specs.Moves.{MovesStayAlike};
ghost use Rattle.contest_desk.specs.TwoRuns.{RunsAlike};

/// What others add to two contests that are alike for an audience leaves them alike for it, where
/// what is added to one of them alone can't be noticed, and what is added to both shows the same.
pub fn moves_stay_alike()
    ensures { MovesStayAlike }
{}

/// Two contests that agree on what an audience may learn answer it alike for as long as they run,
/// and agree on it at their ends, as long as what else they are asked adds what can't be noticed,
/// or the same to both.
pub fn runs_alike()
    ensures { RunsAlike }
{}
