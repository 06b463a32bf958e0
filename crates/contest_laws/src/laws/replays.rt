//! A day beside its replay, and beside another system's board.
ghost use Rattle.contest_laws.specs.Comparing.{DifferencesAreTold};
ghost use Rattle.contest_laws.specs.Replays.{ReplaysAreDays};

/// A replay is a desk's day. A desk has the settings of a replay file and its submissions and verdicts up to a contest
/// time, in the order of the file. The rows of its board, so long after its start, are those that the replay shows then, for the
/// public, each team and the jury.
pub fn replays_are_days()
    ensures { ReplaysAreDays }
{}

/// A board that is held beside another system's scoreboard is told to be the same exactly if each row, each cell and
/// each team is the same.
pub fn differences_are_told()
    ensures { DifferencesAreTold }
{}
