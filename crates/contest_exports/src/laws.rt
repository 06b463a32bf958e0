//! Laws of the walk and the export: functions that do nothing, and whose contracts say what holds
//! of every contest.
ghost use Rattle.contest_exports.specs.Laws.{GivesEachOnce, ReadsBack};

/// A walk gives each submission of a contest once, by time, team id and number, and nothing else.
pub fn walk_gives_each_once()
    ensures { GivesEachOnce }
{}

/// Read as CSV, an export is its header and a record for each submission.
pub fn export_reads_back()
    ensures { ReadsBack }
{}
