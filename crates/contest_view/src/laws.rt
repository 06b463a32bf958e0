//! Laws of what is shown: functions that do nothing, and whose contracts say what holds of every
//! contest.
ghost use Rattle.contest_view.specs.Laws.{AlikeReadTheSame, AlikeReadTheSameFiles, SeenIsFound};
ghost use Rattle.contest_view.specs.Laws.{NothingElseIsFound, FilesAreForTheirTeams};
ghost use Rattle.contest_view.specs.Laws.{PlacedFileIsFound, AlikeReadTheSameJudgements};
ghost use Rattle.contest_view.specs.Laws.{AlikeReadTheSameProposals};
ghost use Rattle.contest_view.specs.Laws.{AlikeReadTheSameClarifications};
ghost use Rattle.contest_view.specs.Laws.{AlikeShowTheSameScoreboard, AlikeReadTheSameAwards};
ghost use Rattle.contest_view.specs.Laws.{NoAwardIsReadBeforeTheThaw, ShownAwardIsFound};
ghost use Rattle.contest_view.specs.Laws.{AlikeReadTheSameFeed, OnlyTheJuryReadsRejudgings};

/// Until the thaw, contests that are alike for an audience give it the same submissions to read,
/// all of them and by any id.
pub fn submissions_alike()
    ensures { AlikeReadTheSame }
{}

/// Until the thaw, contests that are alike for an audience give it the same file by any id.
pub fn files_alike()
    ensures { AlikeReadTheSameFiles }
{}

/// In a valid contest a submission is found by its id where the audience sees it, and nothing is
/// found where it doesn't.
pub fn seen_is_found()
    ensures { SeenIsFound }
{}

/// By an id that no submission has nothing is found.
pub fn nothing_else_is_found()
    ensures { NothingElseIsFound }
{}

/// In a valid contest the file of a submission is read by its id by its team and the jury, and by
/// nobody else.
pub fn files_are_for_their_teams()
    ensures { FilesAreForTheirTeams }
{}

/// In a valid contest the file that is read is that of the submission which `file_place` names.
pub fn placed_file_is_found()
    ensures { PlacedFileIsFound }
{}

/// Until the thaw, contests that are alike for an audience give it the same judgements to read, all
/// of them and by any id.
pub fn judgements_alike()
    ensures { AlikeReadTheSameJudgements }
{}

/// Until the thaw, contests that are alike for an audience give it the same proposals to read,
/// whatever judges propose.
pub fn proposals_alike()
    ensures { AlikeReadTheSameProposals }
{}

/// Who isn't of the jury reads no rejudging, whichever are opened, judged, applied or cancelled.
pub fn only_the_jury_reads_rejudgings()
    ensures { OnlyTheJuryReadsRejudgings }
{}

/// Contests that are alike for an audience give it the same clarifications to read, all of them and
/// by any id: those between others change nothing.
pub fn clarifications_alike()
    ensures { AlikeReadTheSameClarifications }
{}

/// Until the thaw, contests that are alike for an audience show it the same scoreboard, the whole
/// one and each group's.
pub fn scoreboard_alike()
    ensures { AlikeShowTheSameScoreboard }
{}

/// Until the thaw, contests that are alike for an audience give it the same awards to read, all of
/// them and by any id.
pub fn awards_alike()
    ensures { AlikeReadTheSameAwards }
{}

/// Until the thaw, contests that are alike for an audience give it the same event feed.
pub fn feed_alike()
    ensures { AlikeReadTheSameFeed }
{}

/// Where there is a freeze moment, nobody but the jury reads an award before the thaw, nor by any
/// id.
pub fn no_award_is_read_before_the_thaw()
    ensures { NoAwardIsReadBeforeTheThaw }
{}

/// In a valid contest an award that is shown is found by its id, which no other award has.
pub fn shown_award_is_found()
    ensures { ShownAwardIsFound }
{}
