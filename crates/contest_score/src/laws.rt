//! Laws of the scoring: functions that do nothing, and whose contracts say what holds of every
//! contest.
ghost use Rattle.std.specs.Prelude.{List};
ghost use Rattle.contest_score.specs.declared.attempt.Attempt.{Attempt as AttemptValue};
ghost use Rattle.contest_score.specs.Laws.{WhatCounts, OwnCellsAreFull, NoFreezeNoMask};
ghost use Rattle.contest_score.specs.Laws.{HeldCountsNoFrozen, AlikeScoreTheSame, AlikeRankTheSame};
ghost use Rattle.contest_score.specs.Laws.{AlikeAwardTheSame, ValidCanBeScored};
ghost use Rattle.contest_score.specs.Laws.{SeenCellsMakeTheBoard};

/// An attempt counts exactly where no earlier one solves.
pub fn what_counts()
    ensures { (earlier : List AttemptValue) (a : AttemptValue) (later : List AttemptValue) → WhatCounts earlier a later }
{}

/// A team's own cells never depend on the freeze.
pub fn own_cells_are_full()
    ensures { OwnCellsAreFull }
{}

/// Where no freeze moment is set, nothing is held back.
pub fn no_freeze_no_mask()
    ensures { NoFreezeNoMask }
{}

/// A held cell never counts a verdict on a frozen submission.
pub fn held_counts_no_frozen()
    ensures { HeldCountsNoFrozen }
{}

/// Until the thaw, contests that are alike for an audience show it the same cells.
pub fn cells_alike()
    ensures { AlikeScoreTheSame }
{}

/// Until the thaw, contests that are alike for an audience show it the same board.
pub fn board_alike()
    ensures { AlikeRankTheSame }
{}

/// Until the thaw, contests that are alike for an audience show it the same awards.
pub fn awards_alike()
    ensures { AlikeAwardTheSame }
{}

/// The lists of a valid contest can be scored, whether or not the files of its submissions were
/// loaded.
pub fn valid_can_be_scored()
    ensures { ValidCanBeScored }
{}

/// Of the cells that a caller sees comes the caller's board.
pub fn seen_cells_make_the_board()
    ensures { SeenCellsMakeTheBoard }
{}
