//! Laws of the scoring that a contest director may ask for: functions that do nothing, and whose
//! contracts say what holds of every contest and every board.
ghost use Rattle.contest_score.specs.ScoringLaws.{CellsScoreTheSeen, BoardsScoreTheSeen};
ghost use Rattle.contest_score.specs.ScoringLaws.{AllReadTheJurysCells, AllReadTheJurysBoard};
ghost use Rattle.contest_score.specs.ScoringLaws.{AllReadTheJurysAwards, JurysBoardStays};
ghost use Rattle.contest_score.specs.ScoringLaws.{JurysBoardIgnoresTheFreeze, HiddenMovesNoBoard};
ghost use Rattle.contest_score.specs.ScoringLaws.{HiddenMovesNoAward, NothingElseScores};
ghost use Rattle.contest_score.specs.ScoringLaws.{NothingElseAwards, SubmissionMovesOneCell};
ghost use Rattle.contest_score.specs.ScoringLaws.{ReleaseMovesItsCell, ReleaseMovesOneCell};
ghost use Rattle.contest_score.specs.ScoringLaws.{NothingAfterAccepted, LastIsTheLatest};
ghost use Rattle.contest_score.specs.ScoringLaws.{ExtensionMovesNoBoard};
ghost use Rattle.contest_score.specs.BoardLaws.{ShownTeamsStand, NoTeamStandsTwice};
ghost use Rattle.contest_score.specs.BoardLaws.{RowsStandInOrder, RowsHaveEachProblem};
ghost use Rattle.contest_score.specs.BoardLaws.{ProblemsStandOnce, RanksCountTheBetter};
ghost use Rattle.contest_score.specs.BoardLaws.{RanksFollowTheScores};
ghost use Rattle.contest_score.specs.AwardLaws.{OneMedalATeam, NoMedalOffTheBoard};
ghost use Rattle.contest_score.specs.AwardLaws.{FirstAwardIsOfTheFirst, SolvedHasAFirst};
ghost use Rattle.contest_score.specs.AwardLaws.{GroupsStandOnce, SolvedHasAGroupWinner};

/// Each cell is pass-fail scoring of the verdicts that its reader may see.
pub fn cells_score_the_seen()
    ensures { CellsScoreTheSeen }
{}

/// Each board ranks by the cells of the verdicts that its reader may see.
pub fn boards_score_the_seen()
    ensures { BoardsScoreTheSeen }
{}

/// Once a contest is thawed, or if it has no freeze, everybody reads the jury's cells.
pub fn all_read_the_jurys_cells()
    ensures { AllReadTheJurysCells }
{}

/// Once a contest is thawed, or if it has no freeze, everybody reads the jury's board.
pub fn all_read_the_jurys_board()
    ensures { AllReadTheJurysBoard }
{}

/// Once a contest is thawed, or if it has no freeze, everybody reads the jury's awards.
pub fn all_read_the_jurys_awards()
    ensures { AllReadTheJurysAwards }
{}

/// The jury's board is the same at every moment.
pub fn jurys_board_stays()
    ensures { JurysBoardStays }
{}

/// The jury's board is the same whatever the freeze and the thaw.
pub fn jurys_board_ignores_the_freeze()
    ensures { JurysBoardIgnoresTheFreeze }
{}

/// Whatever a hidden team submits and gets moves nothing on any board.
pub fn hidden_moves_no_board()
    ensures { HiddenMovesNoBoard }
{}

/// Whatever a hidden team submits and gets changes no award.
pub fn hidden_moves_no_award()
    ensures { HiddenMovesNoAward }
{}

/// No proposal, rejudging or clarification changes a cell or a board; only submissions, releases,
/// the start, the thaw, the duration, a team's name, and new types, problems and teams may.
pub fn nothing_else_scores()
    ensures { NothingElseScores }
{}

/// No proposal, rejudging or clarification changes an award; only submissions, releases, the start,
/// the thaw, the duration, finalizing, a team's name, and new types, problems, groups and teams may.
pub fn nothing_else_awards()
    ensures { NothingElseAwards }
{}

/// An extension changes no cell and no board: where the duration may be set, each reads the board
/// that it read, at any moment.
pub fn extension_moves_no_board()
    ensures { ExtensionMovesNoBoard }
{}

/// A submission changes no cell but that of its team at its problem.
pub fn submission_moves_one_cell()
    ensures { SubmissionMovesOneCell }
{}

/// A release changes no cell but those of its submission.
pub fn release_moves_its_cell()
    ensures { ReleaseMovesItsCell }
{}

/// In a valid contest a release changes no cell but that of its team at its submission's problem.
pub fn release_moves_one_cell()
    ensures { ReleaseMovesOneCell }
{}

/// Attempts after an accepted one change nothing of its cell.
pub fn nothing_after_accepted()
    ensures { NothingAfterAccepted }
{}

/// The last solved minute of a score is that of a solved problem, and none is later.
pub fn last_is_the_latest()
    ensures { LastIsTheLatest }
{}

/// Each shown team stands on the board, and no other.
pub fn shown_teams_stand()
    ensures { ShownTeamsStand }
{}

/// None stands twice.
pub fn no_team_stands_twice()
    ensures { NoTeamStandsTwice }
{}

/// Each row stands above all that follow: by rank, then name, then id.
pub fn rows_stand_in_order()
    ensures { RowsStandInOrder }
{}

/// A row has its team's cell of each problem.
pub fn rows_have_each_problem()
    ensures { RowsHaveEachProblem }
{}

/// Each problem stands on the board once, by ordinal, then id.
pub fn problems_stand_once()
    ensures { ProblemsStandOnce }
{}

/// A row's rank is one more than the rows that are better: ranks are shared and skipped.
pub fn ranks_count_the_better()
    ensures { RanksCountTheBetter }
{}

/// The better of two rows has the smaller rank, and rows that tie share one.
pub fn ranks_follow_the_scores()
    ensures { RanksFollowTheScores }
{}

/// A team has one kind of medal where it solved a problem and its rank is one of the medals'
/// places, and none elsewhere.
pub fn one_medal_a_team()
    ensures { OneMedalATeam }
{}

/// A team that isn't on the board has none.
pub fn no_medal_off_the_board()
    ensures { NoMedalOffTheBoard }
{}

/// The award for the first to solve a problem is of the shown teams that solved it first, and of no
/// other.
pub fn first_award_is_of_the_first()
    ensures { FirstAwardIsOfTheFirst }
{}

/// Where a shown team solved a problem, the award for the first to solve it is given.
pub fn solved_has_a_first()
    ensures { SolvedHasAFirst }
{}

/// Each group stands once in the order of the awards, by id.
pub fn groups_stand_once()
    ensures { GroupsStandOnce }
{}

/// Where a team of a group solved a problem, the award for the group's winner is given.
pub fn solved_has_a_group_winner()
    ensures { SolvedHasAGroupWinner }
{}
