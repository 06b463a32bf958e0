//! What a board and the results show.
ghost use Rattle.contest_laws.specs.GroupBoards.{GroupBoardsKeepTheOrder};
ghost use Rattle.contest_laws.specs.GroupsWon.{FirstGroupIsNamed};
ghost use Rattle.contest_laws.specs.Standing.{HeldReleasesMoveNoBoard};

/// Until the thaw a verdict on another team's submission, which is frozen, moves no board but the
/// jury's and that team's own.
pub fn held_releases_move_no_board()
    ensures { HeldReleasesMoveNoBoard }
{}

/// The board of a group is the whole board without the teams that aren't in the group: each team
/// keeps its place among the others.
pub fn group_boards_keep_the_order()
    ensures { GroupBoardsKeepTheOrder }
{}

/// The results for the ICPC name of the groups that a team won the first, in the order of the awards.
pub fn first_group_is_named()
    ensures { FirstGroupIsNamed }
{}
