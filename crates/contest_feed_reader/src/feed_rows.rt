//! The rows of a feed that has ended.
ghost use Rattle.std.specs.Prelude.{◌≡◌, IfOk};
ghost use Rattle.contest_feed_reader.specs.EndedFeeds.{AreDifferent, tables_of};

use crate::contest_object::ContestObject;
use crate::objects::{FeedGroup, FeedProblem, FeedTeam, FeedType};
use crate::row::Row;
use crate::submissions::{FeedJudgement, FeedSubmission};
use crate::tables::Tables;
use std::alloc::{AllocError, Global};

/// The rows of each collection, in its order.
#[derive(Drop)]
pub(crate) struct FeedRows {
    pub(crate) contests: Vec<Row<ContestObject>>,
    pub(crate) types: Vec<Row<FeedType>>,
    pub(crate) problems: Vec<Row<FeedProblem>>,
    pub(crate) groups: Vec<Row<FeedGroup>>,
    pub(crate) teams: Vec<Row<FeedTeam>>,
    pub(crate) submissions: Vec<Row<FeedSubmission>>,
    pub(crate) judgements: Vec<Row<FeedJudgement>>,
}

impl FeedRows {
    /// The rows of collections.
    ///
    /// # Errors
    ///
    /// Want of memory alone.
    pub(crate) fn of(alloc: Global, tables: Tables) -> Result<FeedRows, AllocError>
        ensures rows { IfOk result (λ rows. tables_of rows ≡ tables) }
        ensures different { IfOk result AreDifferent }
    {
        Ok(FeedRows {
            contests: tables.contests.into_rows(alloc)?,
            types: tables.types.into_rows(alloc)?,
            problems: tables.problems.into_rows(alloc)?,
            groups: tables.groups.into_rows(alloc)?,
            teams: tables.teams.into_rows(alloc)?,
            submissions: tables.submissions.into_rows(alloc)?,
            judgements: tables.judgements.into_rows(alloc)?,
        })
    }
}
