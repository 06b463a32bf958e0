//! The tables of a contest.

/// The tables of a contest, in the order in which they are made.
#[derive(Clone, Copy, Debug, PartialEq, Eq)]
pub enum TableName {
    /// That the tables are a desk's, and of which schema: one row.
    Desk,
    /// The head of the contest and the marks of its clock: one row.
    Contest,
    /// Judgement types, languages, groups, problems and teams.
    Items,
    /// The accounts, by their ids.
    Accounts,
    /// The submissions, with their files.
    Submissions,
    /// The proposed verdicts.
    Proposals,
    /// The verdicts that were released.
    Releases,
    /// The rejudgings, without their members.
    Rejudgings,
    /// The members of the rejudgings.
    Members,
    /// Where the first schema kept the clarifications; no row since the second.
    Clarifications,
    /// The cells of the teams at the problems, under either mask.
    Cells,
    /// The clarifications.
    Notices,
}

/// The tables of the lists, in the order in which they are made: all but that of the cells.
pub const LIST_TABLES: [TableName; 11] = [
    TableName::Desk,
    TableName::Contest,
    TableName::Items,
    TableName::Accounts,
    TableName::Submissions,
    TableName::Proposals,
    TableName::Releases,
    TableName::Rejudgings,
    TableName::Members,
    TableName::Clarifications,
    TableName::Notices,
];

/// All tables, in the order in which they are made.
pub const ALL_TABLES: [TableName; 12] = [
    TableName::Desk,
    TableName::Contest,
    TableName::Items,
    TableName::Accounts,
    TableName::Submissions,
    TableName::Proposals,
    TableName::Releases,
    TableName::Rejudgings,
    TableName::Members,
    TableName::Clarifications,
    TableName::Cells,
    TableName::Notices,
];
