//! What may be asked of a contest.
use crate::command::Command;
use contest_objects::{ContestEndpoint, SettingsEndpoint};

/// A collection of objects (Contest API 2023-06, endpoints).
#[derive(Clone, Copy)]
pub enum Endpoint {
    /// Of the settings.
    Settings(SettingsEndpoint),
    /// The submissions that the caller sees, by time, team id and number.
    Submissions,
    /// The judgements that the caller sees, in the order of their submissions.
    Judgements,
    /// The clarifications that the caller hears, by time and id.
    Clarifications,
    /// The awards that the caller is shown, in their order.
    Awards,
}

/// What is read.
#[derive(Clone, Copy)]
pub enum Reading {
    /// What is served of the contest as a whole, to everybody alike.
    Whole(ContestEndpoint),
    /// The objects of an endpoint that the caller sees, as an array.
    List(Endpoint),
    /// One of them, by its id.
    Object(Endpoint),
    /// The file of a submission, by its id, for the team itself and the jury.
    File,
    /// The event feed that the caller is served (Contest API 2023-06, event feed).
    Feed,
    /// The scoreboard that the caller sees.
    Scoreboard,
    /// The scoreboard of a group, by the group's id (own).
    GroupScoreboard,
    /// The caller's own account (Contest API 2023-06, account).
    Account,
    /// What only the jury reads.
    Jury(JuryReading),
}

/// What only the jury reads (own).
#[derive(Clone, Copy)]
pub enum JuryReading {
    /// What stands proposed.
    Proposals,
    /// The rejudgings, by number.
    Rejudgings,
    /// One of them, by its number.
    Rejudging,
}

/// What a request asks for.
#[derive(Clone, Copy)]
pub enum Operation {
    /// To read.
    Read(Reading),
    /// To do something.
    Do(Command),
}
