//! Every limit of a contest, in one place. Lengths of texts and files are in bytes, times in
//! milliseconds unless their name says minutes.

/// Teams of a contest.
pub const TEAMS: usize = 500;
/// Problems of a contest.
pub const PROBLEMS: usize = 40;
/// Judgement types of a contest.
pub const JUDGEMENT_TYPES: usize = 40;
/// Languages of a contest.
pub const LANGUAGES: usize = 40;
/// Groups of teams of a contest.
pub const GROUPS: usize = 50;
/// Accounts of a contest.
pub const ACCOUNTS: usize = 2_000;

/// Submissions of one team.
pub const TEAM_SUBMISSIONS: usize = 500;
/// Clarification requests of one team.
pub const TEAM_REQUESTS: usize = 200;
/// Clarifications by the jury for one audience.
pub const JURY_CLARIFICATIONS: usize = 100_000;
/// Rejudgings of a contest.
pub const REJUDGINGS: usize = 100_000;
/// Members of one rejudging.
pub const REJUDGING_MEMBERS: usize = 500;
/// Proposals for one submission.
pub const PROPOSALS: usize = 1_000;

/// Characters of an id.
pub const ID_LENGTH: usize = 36;
/// Bytes of a name.
pub const NAME_LENGTH: usize = 200;
/// Bytes of a clarification's text.
pub const TEXT_LENGTH: usize = 4_096;
/// Bytes of the shortest token.
pub const SHORTEST_TOKEN: usize = 8;
/// Bytes of the longest token.
pub const LONGEST_TOKEN: usize = 128;

/// Bytes of a posted file.
pub const POSTED_FILE: usize = 1_048_576;
/// Bytes of a file that is imported, replayed or read as a contest.
pub const IMPORTED_FILE: usize = 16_777_216;
/// Bytes of a request's head.
pub const REQUEST_HEAD: usize = 16_384;
/// Bytes of a request's body.
pub const REQUEST_BODY: usize = 2_097_152;

/// The last moment, in milliseconds since 1970: the end of the year 9998. It is also the greatest
/// distance of a relative time from zero.
pub const LAST_MOMENT: u64 = 253_370_764_799_999;
/// The longest contest: 1000 hours.
pub const LONGEST_CONTEST: u64 = 3_600_000_000;
/// The largest penalty time, in minutes.
pub const PENALTY_MINUTES: u32 = 1_000;
/// The largest number of places for one kind of medal.
pub const MEDAL_PLACES: u32 = 100;
