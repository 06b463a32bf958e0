//! A law of the feed that is written and read: a function that does nothing, and whose contract
//! says what holds of every contest.
ghost use Rattle.contest_round_trip.specs.JurysFeeds.{JurysFeedIsAudited};

/// The feed that the jury is given of a valid contest is audited to the rows of the jury's board,
/// and all of it counts; or it is refused, since it has more than 1 GiB or a line of more than
/// 16 MiB.
pub fn jurys_feed_is_audited()
    ensures { JurysFeedIsAudited }
{}
