//! The contest of a feed that is read from a stream.
ghost use Rattle.std.specs.Prelude.{◌≡◌, Bool, Ok, IfErr, IfOk, IfSome, OnOk, true};
ghost use Rattle.std.specs.Io.KnownBytes.{IsAtEnd};
ghost use Rattle.contest_types.specs.Valid.{is_valid};
ghost use Rattle.contest_streams.specs.Streams.{stream};
ghost use Rattle.contest_replay.specs.ReplayContest.{marks_for, replay_contest};
ghost use Rattle.contest_feed_reader.specs.FeedContests.{contest_in_feed};
ghost use Rattle.contest_feed_reader.specs.FeedStops.{StopsFeed};

use crate::ending::contest_of;
use crate::feed_contest::FeedContest;
use crate::stream::{FeedFault, read_tables};
use contest_streams::Counted;
use std::alloc::Global;
use std::io::Read;

/// The contest of the event feed that the reader has left, which is a valid one. It reads line by
/// line, and keeps what counts.
///
/// # Errors
///
/// `File` where a read fails, else the first fault of the bytes or want of memory (`Refused`). The
/// faults, in this order: a line over 16 MiB or more than 1 GiB in all (`BodyTooLarge`), or a line
/// off its form (`ImportRow` with its number and `Malformed`), whichever line is the first; no
/// contest (`Malformed`); and by the line that named it last, an object that refers to one that
/// doesn't stand (`UnknownReference`), a label that another problem has (`KeyReused`) or an object
/// for which there is no place (`TableFull`), each as `ImportRow`.
pub fn read_feed<R: Read>(alloc: Global, reader: &mut Counted<R>) -> Result<FeedContest, FeedFault>
    ensures ok { IfOk result (λ c. IfSome (R.remaining reader.old.inner) (λ bytes. contest_in_feed bytes ≡ Ok c)) }
    ensures end { OnOk result (IsAtEnd (R.remaining reader.new.inner)) }
    ensures err { IfErr result (λ fault. StopsFeed fault (stream R.remaining reader.old) (stream R.remaining reader.new)) }
    ensures valid { (thawed : Bool) → IfOk result (λ c. is_valid (replay_contest c.contest.settings (marks_for c.contest.settings thawed) c.contest.submissions) ≡ true) }
{
    match read_tables(alloc, reader) {
        Ok(tables) => match contest_of(alloc, tables) {
            Ok(contest) => Ok(contest),
            Err(refusal) => Err(FeedFault::Refused(refusal)),
        },
        Err(fault) => Err(fault),
    }
}
