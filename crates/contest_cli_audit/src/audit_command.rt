//! The command `audit`: a contest read from an event feed, its board written as text or held beside
//! another system's.
ghost use Rattle.std.specs.Prelude.{◌≡◌, Ok, IfErr, IfOk, IfSome, map, string_bytes};
ghost use Rattle.contest_streams.specs.Streams.{stream};
ghost use Rattle.contest_feed_reader.specs.FeedContests.{contest_in_feed};
ghost use Rattle.contest_comparison.specs.Comparisons.{comparison_text, has_difference};
ghost use Rattle.contest_cli_replay.specs.ReplayText.{asked_board};
ghost use Rattle.contest_cli_words.specs.CommandErrors.{IsMemory};
ghost use Rattle.contest_cli_audit.specs.Audit.{Audits, Gives, Notes, StopsBy, told_by};
ghost use Rattle.contest_cli_audit.specs.Shown.{ShowsAudited, StopsAudit, status_of, told_of};

use crate::audit_words::AuditWords;
use crate::left_out_line::{is_nothing, left_out_line};
use crate::other_board::other_board;
use contest_cli_machine::Outside;
use contest_cli_replay::{ReplayWords, contest_board, contest_text};
use contest_cli_words::{CommandError, read_words, tell};
use contest_comparison::{Comparison, OtherRow, compare};
use contest_feed_reader::{FeedContest, FeedFault, LeftOut, read_feed};
use contest_replay::ReplayContest;
use contest_streams::{Counted, write_all};
use contest_types::{Refusal, Rows};
use std::alloc::Global;
use std::io::{Read, Write};

/// What is told of a feed's contest, and what of the feed counts for nothing.
#[derive(Drop)]
struct Audited {
    text: String,
    differs: bool,
    left_out: LeftOut,
}

/// Runs `audit`: reads the words, of which the first is the command's own, then the scoreboard that
/// they name, if they name one, then the feed. It writes the board of the feed's contest on `out`,
/// or how that differs from the scoreboard. Answers the exit status: 0 for a board or none that
/// differs, 3 for differences, 1 for a refusal, or a file or a stream that failed, 2 for words that
/// have a fault. With 1 and 2 `err` is told why, else what was left out, if anything was.
pub fn audit<W: Outside, R: Read, O: Write, E: Write>(
    alloc: Global,
    outside: &W,
    words: &[&str],
    reader: &mut Counted<R>,
    out: &mut Counted<O>,
    err: &mut Counted<E>,
) -> u8
    ensures { Audits W.File.remaining W.reads (map (λ s. s.now) words.now)
        (stream R.remaining reader.old) (stream R.remaining reader.new)
        (stream O.contents out.old) (stream O.contents out.new)
        (stream E.contents err.old) (stream E.contents err.new) result }
{
    match audit_of(alloc, outside, words, reader) {
        Ok(audited) => show_audited(&audited, out, err),
        Err(stop) => stop.refuse(err),
    }
}

// What the words ask for, or the first fault of the words, of the scoreboard that they name, of the
// stream or of what it holds.
fn audit_of<W: Outside, R: Read>(
    alloc: Global,
    outside: &W,
    words: &[&str],
    reader: &mut Counted<R>,
) -> Result<Audited, CommandError>
    ensures ok { IfOk result (λ a. Gives W.File.remaining W.reads (map (λ s. s.now) words.now) (R.remaining reader.old.inner) (Ok (told_of a))) }
    ensures err { IfErr result (StopsBy W.File.remaining W.reads (map (λ s. s.now) words.now) (stream R.remaining reader.old) (stream R.remaining reader.new)) }
{
    match read_words::<AuditWords>(alloc, words) {
        Ok(asked) => match other_board(alloc, outside, asked.against) {
            Ok(there) => audit_feed(alloc, &asked.board, there, reader),
            Err(stop) => Err(stop),
        },
        Err(stop) => Err(stop),
    }
}

// The same, where the scoreboard was had, if one is named.
fn audit_feed<R: Read>(
    alloc: Global,
    asked: &ReplayWords,
    there: Option<Rows<OtherRow>>,
    reader: &mut Counted<R>,
) -> Result<Audited, CommandError>
    ensures ok { IfOk result (λ a. IfSome (R.remaining reader.old.inner) (λ bytes. told_by asked.now there (contest_in_feed bytes) ≡ Ok (told_of a))) }
    ensures err { IfErr result (StopsAudit asked.now there (stream R.remaining reader.old) (stream R.remaining reader.new)) }
{
    match read_feed(alloc, reader) {
        Ok(feed) => match audit_contest(alloc, asked, there, feed) {
            Ok(audited) => Ok(audited),
            Err(stop) => Err(stop),
        },
        Err(FeedFault::File) => Err(CommandError::File),
        Err(FeedFault::Refused(refusal)) => Err(CommandError::Refused(refusal)),
    }
}

// What is told of a feed's contest.
fn audit_contest(
    alloc: Global,
    asked: &ReplayWords,
    there: Option<Rows<OtherRow>>,
    feed: FeedContest,
) -> Result<Audited, CommandError>
    ensures ok { IfOk result (λ a. told_by asked.now there (Ok feed) ≡ Ok (told_of a)) }
    ensures err { IfErr result IsMemory }
{
    let left_out = feed.left_out;
    match there {
        Some(there) => match comparison_of(alloc, asked, feed.contest, there.as_slice()) {
            Ok(comparison) => Ok(Audited {
                text: comparison.text,
                differs: comparison.differs,
                left_out,
            }),
            Err(refusal) => Err(CommandError::Refused(refusal)),
        },
        None => match contest_text(alloc, asked, feed.contest) {
            Ok(text) => Ok(Audited {
                text,
                differs: false,
                left_out,
            }),
            Err(refusal) => Err(CommandError::Refused(refusal)),
        },
    }
}

// The board of a contest, held beside the rows of a scoreboard.
fn comparison_of(
    alloc: Global,
    asked: &ReplayWords,
    contest: ReplayContest,
    there: &[OtherRow],
) -> Result<Comparison, Refusal>
    ensures text { IfOk result (λ c. string_bytes c.text ≡ comparison_text contest.settings (asked_board asked.now.jury asked.now.thawed asked.now.at contest) there.now) }
    ensures differs { IfOk result (λ c. c.differs ≡ has_difference contest.settings (asked_board asked.now.jury asked.now.thawed asked.now.at contest) there.now) }
    ensures err { IfErr result (λ e. e ≡ Refusal.Memory) }
{
    let mut contest = contest;
    let board = contest_board(alloc, asked, &mut contest)?;
    compare(alloc, contest.settings(), &board, there)
}

// Writes what is told to `out`, and to `err` what was left out; or tells `err` that `out` failed.
fn show_audited<O: Write, E: Write>(
    audited: &Audited,
    out: &mut Counted<O>,
    err: &mut Counted<E>,
) -> u8
    ensures { ShowsAudited (told_of audited.now)
        (stream O.contents out.old) (stream O.contents out.new)
        (stream E.contents err.old) (stream E.contents err.new) result }
{
    match write_all(out, audited.text.as_bytes()) {
        Ok(()) => {
            note(audited.left_out, err);
            status_of(audited.differs)
        }
        Err(_) => CommandError::File.refuse(err),
    }
}

// The exit status of what was told.
fn status_of(differs: bool) -> u8
    ensures { result ≡ status_of differs }
{
    if differs { 3 } else { 0 }
}

// Tells what was left out, if anything was.
fn note<E: Write>(left_out: LeftOut, err: &mut Counted<E>)
    ensures { Notes left_out (stream E.contents err.old) (stream E.contents err.new) }
{
    if !is_nothing(left_out) {
        tell(left_out_line(left_out).as_bytes(), err);
    }
}
