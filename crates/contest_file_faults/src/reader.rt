//! The product's own readers, asked whether a record is on its form: so no rule of a form is
//! written here.

use contest_comparison::read_scoreboard;
use contest_feed_reader::{FeedFault, read_feed};
use contest_import::{read_contest_json, read_import};
use contest_import_verdicts::read_verdicts_csv;
use contest_lists::Lists;
use contest_replay::read_replay_csv;
use contest_streams::Counted;
use contest_types::{Cause, Contest, Fixed, FixedKind, Marks, Moment, Refusal, Rows, Settings};
use std::alloc::{AllocError, Global};
use std::rc::Rc;

/// A contest that can be set up.
const CONTEST: &str = r#"{"id":"x","name":"x","duration":"1:00:00"}"#;

/// The reader of a file.
#[derive(Clone, Copy)]
pub(crate) enum FileReader {
    /// That of an imported file of settings, teams or accounts.
    Import(FixedKind),
    /// That of a file of verdicts.
    Verdicts,
    /// That of a replay file.
    Replay,
    /// That of an event feed.
    Feed,
    /// That of the contest which is set up.
    Contest,
    /// That of another system's scoreboard.
    Scoreboard,
}

/// Whether a reader refuses this text because a record in it is off its form, or because it is as
/// a whole if it has no records. The error is want of memory.
pub(crate) fn is_off_form(
    alloc: Global,
    reader: FileReader,
    text: &[u8],
) -> Result<bool, AllocError> {
    match reader {
        FileReader::Import(kind) => judged(refuses_import(alloc, kind, text)?, true),
        FileReader::Verdicts => judged(refuses_verdicts(alloc, text)?, true),
        FileReader::Replay => judged(read_replay_csv(alloc, text).err(), true),
        FileReader::Feed => judged(refuses_feed(alloc, text), true),
        FileReader::Contest => judged(read_contest_json(alloc, text).err(), false),
        FileReader::Scoreboard => judged(read_scoreboard(alloc, text).err(), false),
    }
}

// Whether a refusal is that a record is off its form, or the text as a whole.
fn judged(refusal: Option<Refusal>, has_records: bool) -> Result<bool, AllocError> {
    match refusal {
        Some(Refusal::Memory) => Err(AllocError),
        Some(Refusal::ImportRow(_, Cause::Malformed)) => Ok(has_records),
        Some(Refusal::Malformed) => Ok(!has_records),
        _ => Ok(false),
    }
}

fn refuses_import(
    alloc: Global,
    kind: FixedKind,
    text: &[u8],
) -> Result<Option<Refusal>, AllocError> {
    let fixed = bare_contest(alloc)?;
    Ok(read_import(alloc, kind, text, &fixed).err())
}

fn refuses_verdicts(alloc: Global, text: &[u8]) -> Result<Option<Refusal>, AllocError> {
    let fixed = bare_contest(alloc)?;
    let lists = Lists::new(alloc, Rc::new(alloc, fixed)?);
    match Moment::from_milliseconds(0) {
        Some(now) => Ok(read_verdicts_csv(alloc, text, &lists, now).err()),
        None => Ok(None),
    }
}

fn refuses_feed(alloc: Global, text: &[u8]) -> Option<Refusal> {
    let mut reader = Counted::new(text);
    match read_feed(alloc, &mut reader) {
        Err(FeedFault::Refused(refusal)) => Some(refusal),
        _ => None,
    }
}

// A contest in which nothing stands.
fn bare_contest(alloc: Global) -> Result<Fixed, AllocError> {
    match read_contest_json(alloc, CONTEST.as_bytes()) {
        Ok(contest) => bare_fixed(alloc, contest),
        Err(_) => Err(AllocError),
    }
}

fn bare_fixed(alloc: Global, contest: Contest) -> Result<Fixed, AllocError> {
    let Contest { head, start } = contest;
    match Settings::new(alloc, head) {
        Ok(settings) => Ok(Fixed {
            settings,
            accounts: Rows::new(alloc),
            marks: Marks {
                start,
                thaw: None,
                finalized: None,
            },
        }),
        Err(_) => Err(AllocError),
    }
}
