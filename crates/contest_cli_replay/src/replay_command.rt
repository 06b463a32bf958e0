//! The command `replay`: a contest read from a stream, its board written as text.
ghost use Rattle.std.specs.Prelude.{Ok, IfOk, IfErr, map, string_bytes};
ghost use Rattle.contest_streams.specs.Streams.{stream};
ghost use Rattle.contest_cli_replay.specs.Replay.{Gives, StopsBy, Replays};

use crate::replay_text::replay_text;
use crate::replay_words::ReplayWords;
use contest_cli_words::{CommandError, read_words, show};
use contest_streams::{Counted, read_limited};
use contest_types::limits::IMPORTED_FILE;
use std::alloc::Global;
use std::io::{Read, Write};

/// Runs `replay`: reads the words, of which the first is the command's own, then the contest, and
/// writes its board on `out`. Answers the exit status: 0 for a board, 1 for a refusal or a stream
/// that failed, 2 for words that have a fault. Where it isn't 0, `err` is told why.
pub fn replay<R: Read, O: Write, E: Write>(
    alloc: Global,
    words: &[&str],
    reader: &mut Counted<R>,
    out: &mut Counted<O>,
    err: &mut Counted<E>,
) -> u8
    ensures { Replays (map (λ s. s.now) words.now)
        (stream R.remaining reader.old) (stream R.remaining reader.new)
        (stream O.contents out.old) (stream O.contents out.new)
        (stream E.contents err.old) (stream E.contents err.new) result }
{
    match board_text(alloc, words, reader) {
        Ok(text) => show(text.as_bytes(), out, err),
        Err(stop) => stop.refuse(err),
    }
}

// The text of the board that the words ask for, or the first fault of the words, of the stream or
// of what it holds.
fn board_text<R: Read>(
    alloc: Global,
    words: &[&str],
    reader: &mut Counted<R>,
) -> Result<String, CommandError>
    ensures ok { IfOk result (λ text. Gives (map (λ s. s.now) words.now) (R.remaining reader.old.inner) (Ok (string_bytes text))) }
    ensures err { IfErr result (StopsBy (map (λ s. s.now) words.now) (stream R.remaining reader.old) (stream R.remaining reader.new)) }
{
    let asked = read_words::<ReplayWords>(alloc, words)?;
    match read_limited(alloc, reader, IMPORTED_FILE) {
        Ok(bytes) => match replay_text(alloc, &asked, &bytes) {
            Ok(text) => Ok(text),
            Err(refusal) => Err(CommandError::Refused(refusal)),
        },
        Err(fault) => Err(CommandError::from(fault)),
    }
}
