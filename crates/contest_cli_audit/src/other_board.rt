//! The scoreboard of another system that a board is held beside, in a file that the words name.
ghost use Rattle.std.specs.Prelude.{◌≡◌, Ok, Some, IfErr, IfOk, IfSome, option_map};
ghost use Rattle.contest_streams.specs.Streams.{stream};
ghost use Rattle.contest_cli_audit.specs.OtherBoards.{Holds, Lacks, StopsScoreboard, scoreboard_in};

use contest_cli_machine::Outside;
use contest_cli_words::CommandError;
use contest_comparison::{OtherRow, read_scoreboard};
use contest_streams::{Counted, read_limited};
use contest_types::Rows;
use contest_types::limits::IMPORTED_FILE;
use std::alloc::Global;
use std::io::Read;

/// The rows of the scoreboard at a path, if there is a path.
///
/// # Errors
///
/// `File` where the file can't be opened or a read of it fails; `BodyTooLarge` where it has more
/// than 16 MiB; `Malformed` where it holds no scoreboard; else want of memory.
pub(crate) fn other_board<W: Outside>(
    alloc: Global,
    outside: &W,
    path: Option<&str>,
) -> Result<Option<Rows<OtherRow>>, CommandError>
    ensures ok { IfOk result (λ there. Holds W.File.remaining W.reads (option_map (λ s. s.now) path.entry) there) }
    ensures err { IfErr result (Lacks W.File.remaining W.reads (option_map (λ s. s.now) path.entry)) }
{
    match path {
        Some(path) => match board_at(alloc, outside, path) {
            Ok(rows) => Ok(Some(rows)),
            Err(stop) => Err(stop),
        },
        None => Ok(None),
    }
}

// The rows of the scoreboard at a path.
fn board_at<W: Outside>(
    alloc: Global,
    outside: &W,
    path: &str,
) -> Result<Rows<OtherRow>, CommandError>
    ensures ok { IfOk result (λ rows. Holds W.File.remaining W.reads (Some path.now) (Some rows)) }
    ensures err { IfErr result (Lacks W.File.remaining W.reads (Some path.now)) }
{
    match outside.read(path) {
        Ok(file) => {
            let mut file = file;
            board_in(alloc, &mut file)
        }
        Err(stop) => Err(stop),
    }
}

// The rows of the scoreboard that a file holds.
fn board_in<R: Read>(alloc: Global, file: &mut Counted<R>) -> Result<Rows<OtherRow>, CommandError>
    ensures ok { IfOk result (λ rows. IfSome (R.remaining file.old.inner) (λ bytes. scoreboard_in bytes ≡ Ok rows)) }
    ensures err { IfErr result (StopsScoreboard (stream R.remaining file.old) (stream R.remaining file.new)) }
{
    match read_limited(alloc, file, IMPORTED_FILE) {
        Ok(bytes) => match read_scoreboard(alloc, &bytes) {
            Ok(rows) => Ok(rows),
            Err(refusal) => Err(CommandError::Refused(refusal)),
        },
        Err(fault) => Err(CommandError::from(fault)),
    }
}
