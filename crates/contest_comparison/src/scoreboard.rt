//! Reading another system's scoreboard.
ghost use Rattle.std.specs.Prelude.{◌≡◌, IfErr, IfOk, Some};
ghost use Rattle.serde_json.specs.View.{view};
ghost use Rattle.contest_files.specs.Refused.{IsRefused};
ghost use Rattle.contest_comparison.specs.Scoreboards.{rows_in, scoreboard_of};

use crate::listed::listed;
use crate::other_row::OtherRow;
use contest_files::value_of;
use contest_types::{Refusal, Rows};
use serde_json::Value;
use std::alloc::Global;

/// The rows of the scoreboard that bytes are the text of (Contest API 2020-03, 2022-07 and 2023-06,
/// scoreboard), in its order.
///
/// # Errors
///
/// `Malformed` where the bytes aren't the text of one; else want of memory.
pub fn read_scoreboard(alloc: Global, bytes: &[u8]) -> Result<Rows<OtherRow>, Refusal>
    ensures ok { IfOk result (λ rows. scoreboard_of bytes.now ≡ Some rows) }
    ensures err { IfErr result (λ e. IsRefused e (scoreboard_of bytes.now)) }
{
    let board = value_of(alloc, bytes)?;
    match rows_in(alloc, &board)? {
        Some(rows) => Ok(rows),
        None => Err(Refusal::Malformed),
    }
}

// The rows of a scoreboard, if they are on their form.
fn rows_in(alloc: Global, board: &Value) -> Result<Option<Rows<OtherRow>>, Refusal>
    ensures value { IfOk result (λ found. found ≡ rows_in (view board.now)) }
    ensures err { IfErr result (λ e. e ≡ Refusal.Memory) }
{
    match board.get("rows") {
        Some(rows) => listed(alloc, rows),
        None => Ok(None),
    }
}
