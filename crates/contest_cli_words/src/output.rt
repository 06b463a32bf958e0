//! A text that was asked for, and how a command ends with it; a text that is told.
ghost use Rattle.contest_streams.specs.Streams.{Tells, stream};
ghost use Rattle.contest_cli_words.specs.Endings.{Shows};

use crate::command_error::CommandError;
use contest_streams::{Counted, write_all};
use std::io::Write;

/// Writes a text that was asked for to `out`, or tells `err` that `out` failed. Answers the exit
/// status, 0 or 1.
pub fn show<O: Write, E: Write>(text: &[u8], out: &mut Counted<O>, err: &mut Counted<E>) -> u8
    ensures { Shows text.now
        (stream O.contents out.old) (stream O.contents out.new)
        (stream E.contents err.old) (stream E.contents err.new) result }
{
    match write_all(out, text) {
        Ok(()) => 0,
        Err(_) => CommandError::File.refuse(err),
    }
}

/// Writes a text to `err`, as far as it takes it.
pub fn tell<E: Write>(text: &[u8], err: &mut Counted<E>)
    ensures { Tells (stream E.contents err.old) (stream E.contents err.new) text.now }
{
    let _ = write_all(err, text);
}
