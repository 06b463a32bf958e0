//! The words that a program was given.
ghost use Rattle.std.specs.Prelude.{◌≡◌, ◌≤◌, codes, map, string_bytes, IfOk};
ghost use Rattle.contest_streams.specs.Streams.{stream};
ghost use Rattle.contest_cli_words.specs.Endings.{TellsWords};

use crate::command_error::CommandError;
use crate::output::tell;
use contest_streams::Counted;
use contest_types::Refusal;
use std::alloc::{AllocError, Global};
use std::io::{self, ErrorKind, Write};

/// The words themselves. The error is want of memory.
pub fn borrowed(alloc: Global, words: &[String]) -> Result<Vec<&str>, AllocError>
    ensures { IfOk result (λ found. map (λ s. s.now) found.items ≡ map string_bytes words.now) }
{
    let mut found = Vec::new(alloc);
    for word in words {
        found.push(word.as_str())?;
    }
    Ok(found)
}

/// Tells `err` of a program's arguments that can't be read: want of memory, or bytes that are no
/// text. Answers the exit status, 1 or 2.
pub fn refuse_arguments<E: Write>(error: &io::Error, err: &mut Counted<E>) -> u8
    ensures told { TellsWords (codes "error: an argument isn't UTF-8\n") (stream E.contents err.old) (stream E.contents err.new) result }
    ensures refused { 1 ≤ result }
{
    if error.kind() == ErrorKind::OutOfMemory {
        return CommandError::Refused(Refusal::Memory).refuse(err);
    }
    tell(b"error: an argument isn't UTF-8\n", err);
    2
}
