//! The line that tells how many rows an import added, made without memory.
ghost use Rattle.std.specs.Prelude.{◌≡◌};
ghost use Rattle.contest_cli_commands.specs.Import.{added_line};

use arrayvec::ArrayString;
use contest_cli_words::{LINE, push_number};

/// `added <n>`.
pub(crate) fn added_line(added: u64) -> ArrayString<LINE>
    ensures { result.bytes ≡ added_line added }
{
    let mut line = ArrayString::new();
    line.push_str("added ");
    push_number(&mut line, added);
    line.push_str("\n");
    line
}
