//! The line that tells which port clients can connect to, made without memory.
ghost use Rattle.std.specs.Prelude.{◌≡◌};
ghost use Rattle.contest_cli_commands.specs.Serve.{listening_line};

use arrayvec::ArrayString;
use contest_cli_words::{LINE, push_number};

/// `listening on 127.0.0.1:<port>`.
pub(crate) fn listening_line(port: u16) -> ArrayString<LINE>
    ensures { result.bytes ≡ listening_line port }
{
    let mut line = ArrayString::new();
    line.push_str("listening on 127.0.0.1:");
    push_number(&mut line, port as u64);
    line.push_str("\n");
    line
}
