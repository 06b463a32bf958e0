//! The line that tells how much of a feed counts for nothing, made without memory.
ghost use Rattle.std.specs.Prelude.{◌≡◌};
ghost use Rattle.contest_cli_audit.specs.LeftOutLine.{is_nothing, left_out_line};

use arrayvec::ArrayString;
use contest_cli_words::{LINE, push_number};
use contest_feed_reader::LeftOut;

/// `left out: <n> submissions, <m> judgements`.
pub(crate) fn left_out_line(left_out: LeftOut) -> ArrayString<LINE>
    ensures { result.bytes ≡ left_out_line left_out }
{
    let mut line = ArrayString::new();
    line.push_str("left out: ");
    push_number(&mut line, left_out.submissions as u64);
    line.push_str(" submissions, ");
    push_number(&mut line, left_out.judgements as u64);
    line.push_str(" judgements\n");
    line
}

/// Whether nothing was left out.
pub(crate) fn is_nothing(left_out: LeftOut) -> bool
    ensures { result ≡ is_nothing left_out }
{
    left_out.submissions == 0 && left_out.judgements == 0
}
