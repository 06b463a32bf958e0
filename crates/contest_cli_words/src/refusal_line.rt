//! The lines that tell of a refusal, made without memory.
ghost use Rattle.std.specs.Prelude.{◌≡◌, ◌≤◌, ◌+◌, ◌++◌};
ghost use Rattle.std.specs.Fmt.{decimal};
ghost use Rattle.arrayvec.specs.ArrayString.{array_string_len};
ghost use Rattle.contest_cli_words.specs.RefusalLine.{refusal_line, detail_of};

use arrayvec::ArrayString;
use contest_types::Refusal;
use itoa::{Buffer, Integer};

/// Room for the longest line.
pub const LINE: usize = 160;

/// The line of a refusal: `refused: E<number> <name>`, for a record of a file with its number and
/// the cause.
#[tactic(auto, using(contest_types::proofs::RefusalLemmas::number_told, contest_types::proofs::RefusalLemmas::name_told, crate::proofs::RefusalNames::name_is_short))]
pub(crate) fn refusal_line(refusal: Refusal) -> ArrayString<LINE>
    ensures { result.bytes ≡ refusal_line refusal }
{
    let row = refusal.row();
    let mut line = ArrayString::new();
    line.push_str("refused: E");
    push_number(&mut line, row.number);
    line.push_str(" ");
    line.push_str(row.name);
    push_detail(&mut line, refusal);
    line.push_str("\n");
    line
}

// The record and the cause, of a refusal that has them.
fn push_detail(line: &mut ArrayString<LINE>, refusal: Refusal)
    requires { array_string_len line.old + 60 ≤ LINE }
    ensures bytes { line.new.bytes ≡ line.old.bytes ++ detail_of refusal }
    ensures room { array_string_len line.new ≤ array_string_len line.old + 58 }
{
    if let Refusal::ImportRow(number, cause) = refusal {
        line.push_str(" ");
        push_number(line, number);
        line.push_str(" ");
        line.push_str(cause.name());
    }
}

/// A number in decimal digits.
pub fn push_number<N: Integer>(line: &mut ArrayString<LINE>, number: N)
    requires { array_string_len line.old + 40 ≤ LINE }
    ensures bytes { line.new.bytes ≡ line.old.bytes ++ N.text number }
    ensures room { array_string_len line.new ≤ array_string_len line.old + 40 }
{
    let mut digits = Buffer::new();
    line.push_str(digits.format(number));
}
