//! The ids of submissions and rejudgings, read without memory.
ghost use Rattle.std.specs.Prelude.{◌≡◌, ◌<◌, ◌+◌, ◌^◌, ◌++◌, ℕ, Some, IfSome, codes};
ghost use Rattle.std.specs.Fmt.{decimal};
ghost use Rattle.contest_types.specs.VisibleIds.{submission_id};

use crate::visible_ids::has_submission_id;
use itoa::Buffer;

/// The place of a team, from 0, and the number, from 1, that the id of a submission names: what
/// `submission_id` makes is read, and nothing else. It takes no memory.
pub fn submission_numbers(id: &[u8]) -> Option<(usize, usize)>
    ensures named { IfSome result (λ read. submission_id read.0 read.1 ≡ id.now) }
    ensures within { IfSome result (λ read. read.0 + 1 < 2 ^ 64) }
    ensures whole { (team number : ℕ) → team + 1 < 2 ^ 64 → number < 2 ^ 64 → submission_id team number ≡ id.now → result ≡ Some (team, number) }
{
    let text = std::str::from_utf8(id.strip_prefix(b"s")?).ok()?;
    let (team, number) = dashed_numbers(text)?;
    let team = team.checked_sub(1)?;
    if has_submission_id(team, number, id) {
        Some((team, number))
    } else {
        None
    }
}

// Two numbers with a `-` between them.
fn dashed_numbers(text: &str) -> Option<(usize, usize)>
    ensures { (first second : ℕ) → first < 2 ^ 64 → second < 2 ^ 64 → decimal first ++ (codes "-" ++ decimal second) ≡ text.now → result ≡ Some (first, second) }
{
    let (first, second) = text.split_once('-')?;
    Some((number_in(first)?, number_in(second)?))
}

/// The number that the id of a rejudging is, in decimal digits without leading zeros. It takes no
/// memory.
pub fn rejudging_number(id: &[u8]) -> Option<usize>
    ensures named { IfSome result (λ number. decimal number ≡ id.now) }
    ensures whole { (number : ℕ) → number < 2 ^ 64 → decimal number ≡ id.now → result ≡ Some number }
{
    let number = number_in(std::str::from_utf8(id).ok()?)?;
    let mut digits = Buffer::new();
    if digits.format(number).as_bytes() == id {
        Some(number)
    } else {
        None
    }
}

fn number_in(text: &str) -> Option<usize>
    ensures { (number : ℕ) → number < 2 ^ 64 → decimal number ≡ text.now → result ≡ Some number }
{
    text.parse().ok()
}
