//! The ids of submissions, judgements and clarifications, made without memory.
ghost use Rattle.std.specs.Prelude.{◌≡◌, ◌≤◌, ◌+◌, ◌++◌, codes, length};
ghost use Rattle.std.specs.Fmt.{decimal};
ghost use Rattle.std.specs.Str.{bytes_eq};
ghost use Rattle.arrayvec.specs.ArrayString.{array_string_len};
ghost use Rattle.contest_types.specs.VisibleIds.{clarification_id, judgement_id, submission_id};

use arrayvec::ArrayString;
use contest_types::Addressee;
use itoa::{Buffer, Integer};

/// Room for the longest id.
const ID: usize = 160;

/// The id of the submission with a number of the team at a place, from 0:
/// `s<team number>-<number>`, teams numbered from 1 (own). It takes no memory.
pub fn submission_id(team: usize, number: usize) -> ArrayString<ID>
    ensures bytes { result.bytes ≡ submission_id team number }
    ensures room { array_string_len result + 60 ≤ ID }
{
    let mut id = ArrayString::new();
    id.push_str("s");
    push_number(&mut id, team as u128 + 1);
    id.push_str("-");
    push_number(&mut id, number);
    id
}

/// The id of a judgement of that submission: `<submission id>.<round>` (own). It takes no memory.
pub fn judgement_id(team: usize, number: usize, round: usize) -> ArrayString<ID>
    ensures { result.bytes ≡ judgement_id team number round }
{
    let mut id = submission_id(team, number);
    id.push_str(".");
    push_number(&mut id, round);
    id
}

// A number in decimal digits.
fn push_number<N: Integer>(id: &mut ArrayString<ID>, number: N)
    requires { array_string_len id.old + 40 ≤ ID }
    ensures bytes { id.new.bytes ≡ id.old.bytes ++ N.text number }
    ensures room { array_string_len id.new ≤ array_string_len id.old + 40 }
{
    let mut digits = Buffer::new();
    id.push_str(digits.format(number));
}

/// The id of a clarification (own). It takes no memory.
pub fn clarification_id(addressee: Addressee, number: usize) -> ArrayString<ID>
    ensures { result.bytes ≡ clarification_id addressee number }
{
    match addressee {
        Addressee::All => id_to_all(number),
        Addressee::Group(group) => id_of_one("g", group, number),
        Addressee::Team(team) => id_of_one("c", team, number),
    }
}

fn id_to_all(number: usize) -> ArrayString<ID>
    ensures { result.bytes ≡ clarification_id Addressee.All number }
{
    let mut id = ArrayString::new();
    id.push_str("g-");
    push_number(&mut id, number);
    id
}

// The id of one that is a group's or a team's, whose place counts from 0.
fn id_of_one(letter: &str, place: usize, number: usize) -> ArrayString<ID>
    requires { length letter.now ≡ 1 }
    ensures { result.bytes ≡ letter.now ++ decimal (place + 1) ++ codes "-" ++ decimal number }
{
    let mut id = ArrayString::new();
    id.push_str(letter);
    push_number(&mut id, place as u128 + 1);
    id.push_str("-");
    push_number(&mut id, number);
    id
}

/// Whether a text is the id of a submission, byte for byte. It takes no memory.
pub fn has_submission_id(team: usize, number: usize, text: &[u8]) -> bool
    ensures { result ≡ bytes_eq (submission_id team number) text.now }
{
    submission_id(team, number).as_str().as_bytes() == text
}

/// Whether a text is the id of a clarification, byte for byte. It takes no memory.
pub fn has_clarification_id(addressee: Addressee, number: usize, text: &[u8]) -> bool
    ensures { result ≡ bytes_eq (clarification_id addressee number) text.now }
{
    clarification_id(addressee, number).as_str().as_bytes() == text
}

/// Whether a text is the id of a judgement, byte for byte. It takes no memory.
pub fn has_judgement_id(team: usize, number: usize, round: usize, text: &[u8]) -> bool
    ensures { result ≡ bytes_eq (judgement_id team number round) text.now }
{
    judgement_id(team, number, round).as_str().as_bytes() == text
}
