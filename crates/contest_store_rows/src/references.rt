//! The visible ids of clarifications, as cells and back.
ghost use Rattle.std.specs.Prelude.{◌≡◌, ◌≤◌, ◌<◌, ◌+◌, ◌^◌, ◌++◌, IfSome, drop, length};
ghost use Rattle.std.specs.Option.{option_map};
ghost use Rattle.arrayvec.specs.ArrayString.{array_string_len};
ghost use Rattle.sqlite_value.specs.Value.{owned};
ghost use Rattle.sqlite_value.specs.declared.value.Value.TheVariants.{Text};
ghost use Rattle.sqlite.specs.Values.{or_null};
ghost use Rattle.contest_types.specs.VisibleIds.{clarification_id};
ghost use Rattle.contest_store_rows.specs.ListRows.{reference_id};
ghost use Rattle.contest_store_rows.specs.References.{addressee_named, addressee_numbered, dash_in};
ghost use Rattle.contest_store_rows.specs.References.{largest, number_written, reference_of};

use arrayvec::ArrayString;
use contest_types::{Addressee, Reference, decimal_number};
use itoa::{Buffer, Integer};
use sqlite::types::ValueRef;
use std::marker::Model;

// Room for the longest id.
const ID: usize = 96;

// What stands for all in an id.
const ALL: &str = "g";

/// The visible id of the clarification that one answers, if it answers one. Contracts see its
/// bytes.
#[derive(Drop)]
pub struct ReplyId {
    id: Option<ArrayString<ID>>,
}

impl Model for ReplyId {
    ghost use Rattle.std.specs.Prelude.{List, ℕ, Option};
    ghost use Rattle.std.specs.Option.{option_map};

    ghost Value = { Option (List ℕ) };

    ghost view = { λ r. option_map (λ id. id.bytes) r.id };
}

impl ReplyId {
    /// The id of what is answered. It takes no memory.
    pub fn of(reply: Option<Reference>) -> ReplyId
        ensures { result ≡ option_map reference_id reply }
    {
        ReplyId {
            id: match reply {
                Some(reference) => Some(reference_id(reference)),
                None => None,
            },
        }
    }

    /// It as a cell.
    pub(crate) fn cell(&self) -> ValueRef<'_>
        ensures { owned result ≡ or_null Text self.now }
    {
        match &self.id {
            Some(id) => ValueRef::Text(id.as_str().as_bytes()),
            None => ValueRef::Null,
        }
    }
}

fn reference_id(reference: Reference) -> ArrayString<ID>
    ensures { result.bytes ≡ reference_id reference }
{
    let mut id = ArrayString::new();
    match reference.addressee {
        Addressee::All => id.push_str("g-"),
        Addressee::Group(group) => {
            id.push_str("g");
            push_number(&mut id, group as u128 + 1);
            id.push_str("-");
        }
        Addressee::Team(team) => {
            id.push_str("c");
            push_number(&mut id, team as u128 + 1);
            id.push_str("-");
        }
    }
    push_number(&mut id, reference.number);
    id
}

// A number in decimal digits.
fn push_number<N: Integer>(id: &mut ArrayString<ID>, number: N)
    requires { array_string_len id.old + 40 ≤ ID }
    ensures bytes { id.new.bytes ≡ id.old.bytes ++ N.text number }
    ensures room { array_string_len id.new ≤ array_string_len id.old + 40 }
{
    let mut digits = Buffer::new();
    id.push_str(digits.format(number));
}

/// The clarification that this id names: `<addressee>-<number>`. None where it is of another form.
pub(crate) fn reference_of(text: &[u8]) -> Option<Reference>
    ensures { result ≡ reference_of text.now }
{
    let dash = dash_in(text);
    let Some(addressee) = addressee_named(&text[..dash]) else {
        return None;
    };
    match number_from(&text[dash..], 1) {
        Some(number) => Some(Reference { addressee, number }),
        None => None,
    }
}

// The addressee that a text names: `g` alone is all, `c<team number>` and `g<group number>` are
// these.
fn addressee_named(text: &[u8]) -> Option<Addressee>
    ensures { result ≡ addressee_named text.now }
{
    if text == ALL.as_bytes() {
        return Some(Addressee::All);
    }
    match number_from(text, 1) {
        Some(number) => addressee_numbered(text[0], number),
        None => None,
    }
}

// The team or the group with this number; both count from 1.
fn addressee_numbered(letter: u8, number: usize) -> Option<Addressee>
    ensures { result ≡ addressee_numbered letter number }
{
    if number == 0 {
        return None;
    }
    match letter {
        b'c' => Some(Addressee::Team(number - 1)),
        b'g' => Some(Addressee::Group(number - 1)),
        _ => None,
    }
}

fn dash_in(text: &[u8]) -> usize
    ensures value { result ≡ dash_in text.now }
    ensures within { result ≤ length text.now }
{
    for at in 0..text.len() {
        if text[at] == b'-' {
            return at;
        }
    }
    text.len()
}

// The number that a text writes from a place on, if it writes one.
fn number_from(text: &[u8], at: usize) -> Option<usize>
    ensures value { result ≡ number_written (drop at text.now) }
    ensures within { IfSome result (λ n. at < length text.now) }
{
    if at >= text.len() {
        return None;
    }
    number_written(&text[at..])
}

#[tactic(auto, using(crate::proofs::NumeralLemmas::numeral_tested, crate::proofs::NumeralLemmas::numeral_from_test))]
fn number_written(text: &[u8]) -> Option<usize>
    ensures { result ≡ number_written text.now }
{
    match decimal_number(text, 999_999_999_999) {
        Some(number) => Some(number as usize),
        None => None,
    }
}
