//! What the line on standard error tells of.

use contest_types::{Cause, decimal_number};

/// What a line tells of.
#[derive(Clone, Copy)]
pub(crate) enum Told {
    /// A file or a stream that failed.
    File,
    /// The clock.
    Clock,
    /// The port.
    Net,
    /// The refusal with this number.
    Refused(u64),
    /// The record with this number, from 1, and why it is at fault.
    Row(u64, Cause),
}

/// The causes of a record that is at fault.
const CAUSES: [Cause; 6] = [
    Cause::Malformed,
    Cause::UnknownReference,
    Cause::KeyReused,
    Cause::TableFull,
    Cause::AlreadyReleased,
    Cause::NotOpen,
];

/// The greatest number of a record that is read: a feed has at most 1 GiB.
const MOST: u64 = 4_294_967_295;

/// What a line tells of, if it is one that tells of a refusal.
pub(crate) fn told_in(line: &[u8]) -> Option<Told> {
    let line = std::str::from_utf8(line).ok()?;
    let (word, rest) = first_word(line.strip_prefix("refused: ")?);
    match word {
        "File" => Some(Told::File),
        "Clock" => Some(Told::Clock),
        "Net" => Some(Told::Net),
        _ => refusal_in(word.strip_prefix("E")?, rest),
    }
}

// The refusal with this number, and what is said behind it.
fn refusal_in(number: &str, rest: &str) -> Option<Told> {
    let number = decimal_number(number.as_bytes(), 99)?;
    let (_, rest) = first_word(rest);
    if rest.is_empty() {
        return Some(Told::Refused(number));
    }
    let (record, cause) = first_word(rest);
    let record = decimal_number(record.as_bytes(), MOST)?;
    Some(Told::Row(record, cause_named(cause)?))
}

// What comes before the first space, and what comes behind it.
fn first_word(text: &str) -> (&str, &str) {
    match text.split_once(' ') {
        Some(parts) => parts,
        None => (text, ""),
    }
}

fn cause_named(name: &str) -> Option<Cause> {
    CAUSES.iter().copied().find(|cause| cause.name() == name)
}
