//! How many records of a file added something.
ghost use Rattle.std.specs.Prelude.{◌≡◌, count_by};
ghost use Rattle.contest_desk.specs.Imports.{is_of_record};

use contest_types::Entry;

/// How many of the entries that a file adds come of records of their own.
pub fn added_count(entries: &[Entry]) -> u64
    ensures { result ≡ count_by is_of_record entries.now }
{
    let mut count = 0;
    for place in 0..entries.len() {
        if is_of_record(&entries[place]) {
            count += 1;
        }
    }
    count
}

// Whether it does: the release that goes with an imported verdict doesn't.
fn is_of_record(entry: &Entry) -> bool
    ensures { result ≡ is_of_record entry.now }
{
    !matches!(entry, Entry::NewRelease(_))
}
