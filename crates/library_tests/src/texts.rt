//! Ids, names, numbers and times: what is read, and what is printed.

use contest_types::limits::LAST_MOMENT;
use contest_types::{
    Id, Moment, Name, Refusal, RelTime, decimal_number, print_reltime, print_time,
};
use std::alloc::Global;
use std::test::Fail;

/// The text of a contest time that is read, and how it is printed; none where it isn't read.
static CONTEST_TIMES: [(&str, Option<&str>); 10] = [
    ("-0:00:01", Some("-0:00:01.000")),
    ("00:05:00", Some("0:05:00.000")),
    ("70380767:59:59.999", Some("70380767:59:59.999")),
    ("-70380767:59:59.999", Some("-70380767:59:59.999")),
    ("70380768:00:00", None),
    ("-70380768:00:00", None),
    ("0:60:00", None),
    ("0:05:00.5", None),
    ("5:00", None),
    ("", None),
];

/// Whether a contest time is read so.
fn is_contest_time(text: &str, shown: Option<&str>) -> bool {
    match (RelTime::parse(text), shown) {
        (None, None) => true,
        (Some(time), Some(shown)) => {
            let mut out = [b'#'; 24];
            let n = print_reltime(time, &mut out);
            &out[..n] == shown.as_bytes()
        }
        _ => false,
    }
}

/// The text of a moment, and its milliseconds since 1970; none where it isn't read. Those of 1985
/// and 1990 are examples of RFC 3339, section 5.8; a leap second is read as the second before it.
static MOMENTS: [(&str, Option<u64>); 27] = [
    ("2024-03-02T09:00:00Z", Some(1_709_370_000_000)),
    ("2024-03-02t09:00:00z", Some(1_709_370_000_000)),
    ("2024-03-02 09:00:00Z", Some(1_709_370_000_000)),
    ("2024-03-02T10:00:00+01:00", Some(1_709_370_000_000)),
    ("2024-03-02T05:30:00-03:30", Some(1_709_370_000_000)),
    ("2024-03-02T09:00:00.1Z", Some(1_709_370_000_100)),
    ("2024-03-02T09:00:00.12Z", Some(1_709_370_000_120)),
    ("2024-03-02T09:00:00.123Z", Some(1_709_370_000_123)),
    ("2024-03-02T09:00:00.1230Z", Some(1_709_370_000_123)),
    ("2024-03-02T09:00:00.12300Z", Some(1_709_370_000_123)),
    ("2024-03-02T09:00:00.123000Z", Some(1_709_370_000_123)),
    ("2024-03-02T09:00:00.1230000Z", Some(1_709_370_000_123)),
    ("2024-03-02T09:00:00.12300000Z", Some(1_709_370_000_123)),
    ("2024-03-02T09:00:00.123000000Z", Some(1_709_370_000_123)),
    ("2024-03-02T10:00:00+01", Some(1_709_370_000_000)),
    ("2024-03-02 09z", Some(1_709_370_000_000)),
    ("2024-03-02T09:00:00,5Z", Some(1_709_370_000_500)),
    ("1970-01-01T00:00:00Z", Some(0)),
    ("9998-12-31T23:59:59.999Z", Some(253_370_764_799_999)),
    ("1985-04-12T23:20:50.52Z", Some(482_196_050_520)),
    ("1990-12-31T23:59:60Z", Some(662_687_999_000)),
    ("1969-12-31T23:59:59.999Z", None),
    ("9999-01-01T00:00:00Z", None),
    ("2024-03-02T09:00:00.0001Z", None),
    ("2024-03-02T09:00:00.123000001Z", None),
    ("2024-03-02T09:00:61Z", None),
    ("2024-03-02T09:00:00", None),
];

fn milliseconds_of(text: &str) -> Result<Option<u64>, Refusal> {
    Ok(Moment::parse(text)?.map(|moment| moment.milliseconds()))
}

/// A moment, and how it is printed.
static PRINTED: [(u64, &str); 7] = [
    (0, "1970-01-01T00:00:00.000+00:00"),
    (482_196_050_520, "1985-04-12T23:20:50.520+00:00"),
    (946_684_799_999, "1999-12-31T23:59:59.999+00:00"),
    (951_782_400_000, "2000-02-29T00:00:00.000+00:00"),
    (1_709_370_000_000, "2024-03-02T09:00:00.000+00:00"),
    (4_107_542_400_000, "2100-03-01T00:00:00.000+00:00"),
    (LAST_MOMENT, "9998-12-31T23:59:59.999+00:00"),
];

fn is_printed(milliseconds: u64, text: &str) -> bool {
    match Moment::from_milliseconds(milliseconds) {
        Some(moment) => print_time(moment).as_slice() == text.as_bytes(),
        None => false,
    }
}

#[test]
fn reads_and_prints_contest_times(rt: HostRuntime) {
    for (text, shown) in &CONTEST_TIMES {
        assert!(rt; is_contest_time(text, *shown), "the contest time {text}");
    }
}

#[test]
fn reads_moments(rt: HostRuntime) -> Result<(), Fail> {
    for (text, milliseconds) in &MOMENTS {
        assert_eq!(rt; milliseconds_of(text)?, *milliseconds, "the moment {text}");
    }
    Ok(())
}

#[test]
fn prints_moments(rt: HostRuntime) {
    for (milliseconds, text) in &PRINTED {
        assert!(rt; is_printed(*milliseconds, text), "{text}");
    }
}

/// The ends of what can be kept: contest times on both sides of zero, and moments.
#[test]
fn times_have_ends(rt: HostRuntime) {
    assert!(rt; RelTime::from_milliseconds(253_370_764_799_999).is_some());
    assert!(rt; RelTime::from_milliseconds(-253_370_764_800_000).is_none());
    assert!(rt; Moment::from_milliseconds(LAST_MOMENT + 1).is_none());
}

/// A text, whether it is an id, and whether it is a name.
static TEXTS: [(&str, bool, bool); 5] = [
    ("abcdefghijklmnopqrstuvwxyz012345_.-9", true, true),
    ("abcdefghijklmnopqrstuvwxyz012345_.-90", false, true),
    ("-a", false, true),
    ("Zürich", false, true),
    ("a\u{85}b", false, false),
];

fn is_id(alloc: Global, text: &str) -> Result<bool, Refusal> {
    Ok(Id::parse(alloc, text)?.is_some())
}

fn is_name(alloc: Global, text: &str) -> Result<bool, Refusal> {
    Ok(Name::parse(alloc, text)?.is_some())
}

#[test]
fn reads_ids(rt: HostRuntime) -> Result<(), Fail> {
    for (text, id, _) in &TEXTS {
        assert_eq!(rt; is_id(rt.alloc(), text)?, *id, "the id {text}");
    }
    Ok(())
}

#[test]
fn reads_names(rt: HostRuntime) -> Result<(), Fail> {
    for (text, _, name) in &TEXTS {
        assert_eq!(rt; is_name(rt.alloc(), text)?, *name, "the name {text}");
    }
    Ok(())
}

#[test]
fn reads_numbers(rt: HostRuntime) {
    assert_eq!(rt; decimal_number(b"007", 10), Some(7));
    assert_eq!(rt; decimal_number(b"11", 10), None);
}
