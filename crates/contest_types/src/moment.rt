//! Moments, and their texts.
ghost use Rattle.std.specs.Prelude.{◌≡◌, ◌*◌, ◌≤◌, ℕ, List, Ok, IfOk, IfSome, IfNone, IsOk, pos};
ghost use Rattle.std.specs.Prelude.{SomeIff};
ghost use Rattle.std.specs.Str.{IsUtf8};
ghost use Rattle.contest_types.specs.MomentText.{latest, IsMomentText, ShowsMoment, moment_text};

use crate::limits::LAST_MOMENT;
use crate::{Refusal, TimeSpan};
use jiff::Timestamp;
use jiff::fmt::temporal;
use jiff::tz::Offset;
use std::marker::Model;

/// A moment: whole milliseconds since 1970-01-01T00:00:00Z, up to the end of the year 9998 (Contest
/// API 2023-06, TIME).
#[derive(Clone, Copy, PartialEq, Eq, PartialOrd, Ord)]
pub struct Moment {
    milliseconds: u64,
}

impl Model for Moment {
    ghost use Rattle.std.specs.Prelude.{ℕ, ◌≤◌};
    ghost use Rattle.contest_types.specs.MomentText.{latest};

    ghost Value = { ℕ };

    ghost view = { λ t. t.milliseconds };

    ghost invariant = { λ t. t.milliseconds ≤ latest };

    ghost inverse = { λ n. record { milliseconds = n } };
}

impl Moment {
    /// So many milliseconds after 1970; none past the end of the year 9998.
    pub fn from_milliseconds(milliseconds: u64) -> Option<Moment>
        ensures { SomeIff result (milliseconds ≤ latest) milliseconds }
    {
        if milliseconds <= LAST_MOMENT {
            Some(Moment { milliseconds })
        } else {
            None
        }
    }

    /// The moment so long after 1970.
    pub fn from_time_span(span: TimeSpan) -> Moment
        ensures { result ≡ span }
    {
        Moment {
            milliseconds: span.milliseconds(),
        }
    }

    /// The milliseconds since 1970.
    pub fn milliseconds(self) -> u64
        ensures value { result ≡ self }
        ensures bound { result ≤ latest }
    {
        self.milliseconds
    }

    /// The moment that a text shows, if it shows one: a date, a time of day and an offset from UTC
    /// or `Z`, as in `2024-03-02T10:00:00.5+01:00` (RFC 3339), read as `jiff` reads an instant. A
    /// moment before 1970, past the year 9998 or off the millisecond is none.
    ///
    /// # Errors
    ///
    /// None: it takes no memory.
    pub fn parse(text: &str) -> Result<Option<Moment>, Refusal>
        ensures ok { IsOk result }
        ensures found { IfOk result (λ o. IfSome o (λ m. IsMomentText text.now m)) }
        ensures none { IfOk result (λ o. IfNone o ((m : ℕ) → IsMomentText text.now m → ⊥)) }
    {
        let Ok(instant) = text.parse::<Timestamp>() else {
            return Ok(None);
        };
        let nanoseconds = instant.as_nanosecond();
        if nanoseconds < 0 || nanoseconds % 1_000_000 != 0 {
            return Ok(None);
        }
        let milliseconds = nanoseconds / 1_000_000;
        if milliseconds > LAST_MOMENT as i128 {
            return Ok(None);
        }
        Ok(Some(Moment {
            milliseconds: milliseconds as u64,
        }))
    }
}

/// What a clock in UTC shows at a moment, to the millisecond, as `yyyy-mm-ddThh:mm:ss.uuu+00:00`
/// (Contest API 2023-06, TIME).
pub fn print_time(moment: Moment) -> [u8; 29]
    ensures shows { ShowsMoment result moment }
    ensures text { result ≡ moment_text moment }
    ensures utf8 { IsUtf8 result }
{
    let instant = instant_of(moment.milliseconds);
    let text = temporal::DateTimePrinter::new()
        .precision(Some(3))
        .timestamp_with_offset_text(instant.to_plain(), Offset::UTC.to_plain());
    let mut out = [0; 29];
    out.copy_from_slice(text.as_bytes());
    out
}

fn instant_of(milliseconds: u64) -> Timestamp
    requires { milliseconds ≤ latest }
    ensures { result.nanosecond ≡ pos (milliseconds * 1_000_000) }
{
    match Timestamp::from_millisecond(milliseconds as i64) {
        Ok(instant) => instant,
        Err(_) => unreachable!(),
    }
}

/// A moment has one text.
pub fn one_text()
    ensures { (a b : List ℕ) (m : ℕ) → ShowsMoment a m → ShowsMoment b m → a ≡ b }
{}

/// The text of a moment is a function of it: it counts the years, months and days that have begun.
pub fn text_is_counted()
    ensures { (text : List ℕ) (m : ℕ) → ShowsMoment text m → text ≡ moment_text m }
{}

/// A text shows one moment at most, when it is read and when it is printed: so two moments never
/// print alike.
pub fn one_moment()
    ensures read { (text : List ℕ) (m n : ℕ) → IsMomentText text m → IsMomentText text n → m ≡ n }
    ensures printed { (text : List ℕ) (m n : ℕ) → ShowsMoment text m → ShowsMoment text n → m ≡ n }
{}
