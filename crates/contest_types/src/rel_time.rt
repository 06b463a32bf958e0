//! Relative times: lengths of time, and their texts.
ghost use Rattle.std.specs.Prelude.{◌≡◌, ◌≢◌, ◌+◌, ◌-◌, ◌-ℤ◌, ◌*◌, ◌/◌, ◌%◌, ◌<◌, ◌≤◌, ◌++◌, ◌==◌};
ghost use Rattle.std.specs.Prelude.{ℕ, ℤ, List, Option, Some, None, SomeIff, IsTrue, IsFalse, ◌⊎◌};
ghost use Rattle.std.specs.Prelude.{IfSome, IfNone, length, pos, neg_ℤ, drop, take, false};
ghost use Rattle.std.specs.Prelude.{slice_index, unsigned_abs};
ghost use Rattle.std.specs.Str.{IsUtf8};
ghost use Rattle.contest_types.specs.RelTimeRead.{reltime_of};
ghost use Rattle.contest_types.specs.RelTimeText.{farthest, Field, IsSplit, IsClock, IsRelTimeText};
ghost use Rattle.contest_types.specs.RelTimeText.{sign, rel_time_text, clock_text};

use crate::Moment;
use crate::backwards::Backwards;
use crate::decimal::decimal_number;
use crate::limits::LAST_MOMENT;
use std::marker::Model;

/// Milliseconds of an hour.
const HOUR: u64 = 3_600_000;

/// A length of time in milliseconds, which may be below zero, spelled `(-)?(h)*h:mm:ss(.uuu)?`
/// (Contest API 2023-06, RELTIME).
#[derive(Clone, Copy, PartialEq, Eq, PartialOrd, Ord)]
pub struct RelTime {
    milliseconds: i64,
}

impl Model for RelTime {
    ghost use Rattle.std.specs.Prelude.{ℤ, ◌≤◌, unsigned_abs};
    ghost use Rattle.contest_types.specs.RelTimeText.{farthest};

    ghost Value = { ℤ };

    ghost view = { λ t. t.milliseconds };

    ghost invariant = { λ t. unsigned_abs t.milliseconds ≤ farthest };

    ghost inverse = { λ z. record { milliseconds = z } };
}

impl RelTime {
    /// The time that a text shows, if it shows one. It takes no memory.
    pub fn parse(text: &str) -> Option<RelTime>
        ensures value { result ≡ reltime_of text.now }
        ensures found { IfSome result (λ time. IsRelTimeText text.now time) }
        ensures none { IfNone result ((time : ℤ) → IsRelTimeText text.now time → ⊥) }
    {
        RelTime::from_bytes(text.as_bytes())
    }

    /// The time that bytes show, if they show one. It takes no memory.
    pub fn from_bytes(text: &[u8]) -> Option<RelTime>
        ensures value { result ≡ reltime_of text.now }
        ensures found { IfSome result (λ time. IsRelTimeText text.now time) }
        ensures none { IfNone result ((time : ℤ) → IsRelTimeText text.now time → ⊥) }
    {
        time_shown(text)
    }

    /// So many milliseconds; none farther from zero than the last moment is from 1970.
    pub fn from_milliseconds(milliseconds: i64) -> Option<RelTime>
        ensures { SomeIff result (unsigned_abs milliseconds ≤ farthest) milliseconds }
    {
        if milliseconds.unsigned_abs() <= LAST_MOMENT {
            Some(RelTime { milliseconds })
        } else {
            None
        }
    }

    /// The time from one moment to another, below zero where that is earlier.
    pub fn between(start: Moment, end: Moment) -> RelTime
        ensures { result ≡ pos end -ℤ pos start }
    {
        match RelTime::from_milliseconds(end.milliseconds() as i64 - start.milliseconds() as i64) {
            Some(time) => time,
            None => unreachable!(),
        }
    }

    /// The milliseconds, below zero for a time before.
    pub fn milliseconds(self) -> i64
        ensures value { result ≡ self }
        ensures bound { unsigned_abs result ≤ farthest }
    {
        self.milliseconds
    }
}

/// The time that a text shows, if it shows one.
fn time_shown(text: &[u8]) -> Option<RelTime>
    ensures found { IfSome result (λ time. IsRelTimeText text.now time) }
    ensures none { IfNone result ((time : ℤ) → IsRelTimeText text.now time → ⊥) }
{
    let (negative, digits) = sign_of(text);
    let n = clock_of(digits)?;
    let milliseconds = if negative { -(n as i64) } else { n as i64 };
    Some(RelTime { milliseconds })
}

/// Whether a text begins with a minus, and what is behind it.
fn sign_of(text: &[u8]) -> (bool, &[u8])
    ensures split { text.now ≡ sign result.0 ++ result.1.now }
    ensures plus { result.0 ≡ false → slice_index text.now 0 ≢ 45 }
{
    if !text.is_empty() && text[0] == b'-' {
        (true, &text[1..])
    } else {
        (false, text)
    }
}

/// The milliseconds of a text with no sign.
fn clock_of(text: &[u8]) -> Option<u64>
    ensures found { IfSome result (λ n. IsClock text.now n) }
    ensures none { IfNone result ((n : ℕ) → IsClock text.now n → ⊥) }
{
    let (clock, thousandths) = fraction_of(text);
    let (front, seconds) = field_at_end(clock, b':', 2)?;
    let (front, minutes) = field_at_end(front, b':', 2)?;
    let hours = decimal_number(front, LAST_MOMENT / HOUR)?;
    if !are_below_60(minutes, seconds) {
        return None;
    }
    let n = hours * HOUR + minutes * 60_000 + seconds * 1_000 + thousandths;
    if n <= LAST_MOMENT { Some(n) } else { None }
}

/// Whether minutes and seconds are within their ranges.
fn are_below_60(minutes: u64, seconds: u64) -> bool
    ensures yes { IsTrue result → (minutes < 60) × (seconds < 60) }
    ensures no { IsFalse result → (60 ≤ minutes) ⊎ (60 ≤ seconds) }
{
    minutes < 60 && seconds < 60
}

/// The text before a fraction, and the thousandths; the whole text where there is none.
fn fraction_of(text: &[u8]) -> (&[u8], u64)
    ensures split { IsSplit text.now result.0.now result.1 }
    ensures small { result.1 < 1_000_000_000 }
{
    match field_at_end(text, b'.', 3) {
        Some(split) => split,
        None => (text, 0),
    }
}

/// The mark and the digits that a text ends with, as what stands before the mark and the number
/// that they write.
fn field_at_end(text: &[u8], mark: u8, digits: usize) -> Option<(&[u8], u64)>
    requires few { digits < 10 }
    requires some { 0 < digits }
    ensures found { IfSome result (λ split. Field text.now mark digits split.0.now split.1) }
    ensures small { IfSome result (λ split. split.1 < 1_000_000_000) }
    ensures none { IfNone result ((front : List ℕ) (value : ℕ) → Field text.now mark digits front value → ⊥) }
{
    if text.len() <= digits {
        return None;
    }
    let at = text.len() - digits - 1;
    if text[at] != mark {
        return None;
    }
    let value = decimal_number(&text[at + 1..], 999_999_999)?;
    Some((&text[..at], value))
}

/// Writes a time at the front of the buffer as `h:mm:ss.uuu`, after a minus where it is below zero,
/// with no zeros before the hours that they don't need, and answers how many bytes that took. The
/// rest of the buffer stays as it was (Contest API 2023-06, RELTIME).
pub fn print_reltime(time: RelTime, out: &mut [u8; 24]) -> usize
    ensures fits { result ≤ 24 }
    ensures text { take result out.new ≡ rel_time_text time }
    ensures utf8 { IsUtf8 (take result out.new) }
    ensures rest { drop result out.new ≡ drop result out.old }
{
    write_reltime(time, out)
}

fn write_reltime(time: RelTime, out: &mut [u8; 24]) -> usize
    ensures near { unsigned_abs time ≤ farthest }
    ensures fits { result ≤ 24 }
    ensures text { take result out.new ≡ rel_time_text time }
    ensures rest { drop result out.new ≡ drop result out.old }
{
    let mut text = clock_text(time.milliseconds.unsigned_abs());
    if time.milliseconds < 0 {
        text.put(b'-');
    }
    let bytes = text.as_slice();
    out[..bytes.len()].copy_from_slice(bytes);
    bytes.len()
}

fn clock_text(n: u64) -> Backwards
    requires { n ≤ farthest }
    ensures text { result ≡ clock_text n }
    ensures short { length result ≤ 18 }
{
    let mut text = Backwards::new();
    text.put_three(n % 1_000);
    text.put(b'.');
    text.put_two(n / 1_000 % 60);
    text.put(b':');
    text.put_two(n / 60_000 % 60);
    text.put(b':');
    text.put_number(n / HOUR);
    text
}

/// A text shows one time at most.
pub fn one_time()
    ensures { (text : List ℕ) (a b : ℤ) → IsRelTimeText text a → IsRelTimeText text b → a ≡ b }
{}

/// What is printed shows the time, and is read back as it.
pub fn printed_reads()
    ensures shows { (t : ℤ) → unsigned_abs t ≤ farthest → IsRelTimeText (rel_time_text t) t }
    ensures reads { (t : ℤ) → unsigned_abs t ≤ farthest → reltime_of (rel_time_text t) ≡ Some t }
{}
