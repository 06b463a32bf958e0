//! The fields of a head, by their names.
ghost use Rattle.std.specs.Prelude.{◌≡◌, ◌≤◌, ◌<◌, IsTrue, List, codes, drop, length, map};
ghost use Rattle.std.specs.Prelude.{slice_index_or, All};
ghost use Rattle.std.specs.Str.{str_eq_ignore_ascii_case};
ghost use Rattle.httparse.specs.Spans.{IsHeaderWithin, header_bytes};
ghost use Rattle.httparse.specs.declared.spans.HeaderSpan.{HeaderSpan as FieldSpan};
ghost use Rattle.contest_http.specs.Fields.{FieldText, IsFound, has_value, is_named, values};

use httparse::spans::HeaderSpan;
use std::marker::Model;

/// The fields of a head. Contracts see their names and values, in order.
#[derive(Drop)]
pub(crate) struct Fields<'a> {
    head: &'a [u8],
    spans: &'a [HeaderSpan],
}

impl<'a> Model for Fields<'a> {
    ghost use Rattle.std.specs.Prelude.{All, List, length, map};
    ghost use Rattle.httparse.specs.Spans.{IsHeaderWithin, header_bytes};
    ghost use Rattle.contest_http.specs.Fields.{FieldText};

    ghost Value = { List FieldText };

    ghost view = { λ f. map (header_bytes f.head.now) f.spans.now };

    ghost invariant = { λ f. All (IsHeaderWithin (length f.head.now)) f.spans.now };
}

/// How often a name stands among the fields.
pub(crate) enum Found<'a> {
    /// Not at all.
    Nowhere,
    /// Once, with this value.
    Once(&'a [u8]),
    /// Twice or more.
    Often,
}

impl<'a> Fields<'a> {
    /// The fields that the spans cover.
    pub(crate) fn new(head: &'a [u8], spans: &'a [HeaderSpan]) -> Fields<'a>
        requires { All (IsHeaderWithin (length head.now)) spans.now }
        ensures { result ≡ map (header_bytes head.now) spans.now }
    {
        Fields { head, spans }
    }

    /// How often a name stands, and its value if once.
    pub(crate) fn find(&self, name: &[u8]) -> Found<'a>
        ensures { IsFound (values name.now self.now) result }
    {
        find_in(self.head, self.spans, name)
    }

    /// Whether some field of that name has that value, in any case.
    pub(crate) fn has_value(&self, name: &[u8], value: &[u8]) -> bool
        ensures { result ≡ has_value name.now value.now self.now }
    {
        has_value_in(self.head, self.spans, name, value)
    }
}

fn find_in<'a>(head: &'a [u8], spans: &[HeaderSpan], name: &[u8]) -> Found<'a>
    requires { All (IsHeaderWithin (length head.now)) spans.now }
    ensures { IsFound (values name.now (map (header_bytes head.now) spans.now)) result }
{
    let at = first(head, spans, name, 0);
    if at == spans.len() {
        return Found::Nowhere;
    }
    let next = first(head, spans, name, at + 1);
    if next == spans.len() {
        return Found::Once(spans[at].value.of(head));
    }
    Found::Often
}

fn has_value_in(head: &[u8], spans: &[HeaderSpan], name: &[u8], value: &[u8]) -> bool
    requires { All (IsHeaderWithin (length head.now)) spans.now }
    ensures { result ≡ has_value name.now value.now (map (header_bytes head.now) spans.now) }
{
    let mut at = 0;
    while at < spans.len() {
        if is_named(head, spans[at], name) && has_this(head, spans[at], value) {
            return true;
        }
        at += 1;
    }
    false
}

// Whether a field has that name.
fn is_named(head: &[u8], span: HeaderSpan, name: &[u8]) -> bool
    requires { IsHeaderWithin (length head.now) span }
    ensures { result ≡ is_named name.now (header_bytes head.now span) }
{
    span.name.of(head).eq_ignore_ascii_case(name)
}

// Whether a field has that value.
fn has_this(head: &[u8], span: HeaderSpan, value: &[u8]) -> bool
    requires { IsHeaderWithin (length head.now) span }
    ensures { result ≡ str_eq_ignore_ascii_case (header_bytes head.now span).1 value.now }
{
    span.value.of(head).eq_ignore_ascii_case(value)
}

// The place of the first field of that name from a place on; the fields' number where there is
// none.
fn first(head: &[u8], spans: &[HeaderSpan], name: &[u8], from: usize) -> usize
    requires within { All (IsHeaderWithin (length head.now)) spans.now }
    requires from { from ≤ length spans.now }
    ensures bound { result ≤ length spans.now }
    ensures after { from ≤ result }
    ensures before { values name.now (map (header_bytes head.now) (drop from spans.now)) ≡ values name.now (map (header_bytes head.now) (drop result spans.now)) }
    ensures named { (d : FieldSpan) → result < length spans.now → IsTrue (is_named name.now (header_bytes head.now (slice_index_or spans.now result d))) }
{
    let mut at = from;
    while at < spans.len() {
        if is_named(head, spans[at], name) {
            return at;
        }
        at += 1;
    }
    at
}
