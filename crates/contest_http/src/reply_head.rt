//! The head of a reply.
ghost use Rattle.std.specs.Prelude.{◌≡◌, ◌≤◌, ◌+◌, ◌++◌, length};
ghost use Rattle.httpdate.specs.Date.{date_text};
ghost use Rattle.contest_operations.specs.Offers.{methods_text};
ghost use Rattle.contest_http.specs.Spelling.{extra_line, head_lines, head_text, phrase_of};
ghost use Rattle.contest_http.specs.Spelling.{status_text, type_text};

use crate::head_buffer::HeadBuffer;
use contest_desk::{AllowedMethods, ContentType, ExtraField, Reply};
use http::StatusCode;
use httpdate::HttpDate;
use itoa::Buffer;

/// The head of a reply with that date.
pub(crate) fn head_of(date: HttpDate, reply: &Reply) -> HeadBuffer
    ensures { result ≡ head_text (date_text date) reply.now }
{
    let date = date.to_bytes();
    let mut digits = Buffer::new();
    let size = digits.format(reply.body.as_bytes().len());
    let mut extra = HeadBuffer::new();
    push_extra(&mut extra, reply.extra);
    let mut status = HeadBuffer::new();
    push_status(&mut status, reply.status);
    head_lines(
        status.as_bytes(),
        &date,
        extra.as_bytes(),
        type_text(reply.content).as_bytes(),
        size.as_bytes(),
    )
}

#[tactic(auto, unfolding(crate::specs::Spelling::head_lines))]
fn head_lines(status: &[u8], date: &[u8], extra: &[u8], kind: &[u8], size: &[u8]) -> HeadBuffer
    requires { length status.now + length date.now + length extra.now + length kind.now + length size.now ≤ 400 }
    ensures { result ≡ head_lines status.now date.now extra.now kind.now size.now }
{
    let mut head = HeadBuffer::new();
    head.push(b"HTTP/1.1 ");
    head.push(status);
    head.push(b"\r\nDate: ");
    head.push(date);
    head.push(extra);
    head.push(b"\r\nContent-Type: ");
    head.push(kind);
    head.push(b"\r\nContent-Length: ");
    head.push(size);
    head.push(b"\r\nConnection: close\r\n\r\n");
    head
}

// Puts a status and its phrase at the end.
fn push_status(head: &mut HeadBuffer, status: u16)
    requires { length head.old ≤ 400 }
    ensures text { head.new ≡ head.old ++ status_text status }
    ensures short { length head.new ≤ length head.old + 50 }
{
    let mut digits = Buffer::new();
    head.push(digits.format(status).as_bytes());
    head.push(b" ");
    head.push(phrase_of(status).as_bytes());
}

// Puts the line of a field that only some replies have at the end.
fn push_extra(head: &mut HeadBuffer, extra: ExtraField)
    requires { length head.old ≤ 400 }
    ensures text { head.new ≡ head.old ++ extra_line extra }
    ensures short { length head.new ≤ length head.old + 50 }
{
    match extra {
        ExtraField::Nothing => {}
        ExtraField::Allow(methods) => {
            head.push(b"\r\nAllow: ");
            head.push(methods_text(methods).as_bytes());
        }
        ExtraField::WwwAuthenticate => {
            head.push(b"\r\nWWW-Authenticate: Bearer realm=\"desk\"");
        }
    }
}

fn methods_text(methods: AllowedMethods) -> &'static str
    ensures text { result.now ≡ methods_text methods }
    ensures short { length result.now ≤ 23 }
{
    methods.text()
}

fn type_text(kind: ContentType) -> &'static str
    ensures text { result.now ≡ type_text kind }
    ensures short { length result.now ≤ 20 }
{
    match kind {
        ContentType::Json => "application/json",
        ContentType::JsonLines => "application/x-ndjson",
        ContentType::Zip => "application/zip",
    }
}

// The phrase of a status (RFC 9110, section 15).
fn phrase_of(status: u16) -> &'static str
    ensures text { result.now ≡ phrase_of status }
    ensures short { length result.now ≤ 40 }
{
    match StatusCode::from_u16(status) {
        Ok(status) => status.canonical_reason().unwrap_or(""),
        Err(_) => "",
    }
}
