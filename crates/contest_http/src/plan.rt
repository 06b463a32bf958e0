//! What the head of a request asks for.
ghost use Rattle.std.specs.Prelude.{◌≡◌, ◌≤◌, ◌<◌, ◌*◌, ◌∷◌, [], IfErr, IfOk, IsTrue, Option};
ghost use Rattle.std.specs.Prelude.{codes, length, nat_lt};
ghost use Rattle.std.specs.Char.{digit_value};
ghost use Rattle.std.specs.List.{list_all};
ghost use Rattle.httparse.specs.Grammar.{RequestHead};
ghost use Rattle.contest_types.specs.RelTimeRead.{are_digits};
ghost use Rattle.contest_http.specs.Fields.{values};
ghost use Rattle.contest_http.specs.Frames.{AsksForHead, IsHeadOf, IsPlanOf, plan_found, unended};
ghost use Rattle.contest_http.specs.Targets.{path_of};
ghost use Rattle.contest_http.specs.Plans.{body_length, expected_of, is_interim_due, lacks_host};
ghost use Rattle.contest_http.specs.Plans.{plan_at, plan_of};

use crate::credentials::{copied, credential_of, key_of};
use crate::fields::{Fields, Found};
use crate::head::has_end;
use crate::method::{is_head, method_of};
use crate::parsing::parse_head;
use crate::target::path_of;
use contest_desk::{Credential, KeyField, Method};
use contest_types::limits::{REQUEST_BODY, REQUEST_HEAD};
use contest_types::{Refusal, Rows, decimal_number};
use httparse::spans::{EMPTY_HEADER_SPAN, HeaderSpan};
use std::alloc::{AllocError, Global};

/// A request but for its body, which is still to come.
#[derive(Drop)]
pub(crate) struct Expected {
    /// Who asks.
    pub credential: Credential,
    /// By which method.
    pub method: Method,
    /// On which path.
    pub path: Rows<u8>,
    /// By which idempotency key.
    pub key: KeyField,
    /// The bytes of the body.
    pub size: usize,
    /// The client waits to be told to go on.
    pub is_due: bool,
}

/// What a head asks for.
#[derive(Drop)]
pub(crate) enum Plan {
    /// It is refused; and whether only the head of the reply is asked for.
    Refuse(Refusal, bool),
    /// A request.
    Expect(Expected),
}

/// Memory was refused; and whether only the head of the reply is asked for, as far as that was
/// read.
#[derive(Clone, Copy)]
pub(crate) struct MemoryRefused {
    pub head_only: bool,
}

/// What the bytes that are taken as a head ask for; nothing where there is none.
pub(crate) fn plan_head(alloc: Global, head: &[u8]) -> Result<Option<Plan>, MemoryRefused>
    ensures plan { IfOk result (IsPlanOf head.now) }
    ensures memory { IfErr result (λ e. IsTrue e.head_only → AsksForHead head.now) }
{
    if head.is_empty() {
        return Ok(None);
    }
    if !has_end(head) {
        return Ok(Some(Plan::Refuse(unended(head.len()), false)));
    }
    match vec![in alloc; EMPTY_HEADER_SPAN; head.len() / 3 + 1] {
        Ok(mut room) => match judge(alloc, head, room.as_mut_slice()) {
            Ok(plan) => Ok(Some(plan)),
            Err(refused) => Err(refused),
        },
        Err(AllocError) => Err(MemoryRefused { head_only: false }),
    }
}

// Why so many bytes without a head's end are refused.
fn unended(size: usize) -> Refusal
    ensures { result ≡ unended size }
{
    if size == REQUEST_HEAD {
        Refusal::HeadTooLarge
    } else {
        Refusal::Malformed
    }
}

// What bytes with the end of a head ask for, with room for the fields.
fn judge(alloc: Global, head: &[u8], room: &mut [HeaderSpan]) -> Result<Plan, MemoryRefused>
    requires { length head.now ≤ 3 * length room.old }
    ensures plan { IfOk result (λ plan. (found : Option RequestHead) × IsHeadOf head.now found × (plan ≡ plan_found found)) }
    ensures memory { IfErr result (λ e. IsTrue e.head_only → AsksForHead head.now) }
{
    match parse_head(head, room) {
        None => Ok(Plan::Refuse(Refusal::Malformed, false)),
        Some(spans) => {
            let fields = Fields::new(head, &room[..spans.headers]);
            let method = method_of(spans.method.of(head));
            match plan_of(alloc, method, spans.path.of(head), spans.version, &fields) {
                Ok(plan) => Ok(plan),
                Err(AllocError) => Err(MemoryRefused {
                    head_only: is_head(method),
                }),
            }
        }
    }
}

// What the parts of a head ask for.
fn plan_of(
    alloc: Global,
    method: Method,
    target: &[u8],
    minor: u8,
    fields: &Fields<'_>,
) -> Result<Plan, AllocError>
    ensures { IfOk result (λ plan. plan ≡ plan_of method target.now minor fields.now) }
{
    if has_encoding(fields) {
        return Ok(Plan::Refuse(Refusal::Encoding, is_head(method)));
    }
    if lacks_host(minor, fields) {
        return Ok(Plan::Refuse(Refusal::Malformed, is_head(method)));
    }
    match body_length(fields) {
        Ok(size) => plan_at(alloc, method, target, minor, size, fields),
        Err(refusal) => Ok(Plan::Refuse(refusal, is_head(method))),
    }
}

// The same, where the length of its body is known.
fn plan_at(
    alloc: Global,
    method: Method,
    target: &[u8],
    minor: u8,
    size: usize,
    fields: &Fields<'_>,
) -> Result<Plan, AllocError>
    ensures { IfOk result (λ plan. plan ≡ plan_at method minor size fields.now (path_of target.now)) }
{
    match path_of(target) {
        Some(path) => Ok(Plan::Expect(expect(alloc, method, path, minor, size, fields)?)),
        None => Ok(Plan::Refuse(Refusal::Malformed, is_head(method))),
    }
}

fn expect(
    alloc: Global,
    method: Method,
    path: &[u8],
    minor: u8,
    size: usize,
    fields: &Fields<'_>,
) -> Result<Expected, AllocError>
    ensures { IfOk result (λ e. e ≡ expected_of method path.now minor size fields.now) }
{
    let is_due = is_interim_due(minor, size, fields);
    let credential = credential_of(alloc, fields)?;
    let key = key_of(alloc, fields)?;
    let path = copied(alloc, path)?;
    Ok(Expected {
        credential,
        method,
        path,
        key,
        size,
        is_due,
    })
}

fn has_encoding(fields: &Fields<'_>) -> bool
    ensures { result ≡ nat_lt 0 (length (values (codes "transfer-encoding") fields.now)) }
{
    match fields.find(b"transfer-encoding") {
        Found::Nowhere => false,
        Found::Once(_) => true,
        Found::Often => true,
    }
}

fn lacks_host(minor: u8, fields: &Fields<'_>) -> bool
    ensures { result ≡ lacks_host minor fields.now }
{
    if minor != 1 {
        return false;
    }
    match fields.find(b"host") {
        Found::Nowhere => true,
        Found::Once(_) => false,
        Found::Often => true,
    }
}

fn body_length(fields: &Fields<'_>) -> Result<usize, Refusal>
    ensures { result ≡ body_length (values (codes "content-length") fields.now) }
{
    match fields.find(b"content-length") {
        Found::Nowhere => Ok(0),
        Found::Once(value) => length_in(value),
        Found::Often => Err(Refusal::Malformed),
    }
}

// By the one value of its field.
fn length_in(value: &[u8]) -> Result<usize, Refusal>
    ensures { result ≡ body_length (value.now ∷ []) }
{
    match decimal_number(value, REQUEST_BODY as u64) {
        Some(size) => Ok(size as usize),
        None => {
            if are_digits(value) {
                Err(Refusal::BodyTooLarge)
            } else {
                Err(Refusal::Malformed)
            }
        }
    }
}

fn are_digits(text: &[u8]) -> bool
    ensures { result ≡ are_digits text.now }
{
    !text.is_empty() && all_digits(text)
}

fn all_digits(text: &[u8]) -> bool
    ensures { result ≡ list_all (λ c. nat_lt (digit_value c) 10) text.now }
{
    text.iter().all(|byte| is_digit(*byte))
}

fn is_digit(byte: u8) -> bool
    ensures { result ≡ nat_lt (digit_value byte) 10 }
{
    byte.is_ascii_digit()
}

// Whether the client is to be told to go on.
fn is_interim_due(minor: u8, size: usize, fields: &Fields<'_>) -> bool
    ensures { result ≡ is_interim_due minor size fields.now }
{
    minor == 1 && size > 0 && fields.has_value(b"expect", b"100-continue")
}
