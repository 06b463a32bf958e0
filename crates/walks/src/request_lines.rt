//! Requests as walks show them: `at 2024-03-02T09:05:00Z token-a1 key k1`, the moment with who asks
//! and the idempotency key, and below it `POST /contests/rehearsal/submissions {..}`.

use crate::import_lines::import_at;
use base64::engine::general_purpose::STANDARD;
use contest_desk::{Credential, Item, KeyField, Method, Request, RequestItem};
use contest_types::{Id, Moment, Refusal, Rows};
use std::alloc::{AllocError, Global};
use std::test::Fail;

/// The requests and imports of a step, in order.
pub fn items_of(alloc: Global, step: &str) -> Result<Vec<Item>, Fail> {
    let mut items = Vec::new(alloc);
    for asked in step.split("\nat ").skip(1) {
        items.push(item_of(alloc, asked)?)?;
    }
    Ok(items)
}

/// A request or an import: its moment, who asks, and the line below it. What comes after that is no
/// part of it.
fn item_of(alloc: Global, asked: &str) -> Result<Item, Fail> {
    let (head, rest) = asked.split_once('\n').ok_or("a moment without a request")?;
    let (now, caller) = head.split_once(' ').ok_or("a moment without a caller")?;
    let now = Moment::parse(now)?.ok_or("no moment")?;
    let (line, _) = rest.split_once('\n').unwrap_or((rest, ""));
    if caller == "import" {
        return import_at(alloc, now, line);
    }
    Ok(item_at(alloc, now, caller, line)?)
}

/// The request of a caller, with its key if there is one, at a moment.
fn item_at(alloc: Global, now: Moment, caller: &str, line: &str) -> Result<Item, Refusal> {
    let (who, key) = match caller.split_once(" key ") {
        Some((who, key)) => (who, Some(key)),
        None => (caller, None),
    };
    let request = request(alloc, key, line)?;
    Ok(Item::Request(RequestItem {
        now,
        credential: credential(alloc, who)?,
        request,
    }))
}

/// The credential of the public, of an account's token, or one that can't be read.
fn credential(alloc: Global, who: &str) -> Result<Credential, AllocError> {
    match who {
        "public" => Ok(Credential::Absent),
        "bad token" => Ok(Credential::Bad),
        token => Ok(Credential::Token(rows_of(alloc, token)?)),
    }
}

/// The key that this text gives, if there is one. A text that is no id gives none that can be read.
fn key_field(alloc: Global, text: Option<&str>) -> Result<KeyField, Refusal> {
    let Some(text) = text else {
        return Ok(KeyField::Absent);
    };
    match Id::parse(alloc, text)? {
        Some(key) => Ok(KeyField::Key(key)),
        None => Ok(KeyField::Bad),
    }
}

fn request(alloc: Global, key: Option<&str>, line: &str) -> Result<Request, Refusal> {
    let (method, rest) = line.split_once(' ').unwrap_or((line, ""));
    let (path, body) = rest.split_once(' ').unwrap_or((rest, ""));
    let path = rows_of(alloc, path)?;
    let body = body_of(alloc, body)?;
    let key = key_field(alloc, key)?;
    Ok(Request {
        method: method_of(method),
        path,
        key,
        body,
    })
}

fn method_of(text: &str) -> Method {
    match text {
        "GET" => Method::Get,
        "HEAD" => Method::Head,
        "POST" => Method::Post,
        "PATCH" => Method::Patch,
        _ => Method::Other,
    }
}

fn rows_of(alloc: Global, text: &str) -> Result<Rows<u8>, AllocError> {
    Ok(Rows::from_vec(Vec::from_slice(alloc, text.as_bytes())?))
}

/// The body, in which `<1048576 zeros>` stands for the base64 of so many bytes.
fn body_of(alloc: Global, text: &str) -> Result<Rows<u8>, AllocError> {
    match zeros_in(text) {
        Some((front, count, back)) => with_zeros(alloc, front, count, back),
        None => rows_of(alloc, text),
    }
}

/// What stands before the zeros, how many they are, and what stands after them.
fn zeros_in(text: &str) -> Option<(&str, usize, &str)> {
    let (front, rest) = text.split_once('<')?;
    let (count, back) = rest.split_once(" zeros>")?;
    Some((front, count.parse().ok()?, back))
}

fn with_zeros(
    alloc: Global,
    front: &str,
    count: usize,
    back: &str,
) -> Result<Rows<u8>, AllocError> {
    let mut zeros = Vec::new(alloc);
    zeros.resize(count, 0)?;
    let mut text = String::from_str(alloc, front)?;
    STANDARD.encode_string(&zeros, &mut text)?;
    text.push_str(back)?;
    rows_of(alloc, text.as_str())
}
