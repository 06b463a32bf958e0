//! Who asks and by which key, as the fields of a head say it.
ghost use Rattle.std.specs.Prelude.{◌≡◌, ◌≤◌, ◌==◌, ◌∷◌, [], IfOk, IfSome, codes, drop, length};
ghost use Rattle.std.specs.Prelude.{not, take};
ghost use Rattle.std.specs.List.{position};
ghost use Rattle.std.specs.Option.{option_map};
ghost use Rattle.std.specs.Str.{str_eq_ignore_ascii_case};
ghost use Rattle.contest_http.specs.Credentials.{bearer_token, credential_of, key_of, spaces};
ghost use Rattle.contest_http.specs.Credentials.{token_after};
ghost use Rattle.contest_http.specs.Fields.{values};

use crate::fields::{Fields, Found};
use contest_desk::{Credential, KeyField};
use contest_files::is_token;
use contest_types::{Id, Rows};
use std::alloc::{AllocError, Global};

/// Who asks (RFC 6750, section 2.1).
///
/// # Errors
///
/// Want of memory alone.
pub(crate) fn credential_of(alloc: Global, fields: &Fields<'_>) -> Result<Credential, AllocError>
    ensures { IfOk result (λ credential. credential ≡ credential_of (values (codes "authorization") fields.now)) }
{
    match fields.find(b"authorization") {
        Found::Nowhere => Ok(Credential::Absent),
        Found::Once(value) => credential_in(alloc, value),
        Found::Often => Ok(Credential::Bad),
    }
}

/// By which idempotency key.
///
/// # Errors
///
/// Want of memory alone.
pub(crate) fn key_of(alloc: Global, fields: &Fields<'_>) -> Result<KeyField, AllocError>
    ensures { IfOk result (λ key. key ≡ key_of (values (codes "idempotency-key") fields.now)) }
{
    match fields.find(b"idempotency-key") {
        Found::Nowhere => Ok(KeyField::Absent),
        Found::Once(value) => key_in(alloc, value),
        Found::Often => Ok(KeyField::Bad),
    }
}

/// A copy of bytes.
///
/// # Errors
///
/// Want of memory alone.
pub(crate) fn copied(alloc: Global, bytes: &[u8]) -> Result<Rows<u8>, AllocError>
    ensures { IfOk result (λ copy. copy ≡ bytes.now) }
{
    Ok(Rows::from_vec(Vec::from_slice(alloc, bytes)?))
}

// By the one value of its field.
fn credential_in(alloc: Global, value: &[u8]) -> Result<Credential, AllocError>
    ensures { IfOk result (λ credential. credential ≡ credential_of (value.now ∷ [])) }
{
    match bearer_token(value) {
        Some(token) => Ok(Credential::Token(copied(alloc, token)?)),
        None => Ok(Credential::Bad),
    }
}

// By the one value of its field.
fn key_in(alloc: Global, value: &[u8]) -> Result<KeyField, AllocError>
    ensures { IfOk result (λ key. key ≡ key_of (value.now ∷ [])) }
{
    match Id::from_bytes(alloc, value) {
        Ok(Some(id)) => Ok(KeyField::Key(id)),
        Ok(None) => Ok(KeyField::Bad),
        Err(_) => Err(AllocError),
    }
}

fn bearer_token(value: &[u8]) -> Option<&[u8]>
    ensures { option_map (λ token. token.now) result ≡ bearer_token value.now }
{
    let (scheme, rest) = split(value, 6);
    if scheme.eq_ignore_ascii_case(b"bearer") {
        token_after(rest)
    } else {
        None
    }
}

fn token_after(rest: &[u8]) -> Option<&[u8]>
    ensures { option_map (λ token. token.now) result ≡ token_after rest.now }
{
    let spaces = spaces(rest);
    let token = rest.split_at(spaces).1;
    if spaces > 0 && is_token(token) {
        Some(token)
    } else {
        None
    }
}

// With how many spaces a text begins.
fn spaces(text: &[u8]) -> usize
    ensures value { result ≡ spaces text.now }
    ensures within { result ≤ length text.now }
{
    match other_at(text) {
        Some(at) => at,
        None => text.len(),
    }
}

// Where the first byte stands that is no space.
fn other_at(text: &[u8]) -> Option<usize>
    ensures place { result ≡ position (λ b. not (b == 32)) text.now }
    ensures within { IfSome result (λ at. at ≤ length text.now) }
{
    text.iter().position(|byte| *byte != b' ')
}

// The first `count` bytes, and the others; all and none where there aren't so many.
fn split(text: &[u8], count: usize) -> (&[u8], &[u8])
    ensures front { result.0.now ≡ take count text.now }
    ensures rest { result.1.now ≡ drop count text.now }
{
    if count <= text.len() {
        text.split_at(count)
    } else {
        (text, &[])
    }
}
