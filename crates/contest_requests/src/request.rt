//! What the desk is asked.
use contest_types::{Id, Rows};

/// The method of a request (RFC 9110, section 9), as far as the desk tells them apart.
#[derive(Clone, Copy, PartialEq, Eq)]
pub enum Method {
    /// `GET`.
    Get,
    /// `HEAD`.
    Head,
    /// `POST`.
    Post,
    /// `PATCH` (RFC 5789).
    Patch,
    /// Any other.
    Other,
}

/// The field `Idempotency-Key` of a request.
#[derive(Drop)]
pub enum KeyField {
    /// There is none.
    Absent,
    /// There is one, an id.
    Key(Id),
    /// There are several, or what it says is no id.
    Bad,
}

/// A request.
#[derive(Drop)]
pub struct Request {
    /// The request's method.
    pub method: Method,
    /// The bytes of its path, without a query.
    pub path: Rows<u8>,
    /// The request's idempotency key.
    pub key: KeyField,
    /// The bytes of its body.
    pub body: Rows<u8>,
}

/// What the field `Authorization` of a request gives (RFC 6750, section 2.1).
#[derive(Drop)]
pub enum Credential {
    /// There is none: the caller is the public.
    Absent,
    /// The bytes of a bearer token.
    Token(Rows<u8>),
    /// There are several, or it gives no token.
    Bad,
}
