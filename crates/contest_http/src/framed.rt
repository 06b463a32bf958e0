//! What is read of one request, and how serving it ends.
use contest_desk::{Credential, Request};
use contest_types::Refusal;

/// One request of an input.
#[derive(Drop)]
pub enum Framed {
    /// The input was empty.
    Nothing,
    /// Who asks what, and whether only the head of the reply is asked for.
    Asked(Credential, Request, bool),
    /// It can't be read as a request, or memory for it was refused; and the same.
    Refused(Refusal, bool),
}

/// How a request was served.
#[derive(Clone, Copy, PartialEq, Eq)]
pub enum Served {
    /// The input was empty: nothing was written.
    Nothing,
    /// By a reply of this status.
    Answered(u16),
}

/// The stream that failed while a request was served.
#[derive(Clone, Copy, PartialEq, Eq)]
pub enum ServeFault {
    /// The reader: a read failed, or was interrupted once too often.
    Read,
    /// The writer: a write failed, was interrupted, or took nothing.
    Write,
}
