//! What a desk is asked to do at a moment, and what it answers.
use contest_operations::Reply;
use contest_requests::{Credential, Request};
use contest_types::{ImportKind, Moment, Refusal, Rows};

/// A request at its moment, with who asks.
#[derive(Drop)]
pub struct RequestItem {
    /// The moment.
    pub now: Moment,
    /// Who asks.
    pub credential: Credential,
    /// What is asked.
    pub request: Request,
}

/// A file to be imported at a moment.
#[derive(Drop)]
pub struct ImportItem {
    /// The moment.
    pub now: Moment,
    /// What the file holds.
    pub kind: ImportKind,
    /// The file's bytes.
    pub file: Rows<u8>,
}

/// What a desk is asked to do.
#[derive(Drop)]
pub enum Item {
    /// To answer a request.
    Request(RequestItem),
    /// To import a file.
    Import(ImportItem),
}

/// What a desk answers.
#[derive(Drop)]
pub enum Answer {
    /// The reply to a request.
    Reply(Reply),
    /// How many rows an import added, or why it is refused.
    Imported(Result<u64, Refusal>),
}
