//! What the desk answers.
ghost use Rattle.std.specs.Prelude.{◌≡◌};
ghost use Rattle.contest_operations.specs.Replies.{answer_with, file_answer, lines_answer};
ghost use Rattle.contest_operations.specs.Replies.{refused, refused_method};

use crate::offer::AllowedMethods;
use contest_types::Refusal;
use std::marker::Model;

/// The media type of a body.
#[derive(Clone, Copy, PartialEq, Eq)]
pub enum ContentType {
    /// `application/json`.
    Json,
    /// `application/x-ndjson`, for event feeds.
    JsonLines,
    /// `application/zip`, for files.
    Zip,
}

/// The one field of a reply that only some have.
#[derive(Clone, Copy, PartialEq, Eq)]
pub enum ExtraField {
    /// None of them.
    Nothing,
    /// `Allow` (RFC 9110, section 10.2.1).
    Allow(AllowedMethods),
    /// `WWW-Authenticate` (RFC 6750, section 3).
    WwwAuthenticate,
}

/// The bytes of a reply. Contracts see them.
#[derive(Drop)]
pub struct ReplyBody {
    content: Content,
}

#[derive(Drop)]
enum Content {
    // of a refusal, so that want of memory can be told without memory
    Fixed(&'static str),
    Made(Vec<u8>),
}

impl Model for ReplyBody {
    ghost use Rattle.std.specs.Prelude.{ℕ, List};
    ghost use Rattle.contest_operations.specs.declared.reply.Content.TheVariants.{Fixed, Made};

    ghost Value = { List ℕ };

    ghost view = { λ b. elim b.content [ (Fixed text) ↦ text.now | (Made bytes) ↦ bytes.items ] };
}

impl ReplyBody {
    fn fixed(text: &'static str) -> ReplyBody
        ensures { result ≡ text.now }
    {
        ReplyBody {
            content: Content::Fixed(text),
        }
    }

    fn made(bytes: Vec<u8>) -> ReplyBody
        ensures { result ≡ bytes.items }
    {
        ReplyBody {
            content: Content::Made(bytes),
        }
    }

    /// The bytes.
    pub fn as_bytes(&self) -> &[u8]
        ensures { result.now ≡ self.now }
    {
        match &self.content {
            Content::Fixed(text) => text.as_bytes(),
            Content::Made(bytes) => bytes.as_slice(),
        }
    }
}

/// A reply.
#[derive(Drop)]
pub struct Reply {
    /// The reply's HTTP status.
    pub status: u16,
    /// The media type of its body.
    pub content: ContentType,
    /// A field that only some replies have.
    pub extra: ExtraField,
    /// The reply's body.
    pub body: ReplyBody,
}

impl Reply {
    /// The reply that a refusal is: its status, and the body
    /// `{"code":<status>,"message":"<name>"}`; an unknown token is asked for one. It takes no
    /// memory.
    pub fn refused(refusal: Refusal) -> Reply
        ensures { result ≡ refused refusal }
    {
        let row = refusal.row();
        Reply {
            status: row.status,
            content: ContentType::Json,
            extra: refusal_field(refusal),
            body: ReplyBody::fixed(row.body),
        }
    }

    /// The reply to a method that isn't offered, with those that are. It takes no memory.
    pub fn refused_method(allowed: AllowedMethods) -> Reply
        ensures { result ≡ refused_method allowed }
    {
        let mut reply = Reply::refused(Refusal::Method);
        reply.extra = ExtraField::Allow(allowed);
        reply
    }

    /// The answer with this JSON text.
    pub fn answer(text: Vec<u8>) -> Reply
        ensures { result ≡ answer_with text.items }
    {
        Reply {
            status: 200,
            content: ContentType::Json,
            extra: ExtraField::Nothing,
            body: ReplyBody::made(text),
        }
    }

    /// The answer with these lines, each a JSON text.
    pub fn lines(text: Vec<u8>) -> Reply
        ensures { result ≡ lines_answer text.items }
    {
        Reply {
            status: 200,
            content: ContentType::JsonLines,
            extra: ExtraField::Nothing,
            body: ReplyBody::made(text),
        }
    }

    /// The answer with the bytes of this file.
    pub fn file(bytes: Vec<u8>) -> Reply
        ensures { result ≡ file_answer bytes.items }
    {
        Reply {
            status: 200,
            content: ContentType::Zip,
            extra: ExtraField::Nothing,
            body: ReplyBody::made(bytes),
        }
    }
}

fn refusal_field(refusal: Refusal) -> ExtraField
    ensures { result ≡ (refused refusal).extra }
{
    match refusal {
        Refusal::UnknownToken => ExtraField::WwwAuthenticate,
        _ => ExtraField::Nothing,
    }
}
