//! Answers as walks show them: `405 Allow: GET, HEAD {"code":405,"message":"Method"}`, and of
//! imports `added 1` or `refused: E1 Malformed`.

use crate::import_lines::answer_line;
use contest_desk::{Answer, ContentType, ExtraField, Reply};
use contest_fixtures::text_of;
use std::alloc::{AllocError, Global};

/// Whether a line of a walk is an answer, or goes on with one: the events of a feed are lines.
pub fn is_answer(line: &str) -> bool {
    line.starts_with(|first: char| first.is_ascii_digit())
        || line.starts_with('{')
        || line.starts_with("added ")
        || line.starts_with("refused: ")
}

/// The line of an answer.
pub fn line_of(alloc: Global, answer: &Answer) -> Result<String, AllocError> {
    match answer {
        Answer::Reply(reply) => reply_line(alloc, reply),
        Answer::Imported(imported) => answer_line(alloc, imported),
    }
}

/// The line of a reply. Where the content is JSON that isn't told.
fn reply_line(alloc: Global, reply: &Reply) -> Result<String, AllocError> {
    let status = reply.status;
    let content = content_text(reply.content);
    let (field, value) = field_texts(reply.extra);
    let body = text_of(reply.body.as_bytes());
    let end = if body.ends_with('\n') { "" } else { "\n" };
    format!(in alloc; "{status}{content}{field}{value} {body}{end}")
}

fn content_text(content: ContentType) -> &'static str {
    match content {
        ContentType::Json => "",
        ContentType::JsonLines => " application/x-ndjson",
        ContentType::Zip => " application/zip",
    }
}

/// The name of the field that only some replies have, and what it says.
fn field_texts(extra: ExtraField) -> (&'static str, &'static str) {
    match extra {
        ExtraField::Nothing => ("", ""),
        ExtraField::Allow(methods) => (" Allow: ", methods.text()),
        ExtraField::WwwAuthenticate => (" WWW-Authenticate: ", "Bearer"),
    }
}
