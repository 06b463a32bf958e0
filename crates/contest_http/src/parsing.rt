//! The parts of a head.
ghost use Rattle.std.specs.Prelude.{◌≡◌, ◌≤◌, ◌*◌, [], IfSome, IsNone, length};
ghost use Rattle.httparse.specs.Grammar.{ReadsRequest, RequestHead};
ghost use Rattle.httparse.specs.Spans.{IsRequestAt, IsRequestWithin};

use httparse::Status;
use httparse::spans::{HeaderSpan, RequestSpans, parse_request};

/// The parts of bytes that are exactly one request head, none where they are no head. A field takes
/// three bytes at least, so room for a third as many fields as there are bytes is enough.
pub(crate) fn parse_head(bytes: &[u8], room: &mut [HeaderSpan]) -> Option<RequestSpans>
    requires { length bytes.now ≤ 3 * length room.old }
    ensures some { IfSome result (λ spans. (h : RequestHead) × ReadsRequest bytes.now h [] × IsRequestAt bytes.now room.new spans h) }
    ensures within { IfSome result (IsRequestWithin bytes.now room.new) }
    ensures none { IsNone result → (h : RequestHead) → ¬ (ReadsRequest bytes.now h []) }
{
    match parse_request(bytes, room) {
        Ok(Status::Complete(spans)) => {
            if spans.len == bytes.len() {
                Some(spans)
            } else {
                None
            }
        }
        Ok(Status::Partial) => None,
        Err(_) => None,
    }
}
