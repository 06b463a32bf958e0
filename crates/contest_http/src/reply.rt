//! A reply written.
ghost use Rattle.std.specs.Prelude.{◌≡◌, ◌≤◌, ◌<◌, ◌/◌, ◌++◌, List, ℕ, IfErr, IfSome, IsSome};
ghost use Rattle.std.specs.Prelude.{OnErr, OnOk};
ghost use Rattle.std.specs.Io.KnownBytes.{Appends};
ghost use Rattle.contest_streams.specs.Streams.{AppendsFront, Fails, stream};
ghost use Rattle.httpdate.specs.Date.{date_text, unix_secs};
ghost use Rattle.contest_types.specs.MomentText.{latest};
ghost use Rattle.contest_http.specs.Spelling.{IsSpelling, spelled};

use crate::framed::ServeFault;
use crate::reply_head::head_of;
use contest_desk::Reply;
use contest_streams::{Counted, OutputFault, write_all};
use contest_types::Moment;
use httpdate::HttpDate;
use std::io::Write;

/// Writes a reply, with the date of a moment; its body is left out where only its head is asked
/// for. It takes no memory.
///
/// # Errors
///
/// `Write` where the writer failed, was interrupted or took nothing: a front of the reply is out
/// then.
pub fn write_reply<W: Write>(
    writer: &mut Counted<W>,
    now: Moment,
    reply: &Reply,
    head_only: bool,
) -> Result<(), ServeFault>
    ensures ok { OnOk result ((text : List ℕ) × IsSpelling now reply.now head_only text × Appends (W.contents writer.old.inner) (W.contents writer.new.inner) text) }
    ensures err { OnErr result ((text : List ℕ) × IsSpelling now reply.now head_only text × AppendsFront (W.contents writer.old.inner) (W.contents writer.new.inner) text) }
    ensures kind { IfErr result (λ fault. fault ≡ ServeFault.Write) }
    ensures fault { OnErr result (Fails (stream W.contents writer.old) (stream W.contents writer.new)) }
{
    let Some(date) = date_at(now.milliseconds()) else {
        unreachable!()
    };
    match send(writer, date, reply, head_only) {
        Ok(()) => Ok(()),
        Err(OutputFault) => Err(ServeFault::Write),
    }
}

// Writes a reply with that date.
fn send<W: Write>(
    writer: &mut Counted<W>,
    date: HttpDate,
    reply: &Reply,
    head_only: bool,
) -> Result<(), OutputFault>
    ensures ok { OnOk result (Appends (W.contents writer.old.inner) (W.contents writer.new.inner) (spelled (date_text date) reply.now head_only)) }
    ensures err { OnErr result (AppendsFront (W.contents writer.old.inner) (W.contents writer.new.inner) (spelled (date_text date) reply.now head_only)) }
    ensures fault { OnErr result (Fails (stream W.contents writer.old) (stream W.contents writer.new)) }
{
    let head = head_of(date, reply);
    if head_only {
        write_all(writer, head.as_bytes())
    } else {
        write_both(writer, head.as_bytes(), reply.body.as_bytes())
    }
}

// Writes a text and then another.
fn write_both<W: Write>(
    writer: &mut Counted<W>,
    first: &[u8],
    second: &[u8],
) -> Result<(), OutputFault>
    ensures ok { OnOk result (Appends (W.contents writer.old.inner) (W.contents writer.new.inner) (first.now ++ second.now)) }
    ensures err { OnErr result (AppendsFront (W.contents writer.old.inner) (W.contents writer.new.inner) (first.now ++ second.now)) }
    ensures fault { OnErr result (Fails (stream W.contents writer.old) (stream W.contents writer.new)) }
{
    match write_all(writer, first) {
        Ok(()) => match write_all(writer, second) {
            Ok(()) => Ok(()),
            Err(fault) => Err(fault),
        },
        Err(fault) => Err(fault),
    }
}

// The date of a moment in milliseconds.
fn date_at(now: u64) -> Option<HttpDate>
    requires { now ≤ latest }
    ensures some { IsSome result }
    ensures date { IfSome result (λ d. unix_secs d ≡ now / 1000) }
{
    HttpDate::from_unix_secs(now / 1000).ok()
}
