//! One request served.
ghost use Rattle.std.specs.Prelude.{◌≡◌, Err, IsSome, IsTrue, List, Some, ℕ};
ghost use Rattle.contest_streams.specs.Streams.{Fails, stream};
ghost use Rattle.contest_http.specs.Serving.{Answers, AnswersAlike, HandlesOne, ServesOne};

use crate::framed::{Framed, ServeFault, Served};
use crate::reply::write_reply;
use crate::request::read_request;
use contest_desk::{Desk, Reply};
use contest_store::ContestStore;
use contest_streams::Counted;
use contest_types::Moment;
use std::alloc::Global;
use std::io::{Read, Write};

/// Reads one request, has the desk handle it at a moment, and writes its reply; what is no request
/// is answered by its refusal.
///
/// What a request adds is kept before the first byte of its reply goes out. Until the thaw the
/// bytes that go out are the same over every contest that is alike for the caller.
///
/// # Errors
///
/// `Read` where a read failed: nothing went out but the interim reply, and the contest is as
/// before. `Write` where a write failed: a front of the interim reply went out, and the contest is
/// as before; or a front of the reply, and the contest is as it is after the reply.
pub fn serve_one<R: Read, W: Write, S: ContestStore>(
    alloc: Global,
    reader: &mut Counted<R>,
    writer: &mut Counted<W>,
    desk: &mut Desk<S>,
    now: Moment,
) -> Result<Served, ServeFault>
    ensures known { IsSome (R.remaining reader.old.inner) → IsSome (R.remaining reader.new.inner) }
    ensures bytes { (input left : List ℕ) → R.remaining reader.old.inner ≡ Some input → R.remaining reader.new.inner ≡ Some left
        → ServesOne S.kept input left (W.contents writer.old.inner) (W.contents writer.new.inner) now desk.old desk.new result }
    ensures isolated { (input left : List ℕ) → R.remaining reader.old.inner ≡ Some input → R.remaining reader.new.inner ≡ Some left
        → (S.kept desk.new).is_clean → AnswersAlike S.kept input (W.contents writer.old.inner) (W.contents writer.new.inner) now desk.old desk.new result }
    ensures handled { HandlesOne S.kept now desk.old desk.new }
    ensures read { result ≡ Err ServeFault.Read → Fails (stream R.remaining reader.old) (stream R.remaining reader.new) }
    ensures write { result ≡ Err ServeFault.Write → Fails (stream W.contents writer.old) (stream W.contents writer.new) }
    ensures clean { (S.kept desk.new).is_clean → (S.kept desk.old).is_clean }
    ensures up { (S.kept desk.new).is_clean → IsTrue (S.kept desk.new).is_open → IsTrue (S.kept desk.old).is_open }
{
    match read_request(alloc, reader, writer) {
        Ok(framed) => match framed {
            Framed::Nothing => Ok(Served::Nothing),
            Framed::Refused(refusal, head_only) => {
                let reply = Reply::refused(refusal);
                answer(writer, now, &reply, head_only)
            }
            Framed::Asked(credential, request, head_only) => {
                let reply = desk.handle(alloc, now, credential, request);
                answer(writer, now, &reply, head_only)
            }
        },
        Err(fault) => Err(fault),
    }
}

// Writes a reply, and says by which status it was answered.
fn answer<W: Write>(
    writer: &mut Counted<W>,
    now: Moment,
    reply: &Reply,
    head_only: bool,
) -> Result<Served, ServeFault>
    ensures bytes { Answers now reply.now head_only (W.contents writer.old.inner) (W.contents writer.new.inner) result }
    ensures write { result ≡ Err ServeFault.Write → Fails (stream W.contents writer.old) (stream W.contents writer.new) }
{
    match write_reply(writer, now, reply, head_only) {
        Ok(()) => Ok(Served::Answered(reply.status)),
        Err(_) => Err(ServeFault::Write),
    }
}
