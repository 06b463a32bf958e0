//! One request read.
ghost use Rattle.std.specs.Prelude.{◌≡◌, ◌≤◌, ◌⊎◌, List, ℕ, [], Err, IfErr, IfOk, IsSome, IsTrue};
ghost use Rattle.std.specs.Prelude.{OnErr, OnOk, Some, true};
ghost use Rattle.std.specs.Io.KnownBytes.{Appends};
ghost use Rattle.contest_streams.specs.Streams.{AppendsFront, Fails, stream};
ghost use Rattle.contest_http.specs.Reading.{ReadsHead, ReadsOne, ReadsRest, RefusesBody};
ghost use Rattle.contest_http.specs.Reading.{StopsInHead, TakesRest, interim, interim_text};

use crate::body::read_body;
use crate::framed::{Framed, ServeFault};
use crate::head::{RequestFault, read_head};
use crate::method::is_head;
use crate::plan::{Expected, Plan, plan_head};
use contest_desk::Request;
use contest_streams::{Counted, OutputFault, RETRIES, write_all};
use contest_types::{Refusal, Rows};
use std::alloc::Global;
use std::io::{Read, Write};

/// Reads one request: its head, byte by byte; the interim reply, where its client waits for it; and
/// its body. Not one byte after it is taken. An interrupted read is tried again, 1,000 times in
/// all.
///
/// # Errors
///
/// `Read` where a read failed, `Write` where the interim reply couldn't be written. Want of memory
/// is a refusal, which can be answered.
pub fn read_request<R: Read, W: Write>(
    alloc: Global,
    reader: &mut Counted<R>,
    writer: &mut Counted<W>,
) -> Result<Framed, ServeFault>
    ensures known { IsSome (R.remaining reader.old.inner) → IsSome (R.remaining reader.new.inner) }
    ensures bytes { (input left : List ℕ) → R.remaining reader.old.inner ≡ Some input → R.remaining reader.new.inner ≡ Some left
        → ReadsOne input left (W.contents writer.old.inner) (W.contents writer.new.inner) result }
    ensures read { result ≡ Err ServeFault.Read → Fails (stream R.remaining reader.old) (stream R.remaining reader.new) }
    ensures write { result ≡ Err ServeFault.Write → Fails (stream W.contents writer.old) (stream W.contents writer.new) }
    ensures calm { OnOk result (writer.new.faults ≡ writer.old.faults) }
{
    let mut retries = RETRIES;
    match read_plan(alloc, reader, &mut retries) {
        Ok(found) => match found {
            None => Ok(Framed::Nothing),
            Some(plan) => match plan {
                Plan::Refuse(refusal, head_only) => Ok(Framed::Refused(refusal, head_only)),
                Plan::Expect(expected) => {
                    read_rest(alloc, reader, writer, expected, &mut retries)
                }
            },
        },
        Err(unplanned) => match unplanned {
            Unplanned::Read => Err(ServeFault::Read),
            Unplanned::Memory(head_only) => Ok(Framed::Refused(Refusal::Memory, head_only)),
        },
    }
}

/// Why it isn't known what a head asks for.
#[derive(Clone, Copy)]
enum Unplanned {
    /// A read failed.
    Read,
    /// Memory was refused; and whether only the head of the reply is asked for, as far as that was
    /// read.
    Memory(bool),
}

// Takes the head of one request, and says what it asks for; nothing where there is no byte.
fn read_plan<R: Read>(
    alloc: Global,
    reader: &mut Counted<R>,
    retries: &mut u32,
) -> Result<Option<Plan>, Unplanned>
    ensures known { IsSome (R.remaining reader.old.inner) → IsSome (R.remaining reader.new.inner) }
    ensures ok { IfOk result (λ plan. (input left : List ℕ) → R.remaining reader.old.inner ≡ Some input
        → R.remaining reader.new.inner ≡ Some left → ReadsHead input left plan) }
    ensures err { IfErr result (λ e. (input left : List ℕ) → R.remaining reader.old.inner ≡ Some input
        → R.remaining reader.new.inner ≡ Some left → StopsInHead input left e) }
    ensures failed { result ≡ Err Unplanned.Read → Fails (stream R.remaining reader.old) (stream R.remaining reader.new) }
    ensures count { reader.old.faults ≤ reader.new.faults }
{
    match read_head(alloc, reader, retries) {
        Ok(head) => match plan_head(alloc, &head) {
            Ok(plan) => Ok(plan),
            Err(refused) => Err(Unplanned::Memory(refused.head_only)),
        },
        Err(RequestFault::Read) => Err(Unplanned::Read),
        Err(RequestFault::Memory) => Err(Unplanned::Memory(false)),
    }
}

// What follows the head of a request.
fn read_rest<R: Read, W: Write>(
    alloc: Global,
    reader: &mut Counted<R>,
    writer: &mut Counted<W>,
    expected: Expected,
    retries: &mut u32,
) -> Result<Framed, ServeFault>
    ensures known { IsSome (R.remaining reader.old.inner) → IsSome (R.remaining reader.new.inner) }
    ensures bytes { (rest left : List ℕ) → R.remaining reader.old.inner ≡ Some rest → R.remaining reader.new.inner ≡ Some left
        → ReadsRest expected rest left (W.contents writer.old.inner) (W.contents writer.new.inner) result }
    ensures read { result ≡ Err ServeFault.Read → Fails (stream R.remaining reader.old) (stream R.remaining reader.new) }
    ensures write { result ≡ Err ServeFault.Write → Fails (stream W.contents writer.old) (stream W.contents writer.new) }
    ensures calm { OnOk result (writer.new.faults ≡ writer.old.faults) }
{
    match tell_to_go_on(writer, expected.is_due) {
        Ok(()) => match finish(alloc, reader, expected, retries) {
            Ok(framed) => Ok(framed),
            Err(ReadFailed) => Err(ServeFault::Read),
        },
        Err(OutputFault) => Err(ServeFault::Write),
    }
}

/// A read failed.
#[derive(Clone, Copy)]
struct ReadFailed;

// The request with its body.
fn finish<R: Read>(
    alloc: Global,
    reader: &mut Counted<R>,
    expected: Expected,
    retries: &mut u32,
) -> Result<Framed, ReadFailed>
    ensures known { IsSome (R.remaining reader.old.inner) → IsSome (R.remaining reader.new.inner) }
    ensures ok { IfOk result (λ framed. (rest left : List ℕ) → R.remaining reader.old.inner ≡ Some rest → R.remaining reader.new.inner ≡ Some left
        → TakesRest expected rest left framed ⊎ RefusesBody expected rest left framed) }
    ensures failed { OnErr result (Fails (stream R.remaining reader.old) (stream R.remaining reader.new)) }
    ensures count { reader.old.faults ≤ reader.new.faults }
{
    let head_only = is_head(expected.method);
    match read_body(alloc, reader, expected.size, retries) {
        Ok(Some(body)) => Ok(Framed::Asked(
            expected.credential,
            Request {
                method: expected.method,
                path: expected.path,
                key: expected.key,
                body: Rows::from_vec(body),
            },
            head_only,
        )),
        Ok(None) => Ok(Framed::Refused(Refusal::Malformed, head_only)),
        Err(RequestFault::Read) => Err(ReadFailed),
        Err(RequestFault::Memory) => Ok(Framed::Refused(Refusal::Memory, head_only)),
    }
}

// Writes the interim reply, where it is due.
fn tell_to_go_on<W: Write>(writer: &mut Counted<W>, is_due: bool) -> Result<(), OutputFault>
    ensures ok { OnOk result (Appends (W.contents writer.old.inner) (W.contents writer.new.inner) (interim is_due)) }
    ensures due { OnErr result (is_due ≡ true) }
    ensures err { OnErr result (AppendsFront (W.contents writer.old.inner) (W.contents writer.new.inner) interim_text) }
    ensures fault { OnErr result (Fails (stream W.contents writer.old) (stream W.contents writer.new)) }
    ensures calm { OnOk result (writer.new.faults ≡ writer.old.faults) }
{
    if !is_due {
        return Ok(());
    }
    write_all(writer, interim_text())
}

#[tactic(auto, unfolding(crate::specs::Reading::interim_text))]
fn interim_text() -> &'static [u8]
    ensures { result.now ≡ interim_text }
{
    b"HTTP/1.1 100 Continue\r\n\r\n".as_slice()
}
