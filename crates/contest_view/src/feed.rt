//! The event feed that an audience is served.
ghost use Rattle.std.specs.Prelude.{◌≡◌, ◌∷◌, ◌++◌, ℕ, List, [], IfOk, OnOk, codes, map};
ghost use Rattle.contest_types.specs.State.{ContestState};
ghost use Rattle.contest_score.specs.Awards.{shown_awards};
ghost use Rattle.contest_streams.specs.Streams.{stream};
ghost use Rattle.contest_objects.specs.CollectionObjects.{event_of};
ghost use Rattle.contest_objects.specs.ContestObjects.{whole_data};
ghost use Rattle.contest_objects.specs.EventFeed.{event_line, feed_text, lines_from, whole_event};
ghost use Rattle.contest_view.specs.Feeding.{FailsIfWrite, Writes};
ghost use Rattle.contest_view.specs.Feeds.{feed_events};
ghost use Rattle.contest_view.specs.SeenLists.{Shows};

use crate::Seen;
use crate::awards::awards_for;
use crate::feed_objects::{FeedCollections, feed_objects};
use contest_objects::{CollectionObject, ContestEndpoint, EventObject, WholeContest};
use contest_score::Award;
use contest_streams::{Counted, write_all};
use std::alloc::{AllocError, Global};
use std::io::Write;

/// Why not all of a feed is out.
#[derive(Clone, Copy, PartialEq, Eq)]
pub enum FeedFault {
    /// The stream took not all of it.
    Write,
    /// Memory was refused.
    Memory,
}

/// The text of the event feed that an audience is served (Contest API 2023-06, event feed): the
/// contest, judgement types, languages, problems, groups, teams, submissions, judgements,
/// clarifications, awards and the state, each object in an event with its number as the token.
///
/// # Errors
///
/// Want of memory alone.
pub fn feed_text(alloc: Global, seen: &Seen<'_>) -> Result<Vec<u8>, AllocError>
    ensures { (x : ContestState) → Shows seen.entry.now x → IfOk result (λ text. text.items ≡ feed_text (feed_events seen.entry.now.audience seen.entry.now.now x)) }
{
    let mut out = Counted::new(Vec::new(alloc));
    match write_feed(alloc, seen, &mut out) {
        Ok(()) => Ok(out.into_inner()),
        Err(_) => Err(AllocError),
    }
}

/// Writes the same, one event after the other.
///
/// # Errors
///
/// `Write` where the stream failed, and `Memory` where memory was refused: a front of the text is
/// out then.
pub fn write_feed<W: Write>(
    alloc: Global,
    seen: &Seen<'_>,
    out: &mut Counted<W>,
) -> Result<(), FeedFault>
    ensures written { (x : ContestState) → Shows seen.entry.now x → Writes result (stream W.contents out.old) (stream W.contents out.new) (feed_text (feed_events seen.entry.now.audience seen.entry.now.now x)) }
    ensures fault { FailsIfWrite result (stream W.contents out.old) (stream W.contents out.new) }
{
    match awards_for(alloc, seen) {
        Ok(awards) => write_seen(alloc, seen, awards.as_slice(), out),
        Err(AllocError) => Err(FeedFault::Memory),
    }
}

// The same, where these are the awards that the audience is shown.
fn write_seen<W: Write>(
    alloc: Global,
    seen: &Seen<'_>,
    awards: &[Award],
    out: &mut Counted<W>,
) -> Result<(), FeedFault>
    ensures written { (x : ContestState) → Shows seen.entry.now x → awards.now ≡ shown_awards seen.entry.now.audience seen.entry.now.now x
        → Writes result (stream W.contents out.old) (stream W.contents out.new) (feed_text (feed_events seen.entry.now.audience seen.entry.now.now x)) }
    ensures fault { FailsIfWrite result (stream W.contents out.old) (stream W.contents out.new) }
{
    let collections = FeedCollections::of(&*seen);
    match feed_objects(alloc, &collections, awards) {
        Ok(objects) => write_events(alloc, seen, &objects, out),
        Err(AllocError) => Err(FeedFault::Memory),
    }
}

// The events of these objects, between the contest and its state.
fn write_events<W: Write>(
    alloc: Global,
    seen: &Seen<'_>,
    objects: &[CollectionObject<'_>],
    out: &mut Counted<W>,
) -> Result<(), FeedFault>
    ensures written { Writes result (stream W.contents out.old) (stream W.contents out.new)
        (feed_text (whole_event (codes "contest") (whole_data ContestEndpoint.Contest seen.entry.now.lists.now.fixed seen.entry.now.now)
        ∷ map event_of objects.now ++ whole_event (codes "state") (whole_data ContestEndpoint.State seen.entry.now.lists.now.fixed seen.entry.now.now) ∷ [])) }
    ensures fault { FailsIfWrite result (stream W.contents out.old) (stream W.contents out.new) }
{
    let contest = whole_line(alloc, seen, 1, "contest", ContestEndpoint::Contest);
    write_line(out, contest)?;
    write_objects(alloc, objects, out)?;
    let last = objects.len() + 2;
    let state = whole_line(alloc, seen, last, "state", ContestEndpoint::State);
    write_line(out, state)
}

// The line of the event of the contest, or of its state.
fn whole_line(
    alloc: Global,
    seen: &Seen<'_>,
    number: usize,
    collection: &str,
    endpoint: ContestEndpoint,
) -> Result<Vec<u8>, AllocError>
    ensures { IfOk result (λ text. text.items ≡ event_line number (whole_event collection.now (whole_data endpoint seen.entry.now.lists.now.fixed seen.entry.now.now))) }
{
    let (fixed, now) = (seen.lists.fixed(), seen.now);
    let whole = WholeContest {
        fixed,
        now,
        endpoint,
    };
    whole_event(number, collection, &whole).line(alloc)
}

fn whole_event<'a>(
    number: usize,
    collection: &'a str,
    object: &'a WholeContest<'a>,
) -> EventObject<'a, WholeContest<'a>>
    ensures number { result.number ≡ number }
    ensures collection { result.collection.now ≡ collection.entry.now }
    ensures id { result.id ≡ None }
    ensures object { result.object.now ≡ object.entry.now }
{
    EventObject {
        number,
        collection,
        id: None,
        object,
    }
}

// The events of these objects, numbered from 2.
fn write_objects<W: Write>(
    alloc: Global,
    objects: &[CollectionObject<'_>],
    out: &mut Counted<W>,
) -> Result<(), FeedFault>
    ensures written { Writes result (stream W.contents out.old) (stream W.contents out.new) (lines_from 2 (map event_of objects.now)) }
    ensures fault { FailsIfWrite result (stream W.contents out.old) (stream W.contents out.new) }
    ensures calm { OnOk result (out.new.faults ≡ out.old.faults) }
{
    for place in 0..objects.len() {
        write_line(out, objects[place].event_line(alloc, place + 2))?;
    }
    Ok(())
}

// A line, where there was memory for it.
fn write_line<W: Write>(
    out: &mut Counted<W>,
    line: Result<Vec<u8>, AllocError>,
) -> Result<(), FeedFault>
    ensures written { (text : List ℕ) → IfOk line (λ t. t.items ≡ text) → Writes result (stream W.contents out.old) (stream W.contents out.new) text }
    ensures fault { FailsIfWrite result (stream W.contents out.old) (stream W.contents out.new) }
    ensures calm { OnOk result (out.new.faults ≡ out.old.faults) }
{
    match line {
        Ok(text) => match write_all(out, &text) {
            Ok(()) => Ok(()),
            Err(_) => Err(FeedFault::Write),
        },
        Err(AllocError) => Err(FeedFault::Memory),
    }
}
