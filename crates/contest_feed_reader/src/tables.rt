//! The collections of a feed, and what a line does to them.
ghost use Rattle.std.specs.Prelude.{◌≡◌, Ok, IfErr, OnOk};
ghost use Rattle.serde_json.specs.View.{view};
ghost use Rattle.contest_types.specs.Additions.{IsFaultOf};
ghost use Rattle.contest_feed_reader.specs.Events.{event_in};
ghost use Rattle.contest_feed_reader.specs.Lines.{is_blank};
ghost use Rattle.contest_feed_reader.specs.ShownEvents.{shown};
ghost use Rattle.contest_feed_reader.specs.Tables.{after_event, after_kind, after_line, no_tables};

use crate::change::{MALFORMED, memory_of, take_change};
use crate::collection::Collection;
use crate::contest_object::ContestObject;
use crate::event::{Event, EventKind, event_in};
use crate::objects::{FeedGroup, FeedProblem, FeedTeam, FeedType};
use crate::submissions::{FeedJudgement, FeedSubmission};
use contest_files::value_of;
use contest_types::{Refusal, RowFault};
use serde_json::Value;
use std::alloc::Global;

/// The collections that are used, each in its order.
#[derive(Drop)]
pub(crate) struct Tables {
    pub(crate) contests: Collection<ContestObject>,
    pub(crate) types: Collection<FeedType>,
    pub(crate) problems: Collection<FeedProblem>,
    pub(crate) groups: Collection<FeedGroup>,
    pub(crate) teams: Collection<FeedTeam>,
    pub(crate) submissions: Collection<FeedSubmission>,
    pub(crate) judgements: Collection<FeedJudgement>,
}

impl Tables {
    /// No objects.
    pub(crate) fn new(alloc: Global) -> Tables
        ensures { result ≡ no_tables }
    {
        Tables {
            contests: Collection::new(alloc),
            types: Collection::new(alloc),
            problems: Collection::new(alloc),
            groups: Collection::new(alloc),
            teams: Collection::new(alloc),
            submissions: Collection::new(alloc),
            judgements: Collection::new(alloc),
        }
    }

    /// Takes a line with this number. A blank one changes nothing.
    ///
    /// # Errors
    ///
    /// `Malformed` where the line is off its form, or an object of a type that is used; or want of
    /// memory.
    pub(crate) fn take_line(
        &mut self,
        alloc: Global,
        line: u64,
        text: &[u8],
    ) -> Result<(), RowFault>
        ensures ok { OnOk result (after_line self.old line text.now ≡ Ok self.new) }
        ensures err { IfErr result (λ e. IsFaultOf e (after_line self.old line text.now)) }
    {
        if is_blank(text) {
            return Ok(());
        }
        match value_of(alloc, text) {
            Ok(value) => self.take_value(alloc, line, &value),
            Err(Refusal::Malformed) => Err(MALFORMED),
            Err(refusal) => Err(memory_of(refusal)),
        }
    }

    // Takes the value of a line.
    fn take_value(&mut self, alloc: Global, line: u64, value: &Value) -> Result<(), RowFault>
        ensures ok { OnOk result (after_event self.old line (event_in (view value.now)) ≡ Ok self.new) }
        ensures err { IfErr result (λ e. IsFaultOf e (after_event self.old line (event_in (view value.now)))) }
    {
        match event_in(value) {
            Some(event) => self.take_event(alloc, line, &event),
            None => Err(MALFORMED),
        }
    }

    // Takes the event of a line. One of a type that isn't used changes nothing.
    fn take_event(&mut self, alloc: Global, line: u64, event: &Event<'_>) -> Result<(), RowFault>
        ensures ok { OnOk result (after_kind self.old line (shown event.now) event.now.kind ≡ Ok self.new) }
        ensures err { IfErr result (λ e. IsFaultOf e (after_kind self.old line (shown event.now) event.now.kind)) }
    {
        match event.kind {
            None => Ok(()),
            Some(EventKind::Contest) => take_change(alloc, &mut self.contests, line, event),
            Some(EventKind::JudgementTypes) => take_change(alloc, &mut self.types, line, event),
            Some(EventKind::Problems) => take_change(alloc, &mut self.problems, line, event),
            Some(EventKind::Groups) => take_change(alloc, &mut self.groups, line, event),
            Some(EventKind::Teams) => take_change(alloc, &mut self.teams, line, event),
            Some(EventKind::Submissions) => take_change(alloc, &mut self.submissions, line, event),
            Some(EventKind::Judgements) => take_change(alloc, &mut self.judgements, line, event),
        }
    }
}

// Whether a text is nothing but spaces, tabs and carriage returns.
fn is_blank(text: &[u8]) -> bool
    ensures { result ≡ is_blank text.now }
{
    text.iter()
        .all(|byte| *byte == b' ' || *byte == b'\t' || *byte == b'\r')
}
