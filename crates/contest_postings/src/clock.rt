//! An administrator sets the start or the thaw, and makes the results final.
use crate::judged::JudgedSoFar;
use crate::posting::{Done, Posting};
use contest_lists::Lists;
use contest_objects::{ContestObject, StateObject, text_of};
use contest_rules::{ClockChange, RuleRefusal, WantedClock, decide_clock, decide_final};
use contest_types::{Fixed, Moment, Rows};
use std::alloc::{AllocError, Global};

/// A start or a thaw that an administrator sets.
#[derive(Drop)]
pub struct SetClock {
    /// What is asked for.
    pub wanted: WantedClock,
}

impl<'a> Posting<'a> for SetClock {
    ghost use Rattle.contest_rules.specs.ClockChanges.{set_clock};
    ghost use Rattle.contest_postings.specs.PostClock.{clock_entries, contest_after};

    type Done = ClockChange;

    ghost fits = { λ c x. Unit {0} };

    ghost decide = { λ c now x. set_clock x.fixed x.submissions x.clarifications now c.wanted };

    ghost object = { contest_after };

    ghost entries = { clock_entries };

    fn decide(
        self,
        _alloc: Global,
        lists: &'a Lists,
        now: Moment,
    ) -> Result<Result<ClockChange, RuleRefusal>, AllocError> {
        Ok(decide_clock(
            lists.fixed(),
            lists.submissions(),
            lists.clarifications(),
            self.wanted,
            now,
        ))
    }

    fn tell(alloc: Global, fixed: &Fixed, done: ClockChange) -> Result<Done, AllocError> {
        let object = ContestObject::of(&fixed.settings, &done.marks);
        let text = text_of(alloc, &object)?;
        let mut entries = Rows::new(alloc);
        entries.push(done.entry)?;
        Ok(Done { text, entries })
    }
}

/// Results that an administrator makes final.
#[derive(Drop)]
pub struct Finalize;

/// Results that are final.
#[derive(Drop)]
pub struct FinalResults {
    /// From when on.
    pub now: Moment,
    /// The change of the clock.
    pub change: ClockChange,
}

impl<'a> Posting<'a> for Finalize {
    ghost use Rattle.contest_postings.specs.PostClock.{final_entries, final_results, state_after};

    type Done = FinalResults;

    ghost fits = { λ c x. Unit {0} };

    ghost decide = { λ c now x. final_results now x };

    ghost object = { state_after };

    ghost entries = { final_entries };

    fn decide(
        self,
        _alloc: Global,
        lists: &'a Lists,
        now: Moment,
    ) -> Result<Result<FinalResults, RuleRefusal>, AllocError> {
        let (submissions, rejudgings) = (lists.submissions(), lists.rejudgings());
        let judged = JudgedSoFar { lists };
        match decide_final(lists.fixed(), submissions, &judged, rejudgings, now) {
            Ok(change) => Ok(Ok(FinalResults { now, change })),
            Err(refusal) => Ok(Err(refusal)),
        }
    }

    fn tell(alloc: Global, fixed: &Fixed, done: FinalResults) -> Result<Done, AllocError> {
        let FinalResults { now, change } = done;
        let object = StateObject {
            settings: &fixed.settings,
            marks: &change.marks,
            now,
        };
        let text = text_of(alloc, &object)?;
        let mut entries = Rows::new(alloc);
        entries.push(change.entry)?;
        Ok(Done { text, entries })
    }
}
