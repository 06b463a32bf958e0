//! The jury opens a rejudging.
use crate::judged::JudgedSoFar;
use crate::named::named_submissions;
use crate::posting::{Done, Posting};
use contest_lists::Lists;
use contest_objects::{RejudgingObject, text_of};
use contest_rules::{RuleRefusal, WantedRejudging, decide_opening};
use contest_types::{Entry, Fixed, Moment, Rejudging, Rows};
use std::alloc::{AllocError, Global};

/// A rejudging that the jury opens.
#[derive(Drop)]
pub struct Opening {
    /// What is asked for.
    pub wanted: WantedRejudging,
}

/// A rejudging that is opened, and its number.
#[derive(Drop)]
pub struct OpenedRejudging {
    /// The rejudging's number, from 1.
    pub number: usize,
    /// The rejudging.
    pub rejudging: Rejudging,
}

impl<'a> Posting<'a> for Opening {
    ghost use Rattle.contest_postings.specs.PostRejudgings.{opening, opening_entries};
    ghost use Rattle.contest_postings.specs.PostRejudgings.{opening_object};

    type Done = OpenedRejudging;

    ghost fits = { λ c x. Unit {0} };

    ghost decide = { λ c now x. opening c.wanted x };

    ghost object = { opening_object };

    ghost entries = { opening_entries };

    fn decide(
        self,
        alloc: Global,
        lists: &'a Lists,
        _now: Moment,
    ) -> Result<Result<OpenedRejudging, RuleRefusal>, AllocError> {
        let WantedRejudging {
            reason,
            submissions,
        } = self.wanted;
        let Some(named) = named_submissions(alloc, lists, submissions.as_slice())? else {
            return Ok(Err(RuleRefusal::UnknownReference));
        };
        let (judged, rejudgings) = (JudgedSoFar { lists }, lists.rejudgings());
        match decide_opening(alloc, lists.fixed(), &named, &judged, rejudgings, reason)? {
            Ok(rejudging) => Ok(Ok(OpenedRejudging {
                number: rejudgings.len() + 1,
                rejudging,
            })),
            Err(refusal) => Ok(Err(refusal)),
        }
    }

    fn tell(alloc: Global, fixed: &Fixed, done: OpenedRejudging) -> Result<Done, AllocError> {
        let object = RejudgingObject {
            settings: &fixed.settings,
            number: done.number,
            rejudging: &done.rejudging,
        };
        let text = text_of(alloc, &object)?;
        let mut entries = Rows::new(alloc);
        entries.push(Entry::NewRejudging(done.rejudging))?;
        Ok(Done { text, entries })
    }
}
