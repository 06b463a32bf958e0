//! A judge verifies a verdict that another proposed.
use crate::judged::JudgedSoFar;
use crate::named::named_verdict;
use crate::posting::{Done, Posting};
use contest_lists::Lists;
use contest_objects::{JudgementObject, text_of};
use contest_requests::JuryVerdict;
use contest_rules::{RuleRefusal, decide_verify};
use contest_types::{Entry, Fixed, Moment, Release, Rows};
use std::alloc::{AllocError, Global};

/// A verdict that a judge verifies.
#[derive(Drop)]
pub struct Verifying {
    /// The verdict.
    pub verdict: JuryVerdict,
}

impl<'a> Posting<'a> for Verifying {
    ghost use Rattle.contest_rules.specs.Verifying.{verify};
    ghost use Rattle.contest_postings.specs.PostVerification.{release_entries, release_object};

    type Done = Release;

    ghost fits = { λ c x. Unit {0} };

    ghost decide = { λ c now x. verify x.fixed x.submissions x.proposals x.releases now c.verdict.account c.verdict.wanted };

    ghost object = { release_object };

    ghost entries = { release_entries };

    fn decide(
        self,
        _alloc: Global,
        lists: &'a Lists,
        now: Moment,
    ) -> Result<Result<Release, RuleRefusal>, AllocError> {
        let JuryVerdict { account, wanted } = self.verdict;
        let named = named_verdict(lists, &wanted);
        let judged = JudgedSoFar { lists };
        Ok(decide_verify(named, &judged, now, &account))
    }

    fn tell(alloc: Global, fixed: &Fixed, done: Release) -> Result<Done, AllocError> {
        let object = JudgementObject {
            fixed,
            team: done.team,
            number: done.number,
            release: &done,
        };
        let text = text_of(alloc, &object)?;
        let mut entries = Rows::new(alloc);
        entries.push(Entry::NewRelease(done))?;
        Ok(Done { text, entries })
    }
}
