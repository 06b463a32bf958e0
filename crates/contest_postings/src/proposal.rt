//! A judge proposes a verdict.
use crate::judged::JudgedSoFar;
use crate::named::named_verdict;
use crate::posting::{Done, Posting};
use contest_lists::Lists;
use contest_objects::{ProposalObject, text_of};
use contest_requests::JuryVerdict;
use contest_rules::{NewVerdict, RuleRefusal, decide_proposal};
use contest_types::{Fixed, Moment, Rows};
use std::alloc::{AllocError, Global};

/// A verdict that a judge proposes.
#[derive(Drop)]
pub struct Proposing {
    /// The verdict.
    pub verdict: JuryVerdict,
}

impl<'a> Posting<'a> for Proposing {
    ghost use Rattle.contest_rules.specs.Proposing.{entries_of, propose};
    ghost use Rattle.contest_postings.specs.PostProposal.{proposal_object};

    type Done = NewVerdict;

    ghost fits = { λ c x. Unit {0} };

    ghost decide = { λ c now x. propose x.fixed x.submissions x.proposals x.releases now c.verdict.account c.verdict.wanted };

    ghost object = { proposal_object };

    ghost entries = { entries_of };

    fn decide(
        self,
        _alloc: Global,
        lists: &'a Lists,
        now: Moment,
    ) -> Result<Result<NewVerdict, RuleRefusal>, AllocError> {
        let JuryVerdict { account, wanted } = self.verdict;
        let named = named_verdict(lists, &wanted);
        let judged = JudgedSoFar { lists };
        Ok(decide_proposal(lists.fixed(), named, &judged, now, account))
    }

    fn tell(alloc: Global, fixed: &Fixed, done: NewVerdict) -> Result<Done, AllocError> {
        let object = ProposalObject {
            settings: &fixed.settings,
            proposal: &done.proposal,
            released: done.release.is_some(),
        };
        let text = text_of(alloc, &object)?;
        let mut entries = Rows::new(alloc);
        done.push_into(&mut entries)?;
        Ok(Done { text, entries })
    }
}
