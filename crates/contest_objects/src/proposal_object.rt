//! Proposed verdicts as the jury is served them.
ghost use Rattle.std.specs.Prelude.{◌≡◌, OnOk};
ghost use Rattle.serde_json.specs.Data.{object};
ghost use Rattle.contest_objects.specs.JsonTokens.{Wrote, data_tokens};
ghost use Rattle.contest_objects.specs.ProposalObjects.{proposal_members, proposer_id};

use crate::json_text::Served;
use crate::members::{Member, write_object};
use crate::visible_ids::submission_id;
use contest_types::{Moment, Proposal, Proposer, Settings};
use json::Writer;
use std::alloc::AllocError;

/// A proposal (own): `account_id`, `judgement_type_id`, `released`, `submission_id` and `time`.
#[derive(Clone, Copy)]
pub struct ProposalObject<'a> {
    /// The contest's settings.
    pub settings: &'a Settings,
    /// The proposal.
    pub proposal: &'a Proposal,
    /// Whether its submission has a release.
    pub released: bool,
}

/// What stands in a proposal's members.
#[derive(Drop)]
struct Members<'a> {
    account: &'a str,
    judgement_type: &'a str,
    released: bool,
    submission: &'a str,
    time: &'a Moment,
}

impl<'a> Served for ProposalObject<'a> {
    ghost use Rattle.contest_objects.specs.ProposalObjects.{proposal_data};

    ghost value = { λ o. proposal_data o.settings.now o.proposal.now o.released };

    fn write(&self, out: &mut Writer) -> Result<(), AllocError> {
        let submission = submission_id(self.proposal.team, self.proposal.number);
        let members = Members {
            account: proposer_id(&self.proposal.proposer),
            judgement_type: self.settings.judgement_type_id(self.proposal.verdict),
            released: self.released,
            submission: submission.as_str(),
            time: &self.proposal.time,
        };
        write_proposal(out, members)
    }
}

// The object with these members.
fn write_proposal(out: &mut Writer, members: Members<'_>) -> Result<(), AllocError>
    ensures { OnOk result (Wrote out.old out.new (data_tokens (object (proposal_members members.entry.account.now members.entry.judgement_type.now members.entry.released members.entry.submission.now members.entry.time.now)))) }
{
    write_object(
        out,
        &[
            ("account_id", Member::Text(members.account)),
            ("judgement_type_id", Member::Text(members.judgement_type)),
            ("released", Member::Flag(members.released)),
            ("submission_id", Member::Text(members.submission)),
            ("time", Member::Time(members.time)),
        ],
    )
}

fn proposer_id(proposer: &Proposer) -> &str
    ensures { result.now ≡ proposer_id proposer.now }
{
    match proposer {
        Proposer::Account(id) => id.as_str(),
        Proposer::Import => "import",
    }
}
