//! A team submits.
ghost use Rattle.std.specs.Prelude.{◌≡◌, IfOk};
ghost use Rattle.serde_json.specs.Written.{compact_text};
ghost use Rattle.contest_postings.specs.PostSubmission.{own_submission};

use crate::own_so_far::own_so_far;
use crate::posting::{Done, Posting};
use contest_lists::Lists;
use contest_objects::{SubmissionObject, text_of};
use contest_rules::{Decision, RuleRefusal, Standing, WantedSubmission, decide_submission};
use contest_types::{Audience, Entry, Fixed, Moment, Rows, Submission};
use std::alloc::{AllocError, Global};

/// What a team asks for, with the file of the one that has its key.
#[derive(Drop)]
pub struct Submitting<'a> {
    /// The place of the team, from 0.
    pub team: usize,
    /// What it asks for.
    pub wanted: WantedSubmission,
    /// The file of the row that has the key.
    pub file: &'a Option<Rows<u8>>,
}

impl<'a> Posting<'a> for Submitting<'a> {
    ghost use Rattle.std.specs.Prelude.{◌≡◌};
    ghost use Rattle.contest_types.specs.State.{submissions_of};
    ghost use Rattle.contest_rules.specs.Submitting.{so_far, submit};
    ghost use Rattle.contest_lists.specs.Lists.{loaded};
    ghost use Rattle.contest_postings.specs.OwnSubmissions.{file_at};
    ghost use Rattle.contest_postings.specs.OwnSubmissions.{keyed_row};
    ghost use Rattle.contest_postings.specs.PostSubmission.{decision_entries, decision_object};

    type Done = Decision<Submission, Standing<'a>>;

    ghost fits = { λ c x. c.file.now ≡ file_at x (keyed_row c.team c.wanted.key (loaded x).submissions) };

    ghost decide = { λ c now x. submit x.fixed now c.team (so_far c.wanted.key (submissions_of c.team x.submissions)) c.wanted };

    ghost object = { decision_object };

    ghost entries = { decision_entries };

    fn decide(
        self,
        _alloc: Global,
        lists: &'a Lists,
        now: Moment,
    ) -> Result<Result<Decision<Submission, Standing<'a>>, RuleRefusal>, AllocError> {
        let Submitting { team, wanted, file } = self;
        let own = own_so_far(lists, team, &wanted.key, file);
        Ok(decide_submission(lists.fixed(), own, now, team, wanted))
    }

    fn tell(
        alloc: Global,
        fixed: &Fixed,
        done: Decision<Submission, Standing<'a>>,
    ) -> Result<Done, AllocError> {
        let mut entries = Rows::new(alloc);
        let text = match done {
            Decision::Add(submission) => {
                let text = own_text(alloc, fixed, &submission)?;
                entries.push(Entry::NewSubmission(submission))?;
                text
            }
            Decision::Stands(standing) => standing_text(alloc, fixed, &standing)?,
        };
        Ok(Done { text, entries })
    }
}

// The submission as its own team sees it, with its program, as the jury does too.
#[tactic(auto, using(crate::proofs::PostLemmas::own_as_jury))]
fn own_text(alloc: Global, fixed: &Fixed, submission: &Submission) -> Result<Vec<u8>, AllocError>
    ensures { IfOk result (λ text. text.items ≡ compact_text (own_submission fixed.now submission.now)) }
{
    let object = SubmissionObject {
        fixed,
        audience: Audience::Jury,
        submission,
    };
    text_of(alloc, &object)
}

// Its file isn't in its text.
#[tactic(auto, using(crate::proofs::PostLemmas::own_filed))]
fn standing_text(
    alloc: Global,
    fixed: &Fixed,
    standing: &Standing<'_>,
) -> Result<Vec<u8>, AllocError>
    ensures { IfOk result (λ text. text.items ≡ compact_text (own_submission fixed.now standing.now)) }
{
    own_text(alloc, fixed, standing.submission)
}
