//! An object of a collection, whichever it is.
ghost use Rattle.std.specs.Prelude.{◌≡◌, IfOk, Some, bytes_eq};
ghost use Rattle.contest_objects.specs.CollectionObjects.{event_of, item_of};
ghost use Rattle.contest_objects.specs.EventFeed.{event_line};

use crate::award_object::AwardObject;
use crate::clarification_object::ClarificationObject;
use crate::event_object::EventObject;
use crate::json_text::Served;
use crate::judgement_object::JudgementObject;
use crate::proposal_object::ProposalObject;
use crate::settings_objects::TeamObject;
use crate::submission_object::SubmissionObject;
use crate::visible_ids::{
    clarification_id, has_clarification_id, has_judgement_id, has_submission_id, judgement_id,
    submission_id,
};
use contest_types::{Group, JudgementType, Language, Problem};
use json::Writer;
use std::alloc::{AllocError, Global};

/// An object that is served under an id (Contest API 2023-06, endpoints).
#[derive(Clone, Copy)]
pub enum CollectionObject<'a> {
    /// A judgement type.
    JudgementType(&'a JudgementType),
    /// A language.
    Language(&'a Language),
    /// A problem.
    Problem(&'a Problem),
    /// A group.
    Group(&'a Group),
    /// A team.
    Team(TeamObject<'a>),
    /// A submission.
    Submission(SubmissionObject<'a>),
    /// A judgement.
    Judgement(JudgementObject<'a>),
    /// A clarification.
    Clarification(ClarificationObject<'a>),
    /// An award.
    Award(AwardObject<'a>),
    /// A proposal, under the id of its submission (own).
    Proposal(ProposalObject<'a>),
}

impl<'a> CollectionObject<'a> {
    /// Whether a text is its id, byte for byte. It takes no memory.
    pub fn has_id(&self, id: &[u8]) -> bool
        ensures { result ≡ bytes_eq (item_of self.now).id id.now }
    {
        match self {
            CollectionObject::JudgementType(row) => row.id.as_bytes() == id,
            CollectionObject::Language(row) => row.id.as_bytes() == id,
            CollectionObject::Problem(row) => row.id.as_bytes() == id,
            CollectionObject::Group(row) => row.id.as_bytes() == id,
            CollectionObject::Team(object) => object.team.id.as_bytes() == id,
            CollectionObject::Submission(object) => {
                has_submission_id(object.submission.team, object.submission.number, id)
            }
            CollectionObject::Judgement(object) => {
                has_judgement_id(object.team, object.number, object.release.round, id)
            }
            CollectionObject::Clarification(object) => {
                let clarification = object.clarification;
                has_clarification_id(clarification.addressee, clarification.number, id)
            }
            CollectionObject::Award(object) => object.id.as_bytes() == id,
            CollectionObject::Proposal(object) => {
                has_submission_id(object.proposal.team, object.proposal.number, id)
            }
        }
    }

    /// The line of its event, which has this number in its feed.
    ///
    /// # Errors
    ///
    /// Want of memory alone.
    pub fn event_line(&self, alloc: Global, number: usize) -> Result<Vec<u8>, AllocError>
        ensures { IfOk result (λ text. text.items ≡ event_line number (event_of self.now)) }
    {
        match self {
            CollectionObject::JudgementType(row) => {
                self.line_with(alloc, number, "judgement-types", row.id.as_str())
            }
            CollectionObject::Language(row) => {
                self.line_with(alloc, number, "languages", row.id.as_str())
            }
            CollectionObject::Problem(row) => {
                self.line_with(alloc, number, "problems", row.id.as_str())
            }
            CollectionObject::Group(row) => {
                self.line_with(alloc, number, "groups", row.id.as_str())
            }
            CollectionObject::Team(object) => {
                self.line_with(alloc, number, "teams", object.team.id.as_str())
            }
            CollectionObject::Submission(object) => {
                let id = submission_id(object.submission.team, object.submission.number);
                self.line_with(alloc, number, "submissions", id.as_str())
            }
            CollectionObject::Judgement(object) => {
                let id = judgement_id(object.team, object.number, object.release.round);
                self.line_with(alloc, number, "judgements", id.as_str())
            }
            CollectionObject::Clarification(object) => {
                let clarification = object.clarification;
                let id = clarification_id(clarification.addressee, clarification.number);
                self.line_with(alloc, number, "clarifications", id.as_str())
            }
            CollectionObject::Award(object) => self.line_with(alloc, number, "awards", object.id),
            CollectionObject::Proposal(object) => {
                let id = submission_id(object.proposal.team, object.proposal.number);
                self.line_with(alloc, number, "proposals", id.as_str())
            }
        }
    }

    // The same, with its collection's name and its id.
    fn line_with(
        &self,
        alloc: Global,
        number: usize,
        collection: &str,
        id: &str,
    ) -> Result<Vec<u8>, AllocError>
        ensures { IfOk result (λ text. text.items ≡ event_line number (record { collection = collection.now; id = Some id.now; object = (item_of self.now).object })) }
    {
        let event = EventObject {
            number,
            collection,
            id: Some(id),
            object: self,
        };
        event.line(alloc)
    }
}

impl<'a> Served for CollectionObject<'a> {
    ghost use Rattle.contest_objects.specs.CollectionObjects.{item_of};

    ghost value = { λ o. (item_of o).object };

    fn write(&self, out: &mut Writer) -> Result<(), AllocError> {
        match self {
            CollectionObject::JudgementType(row) => row.write(out),
            CollectionObject::Language(row) => row.write(out),
            CollectionObject::Problem(row) => row.write(out),
            CollectionObject::Group(row) => row.write(out),
            CollectionObject::Team(object) => object.write(out),
            CollectionObject::Submission(object) => object.write(out),
            CollectionObject::Judgement(object) => object.write(out),
            CollectionObject::Clarification(object) => object.write(out),
            CollectionObject::Award(object) => object.write(out),
            CollectionObject::Proposal(object) => object.write(out),
        }
    }
}
