//! One row of a contest as JSON, whoever looks at it, and a collection of such objects: listed in
//! its order, looked up by id, and as events of a feed.
#![tactic(auto)]

mod account_object;
mod award_object;
mod clarification_object;
mod collection;
mod collection_events;
mod collection_object;
mod contest_objects;
mod event_object;
mod id_numbers;
mod json_text;
mod judgement_object;
mod members;
mod proposal_object;
mod rejudging_object;
mod settings_objects;
mod state_object;
mod submission_object;
mod visible_ids;

pub use account_object::AccountObject;
pub use award_object::AwardObject;
pub use clarification_object::ClarificationObject;
pub use collection::{Collection, Ordered, Whole, get, get_whole, list, list_whole, refs, sorted};
pub use collection_events::{push_objects, push_problems, push_whole};
pub use collection_object::CollectionObject;
pub use contest_objects::{ContestEndpoint, ContestObject, StateObject, WholeContest};
pub use event_object::EventObject;
pub use id_numbers::{rejudging_number, submission_numbers};
pub use json_text::{
    Served, begin_array, begin_object, end_array, end_object, text_of, write_name, write_number,
    write_string,
};
pub use judgement_object::JudgementObject;
pub use members::{IdKind, Member, write_member, write_object};
pub use proposal_object::ProposalObject;
pub use rejudging_object::RejudgingObject;
pub use settings_objects::{
    Groups, JudgementTypes, Languages, Problems, SettingsEndpoint, TeamObject, Teams, setting_text,
    settings_text,
};
pub use submission_object::SubmissionObject;
pub use visible_ids::{
    clarification_id, has_clarification_id, has_judgement_id, has_submission_id, judgement_id,
    submission_id,
};
