//! The values of a contest: its texts and times, its settings, its rows, and how each refusal is
//! named.
#![tactic(auto)]

mod account;
mod audience;
mod backwards;
mod clarification;
mod clock;
mod contest;
mod decimal;
mod digest;
mod entry;
mod fixed;
mod id;
mod id_list;
mod import_kind;
pub mod laws;
pub mod limits;
mod marks;
mod minute;
mod moment;
mod name;
mod objects;
mod problem_key;
mod proposal;
mod refusal;
mod rejudging;
mod rel_time;
mod rows;
mod settings;
mod settings_names;
mod sight;
pub mod sight_laws;
mod submission;
mod text;
mod time_span;

pub use account::{Account, Role};
pub use audience::{Audience, Phase};
pub use clarification::{Addressee, Clarification, Reference};
pub use clock::{
    end_of, freeze_of, has_come, is_finalized, is_freezing, is_frozen, is_reached, is_thawed, phase,
};
pub use contest::{Contest, ContestHead, Medals};
pub use decimal::decimal_number;
pub use digest::Digest;
pub use entry::Entry;
pub use fixed::Fixed;
pub use id::{Id, ids_are_ascii, is_id};
pub use id_list::Identified;
pub use import_kind::{FixedKind, ImportKind, SettingsKind};
pub use marks::Marks;
pub use minute::Minute;
pub use moment::{Moment, one_moment, one_text, print_time, text_is_counted};
pub use name::Name;
pub use objects::{Group, JudgementType, Language, Problem, Team};
pub use problem_key::problem_order;
pub use proposal::{Proposal, Proposer};
pub use refusal::{Cause, Refusal, RefusalRow, RowFault};
pub use rejudging::{Member, MemberState, Rejudging, RejudgingState};
pub use rel_time::{RelTime, one_time, print_reltime, printed_reads};
pub use rows::Rows;
pub use settings::Settings;
pub use sight::{
    Mask, hears, is_of_group, is_public, knows_all_of, mask_for, seen_verdict, sees_clarification,
    sees_submission, sees_team, verdict_under,
};
pub use submission::{Release, Submission};
pub use text::Text;
pub use time_span::TimeSpan;
