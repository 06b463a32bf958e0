//! The contest of an event feed of the Contest API (2020-03, 2022-07 and 2023-06), which is read
//! line by line.
#![tactic(auto)]

mod attempts;
mod change;
mod collection;
mod contest_object;
mod ending;
mod event;
mod feed;
mod feed_contest;
mod feed_object;
mod feed_rows;
mod first_fault;
mod full_teams;
mod id_set;
mod left_out;
mod limits;
mod lines;
mod objects;
mod reading;
mod row;
mod setup;
mod stream;
mod submissions;
mod tables;
mod verdicts;

pub use feed::read_feed;
pub use feed_contest::{FeedContest, LeftOut};
pub use stream::FeedFault;
