//! Tests of the libraries below the desk, and of the command `replay`.
//!
//! Of the values of contest_types: texts and times, and how a refusal is answered; expected is what
//! the standards and worked examples say. Of boards and awards: which release of a submission
//! counts, and the awards of small boards; expected is what counting by hand gives. Of `replay`:
//! streams that fail, stop short or are interrupted; what it gives for files and words is tested on
//! the built program, by scripts under tests/.
#![tactic(auto)]

#[cfg(test)]
mod awards;
#[cfg(test)]
mod last_releases;
#[cfg(test)]
mod refusals;
#[cfg(test)]
mod replay_answers;
#[cfg(test)]
mod replay_files;
#[cfg(test)]
mod replay_streams;
#[cfg(test)]
mod texts;
