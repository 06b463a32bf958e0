//! Tests of the tables of a contest, and of its changes in them, over a database in memory: that
//! the calls succeed, and what the tables show after them.
#![tactic(auto)]

#[cfg(test)]
mod changes;
#[cfg(test)]
mod each_kind;
#[cfg(test)]
mod older;
#[cfg(test)]
mod rows;
#[cfg(test)]
mod standing;
#[cfg(test)]
mod tables;
