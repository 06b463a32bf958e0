//! The laws over whole contests that a director believes without being told. Nothing is run here.
#![tactic(auto)]

pub mod laws;
