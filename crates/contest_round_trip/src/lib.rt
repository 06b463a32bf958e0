//! The law that joins the event feed which the desk writes and the one which it reads. Nothing is
//! run here.
#![tactic(auto)]

pub mod laws;
