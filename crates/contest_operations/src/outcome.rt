//! What a request comes to.
ghost use Rattle.std.specs.Prelude.{◌≡◌};
ghost use Rattle.contest_operations.specs.Outcomes.{refusing, replying, told};
ghost use Rattle.contest_operations.specs.Replies.{IsOrdinary};

use crate::Reply;
use contest_postings::Done;
use contest_rules::RuleRefusal;
use contest_types::{Entry, Refusal, Rows};
use std::alloc::Global;

/// What a request comes to: a reply, and what is added to the contest.
#[derive(Drop)]
pub struct Outcome {
    /// The reply.
    pub reply: Reply,
    /// What is added, one after the other.
    pub entries: Rows<Entry>,
}

impl Outcome {
    /// A reply that adds nothing. It takes no memory.
    pub fn replying(alloc: Global, reply: Reply) -> Outcome
        ensures { result ≡ replying reply }
    {
        Outcome {
            reply,
            entries: Rows::new(alloc),
        }
    }

    /// A refusal. It takes no memory.
    pub fn refusing(alloc: Global, refusal: Refusal) -> Outcome
        ensures { result ≡ refusing refusal }
    {
        Outcome::replying(alloc, Reply::refused(refusal))
    }

    /// What becomes of what is posted. It takes no memory.
    #[tactic(auto, using(crate::proofs::DoneLemmas::told_ordinary))]
    pub fn told(alloc: Global, done: Result<Done, RuleRefusal>) -> Outcome
        ensures outcome { result ≡ told done }
        ensures ordinary { IsOrdinary result.reply }
    {
        match done {
            Ok(done) => Outcome {
                reply: Reply::answer(done.text),
                entries: done.entries,
            },
            Err(refusal) => Outcome::refusing(alloc, refusal.refusal()),
        }
    }
}
