//! What is posted: its rules decide what is done.
ghost use Rattle.std.specs.Prelude.{◌≡◌, ℕ, List, Result, true, IfOk};
ghost use Rattle.serde_json.specs.Data.{Data};
ghost use Rattle.contest_types.specs.State.{ContestState, FixedPart};
ghost use Rattle.contest_types.specs.declared.entry.Entry.{Entry as TheEntry};
ghost use Rattle.contest_types.specs.Valid.{is_valid};
ghost use Rattle.contest_rules.specs.declared.rule_refusal.RuleRefusal.{RuleRefusal as TheRefusal};
ghost use Rattle.contest_lists.specs.Lists.{loaded};
ghost use Rattle.contest_postings.specs.DoneThings.{done_as, done_of};

use contest_lists::Lists;
use contest_rules::RuleRefusal;
use contest_types::{Entry, Fixed, Moment, Rows};
use std::alloc::{AllocError, Global};
use std::marker::Model;

/// What is done: what it is answered with, and what is added.
#[derive(Drop)]
pub struct Done {
    /// The JSON text of the answer.
    pub text: Vec<u8>,
    /// What is added, one after the other.
    pub entries: Rows<Entry>,
}

impl Model for Done {
    ghost use Rattle.contest_postings.specs.DoneThings.{Done as TheDone};

    ghost Value = { TheDone };

    ghost view = { λ d. record { text = d.text.items; entries = d.entries } };
}

/// What is posted, once its body is read.
pub trait Posting<'a>: Drop {
    /// What is done where the rules allow it.
    type Done: Drop;

    /// The file that comes with it is the contest's.
    ghost fits: { Self → ContestState → Type 0 };

    /// What is done of a contest at a moment, or why not.
    ghost decide: { Self → (now : ℕ) → ContestState → Result Self.Done TheRefusal };

    /// What it is answered with.
    ghost object: { FixedPart → Self.Done → Data };

    /// What it adds.
    ghost entries: { Self.Done → List TheEntry };

    /// What is done, or why the rules refuse it: the same of the lists of whichever valid contest.
    ///
    /// # Errors
    ///
    /// Want of memory alone.
    fn decide(
        self,
        alloc: Global,
        lists: &'a Lists,
        now: Moment,
    ) -> Result<Result<Self::Done, RuleRefusal>, AllocError>
        ensures { (x : ContestState) → is_valid x ≡ true → lists.now ≡ loaded x → fits self x → IfOk result (λ done. done ≡ decide self now x) };

    /// What is done is answered, and added.
    ///
    /// # Errors
    ///
    /// Want of memory alone.
    fn tell(alloc: Global, fixed: &Fixed, done: Self::Done) -> Result<Done, AllocError>
        ensures { IfOk result (λ told. told ≡ done_of (object fixed.now) entries done) };
}

/// What becomes of what is posted.
///
/// # Errors
///
/// Want of memory alone.
pub fn carry_out<'a, P: Posting<'a>>(
    alloc: Global,
    lists: &'a Lists,
    now: Moment,
    posting: P,
) -> Result<Result<Done, RuleRefusal>, AllocError>
    ensures { (x : ContestState) → is_valid x ≡ true → lists.now ≡ loaded x → P.fits posting x
        → IfOk result (λ done. done ≡ done_as (P.object x.fixed) P.entries (P.decide posting now x)) }
{
    match posting.decide(alloc, lists, now)? {
        Ok(done) => Ok(Ok(P::tell(alloc, lists.fixed(), done)?)),
        Err(refusal) => Ok(Err(refusal)),
    }
}
