//! The commands. Each is a file of its own, a variant of both enums here and an arm of each
//! function here.
ghost use Rattle.std.specs.Prelude.{◌≡◌, ◌⊎◌, true, IfOk, IfErr};
ghost use Rattle.contest_types.specs.State.{ContestState};
ghost use Rattle.contest_types.specs.Valid.{is_valid};
ghost use Rattle.contest_lists.specs.Lists.{loaded};
ghost use Rattle.contest_postings.specs.OwnSubmissions.{file_at};
ghost use Rattle.contest_operations.specs.Commands.{IsSoundPost, if_admin, if_judge, post_done};
ghost use Rattle.contest_operations.specs.Commands.{post_file, post_outcome, post_takes_memory};
ghost use Rattle.contest_operations.specs.Commands.{posted_by};
ghost use Rattle.contest_operations.specs.Callers.{is_admin, judge_of};
ghost use Rattle.contest_operations.specs.Replies.{IsOrdinary};

use crate::caller::{Caller, is_admin, judge_of, team_of};
use crate::clarify::post_clarification;
use crate::outcome::Outcome;
use crate::path::jury_piece;
use crate::post_change::{ChangeKind, post_change};
use crate::submit::post_submission;
use contest_lists::Lists;
use contest_postings::{
    ChangeFixed, Clarifying, Done, Finalize, Opening, Proposing, Rejudge, RejudgingStep, SetClock,
    Submitting, Verifying, WantedChange, carry_out, keyed_row,
};
use contest_requests::{JuryVerdict, Request, post_clock, post_rejudging, post_verdict};
use contest_rules::{RuleRefusal, WantedClock, WantedRejudging, WantedSubmission};
use contest_types::{Fixed, Moment, Refusal, Rows};
use std::alloc::{AllocError, Global};

/// What is done.
#[derive(Clone, Copy)]
pub enum Command {
    /// A team submits (Contest API 2023-06, submissions).
    Submit,
    /// A team asks, or the jury answers or announces (Contest API 2023-06, clarifications).
    Clarify,
    /// A judge proposes a verdict (DOMjudge manual, "Judging": verification).
    Propose,
    /// A judge verifies the verdict that another proposed.
    Verify,
    /// The jury opens a rejudging (DOMjudge manual, "Rejudging").
    OpenRejudging,
    /// A judge gives a verdict to a member of a rejudging.
    JudgeRejudging,
    /// The jury applies a rejudging.
    ApplyRejudging,
    /// The jury cancels one.
    CancelRejudging,
    /// An administrator sets the start or the thaw (Contest API 2023-06, contests: PATCH).
    SetClock,
    /// An administrator makes the results final.
    Finalize,
    /// An administrator changes the settings or the accounts (own).
    Change(ChangeKind),
}

/// What a caller whose role allows it posts, once its body is read.
#[derive(Drop)]
pub enum Posted {
    /// The team at a place, from 0, submits.
    Submission(usize, WantedSubmission),
    /// A team asks, or the jury answers or announces.
    Clarification(Clarifying),
    /// A judge proposes a verdict.
    Proposal(JuryVerdict),
    /// A judge verifies one.
    Verification(JuryVerdict),
    /// The jury opens a rejudging.
    Opening(WantedRejudging),
    /// What the jury does with the rejudging that a path names.
    Rejudging(Rows<u8>, RejudgingStep),
    /// An administrator sets the start or the thaw.
    Clock(WantedClock),
    /// An administrator makes the results final.
    Final,
    /// An administrator changes the settings or the accounts.
    Change(WantedChange),
}

/// What a caller posts by a command: its role is looked at first, then its body.
///
/// # Errors
///
/// `RoleForbids`, those of the command's body, or want of memory.
pub fn post(
    alloc: Global,
    fixed: &Fixed,
    caller: &Caller<'_>,
    command: Command,
    request: Request,
) -> Result<Posted, Refusal>
    ensures ok { IfOk result (λ posted. posted_by fixed.now caller.now command request ≡ Ok posted) }
    ensures err { IfErr result (λ e. (e ≡ Refusal.Memory) ⊎ (posted_by fixed.now caller.now command request ≡ Err e)) }
    ensures memory { IfErr result (λ e. e ≡ Refusal.Memory → post_takes_memory caller.now command ≡ true) }
{
    match command {
        Command::Submit => post_submission(alloc, fixed, team_of(caller), request),
        Command::Clarify => {
            let clarifying = post_clarification(alloc, fixed, caller, request)?;
            Ok(Posted::Clarification(clarifying))
        }
        Command::Propose => {
            let verdict = post_verdict(alloc, judge_of(caller), request.body.as_slice())?;
            Ok(Posted::Proposal(verdict))
        }
        Command::Verify => {
            let verdict = post_verdict(alloc, judge_of(caller), request.body.as_slice())?;
            Ok(Posted::Verification(verdict))
        }
        Command::OpenRejudging => {
            let wanted = post_rejudging(alloc, judge_of(caller), request.body.as_slice())?;
            Ok(Posted::Opening(wanted))
        }
        Command::JudgeRejudging => {
            let verdict = post_verdict(alloc, judge_of(caller), request.body.as_slice())?;
            Ok(Posted::Rejudging(request.path, RejudgingStep::Judge(verdict)))
        }
        Command::ApplyRejudging => rejudge(caller, request.path, RejudgingStep::Apply),
        Command::CancelRejudging => rejudge(caller, request.path, RejudgingStep::Cancel),
        Command::SetClock => {
            let contest = &fixed.settings.head().id;
            let wanted = post_clock(alloc, is_admin(caller), contest, request.body.as_slice())?;
            Ok(Posted::Clock(wanted))
        }
        Command::Finalize => finalize(caller),
        Command::Change(kind) => {
            let wanted = post_change(alloc, kind, is_admin(caller), request.body.as_slice())?;
            Ok(Posted::Change(wanted))
        }
    }
}

// What only the jury posts; its body isn't read.
fn rejudge(caller: &Caller<'_>, path: Rows<u8>, step: RejudgingStep) -> Result<Posted, Refusal>
    ensures { result ≡ if_judge (judge_of caller.now) (Posted.Rejudging path step) }
{
    match judge_of(caller) {
        Some(_) => Ok(Posted::Rejudging(path, step)),
        None => Err(Refusal::RoleForbids),
    }
}

// What only an administrator posts; its body isn't read.
fn finalize(caller: &Caller<'_>) -> Result<Posted, Refusal>
    ensures { result ≡ if_admin (is_admin caller.now) Posted.Final }
{
    if is_admin(caller) {
        Ok(Posted::Final)
    } else {
        Err(Refusal::RoleForbids)
    }
}

/// Whose file is needed to decide on what is posted: by the place of its team, from 0, and its
/// number, from 1. Files are large, and no more than one is read.
pub fn post_file(posted: &Posted, lists: &Lists) -> Option<(usize, usize)>
    ensures { result ≡ post_file posted.now lists.now }
{
    match posted {
        Posted::Submission(team, wanted) => keyed_row(lists, *team, &wanted.key),
        Posted::Clarification(_)
        | Posted::Proposal(_)
        | Posted::Verification(_)
        | Posted::Opening(_)
        | Posted::Rejudging(_, _)
        | Posted::Clock(_)
        | Posted::Final
        | Posted::Change(_) => None,
    }
}

/// What becomes of what is posted, over a contest's lists and the file that it needs.
///
/// # Errors
///
/// Want of memory alone.
pub fn perform(
    alloc: Global,
    lists: &Lists,
    now: Moment,
    posted: Posted,
    file: Option<Rows<u8>>,
) -> Result<Outcome, AllocError>
    ensures outcome { (x : ContestState) → is_valid x ≡ true → lists.now ≡ loaded x → IsSoundPost x.fixed posted → file ≡ file_at x (post_file posted (loaded x)) → IfOk result (λ o. o ≡ post_outcome now posted x) }
    ensures ordinary { IfOk result (λ o. IsOrdinary o.reply) }
{
    let done = done_by(alloc, lists, now, posted, &file)?;
    Ok(Outcome::told(alloc, done))
}

fn done_by(
    alloc: Global,
    lists: &Lists,
    now: Moment,
    posted: Posted,
    file: &Option<Rows<u8>>,
) -> Result<Result<Done, RuleRefusal>, AllocError>
    ensures { (x : ContestState) → is_valid x ≡ true → lists.now ≡ loaded x → IsSoundPost x.fixed posted → file.now ≡ file_at x (post_file posted (loaded x)) → IfOk result (λ done. done ≡ post_done now posted x) }
{
    match posted {
        Posted::Submission(team, wanted) => {
            carry_out(alloc, lists, now, Submitting { team, wanted, file })
        }
        Posted::Clarification(clarifying) => carry_out(alloc, lists, now, clarifying),
        Posted::Proposal(verdict) => carry_out(alloc, lists, now, Proposing { verdict }),
        Posted::Verification(verdict) => carry_out(alloc, lists, now, Verifying { verdict }),
        Posted::Opening(wanted) => carry_out(alloc, lists, now, Opening { wanted }),
        Posted::Rejudging(path, step) => {
            let id = jury_piece(path.as_slice());
            carry_out(alloc, lists, now, Rejudge { id, step })
        }
        Posted::Clock(wanted) => carry_out(alloc, lists, now, SetClock { wanted }),
        Posted::Final => carry_out(alloc, lists, now, Finalize),
        Posted::Change(wanted) => carry_out(alloc, lists, now, ChangeFixed { wanted }),
    }
}
