//! Whether the clarifications of a contest are valid.
ghost use Rattle.std.specs.Prelude.{◌≡◌, IfOk};
ghost use Rattle.std.specs.List.{list_all};
ghost use Rattle.std.specs.Option.{option_map_or};
ghost use Rattle.contest_types.specs.Series.{in_each};
ghost use Rattle.contest_types.specs.ValidClarifications.{has_valid_clarifications};
ghost use Rattle.contest_types.specs.ValidClarifications.{is_valid_clarification};
ghost use Rattle.contest_types.specs.ValidClarifications.{has_clarification, to_one_addressee};
ghost use Rattle.contest_types.specs.ValidClarifications.{are_valid_clarifications};
ghost use Rattle.contest_types.specs.declared.clarification.Clarification.{Clarification as TheClarification};
ghost use Rattle.contest_store_valid.specs.Talk.{is_sent};

use crate::accounts::Accounts;
use crate::addressees::are_valid_by_addressee;
use crate::replies::replies_stand;
use crate::senders::{have_own_keys, is_sent};
use contest_lists::Lists;
use contest_types::{Clarification, Fixed};
use std::alloc::{AllocError, Global};

/// Whether each clarification names what is there and is sent by who may send it, whether each
/// addressee's count up and aren't too many, and whether no team and no account of the jury has a
/// key twice.
///
/// # Errors
///
/// Want of memory alone.
pub(crate) fn has_valid_clarifications(alloc: Global, lists: &Lists) -> Result<bool, AllocError>
    ensures { IfOk result (λ answer. answer ≡ has_valid_clarifications lists.now) }
{
    let alone = are_valid_alone(alloc, lists)?;
    let numbered = are_valid_by_addressee(alloc, lists.clarifications())?;
    let keyed = have_own_keys(alloc, lists.clarifications())?;
    Ok(alone && numbered && keyed)
}

#[tactic(auto, using(crate::proofs::TalkLemmas::valid_alone))]
fn are_valid_alone(alloc: Global, lists: &Lists) -> Result<bool, AllocError>
    ensures { IfOk result (λ answer. answer ≡ list_all (is_valid_clarification lists.now) lists.now.clarifications) }
{
    let sent = are_sent(alloc, lists.fixed(), lists.clarifications())?;
    let answering = replies_stand(alloc, lists.clarifications())?;
    Ok(sent && answering)
}

fn are_sent(
    alloc: Global,
    fixed: &Fixed,
    clarifications: &[Clarification],
) -> Result<bool, AllocError>
    ensures { IfOk result (λ answer. answer ≡ list_all (is_sent fixed.now) clarifications.now) }
{
    let accounts = Accounts::new(alloc, fixed.accounts.as_slice())?;
    Ok(are_sent_by(fixed, &accounts, clarifications))
}

fn are_sent_by(fixed: &Fixed, accounts: &Accounts<'_>, clarifications: &[Clarification]) -> bool
    requires { accounts.now ≡ fixed.now.accounts }
    ensures { result ≡ list_all (is_sent fixed.now) clarifications.now }
{
    for clarification in clarifications {
        if !is_sent(fixed, accounts, clarification) {
            return false;
        }
    }
    true
}
