//! Who sends clarifications, and whether they may.
ghost use Rattle.std.specs.Prelude.{◌≡◌, ◌++◌, ◌∷◌, [], true, nat_lt, IfOk, OnOk, length, map};
ghost use Rattle.std.specs.Option.{option_map_or};
ghost use Rattle.contest_types.specs.Masks.{audience_at};
ghost use Rattle.contest_types.specs.Series.{in_each};
ghost use Rattle.contest_types.specs.Sight.{hears};
ghost use Rattle.contest_types.specs.State.{same_addressee};
ghost use Rattle.contest_types.specs.ValidClarifications.{is_an_addressee, may_send, is_well_sent};
ghost use Rattle.contest_types.specs.ValidClarifications.{in_one_scope, keys_are_own};
ghost use Rattle.contest_types.specs.declared.clarification.Reference.{Reference as TheReference};
ghost use Rattle.contest_types.specs.declared.clarification.Clarification.{Clarification as TheClarification};
ghost use Rattle.contest_types.specs.declared.clarification.Addressee.TheVariants as addressee;
ghost use Rattle.contest_store_valid.specs.Keys.{keyed, read};
ghost use Rattle.contest_store_valid.specs.Talk.{is_sent, whose, read_sent};

use crate::accounts::Accounts;
use crate::numbering::are_at_most;
use contest_types::{Addressee, Clarification, Fixed, Reference, Role, Settings, is_of_group};
use std::alloc::{AllocError, Global};

/// Who wrote a clarification, in as far as keys are told apart by it: the addressee, if a team did,
/// or the account of the jury.
type Sender<'a> = (Option<Addressee>, &'a str);

/// Whether a clarification names an addressee, an account and a problem that are there, and a
/// team's account wrote it to the jury and answers what the team hears, or the jury wrote it.
pub(crate) fn is_sent(fixed: &Fixed, accounts: &Accounts<'_>, clarification: &Clarification) -> bool
    requires { accounts.now ≡ fixed.now.accounts }
    ensures { result ≡ is_sent fixed.now clarification.now }
{
    is_an_addressee(fixed, clarification.addressee)
        && accounts.has(&clarification.account)
        && has_problem(&fixed.settings, clarification.problem)
        && is_well_sent(fixed, accounts, clarification)
}

fn is_an_addressee(fixed: &Fixed, addressee: Addressee) -> bool
    ensures { result ≡ is_an_addressee fixed.now addressee }
{
    match addressee {
        Addressee::All => true,
        Addressee::Group(group) => group < fixed.settings.groups().len(),
        Addressee::Team(team) => team < fixed.settings.teams().len(),
    }
}

fn has_problem(settings: &Settings, problem: Option<usize>) -> bool
    ensures { result ≡ option_map_or (λ place. nat_lt place (length settings.now.problems)) problem true }
{
    match problem {
        Some(place) => place < settings.problems().len(),
        None => true,
    }
}

fn is_well_sent(fixed: &Fixed, accounts: &Accounts<'_>, clarification: &Clarification) -> bool
    requires { accounts.now ≡ fixed.now.accounts }
    ensures { result ≡ is_well_sent fixed.now clarification.now }
{
    if clarification.from_jury {
        return true;
    }
    match accounts.role(&clarification.account) {
        Some(role) => may_send(&fixed.settings, role, clarification),
        None => false,
    }
}

fn may_send(settings: &Settings, role: Role, clarification: &Clarification) -> bool
    ensures { result ≡ may_send settings.now role clarification.now }
{
    match role {
        Role::Team(team) => {
            is_to(team, clarification.addressee) && may_answer(settings, team, clarification.reply)
        }
        Role::Judge | Role::Admin | Role::Analyst => false,
    }
}

fn is_to(team: usize, to: Addressee) -> bool
    ensures { result ≡ same_addressee (addressee.Team team) to }
{
    match to {
        Addressee::All | Addressee::Group(_) => false,
        Addressee::Team(addressed) => team == addressed,
    }
}

fn may_answer(settings: &Settings, team: usize, reply: Option<Reference>) -> bool
    ensures { result ≡ option_map_or (λ (r : TheReference). hears (audience_at team) settings.now r.addressee) reply true }
{
    match reply {
        Some(reference) => hears(settings, team, reference.addressee),
        None => true,
    }
}

#[tactic(auto, using(crate::proofs::TalkLemmas::own_groups))]
fn hears(settings: &Settings, team: usize, to: Addressee) -> bool
    ensures { result ≡ hears (audience_at team) settings.now to }
{
    match to {
        Addressee::All => true,
        Addressee::Group(group) => is_of_group(settings, group, team),
        Addressee::Team(other) => team == other,
    }
}

/// Whether no team and no account of the jury has a key twice.
///
/// # Errors
///
/// Want of memory alone.
pub(crate) fn have_own_keys(
    alloc: Global,
    clarifications: &[Clarification],
) -> Result<bool, AllocError>
    ensures { IfOk result (λ answer. answer ≡ in_each in_one_scope keys_are_own clarifications.now) }
{
    let keys = keys_of(alloc, clarifications)?;
    are_at_most(alloc, 1, &keys)
}

// The keys, each with who wrote it.
fn keys_of(
    alloc: Global,
    clarifications: &[Clarification],
) -> Result<Vec<(Sender<'_>, &str)>, AllocError>
    ensures { IfOk result (λ keys. map read_sent keys.items ≡ keyed whose (λ (c : TheClarification). c.key) clarifications.now) }
{
    let mut keys = Vec::new(alloc);
    for clarification in clarifications {
        push_key(&mut keys, clarification)?;
    }
    Ok(keys)
}

fn push_key<'a>(
    keys: &mut Vec<(Sender<'a>, &'a str)>,
    clarification: &'a Clarification,
) -> Result<(), AllocError>
    ensures { OnOk result (map read_sent keys.new.items ≡ map read_sent keys.old.items ++ keyed whose (λ (c : TheClarification). c.key) (clarification.now ∷ [])) }
{
    if let Some(key) = &clarification.key {
        keys.push((sender(clarification), key.as_str()))?;
    }
    Ok(())
}

fn sender(clarification: &Clarification) -> Sender<'_>
    ensures { read result ≡ whose clarification.now }
{
    if clarification.from_jury {
        return (None, clarification.account.as_str());
    }
    (Some(clarification.addressee), "")
}
