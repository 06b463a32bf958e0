//! An administrator changes the settings or the accounts while the contest goes on.
ghost use Rattle.std.specs.Prelude.{◌≡◌, IfOk};
ghost use Rattle.serde_json.specs.Written.{compact_text};
ghost use Rattle.contest_postings.specs.PostChanges.{made_data, made_entries, made_entry};

use crate::added_rows::{add_account, add_team};
use crate::changed_rows::{extend, set_name, set_token};
use crate::posting::{Done, Posting};
use contest_import::{AccountRow, NameRow, TeamRow, TokenRow};
use contest_lists::Lists;
use contest_objects::{AccountObject, ContestObject, TeamObject, text_of};
use contest_rules::{RuleRefusal, WantedExtension};
use contest_types::{Account, Digest, Entry, Fixed, Moment, Rows, Team, TimeSpan};
use std::alloc::{AllocError, Global};

/// What an administrator asks for.
#[derive(Drop)]
pub enum WantedChange {
    /// An account.
    Account(AccountRow),
    /// A team.
    Team(TeamRow),
    /// Another token of an account.
    Token(TokenRow),
    /// Another name of a team.
    Name(NameRow),
    /// More time.
    Extension(WantedExtension),
}

/// A change with the places of what it names.
#[derive(Drop)]
pub enum FixedChange {
    /// An account is added.
    Account(Account),
    /// A team is added.
    Team(Team),
    /// The account, as it stands, gets another token.
    Token(Account, Digest),
    /// The team at a place, from 0, is named as it is here.
    Name(usize, Team),
    /// The contest has this duration and this freeze duration, if there is one.
    Extension(TimeSpan, Option<TimeSpan>),
}

/// What is so now.
#[derive(Drop)]
pub struct MadeChange {
    /// The change.
    pub change: FixedChange,
    /// Whether it is made, and wasn't so before.
    pub is_new: bool,
}

/// A change that an administrator makes.
#[derive(Drop)]
pub struct ChangeFixed {
    /// What is asked for.
    pub wanted: WantedChange,
}

impl<'a> Posting<'a> for ChangeFixed {
    ghost use Rattle.contest_postings.specs.PostChanges.{change_made, made_entries, made_object};

    type Done = MadeChange;

    ghost fits = { λ c x. Unit {0} };

    ghost decide = { λ c now x. change_made now c.wanted x };

    ghost object = { made_object };

    ghost entries = { made_entries };

    fn decide(
        self,
        alloc: Global,
        lists: &'a Lists,
        now: Moment,
    ) -> Result<Result<MadeChange, RuleRefusal>, AllocError> {
        let fixed = lists.fixed();
        match self.wanted {
            WantedChange::Account(wanted) => Ok(add_account(fixed, wanted)),
            WantedChange::Team(wanted) => add_team(alloc, fixed, wanted, now),
            WantedChange::Token(wanted) => set_token(alloc, fixed, wanted),
            WantedChange::Name(wanted) => set_name(alloc, fixed, wanted),
            WantedChange::Extension(wanted) => Ok(extend(fixed, lists.submissions(), wanted, now)),
        }
    }

    fn tell(alloc: Global, fixed: &Fixed, done: MadeChange) -> Result<Done, AllocError> {
        let text = made_text(alloc, fixed, &done.change)?;
        let entries = entries_of(alloc, done)?;
        Ok(Done { text, entries })
    }
}

fn made_text(alloc: Global, fixed: &Fixed, change: &FixedChange) -> Result<Vec<u8>, AllocError>
    ensures { IfOk result (λ text. text.items ≡ compact_text (made_data fixed.now change.now)) }
{
    let settings = &fixed.settings;
    match change {
        FixedChange::Account(account) | FixedChange::Token(account, _) => {
            text_of(alloc, &AccountObject { settings, account })
        }
        FixedChange::Team(team) | FixedChange::Name(_, team) => {
            text_of(alloc, &TeamObject { settings, team })
        }
        FixedChange::Extension(duration, freeze) => text_of(
            alloc,
            &ContestObject {
                head: settings.head(),
                duration: *duration,
                freeze: *freeze,
                marks: &fixed.marks,
            },
        ),
    }
}

fn entries_of(alloc: Global, done: MadeChange) -> Result<Rows<Entry>, AllocError>
    ensures { IfOk result (λ entries. entries ≡ made_entries done) }
{
    let mut entries = Rows::new(alloc);
    if done.is_new {
        entries.push(made_entry(done.change))?;
    }
    Ok(entries)
}

fn made_entry(change: FixedChange) -> Entry
    ensures { result ≡ made_entry change }
{
    match change {
        FixedChange::Account(account) => Entry::NewAccount(account),
        FixedChange::Team(team) => Entry::NewTeam(team),
        FixedChange::Token(account, digest) => Entry::SetDigest(account.id, digest),
        FixedChange::Name(place, team) => Entry::SetTeamName(place, team.name),
        FixedChange::Extension(duration, freeze) => Entry::SetDuration(duration, freeze),
    }
}
