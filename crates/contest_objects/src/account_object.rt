//! An account as its holder is served it.
ghost use Rattle.std.specs.Prelude.{◌≡◌, OnOk, option_map};
ghost use Rattle.serde_json.specs.Data.{object};
ghost use Rattle.contest_objects.specs.AccountObjects.{account_members, account_team, role_name};
ghost use Rattle.contest_objects.specs.JsonTokens.{Wrote, data_tokens};

use crate::json_text::Served;
use crate::members::{Member, write_object};
use contest_types::{Account, Role, Settings};
use json::Writer;
use std::alloc::AllocError;

/// An account (Contest API 2023-06, account): `id`, `team_id`, `type` and `username`, which is the
/// id.
#[derive(Clone, Copy)]
pub struct AccountObject<'a> {
    /// The contest's settings.
    pub settings: &'a Settings,
    /// The account.
    pub account: &'a Account,
}

impl<'a> Served for AccountObject<'a> {
    ghost use Rattle.contest_objects.specs.AccountObjects.{account_data};

    ghost value = { λ o. account_data o.settings.now o.account.now };

    fn write(&self, out: &mut Writer) -> Result<(), AllocError> {
        let Account { id, role, .. } = self.account;
        let team = account_team(self.settings, *role);
        write_account(out, id.as_str(), team, role_name(*role))
    }
}

// The object with these members.
fn write_account(
    out: &mut Writer,
    id: &str,
    team: Option<&str>,
    role: &str,
) -> Result<(), AllocError>
    ensures { OnOk result (Wrote out.old out.new (data_tokens (object (account_members id.now (option_map (λ t. t.now) team.entry) role.now)))) }
{
    write_object(
        out,
        &[
            ("id", Member::Text(id)),
            ("team_id", Member::TextOrNull(team)),
            ("type", Member::Text(role)),
            ("username", Member::Text(id)),
        ],
    )
}

fn account_team(settings: &Settings, role: Role) -> Option<&str>
    ensures { option_map (λ t. t.now) result ≡ account_team settings.now role }
{
    match role {
        Role::Team(team) => Some(settings.team_id(team)),
        Role::Judge | Role::Admin | Role::Analyst => None,
    }
}

fn role_name(role: Role) -> &'static str
    ensures { result.now ≡ role_name role }
{
    match role {
        Role::Team(_) => "team",
        Role::Judge => "judge",
        Role::Admin => "admin",
        Role::Analyst => "analyst",
    }
}
