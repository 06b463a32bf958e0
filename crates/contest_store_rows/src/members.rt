//! Members of rejudgings as rows, and the member that a row is.
ghost use Rattle.std.specs.Prelude.{◌≡◌, ◌<◌, ◌+◌, ◌^◌, IfOk, IfSome, map};
ghost use Rattle.std.specs.Option.{option_map};
ghost use Rattle.sqlite_value.specs.Order.{column};
ghost use Rattle.sqlite_value.specs.Value.{owned};
ghost use Rattle.sqlite_value.specs.declared.value.Value.TheVariants.{Text};
ghost use Rattle.sqlite.specs.Values.{or_null};
ghost use Rattle.contest_types.specs.SettingsNames.{type_id_at};
ghost use Rattle.contest_types.specs.declared.objects.JudgementType.{JudgementType as TheType};
ghost use Rattle.contest_store_rows.specs.Cells.{lent, number_of};
ghost use Rattle.contest_store_rows.specs.ListRows.{is_ready, member_account, member_row};
ghost use Rattle.contest_store_rows.specs.ListRows.{member_type};
ghost use Rattle.contest_store_rows.specs.Readings.{if_its_row, place_if_any};
ghost use Rattle.contest_store_rows.specs.Rejudgings.{member_in, member_said, member_state_by};

use crate::cells::{id_if_any, is_null, is_row, number, number_at, text_at};
use contest_types::{Id, Member, MemberState, Settings};
use sqlite::Row;
use sqlite::types::ValueRef;
use std::alloc::{AllocError, Global};

/// The cells of the row that keeps the member at a place, from 1, of the rejudging with a number.
pub fn member_cells<'a>(
    settings: &'a Settings,
    rejudging: u64,
    place: u64,
    member: &'a Member,
) -> [ValueRef<'a>; 7]
    requires rejudging { rejudging < 2 ^ 63 }
    requires place { place < 2 ^ 63 }
    requires team { member.now.team + 1 < 2 ^ 63 }
    requires number { member.now.number < 2 ^ 63 }
    ensures { lent result ≡ member_row settings.now rejudging place member.now }
{
    [
        number(rejudging),
        number(place),
        number(member.team as u64 + 1),
        number(member.number as u64),
        type_cell(settings, &member.state),
        account_cell(&member.state),
        number(is_ready(&member.state) as u64),
    ]
}

/// The id of the type of a member's verdict as a cell, or NULL.
pub fn type_cell<'a>(settings: &'a Settings, state: &MemberState) -> ValueRef<'a>
    ensures { owned result ≡ or_null Text (option_map (type_id_at settings.now) (member_type state.now)) }
{
    match state {
        MemberState::Empty => ValueRef::Null,
        MemberState::Proposed { verdict, .. } | MemberState::Ready(verdict) => {
            ValueRef::Text(settings.judgement_type_id(*verdict).as_bytes())
        }
    }
}

/// The id of the account whose verdict for a member waits as a cell, or NULL.
pub fn account_cell(state: &MemberState) -> ValueRef<'_>
    ensures { owned result ≡ or_null Text (member_account state.now) }
{
    match state {
        MemberState::Proposed { account, .. } => ValueRef::Text(account.as_bytes()),
        MemberState::Empty | MemberState::Ready(_) => ValueRef::Null,
    }
}

/// Whether a member's verdict stands.
pub fn is_ready(state: &MemberState) -> bool
    ensures { result ≡ is_ready state.now }
{
    matches!(state, MemberState::Ready(_))
}

fn member_state_by(verdict: Option<usize>, account: Option<Id>) -> MemberState
    ensures { result ≡ member_state_by verdict account }
{
    match (verdict, account) {
        (None, _) => MemberState::Empty,
        (Some(verdict), None) => MemberState::Ready(verdict),
        (Some(verdict), Some(account)) => MemberState::Proposed { verdict, account },
    }
}

fn type_if_any(settings: &Settings, row: &Row, at: usize) -> Option<usize>
    ensures { result ≡ place_if_any (map (λ (t : TheType). t.id) settings.now.types) (column row.now at) }
{
    if is_null(row, at) {
        return None;
    }
    Some(settings.judgement_type_place(text_at(row, at)).unwrap_or(0))
}

// What the cells say, if the account is an id.
fn member_said(alloc: Global, settings: &Settings, row: &Row) -> Result<Option<Member>, AllocError>
    ensures said { IfOk result (λ found. found ≡ member_said settings.now row.now) }
    ensures fits { IfOk result (λ found. IfSome found (λ m. (m.team + 1 < 2 ^ 63) × (m.number < 2 ^ 63))) }
{
    let Some(account) = id_if_any(alloc, row, 5)? else {
        return Ok(None);
    };
    Ok(Some(Member {
        team: (number_at(row, 2) as usize).saturating_sub(1),
        number: number_at(row, 3) as usize,
        state: member_state_by(type_if_any(settings, row, 4), account),
    }))
}

/// The member at a place, from 1, of the rejudging with a number that a row is; none where it is no
/// row of one.
///
/// # Errors
///
/// Want of memory alone.
pub(crate) fn read_member(
    alloc: Global,
    settings: &Settings,
    rejudging: u64,
    place: u64,
    row: &Row,
) -> Result<Option<Member>, AllocError>
    requires rejudging { rejudging < 2 ^ 63 }
    requires place { place < 2 ^ 63 }
    ensures { IfOk result (λ found. found ≡ member_in settings.now rejudging place row.now) }
{
    let Some(member) = member_said(alloc, settings, row)? else {
        return Ok(None);
    };
    let its = is_row(row, &member_cells(settings, rejudging, place, &member));
    Ok(its.then_some(member))
}
