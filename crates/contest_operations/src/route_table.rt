//! The one table of routes: what is offered on which paths.
ghost use Rattle.std.specs.Prelude.{◌≡◌, true, [], IfOk, OnOk, map, option_map};
ghost use Rattle.matchit.specs.Seek.{first};
ghost use Rattle.contest_operations.specs.Routes.{offer_in, route_rows, routes, takes_route};
ghost use Rattle.contest_operations.specs.Routes.{with_route};

use crate::command::Command;
use crate::offer::Offer;
use crate::operation::{Endpoint, JuryReading, Reading};
use crate::post_change::ChangeKind;
use contest_objects::{ContestEndpoint, SettingsEndpoint};
use matchit::{InsertError, Router};
use std::alloc::{AllocError, Global};

const NOTHING: Offer = Offer {
    get: None,
    post: None,
    patch: None,
};

/// The text of each route, as matchit reads it, and what is offered there (paths are the Contest
/// API 2023-06's; a group's scoreboard and those under `/jury/` are own).
static ROUTES: [(&str, Offer); 39] = [
    (
        "/contests",
        Offer {
            get: Some(Reading::Whole(ContestEndpoint::Contests)),
            ..NOTHING
        },
    ),
    (
        "/contests/{contest}",
        Offer {
            get: Some(Reading::Whole(ContestEndpoint::Contest)),
            patch: Some(Command::SetClock),
            ..NOTHING
        },
    ),
    (
        "/contests/{contest}/state",
        Offer {
            get: Some(Reading::Whole(ContestEndpoint::State)),
            ..NOTHING
        },
    ),
    (
        "/contests/{contest}/account",
        Offer {
            get: Some(Reading::Account),
            ..NOTHING
        },
    ),
    (
        "/contests/{contest}/scoreboard",
        Offer {
            get: Some(Reading::Scoreboard),
            ..NOTHING
        },
    ),
    (
        "/contests/{contest}/event-feed",
        Offer {
            get: Some(Reading::Feed),
            ..NOTHING
        },
    ),
    (
        "/contests/{contest}/judgement-types",
        Offer {
            get: Some(Reading::List(Endpoint::Settings(SettingsEndpoint::JudgementTypes))),
            ..NOTHING
        },
    ),
    (
        "/contests/{contest}/judgement-types/{id}",
        Offer {
            get: Some(Reading::Object(Endpoint::Settings(SettingsEndpoint::JudgementTypes))),
            ..NOTHING
        },
    ),
    (
        "/contests/{contest}/languages",
        Offer {
            get: Some(Reading::List(Endpoint::Settings(SettingsEndpoint::Languages))),
            ..NOTHING
        },
    ),
    (
        "/contests/{contest}/languages/{id}",
        Offer {
            get: Some(Reading::Object(Endpoint::Settings(SettingsEndpoint::Languages))),
            ..NOTHING
        },
    ),
    (
        "/contests/{contest}/problems",
        Offer {
            get: Some(Reading::List(Endpoint::Settings(SettingsEndpoint::Problems))),
            ..NOTHING
        },
    ),
    (
        "/contests/{contest}/problems/{id}",
        Offer {
            get: Some(Reading::Object(Endpoint::Settings(SettingsEndpoint::Problems))),
            ..NOTHING
        },
    ),
    (
        "/contests/{contest}/groups",
        Offer {
            get: Some(Reading::List(Endpoint::Settings(SettingsEndpoint::Groups))),
            ..NOTHING
        },
    ),
    (
        "/contests/{contest}/groups/{id}",
        Offer {
            get: Some(Reading::Object(Endpoint::Settings(SettingsEndpoint::Groups))),
            ..NOTHING
        },
    ),
    (
        "/contests/{contest}/groups/{id}/scoreboard",
        Offer {
            get: Some(Reading::GroupScoreboard),
            ..NOTHING
        },
    ),
    (
        "/contests/{contest}/teams",
        Offer {
            get: Some(Reading::List(Endpoint::Settings(SettingsEndpoint::Teams))),
            ..NOTHING
        },
    ),
    (
        "/contests/{contest}/teams/{id}",
        Offer {
            get: Some(Reading::Object(Endpoint::Settings(SettingsEndpoint::Teams))),
            ..NOTHING
        },
    ),
    (
        "/contests/{contest}/judgements",
        Offer {
            get: Some(Reading::List(Endpoint::Judgements)),
            ..NOTHING
        },
    ),
    (
        "/contests/{contest}/judgements/{id}",
        Offer {
            get: Some(Reading::Object(Endpoint::Judgements)),
            ..NOTHING
        },
    ),
    (
        "/contests/{contest}/awards",
        Offer {
            get: Some(Reading::List(Endpoint::Awards)),
            ..NOTHING
        },
    ),
    (
        "/contests/{contest}/awards/{id}",
        Offer {
            get: Some(Reading::Object(Endpoint::Awards)),
            ..NOTHING
        },
    ),
    (
        "/contests/{contest}/submissions",
        Offer {
            get: Some(Reading::List(Endpoint::Submissions)),
            post: Some(Command::Submit),
            ..NOTHING
        },
    ),
    (
        "/contests/{contest}/submissions/{id}",
        Offer {
            get: Some(Reading::Object(Endpoint::Submissions)),
            ..NOTHING
        },
    ),
    (
        "/contests/{contest}/submissions/{id}/files",
        Offer {
            get: Some(Reading::File),
            ..NOTHING
        },
    ),
    (
        "/contests/{contest}/clarifications",
        Offer {
            get: Some(Reading::List(Endpoint::Clarifications)),
            post: Some(Command::Clarify),
            ..NOTHING
        },
    ),
    (
        "/contests/{contest}/clarifications/{id}",
        Offer {
            get: Some(Reading::Object(Endpoint::Clarifications)),
            ..NOTHING
        },
    ),
    (
        "/jury/proposals",
        Offer {
            get: Some(Reading::Jury(JuryReading::Proposals)),
            post: Some(Command::Propose),
            ..NOTHING
        },
    ),
    (
        "/jury/verifications",
        Offer {
            post: Some(Command::Verify),
            ..NOTHING
        },
    ),
    (
        "/jury/finalize",
        Offer {
            post: Some(Command::Finalize),
            ..NOTHING
        },
    ),
    (
        "/jury/accounts",
        Offer {
            post: Some(Command::Change(ChangeKind::Account)),
            ..NOTHING
        },
    ),
    (
        "/jury/teams",
        Offer {
            post: Some(Command::Change(ChangeKind::Team)),
            ..NOTHING
        },
    ),
    (
        "/jury/tokens",
        Offer {
            post: Some(Command::Change(ChangeKind::Token)),
            ..NOTHING
        },
    ),
    (
        "/jury/names",
        Offer {
            post: Some(Command::Change(ChangeKind::Name)),
            ..NOTHING
        },
    ),
    (
        "/jury/extension",
        Offer {
            post: Some(Command::Change(ChangeKind::Extension)),
            ..NOTHING
        },
    ),
    (
        "/jury/rejudgings",
        Offer {
            get: Some(Reading::Jury(JuryReading::Rejudgings)),
            post: Some(Command::OpenRejudging),
            ..NOTHING
        },
    ),
    (
        "/jury/rejudgings/{n}",
        Offer {
            get: Some(Reading::Jury(JuryReading::Rejudging)),
            ..NOTHING
        },
    ),
    (
        "/jury/rejudgings/{n}/verdicts",
        Offer {
            post: Some(Command::JudgeRejudging),
            ..NOTHING
        },
    ),
    (
        "/jury/rejudgings/{n}/apply",
        Offer {
            post: Some(Command::ApplyRejudging),
            ..NOTHING
        },
    ),
    (
        "/jury/rejudgings/{n}/cancel",
        Offer {
            post: Some(Command::CancelRejudging),
            ..NOTHING
        },
    ),
];

fn rows() -> &'static [(&'static str, Offer); 39]
    ensures { map (λ row. (row.0.now, row.1)) result.now ≡ route_rows }
{
    &ROUTES
}

/// The table of all routes.
///
/// # Errors
///
/// Want of memory alone.
pub fn routes(alloc: Global) -> Result<Router<Offer>, AllocError>
    ensures { IfOk result (λ table. table ≡ routes) }
{
    let rows = rows();
    let mut table = Router::new(alloc);
    for (text, offer) in rows {
        add(&mut table, text, *offer)?;
    }
    Ok(table)
}

// One more route, which conflicts with none that is there.
fn add(table: &mut Router<Offer>, text: &str, offer: Offer) -> Result<(), AllocError>
    requires { takes_route table.old text.now ≡ true }
    ensures { OnOk result (table.new ≡ with_route text.now offer table.old) }
{
    match table.insert(text, offer) {
        Ok(()) => Ok(()),
        Err(error) => Err(want_of_memory(error)),
    }
}

fn want_of_memory(error: InsertError) -> AllocError
    requires { error ≡ InsertError.OutOfMemory }
{
    match error {
        InsertError::OutOfMemory => AllocError,
        _ => unreachable!(),
    }
}

/// What is offered on a path in a table, if it has a route. It takes no memory.
#[tactic(auto, using(crate::proofs::RouteLemmas::offer_of_text, crate::proofs::RouteLemmas::no_route))]
pub fn offer_in(table: &Router<Offer>, path: &[u8]) -> Option<Offer>
    ensures { result ≡ offer_in table.now path.now }
{
    match std::str::from_utf8(path) {
        Ok(path) => offer_of_text(table, path),
        Err(_) => None,
    }
}

fn offer_of_text(table: &Router<Offer>, path: &str) -> Option<Offer>
    ensures { result ≡ option_map (λ found. found.value) (first table.now path.now) }
{
    match table.at(path) {
        Ok(found) => Some(*found.value),
        Err(_) => None,
    }
}
