//! What a request asks for.
ghost use Rattle.std.specs.Prelude.{◌≡◌};
ghost use Rattle.contest_operations.specs.Routes.{routes};
ghost use Rattle.contest_operations.specs.Step.{asked, is_here, offered};

use crate::Reply;
use crate::offer::Offer;
use crate::operation::Operation;
use crate::path::{contest_piece, is_of_contest};
use crate::route_table::offer_in;
use contest_requests::Method;
use contest_types::Refusal;
use matchit::Router;

/// What a request asks for, or the reply that it can't be asked for: `NotFound` where its path has
/// no route, names another contest or isn't served yet, and `Method` where its route doesn't offer
/// its method. It takes no memory.
pub fn asked(
    table: &Router<Offer>,
    contest: &[u8],
    path: &[u8],
    method: Method,
) -> Result<Operation, Reply>
    ensures { table.now ≡ routes → result ≡ asked contest.now path.now method }
{
    match offer_in(table, path) {
        Some(offer) if is_here(contest, path) => offered(offer, method),
        _ => Err(Reply::refused(Refusal::NotFound)),
    }
}

// Whether a path of a contest names this one.
fn is_here(contest: &[u8], path: &[u8]) -> bool
    ensures { result ≡ is_here contest.now path.now }
{
    !is_of_contest(path) || contest_piece(path) == contest
}

fn offered(offer: Offer, method: Method) -> Result<Operation, Reply>
    ensures { result ≡ offered method offer }
{
    if !offer.is_served() {
        return Err(Reply::refused(Refusal::NotFound));
    }
    match offer.operation(method) {
        Some(operation) => Ok(operation),
        None => Err(Reply::refused_method(offer.methods())),
    }
}
