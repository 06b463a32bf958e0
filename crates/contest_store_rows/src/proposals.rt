//! Proposals as rows, and the proposal that a row is.
ghost use Rattle.std.specs.Prelude.{◌≡◌, ◌<◌, ◌+◌, ◌^◌, IfOk, IfSome};
ghost use Rattle.contest_types.specs.declared.objects.JudgementType.{JudgementType as TheType};
ghost use Rattle.contest_store_rows.specs.Cells.{lent, number_of, text_of};
ghost use Rattle.contest_store_rows.specs.ListRows.{proposal_row, proposer_id};
ghost use Rattle.contest_store_rows.specs.Readings.{if_its_row, place_in};
ghost use Rattle.contest_store_rows.specs.Proposals.{proposal_in, proposal_said, proposer_of};

use crate::cells::{is_row, number, number_at, text_at};
use crate::lists::Listed;
use contest_types::{Id, Moment, Proposal, Proposer, Settings};
use sqlite::Row;
use sqlite::types::ValueRef;
use std::alloc::{AllocError, Global};

// What stands for a file of verdicts. No account has this id.
const IMPORT: &str = "import";

/// The cells of the row with a number, from 1, that keeps a proposal.
pub fn proposal_cells<'a>(
    settings: &'a Settings,
    row: u64,
    proposal: &'a Proposal,
) -> [ValueRef<'a>; 6]
    requires row { row < 2 ^ 63 }
    requires team { proposal.now.team + 1 < 2 ^ 63 }
    requires number { proposal.now.number < 2 ^ 63 }
    ensures { lent result ≡ proposal_row settings.now row proposal.now }
{
    [
        number(row),
        number(proposal.team as u64 + 1),
        number(proposal.number as u64),
        ValueRef::Text(settings.judgement_type_id(proposal.verdict).as_bytes()),
        ValueRef::Text(proposer_id(&proposal.proposer)),
        number(proposal.time.milliseconds()),
    ]
}

fn proposer_id(proposer: &Proposer) -> &[u8]
    ensures { result.now ≡ proposer_id proposer.now }
{
    match proposer {
        Proposer::Account(id) => id.as_bytes(),
        Proposer::Import => IMPORT.as_bytes(),
    }
}

fn proposer_of(alloc: Global, text: &[u8]) -> Result<Option<Proposer>, AllocError>
    ensures { IfOk result (λ found. found ≡ proposer_of text.now) }
{
    if text == IMPORT.as_bytes() {
        return Ok(Some(Proposer::Import));
    }
    match Id::from_bytes(alloc, text) {
        Ok(Some(id)) => Ok(Some(Proposer::Account(id))),
        Ok(None) => Ok(None),
        Err(_) => Err(AllocError),
    }
}

// What the cells say, if the proposer and the time are some.
fn proposal_said(
    alloc: Global,
    settings: &Settings,
    row: &Row,
) -> Result<Option<Proposal>, AllocError>
    ensures said { IfOk result (λ found. found ≡ proposal_said settings.now row.now) }
    ensures fits { IfOk result (λ found. IfSome found (λ p. (p.team + 1 < 2 ^ 63) × (p.number < 2 ^ 63))) }
{
    let Some(time) = Moment::from_milliseconds(number_at(row, 5)) else {
        return Ok(None);
    };
    let Some(proposer) = proposer_of(alloc, text_at(row, 4))? else {
        return Ok(None);
    };
    Ok(Some(Proposal {
        team: (number_at(row, 1) as usize).saturating_sub(1),
        number: number_at(row, 2) as usize,
        verdict: settings.judgement_type_place(text_at(row, 3)).unwrap_or(0),
        proposer,
        time,
    }))
}

impl Listed for Proposal {
    ghost row_in = { proposal_in };

    fn read(
        alloc: Global,
        settings: &Settings,
        number: u64,
        row: &Row,
    ) -> Result<Option<Proposal>, AllocError> {
        let Some(proposal) = proposal_said(alloc, settings, row)? else {
            return Ok(None);
        };
        let its = is_row(row, &proposal_cells(settings, number, &proposal));
        Ok(its.then_some(proposal))
    }
}
