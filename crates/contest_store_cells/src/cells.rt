//! A cell of a contest as a row.
ghost use Rattle.std.specs.Prelude.{◌≡◌, ◌+◌, ◌<◌, ◌^◌};
ghost use Rattle.std.specs.Option.{option_map};
ghost use Rattle.sqlite.specs.Values.{or_null};
ghost use Rattle.sqlite_value.specs.Value.{owned};
ghost use Rattle.contest_store_rows.specs.Cells.{lent, number};
ghost use Rattle.contest_store_cells.specs.CellRows.{cell_row, mask_number};

use contest_score::Cell;
use contest_store_rows::number;
use contest_types::{Mask, Minute, Settings};
use sqlite::types::ValueRef;

/// The cells of the row of what a team's attempts at a problem come to under a mask. Team and
/// problem are places in the settings, from 0.
pub fn cell_cells(
    settings: &Settings,
    mask: Mask,
    team: usize,
    problem: usize,
    cell: Cell,
) -> [ValueRef<'_>; 7]
    requires { team + 1 < 2 ^ 63 }
    ensures { lent result ≡ cell_row settings.now mask team problem cell }
{
    [
        number(mask_number(mask)),
        number(team as u64 + 1),
        ValueRef::Text(settings.problem_id(problem).as_bytes()),
        number(cell.judged as u64),
        number(cell.pending as u64),
        minute_or_null(cell.solved),
        number(cell.penalties as u64),
    ]
}

/// The number that a mask is kept as.
pub(crate) fn mask_number(mask: Mask) -> u64
    ensures value { result ≡ mask_number mask }
    ensures bound { result < 2 }
{
    match mask {
        Mask::Held => 0,
        Mask::Full => 1,
    }
}

fn minute_or_null<'a>(minute: Option<Minute>) -> ValueRef<'a>
    ensures { owned result ≡ or_null number (option_map (λ m. m.0) minute) }
{
    match minute {
        Some(minute) => number(minute.0 as u64),
        None => ValueRef::Null,
    }
}
