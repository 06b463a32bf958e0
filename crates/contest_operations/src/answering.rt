//! What a wish is answered, and what it adds.
ghost use Rattle.std.specs.Prelude.{◌≡◌, true, IfOk};
ghost use Rattle.contest_types.specs.State.{ContestState};
ghost use Rattle.contest_types.specs.Valid.{is_valid};
ghost use Rattle.contest_lists.specs.Lists.{loaded};
ghost use Rattle.contest_score.specs.CachedCells.{cell_cached};
ghost use Rattle.contest_score.specs.Contest.{contest_cell};
ghost use Rattle.contest_operations.specs.Replies.{IsOrdinary};
ghost use Rattle.contest_operations.specs.Wishes.{IsSound, wish_outcome, file_for, file_needed};

use crate::command::{perform, post_file};
use crate::outcome::Outcome;
use crate::reading::{read, read_file};
use crate::wish::Wish;
use contest_lists::Lists;
use contest_score::CachedCells;
use contest_types::{Moment, Rows};
use contest_view::Seen;
use std::alloc::{AllocError, Global};

/// Whose file a wish needs: by the place of its team, from 0, and its number, from 1.
pub fn file_needed(wish: &Wish, lists: &Lists) -> Option<(usize, usize)>
    ensures { (x : ContestState) → is_valid x ≡ true → lists.now ≡ loaded x → result ≡ file_needed wish.now lists.now }
{
    match wish {
        Wish::Read(reading, audience, path) => {
            read_file(lists, *audience, *reading, path.as_slice())
        }
        Wish::Do(posted) => post_file(posted, lists),
    }
}

/// What a wish comes to over a contest's lists, its cells and the file that it needs: the same over
/// whichever valid contest they are of.
///
/// # Errors
///
/// Want of memory alone.
pub fn answer(
    alloc: Global,
    lists: &Lists,
    cells: &CachedCells,
    now: Moment,
    wish: Wish,
    file: Option<Rows<u8>>,
) -> Result<Outcome, AllocError>
    ensures outcome { (x : ContestState) → is_valid x ≡ true → lists.now ≡ loaded x → cell_cached cells.now ≡ (λ mask. contest_cell mask x) → IsSound x.fixed wish → file ≡ file_for wish x → IfOk result (λ o. o ≡ wish_outcome now wish x) }
    ensures ordinary { IfOk result (λ o. IsOrdinary o.reply) }
{
    match wish {
        Wish::Read(reading, audience, path) => {
            let seen = Seen {
                lists,
                cells,
                audience,
                now,
            };
            let reply = read(alloc, &seen, reading, path.as_slice(), file)?;
            Ok(Outcome::replying(alloc, reply))
        }
        Wish::Do(posted) => perform(alloc, lists, now, posted, file),
    }
}
