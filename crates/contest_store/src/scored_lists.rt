//! The lists of a contest with the cells that they come to, which each change keeps right.
ghost use Rattle.std.specs.Prelude.{◌≡◌, List, [], IfOk, OnOk, true};
ghost use Rattle.contest_types.specs.Addable.{is_addable};
ghost use Rattle.contest_types.specs.State.{ContestState, add};
ghost use Rattle.contest_types.specs.Valid.{is_valid};
ghost use Rattle.contest_types.specs.declared.submission.Submission.{Submission as TheSubmission};
ghost use Rattle.contest_lists.specs.Lists.{filed, loaded, unfiled, with_submissions};
ghost use Rattle.contest_score.specs.CachedCells.{AreCellsOf, cell_cached};
ghost use Rattle.contest_score.specs.Contest.{contest_cell};

use crate::scoring::{cells_of, score};
use contest_lists::Lists;
use contest_score::CachedCells;
use contest_types::{Entry, Fixed};
use std::alloc::{AllocError, Global};
use std::marker::Model;
use std::rc::Rc;

/// The lists of a contest, and its cells. Contracts see the lists.
#[derive(Drop)]
pub struct ScoredLists {
    lists: Lists,
    cells: CachedCells,
}

impl Model for ScoredLists {
    ghost use Rattle.contest_types.specs.State.{ContestState};
    ghost use Rattle.contest_score.specs.CachedCells.{AreCellsOf};

    ghost Value = { ContestState };

    ghost view = { λ s. s.lists };

    ghost invariant = { λ s. AreCellsOf s.lists s.cells };
}

impl ScoredLists {
    /// A contest with no rows.
    pub fn empty(alloc: Global, fixed: Rc<Fixed>) -> ScoredLists
        ensures { result ≡ with_submissions fixed.value [] }
    {
        ScoredLists {
            lists: Lists::new(alloc, fixed),
            cells: CachedCells::new(alloc),
        }
    }

    /// The lists, and the cells that they come to, in one pass over the submissions.
    ///
    /// # Errors
    ///
    /// Want of memory alone.
    pub fn new(alloc: Global, lists: Lists) -> Result<ScoredLists, AllocError>
        ensures { IfOk result (λ scored. scored ≡ lists) }
    {
        match cells_of(alloc, &lists) {
            Ok(cells) => Ok(ScoredLists { lists, cells }),
            Err(error) => {
                drop(lists);
                Err(error)
            }
        }
    }

    /// The lists.
    pub fn lists(&self) -> &Lists
        ensures { result.now ≡ self.now }
    {
        &self.lists
    }

    /// The cells, which are those of each valid contest with these lists.
    pub fn cells(&self) -> &CachedCells
        ensures { (x : ContestState) → is_valid x ≡ true → self.now ≡ loaded x → cell_cached result.now ≡ (λ mask. contest_cell mask x) }
    {
        &self.cells
    }

    /// A copy of the lists with their cells.
    ///
    /// # Errors
    ///
    /// Want of memory alone.
    pub fn copied(&self, alloc: Global) -> Result<ScoredLists, AllocError>
        ensures { IfOk result (λ copy. copy ≡ self.now) }
    {
        ScoredLists::new(alloc, self.lists.copied(alloc)?)
    }

    /// Makes one change, if it may be made; of a submission the file is left out.
    ///
    /// # Errors
    ///
    /// Want of memory alone.
    pub fn add(self, alloc: Global, entry: &Entry) -> Result<ScoredLists, AllocError>
        ensures { IfOk result (λ changed. (submissions : List TheSubmission) → is_addable (filed submissions self) entry.now ≡ true → changed ≡ add self (unfiled entry.now)) }
    {
        let ScoredLists { lists, cells } = self;
        let mut lists = lists;
        let mut cells = cells;
        match change(alloc, &mut lists, &mut cells, entry) {
            Ok(()) => Ok(ScoredLists { lists, cells }),
            Err(error) => {
                drop(lists);
                drop(cells);
                Err(error)
            }
        }
    }
}

// Makes one change of the lists, and then of the cells that it bears on.
fn change(
    alloc: Global,
    lists: &mut Lists,
    cells: &mut CachedCells,
    entry: &Entry,
) -> Result<(), AllocError>
    ensures lists { OnOk result ((submissions : List TheSubmission) → is_addable (filed submissions lists.old) entry.now ≡ true → lists.new ≡ add lists.old (unfiled entry.now)) }
    ensures cells { OnOk result (AreCellsOf lists.old cells.old → AreCellsOf lists.new cells.new) }
{
    lists.add(alloc, entry)?;
    score(alloc, lists, cells, entry)
}
