//! Laws of imports: functions that do nothing, and whose contracts say what holds of every file.
ghost use Rattle.std.specs.Prelude.{◌≡◌, true, Ok, ℕ, List, []};
ghost use Rattle.contest_types.specs.Addable.{are_addable};
ghost use Rattle.contest_types.specs.State.{ContestState, add_all};
ghost use Rattle.contest_types.specs.declared.entry.Entry.{Entry as TheEntry};
ghost use Rattle.contest_import.specs.Files.{rows_in};

use contest_types::FixedKind;

/// The rows that a file adds may be added to a contest, one after the other.
pub fn rows_are_addable(kind: FixedKind)
    ensures { (x : ContestState) (bytes : List ℕ) (rows : List TheEntry) → rows_in kind x.fixed bytes ≡ Ok rows → are_addable x rows ≡ true }
{
    let _ = kind;
}

/// A file that was read adds nothing to the contest that has what it added, when it is read again.
pub fn read_again_adds_nothing(kind: FixedKind)
    ensures { (x : ContestState) (bytes : List ℕ) (rows : List TheEntry) → rows_in kind x.fixed bytes ≡ Ok rows → rows_in kind (add_all x rows).fixed bytes ≡ Ok [] }
{
    let _ = kind;
}
