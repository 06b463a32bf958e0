//! Lists whose rows are found by their ids.
ghost use Rattle.std.specs.Prelude.{◌≡◌, ℕ, ◌<◌, List, [], ◌∷◌, ◌++◌, true, None, Some, IfErr};
ghost use Rattle.std.specs.Prelude.{OnOk, OnErr, IfOk, IfSome, IsSome, length, map, ◌≤◌, nat_le};
ghost use Rattle.std.specs.Prelude.{slice_get, slice_set};
ghost use Rattle.contest_types.specs.IdText.{IsId};
ghost use Rattle.contest_types.specs.Places.{place_of, are_different};
ghost use Rattle.contest_types.specs.Additions.{id_match_of, addition, addition_by, IsFaultOf};
ghost use Rattle.contest_types.specs.Additions.{grown};
ghost use Rattle.contest_types.specs.State.{changed_at};
ghost use Rattle.contest_types.specs.declared.objects.Team.{Team as TheTeam};

use crate::{Cause, Id, Name, RowFault, Team};
use std::alloc::{AllocError, Global};
use std::collections::HashMap;
use std::marker::Model;

/// A row with an id of its own.
pub trait Identified {
    /// The bytes of its id.
    ghost use Rattle.std.specs.Prelude.{List, ℕ};

    ghost id: { Self → List ℕ };

    /// The row's id.
    fn id(&self) -> &Id
        ensures { result.now ≡ id self.now };

    /// A copy of the row.
    ///
    /// # Errors
    ///
    /// Want of memory alone.
    fn copied(&self, alloc: Global) -> Result<Self, AllocError>
        ensures { IfOk result (λ row. row ≡ self.now) };
}

/// What a list has under a row's id.
#[derive(Clone, Copy, PartialEq, Eq)]
pub enum IdMatch {
    /// No row has the id.
    New,
    /// An equal row has it.
    Same,
    /// A row with other content has it.
    Other,
}

/// Rows in the order in which they were added, no two with one id. Contracts see the list of them.
#[derive(Drop)]
pub struct IdList<T: Identified> {
    rows: Vec<T>,
    places: HashMap<Vec<u8>, usize>,
}

impl<T: Identified> Model for IdList<T> {
    ghost use Rattle.std.specs.Prelude.{List};
    ghost use Rattle.contest_types.specs.Places.{IsIndexed};

    ghost Value = { List T };

    ghost view = { λ l. l.rows.items };

    ghost invariant = { λ l. IsIndexed T.id l.rows.items l.places };
}

impl<T: Identified + Drop> IdList<T> {
    /// No rows.
    pub fn new(alloc: Global) -> Self
        ensures { result ≡ [] }
    {
        IdList {
            rows: Vec::new(alloc),
            places: HashMap::new(alloc),
        }
    }

    /// The rows.
    pub fn as_slice(&self) -> &[T]
        ensures rows { result.now ≡ self.now }
        ensures different { are_different (map T.id self.now) ≡ true }
    {
        self.rows.as_slice()
    }

    /// The place of the row with this id, from 0.
    pub fn place(&self, id: &[u8]) -> Option<usize>
        ensures place { result ≡ place_of id.now (map T.id self.now) }
        ensures within { IfSome result (λ place. place < length self.now) }
        ensures spelled { IsSome result → IsId id.now }
    {
        self.places.get(id).copied()
    }

    /// Adds a row whose id is new. Where memory is refused the rows are as before.
    ///
    /// # Errors
    ///
    /// Want of memory alone.
    pub fn push(&mut self, alloc: Global, row: T) -> Result<(), AllocError>
        requires { place_of (T.id row) (map T.id self.old) ≡ None }
        ensures ok { OnOk result (self.new ≡ self.old ++ row ∷ []) }
        ensures err { OnErr result (self.new ≡ self.old) }
        ensures different { OnOk result (are_different (map T.id self.new) ≡ true) }
    {
        let key = Vec::from_slice(alloc, row.id().as_bytes())?;
        self.rows.reserve(1)?;
        self.places.insert(key, self.rows.len())?;
        match self.rows.push(row) {
            Ok(()) => Ok(()),
            Err(_) => unreachable!(),
        }
    }
}

impl<T: Identified + Drop> IdList<T> {
    /// A copy of the rows.
    ///
    /// # Errors
    ///
    /// Want of memory alone.
    pub fn copied(&self, alloc: Global) -> Result<Self, AllocError>
        ensures { IfOk result (λ copy. copy ≡ self.now) }
    {
        let mut copy = IdList::new(alloc);
        for row in self.as_slice() {
            copy.push(alloc, row.copied(alloc)?)?;
        }
        Ok(copy)
    }
}

impl<T: Identified + PartialEq + Drop> IdList<T> {
    /// What the list has under this row's id.
    pub fn id_match(&self, row: &T) -> IdMatch
        ensures { result ≡ id_match_of T.id T.eq self.now row.now }
    {
        match self.place(row.id().as_bytes()) {
            None => IdMatch::New,
            Some(place) => {
                if self.rows[place] == *row {
                    IdMatch::Same
                } else {
                    IdMatch::Other
                }
            }
        }
    }

    /// Adds a row whose id is new to a list of at most `most` rows.
    ///
    /// # Errors
    ///
    /// A full list, or want of memory. The rows are then as before.
    pub fn push_within(&mut self, alloc: Global, row: T, most: usize) -> Result<(), RowFault>
        requires { place_of (T.id row) (map T.id self.old) ≡ None }
        ensures ok { OnOk result (self.new ≡ self.old ++ row ∷ []) }
        ensures room { OnOk result (addition_by IdMatch.New (nat_le most (length self.old)) ≡ Ok true) }
        ensures unchanged { OnErr result (self.new ≡ self.old) }
        ensures err { IfErr result (λ e. IsFaultOf e (addition_by IdMatch.New (nat_le most (length self.old)))) }
        ensures different { OnOk result (are_different (map T.id self.new) ≡ true) }
    {
        if self.rows.len() >= most {
            return Err(RowFault::Fault(Cause::TableFull));
        }
        self.push(alloc, row)?;
        Ok(())
    }

    /// Adds a row to a list of at most `most` rows, and answers whether it did: where an equal row
    /// stands it adds nothing.
    ///
    /// # Errors
    ///
    /// Other content under the row's id (`KeyReused`), else a full list (`TableFull`), or want of
    /// memory. The rows are then as before.
    pub fn add(&mut self, alloc: Global, row: T, most: usize) -> Result<bool, RowFault>
        ensures ok { IfOk result (λ added. (addition T.id T.eq most self.old row ≡ Ok added) × (self.new ≡ grown added self.old row)) }
        ensures err { IfErr result (λ e. IsFaultOf e (addition T.id T.eq most self.old row)) }
        ensures unchanged { OnErr result (self.new ≡ self.old) }
        ensures within { length self.old ≤ most → length self.new ≤ most }
        ensures grows { length self.old ≤ length self.new }
        ensures different { are_different (map T.id self.old) ≡ true → are_different (map T.id self.new) ≡ true }
    {
        match self.id_match(&row) {
            IdMatch::Same => Ok(false),
            IdMatch::Other => Err(RowFault::Fault(Cause::KeyReused)),
            IdMatch::New => {
                self.push_within(alloc, row, most)?;
                Ok(true)
            }
        }
    }
}

/// Sets the name of the team at a place, from 0. Where no team is, nothing changes.
pub(crate) fn set_team_name(teams: &mut IdList<Team>, place: usize, name: Name)
    ensures { teams.new ≡ changed_at 0 place (λ (t : TheTeam). record t { name = name }) teams.old }
{
    if place < teams.rows.len() {
        put_name(&mut teams.rows, place, name);
    }
}

fn put_name(rows: &mut Vec<Team>, place: usize, name: Name)
    requires { place < length rows.old.items }
    ensures { (t : TheTeam) → slice_get rows.old.items place ≡ Some t → rows.new.items ≡ slice_set rows.old.items place (record t { name = name }) }
{
    rows[place].name = name;
}
