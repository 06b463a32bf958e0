//! The submissions of a contest, and where those of each team stand among them.
ghost use Rattle.std.specs.Prelude.{◌≡◌, ◌<◌, ◌++◌, ◌∷◌, ℕ, [], All, IfOk, OnOk, OnErr};
ghost use Rattle.std.specs.Prelude.{if◌then◌else◌, ◌==◌, length};
ghost use Rattle.contest_lists.specs.Lists.{places_of};
ghost use Rattle.contest_lists.specs.TeamRows.{IsByTeam, places_in};

use crate::copies::copies;
use contest_types::{Rows, Submission};
use std::alloc::{AllocError, Global};
use std::collections::HashMap;
use std::marker::Model;

/// The places of each team's submissions, by the place of the team.
type PlacesByTeam = HashMap<usize, Vec<usize>>;

/// Submissions in the order in which they were accepted. Those of one team are found without a look
/// at the others. Contracts see the list of them.
#[derive(Drop)]
pub(crate) struct IndexedSubmissions {
    rows: Vec<Submission>,
    places: PlacesByTeam,
}

impl Model for IndexedSubmissions {
    ghost use Rattle.std.specs.Prelude.{List};
    ghost use Rattle.contest_types.specs.declared.submission.Submission.{Submission as TheSubmission};
    ghost use Rattle.contest_lists.specs.TeamRows.{IsByTeam};

    ghost Value = { List TheSubmission };

    ghost view = { λ s. s.rows.items };

    ghost invariant = { λ s. IsByTeam s.places s.rows.items };
}

impl IndexedSubmissions {
    /// No submissions.
    pub(crate) fn new(alloc: Global) -> IndexedSubmissions
        ensures { result ≡ [] }
    {
        IndexedSubmissions {
            rows: Vec::new(alloc),
            places: HashMap::new(alloc),
        }
    }

    /// These submissions.
    ///
    /// # Errors
    ///
    /// Want of memory alone.
    pub(crate) fn from_rows(
        alloc: Global,
        rows: Rows<Submission>,
    ) -> Result<IndexedSubmissions, AllocError>
        ensures { IfOk result (λ submissions. submissions ≡ rows) }
    {
        let rows = rows.into_vec();
        let places = places_by_team(alloc, &rows)?;
        Ok(IndexedSubmissions { rows, places })
    }

    /// All of them.
    pub(crate) fn as_slice(&self) -> &[Submission]
        ensures { result.now ≡ self.now }
    {
        self.rows.as_slice()
    }

    /// Where those of the team at a place, from 0, stand.
    pub(crate) fn places_of(&self, team: usize) -> &[usize]
        ensures places { result.now ≡ places_of team self.now }
        ensures within { All (λ place. place < length self.now) result.now }
    {
        match self.places.get(&team) {
            Some(places) => places.as_slice(),
            None => &[],
        }
    }

    /// Adds a submission at the end. Where memory is refused nothing is changed.
    ///
    /// # Errors
    ///
    /// Want of memory alone.
    pub(crate) fn push(&mut self, row: Submission) -> Result<(), AllocError>
        ensures ok { OnOk result (self.new ≡ self.old ++ row ∷ []) }
        ensures err { OnErr result (self.new ≡ self.old) }
    {
        self.rows.reserve(1)?;
        note(&mut self.places, row.team, self.rows.len())?;
        match self.rows.push(row) {
            Ok(()) => Ok(()),
            Err(_) => unreachable!(),
        }
    }

    /// A copy of the submissions.
    ///
    /// # Errors
    ///
    /// Want of memory alone.
    pub(crate) fn copied(&self, alloc: Global) -> Result<IndexedSubmissions, AllocError>
        ensures { IfOk result (λ copy. copy ≡ self.now) }
    {
        IndexedSubmissions::from_rows(alloc, Rows::from_vec(copies(alloc, &self.rows)?))
    }
}

// The places of each team's rows, in one pass over all rows.
fn places_by_team(alloc: Global, rows: &[Submission]) -> Result<PlacesByTeam, AllocError>
    ensures { IfOk result (λ places. IsByTeam places rows.now) }
{
    let mut places = HashMap::new(alloc);
    for (place, row) in rows.iter().enumerate() {
        note(&mut places, row.team, place)?;
    }
    Ok(places)
}

// Notes one more place of a team. Where memory is refused the same places are noted as before.
fn note(places: &mut PlacesByTeam, team: usize, place: usize) -> Result<(), AllocError>
    ensures ok { OnOk result ((t : ℕ) → places_in places.new t ≡ places_in places.old t ++ (if team == t then place ∷ [] else [])) }
    ensures err { OnErr result ((t : ℕ) → places_in places.new t ≡ places_in places.old t) }
{
    places.entry(team)?.or_default().push(place)?;
    Ok(())
}
