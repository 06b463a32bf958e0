//! Lists that are filled with rows which were read.
ghost use Rattle.std.specs.Prelude.{◌≡◌, OnOk, OnErr};

use crate::Lists;
use crate::indexed_rows::IndexedRows;
use crate::indexed_submissions::IndexedSubmissions;
use contest_types::{Clarification, Proposal, Rejudging, Release, Rows, Submission};
use std::alloc::{AllocError, Global};

impl Lists {
    /// Puts submissions, each without its file, in place of those that stand.
    ///
    /// # Errors
    ///
    /// Want of memory alone. The lists are then as before.
    pub fn put_submissions(
        &mut self,
        alloc: Global,
        rows: Rows<Submission>,
    ) -> Result<(), AllocError>
        ensures ok { OnOk result (self.new ≡ record self.old { submissions = rows }) }
        ensures err { OnErr result (self.new ≡ self.old) }
    {
        self.submissions = IndexedSubmissions::from_rows(alloc, rows)?;
        Ok(())
    }

    /// Puts proposals in place of those that stand.
    ///
    /// # Errors
    ///
    /// Want of memory alone. The lists are then as before.
    pub fn put_proposals(&mut self, alloc: Global, rows: Rows<Proposal>) -> Result<(), AllocError>
        ensures ok { OnOk result (self.new ≡ record self.old { proposals = rows }) }
        ensures err { OnErr result (self.new ≡ self.old) }
    {
        self.proposals = IndexedRows::from_rows(alloc, rows)?;
        Ok(())
    }

    /// Puts releases in place of those that stand.
    ///
    /// # Errors
    ///
    /// Want of memory alone. The lists are then as before.
    pub fn put_releases(&mut self, alloc: Global, rows: Rows<Release>) -> Result<(), AllocError>
        ensures ok { OnOk result (self.new ≡ record self.old { releases = rows }) }
        ensures err { OnErr result (self.new ≡ self.old) }
    {
        self.releases = IndexedRows::from_rows(alloc, rows)?;
        Ok(())
    }

    /// Puts clarifications in place of those that stand.
    pub fn put_clarifications(&mut self, rows: Rows<Clarification>)
        ensures { self.new ≡ record self.old { clarifications = rows } }
    {
        self.clarifications = rows.into_vec();
    }

    /// Puts rejudgings in place of those that stand.
    pub fn put_rejudgings(&mut self, rows: Rows<Rejudging>)
        ensures { self.new ≡ record self.old { rejudgings = rows } }
    {
        self.rejudgings = rows.into_vec();
    }
}
