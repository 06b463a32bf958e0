//! The verdicts of a file, judged one after the other.
ghost use Rattle.std.specs.Prelude.{◌≡◌, ◌++◌, ◌∷◌, [], List, true, Ok, OnOk, IfOk, IfErr};
ghost use Rattle.csv.specs.Records.{fields_of};
ghost use Rattle.contest_types.specs.Additions.{IsFaultOf};
ghost use Rattle.contest_types.specs.State.{ContestState};
ghost use Rattle.contest_types.specs.Valid.{is_valid};
ghost use Rattle.contest_types.specs.declared.proposal.Proposal.{Proposal as TheProposal};
ghost use Rattle.contest_lists.specs.Lists.{loaded};
ghost use Rattle.contest_import_verdicts.specs.ImportedVerdicts.{AreImported};
ghost use Rattle.contest_import_verdicts.specs.SoFar.{SoFar};
ghost use Rattle.contest_import_verdicts.specs.VerdictFiles.{after_record, imported_verdict};
ghost use Rattle.contest_import_verdicts.specs.VerdictFiles.{record_verdict};

use crate::imported::{ImportedVerdicts, addition, imported_verdicts, take_proposal};
use crate::record::wanted_in;
use contest_lists::Lists;
use contest_rules::{NamedVerdict, NewVerdict, release_at_once, verdict_on};
use contest_types::{Cause, Fixed, Moment, Proposal, Proposer, RowFault, Rows};
use contest_view::named_submission;
use csv::ByteRecord;
use std::alloc::{AllocError, Global};

/// What was read of a file so far.
#[derive(Drop)]
pub(crate) struct VerdictsSoFar {
    /// The verdicts that were imported, with those that the file adds.
    imported: ImportedVerdicts,
    /// The verdicts that it adds.
    pub(crate) verdicts: Rows<NewVerdict>,
}

impl VerdictsSoFar {
    /// Nothing was read yet.
    ///
    /// # Errors
    ///
    /// Want of memory alone.
    pub(crate) fn new(alloc: Global, lists: &Lists) -> Result<VerdictsSoFar, AllocError>
        ensures none { IfOk result (λ s. s.verdicts ≡ []) }
        ensures imported { IfOk result (λ s. AreImported s.imported lists.now.proposals) }
    {
        Ok(VerdictsSoFar {
            imported: imported_verdicts(alloc, lists.proposals())?,
            verdicts: Rows::new(alloc),
        })
    }

    /// The verdict of one more record; where an equal one was imported before it adds nothing.
    ///
    /// # Errors
    ///
    /// Why the record is at fault, or want of memory. Nothing more can be read then.
    pub(crate) fn take(
        &mut self,
        alloc: Global,
        lists: &Lists,
        now: Moment,
        row: &ByteRecord,
    ) -> Result<(), RowFault>
        ensures ok { OnOk result ((x : ContestState) → SoFar x lists.now self.old.imported self.old.verdicts
            → (after_record x now self.old.verdicts (fields_of row.now) ≡ Ok self.new.verdicts) × SoFar x lists.now self.new.imported self.new.verdicts) }
        ensures err { IfErr result (λ e. (x : ContestState) → SoFar x lists.now self.old.imported self.old.verdicts
            → IsFaultOf e (after_record x now self.old.verdicts (fields_of row.now))) }
    {
        let verdict = record_verdict(alloc, lists, now, row)?;
        match addition(&self.imported, lists, &verdict.proposal) {
            Ok(true) => Ok(self.add(verdict)?),
            Ok(false) => Ok(()),
            Err(cause) => Err(RowFault::Fault(cause)),
        }
    }

    // One more verdict is added.
    fn add(&mut self, verdict: NewVerdict) -> Result<(), AllocError>
        ensures added { OnOk result (self.new.verdicts ≡ self.old.verdicts ++ verdict ∷ []) }
        ensures imported { OnOk result ((ps : List TheProposal) → AreImported self.old.imported ps → AreImported self.new.imported (ps ++ verdict.proposal ∷ [])) }
    {
        take_proposal(&mut self.imported, &verdict.proposal)?;
        self.verdicts.push(verdict)?;
        Ok(())
    }
}

// The verdict of a record.
fn record_verdict(
    alloc: Global,
    lists: &Lists,
    now: Moment,
    row: &ByteRecord,
) -> Result<NewVerdict, RowFault>
    ensures ok { IfOk result (λ v. (x : ContestState) → is_valid x ≡ true → lists.now ≡ loaded x → record_verdict x now (fields_of row.now) ≡ Ok v) }
    ensures err { IfErr result (λ e. (x : ContestState) → is_valid x ≡ true → lists.now ≡ loaded x → IsFaultOf e (record_verdict x now (fields_of row.now))) }
{
    match wanted_in(alloc, row) {
        Ok(Some(wanted)) => {
            let submission = named_submission(lists, wanted.submission.as_bytes());
            match verdict_on(lists.fixed(), submission, &wanted) {
                Some(named) => Ok(imported_verdict(lists.fixed(), now, named)),
                None => Err(RowFault::Fault(Cause::UnknownReference)),
            }
        }
        Ok(None) => Err(RowFault::Fault(Cause::Malformed)),
        Err(_) => Err(RowFault::Memory),
    }
}

fn imported_verdict(fixed: &Fixed, now: Moment, named: NamedVerdict) -> NewVerdict
    ensures { result ≡ imported_verdict fixed.now now named }
{
    NewVerdict {
        proposal: Proposal {
            team: named.team,
            number: named.number,
            verdict: named.verdict,
            proposer: Proposer::Import,
            time: now,
        },
        release: release_at_once(fixed, now, named),
    }
}
