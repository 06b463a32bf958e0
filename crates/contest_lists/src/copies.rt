//! Copies of a contest's rows.
ghost use Rattle.std.specs.Prelude.{◌≡◌, IfOk, map};
ghost use Rattle.contest_types.specs.Loads.{without_file};

use crate::outcomes::both;
use contest_types::{
    Account, Clarification, Fixed, Member, MemberState, Proposal, Proposer, Rejudging, Release,
    Rows, Submission,
};
use std::alloc::{AllocError, Global};

/// A row that can be copied.
pub trait CopyRow {
    /// A copy of the row.
    ///
    /// # Errors
    ///
    /// Want of memory alone.
    fn copied(&self, alloc: Global) -> Result<Self, AllocError>
        ensures { IfOk result (λ row. row ≡ self.now) };
}

/// Copies of the rows.
pub fn copies<T: CopyRow + Drop>(alloc: Global, rows: &[T]) -> Result<Vec<T>, AllocError>
    ensures { IfOk result (λ copies. copies.items ≡ rows.now) }
{
    let mut copies = Vec::new(alloc);
    for row in rows {
        copies.push(row.copied(alloc)?)?;
    }
    Ok(copies)
}

/// A copy of the bytes.
///
/// # Errors
///
/// Want of memory alone.
pub fn copied_bytes(alloc: Global, bytes: &[u8]) -> Result<Rows<u8>, AllocError>
    ensures { IfOk result (λ rows. rows ≡ bytes.now) }
{
    Ok(Rows::from_vec(Vec::from_slice(alloc, bytes)?))
}

/// A submission without its file.
pub fn without_file(alloc: Global, submission: &Submission) -> Result<Submission, AllocError>
    ensures { IfOk result (λ copy. copy ≡ without_file submission.now) }
{
    Ok(Submission {
        team: submission.team,
        number: submission.number,
        time: submission.time,
        problem: submission.problem,
        language: submission.language,
        entry_point: submission.entry_point.clone()?,
        file: Rows::new(alloc),
        key: submission.key.clone()?,
    })
}

/// A copy of the settings, the accounts and the marks.
///
/// # Errors
///
/// Want of memory alone.
pub fn copied_fixed(alloc: Global, fixed: &Fixed) -> Result<Fixed, AllocError>
    ensures { IfOk result (λ copy. copy ≡ fixed.now) }
{
    let settings = fixed.settings.copied(alloc);
    let accounts = copies(alloc, fixed.accounts.as_slice());
    let (settings, accounts) = both(settings, accounts)?;
    Ok(Fixed {
        settings,
        accounts: Rows::from_vec(accounts),
        marks: fixed.marks,
    })
}

impl CopyRow for Account {
    fn copied(&self, _alloc: Global) -> Result<Account, AllocError> {
        Ok(Account {
            id: self.id.clone()?,
            role: self.role,
            digest: self.digest,
        })
    }
}

impl CopyRow for Submission {
    fn copied(&self, alloc: Global) -> Result<Submission, AllocError> {
        let mut copy = without_file(alloc, self)?;
        copy.file = copied_bytes(alloc, self.file.as_slice())?;
        Ok(copy)
    }
}

impl CopyRow for Proposer {
    fn copied(&self, _alloc: Global) -> Result<Proposer, AllocError> {
        match self {
            Proposer::Account(id) => Ok(Proposer::Account(id.clone()?)),
            Proposer::Import => Ok(Proposer::Import),
        }
    }
}

impl CopyRow for Proposal {
    fn copied(&self, alloc: Global) -> Result<Proposal, AllocError> {
        Ok(Proposal {
            team: self.team,
            number: self.number,
            verdict: self.verdict,
            proposer: self.proposer.copied(alloc)?,
            time: self.time,
        })
    }
}

impl CopyRow for Release {
    fn copied(&self, _alloc: Global) -> Result<Release, AllocError> {
        Ok(*self)
    }
}

impl CopyRow for Clarification {
    fn copied(&self, _alloc: Global) -> Result<Clarification, AllocError> {
        Ok(Clarification {
            addressee: self.addressee,
            number: self.number,
            from_jury: self.from_jury,
            account: self.account.clone()?,
            problem: self.problem,
            reply: self.reply,
            text: self.text.clone()?,
            time: self.time,
            key: self.key.clone()?,
        })
    }
}

impl CopyRow for MemberState {
    fn copied(&self, _alloc: Global) -> Result<MemberState, AllocError> {
        match self {
            MemberState::Empty => Ok(MemberState::Empty),
            MemberState::Proposed { verdict, account } => Ok(MemberState::Proposed {
                verdict: *verdict,
                account: account.clone()?,
            }),
            MemberState::Ready(verdict) => Ok(MemberState::Ready(*verdict)),
        }
    }
}

impl CopyRow for Member {
    fn copied(&self, alloc: Global) -> Result<Member, AllocError> {
        Ok(Member {
            team: self.team,
            number: self.number,
            state: self.state.copied(alloc)?,
        })
    }
}

impl CopyRow for Rejudging {
    fn copied(&self, alloc: Global) -> Result<Rejudging, AllocError> {
        Ok(Rejudging {
            reason: self.reason.clone()?,
            state: self.state,
            members: Rows::from_vec(copies(alloc, self.members.as_slice())?),
        })
    }
}
