//! Laws of what goes unnoticed: functions that do nothing, and whose contracts say what holds of
//! every contest.
ghost use Rattle.contest_desk.specs.UnseenLaws.{UnseenEntry, UnseenEntries, RefusedStep, ReadStep};
ghost use Rattle.contest_desk.specs.UnseenLaws.{UnseenStep, RefusedImport, UnseenImport};

/// A change that an audience can't notice before the thaw leaves the contest alike for it: a
/// verdict on another team's frozen submission, a hidden team's submission or a verdict on one, a
/// clarification of another team with the jury, a proposed verdict, each step of a rejudging until
/// its verdicts are released.
pub fn unseen_entry()
    ensures { UnseenEntry }
{}

/// Any number of changes that an audience can't notice before the thaw, one after another, leave
/// the contest alike for it.
pub fn unseen_entries()
    ensures { UnseenEntries }
{}

/// A request that is refused leaves the contest exactly as it was.
pub fn refused_step()
    ensures { RefusedStep }
{}

/// A request that reads leaves the contest exactly as it was.
pub fn read_step()
    ensures { ReadStep }
{}

/// Whoever asks, and for whatever: where a request is refused, or reads, or adds only what an
/// audience can't notice, the contest after it is alike for that audience to the contest before it.
pub fn unseen_step()
    ensures { UnseenStep }
{}

/// A file that is refused leaves the contest exactly as it was.
pub fn refused_import()
    ensures { RefusedImport }
{}

/// A file that adds nothing, or only what an audience can't notice, leaves the contest alike for
/// that audience.
pub fn unseen_import()
    ensures { UnseenImport }
{}
