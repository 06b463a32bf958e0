//! What is asked of a store, and what is told of one.
ghost use Rattle.std.specs.Prelude.{◌≡◌, IsTrue, OnOk};
ghost use Rattle.contest_store.specs.Keeping.{Shows};
ghost use Rattle.contest_types.specs.State.{add};
ghost use Rattle.contest_types.specs.declared.entry.Entry.TheVariants.{SetThaw};
ghost use Rattle.probe.specs.Counted.{counts_of};

use contest_lists::Lists;
use contest_store::ContestStore;
use contest_types::{Entry, Moment, Refusal};
use std::alloc::Global;

/// Sets the thaw, and commits it.
///
/// # Errors
///
/// An error of the store.
pub(crate) fn thaw<S: ContestStore>(
    alloc: Global,
    store: &mut S,
    moment: Moment,
) -> Result<(), Refusal>
    requires { IsTrue (S.kept store.old).is_loaded }
    ensures { (S.kept store.new).is_clean → OnOk result (Shows (S.kept store.new) (add (S.kept store.old).contest (SetThaw moment)) (add (S.kept store.old).contest (SetThaw moment))) }
{
    match store.append(alloc, Entry::SetThaw(moment)) {
        Ok(()) => match store.commit() {
            Ok(()) => Ok(()),
            Err(error) => Err(error.refusal()),
        },
        Err(error) => Err(error.refusal()),
    }
}

/// How many types, languages, groups, problems, teams, accounts, submissions, proposals, releases,
/// rejudgings and clarifications there are.
pub(crate) fn counts_of(lists: &Lists) -> [usize; 11]
    ensures { result ≡ counts_of lists.now }
{
    let fixed = lists.fixed();
    let settings = &fixed.settings;
    [
        settings.judgement_types().len(),
        settings.languages().len(),
        settings.groups().len(),
        settings.problems().len(),
        settings.teams().len(),
        fixed.accounts.as_slice().len(),
        lists.submissions().len(),
        lists.proposals().len(),
        lists.releases().len(),
        lists.rejudgings().len(),
        lists.clarifications().len(),
    ]
}
