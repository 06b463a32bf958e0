//! Laws of the desk: functions that do nothing, and whose contracts say what holds of every contest
//! and every run. All of them stand here, by subject in the modules below.
ghost use Rattle.contest_desk.specs.Laws.{ImportedAgainAddsNothing, ImportsKeepValid};
ghost use Rattle.contest_desk.specs.Laws.{ImportsNeverFail};

mod accounts;
mod rejudgings;
mod repeats;
mod two_runs;
mod unseen;
mod verdicts;

pub use self::accounts::{accounts_stay, only_tokens_are_replaced};
pub use self::rejudgings::{applied_is_unseen, applied_whole, unapplied_is_unseen};
pub use self::repeats::{posts_repeat_once, repeats_once, runs_grow};
pub use self::two_runs::{moves_stay_alike, runs_alike};
pub use self::unseen::{
    read_step, refused_import, refused_step, unseen_entries, unseen_entry, unseen_import,
    unseen_step,
};
pub use self::verdicts::{imported_verdicts_are_unseen, pending_verdicts_are_unseen};
pub use contest_operations::laws::{
    head_is_get, posts_alike, reads_alike, step_alike, steps_keep_valid, steps_never_fail,
};

/// An import leaves a valid contest valid.
pub fn imports_keep_valid()
    ensures { ImportsKeepValid }
{}

/// No import answers that the store failed or that memory was refused.
pub fn imports_never_fail()
    ensures { ImportsNeverFail }
{}

/// A file that was imported adds nothing to the contest then, whenever it is imported again.
pub fn imported_again_adds_nothing()
    ensures { ImportedAgainAddsNothing }
{}
