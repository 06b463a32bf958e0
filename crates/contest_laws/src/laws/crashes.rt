//! What a day with crashes keeps.
ghost use Rattle.contest_laws.specs.Crashes.{NothingIsLost};

/// Nothing is lost. A desk runs, is stopped or crashes at any moment, is opened again, and so on: each submission,
/// proposal, release, clarification and rejudging, each rejudging that was applied or cancelled, each row of a file and the mark of
/// final results, once it was answered as done, is in the lists that the last opening reads.
pub fn nothing_is_lost()
    ensures { NothingIsLost }
{}
