//! Laws of the model: functions that do nothing, and whose contracts say what holds of every
//! contest.
ghost use Rattle.contest_types.specs.Laws.{IsAlikeToItself, IsAlikeBothWays, IsAlikeOnward};
ghost use Rattle.contest_types.specs.Laws.{AlikeShowTheSame, AlikeTellTheSame, SeenIsListed};
ghost use Rattle.contest_types.specs.Laws.{SeenIsInOrder, OneListIsSeen, HeardIsListed};
ghost use Rattle.contest_types.specs.Laws.{OneListIsHeard, OneOrder, SettingsAreTested};
ghost use Rattle.contest_types.specs.Laws.{AddingKeepsValid, ImportedIsAddable};
ghost use Rattle.contest_types.specs.Sight.{SeenSubmission, SeenClarification};

/// A contest is alike to itself; it doesn't matter which of two alike contests is named first; and
/// what is alike to a contest that is alike to a third is alike to the third.
pub fn alike_is_an_equivalence()
    ensures itself { IsAlikeToItself }
    ensures both_ways { IsAlikeBothWays }
    ensures onward { IsAlikeOnward }
{}

/// Until the thaw, contests that are alike for an audience show it the same submissions, with the
/// same verdicts.
pub fn seen_alike()
    ensures { AlikeShowTheSame }
{}

/// Until the thaw, contests that are alike for an audience let it hear the same clarifications.
pub fn heard_alike()
    ensures { AlikeTellTheSame }
{}

/// In a valid contest all that an audience may see of submissions is listed for it, and nothing
/// else.
pub fn seen_is_listed()
    ensures { SeenIsListed }
{}

/// What is listed for an audience stands in strict order.
pub fn seen_is_in_order()
    ensures { SeenIsInOrder }
{}

/// In a valid contest whoever lists in strict order just what an audience may see of submissions
/// has the same list.
pub fn one_list_is_seen()
    ensures { OneListIsSeen }
{}

/// In a valid contest all clarifications that an audience may hear are listed for it, and nothing
/// else.
pub fn heard_is_listed()
    ensures { HeardIsListed }
{}

/// In a valid contest whoever lists in strict order just the clarifications that an audience may
/// hear has the same list.
pub fn one_list_is_heard()
    ensures { OneListIsHeard }
{}

/// Two lists of submissions in strict order with the same elements are one list, and so are two
/// lists of clarifications.
pub fn one_order()
    ensures submissions { OneOrder SeenSubmission }
    ensures clarifications { OneOrder SeenClarification }
{}

/// The test of a valid contest's settings is what the type `Settings` always meets.
pub fn settings_are_tested()
    ensures { SettingsAreTested }
{}

/// What may be added keeps a valid contest valid, one change after another.
pub fn adding_keeps_valid()
    ensures { AddingKeepsValid }
{}

/// An imported verdict that is added may be added.
pub fn imported_is_addable()
    ensures { ImportedIsAddable }
{}
