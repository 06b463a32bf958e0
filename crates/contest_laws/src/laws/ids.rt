//! What is served by an id.
ghost use Rattle.contest_laws.specs.Ids.{ClarificationsStay, JudgementIdsStay, RevisedJudgementsGo, ServedJudgementsStay, SubmissionIdsStay};

/// By the id of a submission that stands an audience is answered the same at any moment of any run
/// after it: the same object, byte for byte, or that there is none.
pub fn submission_ids_stay()
    ensures { SubmissionIdsStay }
{}

/// What an audience was served of clarifications it is served for good, word for word: their ids
/// name the same.
pub fn clarifications_stay()
    ensures { ClarificationsStay }
{}

/// The id of a judgement names one judgement for good: whoever is served one by it, at any moment of
/// any run, is served the same object, byte for byte.
pub fn judgement_ids_stay()
    ensures { JudgementIdsStay }
{}

/// A verdict that an audience was served it is served for good, until another one is released on
/// the submission. One that the thaw alone showed is served at no moment before the thaw.
pub fn served_judgements_stay()
    ensures { ServedJudgementsStay }
{}

/// A verdict that a later one revised is served to nobody any more.
pub fn revised_judgements_go()
    ensures { RevisedJudgementsGo }
{}
