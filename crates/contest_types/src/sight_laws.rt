//! Laws of who sees what of a contest, as a contest director asks for them: functions that do
//! nothing, and whose contracts say what holds of every contest.
ghost use Rattle.contest_types.specs.SightLaws.{RolesSeeNoLess, RolesHearNoLess, RolesKeepVerdicts};
ghost use Rattle.contest_types.specs.SightLaws.{ThawOnlyAdds, ThawingOnlyAdds};
ghost use Rattle.contest_types.specs.SightLaws.{MomentChangesVerdictsOnly, ThawedSeeAsJury};
ghost use Rattle.contest_types.specs.SightLaws.{JurySeesLast, SeenVerdictIsOneOfTwo};
ghost use Rattle.contest_types.specs.SightLaws.{JudgingShowsNothing, OnlyTheseShowSubmissions};
ghost use Rattle.contest_types.specs.SightLaws.{OnlyTheseShowClarifications, TeamAndJuryKnowAll};
ghost use Rattle.contest_types.specs.SightLaws.{ProgramIsForItsTeam, ListedProgramIsForItsTeam};
ghost use Rattle.contest_types.specs.SightLaws.{AskedIsHeardByItsTeam, GroupIsHeardByItsTeams};
ghost use Rattle.contest_types.specs.SightLaws.{PublicHearsNoGroup, SubmissionsStandByTime};
ghost use Rattle.contest_types.specs.SightLaws.{SeenJudgementsAreListed, ExtensionShowsNothing};
ghost use Rattle.contest_types.specs.SightLaws.{AlikeShowTheSameJudgements};

/// Nobody loses sight of a submission, of a verdict or of a clarification by a role: what the
/// public sees and hears every team does, and what a team does the jury does.
pub fn roles_see_no_less()
    ensures submissions { RolesSeeNoLess }
    ensures clarifications { RolesHearNoLess }
    ensures verdicts { RolesKeepVerdicts }
{}

/// A thaw only adds: a verdict that was seen at any moment is seen once it is thawed, and so it is
/// from the moment on that a thaw is set to.
pub fn thaw_only_adds()
    ensures thawed { ThawOnlyAdds }
    ensures set { ThawingOnlyAdds }
{}

/// But for the verdicts, what an audience sees of submissions is the same at any moment.
pub fn moment_changes_verdicts_only()
    ensures { MomentChangesVerdictsOnly }
{}

/// Once it is thawed, and where there is no freeze moment, whoever sees a submission sees what the
/// jury sees of its verdicts.
pub fn thawed_see_as_jury()
    ensures { ThawedSeeAsJury }
{}

/// At any moment, frozen or not, the jury sees of each submission what was released last.
pub fn jury_sees_last()
    ensures { JurySeesLast }
{}

/// The verdict that is seen on a submission is the last released, to those who know all of the team
/// and once it is thawed; else the last released unless it is frozen. Of a submission that isn't
/// seen there is none.
pub fn seen_verdict_is_one_of_two()
    ensures { SeenVerdictIsOneOfTwo }
{}

/// Judging shows nothing: what anyone sees of submissions and verdicts and hears of clarifications
/// stays as it was while proposals come and rejudgings open, are judged and end, until something is
/// released.
pub fn judging_shows_nothing()
    ensures { JudgingShowsNothing }
{}

/// Only a submission, a release, the start, the thaw, the duration and a new team may change what
/// anyone sees of submissions and verdicts.
pub fn only_these_show_submissions()
    ensures { OnlyTheseShowSubmissions }
{}

/// Only a clarification, a new group and a new team may change what anyone hears of clarifications.
pub fn only_these_show_clarifications()
    ensures { OnlyTheseShowClarifications }
{}

/// An extension shows nothing and hides nothing: where the duration may be set, what anyone sees of
/// submissions and verdicts and hears of clarifications is as it was, at any moment.
pub fn extension_shows_nothing()
    ensures { ExtensionShowsNothing }
{}

/// The jury and the team itself know all of a team, and nobody else does.
pub fn team_and_jury_know_all()
    ensures { TeamAndJuryKnowAll }
{}

/// A program is shown to those who know all of its team, at any moment, thawed or not; and of what
/// is listed for an audience, just the submissions of such teams have a program.
pub fn program_is_for_its_team()
    ensures shown { ProgramIsForItsTeam }
    ensures listed { ListedProgramIsForItsTeam }
{}

/// What a team asks, and what the jury answers it, those hear who know all of the team.
pub fn asked_is_heard_by_its_team()
    ensures { AskedIsHeardByItsTeam }
{}

/// What the jury tells a group is heard by each team that is in it and by the jury, and by nobody
/// else: the public hears what goes to no group.
pub fn group_is_heard_by_its_teams()
    ensures teams { GroupIsHeardByItsTeams }
    ensures public { PublicHearsNoGroup }
{}

/// In a valid contest a team's submissions stand by time, those of one time by number.
pub fn submissions_stand_by_time()
    ensures { SubmissionsStandByTime }
{}

/// The judgements that an audience sees are just those of the submissions that it sees.
pub fn seen_judgements_are_listed()
    ensures { SeenJudgementsAreListed }
{}

/// Until the thaw, contests that are alike for an audience show it the same judgements.
pub fn alike_show_the_same_judgements()
    ensures { AlikeShowTheSameJudgements }
{}
