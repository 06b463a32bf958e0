//! The objects of an event feed, in its order.
ghost use Rattle.std.specs.Prelude.{◌≡◌, ◌++◌, IfOk, OnOk, codes, map};
ghost use Rattle.contest_types.specs.State.{ContestState};
ghost use Rattle.contest_score.specs.Awards.{shown_awards};
ghost use Rattle.contest_objects.specs.CollectionObjects.{event_of};
ghost use Rattle.contest_view.specs.Clarifications.{clarification_items};
ghost use Rattle.contest_view.specs.Feeding.{AreShown};
ghost use Rattle.contest_view.specs.Feeds.{events, seen_events, settings_events};
ghost use Rattle.contest_view.specs.Judgements.{judgement_items};
ghost use Rattle.contest_view.specs.Reads.{submission_items};
ghost use Rattle.contest_view.specs.SeenLists.{Shows};

use crate::Seen;
use crate::awards::ServedAwards;
use crate::clarifications::Clarifications;
use crate::judgements::Judgements;
use crate::submissions::Submissions;
use contest_objects::{
    CollectionObject, Groups, JudgementTypes, Languages, Problems, Teams, push_objects,
    push_problems, push_whole, sorted,
};
use contest_score::Award;
use std::alloc::{AllocError, Global};

/// The collections of a feed that aren't the same for everybody, or go by the settings.
#[derive(Clone, Copy)]
pub(crate) struct FeedCollections<'a> {
    teams: Teams<'a>,
    submissions: Submissions<'a>,
    judgements: Judgements<'a>,
    clarifications: Clarifications<'a>,
    awards: ServedAwards<'a>,
}

impl<'a> FeedCollections<'a> {
    /// As an audience sees them.
    pub fn of(seen: &'a Seen<'a>) -> FeedCollections<'a>
        ensures shown { (x : ContestState) → Shows seen.entry.now x → AreShown result x }
        ensures seen { result.submissions.seen.now ≡ seen.entry.now }
    {
        let settings = &seen.lists.fixed().settings;
        FeedCollections {
            teams: Teams { settings },
            submissions: Submissions { seen },
            judgements: Judgements { seen },
            clarifications: Clarifications { seen },
            awards: ServedAwards { settings },
        }
    }

    fn push_settings<'r>(
        &'r self,
        alloc: Global,
        objects: &mut Vec<CollectionObject<'r>>,
    ) -> Result<(), AllocError>
        ensures { OnOk result (map event_of objects.new.items ≡ map event_of objects.old.items ++ settings_events self.now.teams.settings.now) }
    {
        let settings = self.teams.settings;
        let (judgement_types, languages) = (settings.judgement_types(), settings.languages());
        let (groups, teams) = (settings.groups(), settings.teams());
        push_whole(alloc, objects, &JudgementTypes, judgement_types)?;
        push_whole(alloc, objects, &Languages, languages)?;
        push_problems(alloc, objects, &Problems, settings)?;
        push_whole(alloc, objects, &Groups, groups)?;
        push_whole(alloc, objects, &self.teams, teams)
    }

    fn push_seen<'r>(
        &'r self,
        alloc: Global,
        objects: &mut Vec<CollectionObject<'r>>,
        awards: &'r [Award],
    ) -> Result<(), AllocError>
        ensures { (x : ContestState) → AreShown self.now x → awards.now ≡ shown_awards self.now.submissions.seen.now.audience self.now.submissions.seen.now.now x
            → OnOk result (map event_of objects.new.items ≡ map event_of objects.old.items ++ seen_events self.now.submissions.seen.now.audience self.now.submissions.seen.now.now x) }
    {
        self.push_submissions(alloc, objects)?;
        self.push_clarifications(alloc, objects)?;
        push_whole(alloc, objects, &self.awards, awards)
    }

    // The submissions, and their judgements.
    fn push_submissions<'r>(
        &'r self,
        alloc: Global,
        objects: &mut Vec<CollectionObject<'r>>,
    ) -> Result<(), AllocError>
        ensures { (x : ContestState) → AreShown self.now x
            → OnOk result (map event_of objects.new.items ≡ map event_of objects.old.items ++ (events (codes "submissions") (submission_items self.now.submissions.seen.now.audience self.now.submissions.seen.now.now x)
            ++ events (codes "judgements") (judgement_items self.now.submissions.seen.now.audience self.now.submissions.seen.now.now x))) }
    {
        let rows = self.submissions.seen.lists.submissions();
        let rows = sorted(alloc, &self.submissions, rows)?;
        push_objects(objects, &self.submissions, &rows)?;
        push_objects(objects, &self.judgements, &rows)
    }

    fn push_clarifications<'r>(
        &'r self,
        alloc: Global,
        objects: &mut Vec<CollectionObject<'r>>,
    ) -> Result<(), AllocError>
        ensures { (x : ContestState) → Shows self.now.clarifications.seen.now x
            → OnOk result (map event_of objects.new.items ≡ map event_of objects.old.items ++ events (codes "clarifications") (clarification_items self.now.clarifications.seen.now.audience x)) }
    {
        let rows = self.clarifications.seen.lists.clarifications();
        let rows = sorted(alloc, &self.clarifications, rows)?;
        push_objects(objects, &self.clarifications, &rows)
    }
}

/// The objects of a feed between the contest and its state, with these awards.
///
/// # Errors
///
/// Want of memory alone.
pub(crate) fn feed_objects<'r>(
    alloc: Global,
    collections: &'r FeedCollections<'r>,
    awards: &'r [Award],
) -> Result<Vec<CollectionObject<'r>>, AllocError>
    ensures { (x : ContestState) → AreShown collections.now x → awards.now ≡ shown_awards collections.now.submissions.seen.now.audience collections.now.submissions.seen.now.now x
        → IfOk result (λ objects. map event_of objects.items ≡ settings_events x.fixed.settings ++ seen_events collections.now.submissions.seen.now.audience collections.now.submissions.seen.now.now x) }
{
    let mut objects = Vec::new(alloc);
    collections.push_settings(alloc, &mut objects)?;
    collections.push_seen(alloc, &mut objects, awards)?;
    Ok(objects)
}
