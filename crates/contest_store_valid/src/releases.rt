//! Whether the released verdicts of a contest are valid.
ghost use Rattle.std.specs.Prelude.{◌≡◌, nat_lt, IfOk, length, map};
ghost use Rattle.std.specs.List.{list_all};
ghost use Rattle.contest_types.specs.Series.{in_each};
ghost use Rattle.contest_types.specs.State.{of_release};
ghost use Rattle.contest_types.specs.ValidSubmissions.{has_submission, has_valid_releases};
ghost use Rattle.contest_types.specs.ValidSubmissions.{on_one_submission, are_valid_releases};
ghost use Rattle.contest_types.specs.declared.submission.Release.{Release as TheRelease};
ghost use Rattle.contest_store_valid.specs.Keys.{pair_of};

use crate::named::submissions_stand;
use crate::numbering::are_numbered;
use contest_lists::Lists;
use contest_types::{Release, Settings};
use std::alloc::{AllocError, Global};

/// Whether each released verdict is on a submission that stands and of a type that is there, and
/// whether those on each submission count up.
///
/// # Errors
///
/// Want of memory alone.
#[tactic(auto, using(crate::proofs::ReleaseLemmas::valid_releases))]
pub(crate) fn has_valid_releases(alloc: Global, lists: &Lists) -> Result<bool, AllocError>
    ensures { IfOk result (λ answer. answer ≡ has_valid_releases lists.now) }
{
    let standing = are_on_submissions(alloc, lists)?;
    let typed = have_types(&lists.fixed().settings, lists.releases());
    let counted = are_numbered_by_submission(alloc, lists.releases())?;
    Ok(standing && typed && counted)
}

fn are_on_submissions(alloc: Global, lists: &Lists) -> Result<bool, AllocError>
    ensures { IfOk result (λ answer. answer ≡ list_all (λ (v : TheRelease). has_submission lists.now v.team v.number) lists.now.releases) }
{
    let named = pairs_of(alloc, lists.releases())?;
    submissions_stand(alloc, lists, &named)
}

fn have_types(settings: &Settings, releases: &[Release]) -> bool
    ensures { result ≡ list_all (λ (v : TheRelease). nat_lt v.verdict (length settings.now.types)) releases.now }
{
    let types = settings.judgement_types().len();
    releases.iter().all(|release| release.verdict < types)
}

// Whether each release has the round that it has among those on its submission.
fn are_numbered_by_submission(alloc: Global, releases: &[Release]) -> Result<bool, AllocError>
    ensures { IfOk result (λ answer. answer ≡ in_each on_one_submission are_valid_releases releases.now) }
{
    let submissions = pairs_of(alloc, releases)?;
    let rounds = rounds_of(alloc, releases)?;
    are_numbered(alloc, &submissions, &rounds)
}

// The submissions that the releases are on.
pub(crate) fn pairs_of(
    alloc: Global,
    releases: &[Release],
) -> Result<Vec<(usize, usize)>, AllocError>
    ensures { IfOk result (λ pairs. pairs.items ≡ map (λ (v : TheRelease). pair_of (of_release v)) releases.now) }
{
    releases
        .iter()
        .map(|release| (release.team, release.number))
        .collect(alloc)
}

fn rounds_of(alloc: Global, releases: &[Release]) -> Result<Vec<usize>, AllocError>
    ensures { IfOk result (λ rounds. rounds.items ≡ map (λ (v : TheRelease). v.round) releases.now) }
{
    releases.iter().map(|release| release.round).collect(alloc)
}
