//! What an audience that reads is answered. An endpoint of it is a variant in `operation`, and an
//! arm of `array` and `object` here.
ghost use Rattle.std.specs.Prelude.{◌≡◌, ℕ, true, IfOk, Option, option_map};
ghost use Rattle.serde_json.specs.Data.{Data};
ghost use Rattle.serde_json.specs.Written.{compact_text};
ghost use Rattle.contest_lists.specs.Lists.{loaded};
ghost use Rattle.contest_types.specs.State.{ContestState};
ghost use Rattle.contest_types.specs.Valid.{is_valid};
ghost use Rattle.contest_view.specs.SeenLists.{Shows};
ghost use Rattle.contest_postings.specs.OwnSubmissions.{file_at};
ghost use Rattle.contest_operations.specs.Readings.{account_found, all_data, file_told, jury_found};
ghost use Rattle.contest_operations.specs.Readings.{object_found, read, read_file, told};
ghost use Rattle.contest_operations.specs.Replies.{IsOrdinary};

use crate::Reply;
use crate::operation::{Endpoint, JuryReading, Reading};
use crate::path::{jury_piece, object_piece};
use contest_lists::Lists;
use contest_objects::{AccountObject, WholeContest, setting_text, settings_text, text_of};
use contest_postings::account_named;
use contest_types::{Audience, Fixed, Refusal, Rows};
use contest_view::{
    Seen, award_by_id, awards_text, clarification_by_id, clarifications_text, feed_text,
    file_place, group_scoreboard_text, judgement_by_id, judgements_text, named_submission,
    proposals_text, rejudging_by_id, rejudgings_text, scoreboard_text, submission_by_id,
    submissions_text,
};
use std::alloc::{AllocError, Global};

/// Whose file is needed to answer an audience that reads a path: by the place of its team, from 0,
/// and its number, from 1. No file is needed that the audience may not read.
pub fn read_file(
    lists: &Lists,
    audience: Audience,
    reading: Reading,
    path: &[u8],
) -> Option<(usize, usize)>
    ensures { (x : ContestState) → is_valid x ≡ true → lists.now ≡ loaded x → result ≡ read_file audience reading path.now lists.now }
{
    match reading {
        Reading::File => {
            let named = named_submission(lists, object_piece(path));
            file_place(lists.fixed(), audience, named)
        }
        _ => None,
    }
}

/// What an audience that reads a path is answered, over a contest's lists and the file that is
/// needed.
///
/// # Errors
///
/// Want of memory alone.
pub fn read(
    alloc: Global,
    seen: &Seen<'_>,
    reading: Reading,
    path: &[u8],
    file: Option<Rows<u8>>,
) -> Result<Reply, AllocError>
    ensures read { (x : ContestState) → Shows seen.entry.now x → file ≡ file_at x (read_file seen.entry.now.audience reading path.now (loaded x)) → IfOk result (λ reply. reply ≡ read seen.entry.now.audience seen.entry.now.now x reading path.now) }
    ensures ordinary { IfOk result IsOrdinary }
{
    match reading {
        Reading::Whole(endpoint) => {
            let (fixed, now) = (seen.lists.fixed(), seen.now);
            let whole = WholeContest {
                fixed,
                now,
                endpoint,
            };
            Ok(Reply::answer(text_of(alloc, &whole)?))
        }
        Reading::List(endpoint) => Ok(Reply::answer(array(alloc, seen, endpoint)?)),
        Reading::Object(endpoint) => {
            let found = object(alloc, seen, endpoint, object_piece(path))?;
            Ok(tell(found))
        }
        Reading::File => Ok(tell_file(file)),
        Reading::Feed => Ok(Reply::lines(feed_text(alloc, seen)?)),
        Reading::Scoreboard => Ok(Reply::answer(scoreboard_text(alloc, seen, None)?)),
        Reading::GroupScoreboard => {
            let found = group_scoreboard_text(alloc, seen, object_piece(path))?;
            Ok(tell(found))
        }
        Reading::Account => {
            let found = account_text(alloc, seen.lists.fixed(), path)?;
            Ok(tell(found))
        }
        Reading::Jury(reading) => {
            let found = jury_text(alloc, seen, reading, jury_piece(path))?;
            Ok(tell(found))
        }
    }
}

// The text of the objects of an endpoint that an audience sees.
fn array(alloc: Global, seen: &Seen<'_>, endpoint: Endpoint) -> Result<Vec<u8>, AllocError>
    ensures { (x : ContestState) → Shows seen.entry.now x → IfOk result (λ text. text.items ≡ compact_text (all_data seen.entry.now.audience seen.entry.now.now x endpoint)) }
{
    match endpoint {
        Endpoint::Settings(endpoint) => {
            settings_text(alloc, &seen.lists.fixed().settings, endpoint)
        }
        Endpoint::Submissions => submissions_text(alloc, seen),
        Endpoint::Judgements => judgements_text(alloc, seen),
        Endpoint::Clarifications => clarifications_text(alloc, seen),
        Endpoint::Awards => awards_text(alloc, seen),
    }
}

// The text of the one with an id, if the audience sees one.
fn object(
    alloc: Global,
    seen: &Seen<'_>,
    endpoint: Endpoint,
    id: &[u8],
) -> Result<Option<Vec<u8>>, AllocError>
    ensures { (x : ContestState) → Shows seen.entry.now x → IfOk result (λ found. option_map (λ text. text.items) found ≡ option_map compact_text (object_found seen.entry.now.audience seen.entry.now.now x endpoint id.now)) }
{
    match endpoint {
        Endpoint::Settings(endpoint) => {
            setting_text(alloc, &seen.lists.fixed().settings, endpoint, id)
        }
        Endpoint::Submissions => submission_by_id(alloc, seen, id),
        Endpoint::Judgements => judgement_by_id(alloc, seen, id),
        Endpoint::Clarifications => clarification_by_id(alloc, seen, id),
        Endpoint::Awards => award_by_id(alloc, seen, id),
    }
}

// The text of the account with an id.
fn account_text(alloc: Global, fixed: &Fixed, id: &[u8]) -> Result<Option<Vec<u8>>, AllocError>
    ensures { IfOk result (λ found. option_map (λ text. text.items) found ≡ option_map compact_text (account_found fixed.now id.now)) }
{
    let Some(account) = account_named(fixed.accounts.as_slice(), id) else {
        return Ok(None);
    };
    let settings = &fixed.settings;
    Ok(Some(text_of(alloc, &AccountObject { settings, account })?))
}

// The text of what only the jury reads, if it is there.
fn jury_text(
    alloc: Global,
    seen: &Seen<'_>,
    reading: JuryReading,
    id: &[u8],
) -> Result<Option<Vec<u8>>, AllocError>
    ensures { (x : ContestState) → Shows seen.entry.now x → IfOk result (λ found. option_map (λ text. text.items) found ≡ option_map compact_text (jury_found seen.entry.now.audience seen.entry.now.now x reading id.now)) }
{
    match reading {
        JuryReading::Proposals => Ok(Some(proposals_text(alloc, seen)?)),
        JuryReading::Rejudgings => Ok(Some(rejudgings_text(alloc, seen)?)),
        JuryReading::Rejudging => rejudging_by_id(alloc, seen, id),
    }
}

// The text of what is found, where it is that of a value: what isn't seen is as what isn't there.
fn tell(found: Option<Vec<u8>>) -> Reply
    ensures told { (value : Option Data) → option_map (λ text. text.items) found ≡ option_map compact_text value → result ≡ told value }
    ensures ordinary { IsOrdinary result }
{
    match found {
        Some(text) => Reply::answer(text),
        None => Reply::refused(Refusal::NotFound),
    }
}

// A file that the caller may not read is as one that isn't there.
fn tell_file(file: Option<Rows<u8>>) -> Reply
    ensures told { result ≡ file_told file }
    ensures ordinary { IsOrdinary result }
{
    match file {
        Some(file) => Reply::file(file.into_vec()),
        None => Reply::refused(Refusal::NotFound),
    }
}
