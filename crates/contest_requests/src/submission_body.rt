//! The body of a posted submission.
ghost use Rattle.std.specs.Prelude.{◌≡◌, ◌⊎◌, ◌≤◌, Some, Ok, Err, true, IfOk, IfErr, is_some};
ghost use Rattle.std.specs.Prelude.{length};
ghost use Rattle.serde_json.specs.View.{view};
ghost use Rattle.base64.specs.GeneralPurpose.{decoded_of};
ghost use Rattle.base64.specs.Engines.{standard};
ghost use Rattle.contest_types.specs.declared.limits.TheConstants.{POSTED_FILE as posted_file};
ghost use Rattle.contest_files.specs.Refused.{IsRefused};
ghost use Rattle.contest_requests.specs.SubmissionBodies.{entry_point_in, file_in, is_own, key_in};
ghost use Rattle.contest_requests.specs.SubmissionBodies.{refusal_of_decoding, submission_in};
ghost use Rattle.contest_requests.specs.SubmissionBodies.{submission_of, wanted_in, wanted_of};
ghost use Rattle.contest_requests.specs.SubmissionBodies.{within_limit};

use crate::KeyField;
use base64::DecodeAllocError;
use base64::engine::general_purpose::STANDARD;
use contest_files::{id_in, only_item, optional_id_in, present_in, text_in, value_of};
use contest_rules::WantedSubmission;
use contest_types::limits::POSTED_FILE;
use contest_types::{Id, Name, Refusal, Rows};
use serde_json::Value;
use std::alloc::Global;

/// What a posted object says.
#[derive(Drop)]
pub struct SubmissionBody {
    /// `problem_id`.
    pub problem: Id,
    /// `language_id`.
    pub language: Id,
    /// `entry_point`, if there is one that isn't empty.
    pub entry_point: Option<Name>,
    /// `team_id`, if there is one.
    pub team: Option<Id>,
    /// The bytes of the one file.
    pub file: Rows<u8>,
}

/// What the team with this id asks for by a key and a body.
///
/// # Errors
///
/// `Malformed` where the key or the body is off its form, or names another team; then
/// `BodyTooLarge` where the file is over its limit; else want of memory.
pub fn read_submission(
    alloc: Global,
    team: &[u8],
    key: KeyField,
    body: &[u8],
) -> Result<WantedSubmission, Refusal>
    ensures ok { IfOk result (λ w. wanted_in team.now key body.now ≡ Ok w) }
    ensures err { IfErr result (λ e. (e ≡ Refusal.Memory) ⊎ (wanted_in team.now key body.now ≡ Err e)) }
    ensures limit { IfOk result (λ w. length w.file ≤ posted_file) }
{
    let key = key_in(key)?;
    let submission = submission_in(alloc, body)?;
    within_limit(wanted_of(team, key, submission)?)
}

// What is asked for, where its file is within the limit.
fn within_limit(wanted: WantedSubmission) -> Result<WantedSubmission, Refusal>
    ensures exactly { result ≡ within_limit (Some wanted) }
    ensures limit { IfOk result (λ w. length w.file ≤ posted_file) }
{
    if wanted.file.as_slice().len() > POSTED_FILE {
        return Err(Refusal::BodyTooLarge);
    }
    Ok(wanted)
}

pub(crate) fn key_in(key: KeyField) -> Result<Option<Id>, Refusal>
    ensures ok { IfOk result (λ k. key_in key ≡ Some k) }
    ensures err { IfErr result (λ e. (e ≡ Refusal.Malformed) × (key_in key ≡ None)) }
{
    match key {
        KeyField::Absent => Ok(None),
        KeyField::Key(id) => Ok(Some(id)),
        KeyField::Bad => Err(Refusal::Malformed),
    }
}

fn wanted_of(
    team: &[u8],
    key: Option<Id>,
    submission: SubmissionBody,
) -> Result<WantedSubmission, Refusal>
    ensures ok { IfOk result (λ w. wanted_of team.now key submission ≡ Some w) }
    ensures err { IfErr result (λ e. (e ≡ Refusal.Malformed) × (wanted_of team.now key submission ≡ None)) }
{
    if !is_own(team, &submission.team) {
        return Err(Refusal::Malformed);
    }
    Ok(WantedSubmission {
        problem: submission.problem,
        language: submission.language,
        entry_point: submission.entry_point,
        file: submission.file,
        key,
    })
}

// Whether a team names itself, if it names one.
pub(crate) fn is_own(team: &[u8], named: &Option<Id>) -> bool
    ensures { result ≡ is_own team.now named.now }
{
    match named {
        Some(named) => named.as_bytes() == team,
        None => true,
    }
}

fn submission_in(alloc: Global, body: &[u8]) -> Result<SubmissionBody, Refusal>
    ensures ok { IfOk result (λ s. submission_in body.now ≡ Some s) }
    ensures err { IfErr result (λ e. IsRefused e (submission_in body.now)) }
{
    let value = value_of(alloc, body)?;
    submission_of(alloc, &value)
}

fn submission_of(alloc: Global, value: &Value) -> Result<SubmissionBody, Refusal>
    ensures ok { IfOk result (λ s. submission_of (view value.now) ≡ Some s) }
    ensures err { IfErr result (λ e. IsRefused e (submission_of (view value.now))) }
{
    let problem = id_in(alloc, value, "problem_id")?;
    let language = id_in(alloc, value, "language_id")?;
    let entry_point = entry_point_in(alloc, value)?;
    let team = optional_id_in(alloc, value, "team_id")?;
    let file = file_in(alloc, value)?;
    Ok(SubmissionBody {
        problem,
        language,
        entry_point,
        team,
        file,
    })
}

fn entry_point_in(alloc: Global, value: &Value) -> Result<Option<Name>, Refusal>
    ensures ok { IfOk result (λ entry_point. entry_point_in (view value.now) ≡ Some entry_point) }
    ensures err { IfErr result (λ e. IsRefused e (entry_point_in (view value.now))) }
    ensures memory { IfErr result (λ e. e ≡ Refusal.Memory → is_some (entry_point_in (view value.now)) ≡ true) }
{
    let Some(member) = present_in(value, "entry_point") else {
        return Ok(None);
    };
    let Some(text) = member.as_str() else {
        return Err(Refusal::Malformed);
    };
    if text.is_empty() {
        return Ok(None);
    }
    match Name::parse(alloc, text)? {
        Some(name) => Ok(Some(name)),
        None => Err(Refusal::Malformed),
    }
}

fn file_in(alloc: Global, value: &Value) -> Result<Rows<u8>, Refusal>
    ensures ok { IfOk result (λ file. file_in (view value.now) ≡ Some file) }
    ensures err { IfErr result (λ e. IsRefused e (file_in (view value.now))) }
{
    let Some(files) = value.get("files") else {
        return Err(Refusal::Malformed);
    };
    let Some(file) = only_item(files) else {
        return Err(Refusal::Malformed);
    };
    let Some(text) = text_in(file, "data") else {
        return Err(Refusal::Malformed);
    };
    Ok(Rows::from_vec(decoded(alloc, text)?))
}

// The bytes that a text stands for (RFC 4648, section 4, with its padding).
#[tactic(auto, using(crate::proofs::BodyLemmas::decoded_of_ok, crate::proofs::BodyLemmas::decoding_refused))]
fn decoded(alloc: Global, text: &str) -> Result<Vec<u8>, Refusal>
    ensures ok { IfOk result (λ bytes. decoded_of standard text.now ≡ Some bytes.items) }
    ensures err { IfErr result (λ e. IsRefused e (decoded_of standard text.now)) }
{
    match STANDARD.decode(alloc, text.as_bytes()) {
        Ok(bytes) => Ok(bytes),
        Err(error) => Err(refusal_of_decoding(error)),
    }
}

fn refusal_of_decoding(error: DecodeAllocError) -> Refusal
    ensures { result ≡ refusal_of_decoding error }
{
    match error {
        DecodeAllocError::OutOfMemory => Refusal::Memory,
        DecodeAllocError::DecodeError(_) => Refusal::Malformed,
    }
}
