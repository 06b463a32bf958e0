//! Why something is refused: each refusal's number, name, HTTP status and body.
ghost use Rattle.std.specs.Prelude.{◌≡◌};
ghost use Rattle.contest_types.specs.Refusals.{row_of, told_by, cause_name};

use std::alloc::{AllocError, AllocFailed};

/// Why a request, a file or a command is refused. A refusal changes nothing.
#[derive(Clone, Copy, Debug, PartialEq, Eq)]
pub enum Refusal {
    /// Bytes, a header field, a body or a file are off their form.
    Malformed,
    /// An Authorization is there, but no account has its token.
    UnknownToken,
    /// The caller's role may not do this.
    RoleForbids,
    /// No route, or no such object that the caller sees.
    NotFound,
    /// The route is known, the method isn't offered there.
    Method,
    /// A body or a file is over its limit.
    BodyTooLarge,
    /// No end of the request's head within its limit.
    HeadTooLarge,
    /// A Transfer-Encoding is there.
    Encoding,
    /// The phase, or finalizing, doesn't allow the request.
    NotOpen,
    /// A problem, language, team, type, submission, group or clarification isn't known, or isn't
    /// seen.
    UnknownReference,
    /// The language requires an entry point.
    EntryPointMissing,
    /// A team's or the jury's number of rows is reached.
    TeamLimit,
    /// A key stands with other content.
    KeyReused,
    /// The submission has a release.
    AlreadyReleased,
    /// No proposal stands for the submission.
    NothingToVerify,
    /// The verifier is the proposer.
    SameJudge,
    /// The verification names another type.
    TypeDiffers,
    /// A member stands in another open rejudging.
    InRejudging,
    /// A member has no release (opening) or isn't ready (applying).
    RejudgingIncomplete,
    /// The rejudging is applied or cancelled.
    RejudgingClosed,
    /// A rule of the clock forbids the change.
    ClockRefused,
    /// Record n of a file, counted from 1 without its header, is the first at fault.
    ImportRow(u64, Cause),
    /// A settings file would add a row too late.
    SettingsClosed,
    /// A call of the store failed, or what it holds isn't a desk of this schema.
    StoreFault,
    /// A growth of memory was refused.
    Memory,
    /// The tables are those of an older schema. Only opening them answers it, no request.
    OldSchema,
}

/// Why a record of a file is at fault.
#[derive(Clone, Copy, Debug, PartialEq, Eq)]
pub enum Cause {
    /// A field is off its form or its range, or the record has another number of fields.
    Malformed,
    /// What the record names isn't known.
    UnknownReference,
    /// The record's key, or its label or token, stands with other content.
    KeyReused,
    /// The list that the record adds to is full.
    TableFull,
    /// The submission has a release.
    AlreadyReleased,
    /// The submission's time is outside the contest.
    NotOpen,
}

/// Why a row can't be added: a cause, or want of memory.
#[derive(Clone, Copy, Debug, PartialEq, Eq)]
pub enum RowFault {
    /// The row is at fault.
    Fault(Cause),
    /// A growth of memory was refused.
    Memory,
}

/// What is told of a refusal, wherever it is told.
#[derive(Clone, Copy)]
pub struct RefusalRow {
    /// The refusal's number, from 1 to 26.
    pub number: u8,
    /// The refusal's name, one word.
    pub name: &'static str,
    /// The HTTP status that it is answered with (RFC 9110, section 15).
    pub status: u16,
    /// The body that it is answered with: `{"code":<status>,"message":"<name>"}`.
    pub body: &'static str,
}

/// The row of a number, a name and a status.
macro_rules! row {
    ($number:literal, $name:literal, $status:literal) => {
        RefusalRow {
            number: $number,
            name: $name,
            status: $status,
            body: concat!("{\"code\":", $status, ",\"message\":\"", $name, "\"}"),
        }
    };
}

impl Refusal {
    /// All that is told of it. It takes no memory.
    pub fn row(self) -> RefusalRow
        ensures { told_by result ≡ row_of self }
    {
        match self {
            Refusal::Malformed => row!(1, "Malformed", 400),
            Refusal::UnknownToken => row!(2, "UnknownToken", 401),
            Refusal::RoleForbids => row!(3, "RoleForbids", 403),
            Refusal::NotFound => row!(4, "NotFound", 404),
            Refusal::Method => row!(5, "Method", 405),
            Refusal::BodyTooLarge => row!(6, "BodyTooLarge", 413),
            Refusal::HeadTooLarge => row!(7, "HeadTooLarge", 431),
            Refusal::Encoding => row!(8, "Encoding", 501),
            Refusal::NotOpen => row!(9, "NotOpen", 409),
            Refusal::UnknownReference => row!(10, "UnknownReference", 400),
            Refusal::EntryPointMissing => row!(11, "EntryPointMissing", 400),
            Refusal::TeamLimit => row!(12, "TeamLimit", 409),
            Refusal::KeyReused => row!(13, "KeyReused", 409),
            Refusal::AlreadyReleased => row!(14, "AlreadyReleased", 409),
            Refusal::NothingToVerify => row!(15, "NothingToVerify", 409),
            Refusal::SameJudge => row!(16, "SameJudge", 403),
            Refusal::TypeDiffers => row!(17, "TypeDiffers", 409),
            Refusal::InRejudging => row!(18, "InRejudging", 409),
            Refusal::RejudgingIncomplete => row!(19, "RejudgingIncomplete", 409),
            Refusal::RejudgingClosed => row!(20, "RejudgingClosed", 409),
            Refusal::ClockRefused => row!(21, "ClockRefused", 409),
            Refusal::ImportRow(_, _) => row!(22, "ImportRow", 409),
            Refusal::SettingsClosed => row!(23, "SettingsClosed", 409),
            Refusal::StoreFault => row!(24, "StoreFault", 503),
            Refusal::Memory => row!(25, "Memory", 503),
            Refusal::OldSchema => row!(26, "OldSchema", 503),
        }
    }
}

impl Cause {
    /// The cause's name, one word.
    pub fn name(self) -> &'static str
        ensures { result.now ≡ cause_name self }
    {
        match self {
            Cause::Malformed => "Malformed",
            Cause::UnknownReference => "UnknownReference",
            Cause::KeyReused => "KeyReused",
            Cause::TableFull => "TableFull",
            Cause::AlreadyReleased => "AlreadyReleased",
            Cause::NotOpen => "NotOpen",
        }
    }
}

impl From<AllocError> for Refusal {
    ghost use Rattle.std.specs.Prelude.{◌≡◌};
    ghost use Rattle.contest_types.specs.declared.refusal.Refusal.TheVariants.{Memory};

    ghost from_gives = { λ _ e. e ≡ Memory };

    fn from(_error: AllocError) -> Refusal {
        Refusal::Memory
    }
}

impl From<AllocError> for RowFault {
    ghost use Rattle.std.specs.Prelude.{◌≡◌};
    ghost use Rattle.contest_types.specs.declared.refusal.RowFault.TheVariants.{Memory};

    ghost from_gives = { λ _ e. e ≡ Memory };

    fn from(_error: AllocError) -> RowFault {
        RowFault::Memory
    }
}

impl<T: Drop> From<AllocFailed<T>> for RowFault {
    ghost use Rattle.std.specs.Prelude.{◌≡◌};
    ghost use Rattle.contest_types.specs.declared.refusal.RowFault.TheVariants.{Memory};

    ghost from_gives = { λ _ e. e ≡ Memory };

    fn from(_error: AllocFailed<T>) -> RowFault {
        RowFault::Memory
    }
}
