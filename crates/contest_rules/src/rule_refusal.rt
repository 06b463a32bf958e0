//! Why a command is refused by the rules of a contest.
ghost use Rattle.std.specs.Prelude.{◌≡◌};
ghost use Rattle.contest_rules.specs.RuleRefusals.{refusal_of};

use contest_types::Refusal;

/// Why a command is refused by the rules of a contest: never for want of memory, nor by a store.
#[derive(Clone, Copy, PartialEq, Eq)]
pub enum RuleRefusal {
    Malformed,
    UnknownReference,
    EntryPointMissing,
    KeyReused,
    NotOpen,
    TeamLimit,
    AlreadyReleased,
    NothingToVerify,
    SameJudge,
    TypeDiffers,
    NotFound,
    InRejudging,
    RejudgingIncomplete,
    RejudgingClosed,
    ClockRefused,
}

impl RuleRefusal {
    /// The refusal that it is.
    pub fn refusal(self) -> Refusal
        ensures { result ≡ refusal_of self }
    {
        match self {
            RuleRefusal::Malformed => Refusal::Malformed,
            RuleRefusal::UnknownReference => Refusal::UnknownReference,
            RuleRefusal::EntryPointMissing => Refusal::EntryPointMissing,
            RuleRefusal::KeyReused => Refusal::KeyReused,
            RuleRefusal::NotOpen => Refusal::NotOpen,
            RuleRefusal::TeamLimit => Refusal::TeamLimit,
            RuleRefusal::AlreadyReleased => Refusal::AlreadyReleased,
            RuleRefusal::NothingToVerify => Refusal::NothingToVerify,
            RuleRefusal::SameJudge => Refusal::SameJudge,
            RuleRefusal::TypeDiffers => Refusal::TypeDiffers,
            RuleRefusal::NotFound => Refusal::NotFound,
            RuleRefusal::InRejudging => Refusal::InRejudging,
            RuleRefusal::RejudgingIncomplete => Refusal::RejudgingIncomplete,
            RuleRefusal::RejudgingClosed => Refusal::RejudgingClosed,
            RuleRefusal::ClockRefused => Refusal::ClockRefused,
        }
    }
}
