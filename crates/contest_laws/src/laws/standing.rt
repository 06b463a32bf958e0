//! What stands of the clock and of accounts.
ghost use Rattle.contest_laws.specs.Standing.{AccountsStayWithoutAdmins, ComeThawStays, OnlyAdminsReplaceTokens};

/// A thaw that has come stays as it is over every run in which no moment falls behind it.
pub fn come_thaw_stays()
    ensures { ComeThawStays }
{}

/// An account's token is replaced by an administrator alone.
pub fn only_admins_replace_tokens()
    ensures { OnlyAdminsReplaceTokens }
{}

/// An account stays as it is, with its role, its team and its token, over every run in which no administrator asks for
/// anything.
pub fn accounts_stay_without_admins()
    ensures { AccountsStayWithoutAdmins }
{}
