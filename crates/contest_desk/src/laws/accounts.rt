//! Laws of accounts: functions that do nothing, and whose contracts say what holds of every contest
//! and every run.
ghost use Rattle.contest_desk.specs.AccountLaws.{AccountsStay, OnlyTokensAreReplaced};

/// Whatever is asked and imported, an account stays, with its role and its team.
pub fn accounts_stay()
    ensures { AccountsStay }
{}

/// An account's token is replaced only where an administrator posts another for it: any other
/// request, and any import, leaves the account as it is.
pub fn only_tokens_are_replaced()
    ensures { OnlyTokensAreReplaced }
{}
