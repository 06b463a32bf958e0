//! The rehearsal with its accounts, or the contest alone, at a desk that keeps it in memory.

ghost use Rattle.std.specs.Prelude.{IfOk};
ghost use Rattle.contest_desk.specs.Serving.{IsSettled};
ghost use Rattle.contest_store.specs.InMemory.{kept_of};

use contest_desk::Desk;
use contest_fixtures::{SettingRow, id, rehearsal, verified_rehearsal};
use contest_lists::{copied_fixed, is_valid_fixed};
use contest_store::MemoryStore;
use contest_types::{Account, Digest, Fixed, Marks, Moment, Refusal, Role, Rows};
use sha2::{Digest as _, Sha256};
use std::alloc::Global;
use std::rc::Rc;
use std::test::Fail;

/// The accounts, by id. The token of each is `token-` and its id.
static ACCOUNTS: [(&str, Role); 7] = [
    ("a1", Role::Team(0)),
    ("a2", Role::Team(1)),
    ("a3", Role::Team(3)),
    ("a9", Role::Team(2)),
    ("adm", Role::Admin),
    ("j1", Role::Judge),
    ("o1", Role::Analyst),
];

/// Two judgement types, two languages, three problems, a group and four teams. The problems come
/// out of order, and two have one ordinal. The third team is hidden, and its id is the last.
static ROWS: [SettingRow; 12] = [
    SettingRow::Type("AC", true, false),
    SettingRow::Type("WA", false, true),
    SettingRow::Language("cpp", false),
    SettingRow::Language("java", true),
    SettingRow::Problem("b", "B", 1),
    SettingRow::Problem("c", "C", 0),
    SettingRow::Problem("a", "A", 0),
    SettingRow::Group("north", "North"),
    SettingRow::Team("t1", "Alpha", None, false),
    SettingRow::Team("t2", "Beta", None, false),
    SettingRow::Team("t9", "Staff", None, true),
    SettingRow::Team("t3", "Gamma", Some(0), false),
];

fn account(alloc: Global, text: &str, role: Role) -> Result<Account, Fail> {
    let token = format!(in alloc; "token-{text}")?;
    Ok(Account {
        id: id(alloc, text)?,
        role,
        digest: Digest::new(Sha256::digest(token.as_bytes())),
    })
}

fn accounts(alloc: Global) -> Result<Rows<Account>, Fail> {
    let mut accounts = Rows::new(alloc);
    for (text, role) in &ACCOUNTS {
        accounts.push(account(alloc, text, *role)?)?;
    }
    Ok(accounts)
}

/// Whether a walk begins at a desk at which nothing is set up but the contest.
fn is_bare(walk: &str) -> bool {
    match walk.split_once("\n\n") {
        Some((head, _)) => head.ends_with("nothing is set up"),
        None => false,
    }
}

/// Whether another judge verifies each verdict of a walk.
fn is_verified(walk: &str) -> bool {
    walk.split_once("\nverdicts are verified\n").is_some()
}

/// The contest with all that is set up, or alone.
fn set_up(alloc: Global, walk: &str) -> Result<Rc<Fixed>, Fail> {
    let (rows, accounts): (&[SettingRow], _) = if is_bare(walk) {
        (&[], Rows::new(alloc))
    } else {
        (&ROWS, accounts(alloc)?)
    };
    if is_verified(walk) {
        verified_rehearsal(alloc, rows, accounts)
    } else {
        rehearsal(alloc, rows, accounts)
    }
}

/// The contest with the marks of the clock that a walk sets.
fn fixed(alloc: Global, walk: &str) -> Result<Rc<Fixed>, Fail> {
    let fixed = set_up(alloc, walk)?;
    let marks = marks_of(fixed.marks.start, walk);
    marked(alloc, &fixed, marks)
}

/// A contest with other marks.
fn marked(alloc: Global, fixed: &Fixed, marks: Result<Marks, Refusal>) -> Result<Rc<Fixed>, Fail> {
    let marks = marks?;
    let mut copy = copied_fixed(alloc, fixed)?;
    copy.marks = marks;
    Ok(Rc::new(alloc, copy)?)
}

/// The marks that a walk sets, where the contest starts at this moment.
fn marks_of(start: Option<Moment>, walk: &str) -> Result<Marks, Refusal> {
    let is_set = walk.split_once("\nno start is set\n").is_none();
    Ok(Marks {
        start: if is_set { start } else { None },
        thaw: moment_after(walk, "thawed from: ")?,
        finalized: moment_after(walk, "final from: ")?,
    })
}

/// The moment that stands after these words, up to the end of the line.
fn moment_after(text: &str, words: &str) -> Result<Option<Moment>, Refusal> {
    match text.split_once(words) {
        Some((_, rest)) => Moment::parse(rest.lines().next().unwrap_or("")),
        None => Ok(None),
    }
}

/// The number that stands after these words, up to the end of the line.
pub fn number_after(text: &str, words: &str) -> Option<u32> {
    let (_, rest) = text.split_once(words)?;
    let (number, _) = rest.split_once('\n')?;
    number.parse().ok()
}

/// A store in which nothing was submitted yet. It fails once, at the call after so many, if it is
/// to.
fn store(alloc: Global, walk: &str) -> Result<MemoryStore, Fail>
    ensures { IfOk result (λ store. IsSettled (kept_of store)) }
{
    let fixed = fixed(alloc, walk)?;
    if !is_valid_fixed(&fixed) {
        return Err(Fail::from("the rehearsal isn't valid"));
    }
    let mut store = MemoryStore::new(alloc, fixed);
    if let Some(calls) = number_after(walk, "calls until the store fails: ") {
        store.fail_after(calls);
    }
    Ok(store)
}

/// The desk at which a walk begins.
pub fn desk_for(alloc: Global, walk: &str) -> Result<Desk<MemoryStore>, Fail> {
    match Desk::new(alloc, store(alloc, walk)?) {
        Ok(desk) => Ok(desk),
        Err(_) => Err(Fail::from("no desk")),
    }
}
