//! The demo contest made by imports, beside the one that the library fills a store with.
ghost use Rattle.std.specs.Prelude.{IfOk};
ghost use Rattle.contest_desk.specs.Serving.{IsSettled};
ghost use Rattle.contest_store.specs.InMemory.{kept_of};

use crate::demo_contest::{demo_fixed, whole_demo};
use contest_desk::Desk;
use contest_lists::is_valid_fixed;
use contest_store::{ContestStore, MemoryStore};
use contest_types::{
    Account, Fixed, FixedKind, ImportKind, Moment, Refusal, Settings, SettingsKind,
};
use std::alloc::Global;
use std::test::Fail;

/// The files of the demo contest, in an order in which each names what is there.
static FILES: [(ImportKind, &str); 5] = [
    (
        ImportKind::Fixed(FixedKind::Settings(SettingsKind::JudgementTypes)),
        r#"[{"id":"AC","name":"correct","solved":true},
            {"id":"WA","name":"wrong answer","solved":false,"penalty":true},
            {"id":"CE","name":"compile error","solved":false}]"#,
    ),
    (
        ImportKind::Fixed(FixedKind::Settings(SettingsKind::Languages)),
        r#"[{"id":"cpp","name":"C++"},{"id":"java","name":"Java","entry_point_required":true}]"#,
    ),
    (
        ImportKind::Fixed(FixedKind::Settings(SettingsKind::Problems)),
        r#"[{"id":"a","label":"A","name":"Apples","ordinal":0},
            {"id":"b","label":"B","name":"Bridges","ordinal":1}]"#,
    ),
    (
        ImportKind::Fixed(FixedKind::TeamsCsv),
        "id,name,group_ids,hidden\nt1,Alpha,,\nt2,Beta,,\nt3,Gamma,,\nt9,Staff,,true\n",
    ),
    (
        ImportKind::Fixed(FixedKind::AccountsCsv),
        "id,role,team_id,token\na1,team,t1,token-a1\na2,team,t2,token-a2\na3,team,t3,token-a3\n\
         a9,team,t9,token-a9\nj1,judge,,token-j1\nj2,judge,,token-j2\nadm,admin,,token-adm\n",
    ),
];

/// 2024-03-02T08:00:00Z, in milliseconds after 1970.
const MORNING: u64 = 1_709_366_400_000;

/// The contest in memory, where nothing stands yet.
fn valid_store(alloc: Global) -> Result<MemoryStore, Fail>
    ensures { IfOk result (λ store. IsSettled (kept_of store)) }
{
    let fixed = demo_fixed(alloc)?;
    if !is_valid_fixed(&fixed) {
        return Err(Fail::from("the demo contest isn't valid"));
    }
    Ok(MemoryStore::new(alloc, fixed))
}

fn desk(alloc: Global) -> Result<Desk<MemoryStore>, Fail> {
    match Desk::new(alloc, valid_store(alloc)?) {
        Ok(desk) => Ok(desk),
        Err(_) => Err(Fail::from("no desk")),
    }
}

/// Imports each file at eight o'clock.
fn import_all(alloc: Global, desk: &mut Desk<MemoryStore>) -> Result<(), Refusal> {
    for (kind, file) in FILES.iter() {
        let now = Moment::from_milliseconds(MORNING).ok_or(Refusal::Malformed)?;
        desk.import(alloc, now, *kind, file.as_bytes())?;
    }
    Ok(())
}

fn imported(alloc: Global) -> Result<MemoryStore, Fail> {
    let mut desk = desk(alloc)?;
    match import_all(alloc, &mut desk) {
        Ok(()) => Ok(desk.into_store()),
        Err(_) => Err(Fail::from("a file was refused")),
    }
}

fn are_same_settings(one: &Settings, other: &Settings) -> bool {
    one.head() == other.head()
        && one.judgement_types() == other.judgement_types()
        && one.languages() == other.languages()
        && one.problems() == other.problems()
        && one.groups() == other.groups()
        && one.teams() == other.teams()
}

fn are_same_accounts(one: &[Account], other: &[Account]) -> bool {
    one.len() == other.len()
        && one.iter().zip(other).all(|(a, b)| {
            a.id == b.id && a.role == b.role && a.digest.as_bytes() == b.digest.as_bytes()
        })
}

fn are_same(one: &Fixed, other: &Fixed) -> bool {
    one.marks == other.marks
        && are_same_settings(&one.settings, &other.settings)
        && are_same_accounts(one.accounts.as_slice(), other.accounts.as_slice())
}

#[test]
fn imports_make_the_demo_contest(rt: HostRuntime) -> Result<(), Fail> {
    let made = imported(rt.alloc())?;
    let filled = whole_demo(rt.alloc())?;
    assert!(rt; are_same(made.lists().fixed(), filled.lists().fixed()));
    assert_eq!(rt; made.lists().fixed().accounts.as_slice().len(), 7);
    Ok(())
}
