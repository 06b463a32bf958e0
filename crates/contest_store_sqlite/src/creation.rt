//! A contest that is set up: its tables are made where there is none, and compared where they
//! stand.
ghost use Rattle.std.specs.Prelude.{◌≡◌, ◌⊎◌, ◌↔◌, [], IfErr, IfOk, IfSome, IsTrue, OnOk, false};
ghost use Rattle.std.specs.Prelude.{true};
ghost use Rattle.sqlite.specs.State.{HasCleanDisk};
ghost use Rattle.contest_types.specs.State.{new_contest};
ghost use Rattle.contest_types.specs.Valid.{is_valid};
ghost use Rattle.contest_store_reading.specs.Spelling.{without_rows};
ghost use Rattle.contest_store_tables.specs.Connected.{IsBare, counts_of, shown_by};
ghost use Rattle.contest_store_tables.specs.Steps.{Call, HasFirst, MakesNone, Step};
ghost use Rattle.contest_store_changes.specs.Kinds.{IsMoment};
ghost use Rattle.contest_store_changes.specs.Sound.{IsSound};
ghost use Rattle.contest_store_sqlite.specs.Creation.{HasContest, HasHeadAlone, HasNoRow};
ghost use Rattle.contest_store_sqlite.specs.Creation.{HoldsNone, IsMade, IsOfKindsContest};
ghost use Rattle.contest_store_sqlite.specs.Creation.{IsOfOpen, IsReadEqual, KeepsLists};
ghost use Rattle.contest_store_sqlite.specs.Creation.{KeepsContest, LeavesEither, LeavesWhole};
ghost use Rattle.contest_store_sqlite.specs.Creation.{MakesContest, StoodOther};
ghost use Rattle.contest_store_sqlite.specs.Opening.{IsOfFirst};
ghost use Rattle.contest_store_tables.specs.Numbered.{IsNumbered};

use crate::open_error::OpenError;
use crate::opening::read_desk;
use contest_lists::is_valid_fixed;
use contest_store::{ScoredLists, StoreError};
use contest_store_reading::{contest_cells, desk_cells};
use contest_store_rows::VERSION;
use contest_store_tables::{Standing, TableName, Tables};
use contest_types::{Contest, ContestHead, Fixed, Marks, Moment, Refusal, Rows, Settings};
use sqlite::Alter;
use std::alloc::Global;
use std::rc::Rc;

/// The fixed part of a contest in which nothing stands yet.
///
/// # Errors
///
/// `Malformed` where a number of the head is off its range or the end is no moment; `Memory`.
pub(crate) fn new_fixed(alloc: Global, contest: Contest) -> Result<Rc<Fixed>, Refusal>
    ensures value { IfOk result (λ fixed. without_rows fixed.value ≡ new_contest contest) }
    ensures new { IfOk result (λ fixed. HasHeadAlone fixed.value) }
    ensures sound { OnOk result (IsSound (new_contest contest)) }
    ensures refused { IfErr result (λ e. (e ≡ Refusal.Memory) ⊎ ((e ≡ Refusal.Malformed) × (is_valid (new_contest contest) ≡ false))) }
{
    contest_is_of_kinds(&contest);
    let Contest { head, start } = contest;
    match Settings::new(alloc, head) {
        Ok(settings) => shared_if_valid(
            alloc,
            Fixed {
                settings,
                accounts: Rows::new(alloc),
                marks: Marks {
                    start,
                    thaw: None,
                    finalized: None,
                },
            },
        ),
        Err(_) => Err(Refusal::Malformed),
    }
}

fn shared_if_valid(alloc: Global, fixed: Fixed) -> Result<Rc<Fixed>, Refusal>
    ensures value { IfOk result (λ shared. shared.value ≡ fixed) }
    ensures valid { OnOk result (IsTrue (is_valid (without_rows fixed))) }
    ensures refused { IfErr result (λ e. (e ≡ Refusal.Memory) ⊎ ((e ≡ Refusal.Malformed) × (is_valid (without_rows fixed) ≡ false))) }
{
    let is_valid = is_valid_fixed(&fixed);
    share_if(alloc, fixed, is_valid)
}

fn share_if<T: Drop>(alloc: Global, value: T, is_valid: bool) -> Result<Rc<T>, Refusal>
    ensures value { IfOk result (λ shared. (shared.value ≡ value) × (is_valid ≡ true)) }
    ensures refused { IfErr result (λ e. (e ≡ Refusal.Memory) ⊎ ((e ≡ Refusal.Malformed) × (is_valid ≡ false))) }
{
    if !is_valid {
        return Err(Refusal::Malformed);
    }
    match Rc::new(alloc, value) {
        Ok(shared) => Ok(shared),
        Err(_) => Err(Refusal::Memory),
    }
}

// What the types of a contest keep true of its texts and its start: their own calls say it.
fn contest_is_of_kinds(contest: &Contest)
    ensures { IsOfKindsContest contest.now }
{
    let _ = contest.head.id.as_str();
    let _ = contest.head.name.as_str();
    is_moment_if_any(contest.start);
}

fn is_moment_if_any(start: Option<Moment>)
    ensures { IfSome start IsMoment }
{
    match start {
        Some(moment) => {
            let _ = moment.milliseconds();
        }
        None => {}
    }
}

/// The lists of the contest with this fixed part, whose tables are made where no table stands, or
/// of the one that stands, where its head is the same. Cells that the one that stands lacks are
/// filled.
///
/// # Errors
///
/// `KeyReused` where another contest stands; then no transaction is left. `OldSchema` where the
/// tables are those of the first schema. `Memory` where a growth was refused. `StoreFault` where
/// the connection failed for another cause, where a transaction stands already, or where the tables
/// show no valid contest.
pub(crate) fn make_or_read<S: Alter>(
    tables: &mut Tables<S>,
    alloc: Global,
    fixed: Rc<Fixed>,
) -> Result<ScoredLists, Refusal>
    requires numbered { IsNumbered (shown_by S.Store tables.old) }
    requires new { HasHeadAlone fixed.value }
    requires sound { IsSound (without_rows fixed.value) }
    ensures outcome { HasCleanDisk (shown_by S.Store tables.new)
        → IfOk result (λ lists. IsMade (without_rows fixed.value) (shown_by S.Store tables.old) (shown_by S.Store tables.new) lists
        ⊎ IsReadEqual fixed.value.settings.head (shown_by S.Store tables.old) (shown_by S.Store tables.new) lists) }
    ensures differs { HasCleanDisk (shown_by S.Store tables.new)
        → IfErr result (λ e. IsOfOpen e ⊎ ((e ≡ Refusal.KeyReused) × StoodOther fixed.value.settings.head (shown_by S.Store tables.old) (shown_by S.Store tables.new))) }
    ensures kinds { IfErr result (λ e. IsOfOpen e ⊎ (e ≡ Refusal.KeyReused)) }
    ensures counts { OnOk result (counts_of tables.new ≡ counts_of tables.old) }
    ensures survives { LeavesEither (without_rows fixed.value) (shown_by S.Store tables.old) (shown_by S.Store tables.new) }
    ensures bare { IsBare (shown_by S.Store tables.old) → LeavesWhole (without_rows fixed.value) (shown_by S.Store tables.old) (shown_by S.Store tables.new) }
    ensures stood { ¬ IsBare (shown_by S.Store tables.old) → KeepsLists (shown_by S.Store tables.old) (shown_by S.Store tables.new) }
    ensures reused { IfErr result (λ e. e ≡ Refusal.KeyReused → KeepsLists (shown_by S.Store tables.old) (shown_by S.Store tables.new)) }
    ensures old { IfErr result (λ e. e ≡ Refusal.OldSchema → KeepsLists (shown_by S.Store tables.old) (shown_by S.Store tables.new)) }
    ensures first { HasCleanDisk (shown_by S.Store tables.new) → IfErr result (λ e. e ≡ Refusal.OldSchema → IsTrue (shown_by S.Store tables.old).is_open → IsOfFirst (shown_by S.Store tables.old)) }
{
    match tables.standing() {
        Standing::Bare => match make_contest(tables, alloc, fixed) {
            Ok(lists) => Ok(lists),
            Err(error) => Err(OpenError::Store(error).refusal()),
        },
        Standing::Desk | Standing::Lacking(_) | Standing::Celless | Standing::Foreign => {
            read_equal(tables, alloc, fixed.settings.head())
        }
    }
}

// The lists of the valid contest that stands, if it has this head.
fn read_equal<S: Alter>(
    tables: &mut Tables<S>,
    alloc: Global,
    head: &ContestHead,
) -> Result<ScoredLists, Refusal>
    requires numbered { IsNumbered (shown_by S.Store tables.old) }
    requires stood { ¬ IsBare (shown_by S.Store tables.old) }
    ensures equal { HasCleanDisk (shown_by S.Store tables.new) → IfOk result (IsReadEqual head.now (shown_by S.Store tables.old) (shown_by S.Store tables.new)) }
    ensures differs { HasCleanDisk (shown_by S.Store tables.new)
        → IfErr result (λ e. IsOfOpen e ⊎ ((e ≡ Refusal.KeyReused) × StoodOther head.now (shown_by S.Store tables.old) (shown_by S.Store tables.new))) }
    ensures kinds { IfErr result (λ e. IsOfOpen e ⊎ (e ≡ Refusal.KeyReused)) }
    ensures counts { OnOk result (counts_of tables.new ≡ counts_of tables.old) }
    ensures first { HasCleanDisk (shown_by S.Store tables.new) → IfErr result (λ e. e ≡ Refusal.OldSchema → IsTrue (shown_by S.Store tables.old).is_open → IsOfFirst (shown_by S.Store tables.old)) }
    ensures survives { KeepsLists (shown_by S.Store tables.old) (shown_by S.Store tables.new) }
{
    match read_desk(tables, alloc) {
        Ok(lists) => {
            if has_head(lists.lists().fixed(), head) {
                Ok(lists)
            } else {
                Err(Refusal::KeyReused)
            }
        }
        Err(error) => Err(error.refusal()),
    }
}

fn has_head(fixed: &Fixed, head: &ContestHead) -> bool
    ensures { IsTrue result ↔ (fixed.now.settings.head ≡ head.now) }
{
    fixed.settings.head() == head
}

// The lists of the contest with this fixed part, whose tables are made and committed. A transaction
// that stands already may have changes of others in it.
fn make_contest<S: Alter>(
    tables: &mut Tables<S>,
    alloc: Global,
    fixed: Rc<Fixed>,
) -> Result<ScoredLists, StoreError>
    requires bare { IsBare (shown_by S.Store tables.old) }
    requires new { HasHeadAlone fixed.value }
    requires sound { IsSound (without_rows fixed.value) }
    ensures made { HasCleanDisk (shown_by S.Store tables.new) → IfOk result (IsMade (without_rows fixed.value) (shown_by S.Store tables.old) (shown_by S.Store tables.new)) }
    ensures counts { OnOk result (counts_of tables.new ≡ counts_of tables.old) }
    ensures survives { LeavesWhole (without_rows fixed.value) (shown_by S.Store tables.old) (shown_by S.Store tables.new) }
{
    if tables.is_in_transaction() {
        return Err(StoreError::Fault);
    }
    match make_desk(tables, &fixed) {
        Ok(()) => Ok(ScoredLists::empty(alloc, fixed)),
        Err(error) => Err(error),
    }
}

// Makes the tables with the rows of a contest in which nothing stands yet, in one commit.
fn make_desk<S: Alter>(tables: &mut Tables<S>, fixed: &Fixed) -> Result<(), StoreError>
    requires { HasHeadAlone fixed.now }
    ensures { Call result (shown_by S.Store tables.old) (shown_by S.Store tables.new) (counts_of tables.old) (counts_of tables.new) HoldsNone (KeepsContest (without_rows fixed.now))
        (MakesContest (without_rows fixed.now) (shown_by S.Store tables.old)) }
{
    match make_rows(tables, fixed) {
        Ok(()) => tables.commit(),
        Err(error) => Err(error),
    }
}

fn make_rows<S: Alter>(tables: &mut Tables<S>, fixed: &Fixed) -> Result<(), StoreError>
    requires { HasHeadAlone fixed.now }
    ensures { Call result (shown_by S.Store tables.old) (shown_by S.Store tables.new) (counts_of tables.old) (counts_of tables.new) HoldsNone (HasContest (without_rows fixed.now))
        (MakesNone (shown_by S.Store tables.old) HoldsNone) }
{
    match tables.begin() {
        Ok(()) => make_within(tables, fixed),
        Err(error) => Err(error),
    }
}

// Within a transaction.
fn make_within<S: Alter>(tables: &mut Tables<S>, fixed: &Fixed) -> Result<(), StoreError>
    requires { HasHeadAlone fixed.now }
    ensures { Step result (shown_by S.Store tables.old) (shown_by S.Store tables.new) (counts_of tables.old) (counts_of tables.new) (HasFirst 0) (HasContest (without_rows fixed.now))
        (MakesNone (shown_by S.Store tables.old) (HasFirst 0)) }
{
    match tables.make() {
        Ok(()) => insert_rows(tables, fixed),
        Err(error) => Err(error),
    }
}

// The row that says what the tables are, and that of the contest, into empty tables.
fn insert_rows<S: Alter>(tables: &mut Tables<S>, fixed: &Fixed) -> Result<(), StoreError>
    requires { HasHeadAlone fixed.now }
    ensures { Step result (shown_by S.Store tables.old) (shown_by S.Store tables.new) (counts_of tables.old) (counts_of tables.new) HasNoRow (HasContest (without_rows fixed.now))
        (MakesNone (shown_by S.Store tables.old) HasNoRow) }
{
    match tables.insert(TableName::Desk, &desk_cells(VERSION)) {
        Ok(()) => tables.insert(TableName::Contest, &contest_cells(fixed)),
        Err(error) => Err(error),
    }
}
