//! The rehearsal: five hours from nine o'clock, the last of them frozen.

use crate::setting_rows::{SettingRow, fill};
use crate::values::{id, moment, name, span};
use contest_types::{Account, ContestHead, Fixed, Marks, Medals, Moment, Rows, Settings};
use std::alloc::Global;
use std::rc::Rc;
use std::test::Fail;

/// 2024-03-02T09:00:00Z.
const START: u64 = 1_709_370_000_000;

/// Four places of each kind.
pub const MEDALS: Medals = Medals {
    gold: 4,
    silver: 4,
    bronze: 4,
};

/// Five hours, the last of them frozen, with twenty minutes for a penalty. Nobody verifies
/// verdicts.
pub fn rehearsal_head(alloc: Global, medals: Medals) -> Result<ContestHead, Fail> {
    Ok(ContestHead {
        id: id(alloc, "rehearsal")?,
        name: name(alloc, "Rehearsal")?,
        duration: span(18_000_000)?,
        freeze: Some(span(3_600_000)?),
        penalty_time: 20,
        verification: false,
        medals,
    })
}

fn settings_of(alloc: Global, head: ContestHead, rows: &[SettingRow]) -> Result<Settings, Fail> {
    let mut settings = Settings::new(alloc, head)?;
    fill(alloc, &mut settings, rows)?;
    Ok(settings)
}

/// The settings of the rehearsal with these medals and rows.
pub fn rehearsal_settings(
    alloc: Global,
    medals: Medals,
    rows: &[SettingRow],
) -> Result<Rc<Settings>, Fail> {
    let head = rehearsal_head(alloc, medals)?;
    Ok(Rc::new(alloc, settings_of(alloc, head, rows)?)?)
}

/// So many milliseconds after nine o'clock.
pub fn after(milliseconds: u32) -> Result<Moment, Fail> {
    moment(START + u64::from(milliseconds))
}

fn marks() -> Result<Marks, Fail> {
    Ok(Marks {
        start: Some(after(0)?),
        thaw: None,
        finalized: None,
    })
}

/// The rehearsal with these rows and accounts, where nothing stands yet.
pub fn rehearsal(
    alloc: Global,
    rows: &[SettingRow],
    accounts: Rows<Account>,
) -> Result<Rc<Fixed>, Fail> {
    fixed_of(alloc, rehearsal_head(alloc, MEDALS)?, rows, accounts)
}

/// The rehearsal with these rows and accounts, where nothing stands yet and another judge verifies
/// each verdict.
pub fn verified_rehearsal(
    alloc: Global,
    rows: &[SettingRow],
    accounts: Rows<Account>,
) -> Result<Rc<Fixed>, Fail> {
    let mut head = rehearsal_head(alloc, MEDALS)?;
    head.verification = true;
    fixed_of(alloc, head, rows, accounts)
}

fn fixed_of(
    alloc: Global,
    head: ContestHead,
    rows: &[SettingRow],
    accounts: Rows<Account>,
) -> Result<Rc<Fixed>, Fail> {
    let marks = marks()?;
    let settings = settings_of(alloc, head, rows)?;
    let fixed = Fixed {
        settings,
        accounts,
        marks,
    };
    Ok(Rc::new(alloc, fixed)?)
}
