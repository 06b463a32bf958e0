//! How refusals are numbered, named and answered.

use contest_types::{Cause, Refusal};

static REFUSALS: [(Refusal, u8, &str, u16); 5] = [
    (Refusal::Malformed, 1, "Malformed", 400),
    (Refusal::HeadTooLarge, 7, "HeadTooLarge", 431),
    (
        Refusal::ImportRow(3, Cause::TableFull),
        22,
        "ImportRow",
        409,
    ),
    (Refusal::Memory, 25, "Memory", 503),
    (Refusal::OldSchema, 26, "OldSchema", 503),
];

#[test]
fn refusals_are_told_apart(rt: HostRuntime) {
    for (refusal, number, name, status) in &REFUSALS {
        let row = refusal.row();
        assert_eq!(rt;
            (row.number, row.name, row.status),
            (*number, *name, *status)
        );
    }
    assert_eq!(rt; Cause::TableFull.name(), "TableFull");
}
