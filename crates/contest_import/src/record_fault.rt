//! How the fault of a record refuses a file.
ghost use Rattle.std.specs.Prelude.{◌≡◌};
ghost use Rattle.contest_import.specs.RecordFaults.{refusal_at};

use contest_types::{Cause, Refusal, RowFault};

/// A record that is off its form.
pub(crate) const MALFORMED: RowFault = RowFault::Fault(Cause::Malformed);

/// Want of memory, as a record's fault.
pub(crate) fn memory_of(refusal: Refusal) -> RowFault
    requires { refusal ≡ Refusal.Memory }
    ensures { result ≡ RowFault.Memory }
{
    match refusal {
        Refusal::Memory => RowFault::Memory,
        _ => unreachable!(),
    }
}

/// What refuses a file whose record with this number, from 1, is at fault.
pub(crate) fn refusal_at(number: u64, fault: RowFault) -> Refusal
    ensures { result ≡ refusal_at number fault }
{
    match fault {
        RowFault::Fault(cause) => Refusal::ImportRow(number, cause),
        RowFault::Memory => Refusal::Memory,
    }
}
