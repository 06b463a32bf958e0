//! Laws of a store in memory: functions that do nothing, and whose contracts say what holds of any.
ghost use Rattle.contest_store.specs.InMemory.{MemoryStaysCalm};

/// A call on a store in memory that is refused memory meets no trouble, and doesn't shut it.
pub fn memory_stays_calm()
    ensures { MemoryStaysCalm }
{}
