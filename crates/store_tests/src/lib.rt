//! Tests of the stores of a contest, in memory and in tables: which changes they make, that a fault
//! takes them away, and what stands after a store was closed and opened again.
#![tactic(auto)]

#[cfg(test)]
mod demo_contest;
#[cfg(test)]
mod demo_imports;
#[cfg(test)]
mod first_changes;
#[cfg(test)]
mod memory_changes;
#[cfg(test)]
mod tables;
