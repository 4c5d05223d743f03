// Deltas: how one version of a run of units is made from another by copies and inserts; their check,
// and the faults of one delta and of two that are to be combined.
#![tactic(auto)]

mod check;
mod delta;
mod fault;
mod instruction;
mod lawful;
mod laws;
mod table;

pub use check::after_instruction;
pub use delta::{Delta, Head};
pub use fault::{DeltaFault, NormalFault, PairFault, Side};
pub use instruction::{Instruction, Op};
pub use lawful::LawfulDelta;
pub use laws::the_check_finds_the_first_fault;
pub use table::blank_rest;
