//! Supports, their programs, and the plans and defences that are read from an optimum: the definitions, and their laws.
#![tactic(auto)]

mod duality;
mod programs;
mod readings;
mod supports;
mod walks;

pub use duality::laws;
pub use programs::sizes::size;
pub use programs::{program, sparse_program};
pub use readings::plan_end::PlanEnd;
pub use readings::{examples, plans_of};
pub use suit_layouts::Memory;
pub use supports::support::Support;
