//! Walks over what play with the moves of a support reaches: they count its columns and rows, write its program into a
//! ledger, and read a plan and a defence.
pub(crate) mod answer_rows;
pub(crate) mod columns;
pub(crate) mod defence_reader;
pub(crate) mod defence_walk;
pub(crate) mod ledger;
pub(crate) mod ledger_of;
pub(crate) mod plan_reader;
pub(crate) mod reach;
pub(crate) mod turn;
pub(crate) mod writing;
