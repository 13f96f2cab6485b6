//! Laws of plans, defences and programs. They speak of no tree.
pub mod laws;
