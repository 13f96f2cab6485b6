//! The edge of the program: where bytes come from, and where they go.
//!
//! A [`Source`] and a [`Sink`] tell what a contract can say of them: the bytes left and the bytes
//! written, where they are known, and counts of what went wrong.
#![tactic(auto)]

mod sink;
mod source;
mod standard;
mod sure;
mod transfer;

pub use sink::Sink;
pub use source::{PortFault, Source};
pub use standard::{StdSink, StdSource};
pub use sure::{SureSink, SureSource};
pub use transfer::{ReadEnd, WriteEnd, read_all, write_all_of};

/// Want of memory, as an error by itself.
pub type Memory = std::alloc::AllocError;
