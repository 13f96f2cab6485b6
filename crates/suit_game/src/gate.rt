//! What each task on several threads passes first.

/// A task on a thread enters the gate once and first of all; what it then answers is the same whatever the gate does.
pub trait Gate {
    /// Passes the gate.
    fn enter(&self);
}

/// A gate that always stands open, and does nothing.
#[derive(Clone, Copy, Debug, Default, PartialEq, Eq)]
pub struct OpenGate;

impl Gate for OpenGate {
    fn enter(&self) {}
}
