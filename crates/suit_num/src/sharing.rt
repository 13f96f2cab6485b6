//! What tasks on several threads share and hand over.
use super::Frac;

fn shared<T: Send + Sync>() {}

/// A fraction may be sent to another thread and be shared with it.
pub fn fractions_are_shared() {
    shared::<Frac>();
}
