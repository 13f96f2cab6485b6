//! What tasks on several threads share and hand over.
use super::{CheckEnd, Verdict};

fn shared<T: Send + Sync>() {}

/// A verdict, and why there is none, may be sent to another thread and be shared with it.
pub fn verdicts_are_shared() {
    shared::<Verdict>();
    shared::<CheckEnd>();
}
