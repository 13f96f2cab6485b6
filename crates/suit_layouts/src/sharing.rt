//! What tasks on several threads share and hand over.
use super::{ClassLayout, ClassWalk};

fn shared<T: Send + Sync>() {}

/// A class layout and a walk may be sent to another thread and be shared with it.
pub fn class_layouts_are_shared() {
    shared::<ClassLayout>();
    shared::<ClassWalk>();
}
