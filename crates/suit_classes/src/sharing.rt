//! What tasks on several threads share and hand over.
use super::{ClassMove, ClassPlace, ClassTurn, Classes, History, Owner};

fn shared<T: Send + Sync>() {}

/// Classes, class moves, histories of them and class places may be sent to another thread and be shared with it.
pub fn classes_are_shared() {
    shared::<Owner>();
    shared::<Classes>();
    shared::<ClassMove>();
    shared::<History>();
    shared::<ClassTurn>();
    shared::<ClassPlace>();
}
