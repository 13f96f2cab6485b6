//! What tasks on several threads share and hand over.
use super::{Answer, AnswerFault};

fn shared<T: Send + Sync>() {}

/// An answer may be sent to another thread and be shared with it, and so may what is wrong with a text of one.
pub fn answers_are_shared() {
    shared::<Answer>();
    shared::<AnswerFault>();
}
