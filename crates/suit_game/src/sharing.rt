//! What tasks on several threads share and hand over.
use super::{Entries, Goal, LeadAt, Move, OpenGate, Place, Question, Turn};

fn shared<T: Send + Sync>() {}

/// A question, its parts and a place of its play may be sent to another thread and be shared with it.
pub fn questions_are_shared() {
    shared::<Question>();
    shared::<LeadAt>();
    shared::<Entries>();
    shared::<Goal>();
    shared::<Move>();
    shared::<Turn>();
    shared::<Place>();
    shared::<OpenGate>();
}
