//! What tasks on several threads share and hand over.
use super::{CardFault, Holding, Rank, Seat};

fn shared<T: Send + Sync>() {}

/// Ranks, seats and holdings, and why a text is none, may be sent to another thread and be shared with it.
pub fn cards_are_shared() {
    shared::<Rank>();
    shared::<Seat>();
    shared::<Holding>();
    shared::<CardFault>();
}
