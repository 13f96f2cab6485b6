//! What tasks on several threads share and hand over.
use super::{
    Counts, DeclarerMove, DeclarerMoves, Defence, DefenceMove, DefenceMoves, DefenceRow,
    DefenceRows, Plan, PlanFault, PlanKind, Row, Rows,
};

fn shared<T: Send + Sync>() {}

/// Plans, defences, their rows and lists, moves and faults may be sent to another thread and be shared with it.
pub fn plans_are_shared() {
    shared::<Counts>();
    shared::<Row>();
    shared::<Rows>();
    shared::<Plan>();
    shared::<DefenceRow>();
    shared::<DefenceRows>();
    shared::<Defence>();
    shared::<DeclarerMove>();
    shared::<DeclarerMoves>();
    shared::<DefenceMove>();
    shared::<DefenceMoves>();
    shared::<PlanKind>();
    shared::<PlanFault>();
}
