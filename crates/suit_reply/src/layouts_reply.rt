//! What the best reply to a plan comes to in some of the class layouts.
use suit_plans::DefenceMove;

/// What these class layouts are worth together, each by its weight, and the choices of the reply in them, in order.
#[derive(Debug, Drop)]
pub(crate) struct LayoutsReply {
    pub(crate) number: i128,
    pub(crate) moves: Vec<DefenceMove>,
}
