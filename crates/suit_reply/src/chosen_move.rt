//! A move that the reply chooses.
use suit_classes::{ClassMove, History};

/// The reply's move at a class history where it has a choice.
#[derive(Debug, Drop)]
pub(crate) struct ChosenMove {
    pub(crate) history: History,
    pub(crate) mv: ClassMove,
}
