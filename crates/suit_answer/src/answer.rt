//! Answers.
use suit_num::Frac;
use suit_plans::{Defence, Plan};

/// An answer to a question: a value, a plan of declarer's that is to win as much against every defence, and a defence
/// that is to give up no more against every play.
#[derive(Debug, Drop)]
pub struct Answer {
    /// The value of the question, in lowest terms.
    pub value: Frac,
    /// How declarer plays.
    pub plan: Plan,
    /// How the defence plays.
    pub defence: Defence,
}
