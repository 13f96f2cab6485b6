//! What a judge finds of a question.

use suit_num::Frac;

/// What a judge finds of a question.
#[derive(Clone, Copy, Debug, PartialEq, Eq)]
pub enum Outcome {
    /// Its value.
    Value(Frac),
    /// It has more pairs of a class history and a class layout than its budget of nodes.
    Nodes,
    /// The program of a support is too large.
    Support,
    /// The run of a program needs more pivots than the question's budget.
    Pivots,
    /// A number of a run, or a denominator that is read from its optimum, is too wide.
    Wide,
    /// Memory ran out.
    Memory,
}
