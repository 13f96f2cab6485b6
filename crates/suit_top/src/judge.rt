//! The judge of the program: it solves.
ghost use Rattle.std.specs.Prelude.{◌≡◌, Err};
ghost use Rattle.suit_game.specs.declared.question.Question.{Question};
ghost use Rattle.suit_solve.specs.Fates.{fate};
ghost use Rattle.suit_table.specs.declared.outcomes.Outcome.{Outcome};
ghost use Rattle.suit_top.specs.Commands.Table.{outcome_of, Shows};

use std::alloc::Global;
use suit_game::Question;
use suit_solve::{SolveEnd, solve};
use suit_table::{Judge, Outcome};

/// Judges a question by solving it.
#[derive(Clone, Copy, Debug, Default, PartialEq, Eq)]
pub struct SolvingJudge;

impl Judge for SolvingJudge {
    ghost fits = { λ _ question outcome. Shows question outcome };

    fn judge(&self, alloc: Global, question: &Question) -> Outcome {
        match solve(alloc, question) {
            Ok(answer) => Outcome::Value(answer.value),
            Err(end) => outcome_of(end),
        }
    }
}

/// The outcome of a question that has no answer.
fn outcome_of(end: SolveEnd) -> Outcome
    ensures { result ≡ outcome_of (Err end) }
{
    match end {
        SolveEnd::Nodes { budget: _ } => Outcome::Nodes,
        SolveEnd::Support { round: _ } => Outcome::Support,
        SolveEnd::Pivots { round: _ } => Outcome::Pivots,
        SolveEnd::Wide { round: _ } => Outcome::Wide,
        SolveEnd::Memory => Outcome::Memory,
    }
}
