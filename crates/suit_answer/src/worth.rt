//! What a number comes to over a denominator and the total weight.
ghost use Rattle.std.specs.Prelude.{◌≡◌, ◌*ℤ◌, ◌≤ℤ◌, ◌<ℤ◌, pos};
ghost use Rattle.suit_game.specs.Validity.{IsValid};
ghost use Rattle.suit_plans.specs.declared.plan.TheConstants.{MOST_DEN, WORTH_BOUND};
ghost use Rattle.suit_answer.specs.Reduced.{value_over};

use suit_game::{Question, total};
use suit_num::Frac;

/// A number over a denominator and the total weight, in lowest terms. What a plan earns at least and what a defence
/// allows at most come to a value so, each over its own denominator.
pub fn value_over(question: &Question, number: i128, den: i128) -> Frac
    requires valid { IsValid question.now }
    requires number { (pos 0 ≤ℤ number) × (number <ℤ WORTH_BOUND) }
    requires den { (pos 1 ≤ℤ den) × (den ≤ℤ MOST_DEN) }
    ensures { result ≡ value_over question.now number den }
{
    Frac::reduced(number, den * total(question) as i128)
}
