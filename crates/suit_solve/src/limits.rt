//! How large a program may be.
ghost use Rattle.std.specs.Prelude.{◌≡◌, ◌≤◌};
ghost use Rattle.suit_game.specs.declared.limits.TheConstants.{MOST_SUPPORT};
ghost use Rattle.suit_solve.specs.Limits.{most_size};

use suit_game::{MOST_SUPPORT, Question};

/// The most rows and columns that a program of a question may have.
pub fn most_size(question: &Question) -> u32
    ensures value { result ≡ most_size question.now }
    ensures fits { most_size question.now ≤ MOST_SUPPORT }
{
    MOST_SUPPORT
}
