//! The list of the class layouts.
ghost use Rattle.std.specs.Prelude.{◌≡◌, ◌≤◌, IfOk, sum_by, vec_len};
ghost use Rattle.suit_game.specs.Layouts.{total};
ghost use Rattle.suit_game.specs.Validity.{IsValid};
ghost use Rattle.suit_game.specs.Blocks.{AreSizes};
ghost use Rattle.suit_layouts.specs.declared.class_list.TheConstants.{MOST_CLASS_LAYOUTS};
ghost use Rattle.suit_layouts.specs.ClassLayouts.{class_layouts};

use super::{ClassLayout, ClassWalk};
use std::alloc::{AllocError, Global};
use suit_game::Question;

/// The most class layouts that a question has.
pub const MOST_CLASS_LAYOUTS: usize = 162;

/// Want of memory.
pub type Memory = AllocError;

/// The class layouts of positive weight in rising lexicographic order, each with its weight, where
/// the missing cards are taken in blocks of these sizes, the highest cards first. There are at most
/// `MOST_CLASS_LAYOUTS` of them, and their weights add up to the question's total.
pub fn class_layouts(
    alloc: Global,
    question: &Question,
    sizes: &[u8],
) -> Result<Vec<(ClassLayout, u64)>, Memory>
    requires valid { IsValid question.now }
    requires blocks { AreSizes question.now sizes.now }
    ensures value { IfOk result (λ list. list.items ≡ class_layouts question.now sizes.now) }
    ensures few { IfOk result (λ list. vec_len list ≤ MOST_CLASS_LAYOUTS) }
    ensures total { IfOk result (λ list. sum_by (λ layout. layout.1) list.items ≡ total question.now) }
{
    ClassWalk::new(question, sizes).collect(alloc)
}
