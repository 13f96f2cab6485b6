//! Walks over the class layouts, which take no memory.
ghost use Rattle.std.specs.Prelude.{◌≡◌, ◌<◌, ◌≤◌, [], length, IfSome, position, slice_index_or};
ghost use Rattle.suit_game.specs.Validity.{IsValid};
ghost use Rattle.suit_game.specs.Blocks.{AreSizes};
ghost use Rattle.suit_layouts.specs.declared.class_list.TheConstants.{MOST_CLASS_LAYOUTS};
ghost use Rattle.suit_layouts.specs.ClassLayouts.{class_layouts, counts_up_to, same_counts};

use super::{ClassLayout, class_weight};
use arrayvec::ArrayVec;
use std::marker::Model;
use suit_game::Question;

/// A walk over the class layouts of positive weight in rising lexicographic order, each with its
/// weight. Contracts see it as the list of those that are still to come.
#[derive(Debug, Drop)]
pub struct ClassWalk<'a> {
    question: &'a Question,
    sizes: &'a [u8],
    // The index of the next among all counts from none to all of each block, and how many these are.
    index: u8,
    all: u8,
}

impl<'a> Model for ClassWalk<'a> {
    ghost use Rattle.std.specs.Prelude.{List, ℕ};
    ghost use Rattle.suit_cards.specs.Cards as lists;
    ghost use Rattle.suit_layouts.specs.Walks.{IsWalk, weighed_from};

    ghost Value = { List (lists.ClassLayout × ℕ) };

    ghost view = { λ walk. weighed_from walk.question.now walk.sizes.now walk.index };

    ghost invariant = { λ walk. IsWalk walk.question.now walk.sizes.now walk.index walk.all };
}

impl<'a> ClassWalk<'a> {
    /// A walk over all class layouts of positive weight.
    pub fn new(question: &'a Question, sizes: &'a [u8]) -> ClassWalk<'a>
        requires valid { IsValid question.now }
        requires blocks { AreSizes question.now sizes.now }
        ensures value { result ≡ class_layouts question.now sizes.now }
        ensures few { length result ≤ MOST_CLASS_LAYOUTS }
    {
        ClassWalk {
            question,
            sizes,
            index: 0,
            all: number_of_counts(sizes),
        }
    }
}

impl<'a> Iterator for ClassWalk<'a> {
    ghost use Rattle.std.specs.Iterator.{YieldsFirst, item_count};

    type Item = (ClassLayout, u64);

    ghost next_gives = { YieldsFirst (λ walk. walk) };

    ghost remaining = { item_count (λ walk. walk) };

    fn next(&mut self) -> Option<(ClassLayout, u64)> {
        while self.index < self.all {
            let counts = counts_at(self.sizes, self.index, self.all);
            let weight = class_weight(self.question, self.sizes, counts.as_slice());
            self.index += 1;
            if weight > 0 {
                return Some((ClassLayout::of(counts), weight));
            }
        }
        None
    }
}

/// The index of these counts in the list of the class layouts of positive weight, from 0 on. It is
/// None exactly where they are not in it.
pub fn class_index(question: &Question, sizes: &[u8], counts: &[u8]) -> Option<usize>
    requires valid { IsValid question.now }
    requires blocks { AreSizes question.now sizes.now }
    ensures index { result ≡ position (λ layout. same_counts layout.0 counts.now)
        (class_layouts question.now sizes.now) }
    ensures few { IfSome result (λ index. index < MOST_CLASS_LAYOUTS) }
{
    ClassWalk::new(question, sizes).position(|(layout, _)| layout.counts() == counts)
}

// How many ways there are to count from none to all of each block.
fn number_of_counts(sizes: &[u8]) -> u8
    requires { length (counts_up_to sizes.now) ≤ MOST_CLASS_LAYOUTS }
    ensures { result ≡ length (counts_up_to sizes.now) }
{
    let mut all = 1;
    for size in sizes {
        all *= *size + 1;
    }
    all
}

// The counts at an index among all.
fn counts_at(sizes: &[u8], mut index: u8, all: u8) -> ArrayVec<u8, 7>
    requires few { length sizes.now ≤ 7 }
    requires all { all ≡ length (counts_up_to sizes.now) }
    requires within { index < all }
    ensures { result.items ≡ slice_index_or (counts_up_to sizes.now) index [] }
{
    let mut counts = ArrayVec::new();
    let mut left = all;
    for size in sizes {
        // Each count of this block goes with all counts of the blocks after it.
        left /= *size + 1;
        counts.push(index / left);
        index %= left;
    }
    counts
}
