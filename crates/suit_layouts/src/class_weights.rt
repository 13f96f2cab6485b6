//! The weight of one class layout.
ghost use Rattle.std.specs.Prelude.{◌≡◌, ◌≤◌, ◌^◌, sum};
ghost use Rattle.suit_game.specs.Validity.{IsValid};
ghost use Rattle.suit_game.specs.Blocks.{AreSizes};
ghost use Rattle.suit_layouts.specs.ClassLayouts.{class_weight, ways_of};
ghost use Rattle.suit_game.specs.declared.limits.TheConstants.{HAND_SIZE};

use suit_game::{Question, weight};
use suit_num::choose;

/// The weight of a class layout: those of all layouts in which West has so many cards of each block
/// of missing cards. It is 0 where there is no such layout, also where the counts are not one for
/// each block.
pub fn class_weight(question: &Question, sizes: &[u8], counts: &[u8]) -> u64
    requires valid { IsValid question.now }
    requires blocks { AreSizes question.now sizes.now }
    ensures { result ≡ class_weight question.now sizes.now counts.now }
{
    let ways = ways(sizes, counts);
    if ways == 0 {
        return 0;
    }
    ways * weight(question, west_len(counts))
}

// In how many ways West can hold so many cards of each block.
fn ways(sizes: &[u8], counts: &[u8]) -> u64
    requires { sum sizes.now ≤ HAND_SIZE }
    ensures value { result ≡ ways_of sizes.now counts.now }
    ensures small { result ≤ 2 ^ sum sizes.now }
{
    let [size, sizes @ ..] = sizes else {
        return if counts.is_empty() { 1 } else { 0 };
    };
    let [count, counts @ ..] = counts else {
        return 0;
    };
    choose(*size, *count) * ways(sizes, counts)
}

// How many cards West holds.
fn west_len(counts: &[u8]) -> u8
    requires { sum counts.now ≤ HAND_SIZE }
    ensures { result ≡ sum counts.now }
{
    counts.iter().sum()
}
