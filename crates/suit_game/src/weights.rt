//! How many deals each way of the missing cards stands for.
ghost use Rattle.std.specs.Prelude.{◌≡◌};
ghost use Rattle.suit_game.specs.Layouts.{total};
ghost use Rattle.suit_game.specs.Validity.{IsValid};
ghost use Rattle.suit_game.specs.Weights.{HasPlaces, weight_in_range};

use super::Question;
use suit_num::choose;

/// In how many of the equally likely deals West holds one particular set of `west_len` missing
/// cards: the number of ways to fill West's other vacant places, also where fewer cards are
/// missing. It is 0 where West may not hold so many cards of the suit.
pub fn weight(question: &Question, west_len: u8) -> u64
    requires { IsValid question.now }
    ensures { result ≡ weight_in_range question.now west_len }
{
    weight_within(question, west_len)
}

/// The weights of all layouts together: how many of the equally likely deals West's range leaves.
pub fn total(question: &Question) -> u64
    requires { IsValid question.now }
    ensures { result ≡ total question.now }
{
    total_within(question)
}

// The weight, also of a question that is not known to be valid.
fn weight_within(question: &Question, west_len: u8) -> u64
    requires { HasPlaces question.now }
    ensures { result ≡ weight_in_range question.now west_len }
{
    if west_len < question.west_least
        || west_len > question.west_most
        || west_len > question.vacant_w
    {
        return 0;
    }
    let others = question.vacant_w + question.vacant_e - question.missing().len();
    choose(others, question.vacant_w - west_len)
}

/// The total of a question that has room for the missing cards and may have other faults: at most 13 vacant places with
/// each defender, and no fewer together than there are missing cards.
pub fn total_within(question: &Question) -> u64
    requires { HasPlaces question.now }
    ensures { result ≡ total question.now }
{
    let missing = question.missing().len();
    let mut total = 0;
    for west_len in 0..=missing {
        // Layouts with as many cards of West's weigh the same.
        total += choose(missing, west_len) * weight_within(question, west_len);
    }
    total
}
