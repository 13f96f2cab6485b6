//! The ranks of cards.
ghost use Rattle.std.specs.Prelude.{◌≡◌, ◌+◌, ◌<◌, ◌==◌, ◌↔◌, Some, IsSome, IfSome, SomeIff, Contains, position};
ghost use Rattle.std.specs.Char.{to_ascii_uppercase};
ghost use Rattle.suit_cards.specs.Ranks.{IsRank, letters, letter_of, rank_named};

use std::marker::Model;

/// The letters of the ranks, from the two up to the ace.
const LETTERS: &[u8; 13] = b"23456789TJQKA";

/// The number of the two, the lowest rank.
const LOWEST: u8 = 2;

/// The number of the ace, the highest rank.
const HIGHEST: u8 = 14;

/// The rank of a card, which contracts see as a number: from 2 to 10, then 11 for the jack, and 14 for the ace.
#[derive(Clone, Copy, PartialEq, Eq, PartialOrd, Ord, Hash, Debug)]
pub struct Rank {
    number: u8,
}

impl Model for Rank {
    ghost use Rattle.std.specs.Prelude.{ℕ};
    ghost use Rattle.suit_cards.specs.Ranks.{IsRank};

    ghost Value = { ℕ };

    ghost view = { λ rank. rank.number };

    ghost invariant = { λ rank. IsRank rank.number };

    ghost inverse = { λ number. record { number = number } };
}

impl Default for Rank {
    /// The two, for lists of fixed length that want some value.
    fn default() -> Rank {
        Rank { number: LOWEST }
    }
}

impl Rank {
    /// The rank that a letter of `AKQJT98765432` stands for, in either case. `None` at any other byte.
    pub fn of(letter: u8) -> Option<Rank>
        ensures value { result ≡ rank_named letter }
        ensures known { IsSome result ↔ Contains letters (to_ascii_uppercase letter) }
        ensures rank { IfSome result IsRank }
    {
        let index = index_of(letter.to_ascii_uppercase())?;
        Some(Rank {
            number: index as u8 + LOWEST,
        })
    }

    /// The rank's capital letter or digit.
    #[tactic(auto, unfolding(crate::specs::Ranks::letters))]
    pub fn letter(self) -> u8
        ensures value { result ≡ letter_of self }
        ensures ascii { result < 128 }
        ensures reads_back { rank_named result ≡ Some self }
    {
        LETTERS[(self.number - LOWEST) as usize]
    }

    /// The rank as a number, from 2 for the two to 14 for the ace.
    pub fn number(self) -> u8
        ensures value { result ≡ self }
        ensures rank { IsRank self }
    {
        self.number
    }

    /// The rank of a number, which is from 2 for the two to 14 for the ace. `None` at any other number.
    pub fn from_number(number: u8) -> Option<Rank>
        ensures { SomeIff result (IsRank number) number }
    {
        if (LOWEST..=HIGHEST).contains(&number) {
            Some(Rank { number })
        } else {
            None
        }
    }

    /// How many ranks are below this one.
    pub(crate) fn index(self) -> u8
        ensures value { result + 2 ≡ self }
        ensures below { result < 13 }
    {
        self.number - LOWEST
    }

    /// The rank with so many below it.
    pub(crate) fn at(index: u8) -> Rank
        requires { index < 13 }
        ensures { result ≡ index + 2 }
    {
        Rank {
            number: index + LOWEST,
        }
    }
}

/// The index of a capital letter among the letters of the ranks.
#[tactic(auto, unfolding(crate::specs::Ranks::letters))]
fn index_of(capital: u8) -> Option<usize>
    ensures value { result ≡ position (λ letter. letter == capital) letters }
    ensures below { IfSome result (λ index. index < 13) }
{
    LETTERS.iter().position(|letter| *letter == capital)
}
