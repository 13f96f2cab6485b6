//! Classes: touching cards that one side holds at the start.
ghost use Rattle.std.specs.Prelude.{◌≡◌, ◌+◌, ◌<◌, ◌≤◌, ◌==◌, ◌-◌, ℕ, not, Some, IfOk, All, count_by, sum, length};
ghost use Rattle.std.specs.List.{flat_map};
ghost use Rattle.suit_classes.specs.declared.classes.Owner.{Owner};
ghost use Rattle.suit_classes.specs.declared.classes.TheConstants.{MOST_CLASSES};
ghost use Rattle.suit_cards.specs.Holdings.{others_of};
ghost use Rattle.suit_cards.specs.Ranks.{IsRank};
ghost use Rattle.suit_game.specs.declared.limits.TheConstants.{MOST_MISSING_AND_BLOCKS};
ghost use Rattle.suit_classes.specs.ClassMoves.{merge, merged};
ghost use Rattle.suit_classes.specs.Classes.{Hands, hands_of, holder, class_below, class_count, class_of, class_owner};
ghost use Rattle.suit_classes.specs.Classes.{class_ranks, class_size, class_top, defence_classes, defence_sizes};
ghost use Rattle.suit_classes.specs.Classes.{same_owner};

use super::{ClassMove, History};
use arrayvec::ArrayVec;
use std::alloc::{AllocError, Global};
use std::marker::Model;
use suit_cards::{Holding, Rank};
use suit_game::{Move, Question};

/// Want of memory.
pub type Memory = AllocError;

/// The most classes that a question has, one for each rank of the suit.
pub const MOST_CLASSES: usize = 13;

/// The most classes that the defenders have: a card of declarer's stands between any two.
pub const MOST_DEFENCE_CLASSES: usize = 7;

/// Who held a class at the start.
#[derive(Clone, Copy, Debug, PartialEq, Eq)]
pub enum Owner {
    /// North.
    N,
    /// South.
    S,
    /// The two defenders together.
    Defence,
}

/// The classes of a question: maximal runs of consecutive ranks that North, South or the defenders
/// together held at the start, numbered from 0 downwards. Contracts see them as declarer's hands.
#[derive(Clone, Copy, Debug)]
pub struct Classes {
    north: Holding,
    south: Holding,
    // The class of each rank, from the ace down.
    numbers: [u8; MOST_CLASSES],
}

impl Owner {
    // Whether both are the same owner.
    pub(crate) fn is(self, other: Owner) -> bool
        ensures { result ≡ same_owner self other }
    {
        self == other
    }
}

impl Model for Classes {
    ghost use Rattle.std.specs.Prelude.{◌≡◌};
    ghost use Rattle.std.proofs.Common.{sym};
    ghost use Rattle.suit_classes.specs.Classes.{Hands};
    ghost use Rattle.suit_classes.specs.Numbering.{numbers_of};

    ghost Value = { Hands };

    ghost view = { λ classes. record { north = classes.north; south = classes.south } };

    ghost invariant = { λ classes. classes.numbers
        ≡ numbers_of (record { north = classes.north; south = classes.south }) };

    ghost inverse = { λ hands. record { north = hands.north; south = hands.south; numbers = numbers_of hands } };

    ghost inverse_ok = { λ classes is. λ i. record {
      north = classes.north;
      south = classes.south;
      numbers = sym is i;
    } };
}

impl Classes {
    /// The classes of a question.
    pub fn of(question: &Question) -> Classes
        ensures { result ≡ hands_of question.now }
    {
        let mut numbers = [0; MOST_CLASSES];
        let mut class = 0;
        for index in 1..MOST_CLASSES {
            if starts_class(question.north, question.south, index) {
                class += 1;
            }
            numbers[index] = class;
        }
        Classes {
            north: question.north,
            south: question.south,
            numbers,
        }
    }

    /// How many classes there are.
    pub fn count(&self) -> u8
        ensures value { result ≡ class_count self.now }
        ensures most { result ≤ MOST_CLASSES }
    {
        self.numbers[12] + 1
    }

    /// Who held a class.
    pub fn owner(&self, class: u8) -> Owner
        requires { class < class_count self.now }
        ensures { result ≡ class_owner self.now class }
    {
        holder_of(self.north, self.south, self.top(class))
    }

    /// The highest rank of a class, which names it.
    pub fn top(&self, class: u8) -> Rank
        requires { class < class_count self.now }
        ensures { class_top self.now class ≡ Some result }
    {
        for index in 0..MOST_CLASSES {
            if self.numbers[index] == class {
                return rank_at(index);
            }
        }
        unreachable!()
    }

    /// How many cards a class has.
    pub fn size(&self, class: u8) -> u8
        requires { class < class_count self.now }
        ensures value { result ≡ class_size self.now class }
        ensures some { 0 < result }
    {
        how_often(&self.numbers, class)
    }

    /// The classes that the defenders held, rising: in them stand the missing cards, falling.
    pub fn defence(&self) -> ArrayVec<u8, MOST_DEFENCE_CLASSES>
        ensures value { result.items ≡ defence_classes self.now }
        ensures blocks { flat_map (class_ranks self.now) result.items ≡ others_of self.now.north self.now.south }
    {
        let mut classes = ArrayVec::new();
        for class in 0..self.count() {
            if self.owner(class).is(Owner::Defence) {
                classes.push(class);
            }
        }
        classes
    }

    /// The sizes of the classes that the defenders held, in the same order.
    pub fn sizes(&self) -> ArrayVec<u8, MOST_DEFENCE_CLASSES>
        ensures value { result.items ≡ defence_sizes self.now }
        ensures some { All (λ size. 1 ≤ size) result.items }
        ensures sum { sum result.items ≡ length (others_of self.now.north self.now.south) }
        ensures few { length (others_of self.now.north self.now.south) + length result.items
            ≤ MOST_MISSING_AND_BLOCKS }
    {
        let mut sizes = ArrayVec::new();
        for class in self.defence().as_slice() {
            sizes.push(self.size(*class));
        }
        sizes
    }

    /// The history of class moves that a history of single cards merges to.
    pub fn merge(&self, alloc: Global, history: &[Move]) -> Result<History, Memory>
        ensures { IfOk result (λ moves. moves ≡ merged self.now history.now) }
    {
        let mut moves = Vec::new(alloc);
        for mv in history {
            moves.push(self.merged(*mv))?;
        }
        Ok(History::of(moves))
    }

    // A move with its card replaced by the card's class.
    fn merged(&self, mv: Move) -> ClassMove
        ensures { result ≡ merge self.now mv }
    {
        match mv {
            Move::Lead { seat, rank } => ClassMove::Lead {
                seat,
                class: self.class_of(rank),
            },
            Move::Follow { rank } => ClassMove::Follow {
                class: self.class_of(rank),
            },
            Move::ShowOut => ClassMove::ShowOut,
        }
    }

    /// The class of a rank.
    pub fn class_of(&self, rank: Rank) -> u8
        ensures value { result ≡ class_of self.now rank }
        ensures below { result < class_count self.now }
    {
        self.numbers[14 - rank.number() as usize]
    }
}

// Whether the rank so many below the ace was not held by whoever held the rank above it.
fn starts_class(north: Holding, south: Holding, index: usize) -> bool
    requires least { 1 ≤ index }
    requires most { index < MOST_CLASSES }
    ensures { (hands : Hands) (above : ℕ) → hands.north ≡ north → hands.south ≡ south → above + 1 ≡ index
        → result ≡ not (same_owner (holder hands (14 - above)) (holder hands (14 - index))) }
{
    let above = holder_of(north, south, rank_at(index - 1));
    let here = holder_of(north, south, rank_at(index));
    !above.is(here)
}

// How often a class stands among the numbers of thirteen ranks.
fn how_often(numbers: &[u8; MOST_CLASSES], class: u8) -> u8
    ensures { result ≡ count_by (λ number. number == class) numbers.now }
{
    numbers.iter().filter(|number| **number == class).count() as u8
}

// The rank so many below the ace.
fn rank_at(index: usize) -> Rank
    requires { index < MOST_CLASSES }
    ensures value { result + index ≡ 14 }
    ensures rank { IsRank result }
{
    match Rank::from_number(14 - index as u8) {
        Some(rank) => rank,
        None => unreachable!(),
    }
}

// Who holds a rank, where declarer holds these cards.
fn holder_of(north: Holding, south: Holding, rank: Rank) -> Owner
    ensures { (hands : Hands) → hands.north ≡ north → hands.south ≡ south → result ≡ holder hands rank }
{
    if north.has(rank) {
        Owner::N
    } else if south.has(rank) {
        Owner::S
    } else {
        Owner::Defence
    }
}
