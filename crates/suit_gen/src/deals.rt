//! What is drawn for one record: declarer's hands and the goal.
ghost use Rattle.std.specs.Prelude.{◌≡◌, ◌/◌, ◌%◌, ◌==◌, if◌then◌else◌};
ghost use Rattle.suit_cards.specs.Holdings.{without_rank};
ghost use Rattle.suit_gen.specs.Deals.{dealt_to, deal_at, question_about};
ghost use Rattle.suit_gen.specs.Draws.{next, state_after};

use crate::draws::Draws;
use suit_cards::{Holding, Rank};
use suit_game::{Entries, Goal, HAND_SIZE, LeadAt, Question};

/// The number of the ace.
const ACE: u8 = 14;

/// The budget of nodes of every made question.
pub const MADE_NODES: u32 = 2_000;

/// The budget of pivots of every made question.
pub const MADE_PIVOTS: u32 = 200;

/// Where the draw of a card sends it; with any other number it is missing.
const NORTH: u32 = 0;

const SOUTH: u32 = 1;

/// Declarer's hands, and how many tricks to win.
#[derive(Clone, Copy, Debug)]
pub struct Deal {
    /// North's cards, the ace among them.
    pub north: Holding,
    /// South's cards.
    pub south: Holding,
    /// The goal: the length of the longer hand, or one less.
    pub goal: u8,
}

/// Declarer's hands.
#[derive(Clone, Copy)]
struct Hands {
    north: Holding,
    south: Holding,
}

/// Where a card goes: the ace to North, and any other as the next draw has it.
fn place_drawn(rank: Rank, draws: &mut Draws) -> u32
    ensures state { draws.new.state ≡ (if rank == ACE then draws.old.state else next draws.old.state) }
    ensures place { result ≡ (if rank == ACE then 0 else draws.new.state / 65536 % 4) }
{
    if rank.number() == ACE {
        return NORTH;
    }
    draws.draw(4)
}

/// The cards of a hand once one of them is dealt: it stays, or it goes elsewhere.
fn once_dealt(hand: Holding, rank: Rank, stays: bool) -> Holding
    ensures { result ≡ (if stays then hand else without_rank hand rank) }
{
    if stays { hand } else { hand.without(rank) }
}

/// Deals the cards: the ace to North, and the others by twelve draws.
fn hands_dealt(draws: &mut Draws) -> Hands
    ensures state { draws.new.state ≡ state_after 12 draws.old.state }
    ensures north { result.north ≡ dealt_to 0 draws.old.state }
    ensures south { result.south ≡ dealt_to 1 draws.old.state }
{
    let suit = Holding::default().others(Holding::default());
    let mut hands = Hands {
        north: suit,
        south: suit,
    };
    for rank in suit.ranks().as_slice() {
        let place = place_drawn(*rank, draws);
        hands.north = once_dealt(hands.north, *rank, place == NORTH);
        hands.south = once_dealt(hands.south, *rank, place == SOUTH);
    }
    hands
}

impl Deal {
    /// The next deal.
    pub fn drawn(draws: &mut Draws) -> Deal
        ensures state { draws.new.state ≡ state_after 13 draws.old.state }
        ensures deal { result ≡ deal_at draws.old.state }
    {
        let hands = hands_dealt(draws);
        let longer = hands.north.len().max(hands.south.len());
        Deal {
            north: hands.north,
            south: hands.south,
            goal: longer - draws.draw(2) as u8,
        }
    }

    /// The question about a deal.
    pub fn question(&self) -> Question
        ensures { result ≡ question_about self.now }
    {
        Question {
            north: self.north,
            south: self.south,
            start: LeadAt::Either,
            regain: LeadAt::Either,
            entries_n: Entries::Count(0),
            entries_s: Entries::Count(0),
            vacant_w: HAND_SIZE,
            vacant_e: HAND_SIZE,
            west_least: 0,
            west_most: HAND_SIZE,
            goal: Goal::AtLeast(self.goal),
            nodes: MADE_NODES,
            pivots: MADE_PIVOTS,
        }
    }
}
