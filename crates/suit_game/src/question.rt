//! The question: how should declarer play this suit?
ghost use Rattle.std.specs.Prelude.{◌≡◌};
ghost use Rattle.suit_cards.specs.Holdings.{IsHolding};

use super::{DEFAULT_NODES, DEFAULT_PIVOTS, HAND_SIZE};
use suit_cards::Holding;

/// Where the lead stands.
#[derive(Clone, Copy, Debug, PartialEq, Eq)]
pub enum LeadAt {
    /// In North's hand.
    N,
    /// In South's hand.
    S,
    /// In either declarer hand, as declarer likes.
    Either,
}

/// How often declarer may lead from the hand where the lead does not stand.
#[derive(Clone, Copy, Debug, PartialEq, Eq)]
pub enum Entries {
    /// At most so many times.
    Count(u8),
    /// As often as declarer likes.
    Free,
}

/// What declarer plays for.
#[derive(Clone, Copy, Debug, PartialEq, Eq)]
pub enum Goal {
    /// To win at least so many tricks: worth 1, or else 0.
    AtLeast(u8),
    /// As many tricks as can be: worth 1 each.
    Tricks,
}

/// A question about one suit. The defenders hold the cards that North and South do not.
#[derive(Clone, Copy, Debug, PartialEq, Eq)]
pub struct Question {
    /// North's cards.
    pub north: Holding,
    /// South's cards.
    pub south: Holding,
    /// Where the lead stands first.
    pub start: LeadAt,
    /// Where the lead stands after a trick that the defenders won.
    pub regain: LeadAt,
    /// The entries to North's hand.
    pub entries_n: Entries,
    /// The entries to South's hand.
    pub entries_s: Entries,
    /// How many of West's cards are not known, those of this suit included.
    pub vacant_w: u8,
    /// How many of East's cards are not known, those of this suit included.
    pub vacant_e: u8,
    /// The fewest cards of the suit that West may hold.
    pub west_least: u8,
    /// The most cards of the suit that West may hold.
    pub west_most: u8,
    /// What declarer plays for.
    pub goal: Goal,
    /// The budget of nodes: how large the game that is solved may be.
    pub nodes: u32,
    /// The budget of pivots: how many steps each round of solving may take.
    pub pivots: u32,
}

impl Question {
    ghost use Rattle.suit_game.specs.Question.{missing, plain};

    /// The question of two hands and a goal, where no more is told: the lead stands at either hand first and after a
    /// lost trick, entries are free, all places are vacant, West may hold any number of cards, and the budgets are the
    /// default ones.
    #[tactic(auto, unfolding(crate::specs::Question::plain))]
    pub fn plain(north: Holding, south: Holding, goal: Goal) -> Question
        ensures { result ≡ plain north south goal }
    {
        Question {
            north,
            south,
            start: LeadAt::Either,
            regain: LeadAt::Either,
            entries_n: Entries::Free,
            entries_s: Entries::Free,
            vacant_w: HAND_SIZE,
            vacant_e: HAND_SIZE,
            west_least: 0,
            west_most: HAND_SIZE,
            goal,
            nodes: DEFAULT_NODES,
            pivots: DEFAULT_PIVOTS,
        }
    }

    /// The cards that the defenders hold together.
    pub fn missing(&self) -> Holding
        ensures value { result ≡ missing self.now }
        ensures holding { IsHolding result }
    {
        self.north.others(self.south)
    }
}
