//! Where the lead stands, and the entries that leads from elsewhere spend.
ghost use Rattle.std.specs.Prelude.{◌≡◌};
ghost use Rattle.suit_game.specs.Positions.{after_lead, has_entry, spent, stands_at};

use super::{Entries, LeadAt};
use suit_cards::Seat;

impl LeadAt {
    /// Whether the lead stands at the hand, so that a lead from it spends no entry.
    pub fn stands_at(self, seat: Seat) -> bool
        ensures { result ≡ stands_at self seat }
    {
        match (self, seat) {
            (LeadAt::Either, _) => true,
            (LeadAt::N, Seat::N) => true,
            (LeadAt::S, Seat::S) => true,
            _ => false,
        }
    }
}

impl Entries {
    /// Whether an entry is left.
    pub fn has_entry(self) -> bool
        ensures { result ≡ has_entry self }
    {
        match self {
            Entries::Free => true,
            Entries::Count(left) => left > 0,
        }
    }

    // The entries after one is spent.
    fn spent(self) -> Entries
        ensures { result ≡ spent self }
    {
        match self {
            Entries::Free => Entries::Free,
            Entries::Count(left) => Entries::Count(left.saturating_sub(1)),
        }
    }

    /// The entries to a hand after a lead from it: one fewer, unless they are free or the lead stood there.
    pub fn after_lead(self, lead: LeadAt, seat: Seat) -> Entries
        ensures { result ≡ after_lead lead seat self }
    {
        if lead.stands_at(seat) {
            self
        } else {
            self.spent()
        }
    }
}
