//! What a class place holds, and how it goes on from move to move.
ghost use Rattle.std.specs.Prelude.{◌≡◌, ◌<◌};
ghost use Rattle.suit_classes.specs.ClassPlaces.{AreApart, IsSmall, class_ended, class_followed, class_led};
ghost use Rattle.suit_classes.specs.ClassPlaces.{class_passed, class_played, class_step, side};

use super::class_counts::{CardsByClass, one_less, one_more};
use super::{ClassMove, ClassTrick, Owner};
use suit_cards::Seat;
use suit_game::{Entries, Goal, LeadAt};

/// What a class place holds: a position of the class game, told by counts of cards. Contracts of `ClassPlace` speak of
/// it.
#[derive(Clone, Copy, Debug)]
pub struct ClassView {
    /// How many cards of each class North has left.
    pub north: CardsByClass,
    /// And South.
    pub south: CardsByClass,
    /// How many cards North has left in all.
    pub cards_n: u8,
    /// And South.
    pub cards_s: u8,
    /// How many cards of each class the defenders were dealt.
    pub defence: CardsByClass,
    /// How many of each class West has played.
    pub gone_w: CardsByClass,
    /// And East.
    pub gone_e: CardsByClass,
    /// The trick in progress.
    pub trick: ClassTrick,
    /// Where the lead stands, or stood before the trick in progress.
    pub lead: LeadAt,
    /// Where it will after a trick lost.
    pub regain: LeadAt,
    /// The entries left to North.
    pub entries_n: Entries,
    /// And to South.
    pub entries_s: Entries,
    /// What declarer is after.
    pub goal: Goal,
    /// The tricks that declarer won.
    pub won: u8,
}

impl ClassView {
    /// The position after one more move; a move of the wrong kind changes nothing.
    pub(crate) fn step(self, mv: ClassMove) -> ClassView
        ensures value { IsSmall self → result ≡ class_step self mv }
        ensures apart { AreApart self.north self.south → AreApart result.north result.south }
    {
        match (self.trick, mv) {
            (ClassTrick::Closed, ClassMove::Lead { seat, class }) => self.led(seat, class),
            (
                ClassTrick::Open {
                    turn,
                    after,
                    winner,
                    highest,
                },
                ClassMove::Follow { class },
            ) => self.followed(turn, after, winner, highest, class),
            (
                ClassTrick::Open {
                    turn,
                    after,
                    winner,
                    highest,
                },
                ClassMove::ShowOut,
            ) => self.passed_on(turn, after, winner, highest),
            _ => self,
        }
    }

    // The position after a lead.
    fn led(self, seat: Seat, class: u8) -> ClassView
        ensures value { IsSmall self → result ≡ class_led self seat class }
        ensures apart { AreApart self.north self.south → AreApart result.north result.south }
    {
        let opened = |winner| ClassTrick::Open {
            turn: seat.next(),
            after: 2,
            winner,
            highest: class,
        };
        match seat {
            Seat::N => ClassView {
                trick: opened(Owner::N),
                entries_n: self.entries_n.after_lead(self.lead, seat),
                ..self.played(seat, class)
            },
            Seat::S => ClassView {
                trick: opened(Owner::S),
                entries_s: self.entries_s.after_lead(self.lead, seat),
                ..self.played(seat, class)
            },
            Seat::E | Seat::W => self,
        }
    }

    // The position after the seat on turn has followed with a card of a class.
    fn followed(self, turn: Seat, after: u8, winner: Owner, highest: u8, class: u8) -> ClassView
        ensures value { IsSmall self → result ≡ class_followed self turn after winner highest class }
        ensures apart { AreApart self.north self.south → AreApart result.north result.south }
    {
        let played = self.played(turn, class);
        // The lowest number is the highest class.
        if class < highest {
            played.passed_on(turn, after, side_of(turn), class)
        } else {
            played.passed_on(turn, after, winner, highest)
        }
    }

    // The position after the seat on turn has played.
    fn passed_on(self, turn: Seat, after: u8, winner: Owner, highest: u8) -> ClassView
        ensures value { self.won < 255 → result ≡ class_passed self turn after winner highest }
        ensures apart { AreApart self.north self.south → AreApart result.north result.south }
    {
        if after == 0 {
            return self.ended_trick(winner);
        }
        ClassView {
            trick: ClassTrick::Open {
                turn: turn.next(),
                after: after - 1,
                winner,
                highest,
            },
            ..self
        }
    }

    // The position after a trick, which this side has won.
    fn ended_trick(self, winner: Owner) -> ClassView
        ensures value { self.won < 255 → result ≡ class_ended self winner }
        ensures apart { AreApart self.north self.south → AreApart result.north result.south }
    {
        // No play wins more than thirteen tricks.
        let won = self.won.saturating_add(1);
        let (lead, won) = match winner {
            Owner::N => (LeadAt::N, won),
            Owner::S => (LeadAt::S, won),
            Owner::Defence => (self.regain, self.won),
        };
        ClassView {
            trick: ClassTrick::Closed,
            lead,
            won,
            ..self
        }
    }

    // The position after a seat has played a card of a class.
    fn played(self, seat: Seat, class: u8) -> ClassView
        ensures value { IsSmall self → result ≡ class_played self seat class }
        ensures apart { AreApart self.north self.south → AreApart result.north result.south }
    {
        match seat {
            Seat::N => ClassView {
                north: one_less(&self.north, class),
                cards_n: self.cards_n.saturating_sub(1),
                ..self
            },
            Seat::S => ClassView {
                south: one_less(&self.south, class),
                cards_s: self.cards_s.saturating_sub(1),
                ..self
            },
            Seat::W => ClassView {
                gone_w: one_more(&self.gone_w, class),
                ..self
            },
            Seat::E => ClassView {
                gone_e: one_more(&self.gone_e, class),
                ..self
            },
        }
    }
}

// The side that a seat plays for, declarer's hands apart.
fn side_of(seat: Seat) -> Owner
    ensures { result ≡ side seat }
{
    match seat {
        Seat::N => Owner::N,
        Seat::S => Owner::S,
        Seat::E | Seat::W => Owner::Defence,
    }
}
