//! Places: public positions of the game of single cards.
ghost use Rattle.std.specs.Prelude.{◌≡◌, ℕ, ◌+◌, ◌<◌, ◌≤◌, ◌||◌, ◌↔◌, ◌++◌, ◌∷◌, [], List, length, map, not, true};
ghost use Rattle.std.specs.Prelude.{false};
ghost use Rattle.suit_cards.specs.Cards.{Cards};
ghost use Rattle.suit_cards.specs.declared.seats.Seat.{Seat};
ghost use Rattle.suit_game.specs.declared.limits.TheConstants.{HAND_SIZE};
ghost use Rattle.suit_game.specs.declared.moves.Move.{Move};
ghost use Rattle.suit_game.specs.declared.moves.Move.TheVariants.{Lead};
ghost use Rattle.suit_game.specs.declared.question.Question.{Question};
ghost use Rattle.suit_game.specs.Gains.{is_declarer};
ghost use Rattle.suit_game.specs.Histories.{History};
ghost use Rattle.suit_game.specs.Positions.{Position, Closed, after, ended_trick, followed, follows_of, hand};
ghost use Rattle.suit_game.specs.Positions.{has_ended, has_entry, is_empty, leads_at, led, legal, turn_passed, payoff};
ghost use Rattle.suit_game.specs.Positions.{stands_at};
ghost use Rattle.suit_game.specs.PlaceViews.{IsAt, IsPlay, IsToFollow, IsTurnAt, seen, turn_at, with_gone};
ghost use Rattle.suit_game.specs.declared.turn.Turn.TheVariants.{Over};
ghost use Rattle.suit_game.specs.Validity.{IsValid};

use super::trick::OpenTrick;
use super::{Entries, Goal, LeadAt, Move, Question, Turn};
use arrayvec::ArrayVec;
use std::marker::Model;
use suit_cards::{Holding, Rank, Seat};

/// A public position: what both sides know of the play so far. Contracts see it as the position
/// after a history, without the order in which the cards went.
#[derive(Clone, Copy, Debug)]
pub struct Place {
    // The cards that North, South and the defenders together have not played.
    north: Holding,
    south: Holding,
    defenders: Holding,
    trick: Option<OpenTrick>,
    // Where the lead stands, or stood before the trick in progress.
    lead: LeadAt,
    regain: LeadAt,
    entries_n: Entries,
    entries_s: Entries,
    won: u8,
}

impl Model for Place {
    ghost use Rattle.std.specs.Prelude.{◌+◌, ◌≤◌, length};
    ghost use Rattle.suit_game.specs.declared.limits.TheConstants.{HAND_SIZE};
    ghost use Rattle.suit_game.specs.PlaceViews.{PlaceView, trick_seen, trick_behind, trick_behind-seen};

    ghost Value = { PlaceView };

    ghost view = { λ place. record {
      north = place.north;
      south = place.south;
      defenders = place.defenders;
      trick = trick_seen place.trick;
      lead = place.lead;
      regain = place.regain;
      entries_n = place.entries_n;
      entries_s = place.entries_s;
      won = place.won;
    } };

    // Declarer's hands share no card of the suit.
    ghost invariant = { λ place. length place.north + length place.south ≤ HAND_SIZE };

    ghost inverse = { λ view. record {
      north = view.north;
      south = view.south;
      defenders = view.defenders;
      trick = trick_behind view.trick;
      lead = view.lead;
      regain = view.regain;
      entries_n = view.entries_n;
      entries_s = view.entries_s;
      won = view.won;
    } };

    ghost inverse_ok = { λ place fits. λ i. record {
      north = place.north;
      south = place.south;
      defenders = place.defenders;
      trick = trick_behind-seen place.trick i;
      lead = place.lead;
      regain = place.regain;
      entries_n = place.entries_n;
      entries_s = place.entries_s;
      won = place.won;
    } };
}

impl Place {
    /// The position before any move.
    pub fn start(question: &Question) -> Place
        requires { IsValid question.now }
        ensures { IsAt question.now [] result }
    {
        Place {
            north: question.north,
            south: question.south,
            defenders: question.missing(),
            trick: None,
            lead: question.start,
            regain: question.regain,
            entries_n: question.entries_n,
            entries_s: question.entries_s,
            won: 0,
        }
    }

    /// Who is on turn. It is `Turn::Over` exactly where play has ended.
    pub fn turn(&self) -> Turn
        ensures value { (question : Question) (history : History) → IsAt question history self.now
            → result ≡ turn_at question (after question history) }
        ensures over { (question : Question) (history : History) → IsAt question history self.now
            → (result ≡ Over ↔ (has_ended question (after question history) ≡ true)) }
        ensures trick { IsTurnAt result self.now.trick }
    {
        match self.trick {
            Some(trick) => match trick.turn {
                Seat::N | Seat::S => Turn::Declarer(trick.turn),
                Seat::E | Seat::W => Turn::Defence(trick.turn),
            },
            None if self.has_lead() => Turn::Lead,
            None => Turn::Over,
        }
    }

    /// How many tricks declarer has won.
    pub fn tricks(&self) -> u8
        ensures value { result ≡ self.now.won }
        ensures won { (question : Question) (history : History) → IsAt question history self.now
            → result ≡ (after question history).won }
    {
        self.won
    }

    /// The cards that a hand of declarer's, North's or South's, holds now.
    pub fn hand(&self, seat: Seat) -> Holding
        requires { is_declarer seat ≡ true }
        ensures { (question : Question) (west : Cards) (history : History) → IsAt question history self.now
            → result ≡ hand question west (after question history) seat }
    {
        match seat {
            Seat::N => self.north,
            Seat::S => self.south,
            Seat::E | Seat::W => unreachable!(),
        }
    }

    /// The cards that a defender, West or East, holds now where West was dealt the cards `west`.
    pub fn holds(&self, west: Holding, seat: Seat) -> Holding
        requires { is_declarer seat ≡ false }
        ensures { (question : Question) (history : History) → IsPlay question west history
            → IsAt question history self.now → result ≡ hand question west (after question history) seat }
    {
        let not_west = west.others(Holding::default());
        let not_defenders = self.defenders.others(Holding::default());
        match seat {
            Seat::W => not_west.others(not_defenders),
            Seat::E => not_defenders.others(west),
            Seat::N | Seat::S => unreachable!(),
        }
    }

    /// The leads, those of North first, each with ranks falling. Where no trick is in progress, they
    /// are the legal moves.
    pub fn leads(&self) -> ArrayVec<Move, 13>
        ensures leads { (question : Question) (history : History) → IsAt question history self.now
            → result.items ≡ leads_at question (after question history) }
        ensures legal { (question : Question) (west : Cards) (history : History) → IsAt question history self.now
            → self.now.trick ≡ Closed → result.items ≡ legal question west history }
    {
        let mut leads = ArrayVec::new();
        if self.may_lead_n() {
            add_leads(&mut leads, Seat::N, self.north);
        }
        if self.may_lead_s() {
            add_leads(&mut leads, Seat::S, self.south);
        }
        leads
    }

    /// The follows of a hand that holds the cards `held`, with ranks falling, and with no card
    /// showing out. They are the legal moves where `held` is what the seat on turn holds.
    pub fn follows(&self, held: Holding) -> ArrayVec<Move, 13>
        ensures follows { result.items ≡ follows_of held }
        ensures legal { (question : Question) (west : Cards) (history : History) (seat : Seat)
            → IsAt question history self.now → IsToFollow self.now.trick seat
            → held ≡ hand question west (after question history) seat → result.items ≡ legal question west history }
    {
        follows_from(held)
    }

    /// The position after a move, which is one of `leads` or of `follows`. A move of the wrong kind
    /// changes nothing: a follow or a showing out between tricks, or a lead to a trick in progress.
    pub fn step(&self, mv: Move) -> Place
        ensures { (question : Question) (west : Cards) (history : History) → IsPlay question west history
            → IsAt question history self.now → IsAt question (history ++ mv ∷ []) result }
    {
        match self.trick {
            None => match mv {
                Move::Lead { seat, rank } => self.led(seat, rank),
                Move::Follow { .. } | Move::ShowOut => *self,
            },
            Some(trick) => match mv {
                Move::Follow { rank } => self.followed(trick, rank),
                Move::ShowOut => self.turn_passed(trick),
                Move::Lead { .. } => *self,
            },
        }
    }

    /// What the tricks won are worth: for a goal of so many tricks 1 where they are won and else 0,
    /// and for the other goal 1 each.
    pub fn payoff(&self, goal: Goal) -> u64
        ensures value { result ≡ payoff goal self.now.won }
        ensures won { (question : Question) (history : History) → IsAt question history self.now
            → result ≡ payoff goal (after question history).won }
    {
        match goal {
            Goal::AtLeast(least) => { if self.won >= least { 1 } else { 0 } }
            Goal::Tricks => self.won as u64,
        }
    }

    // Whether declarer may lead from North's hand.
    fn may_lead_n(&self) -> bool
        ensures { result ≡ (stands_at self.now.lead Seat.N || has_entry self.now.entries_n) }
    {
        self.lead.stands_at(Seat::N) || self.entries_n.has_entry()
    }

    // Whether declarer may lead from South's hand.
    fn may_lead_s(&self) -> bool
        ensures { result ≡ (stands_at self.now.lead Seat.S || has_entry self.now.entries_s) }
    {
        self.lead.stands_at(Seat::S) || self.entries_s.has_entry()
    }
}

impl Place {
    // Whether some lead is legal where no trick is in progress.
    fn has_lead(&self) -> bool
        ensures { (question : Question) (position : Position) → self.now ≡ seen question position
            → result ≡ not (is_empty (leads_at question position)) }
    {
        let from_north = self.may_lead_n() && has_cards(self.north);
        let from_south = self.may_lead_s() && has_cards(self.south);
        from_north || from_south
    }

    // The position after a lead.
    fn led(self, seat: Seat, rank: Rank) -> Place
        ensures { (question : Question) (position : Position) → self ≡ seen question position
            → result ≡ seen question (led position seat rank) }
    {
        let opened = Some(OpenTrick {
            turn: seat.next(),
            after: 2,
            winner: seat,
            highest: rank,
        });
        match seat {
            Seat::N => Place {
                trick: opened,
                entries_n: self.entries_n.after_lead(self.lead, seat),
                ..self.without(rank)
            },
            Seat::S => Place {
                trick: opened,
                entries_s: self.entries_s.after_lead(self.lead, seat),
                ..self.without(rank)
            },
            Seat::E | Seat::W => self,
        }
    }

    // The position after the seat on turn has followed with a card.
    fn followed(self, trick: OpenTrick, rank: Rank) -> Place
        ensures { (question : Question) (position : Position) → self ≡ seen question position → position.won < 255
            → result
            ≡ seen question (followed question position trick.turn trick.after trick.winner trick.highest rank) }
    {
        let played = self.without(rank);
        if rank > trick.highest {
            played.turn_passed(OpenTrick {
                winner: trick.turn,
                highest: rank,
                ..trick
            })
        } else {
            played.turn_passed(trick)
        }
    }

    // The position after the seat on turn has played.
    fn turn_passed(self, trick: OpenTrick) -> Place
        ensures { (question : Question) (position : Position) → self ≡ seen question position → position.won < 255
            → result ≡ seen question (turn_passed question position trick.turn trick.after trick.winner trick.highest) }
    {
        if trick.after == 0 {
            return self.ended_trick(trick.winner);
        }
        Place {
            trick: Some(OpenTrick {
                turn: trick.turn.next(),
                after: trick.after - 1,
                ..trick
            }),
            ..self
        }
    }

    // The position after a trick, which this seat has won.
    fn ended_trick(self, winner: Seat) -> Place
        ensures { (question : Question) (position : Position) → self ≡ seen question position → position.won < 255
            → result ≡ seen question (ended_trick question position winner) }
    {
        // No play wins more than thirteen tricks.
        let won = self.won.saturating_add(1);
        match winner {
            Seat::N => Place {
                trick: None,
                lead: LeadAt::N,
                won,
                ..self
            },
            Seat::S => Place {
                trick: None,
                lead: LeadAt::S,
                won,
                ..self
            },
            Seat::E | Seat::W => Place {
                trick: None,
                lead: self.regain,
                ..self
            },
        }
    }

    // The position with a card gone, whoever held it.
    fn without(self, rank: Rank) -> Place
        ensures { (question : Question) (position : Position) → self ≡ seen question position
            → result ≡ seen question (with_gone position rank) }
    {
        Place {
            north: self.north.without(rank),
            south: self.south.without(rank),
            defenders: self.defenders.without(rank),
            ..self
        }
    }
}

// Whether a hand has a card.
fn has_cards(held: Holding) -> bool
    ensures { result ≡ not (is_empty held) }
{
    !held.is_empty()
}

// The follows of a hand that holds these cards.
fn follows_from(held: Holding) -> ArrayVec<Move, 13>
    ensures { result.items ≡ follows_of held }
{
    let mut follows = ArrayVec::new();
    if held.is_empty() {
        follows.push(Move::ShowOut);
        return follows;
    }
    for rank in held.ranks().as_slice() {
        follows.push(Move::Follow { rank: *rank });
    }
    follows
}

// Adds the leads of a hand, with ranks falling.
fn add_leads(leads: &mut ArrayVec<Move, 13>, seat: Seat, held: Holding)
    requires { length leads.old.items + length held ≤ HAND_SIZE }
    ensures { leads.new.items ≡ leads.old.items ++ map (Lead seat) held }
{
    for rank in held.ranks().as_slice() {
        leads.push(Move::Lead { seat, rank: *rank });
    }
}
