//! Class places: positions of the class game, told by counts of cards.
ghost use Rattle.std.specs.Prelude.{◌≡◌, ℕ, ◌<◌, ◌≤◌, ◌↔◌, ◌++◌, ◌∷◌, [], length, max, slice_index, true};
ghost use Rattle.suit_cards.specs.declared.seats.Seat.{Seat};
ghost use Rattle.suit_cards.specs.Cards.{Cards};
ghost use Rattle.suit_game.specs.declared.question.Question.{Question};
ghost use Rattle.suit_game.specs.Histories.{History};
ghost use Rattle.suit_game.specs.Positions.{after, payoff};
ghost use Rattle.suit_classes.specs.Agreement.{StandsFor};
ghost use Rattle.suit_classes.specs.Classes.{hands_of};
ghost use Rattle.suit_classes.specs.declared.classes.TheConstants.{MOST_CLASSES};
ghost use Rattle.suit_classes.specs.declared.class_turn.ClassTurn.TheVariants.{Decided};
ghost use Rattle.suit_classes.specs.ClassGame.{class_turn_at, counts_of, is_decided, is_goal_settled, merged_moves};
ghost use Rattle.suit_classes.specs.ClassMoves.{ClassHistory};
ghost use Rattle.suit_classes.specs.ClassPlaces.{class_after, class_decided, class_leads, class_moves, class_payoff};
ghost use Rattle.suit_classes.specs.ClassPlaces.{class_start, class_turn, has_class_lead, left, may_lead, turn_of};
ghost use Rattle.suit_game.specs.declared.limits.TheConstants.{MOST_MOVES};

use super::class_counts::{CardsByClass, add_leads, dealt_to, follows_of};
use super::{ClassMove, ClassTrick, ClassTurn, ClassView, Classes, MOST_CLASSES, Owner};
use arrayvec::ArrayVec;
use std::marker::Model;
use suit_cards::Seat;
use suit_game::{Entries, Goal, LeadAt, Question};

/// A position of the class game, which is a small value and looks at no card. Contracts see it as
/// counts of cards by class, and tie these to class histories and to the play of single cards.
#[derive(Clone, Copy, Debug)]
pub struct ClassPlace {
    view: ClassView,
}

impl Model for ClassPlace {
    ghost use Rattle.suit_classes.specs.ClassPlaces.{AreApart, ClassView};

    ghost Value = { ClassView };

    ghost view = { λ place. place.view };

    // No class is North's and South's.
    ghost invariant = { λ place. AreApart place.view.north place.view.south };

    ghost inverse = { λ view. record { view = view } };
}

impl ClassPlace {
    /// The position before any move.
    pub fn start(question: &Question, classes: &Classes) -> ClassPlace
        requires { classes.now ≡ hands_of question.now }
        ensures { result ≡ class_start question.now }
    {
        let view = ClassView {
            north: dealt_to(classes, Owner::N),
            south: dealt_to(classes, Owner::S),
            cards_n: question.north.len(),
            cards_s: question.south.len(),
            defence: dealt_to(classes, Owner::Defence),
            gone_w: [0; MOST_CLASSES],
            gone_e: [0; MOST_CLASSES],
            trick: ClassTrick::Closed,
            lead: question.start,
            regain: question.regain,
            entries_n: question.entries_n,
            entries_s: question.entries_s,
            goal: question.goal,
            won: 0,
        };
        ClassPlace { view }
    }

    /// Who is on turn. It is `ClassTurn::Decided` exactly where the position is decided.
    pub fn turn(&self) -> ClassTurn
        ensures value { result ≡ class_turn self.now }
        ensures over { result ≡ Decided ↔ (class_decided self.now ≡ true) }
        ensures cards { (question : Question) (west : Cards) (history : History)
            → StandsFor self.now question west history → result ≡ class_turn_at question (after question history) }
    {
        self.turn_now()
    }

    /// Whether nothing that may still come changes what the play is worth: no trick is in progress,
    /// and no lead is legal, or the goal is met or out of reach.
    pub fn decided(&self) -> bool
        ensures value { result ≡ class_decided self.now }
        ensures cards { (question : Question) (west : Cards) (history : History)
            → StandsFor self.now question west history → result ≡ is_decided question (after question history) }
    {
        self.is_decided()
    }

    /// The moves, in their order, where West was dealt these counts of the defenders' classes.
    pub fn moves(&self, counts: &[u8]) -> ArrayVec<ClassMove, MOST_CLASSES>
        ensures value { result.items ≡ class_moves self.now counts.now }
        ensures cards { (question : Question) (west : Cards) (history : History)
            → StandsFor self.now question west history → counts.now ≡ counts_of (hands_of question) west
            → result.items ≡ merged_moves question west history }
    {
        self.moves_for(counts)
    }

    /// The position after a move. A move of the wrong kind changes nothing: a follow or a showing out
    /// between tricks, or a lead to a trick in progress. No history that counts allow is longer than `MOST_MOVES`.
    pub fn step(&self, mv: ClassMove) -> ClassPlace
        ensures { (question : Question) (history : ClassHistory) → length history ≤ MOST_MOVES
            → self.now ≡ class_after question history → result ≡ class_after question (history ++ mv ∷ []) }
    {
        ClassPlace {
            view: self.view.step(mv),
        }
    }

    /// What the tricks won are worth.
    pub fn payoff(&self) -> u64
        ensures value { result ≡ class_payoff self.now }
        ensures cards { (question : Question) (west : Cards) (history : History)
            → StandsFor self.now question west history → result ≡ payoff question.goal (after question history).won }
    {
        self.worth()
    }
}

impl ClassPlace {
    // Who is on turn.
    fn turn_now(&self) -> ClassTurn
        ensures value { result ≡ class_turn self.now }
        ensures over { result ≡ Decided ↔ (class_decided self.now ≡ true) }
    {
        if self.is_decided() {
            return ClassTurn::Decided;
        }
        turn_of(self.view.trick)
    }

    // Whether the position is decided.
    fn is_decided(&self) -> bool
        ensures { result ≡ class_decided self.now }
    {
        match self.view.trick {
            ClassTrick::Open { .. } => false,
            ClassTrick::Closed => !self.has_lead() || self.is_goal_settled(),
        }
    }

    // The moves, where West was dealt these counts.
    fn moves_for(&self, counts: &[u8]) -> ArrayVec<ClassMove, MOST_CLASSES>
        ensures { result.items ≡ class_moves self.now counts.now }
    {
        match self.view.trick {
            ClassTrick::Closed => self.leads(),
            ClassTrick::Open { turn, .. } => match turn {
                Seat::N => follows_of(&self.view.north),
                Seat::S => follows_of(&self.view.south),
                Seat::W => follows_of(&self.left_to_west(counts)),
                Seat::E => follows_of(&self.left_to_east(counts)),
            },
        }
    }

    // What the tricks won are worth.
    fn worth(&self) -> u64
        ensures { result ≡ class_payoff self.now }
    {
        match self.view.goal {
            Goal::AtLeast(least) => { if self.view.won >= least { 1 } else { 0 } }
            Goal::Tricks => self.view.won as u64,
        }
    }

    // Whether some lead is legal where no trick is in progress.
    fn has_lead(&self) -> bool
        ensures { result ≡ has_class_lead self.now }
    {
        let from_north = may_lead(self.view.lead, self.view.entries_n, Seat::N)
            && self.view.cards_n > 0;
        let from_south = may_lead(self.view.lead, self.view.entries_s, Seat::S)
            && self.view.cards_s > 0;
        from_north || from_south
    }

    // Whether the goal is met, or out of reach.
    fn is_goal_settled(&self) -> bool
        ensures { result ≡ is_goal_settled self.now.goal self.now.won (max self.now.cards_n self.now.cards_s) }
    {
        match self.view.goal {
            Goal::AtLeast(least) => {
                let longer = self.view.cards_n.max(self.view.cards_s);
                self.view.won >= least || self.view.won as u16 + (longer as u16) < least as u16
            }
            Goal::Tricks => false,
        }
    }

    // The leads, those of North first.
    fn leads(&self) -> ArrayVec<ClassMove, MOST_CLASSES>
        ensures { result.items ≡ class_leads self.now }
    {
        let mut leads = ArrayVec::new();
        if may_lead(self.view.lead, self.view.entries_n, Seat::N) {
            add_leads(&mut leads, Seat::N, &self.view.north);
        }
        if may_lead(self.view.lead, self.view.entries_s, Seat::S) {
            add_leads(&mut leads, Seat::S, &self.view.south);
        }
        leads
    }

    // How many cards of each class West has left.
    fn left_to_west(&self, counts: &[u8]) -> CardsByClass
        ensures { (class : ℕ) → class < MOST_CLASSES
            → slice_index result class ≡ left self.now counts.now Seat.W class }
    {
        let mut left = [0; MOST_CLASSES];
        let mut index = 0;
        for class in 0..MOST_CLASSES {
            if self.view.defence[class] > 0 {
                left[class] = count_at(counts, index).saturating_sub(self.view.gone_w[class]);
                index += 1;
            }
        }
        left
    }

    // How many cards of each class East has left.
    fn left_to_east(&self, counts: &[u8]) -> CardsByClass
        ensures { (class : ℕ) → class < MOST_CLASSES
            → slice_index result class ≡ left self.now counts.now Seat.E class }
    {
        let mut left = [0; MOST_CLASSES];
        let mut index = 0;
        for class in 0..MOST_CLASSES {
            if self.view.defence[class] > 0 {
                let dealt = self.view.defence[class].saturating_sub(count_at(counts, index));
                left[class] = dealt.saturating_sub(self.view.gone_e[class]);
                index += 1;
            }
        }
        left
    }
}

// Who is on turn where play goes on.
fn turn_of(trick: ClassTrick) -> ClassTurn
    ensures { result ≡ turn_of trick }
{
    match trick {
        ClassTrick::Closed => ClassTurn::Lead,
        ClassTrick::Open { turn, .. } => match turn {
            Seat::N | Seat::S => ClassTurn::Declarer(turn),
            Seat::E | Seat::W => ClassTurn::Defence(turn),
        },
    }
}

// The count at an index, and past the end none.
fn count_at(counts: &[u8], index: usize) -> u8
    ensures { result ≡ slice_index counts.now index }
{
    if index < counts.len() {
        counts[index]
    } else {
        0
    }
}

// Whether declarer may lead from a hand, to which so many entries are left.
fn may_lead(lead: LeadAt, entries: Entries, seat: Seat) -> bool
    ensures { result ≡ may_lead lead entries seat }
{
    lead.stands_at(seat) || entries.has_entry()
}
