//! Which moves a defender may make.
ghost use Rattle.std.specs.Prelude.{◌≡◌, ◌<◌, ◌||◌, ℕ, false, get_or};
ghost use Rattle.suit_classes.specs.declared.class_moves.ClassMove.TheVariants.{Follow, ShowOut};
ghost use Rattle.suit_classes.specs.ClassMoves.{same_class_move};
ghost use Rattle.suit_tree.specs.Growing.{Tells, is_offered};
ghost use Rattle.suit_classes.specs.declared.classes.TheConstants.{MOST_CLASSES};

use suit_classes::{ClassMove, MOST_CLASSES};

/// The moves of a defender, to be asked for one by one: which follows are among them, and whether showing out is.
#[derive(Clone, Copy, Debug)]
pub(crate) struct Offers {
    follows: [bool; MOST_CLASSES],
    shows_out: bool,
}

impl Offers {
    /// What some moves offer.
    pub(crate) fn of(moves: &[ClassMove]) -> Offers
        ensures { Tells result moves.now }
    {
        let mut offers = Offers {
            follows: [false; MOST_CLASSES],
            shows_out: false,
        };
        for mv in moves {
            offers.add(*mv);
        }
        offers
    }

    // One move more.
    fn add(&mut self, mv: ClassMove)
        ensures follows { (class : ℕ) → class < MOST_CLASSES
            → get_or self.new.follows class false
            ≡ (get_or self.old.follows class false || same_class_move (Follow class) mv) }
        ensures shows_out { self.new.shows_out ≡ (self.old.shows_out || same_class_move ShowOut mv) }
    {
        match mv {
            ClassMove::Lead { .. } => {}
            ClassMove::Follow { class } => {
                if (class as usize) < self.follows.len() {
                    self.follows[class as usize] = true;
                }
            }
            ClassMove::ShowOut => self.shows_out = true,
        }
    }

    /// Whether a move is among them. No defender leads.
    pub(crate) fn has(&self, mv: ClassMove) -> bool
        ensures { result ≡ is_offered self.now mv }
    {
        match mv {
            ClassMove::Lead { .. } => false,
            ClassMove::Follow { class } => {
                if (class as usize) < self.follows.len() {
                    self.follows[class as usize]
                } else {
                    false
                }
            }
            ClassMove::ShowOut => self.shows_out,
        }
    }
}
