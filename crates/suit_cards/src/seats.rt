//! The four seats of the table.
ghost use Rattle.std.specs.Prelude.{◌≡◌};
ghost use Rattle.suit_cards.specs.Seats.{clockwise};

/// A seat of the table: north, east, south or west.
#[derive(Clone, Copy, PartialEq, Eq, PartialOrd, Ord, Hash, Debug)]
pub enum Seat {
    N,
    E,
    S,
    W,
}

impl Seat {
    /// The seat to the left, which plays after this one.
    pub fn next(self) -> Seat
        ensures { result ≡ clockwise self }
    {
        match self {
            Seat::N => Seat::E,
            Seat::E => Seat::S,
            Seat::S => Seat::W,
            Seat::W => Seat::N,
        }
    }
}
