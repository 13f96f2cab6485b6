//! The generator: a number that is carried on from draw to draw.
ghost use Rattle.std.specs.Prelude.{◌≡◌, ◌<◌, ◌/◌, ◌%◌};
ghost use Rattle.suit_gen.specs.Draws.{next};

/// Where the generator stands.
#[derive(Clone, Copy, Debug)]
pub struct Draws {
    /// Its state, which begins as the number of the table.
    pub state: u32,
}

impl Draws {
    /// Draws a number below a bound.
    pub fn draw(&mut self, bound: u32) -> u32
        requires { 0 < bound }
        ensures state { self.new.state ≡ next self.old.state }
        ensures drawn { result ≡ self.new.state / 65536 % bound }
        ensures below { result < bound }
    {
        self.state = self
            .state
            .wrapping_mul(1_664_525)
            .wrapping_add(1_013_904_223);
        // The low bits of such a generator come round soon, so the high ones are taken.
        (self.state >> 16) % bound
    }
}
