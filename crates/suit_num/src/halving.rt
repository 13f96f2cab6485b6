//! Greatest common divisors of positive numbers by shifts in place of divisions. Both numbers are
//! kept odd: then their difference is even, and its powers of 2 divide neither of them.
ghost use Rattle.std.specs.Prelude.{◌<◌};
ghost use Rattle.std.specs.Int.{IsGcd};

pub(crate) fn halving_gcd(a: u64, b: u64) -> u64
    requires positive_a { 0 < a }
    requires positive_b { 0 < b }
    ensures { IsGcd a b result }
{
    let twos = a.trailing_zeros().min(b.trailing_zeros());
    let mut x = a >> a.trailing_zeros();
    let mut y = b >> b.trailing_zeros();
    while x != y {
        let gap = x.abs_diff(y);
        y = x.min(y);
        x = gap >> gap.trailing_zeros();
    }
    x << twos
}

pub(crate) fn wide_halving_gcd(a: u128, b: u128) -> u128
    requires positive_a { 0 < a }
    requires positive_b { 0 < b }
    ensures { IsGcd a b result }
{
    let twos = a.trailing_zeros().min(b.trailing_zeros());
    let mut x = a >> a.trailing_zeros();
    let mut y = b >> b.trailing_zeros();
    while x != y {
        // The rest is left to 64 bits.
        if let (Ok(p), Ok(q)) = (u64::try_from(x), u64::try_from(y)) {
            return u128::from(halving_gcd(p, q)) << twos;
        }
        let gap = x.abs_diff(y);
        y = x.min(y);
        x = gap >> gap.trailing_zeros();
    }
    x << twos
}
