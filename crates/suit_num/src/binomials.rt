//! Binomial numbers.
ghost use Rattle.std.specs.Prelude.{◌≡◌, ◌≤◌};
ghost use Rattle.suit_num.specs.Binomials.{binomial};

/// The number of ways to choose `k` things from `n`, of which there are at most 26. It is 0 where
/// `k` is above `n`.
pub fn choose(n: u8, k: u8) -> u64
    requires { n ≤ 26 }
    ensures { result ≡ binomial n k }
{
    if k > n {
        return 0;
    }
    let mut ways: u64 = 1;
    for chosen in 0..k {
        // The product is a multiple of the divisor: both count the same choices in order.
        ways = ways * u64::from(n - chosen) / (u64::from(chosen) + 1);
    }
    ways
}
