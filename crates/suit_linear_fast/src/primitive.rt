//! Numbers divided by their greatest common divisor.
ghost use Rattle.std.specs.Prelude.{◌≡◌, ◌<◌, ◌<ℤ◌, ◌≤ℤ◌, pos, int_div, unsigned_abs, length, All};
ghost use Rattle.suit_num.specs.Divisors.{gcd_of};
ghost use Rattle.suit_num.specs.Narrow.{IsNarrow};
ghost use Rattle.suit_linear.specs.Pivots.{content, primitive};

use suit_num::gcd;

// The greatest common divisor of the numbers. The search begins at a likely index for a divisor of 1,
// with which it ends.
fn common_divisor(numbers: &[i128], likely: usize) -> i128
    requires narrow { All IsNarrow numbers.now }
    requires within { likely < length numbers.now }
    ensures { result ≡ pos (content numbers.now) }
{
    let mut divisor = numbers[likely].abs();
    for number in numbers {
        if divisor == 1 {
            break;
        }
        divisor = divisor_with(divisor, *number);
    }
    divisor
}

// Most numbers are 0, and divide by everything.
fn divisor_with(divisor: i128, number: i128) -> i128
    requires narrow_divisor { IsNarrow divisor }
    requires narrow_number { IsNarrow number }
    requires not_negative { pos 0 ≤ℤ divisor }
    ensures { result ≡ pos (gcd_of (unsigned_abs divisor) (unsigned_abs number)) }
{
    if number == 0 {
        divisor
    } else {
        gcd(divisor, number)
    }
}

/// The numbers divided by their greatest common divisor, in place. The search for it begins at a
/// likely index for a divisor of 1, with which it ends.
pub fn make_primitive(numbers: &mut [i128], likely: usize)
    requires narrow { All IsNarrow numbers.old }
    requires within { likely < length numbers.old }
    requires some { 0 < content numbers.old }
    ensures value { numbers.new ≡ primitive numbers.old }
    ensures narrow { All IsNarrow numbers.new }
{
    let divisor = common_divisor(numbers, likely);
    if divisor == 1 {
        return;
    }
    for number in numbers.iter_mut() {
        *number = quotient(*number, divisor);
    }
}

// Most numbers are 0, which a division would take long to find.
fn quotient(number: i128, divisor: i128) -> i128
    requires { pos 0 <ℤ divisor }
    ensures { result ≡ int_div number divisor }
{
    if number == 0 { 0 } else { number / divisor }
}
