//! Lists of numbers that are mostly 0.
ghost use Rattle.std.specs.Prelude.{◌≡◌, ℕ, ℤ, pos, ◌+ℤ◌, ◌*ℤ◌, length, All, IsTrue, IfSome};
ghost use Rattle.suit_linear.specs.Points.{number_at};
ghost use Rattle.suit_linear_fast.specs.Cells.{number_in};

// A number at an index.
#[derive(Clone, Copy)]
pub(crate) struct Cell {
    pub(crate) index: usize,
    pub(crate) number: i64,
}

// A multiple of sparse numbers is added to a list. False where a number does not fit, and then
// nothing is said of the list.
pub(crate) fn add_multiple(numbers: &mut [i64], cells: &[Cell], factor: i64) -> bool
    ensures length { length numbers.new ≡ length numbers.old }
    ensures value { IsTrue result → (index : ℕ) → number_at numbers.new index
        ≡ number_at numbers.old index +ℤ factor *ℤ number_in cells.now index }
{
    for cell in cells {
        if cell.index >= numbers.len() {
            return false;
        }
        let Some(sum) = added(numbers[cell.index], factor, cell.number) else {
            return false;
        };
        numbers[cell.index] = sum;
    }
    true
}

fn added(number: i64, factor: i64, times: i64) -> Option<i64>
    ensures { IfSome result (λ sum. sum ≡ number +ℤ factor *ℤ times) }
{
    number.checked_add(factor.checked_mul(times)?)
}

// All numbers become 0.
pub(crate) fn clear(numbers: &mut [i64])
    ensures length { length numbers.new ≡ length numbers.old }
    ensures value { (index : ℕ) → number_at numbers.new index ≡ pos 0 }
{
    for number in numbers.iter_mut() {
        *number = 0;
    }
}

pub(crate) fn all_zero(numbers: &[i64]) -> bool
    ensures { IsTrue result → (index : ℕ) → number_at numbers.now index ≡ pos 0 }
{
    for number in numbers {
        if *number != 0 {
            return false;
        }
    }
    true
}
