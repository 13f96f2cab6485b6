//! Products and differences that are refused where they are too wide.
ghost use Rattle.std.specs.Prelude.{◌*ℤ◌, ◌-ℤ◌, SomeIff};
ghost use Rattle.suit_num.specs.Narrow.{IsNarrow};

/// The product, or None exactly where its magnitude is above 2^127 - 1. So `i128::MIN` is refused.
pub fn mul(a: i128, b: i128) -> Option<i128>
    ensures { SomeIff result (IsNarrow (a *ℤ b)) (a *ℤ b) }
{
    // Most factors are small, and then the product needs no test.
    if let (Ok(x), Ok(y)) = (i64::try_from(a), i64::try_from(b)) {
        return Some(i128::from(x) * i128::from(y));
    }
    narrow(a.checked_mul(b)?)
}

/// The difference, or None exactly where its magnitude is above 2^127 - 1. So `i128::MIN` is refused.
pub fn sub(a: i128, b: i128) -> Option<i128>
    ensures { SomeIff result (IsNarrow (a -ℤ b)) (a -ℤ b) }
{
    narrow(a.checked_sub(b)?)
}

// `i128::MIN` is the one value whose magnitude is too wide.
fn narrow(value: i128) -> Option<i128>
    ensures { SomeIff result (IsNarrow value) value }
{
    if value == i128::MIN {
        None
    } else {
        Some(value)
    }
}
