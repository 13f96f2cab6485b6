//! Digits, which both dialects read alike.
ghost use Rattle.std.specs.Prelude.{◌≡◌, ◌<◌, ◌^◌, IfSome};
ghost use Rattle.suit_text.specs.Digits.{digits_read};

/// The number that digits stand for, if it is below 2 to the power of 127. No digits at all stand for 0.
pub fn digits_in(text: &[u8]) -> Option<u128>
    ensures value { result ≡ digits_read text.now }
    ensures most { IfSome result (λ number. number < 2 ^ 127) }
{
    let mut number: u128 = 0;
    for byte in text {
        if !byte.is_ascii_digit() {
            return None;
        }
        number = number.checked_mul(10)?.checked_add((*byte - b'0') as u128)?;
    }
    if number > i128::MAX as u128 {
        return None;
    }
    Some(number)
}
