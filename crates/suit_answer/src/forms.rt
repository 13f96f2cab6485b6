//! The forms of lines, told by their words.
ghost use Rattle.std.specs.Prelude.{◌≡◌, ◌==◌, [], ◌∷◌, option_map, position};
ghost use Rattle.std.specs.Str.{bytes_eq};
ghost use Rattle.suit_text.specs.Strict.{words_of, words_after};
ghost use Rattle.suit_answer.specs.Forms.{slash_sides, two_filled, value_form, header_form};
ghost use Rattle.suit_answer.specs.Forms.{is_value, are_pairs, are_shares, is_turn, is_layout_turn};

use suit_text::strict::{first_word, next_word};

/// The two words for the numbers of a line of a value.
pub fn value_form(line: &[u8]) -> Option<(&[u8], &[u8])>
    ensures { option_map (λ sides. (sides.0.now, sides.1.now)) result ≡ value_form (words_of line.now) }
{
    let keyword = first_word(line);
    if !is_word(keyword.front, b"value") {
        return None;
    }
    let value = next_word(keyword.rest)?;
    match next_word(value.rest) {
        None => slash_sides(value.front),
        Some(_) => None,
    }
}

/// The two sides of the one slash in a word.
#[tactic(auto, using(crate::proofs::Cuts::no_slash, crate::proofs::Cuts::two_slashes, crate::proofs::Cuts::one_slash))]
fn slash_sides(word: &[u8]) -> Option<(&[u8], &[u8])>
    ensures { option_map (λ sides. (sides.0.now, sides.1.now)) result ≡ slash_sides word.now }
{
    let at = slash_index(word)?;
    let (left, _) = word.split_at(at);
    let (_, right) = word.split_at(at + 1);
    match slash_index(right) {
        None => both_filled(left, right),
        Some(_) => None,
    }
}

/// Two texts, neither of which is empty.
fn both_filled<'a>(left: &'a [u8], right: &'a [u8]) -> Option<(&'a [u8], &'a [u8])>
    ensures { option_map (λ sides. (sides.0.now, sides.1.now)) result ≡ two_filled (left.now ∷ right.now ∷ []) }
{
    if left.is_empty() || right.is_empty() {
        return None;
    }
    Some((left, right))
}

/// The index of the first slash.
fn slash_index(word: &[u8]) -> Option<usize>
    ensures { result ≡ position (λ byte. byte == 47) word.now }
{
    word.iter().position(|byte| *byte == b'/')
}

/// The two words for the numbers of a line of a keyword and two numbers.
pub fn header_form<'a>(keyword: &[u8], line: &'a [u8]) -> Option<(&'a [u8], &'a [u8])>
    ensures { option_map (λ sides. (sides.0.now, sides.1.now)) result ≡ header_form keyword.now (words_of line.now) }
{
    let first = first_word(line);
    if !is_word(first.front, keyword) {
        return None;
    }
    let left = next_word(first.rest)?;
    let right = next_word(left.rest)?;
    match next_word(right.rest) {
        None => both_filled(left.front, right.front),
        Some(_) => None,
    }
}

/// Whether words are counts up to the first word `at`, and then a turn.
#[tactic(auto, unfolding(crate::specs::Forms::is_layout_turn))]
pub fn is_layout_turn(text: &[u8]) -> bool
    ensures { result ≡ is_layout_turn (words_after text.now) }
{
    let mut rest = text;
    while let Some(word) = next_word(rest) {
        rest = word.rest;
        if is_word(word.front, b"at") {
            return is_turn(rest);
        }
        if !is_value(word.front) {
            return false;
        }
    }
    false
}

/// Whether words are moves, then a colon, and then moves with counts.
#[tactic(auto, unfolding(crate::specs::Forms::is_turn))]
pub fn is_turn(text: &[u8]) -> bool
    ensures { result ≡ is_turn (words_after text.now) }
{
    let mut rest = text;
    while let Some(word) = next_word(rest) {
        rest = word.rest;
        if is_word(word.front, b":") {
            return are_shares(rest);
        }
        if word.front.is_empty() {
            return false;
        }
    }
    false
}

/// Whether there are words, and by twos.
fn are_shares(text: &[u8]) -> bool
    ensures { result ≡ are_shares (words_after text.now) }
{
    match next_word(text) {
        None => false,
        Some(_) => are_pairs(text),
    }
}

/// Whether words stand by twos.
#[tactic(auto, unfolding(crate::specs::Forms::are_pairs))]
fn are_pairs(text: &[u8]) -> bool
    ensures { result ≡ are_pairs (words_after text.now) }
{
    let mut rest = text;
    while let Some(mv) = next_word(rest) {
        let Some(count) = next_word(mv.rest) else {
            return false;
        };
        if !is_value(mv.front) || !is_value(count.front) {
            return false;
        }
        rest = count.rest;
    }
    true
}

/// Whether a word may stand for a number or a move in a row.
fn is_value(word: &[u8]) -> bool
    ensures { result ≡ is_value word.now }
{
    !word.is_empty() && !is_word(word, b":")
}

/// Whether a word is this one.
pub fn is_word(word: &[u8], wanted: &[u8]) -> bool
    ensures { result ≡ bytes_eq word.now wanted.now }
{
    word == wanted
}
