//! Questions that tests ask, by their hands.
use std::test::Fail;
use suit_cards::Holding;
use suit_game::{Goal, Question};

/// The question of two hands and a goal, all else at its default.
pub fn asked(north: &'static str, south: &'static str, goal: Goal) -> Result<Question, Fail> {
    let north = Holding::read(north.as_bytes()).ok().ok_or(north)?;
    let south = Holding::read(south.as_bytes()).ok().ok_or(south)?;
    Ok(Question::plain(north, south, goal))
}
