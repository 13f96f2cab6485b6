//! The words of moves, of class histories and of shares.
ghost use Rattle.std.specs.Prelude.{◌≡◌, ◌++◌, ◌<◌, ◌≤◌, nat_lt, [], length, All, OnOk, if◌then◌else◌};
ghost use Rattle.suit_answer.specs.Writable.{IsWritableMove};
ghost use Rattle.suit_classes.specs.ClassPlaces.{class_start};
ghost use Rattle.suit_game.specs.declared.limits.TheConstants.{MOST_MOVES};
ghost use Rattle.suit_lines.specs.Sentences.{choice_words, move_words, opening, part_words, seat_name};
ghost use Rattle.suit_lines.specs.Sentences.{move_share_words};
ghost use Rattle.suit_lines.specs.Sentences.{turn_name};

use super::Memory;
use suit_answer::{ClassLetters, write_number};
use suit_cards::Seat;
use suit_classes::{ClassMove, ClassPlace, ClassTurn, Classes};
use suit_game::Question;

/// The name of a seat.
fn seat_name(seat: Seat) -> &'static [u8]
    ensures { result.now ≡ seat_name seat }
{
    match seat {
        Seat::N => b"North",
        Seat::E => b"East",
        Seat::S => b"South",
        Seat::W => b"West",
    }
}

/// The name of the seat that is to follow.
fn turn_name(turn: ClassTurn) -> &'static [u8]
    ensures { result.now ≡ turn_name turn }
{
    match turn {
        ClassTurn::Declarer(seat) | ClassTurn::Defence(seat) => seat_name(seat),
        ClassTurn::Lead | ClassTurn::Decided => b"",
    }
}

/// Writes the words of a move that is made at a turn.
fn write_move(
    text: &mut Vec<u8>,
    letters: &ClassLetters,
    turn: ClassTurn,
    mv: ClassMove,
) -> Result<(), Memory>
    requires { IsWritableMove (length letters.now) mv }
    ensures { OnOk result (text.new.items ≡ text.old.items ++ move_words letters.now turn mv) }
{
    match mv {
        ClassMove::Lead { seat, class } => {
            text.extend_from_slice(seat_name(seat))?;
            text.extend_from_slice(b" leads ")?;
            text.push(letters.letter(class))?;
        }
        ClassMove::Follow { class } => {
            text.extend_from_slice(turn_name(turn))?;
            text.extend_from_slice(b" plays ")?;
            text.push(letters.letter(class))?;
        }
        ClassMove::ShowOut => {
            text.extend_from_slice(turn_name(turn))?;
            text.extend_from_slice(b" shows out")?;
        }
    }
    Ok(())
}

/// Writes what stands between texts, unless the first of them is to come.
fn write_between(text: &mut Vec<u8>, index: usize, between: &[u8]) -> Result<(), Memory>
    ensures { OnOk result (text.new.items ≡ text.old.items ++ (if nat_lt 0 index then between.now else [])) }
{
    if index > 0 {
        text.extend_from_slice(between)?;
    }
    Ok(())
}

/// Writes how the line of a class history opens.
pub(crate) fn write_opening(
    text: &mut Vec<u8>,
    letters: &ClassLetters,
    question: &Question,
    history: &[ClassMove],
) -> Result<(), Memory>
    requires short { length history.now ≤ MOST_MOVES }
    requires writable { All (IsWritableMove (length letters.now)) history.now }
    ensures { OnOk result (text.new.items
        ≡ text.old.items ++ opening letters.now (class_start question.now) history.now) }
{
    if history.is_empty() {
        text.extend_from_slice(b"At the start: ")?;
        return Ok(());
    }
    text.extend_from_slice(b"After ")?;
    let mut place = ClassPlace::start(question, &Classes::of(question));
    for index in 0..history.len() {
        write_between(text, index, b", ")?;
        write_move(text, letters, place.turn(), history[index])?;
        place = place.step(history[index]);
    }
    text.extend_from_slice(b": ")?;
    Ok(())
}

/// Writes how much of the mass at a turn a move gets.
fn write_part(text: &mut Vec<u8>, mass: i128, count: i128) -> Result<(), Memory>
    ensures { OnOk result (text.new.items ≡ text.old.items ++ part_words mass count) }
{
    text.extend_from_slice(b" ")?;
    write_number(text, count)?;
    text.extend_from_slice(b" of ")?;
    write_number(text, mass)?;
    Ok(())
}

/// Writes a move with its share of the mass at a turn, which is told where the mass is split.
fn write_share(
    text: &mut Vec<u8>,
    letters: &ClassLetters,
    turn: ClassTurn,
    mass: i128,
    split: bool,
    share: (ClassMove, i128),
) -> Result<(), Memory>
    requires { IsWritableMove (length letters.now) share.0 }
    ensures { OnOk result (text.new.items ≡ text.old.items ++ move_share_words letters.now turn mass split share) }
{
    write_move(text, letters, turn, share.0)?;
    if split {
        write_part(text, mass, share.1)?;
    }
    Ok(())
}

/// Writes all shares of the mass at a turn.
pub(crate) fn write_choice(
    text: &mut Vec<u8>,
    letters: &ClassLetters,
    turn: ClassTurn,
    mass: i128,
    shares: &[(ClassMove, i128)],
) -> Result<(), Memory>
    requires { All (λ share. IsWritableMove (length letters.now) share.0) shares.now }
    ensures { OnOk result (text.new.items ≡ text.old.items ++ choice_words letters.now turn mass shares.now) }
{
    let split = shares.len() > 1;
    for index in 0..shares.len() {
        write_between(text, index, b"; ")?;
        write_share(text, letters, turn, mass, split, shares[index])?;
    }
    Ok(())
}
