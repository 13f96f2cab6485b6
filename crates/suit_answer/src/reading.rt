//! Reading an answer text.
ghost use Rattle.std.specs.Prelude.{◌≡◌, ◌≤◌, ◌⊎◌, length, IfOk, IfErr, Ok, Err};
ghost use Rattle.suit_classes.specs.declared.classes.TheConstants.{MOST_DEFENCE_CLASSES};
ghost use Rattle.suit_text.specs.Strict.{pieces_of};
ghost use Rattle.suit_answer.specs.Reading.{version_due, end_due, answer_due, answer_read};
ghost use Rattle.suit_answer.specs.Results.{Gives};
ghost use Rattle.suit_answer.specs.Writable.{IsWritable};
ghost use Rattle.suit_answer.specs.Writing.{text_of};
ghost use Rattle.suit_answer.specs.declared.faults.AnswerFault.TheVariants.{Memory};

use crate::answer::Answer;
use crate::faults::{AnswerFault, ReadEnd};
use crate::forms::is_word;
use crate::letters::ClassLetters;
use crate::lines::next_line;
use crate::parts::{MOST_LINES, defence_due, plan_due};
use crate::values::value_due;
use std::alloc::Global;
use suit_classes::{Classes, MOST_DEFENCE_CLASSES};
use suit_game::Question;
use suit_text::MOST_TEXT;

/// Reads an answer to a question from its text: `answer 1`, the value, the plan, the defence, and `end`, each line
/// ended by a line feed and its words one space apart. A fault is that of the first line with one: Truncated where
/// the text ends within the line, Version where the first line is another, Line where the words do not have the form
/// that is due, then Number or Move for the first word that is wrong, Number too where the value is not in lowest
/// terms, and Count where a row of the defence has more or fewer counts than the defenders have classes. Tail is told
/// of the line after the end where anything stands there. What is read takes memory by what stands in the text, and
/// not by how many rows it promises.
///
/// # Errors
///
/// The first fault, or want of memory.
pub fn read_answer(alloc: Global, question: &Question, bytes: &[u8]) -> Result<Answer, AnswerFault>
    requires { length bytes.now ≤ MOST_TEXT }
    ensures value { IfOk result (λ answer. answer_read question.now bytes.now ≡ Ok answer) }
    ensures written { IfOk result (λ answer. bytes.now ≡ text_of question.now answer) }
    ensures writable { IfOk result (λ answer. IsWritable question.now answer) }
    ensures fault { IfErr result (λ fault. (answer_read question.now bytes.now ≡ Err fault) ⊎ (fault ≡ Memory)) }
{
    let letters = ClassLetters::of(question);
    let classes = Classes::of(question).defence();
    match answer_due(alloc, &letters, classes.len(), bytes) {
        Ok(answer) => Ok(answer),
        Err(ReadEnd::Memory) => Err(AnswerFault::Memory),
        Err(ReadEnd::Fault(fault)) => Err(fault),
    }
}

/// The answer of a text, where the letters of the classes are given, and how many classes the defenders have.
#[tactic(auto, unfolding(crate::specs::Reading::answer_due))]
fn answer_due(
    alloc: Global,
    letters: &ClassLetters,
    classes: usize,
    text: &[u8],
) -> Result<Answer, ReadEnd>
    requires few { classes ≤ MOST_DEFENCE_CLASSES }
    requires short { length text.now ≤ MOST_TEXT }
    ensures { Gives (λ answer. answer) result (answer_due letters.now classes (pieces_of text.now)) }
{
    let first = next_line(1, text)?;
    version_due(1, first.front)?;
    let second = next_line(2, first.rest)?;
    let value = value_due(2, second.front)?;
    let plan = plan_due(alloc, letters, 3, second.rest)?;
    let defence = defence_due(alloc, letters, classes, plan.line, plan.rest)?;
    end_due(defence.line, defence.rest)?;
    Ok(Answer {
        value,
        plan: plan.part,
        defence: defence.part,
    })
}

/// Whether the first line tells the version.
fn version_due(line: u32, text: &[u8]) -> Result<(), ReadEnd>
    ensures { Gives (λ x. x) result (version_due line text.now) }
{
    if is_word(text, b"answer 1") {
        Ok(())
    } else {
        Err(ReadEnd::Fault(AnswerFault::Version { line }))
    }
}

/// Whether the end is next, and nothing stands after it.
#[tactic(auto, unfolding(crate::specs::Reading::end_due), using(crate::proofs::Cuts::over_is))]
pub fn end_due(line: u32, text: &[u8]) -> Result<(), ReadEnd>
    requires { line ≤ MOST_LINES }
    ensures { Gives (λ x. x) result (end_due line (pieces_of text.now)) }
{
    let next = next_line(line, text)?;
    if !is_word(next.front, b"end") {
        return Err(ReadEnd::Fault(AnswerFault::Line { line }));
    }
    if !next.rest.is_empty() {
        return Err(ReadEnd::Fault(AnswerFault::Tail { line: line + 1 }));
    }
    Ok(())
}
