//! Writing a question text.
ghost use Rattle.std.specs.Prelude.{◌≡◌, ◌++◌, Ok, IfOk, OnOk, string_bytes};
ghost use Rattle.std.specs.List.{flat_map};
ghost use Rattle.suit_game.specs.Validity.{IsValid};
ghost use Rattle.suit_question.specs.Reading.{question_read};
ghost use Rattle.suit_question.specs.Writing.{hand_lines, place_lines, goal_lines, lead_text, text_written};
ghost use Rattle.suit_text.specs.Writing.{line_text};

use crate::Memory;
use std::alloc::Global;
use std::fmt;
use std::fmt::Write;
use suit_game::{Entries, Goal, LeadAt, Question};

/// Writes a question: eleven lines in their fixed order, each a keyword and its values, one space apart, and a line
/// feed after each. Hands go from the highest card down, a void is `-`, and no number begins with a zero that it can
/// do without. What is written for a valid question reads back as it.
///
/// # Errors
///
/// Want of memory.
pub fn question_text(alloc: Global, question: &Question) -> Result<Vec<u8>, Memory>
    ensures text { IfOk result (λ text. text.items ≡ text_written question.now) }
    ensures reads_back { IsValid question.now → IfOk result (λ text. question_read text.items ≡ Ok question.now) }
{
    let mut text = String::new(alloc);
    write_hands(&mut text, question)?;
    write_places(&mut text, question)?;
    write_goal(&mut text, question)?;
    Ok(text.into_bytes())
}

/// The lines of the hands and of the lead.
#[tactic(auto, unfolding(suit_text::specs::Writing::line_text))]
fn write_hands(text: &mut String, question: &Question) -> Result<(), Memory>
    ensures { OnOk result (string_bytes text.new
        ≡ string_bytes text.old ++ flat_map line_text (hand_lines question.now)) }
{
    writeln!(text, "north {}", question.north.text())?;
    writeln!(text, "south {}", question.south.text())?;
    writeln!(text, "start {}", lead_word(question.start))?;
    writeln!(text, "regain {}", lead_word(question.regain))
}

/// The lines of the entries, the vacant places and West's range.
#[tactic(auto, unfolding(suit_text::specs::Writing::line_text))]
fn write_places(text: &mut String, question: &Question) -> Result<(), Memory>
    ensures { OnOk result (string_bytes text.new
        ≡ string_bytes text.old ++ flat_map line_text (place_lines question.now)) }
{
    let north = EntriesWord(question.entries_n);
    let south = EntriesWord(question.entries_s);
    writeln!(text, "entries {north} {south}")?;
    writeln!(text, "vacant {} {}", question.vacant_w, question.vacant_e)?;
    writeln!(text, "west {} {}", question.west_least, question.west_most)
}

/// The lines of the goal and the budgets, and the end.
#[tactic(auto, unfolding(suit_text::specs::Writing::line_text))]
fn write_goal(text: &mut String, question: &Question) -> Result<(), Memory>
    ensures { OnOk result (string_bytes text.new
        ≡ string_bytes text.old ++ flat_map line_text (goal_lines question.now)) }
{
    writeln!(text, "goal {}", GoalWord(question.goal))?;
    writeln!(text, "nodes {}", question.nodes)?;
    writeln!(text, "pivots {}", question.pivots)?;
    writeln!(text, "end")
}

/// Where the lead stands, as a word.
fn lead_word(lead: LeadAt) -> &'static str
    ensures { result.now ≡ lead_text lead }
{
    match lead {
        LeadAt::N => "N",
        LeadAt::S => "S",
        LeadAt::Either => "either",
    }
}

/// Entries, as a word.
#[derive(Clone, Copy)]
struct EntriesWord(Entries);

impl fmt::Display for EntriesWord {
    ghost use Rattle.std.specs.Prelude.{Some};
    ghost use Rattle.suit_question.specs.Writing.{entries_text};

    ghost output = { λ word. Some (entries_text word.0) };

    fn fmt<W: fmt::Write>(&self, f: &mut fmt::Formatter<W>) -> fmt::Result {
        match self.0 {
            Entries::Free => f.write_str("free"),
            Entries::Count(left) => write!(f, "{left}"),
        }
    }
}

/// A goal, as a word.
#[derive(Clone, Copy)]
struct GoalWord(Goal);

impl fmt::Display for GoalWord {
    ghost use Rattle.std.specs.Prelude.{Some};
    ghost use Rattle.suit_question.specs.Writing.{goal_text};

    ghost output = { λ word. Some (goal_text word.0) };

    fn fmt<W: fmt::Write>(&self, f: &mut fmt::Formatter<W>) -> fmt::Result {
        match self.0 {
            Goal::Tricks => f.write_str("tricks"),
            Goal::AtLeast(least) => write!(f, "{least}"),
        }
    }
}
