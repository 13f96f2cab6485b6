//! A question in the making, as thirteen columns that each have a value or none.
ghost use Rattle.std.specs.Prelude.{◌≡◌, IfOk, IfErr, OnOk, OnErr, Ok, Err};
ghost use Rattle.suit_game.specs.Validity.{IsValid};
ghost use Rattle.suit_question.specs.Columns.{AreInRange, no_columns, put_once, column_put};
ghost use Rattle.suit_question.specs.Columns.{both_put, question_of, judged, finished};
ghost use Rattle.suit_question.specs.Ranges.{HasRanges};

use crate::column::Column;
use crate::faults::QuestionKind;
use crate::values::{count_in, entries_in, goal_in, holding_in, lead_in, number_from};
use suit_cards::Holding;
use suit_game::{
    DEFAULT_NODES, DEFAULT_PIVOTS, Entries, Goal, HAND_SIZE, LeadAt, MOST_NODES, MOST_PIVOTS,
    Question, total_within,
};

/// The columns of a question, in the order of their numbers, from 1 on.
#[derive(Clone, Copy, Debug)]
pub struct Columns {
    /// North's cards.
    pub north: Option<Holding>,
    /// South's cards.
    pub south: Option<Holding>,
    /// Where the lead stands first.
    pub start: Option<LeadAt>,
    /// Where the lead stands after a trick that the defenders won.
    pub regain: Option<LeadAt>,
    /// The entries to North's hand.
    pub entries_n: Option<Entries>,
    /// The entries to South's hand.
    pub entries_s: Option<Entries>,
    /// How many cards of West's are not known.
    pub vacant_w: Option<u8>,
    /// How many cards of East's are not known.
    pub vacant_e: Option<u8>,
    /// The fewest cards of the suit that West may hold.
    pub west_least: Option<u8>,
    /// The most cards of the suit that West may hold.
    pub west_most: Option<u8>,
    /// What declarer plays for.
    pub goal: Option<Goal>,
    /// The budget of nodes.
    pub nodes: Option<u32>,
    /// The budget of pivots.
    pub pivots: Option<u32>,
}

/// Puts a value where none stands yet. A fault leaves what stood there.
fn put_first<T: Copy + Drop>(
    value: &mut Option<T>,
    read: Result<T, QuestionKind>,
) -> Result<(), QuestionKind>
    ensures ok { OnOk result (put_once value.old read ≡ Ok value.new) }
    ensures fault { IfErr result (λ kind. put_once value.old read ≡ Err kind) }
    ensures unchanged { OnErr result (value.new ≡ value.old) }
{
    if value.is_some() {
        return Err(QuestionKind::Repeated);
    }
    *value = Some(read?);
    Ok(())
}

impl Columns {
    /// No column has a value.
    pub fn new() -> Columns
        ensures value { result ≡ no_columns }
        ensures range { AreInRange result }
    {
        Columns {
            north: None,
            south: None,
            start: None,
            regain: None,
            entries_n: None,
            entries_s: None,
            vacant_w: None,
            vacant_e: None,
            west_least: None,
            west_most: None,
            goal: None,
            nodes: None,
            pivots: None,
        }
    }

    /// Reads a word as the value of a column, and keeps the others. A fault changes nothing.
    pub fn put(&mut self, column: Column, text: &[u8]) -> Result<(), QuestionKind>
        ensures ok { OnOk result (column_put self.old column text.now ≡ Ok self.new) }
        ensures fault { IfErr result (λ kind. column_put self.old column text.now ≡ Err kind) }
        ensures unchanged { OnErr result (self.new ≡ self.old) }
        ensures range { AreInRange self.old → AreInRange self.new }
    {
        match column {
            Column::North => put_first(&mut self.north, holding_in(text)),
            Column::South => put_first(&mut self.south, holding_in(text)),
            Column::Start => put_first(&mut self.start, lead_in(text)),
            Column::Regain => put_first(&mut self.regain, lead_in(text)),
            Column::EntriesN => put_first(&mut self.entries_n, entries_in(text)),
            Column::EntriesS => put_first(&mut self.entries_s, entries_in(text)),
            Column::VacantW => put_first(&mut self.vacant_w, count_in(text)),
            Column::VacantE => put_first(&mut self.vacant_e, count_in(text)),
            Column::WestLeast => put_first(&mut self.west_least, count_in(text)),
            Column::WestMost => put_first(&mut self.west_most, count_in(text)),
            Column::Goal => put_first(&mut self.goal, goal_in(text)),
            Column::Nodes => put_first(&mut self.nodes, number_from(1, MOST_NODES, text)),
            Column::Pivots => put_first(&mut self.pivots, number_from(0, MOST_PIVOTS, text)),
        }
    }

    /// Reads two words as the values of two columns, from left to right.
    pub fn put_both(
        &mut self,
        first: Column,
        left: &[u8],
        second: Column,
        right: &[u8],
    ) -> Result<(), QuestionKind>
        ensures ok { OnOk result (both_put self.old first left.now second right.now ≡ Ok self.new) }
        ensures fault { IfErr result (λ kind. both_put self.old first left.now second right.now ≡ Err kind) }
        ensures range { AreInRange self.old → AreInRange self.new }
    {
        self.put(first, left)?;
        self.put(second, right)
    }

    /// The question of the columns.
    pub fn finish(self) -> Result<Question, QuestionKind>
        requires { AreInRange self }
        ensures value { result ≡ finished self }
        ensures valid { IfOk result IsValid }
    {
        let north = self.north.ok_or(QuestionKind::NoLine)?;
        let south = self.south.ok_or(QuestionKind::NoLine)?;
        let goal = self.goal.ok_or(QuestionKind::NoLine)?;
        judged(self.question(north, south, goal))
    }

    /// The question of two hands, a goal and the other columns.
    fn question(self, north: Holding, south: Holding, goal: Goal) -> Question
        ensures { result ≡ question_of self north south goal }
    {
        Question {
            north,
            south,
            start: self.start.unwrap_or(LeadAt::Either),
            regain: self.regain.unwrap_or(LeadAt::Either),
            entries_n: self.entries_n.unwrap_or(Entries::Free),
            entries_s: self.entries_s.unwrap_or(Entries::Free),
            vacant_w: self.vacant_w.unwrap_or(HAND_SIZE),
            vacant_e: self.vacant_e.unwrap_or(HAND_SIZE),
            west_least: self.west_least.unwrap_or(0),
            west_most: self.west_most.unwrap_or(HAND_SIZE),
            goal,
            nodes: self.nodes.unwrap_or(DEFAULT_NODES),
            pivots: self.pivots.unwrap_or(DEFAULT_PIVOTS),
        }
    }
}

/// A question whose single values are in their ranges, or what is wrong with it as a whole.
fn judged(question: Question) -> Result<Question, QuestionKind>
    requires { HasRanges question }
    ensures value { result ≡ judged question }
    ensures valid { IfOk result IsValid }
{
    if question.north.shares(question.south) {
        return Err(QuestionKind::Shared);
    }
    if question.north.len() + question.south.len() == 0 {
        return Err(QuestionKind::Empty);
    }
    if question.west_least > question.west_most {
        return Err(QuestionKind::Range);
    }
    if question.missing().len() > question.vacant_w + question.vacant_e {
        return Err(QuestionKind::Vacant);
    }
    if total_within(&question) == 0 {
        return Err(QuestionKind::NoLayout);
    }
    Ok(question)
}
