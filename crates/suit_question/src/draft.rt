//! A draft: a question that is put together column by column.
ghost use Rattle.std.specs.Prelude.{◌≡◌, Ok, Err, IfOk, IfErr, OnOk, OnErr};
ghost use Rattle.suit_game.specs.Validity.{IsValid};
ghost use Rattle.suit_question.specs.Columns.{IsColumn, column_numbered, no_columns, column_put, finished, told_at};

use crate::column::Column;
use crate::columns::Columns;
use crate::faults::QuestionFault;
use std::marker::Model;
use suit_game::Question;

/// A question in the making, in contracts a record of thirteen columns, some of them filled: 1 and 2 are the hands of
/// North and South, 3 and 4 where the lead stands first and after a lost trick, 5 and 6 the entries to North and
/// South, 7 and 8 the vacant places of West and East, 9 and 10 the least and the most cards with West, 11 the goal,
/// 12 and 13 the budgets of nodes and pivots.
#[derive(Clone, Copy, Debug)]
pub struct Draft {
    columns: Columns,
}

impl Model for Draft {
    ghost use Rattle.suit_question.specs.Columns.{AreInRange};
    ghost use Rattle.suit_question.specs.declared.columns.Columns.{Columns};

    ghost Value = { Columns };

    ghost view = { λ draft. draft.columns };

    ghost invariant = { λ draft. AreInRange draft.columns };

    ghost inverse = { λ columns. record { columns = columns } };
}

impl Draft {
    /// No column has a value.
    pub fn new() -> Draft
        ensures { result ≡ no_columns }
    {
        Draft {
            columns: Columns::new(),
        }
    }

    /// Reads a word as the value of one column, and keeps the others. A fault is told of the given line, and leaves
    /// the draft as it was. It is Repeated where the column was put before, and else Rank or Twice for a holding that
    /// is none, Word where the lead is to be one of its words, Number where no number stands, and Range where one is
    /// too small or too large.
    pub fn put(&mut self, column: u8, text: &[u8], line: u32) -> Result<(), QuestionFault>
        requires { IsColumn column }
        ensures ok { OnOk result (column_put self.old (column_numbered column) text.now ≡ Ok self.new) }
        ensures fault { IfErr result (λ fault. column_put self.old (column_numbered column) text.now ≡ Err fault.kind) }
        ensures line { IfErr result (λ fault. fault.line ≡ line) }
        ensures unchanged { OnErr result (self.new ≡ self.old) }
    {
        let column = Column::numbered(column);
        self.columns.put(column, text).map_err(|kind| kind.at(line))
    }

    /// The question of the values put, and of the defaults of the others: either hand, free entries, 13 vacant places
    /// with each defender, 0 to 13 cards with West, 200,000 nodes and 100,000 pivots. A fault is told of the given
    /// line, the first of these: NoLine where a hand or the goal was not put, Shared where a card is in both hands,
    /// Empty where no card is in either, Range where West's least length is larger than the most, Vacant where there
    /// are fewer vacant places than missing cards, and NoLayout where no layout has a weight.
    pub fn finish(self, line: u32) -> Result<Question, QuestionFault>
        ensures value { result ≡ told_at line (finished self) }
        ensures valid { IfOk result IsValid }
    {
        self.columns.finish().map_err(|kind| kind.at(line))
    }
}
