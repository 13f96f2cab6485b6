//! The text of a program: a comment that states its pivots, the objective, and the rows. The columns
//! are named by a letter and a number from 1.
use anyhow::{Context, Result};
use std::alloc::Global;
use std::mem;
use suit_linear::{Entries, Entry, Numbers, SparseProgram, SparseRow, SparseRows};

// What the next words are.
#[derive(Clone, Copy)]
enum Part {
    Head,
    Pivots,
    Objective,
    Rows,
    Bound,
    End,
}

#[derive(Drop)]
struct Reader {
    part: Part,
    pivots: u32,
    negative: bool,
    number: i64,
    costs: Vec<i128>,
    // The row that is read, and those before it.
    entries: Vec<Entry>,
    rows: Vec<SparseRow>,
}

// The program that a text tells, and how many pivots it states.
pub(crate) fn read_program(alloc: Global, text: &str) -> Result<(SparseProgram, u32)> {
    let mut reader = Reader {
        part: Part::Head,
        pivots: 0,
        negative: false,
        number: 0,
        costs: Vec::new(alloc),
        entries: Vec::new(alloc),
        rows: Vec::new(alloc),
    };
    for word in text.split_whitespace() {
        reader.take(alloc, word)?;
    }
    let program = SparseProgram {
        costs: Numbers::of(reader.costs),
        rows: SparseRows::of(reader.rows),
    };
    Ok((program, reader.pivots))
}

impl Reader {
    fn take(&mut self, alloc: Global, word: &str) -> Result<()> {
        match self.part {
            Part::End => {}
            Part::Pivots => {
                self.pivots = word.parse::<u32>().context("the pivots")?;
                self.part = Part::Head;
            }
            Part::Bound => {
                let bound = i128::from(word.parse::<u32>().context("a bound")?);
                self.part = Part::Rows;
                return self.end_row(alloc, bound);
            }
            Part::Head | Part::Objective | Part::Rows => return self.take_plain(word),
        }
        Ok(())
    }

    fn take_plain(&mut self, word: &str) -> Result<()> {
        match word {
            "pivots" => self.part = Part::Pivots,
            "Maximize" => self.part = Part::Objective,
            "Subject" => self.part = Part::Rows,
            "Bounds" => self.part = Part::End,
            "<=" => self.part = Part::Bound,
            "+" => self.negative = false,
            "-" => self.negative = true,
            _ => return self.take_term(word),
        }
        Ok(())
    }

    // The number or the column of a term. The names of rows and all other words say nothing.
    fn take_term(&mut self, word: &str) -> Result<()> {
        if let Ok(number) = word.parse::<u32>() {
            self.number = i64::from(number);
        } else if let Some(name) = word.strip_prefix('v').or(word.strip_prefix('x')) {
            let number = name.parse::<u16>().context("a column")?;
            if let Some(column) = number.checked_sub(1) {
                return self.end_term(column);
            }
        }
        Ok(())
    }

    fn end_term(&mut self, column: u16) -> Result<()> {
        let number = if self.negative {
            self.number.saturating_neg()
        } else {
            self.number
        };
        let index = usize::from(column);
        for _ in self.costs.len()..index + 1 {
            self.costs.push(0)?;
        }
        if let Part::Rows = self.part {
            let column = u32::from(column);
            self.entries.push(Entry { column, number })?;
        } else if let Some(cost) = self.costs.get_mut(index) {
            *cost = i128::from(number);
        }
        Ok(())
    }

    fn end_row(&mut self, alloc: Global, bound: i128) -> Result<()> {
        let entries = mem::replace(&mut self.entries, Vec::new(alloc));
        self.rows.push(SparseRow {
            entries: Entries::of(entries),
            bound,
        })?;
        Ok(())
    }
}
