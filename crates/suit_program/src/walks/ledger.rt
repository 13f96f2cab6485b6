//! A program while it is written.
ghost use Rattle.std.specs.Prelude.{◌≡◌, ◌+◌, ◌<◌, ◌≤◌, ◌^◌, ◌==◌, length, map, pos, ◌*ℤ◌, ◌+ℤ◌, ◌-ℤ◌, OnOk, IfOk, suc};
ghost use Rattle.std.specs.Prelude.{if◌then◌else◌, Contains, negsuc, ◌≤ℤ◌};
ghost use Rattle.suit_game.specs.declared.limits.TheConstants.{HAND_SIZE, MOST_SUPPORT, MOST_TOTAL};
ghost use Rattle.suit_plans.specs.Properness.{sum_of};
ghost use Rattle.suit_program.specs.Walks.Ledgers.{Adds, Extends, IsFit, credit, given_in, in_each};
ghost use Rattle.suit_program.specs.declared.walks.ledger.Account.{Account};

use std::alloc::AllocError;
use suit_linear::Entry;

/// Where the worth of a class layout goes: to a row of a ledger, so many times.
#[derive(Clone, Copy, Debug)]
pub(crate) struct Account {
    /// The class layout, by its index.
    pub(crate) index: u8,
    /// The row.
    pub(crate) row: u32,
    /// How many times the worth is added to it.
    pub(crate) factor: i64,
}

/// A number that a column has in a row.
#[derive(Clone, Copy, Debug)]
pub(crate) struct Posting {
    /// The row.
    pub(crate) row: u32,
    /// The column and the number.
    pub(crate) entry: Entry,
}

/// The columns and rows that are written so far. What is posted to a row and a column adds up.
#[derive(Debug, Drop)]
pub(crate) struct Ledger {
    /// How many columns there are.
    pub(crate) columns: u32,
    /// How many rows there are.
    pub(crate) rows: u32,
    /// The numbers in them.
    pub(crate) postings: Vec<Posting>,
}

impl Ledger {
    /// Adds a number to a row.
    pub(crate) fn post(&mut self, row: u32, column: u32, number: i64) -> Result<(), AllocError>
        requires { row < self.old.rows }
        ensures extends { OnOk result (Extends self.old self.new 0 0) }
        ensures adds { OnOk result (Adds self.old self.new
            (λ given other. if row == other then number *ℤ given column else pos 0)) }
    {
        let entry = Entry { column, number };
        self.postings.push(Posting { row, entry })?;
        Ok(())
    }

    /// Adds a column to an account, so many times.
    pub(crate) fn credit(
        &mut self,
        account: Account,
        column: u32,
        times: u64,
    ) -> Result<(), AllocError>
        requires fit { IsFit self.old.rows account }
        requires few { times ≤ HAND_SIZE }
        ensures extends { OnOk result (Extends self.old self.new 0 0) }
        ensures adds { OnOk result (Adds self.old self.new
            (λ given row. credit row account (pos times *ℤ given column))) }
    {
        self.post(account.row, column, multiplied(account.factor, times))?;
        Ok(())
    }

    /// Adds the payoff to accounts, for the mass in a column.
    pub(crate) fn pay(
        &mut self,
        payoff: u64,
        mass: u32,
        accounts: &[Account],
    ) -> Result<(), AllocError>
        requires fit { (account : Account) → Contains accounts.now account → IsFit self.old.rows account }
        requires few { payoff ≤ HAND_SIZE }
        ensures extends { OnOk result (Extends self.old self.new 0 0) }
        ensures adds { OnOk result (Adds self.old self.new
            (λ given row. sum_of (map (λ account. credit row account (pos payoff *ℤ given mass)) accounts.now))) }
    {
        for account in accounts {
            self.credit(*account, mass, payoff)?;
        }
        Ok(())
    }

    /// Writes the columns of so many moves, and a row by which they pass on no more than the mass in a column. It
    /// answers the first of the columns.
    pub(crate) fn pass(&mut self, mass: u32, moves: u32) -> Result<u32, AllocError>
        requires columns { self.old.columns + moves ≤ MOST_SUPPORT }
        requires rows { self.old.rows ≤ MOST_SUPPORT }
        ensures extends { OnOk result (Extends self.old self.new moves 1) }
        ensures first { IfOk result (λ first. first ≡ self.old.columns) }
        ensures adds { OnOk result (Adds self.old self.new (λ given row. if self.old.rows == row
            then given_in given self.old.columns moves -ℤ given mass else pos 0)) }
    {
        let first = self.columns;
        let row = self.rows;
        self.columns += moves;
        self.rows += 1;
        self.post(row, mass, -1)?;
        for index in 0..moves {
            self.post(row, first + index, 1)?;
        }
        Ok(first)
    }

    /// Writes a column that adds to an account, and a row with it for each of so many moves. It answers the account of
    /// the first of these rows.
    pub(crate) fn hold(&mut self, account: Account, moves: u32) -> Result<Account, AllocError>
        requires fit { IsFit self.old.rows account }
        requires columns { self.old.columns < MOST_SUPPORT }
        requires rows { self.old.rows + moves ≤ suc MOST_SUPPORT }
        ensures extends { OnOk result (Extends self.old self.new 1 moves) }
        ensures opens { IfOk result (λ first. first
            ≡ record { index = account.index; row = self.old.rows; factor = negsuc 0 }) }
        ensures adds { OnOk result (Adds self.old self.new
            (λ given row. credit row account (given self.old.columns)
            +ℤ in_each self.old.rows moves (given self.old.columns) row)) }
    {
        let column = self.columns;
        let first = self.rows;
        self.columns += 1;
        self.rows += moves;
        self.credit(account, column, 1)?;
        for index in 0..moves {
            self.post(first + index, column, 1)?;
        }
        Ok(Account {
            index: account.index,
            row: first,
            factor: -1,
        })
    }
}

// So many times a factor.
fn multiplied(factor: i64, times: u64) -> i64
    requires low { negsuc 0 ≤ℤ factor }
    requires few { factor ≤ℤ pos MOST_TOTAL }
    requires times { times ≤ HAND_SIZE }
    ensures { result ≡ factor *ℤ pos times }
{
    factor * times as i64
}
