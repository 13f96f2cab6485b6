//! The ledger of a support's program.
ghost use Rattle.std.specs.Prelude.{◌≡◌, ◌≤◌, All, IfOk, [], get_or, length, map, pos};
ghost use Rattle.std.specs.List.{range_with_len};
ghost use Rattle.suit_game.specs.declared.limits.TheConstants.{MOST_TOTAL};
ghost use Rattle.suit_layouts.specs.declared.class_list.TheConstants.{MOST_CLASS_LAYOUTS};
ghost use Rattle.suit_program.specs.Walks.LedgerOf.{IsLedgerOf};
ghost use Rattle.suit_program.specs.Supports.Marks.{support_seen};
ghost use Rattle.suit_program.specs.Programs.Sized.{IsSized};

use crate::Support;
use crate::walks::ledger::{Account, Ledger};
use crate::walks::reach::Reach;
use crate::walks::writing::write;
use std::alloc::{AllocError, Global};
use suit_game::MOST_MOVES;
use suit_layouts::ClassLayout;
use suit_tree::Tree;

/// The column that stands for the number 1.
pub(crate) const ONE: u32 = u32::MAX;

/// The columns and rows of the program of a support, for the question whose tree is given.
pub(crate) fn ledger_of(alloc: Global, tree: &Tree, support: &Support) -> Result<Ledger, AllocError>
    requires { IsSized tree.now support.now }
    ensures { IfOk result (λ ledger. (case : IsSized tree.now support.now)
        → IsLedgerOf case.question (support_seen case.question support.now) ledger) }
{
    let mut ledger = Ledger {
        columns: 0,
        rows: 1,
        postings: Vec::new(alloc),
    };
    let reach = Reach::start(tree, support);
    let accounts = whole_accounts(alloc, tree.layouts())?;
    write(alloc, &mut ledger, &reach, MOST_MOVES, ONE, &accounts)?;
    Ok(ledger)
}

// The accounts at the start: the weight of each class layout goes to the first row.
fn whole_accounts(alloc: Global, layouts: &[(ClassLayout, u64)]) -> Result<Vec<Account>, AllocError>
    requires few { length layouts.now ≤ MOST_CLASS_LAYOUTS }
    requires weights { All (λ layout. layout.1 ≤ MOST_TOTAL) layouts.now }
    ensures { IfOk result (λ accounts. accounts.items
        ≡ map (λ index. record { index = index; row = 0; factor = pos (get_or layouts.now index ([], 0)).1 })
        (range_with_len 0 (length layouts.now))) }
{
    let mut accounts = Vec::with_capacity(alloc, layouts.len())?;
    for index in 0..layouts.len() {
        accounts.push(Account {
            index: index as u8,
            row: 0,
            factor: layouts[index].1 as i64,
        })?;
    }
    Ok(accounts)
}
