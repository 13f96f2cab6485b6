//! Plans of declarer and of the defence over the class game, and the test that they are realisation plans.
#![tactic(auto)]

mod allowed;
mod counts;
mod defence;
mod faults;
pub mod laws;
mod lookup;
mod moves;
mod order;
mod plan;
mod player;
mod proper;
mod row_faults;
mod sharing;
mod turns;

pub use counts::{Counts, share};
pub use defence::{Defence, DefenceRow, DefenceRows};
pub use faults::{PlanFault, PlanKind};
pub use lookup::{defence_shares_at, plan_shares_at};
pub use moves::{DeclarerMove, DeclarerMoves, DefenceMove, DefenceMoves};
pub use plan::{MOST_DEN, MOST_MASS, Plan, Row, Rows, WORTH_BOUND};
pub use proper::{proper_defence, proper_plan};
pub use turns::{is_declarers, is_defences, is_first};
