//! Best replies: the least that a plan earns, and the most that a defence lets declarer earn.
#![tactic(auto)]

mod against_defence;
mod against_plan;
mod chosen_move;
mod layouts_reply;
mod node_moves;
mod node_reply;
mod on_threads;
mod turn_rule;
mod turn_so_far;

pub use against_defence::most;
pub use against_plan::least;
pub use on_threads::{MOST_CHUNKS, least_on};
pub use suit_layouts::Memory;
pub use suit_plans::{DeclarerMoves as DeclarerReply, DefenceMoves as DefenceReply};
