//! Class layouts: the layouts of a question by how many cards of each block of missing cards West
//! holds, and their weights.
#![tactic(auto)]

mod class_layout;
mod class_list;
mod class_weights;
pub mod examples;
pub mod laws;
mod sharing;
mod walks;

pub use class_layout::ClassLayout;
pub use class_list::{MOST_CLASS_LAYOUTS, Memory, class_layouts};
pub use class_weights::class_weight;
pub use walks::{ClassWalk, class_index};
