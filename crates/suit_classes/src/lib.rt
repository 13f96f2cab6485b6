//! The game of classes: touching cards that one side holds are one class, and play is told by classes alone.
#![tactic(auto)]

mod class_counts;
mod class_moves;
mod class_place;
mod class_trick;
mod class_turn;
mod class_view;
mod classes;
pub mod examples;
mod history;
pub mod laws;
mod sharing;

pub use class_moves::{ClassMove, is_among};
pub use class_place::ClassPlace;
pub use class_trick::ClassTrick;
pub use class_turn::ClassTurn;
pub use class_view::ClassView;
pub use classes::{Classes, MOST_CLASSES, MOST_DEFENCE_CLASSES, Memory, Owner};
pub use history::History;
