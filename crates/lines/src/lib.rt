// A line of a script: its words and numbers.
#![tactic(auto)]

mod numbers;
mod parts;

pub use numbers::field_at;
pub use parts::{is_named, is_passed, word_at};
