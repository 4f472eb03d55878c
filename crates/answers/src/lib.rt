//! Answer lines: what a session answers, how each answer is spelled, and the text of the answers so far.
#![tactic(auto)]

mod line;
mod text;

pub use line::{Answer, answer_line};
pub use text::{add_answer, first_lines};
