//! The text of answers: their lines, one behind the other.

ghost use Rattle.std.specs.Prelude.{◌≡◌, ◌++◌, List, length, take, option_to_list, OnOk, OnErr};
ghost use Rattle.answers.specs.declared.line.Answer.{Answer};
ghost use Rattle.answers.specs.Lines.{answer_lines};
ghost use Rattle.answers.specs.Ends.{lines_end};

use crate::line::{Answer, answer_line};
use std::alloc::{AllocError, Allocator};

/// Adds the line of an answer, if there is one.
pub fn add_answer<A: Allocator>(
    text: &mut Vec<u8, A>,
    answer: Option<Answer>,
) -> Result<(), AllocError>
    ensures added { OnOk result (text.new.items ≡ text.old.items ++ answer_lines (option_to_list answer)) }
    ensures kept { OnErr result (text.new.items ≡ text.old.items) }
{
    match answer {
        Some(answer) => text.extend_from_slice(answer_line(answer).as_bytes()),
        None => Ok(()),
    }
}

/// Where the first lines of a text end, so many of them, or the text.
fn lines_end(text: &[u8], count: usize) -> usize
    ensures { result ≡ lines_end count text.now }
{
    let mut left = count;
    for at in 0..text.len() {
        if left == 0 {
            return at;
        }
        if text[at] == b'\n' {
            left -= 1;
        }
    }
    text.len()
}

/// The text of the first of some answers, so many of them, or of all.
pub fn first_lines<A: Allocator>(text: Vec<u8, A>, count: usize) -> Vec<u8, A>
    ensures { (answers : List Answer) → text.items ≡ answer_lines answers → result.items ≡ answer_lines (take count answers) }
{
    let end = lines_end(text.as_slice(), count);
    let mut text = text;
    text.truncate(end);
    text
}
