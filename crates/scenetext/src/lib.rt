//! Reads a script: the scene that a text spells, or the first faulty line and the number of its fault.
//!
//! A script is a list of lines of words with one space between them; numbers are in plain decimal. specs/ says what a
//! text spells (`Spelling`) and what is wrong with it (`Faults`), each without the other, and the law `one_reading`
//! ties the two. The reader goes over the bytes of a line twice: for its form, 32 bytes at a time, which counts its
//! words; and for its words, where the digits of a number are read while the end of its word is looked for. It keeps no
//! word, and takes memory for vertices, indices and lines alone.
#![tactic(auto)]

mod argument;
mod fault;
mod law;
mod lines;
mod numbers;
mod range;
mod reader;
mod scene;
mod text;
mod verbs;
mod words;

pub use law::one_reading;
pub use reader::{read, read_line};
pub use scene::{Actor, Line, Scene, Verb};
