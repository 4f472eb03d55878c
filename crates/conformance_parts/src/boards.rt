//! The board and its layers together, on jobs without pixels: worked rows, refused growths, and threads that meet and rob.

mod amounts;
mod growths;
mod meeting;
mod named;
mod quiet;
mod rows;
mod stealing;
