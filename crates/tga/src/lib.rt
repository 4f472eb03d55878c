//! Targets as Truevision TGA images, uncompressed, 32 bits a pixel.
//!
//! A row is made tile by tile in a buffer: of what a tile stores eight pixels at a time, and of one that nothing is
//! drawn on one colour 32 times. Where no tile of a row of tiles is drawn on, their first row is handed on for each of
//! theirs. A row's part on the target waits with others until some 16 KiB are there, which are handed on as one piece.
//! So nothing is counted or tested per pixel, and no memory is taken.
#![tactic(auto)]

mod image;
mod row;

pub use image::{TgaFault, write_tga};
