//! The image: a header, and the rows.

ghost use Rattle.std.specs.Prelude.{◌≡◌, ◌+◌, ◌-◌, ◌^◌, ◌<◌, ◌≤◌, ◌++◌, [], length, take, IfOk, IfErr, OnOk, OnErr};
ghost use Rattle.tileblock.specs.Surface.{IsWhole, pixel_of};
ghost use Rattle.tga.specs.Image.{header_bytes, image_bytes};

use crate::row::{ROW, store_row};
use arrayvec::ArrayVec;
use byteorder::{ByteOrder, LittleEndian};
use gfxspec::{Sink, Size, put_all};
use std::alloc::Allocator;
use thiserror::Error;
use tileblock::Target;

/// The sink failed after so many bytes of the image.
#[derive(Clone, Copy, Debug, PartialEq, Eq, Error)]
#[error("the image could not be written past byte {taken}")]
pub struct TgaFault {
    pub taken: u64,
}

/// The first 18 bytes.
fn header(size: Size) -> [u8; 18]
    requires width { size.width < 2 ^ 16 }
    requires height { size.height < 2 ^ 16 }
    ensures { result ≡ header_bytes size }
{
    let mut width = [0; 2];
    LittleEndian::write_u16(&mut width, size.width as u16);
    let mut height = [0; 2];
    LittleEndian::write_u16(&mut height, size.height as u16);
    [
        0, 0, 2, 0, 0, 0, 0, 0, 0, 0, 0, 0, width[0], width[1], height[0], height[1], 32, 0x28,
    ]
}

/// Writes one more piece of the image, and answers how many bytes are written with it.
fn put<W: Sink>(out: &mut W, piece: &[u8], taken: u64) -> Result<u64, TgaFault>
    requires failures { W.failures out.old < 2 ^ 63 }
    requires fits { taken + length piece.now < 2 ^ 64 }
    ensures more { IfOk result (λ n. n ≡ taken + length piece.now) }
    ensures all { W.tells out.old → OnOk result (W.written out.new ≡ W.written out.old ++ piece.now) }
    ensures from { IfErr result (λ fault. taken ≤ fault.taken) }
    ensures to { IfErr result (λ fault. fault.taken < taken + length piece.now) }
    ensures part { W.tells out.old → IfErr result (λ fault.
        W.written out.new ≡ W.written out.old ++ take (fault.taken - taken) piece.now) }
    ensures told { W.tells out.old → W.tells out.new }
    ensures sound { OnOk result (W.failures out.new ≡ W.failures out.old) }
    ensures failed { OnErr result (W.failures out.new ≡ W.failures out.old + 1) }
{
    match put_all(out, piece) {
        Ok(()) => Ok(taken + piece.len() as u64),
        Err(n) => Err(TgaFault {
            taken: taken + n as u64,
        }),
    }
}

/// How many bytes are handed to the sink at once, at most.
const PIECE: usize = 16_384;

/// The bytes of an image on their way to a sink.
#[derive(Drop)]
struct Pieces {
    /// How many bytes the sink took.
    taken: u64,
    /// The bytes behind them that wait.
    waiting: ArrayVec<u8, PIECE>,
}

/// Writes the bytes that wait.
fn flush<W: Sink>(out: &mut W, pieces: &mut Pieces) -> Result<(), TgaFault>
    requires failures { W.failures out.old < 2 ^ 63 }
    requires fits { pieces.old.taken + length pieces.old.waiting.items < 2 ^ 64 }
    ensures all { W.tells out.old → OnOk result (W.written out.new ≡ W.written out.old ++ pieces.old.waiting.items) }
    ensures empty { OnOk result (pieces.new.waiting.items ≡ []) }
    ensures more { OnOk result (pieces.new.taken ≡ pieces.old.taken + length pieces.old.waiting.items) }
    ensures from { IfErr result (λ fault. pieces.old.taken ≤ fault.taken) }
    ensures to { IfErr result (λ fault. fault.taken < pieces.old.taken + length pieces.old.waiting.items) }
    ensures part { W.tells out.old → IfErr result (λ fault.
        W.written out.new ≡ W.written out.old ++ take (fault.taken - pieces.old.taken) pieces.old.waiting.items) }
    ensures told { W.tells out.old → W.tells out.new }
    ensures sound { OnOk result (W.failures out.new ≡ W.failures out.old) }
    ensures failed { OnErr result (W.failures out.new ≡ W.failures out.old + 1) }
{
    pieces.taken = put(out, pieces.waiting.as_slice(), pieces.taken)?;
    pieces.waiting.clear();
    Ok(())
}

/// Puts more bytes behind those that wait, which are written first where a piece has no room for both.
fn add<W: Sink>(out: &mut W, pieces: &mut Pieces, bytes: &[u8]) -> Result<(), TgaFault>
    requires failures { W.failures out.old < 2 ^ 63 }
    requires fits { pieces.old.taken + length pieces.old.waiting.items < 2 ^ 64 }
    requires short { length bytes.now ≤ 16384 }
    ensures all { W.tells out.old → OnOk result (W.written out.new ++ pieces.new.waiting.items
        ≡ (W.written out.old ++ pieces.old.waiting.items) ++ bytes.now) }
    ensures more { OnOk result (pieces.new.taken + length pieces.new.waiting.items
        ≡ pieces.old.taken + length pieces.old.waiting.items + length bytes.now) }
    ensures from { IfErr result (λ fault. pieces.old.taken ≤ fault.taken) }
    ensures to { IfErr result (λ fault. fault.taken < pieces.old.taken + length pieces.old.waiting.items) }
    ensures part { W.tells out.old → IfErr result (λ fault.
        W.written out.new ≡ W.written out.old ++ take (fault.taken - pieces.old.taken) pieces.old.waiting.items) }
    ensures told { W.tells out.old → W.tells out.new }
    ensures sound { OnOk result (W.failures out.new ≡ W.failures out.old) }
    ensures failed { OnErr result (W.failures out.new ≡ W.failures out.old + 1) }
{
    if pieces.waiting.remaining_capacity() < bytes.len() {
        flush(out, pieces)?;
    }
    pieces.waiting.try_extend_from_slice(bytes).unwrap();
    Ok(())
}

/// Writes a target's image.
#[inline(never)]
pub fn write_tga<W: Sink, A: Allocator>(out: &mut W, target: &Target<A>) -> Result<(), TgaFault>
    requires whole { IsWhole target.now }
    requires failures { W.failures out.old < 2 ^ 63 }
    ensures image { W.tells out.old → OnOk result (W.written out.new
        ≡ W.written out.old ++ image_bytes target.now.size (pixel_of target.now)) }
    ensures part { W.tells out.old → IfErr result (λ fault. W.written out.new
        ≡ W.written out.old ++ take fault.taken (image_bytes target.now.size (pixel_of target.now))) }
    ensures partly { IfErr result (λ fault.
        fault.taken < length (image_bytes target.now.size (pixel_of target.now))) }
    ensures told { W.tells out.old → W.tells out.new }
    ensures sound { OnOk result (W.failures out.new ≡ W.failures out.old) }
    ensures failed { OnErr result (W.failures out.new ≡ W.failures out.old + 1) }
{
    let size = target.size();
    let mut pieces = Pieces {
        taken: 0,
        waiting: ArrayVec::new(),
    };
    add(out, &mut pieces, &header(size))?;
    let mut row = [[0; 4]; ROW];
    let mut band = None;
    for y in 0..size.height {
        band = store_row(&mut row, band, target, y);
        add(out, &mut pieces, row[..size.width as usize].as_flattened())?;
    }
    flush(out, &mut pieces)
}
