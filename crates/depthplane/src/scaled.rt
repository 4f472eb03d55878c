//! Heights divided by the area, in 2^32nds: a step is one addition of 64 bits, and the depth is the high half.

ghost use Rattle.std.specs.Prelude.{◌≡◌, ℤ, ◌≤◌, ◌<◌, ◌+◌, ◌*◌, ◌%◌, ◌^◌, pos, unsigned_abs, ℕ, slice_index, IsTrue};
ghost use Rattle.gfxspec.specs.Limits.{side_bound};
ghost use Rattle.depthplane.specs.Division.{IsDivision, IsDivisor, IsRest};
ghost use Rattle.depthplane.specs.Linear.{IsHeight};
ghost use Rattle.depthplane.specs.Scaled.{IsGentle, IsScaled, IsScaledLinear, scaled_at};

use crate::division::{Divided, divide_wide};
use crate::divisor::Divisor;
use crate::height::Linear;
use crate::start::Start;

/// One unit of depth, in 2^32nds.
pub(crate) const UNIT: u64 = 4_294_967_296;

/// A unit is this times itself: the rest of a great divisor is scaled in two steps, so that each division is one of 64 bits.
const HALF: u64 = 65_536;

/// A number that is linear over the target, times 2^32 and divided by the area: its value at the centre of a pixel, and what
/// a pixel to the right or down adds to it. Each is rounded up, and multiples of 2^64 are left out. The value is kept as what
/// leads to it from pixel (0, 0), by steps that are rounded already: so it's exact where a triangle begins, and each step from there adds an error.
#[derive(Clone, Copy, Debug)]
pub(crate) struct Scaled {
    pub(crate) origin: u64,
    pub(crate) right: u64,
    pub(crate) down: u64,
    /// By how many 2^32nds each may be too great: 0 where no rest was rounded up, and else 1.
    pub(crate) error: u8,
    /// Whether a pixel to the right adds nothing below 0, and a pixel down.
    pub(crate) rises_right: bool,
    pub(crate) rises_down: bool,
    /// Whether no value between the triangle's corners may be too great by so much that its whole part is.
    pub(crate) sure: bool,
    /// Whether a pixel to the right or down changes the number by fewer than 2^24 units.
    pub(crate) gentle: bool,
}

/// A rest in 2^32nds of its divisor, rounded up. A divisor below 2^32 takes one step, since the rest is below it.
#[inline(always)]
fn fraction(rest: i64, divisor: Divisor) -> u64
    requires { IsRest (pos divisor.number) rest }
    ensures least { 4294967296 * unsigned_abs rest ≤ result * divisor.number }
    ensures most { result * divisor.number < 4294967296 * unsigned_abs rest + divisor.number }
{
    let rest = rest as u64;
    if divisor.number < UNIT {
        let (whole, last) = divisor.parts(rest * UNIT);
        return whole + last.min(1);
    }
    let (high, left) = divisor.parts(rest * HALF);
    let (low, last) = divisor.parts(left * HALF);
    high * HALF + low + last.min(1)
}

/// A division in 2^32nds, rounded up.
#[inline(always)]
fn parts_of(division: Divided, divisor: Divisor) -> u64
    requires { IsRest (pos divisor.number) division.remainder }
    ensures near { (n : ℤ) → IsDivision n (pos divisor.number) division → IsScaled n (pos divisor.number) 1 result }
    ensures exact { (n : ℤ) → division.remainder ≡ pos 0 → IsDivision n (pos divisor.number) division → IsScaled n (pos divisor.number) 0 result }
{
    u64::from(division.quotient)
        .wrapping_mul(UNIT)
        .wrapping_add(fraction(division.remainder, divisor))
}

/// One division of a number that may need 128 bits; where it needs no more than 64, it is divided as such.
#[inline(always)]
fn divide_origin(number: i128, divisor: Divisor) -> Divided
    requires { unsigned_abs number ≤ 2 ^ 100 }
    ensures exact { IsDivision number (pos divisor.number) result }
    ensures rest { IsRest (pos divisor.number) result.remainder }
{
    match i64::try_from(number) {
        Ok(narrow) => divisor.divide(narrow),
        Err(_) => divide_wide(number, divisor.number as i64),
    }
}

/// By how much a rounded division may be too great, in 2^32nds: not at all where none of them has a rest.
fn error_of(origin: Divided, right: Divided, down: Divided) -> u8
    ensures small { result ≤ 1 }
    ensures origin { result ≡ 0 → origin.remainder ≡ pos 0 }
    ensures right { result ≡ 0 → right.remainder ≡ pos 0 }
    ensures down { result ≡ 0 → down.remainder ≡ pos 0 }
{
    if origin.remainder == 0 && right.remainder == 0 && down.remainder == 0 {
        0
    } else {
        1
    }
}

/// Whether values that may be too great by so many 2^32nds, and by as many more for each of so many steps, still have the right whole parts: the least that
/// a quotient lacks to the next whole number is 1 divided by the divisor.
#[inline(always)]
fn is_sure(divisor: i64, error: u8, steps: u32) -> bool
    requires divisor { IsDivisor divisor }
    requires error { error ≤ 1 }
    requires steps { steps ≤ 16384 }
    ensures { IsTrue result → unsigned_abs divisor * (error * (1 + steps)) < 4294967296 }
{
    error == 0 || divisor.unsigned_abs() * u64::from(1 + steps) < UNIT
}

/// What leads to a value at (x, y) from pixel (0, 0).
#[inline(always)]
fn led_back(value: u64, right: u64, down: u64, x: u32, y: u32) -> u64
    ensures { (result + right * x + down * y) % 18446744073709551616 ≡ value }
{
    value
        .wrapping_sub(right.wrapping_mul(u64::from(x)))
        .wrapping_sub(down.wrapping_mul(u64::from(y)))
}

/// A step changes a number by fewer than this many units where it is gentle.
const GENTLE: u64 = 16_777_216;

/// Whether the steps of a linear number are gentle, once they are divided.
#[inline(always)]
fn is_gentle(number: Linear, divisor: i64) -> bool
    requires divisor { IsDivisor divisor }
    ensures { IsTrue result → IsGentle number divisor }
{
    let steepest = number
        .step_x
        .unsigned_abs()
        .max(number.step_y.unsigned_abs());
    steepest / GENTLE < divisor.unsigned_abs()
}

impl Scaled {
    /// A linear number's value where a triangle begins and its steps, divided, in 2^32nds.
    #[inline(always)]
    pub(crate) fn of(number: Linear, divisor: i64, start: Start) -> Scaled
        requires divisor { IsDivisor divisor }
        requires small { IsHeight number }
        requires left { start.left ≤ 4096 }
        requires top { start.top ≤ 4096 }
        requires steps { start.steps ≤ 16384 }
        ensures { IsScaledLinear number divisor start result }
    {
        let by = Divisor::of(divisor);
        let begins = divide_origin(number.at(start.left, start.top), by);
        let across = by.divide(number.step_x);
        let below = by.divide(number.step_y);
        let right = parts_of(across, by);
        let down = parts_of(below, by);
        let error = error_of(begins, across, below);
        Scaled {
            origin: led_back(parts_of(begins, by), right, down, start.left, start.top),
            right,
            down,
            error,
            rises_right: number.step_x >= 0,
            rises_down: number.step_y >= 0,
            sure: is_sure(divisor, error, start.steps),
            gentle: is_gentle(number, divisor),
        }
    }

    /// The value at pixel (x, y).
    #[inline]
    pub(crate) fn at(self, x: u32, y: u32) -> u64
        ensures { result ≡ scaled_at self x y }
    {
        let along = self.right.wrapping_mul(u64::from(x));
        let below = self.down.wrapping_mul(u64::from(y));
        self.origin.wrapping_add(along).wrapping_add(below)
    }

    /// The values at pixel (x, y) and the seven to its right.
    pub(crate) fn eight_at(self, x: u32, y: u32) -> [u64; 8]
        requires x { x < side_bound }
        ensures { (j : ℕ) → j < 8 → slice_index result j ≡ scaled_at self (x + j) y }
    {
        let mut values = [0; 8];
        let mut value = self.at(x, y);
        for j in 0..8usize {
            values[j] = value;
            value = value.wrapping_add(self.right);
        }
        values
    }
}
