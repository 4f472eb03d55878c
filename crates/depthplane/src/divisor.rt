//! Many divisions by one number: each is a multiplication by its inverse.

ghost use Rattle.std.specs.Prelude.{◌≡◌, ◌*◌, ◌/◌, ◌%◌, pos};
ghost use Rattle.depthplane.specs.Division.{IsDivision, IsDivisor, IsRest, mirror};

use crate::division::Divided;

/// A number that divides others, and how often it's contained in the greatest number of 64 bits, rounded down.
#[derive(Clone, Copy, Debug)]
pub(crate) struct Divisor {
    pub(crate) number: u64,
    inverse: u64,
    pub ghost is_divisor: { IsDivisor (pos number) },
    pub ghost inverse_is: { inverse ≡ 18446744073709551615 / number },
}

/// The high half of a product: the first factor times the second, which is taken for so many 2^64ths.
#[inline(always)]
fn scaled_down(number: u64, parts: u64) -> u64
    ensures { result ≡ number * parts / 18446744073709551616 }
{
    (u128::from(number) * u128::from(parts) / 18_446_744_073_709_551_616) as u64
}

/// A number as it is, or one that is below 0 as what it lies below -1.
#[inline(always)]
fn mirrored(number: i64) -> u64
    ensures { result ≡ mirror number }
{
    (if number < 0 { -(number + 1) } else { number }) as u64
}

impl Divisor {
    /// A number above 0, made ready to divide others: the one division that takes its time.
    pub(crate) fn of(number: i64) -> Divisor
        requires { IsDivisor number }
        ensures { pos result.number ≡ number }
    {
        let number = number.unsigned_abs();
        Divisor {
            number,
            inverse: u64::MAX / number,
        }
    }

    /// A quotient and its rest. The inverse was rounded down, and leads to the quotient or the number below it.
    #[inline(always)]
    pub(crate) fn parts(self, number: u64) -> (u64, u64)
        ensures quotient { result.0 ≡ number / self.number }
        ensures rest { result.1 ≡ number % self.number }
    {
        let guess = scaled_down(number, self.inverse);
        let left = number - guess * self.number;
        if left < self.number {
            (guess, left)
        } else {
            (guess + 1, left - self.number)
        }
    }

    /// One division.
    #[inline(always)]
    pub(crate) fn divide(self, number: i64) -> Divided
        ensures exact { IsDivision number (pos self.number) result }
        ensures rest { IsRest (pos self.number) result.remainder }
    {
        let (whole, left) = self.parts(mirrored(number));
        let low = (whole % 4_294_967_296) as u32;
        if number < 0 {
            Divided {
                quotient: 4_294_967_295 - low,
                remainder: (self.number - 1 - left) as i64,
            }
        } else {
            Divided {
                quotient: low,
                remainder: left as i64,
            }
        }
    }
}
