//! Which channels of a colour are written.

ghost use Rattle.std.specs.Prelude.{◌≡◌, ◌<◌, ◌↔◌, IsSome, IfSome};

use bitflags::{Bits, Flag, Flags};
use std::ops::{BitAnd, BitOr, BitXor, Not};

/// A set of channels (Direct3D 11.3 Functional Specification, "Output Merger Stage", render target write mask).
///
/// With four flags and nothing else, no bit stands above them. The set is its own `Bits`, so that each operation of
/// `Flags` is told to its callers.
#[derive(Clone, Copy, Debug, PartialEq, Eq)]
pub struct ColorMask {
    pub red: bool,
    pub green: bool,
    pub blue: bool,
    pub alpha: bool,
}

impl ColorMask {
    ghost use Rattle.states.specs.ColorMask.{mask_bits};

    const NONE: ColorMask = ColorMask {
        red: false,
        green: false,
        blue: false,
        alpha: false,
    };

    pub const RED: ColorMask = ColorMask {
        red: true,
        ..ColorMask::NONE
    };

    pub const GREEN: ColorMask = ColorMask {
        green: true,
        ..ColorMask::NONE
    };

    pub const BLUE: ColorMask = ColorMask {
        blue: true,
        ..ColorMask::NONE
    };

    pub const ALPHA: ColorMask = ColorMask {
        alpha: true,
        ..ColorMask::NONE
    };

    const FLAGS: &'static [Flag<ColorMask>] = &[
        Flag {
            name: "RED",
            value: ColorMask::RED,
        },
        Flag {
            name: "GREEN",
            value: ColorMask::GREEN,
        },
        Flag {
            name: "BLUE",
            value: ColorMask::BLUE,
        },
        Flag {
            name: "ALPHA",
            value: ColorMask::ALPHA,
        },
    ];

    /// No channel.
    #[inline]
    pub fn empty() -> Self
        ensures { mask_bits result ≡ 0 }
    {
        ColorMask::NONE
    }

    /// All four channels.
    #[inline]
    pub fn all() -> Self
        ensures { mask_bits result ≡ 15 }
    {
        !ColorMask::NONE
    }

    /// The set with these bits, if each of them is a channel's.
    #[inline]
    pub fn from_bits(bits: u8) -> Option<Self>
        ensures some { IsSome result ↔ (bits < 16) }
        ensures value { IfSome result (λ mask. mask_bits mask ≡ bits) }
    {
        if bits < 16 {
            Some(ColorMask {
                red: bits & 1 != 0,
                green: bits & 2 != 0,
                blue: bits & 4 != 0,
                alpha: bits & 8 != 0,
            })
        } else {
            None
        }
    }

    /// Its bits: red is 1, green 2, blue 4, alpha 8.
    #[inline]
    pub fn bits(self) -> u8
        ensures { result ≡ mask_bits self }
    {
        u8::from(self.red)
            + 2 * u8::from(self.green)
            + 4 * u8::from(self.blue)
            + 8 * u8::from(self.alpha)
    }
}

impl BitAnd for ColorMask {
    ghost use Rattle.std.specs.Prelude.{◌≡◌, bit_and};
    ghost use Rattle.states.specs.ColorMask.{mask_bits};

    type Output = ColorMask;

    ghost bitand_gives = { λ a b r. mask_bits r ≡ bit_and (mask_bits a) (mask_bits b) };

    #[inline]
    fn bitand(self, other: ColorMask) -> ColorMask {
        ColorMask {
            red: self.red & other.red,
            green: self.green & other.green,
            blue: self.blue & other.blue,
            alpha: self.alpha & other.alpha,
        }
    }
}

impl BitOr for ColorMask {
    ghost use Rattle.std.specs.Prelude.{◌≡◌, bit_or};
    ghost use Rattle.states.specs.ColorMask.{mask_bits};

    type Output = ColorMask;

    ghost bitor_gives = { λ a b r. mask_bits r ≡ bit_or (mask_bits a) (mask_bits b) };

    #[inline]
    fn bitor(self, other: ColorMask) -> ColorMask {
        ColorMask {
            red: self.red | other.red,
            green: self.green | other.green,
            blue: self.blue | other.blue,
            alpha: self.alpha | other.alpha,
        }
    }
}

impl BitXor for ColorMask {
    ghost use Rattle.std.specs.Prelude.{◌≡◌, bit_xor};
    ghost use Rattle.states.specs.ColorMask.{mask_bits};

    type Output = ColorMask;

    ghost bitxor_gives = { λ a b r. mask_bits r ≡ bit_xor (mask_bits a) (mask_bits b) };

    #[inline]
    fn bitxor(self, other: ColorMask) -> ColorMask {
        ColorMask {
            red: self.red ^ other.red,
            green: self.green ^ other.green,
            blue: self.blue ^ other.blue,
            alpha: self.alpha ^ other.alpha,
        }
    }
}

impl Not for ColorMask {
    ghost use Rattle.std.specs.Prelude.{◌≡◌, ◌-◌};
    ghost use Rattle.states.specs.ColorMask.{mask_bits};

    type Output = ColorMask;

    ghost not_gives = { λ a r. mask_bits r ≡ 15 - mask_bits a };

    #[inline]
    fn not(self) -> ColorMask {
        ColorMask {
            red: !self.red,
            green: !self.green,
            blue: !self.blue,
            alpha: !self.alpha,
        }
    }
}

impl Bits for ColorMask {
    ghost use Rattle.states.specs.ColorMask.{mask_bits};
    ghost use Rattle.states.specs.MaskLaws.{same_flags};

    ghost pattern = { mask_bits };

    ghost size = { 4 };

    fn empty() -> ColorMask {
        ColorMask::empty()
    }

    fn all() -> ColorMask {
        ColorMask::all()
    }

    ghost can_law = { λ a b. (tt, tt, tt) };

    ghost can_not_law = { λ a. tt };

    ghost and_law = { λ a b r h. h };

    ghost or_law = { λ a b r h. h };

    ghost xor_law = { λ a b r h. h };

    ghost not_law = { λ a r h. h };

    ghost eq_law = { same_flags };
}

impl Flags for ColorMask {
    ghost use Rattle.std.specs.Prelude.{⊤, [], ◌∷◌, codes};
    ghost use Rattle.states.specs.ColorMask.{mask_bits};

    type Bits = ColorMask;

    ghost exact = { ⊤ };

    ghost table = { (codes "RED", 1) ∷ (codes "GREEN", 2) ∷ (codes "BLUE", 4) ∷ (codes "ALPHA", 8) ∷ [] };

    ghost set_of = { mask_bits };

    fn flags<'a>() -> &'a [Flag<ColorMask>] {
        ColorMask::FLAGS
    }

    fn bits(&self) -> ColorMask {
        *self
    }

    fn from_bits_retain(bits: ColorMask) -> ColorMask {
        bits
    }
}
