//! Eight walks whose depths are moved by a bias.

ghost use Rattle.std.specs.Prelude.{◌≡◌, ◌<◌};
ghost use Rattle.gfxspec.specs.Limits.{side_bound};

use crate::bias::with_bias8;
use crate::plane::Plane;
use crate::walks::Walks;
use crate::walks_scaled::ScaledWalks;
use std::marker::Model;

/// Eight walks over the depths of a triangle before its bias, and the bias, which is added where depths are asked for.
#[derive(Drop)]
pub struct BiasedWalks<'a> {
    walks: ScaledWalks<'a>,
    bias: i32,
}

impl<'a> Model for BiasedWalks<'a> {
    ghost use Rattle.depthplane.specs.Places.{Places};

    ghost Value = { Places };

    ghost use Rattle.depthplane.specs.BiasedInside.{place_of, IsUnbiased};

    ghost view = { place_of };

    ghost invariant = { IsUnbiased };
}

impl Plane {
    /// Eight walks that begin at pixel (x, y) and the seven to its right, and whose depths are moved by the plane's bias.
    pub fn walk_eight_biased(&self, x: u32, y: u32) -> BiasedWalks<'_>
        requires x { x < side_bound }
        requires y { y < side_bound }
        ensures { result ≡ record { plane = self.now; left = x; top = y; x = x; y = y } }
    {
        BiasedWalks {
            walks: self.walk_eight(x, y),
            bias: self.bias(),
        }
    }
}

impl<'a> Walks for BiasedWalks<'a> {
    ghost place = { λ w. w };

    #[inline(always)]
    fn is_sure(&self) -> bool {
        self.walks.is_sure()
    }

    #[inline]
    fn depths(&self) -> [u32; 8] {
        with_bias8(self.walks.depths(), self.bias)
    }

    #[inline]
    fn next(&mut self) {
        self.walks.next();
    }

    #[inline]
    fn eight_right(&mut self) {
        self.walks.eight_right();
    }

    #[inline]
    fn copied(&self) -> Self {
        BiasedWalks {
            walks: self.walks.copied(),
            bias: self.bias,
        }
    }
}
