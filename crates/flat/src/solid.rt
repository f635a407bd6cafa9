// A triangle that is ready to be drawn: its area is above 0, and what it can reach is known.
ghost use Rattle.std.specs.Prelude.{◌≡◌, true, pos};
ghost use Rattle.std.specs.Int.Signed.{lt_z};
ghost use Rattle.flat.specs.Tri.{Placed, area_of};
ghost use Rattle.flat.specs.Drawing.{Boxed};

use crate::tri::Tri;
use screen::bounds::Bounds;

// With its area, and a box outside which it covers nothing. It is passed by value: behind a reference
// it would be read again after each store into the picture, and a row takes a quarter longer.
#[derive(Clone, Copy)]
pub struct Solid {
    pub tri: Tri,
    pub area: i64,
    pub bounds: Bounds,
    ghost placed: { Placed tri },
    ghost is_area: { area ≡ area_of tri },
    ghost upward: { lt_z (pos 0) (area_of tri) ≡ true },
    ghost boxed: { Boxed tri bounds },
}

impl Solid {
    pub fn new(tri: Tri, area: i64) -> Solid
        requires placed { Placed tri }
        requires is_area { area ≡ area_of tri }
        requires upward { lt_z (pos 0) (area_of tri) ≡ true }
        ensures { result.tri ≡ tri }
    {
        Solid {
            tri,
            area,
            bounds: crate::bounds::bounds_of(tri),
        }
    }
}
