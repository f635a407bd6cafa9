// The columns and the rows of the screen that a triangle can reach.
ghost use Rattle.std.specs.Prelude.{ℕ, ◌<◌, ◌≤◌};
ghost use Rattle.screen.specs.Plane.{width};
ghost use Rattle.flat.specs.Tri.{Placed};
ghost use Rattle.flat.specs.Drawing.{Before, Beyond, Boxed};

use crate::tri::Tri;
use screen::bounds::Bounds;
use screen::plane::{VPU_HEIGHT, VPU_WIDTH};

// Of n columns or rows the first that is not before all three corners, or n.
fn first(a: i64, b: i64, c: i64, n: usize) -> usize
    requires { n ≤ width }
    ensures { (result ≤ n) × ((x : ℕ) → x < result → Before x a b c) }
{
    a.min(b).min(c).clamp(0, n as i64) as usize
}

// The first that is beyond them, or n.
fn after(a: i64, b: i64, c: i64, n: usize) -> usize
    requires { n ≤ width }
    ensures { (result ≤ n) × ((x : ℕ) → result ≤ x → x < n → Beyond x a b c) }
{
    (a.max(b).max(c).clamp(-1, n as i64 - 1) + 1) as usize
}

pub fn bounds_of(t: Tri) -> Bounds
    requires { Placed t }
    ensures { Boxed t result }
{
    Bounds {
        left: first(t.p0.x, t.p1.x, t.p2.x, VPU_WIDTH),
        right: after(t.p0.x, t.p1.x, t.p2.x, VPU_WIDTH),
        top: first(t.p0.y, t.p1.y, t.p2.y, VPU_HEIGHT),
        bottom: after(t.p0.y, t.p1.y, t.p2.y, VPU_HEIGHT),
    }
}
